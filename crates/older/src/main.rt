// Asks a source for its first bytes twice, the second time from a copy that is older than what was handed over, and prints what comes. A file hands them over
// again; a pipe must not hand over others.
#![tactic(auto)]

use files::taking;
use files::taking::Source;

// What names the file.
const WORD: usize = 1;

const PIECE: usize = 4;

// Standard output.
const STDOUT: i32 = 1;

fn ask(source: Source, path: &[u8]) {
    let mut piece = [0u8; PIECE];
    if source.fill(path, &mut piece).is_ok() {
        io::write_all(STDOUT, &piece);
    }
}

fn main(rt: HostRuntime) {
    let mut path = io::buffer();
    let path = taking::name(&rt, WORD, &mut path).unwrap_or(b"");
    let Ok(source) = Source::open(&rt, path) else {
        return;
    };
    let Ok(older) = source.copied() else {
        return;
    };
    ask(source, path);
    ask(older, path);
}
