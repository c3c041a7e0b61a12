// Prints the positions that the file on standard input makes, or why it is refused.
#![tactic(auto)]

use files::ending::Stopped;
use files::{ending, saying, standard};
use listing::Listing;
use std::io::Error;

// The word that says where the launcher listens.
const LAUNCHER: usize = 1;

// Standard error.
const STDERR: i32 = 2;

// One byte more than the program takes shows that there was more.
const PAST_LIMIT: usize = Listing::INPUT + 1;

// A call of the system failed on standard input or output; the error says why.
fn failed(what: &[u8], error: &Error) -> Stopped {
    io::write_all(STDERR, b"positions: ");
    saying::fail(what, error);
    Stopped::Undone
}

fn serve(rt: &(impl Input + Print)) -> Result<(), Stopped> {
    let mut file = [0u8; PAST_LIMIT];
    let n = standard::input(rt, &mut file).map_err(|error| failed(b"standard input", &error))?;
    let mut out = [0u8; Listing::ROOM];
    let written = listing::positions(&file[..n], &mut out);
    rt.write_all(&out[..written])
        .map_err(|error| failed(b"standard output", &error))?;
    // a listing begins with its heading, a refusal with its word
    if out[0] == b'R' {
        return Err(Stopped::Refused);
    }
    Ok(())
}

fn main(rt: HostRuntime) {
    ending::tell(&rt, LAUNCHER, serve(&rt));
}
