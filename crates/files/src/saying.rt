// What went wrong, on standard error: behind the counter's name, the file as typed, and what is wrong with it.
use std::io::{Cursor, Error, Write};

// Standard error.
const STDERR: i32 = 2;

// Room for what an error says, which has 80 bytes at most where it is no error of the system's.
const SAID: usize = 256;

// What the error says before the system's number of it, which stands in brackets behind a blank.
fn words<'a>(error: &Error, said: &'a [u8]) -> &'a [u8] {
    if error.raw_os_error().is_none() {
        return said;
    }
    match said.iter().rposition(|b| *b == b'(') {
        Some(bracket) => &said[..bracket.saturating_sub(1)],
        None => said,
    }
}

// A line: what failed, and what the error says.
pub fn fail(what: &[u8], error: &Error) {
    let mut text = Cursor::new([0u8; SAID]);
    let _ = write!(text, "{error}");
    let said = text.position().min(SAID as u64) as usize;
    let text = text.into_inner();
    io::write_all(STDERR, what);
    io::write_all(STDERR, b": ");
    io::write_all(STDERR, words(error, &text[..said]));
    io::write_all(STDERR, b"\n");
}

fn begin() {
    io::write_all(STDERR, b"counter: ");
}

// A call of the system failed on the file; the error says why.
pub fn failed(path: &[u8], error: &Error) {
    begin();
    fail(path, error);
}

// A call of the system failed on something that the file needs.
pub fn failed_for(path: &[u8], needed: &[u8], error: &Error) {
    begin();
    io::write_all(STDERR, path);
    io::write_all(STDERR, b": it needs ");
    fail(needed, error);
}

pub fn wrong(path: &[u8], what: &[u8]) {
    begin();
    io::write_all(STDERR, path);
    io::write_all(STDERR, b": ");
    io::write_all(STDERR, what);
    io::write_all(STDERR, b"\n");
}
