// The words of the call, as they were typed: they need not be text.
ghost use Rattle.std.specs.Prelude.{◌≤◌, length};

use std::rt::Env;

// A word, put into the buffer: empty where there is none, or one that is longer than the buffer.
pub fn word<'a>(words: &impl Env, i: usize, buf: &'a mut [u8]) -> &'a [u8]
    ensures { length result.now ≤ length buf.old }
{
    match words.arg(i, buf) {
        Ok(length) => &buf[..length],
        Err(_) => b"",
    }
}
