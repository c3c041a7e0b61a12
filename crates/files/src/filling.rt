// Readings into one buffer, one behind the other, wherever the bytes come from.
ghost use Rattle.std.specs.Io.{ReadsAtMost};

use std::io;
use std::io::{ErrorKind, Read};

// How often a reading that a signal came before is begun again, so that it ends.
const TRIES: usize = 1000000;

// A signal came before the first byte.
fn interrupted(got: &io::Result<usize>) -> bool {
    matches!(got, Err(error) if error.kind() == ErrorKind::Interrupted)
}

// What one reading brings, begun again where a signal came before its first byte; nothing at the end.
fn read_once(from: &mut impl Read, buf: &mut [u8]) -> io::Result<usize>
    ensures { ReadsAtMost result buf.new }
{
    for _ in 0..TRIES {
        let got = from.read(buf);
        if !interrupted(&got) {
            return got;
        }
    }
    from.read(buf)
}

// As much as the buffer takes.
pub(crate) fn fill(from: &mut impl Read, buf: &mut [u8]) -> io::Result<usize>
    ensures { ReadsAtMost result buf.new }
{
    let mut done: usize = 0;
    // no `for`: a turn goes on by as much as was read
    while done < buf.len() {
        let more = read_once(from, &mut buf[done..])?;
        if more == 0 {
            break;
        }
        done += more;
    }
    Ok(done)
}
