// Standard input, read into a lent buffer. Who reads it says what went wrong.
ghost use Rattle.std.specs.Io.{ReadsAtMost};

use crate::filling;
use std::io;

// As much as the buffer takes.
pub fn input(rt: &impl Input, buf: &mut [u8]) -> io::Result<usize>
    ensures { ReadsAtMost result buf.new }
{
    filling::fill(&mut rt.reader(), buf)
}
