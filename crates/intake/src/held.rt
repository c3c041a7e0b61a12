// The buffers that files are held in. Their lengths are said here, where they are made.
ghost use Rattle.std.specs.Prelude.{◌≡◌, length};
ghost use Rattle.intake.specs.Zeros.{zero_bytes};

use desk::Session;
use tray::Tray;

#[derive(Drop)]
pub struct Size;

impl Size {
    // Records of a file, at most.
    const RECORDS: usize = Session::FILE_LIMIT / Session::RECORD;
    // One record more than a tray that a file can be built from; longer than any file.
    pub const INPUT: usize = (Size::RECORDS + 1) * Tray::RECORD;
    // Whole records of 96 bytes and of 250, and longer than what the job of any form can take: the rest is looked at in pieces of so many.
    pub const LONG: usize = 26125 * Tray::RECORD;
    // The longest tray that a file can be stripped to; longer than any file.
    pub const OUTPUT: usize = Size::RECORDS * Tray::RECORD;
}

// A buffer before anything is in it.
pub fn zeros<const N: usize>() -> [u8; N]
    ensures { (N ≡ length result) × (result ≡ zero_bytes N) }
{
    [0; N]
}

// A file, or an extract.
pub fn input() -> [u8; Size::INPUT]
    ensures { (960096 ≡ length result) × (result ≡ zero_bytes 960096) }
{
    zeros()
}

// A tray, or a company's file.
pub fn long() -> [u8; Size::LONG]
    ensures { (2508000 ≡ length result) × (result ≡ zero_bytes 2508000) }
{
    zeros()
}

// What a job writes.
pub fn output() -> [u8; Size::OUTPUT]
    ensures { (960000 ≡ length result) × (result ≡ zero_bytes 960000) }
{
    zeros()
}
