// The modes of files, as the launcher hands them over: three octal digits for each file, or three other characters where none stands there.
ghost use Rattle.std.specs.Prelude.{◌≡◌};
ghost use Rattle.handing.specs.Modes.{octal, mode_of};

// Digits of a mode.
const DIGITS: usize = 3;

fn digit(b: u8) -> Option<u32>
    ensures { result ≡ octal b }
{
    match b {
        b'0'..=b'7' => Some(u32::from(b - b'0')),
        _ => None,
    }
}

// The mode of file i, in whose place another is put; none where a new file keeps its own.
pub fn of(modes: &[u8], i: usize) -> Option<u32>
    ensures { result ≡ mode_of modes.now i }
{
    if i >= modes.len() / DIGITS {
        return None;
    }
    let at = i * DIGITS;
    let owner = digit(modes[at])?;
    let group = digit(modes[at + 1])?;
    let others = digit(modes[at + 2])?;
    Some(owner * 64 + group * 8 + others)
}
