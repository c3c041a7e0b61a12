// How a program ends. It has no exit status of its own: it tells its launcher on a descriptor.
ghost use Rattle.std.specs.Prelude.{◌≡◌, ◌≤◌};
ghost use Rattle.files.specs.declared.ending.Stopped.TheVariants.{Undone};

use crate::args;
use crate::taking::Failure;
use std::rt::Env;

// Something was refused; or it could not be done, and that was said.
#[derive(Clone, Copy, Debug, PartialEq, Eq)]
pub enum Stopped {
    Refused,
    Undone,
}

impl From<Failure> for Stopped {
    ghost from_gives = { λ _ e. e ≡ Undone };

    fn from(_failure: Failure) -> Stopped {
        Stopped::Undone
    }
}

// What its launcher is told.
fn line(ended: Result<(), Stopped>) -> &'static [u8] {
    match ended {
        Ok(()) => b"0\n",
        Err(Stopped::Refused) => b"1\n",
        Err(Stopped::Undone) => b"2\n",
    }
}

// No descriptor that the launcher would name is beyond.
const MOST: u32 = 9999;

// The number that the digits spell, or one beyond where they are none. No `parse`: that takes a sign.
fn descriptor(word: &[u8]) -> u32
    ensures { result ≤ 99999 }
{
    let mut n: u32 = 0;
    for b in word {
        if !b.is_ascii_digit() || n > MOST {
            return MOST;
        }
        n = n * 10 + u32::from(b - b'0');
    }
    n
}

// The word names the descriptor. Without a launcher nobody listens, and nothing is lost.
pub fn tell(words: &impl Env, word: usize, ended: Result<(), Stopped>) {
    let mut digits = io::buffer();
    let word = args::word(words, word, &mut digits);
    if !word.is_empty() {
        io::write_all(descriptor(word) as i32, line(ended));
    }
}
