// Bytes that somebody else chose, as they are shown in a line.
ghost use Rattle.std.specs.Prelude.{◌≡◌, ◌+◌, ◌≤◌, length, take};
ghost use Rattle.listing.specs.Answers.{shown_byte, shown};
ghost use Rattle.writing.specs.Laid.{laid};

// A control byte would move what is read, or hide it.
#[tactic(auto, using(std::proofs::lemmas::Bool::Decides::nat_tests), unfolding(crate::specs::Answers::shown_byte))]
fn byte(b: u8) -> u8
    ensures { result ≡ shown_byte b }
{
    if b.is_ascii_control() { b'?' } else { b }
}

// A text over a part of its length.
fn copy(part: &mut [u8], text: &[u8])
    requires { length part.old ≡ length text.now }
    ensures { part.new ≡ shown text.now }
{
    for (i, b) in text.iter().enumerate() {
        part[i] = byte(*b);
    }
}

// A text's first bytes, at most so many, from index `at` on; hands back the index after them.
#[tactic(auto, using(crate::proofs::Showing::showing))]
pub fn text(out: &mut [u8], at: usize, text: &[u8], most: usize) -> usize
    requires { at + most ≤ length out.old }
    ensures { (result ≡ at + length (shown (take most text.now)))
        × (out.new ≡ laid at (shown (take most text.now)) out.old) }
{
    let n = most.min(text.len());
    let end = at + n;
    copy(&mut out[at..end], &text[..n]);
    end
}
