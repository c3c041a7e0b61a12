// Texts and numbers put into a lent buffer.
#![tactic(auto)]

ghost use Rattle.std.specs.Prelude.{◌≡◌, ◌+◌, ◌*◌, ◌^◌, ◌≤◌, min, leb, length, take, drop, nat_abs};
ghost use Rattle.paper.specs.Answers.{said, require};
ghost use Rattle.paper.specs.Writing.{spelled, blanks};
ghost use Rattle.paper.specs.Listing.{width, decimal, signed_decimal};
ghost use Rattle.writing.specs.Laid.{laid};

use paper::answer::{Fault, Refusal};

// A text over a part of its length. Small, so that it becomes part of its callers, which mostly know the length.
pub fn copy(part: &mut [u8], text: &[u8])
    requires { length part.old ≡ length text.now }
    ensures { part.new ≡ text.now }
{
    part.copy_from_slice(text);
}

// The last digits of a number, as many as the part has bytes.
pub fn digits(part: &mut [u8], value: u64)
    ensures { part.new ≡ spelled (length part.old) value }
{
    let mut rest = value;
    for i in (0..part.len()).rev() {
        part[i] = b'0' + (rest % 10) as u8;
        rest /= 10;
    }
}

// Spaces over a whole part.
#[tactic(auto, unfolding(paper::specs::Writing::blanks))]
pub fn blanks(part: &mut [u8])
    ensures { part.new ≡ blanks (length part.old) }
{
    part.fill(b' ');
}

// 206 of a buffer that is shorter than what is to be written.
#[tactic(auto, using(paper::proofs::Chained::chained, std::proofs::lemmas::Bool::Decides::nat_tests))]
pub fn room(size: usize, out: &[u8]) -> Result<(), Refusal>
    ensures { said result ≡ require (leb size (length out.now)) 206 0 }
{
    if out.len() < size {
        return Err(Fault::Room.at(0));
    }
    Ok(())
}

// Each of the following writes from index `at` on, and hands back the index after what it wrote.
pub fn text(out: &mut [u8], at: usize, text: &[u8]) -> usize
    requires { at + length text.now ≤ length out.old }
    ensures { (result ≡ at + length text.now) × (out.new ≡ laid at text.now out.old) }
{
    let end = at + text.len();
    copy(&mut out[at..end], text);
    end
}

// A number in a field of so many digits.
pub fn field(out: &mut [u8], at: usize, width: usize, n: u64) -> usize
    requires { at + width ≤ length out.old }
    ensures { (result ≡ at + length (spelled width n)) × (out.new ≡ laid at (spelled width n) out.old) }
{
    let end = at + width;
    digits(&mut out[at..end], n);
    end
}

// A field of so many spaces.
pub fn spaces(out: &mut [u8], at: usize, width: usize) -> usize
    requires { at + width ≤ length out.old }
    ensures { (result ≡ at + length (blanks width)) × (out.new ≡ laid at (blanks width) out.old) }
{
    let end = at + width;
    blanks(&mut out[at..end]);
    end
}

// How many digits a number needs: a value is divided until it is one digit, and no place is counted.
fn width(n: u64) -> usize
    ensures { (result ≡ width n) × (result ≤ 20) }
{
    let mut rest = n;
    let mut count: usize = 1;
    while 10 <= rest {
        rest /= 10;
        count += 1;
    }
    count
}

pub fn number(out: &mut [u8], at: usize, n: u64) -> usize
    requires { at + length (decimal n) ≤ length out.old }
    ensures { (result ≡ at + length (decimal n)) × (out.new ≡ laid at (decimal n) out.old) }
{
    let end = at + width(n);
    digits(&mut out[at..end], n);
    end
}

pub fn signed(out: &mut [u8], at: usize, n: i64) -> usize
    requires n_bound { nat_abs n ≤ 4 * 10 ^ 18 }
    requires n_in_bounds { at + length (signed_decimal n) ≤ length out.old }
    ensures { (result ≡ at + length (signed_decimal n)) × (out.new ≡ laid at (signed_decimal n) out.old) }
{
    if n < 0 {
        let past = text(out, at, b"-");
        return number(out, past, n.unsigned_abs());
    }
    number(out, at, n.unsigned_abs())
}
