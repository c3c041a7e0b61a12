// Why a debit came back: the additional record of a rejection, and where the text of its reason stands.
#![tactic(auto)]

ghost use Rattle.std.specs.Prelude.{◌≡◌, ◌*◌, ◌-◌, ◌≤◌, ◌<◌, length, take, drop};
ghost use Rattle.paper.specs.Answers.{require};
ghost use Rattle.paper.specs.Receiving.{explains, explains_at, text_at, shown_if, text_in};
ghost use Rattle.field.specs.Places.{InFile};
ghost use Rattle.reasons.specs.Shown.{text_place, showing_of};

use characters::{number, text};
use field::kind;
use field::place::{Record, record_at};
use paper::answer::{Fault, Refusal};
use paper::record::Kind;

// Where the text of a reason stands: at which byte of the file, or of the motive list, it begins.
#[derive(Clone, Copy, PartialEq, Eq)]
pub enum Shown {
    File(usize),
    Motives(usize),
}

// The text that begins at a byte, as far as there are bytes.
#[tactic(auto, using(crate::proofs::Parts::front))]
fn part(bytes: &[u8], at: usize) -> &[u8]
    ensures { result.now ≡ take 44 (drop at bytes.now) }
{
    let rest = &bytes[at.min(bytes.len())..];
    &rest[..Shown::TEXT.min(rest.len())]
}

impl Shown {
    // Bytes of a text.
    pub const TEXT: usize = 44;
    // Bytes of a motive list: one hundred lines.
    pub const MOTIVES: usize = 100 * Shown::TEXT;

    // The text itself, a part of the file or of the motive list.
    #[tactic(auto, unfolding(paper::specs::Receiving::text_in))]
    pub fn text<'a>(self, file: &'a [u8], motives: &'a [u8]) -> &'a [u8]
        ensures { result.now ≡ text_in (text_place self) file.now motives.now }
    {
        match self {
            Shown::File(at) => part(file, at),
            Shown::Motives(at) => part(motives, at),
        }
    }
}

// Where the line of a number begins in the motive list.
fn line(number: u64) -> usize
    requires { number < 100 }
    ensures { result ≡ number * 44 }
{
    number as usize * Shown::TEXT
}

// Positions 36-79 where they are not all blank, otherwise the line for the number in 5-6.
#[tactic(auto, unfolding(paper::specs::Receiving::text_at))]
fn text_at(file: &[u8], place: usize) -> Shown
    requires { InFile file.now place }
    ensures { text_place result ≡ text_at file.now place }
{
    let rec = record_at(file, place);
    if text::blank(rec, 36, 79) {
        return Shown::Motives(line(number::number(rec, 5, 6)));
    }
    Shown::File(place * Record::LENGTH + 35)
}

// A 7 after a 36 or 31.
#[tactic(auto, unfolding(paper::specs::Receiving::explains))]
fn explains(kind: Kind, before: &[u8; Record::LENGTH]) -> bool
    ensures { result ≡ explains kind before.now }
{
    match kind {
        Kind::Additional => kind::rejects(kind::code(before)),
        _ => false,
    }
}

#[tactic(auto, unfolding(paper::specs::Receiving::explains_at))]
fn explains_at(file: &[u8], place: usize) -> bool
    requires { length file.now ≤ 940000 }
    ensures { result ≡ explains_at file.now place }
{
    if file.len() / Record::LENGTH <= place {
        return false;
    }
    let kind = kind::kind(record_at(file, place));
    explains(kind, record_at(file, place.saturating_sub(1)))
}

// Where the text of the reason in the record at a place stands; 214 where that is no rejection's additional record.
#[tactic(auto, using(paper::proofs::Chained::chained), unfolding(paper::specs::Receiving::shown_if, paper::specs::Receiving::explains_at))]
pub fn find(file: &[u8], place: usize) -> Result<Shown, Refusal>
    requires { length file.now ≤ 940000 }
    ensures { showing_of result ≡ shown_if (require (explains_at file.now place) 214 0) (text_at file.now place) }
{
    if !explains_at(file, place) {
        return Err(Fault::Reason.at(0));
    }
    Ok(text_at(file, place))
}
