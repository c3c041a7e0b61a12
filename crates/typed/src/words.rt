// One word of a call: a name, a date, an entity or a record's place.
ghost use Rattle.std.specs.Prelude.{◌≡◌, ◌+◌, ◌*◌, ◌≤◌, ◌<◌};
ghost use Rattle.paper.specs.Fields.{same};
ghost use Rattle.typed.specs.Words.{date_typed, grown, grown_by, entity_typed, place_typed};

use characters::{byte, number};
use desk::Session;

// AAMMDD
const DATE: usize = 6;

// A number that is no date.
const NONE: u64 = 0;

// Records of a file, at most: at this place there is none.
const RECORDS: usize = Session::FILE_LIMIT / Session::RECORD;

// Whether a word is this name.
pub fn is(word: &[u8], name: &[u8]) -> bool
    ensures { result ≡ same word.now name.now }
{
    word == name
}

// What is not six digits is no date; the opening takes a number for a date, so none is a number too.
#[tactic(auto, unfolding(crate::specs::Words::date_typed))]
pub fn date(word: &[u8]) -> u64
    ensures { result ≡ date_typed word.now }
{
    if word.len() != DATE {
        return NONE;
    }
    number::number(word, 1, DATE)
}

// The number after one more character of its word, as far as the most that is asked for. What is beyond stays so, however long the word.
#[tactic(auto, unfolding(crate::specs::Words::grown))]
pub fn grown(most: u64, n: u64, b: u8) -> u64
    requires { most < 10000 }
    ensures value { result ≡ grown most n b }
    ensures bound { result ≤ most * 10 + 9 }
{
    if !byte::digit(b) {
        return most + 1;
    }
    if most < n {
        return most + 1;
    }
    n * 10 + (b - b'0') as u64
}

// The number after the whole word.
#[tactic(auto, using(crate::proofs::Steps::folded))]
fn grown_by(most: u64, word: &[u8]) -> u64
    requires { most < 10000 }
    ensures { result ≡ grown_by most 0 word.now }
{
    word.iter().fold(0, |n, b| grown(most, n, *b))
}

#[tactic(auto, unfolding(crate::specs::Words::entity_typed))]
pub fn entity(word: &[u8]) -> u64
    ensures { result ≡ entity_typed word.now }
{
    grown_by(Session::LAST, word)
}

// The place of a record: what is no number is past the end of every file, where the desk answers of itself that there is no such record.
#[tactic(auto, unfolding(crate::specs::Words::place_typed))]
pub fn place(word: &[u8]) -> usize
    ensures { result ≡ place_typed word.now }
{
    if word.is_empty() {
        return RECORDS;
    }
    grown_by(RECORDS as u64 - 1, word) as usize
}
