// Eight positions at once: whether they are digits, and the numbers that they spell.
ghost use Rattle.std.specs.Prelude.{◌≡◌, ℕ, ◌+◌, ◌<◌, ◌≤◌, List};
ghost use Rattle.paper.specs.Fields.{field, digits, blank, same, is};
ghost use Rattle.characters.specs.Part.{HasField};
ghost use Rattle.characters.specs.Words.{numeral_of, Packs};

use crate::text;

// Eight times the digit 0.
const ZEROS: u64 = 0x3030_3030_3030_3030;

// The upper half of each of eight bytes.
const HIGH: u64 = 0xF0F0_F0F0_F0F0_F0F0;

// Added to a value above nine, a six carries into the upper half of its byte.
const SIXES: u64 = 0x0606_0606_0606_0606;

// Every other byte, from the lowest.
const PAIRS: u64 = 0x00FF_00FF_00FF_00FF;

// Eight blanks.
const BLANKS: u64 = 0x2020_2020_2020_2020;

// One past the largest number of three bytes, and the digit 0 in each of them.
const THREE_BYTES: u64 = 0x100_0000;

const THREE_ZEROS: u64 = 0x30_3030;

// The first byte is the lowest: the compiler makes one load of all eight.
pub fn word(rec: &[u8], first: usize, last: usize) -> u64
    requires has_field { HasField rec.now first last }
    requires last_value { last ≡ first + 7 }
    ensures { Packs (field rec.now first last) result }
{
    let at = first - 1;
    u64::from_le_bytes([
        rec[at],
        rec[at + 1],
        rec[at + 2],
        rec[at + 3],
        rec[at + 4],
        rec[at + 5],
        rec[at + 6],
        rec[at + 7],
    ])
}

// The value of a digit leaves the upper half of its byte empty, and so does six more. Of bytes one of which is below 0 the lowest such shows.
fn all_digits(bytes: u64) -> bool
    ensures { (f : List ℕ) → Packs f bytes → result ≡ digits f }
{
    let values = bytes.wrapping_sub(ZEROS);
    let more = values.wrapping_add(SIXES);
    (values & HIGH == 0) & (more & HIGH == 0)
}

// Of eight digits the numbers of the first four and of the last four. Neighbours are joined twice, in all places at once: into numbers of two digits, then
// of four.
pub fn halves(rec: &[u8], first: usize, last: usize) -> Option<(u64, u64)>
    requires has_field { HasField rec.now first last }
    requires last_value { last ≡ first + 7 }
    ensures { result ≡ numeral_of (field rec.now first last) }
{
    let bytes = word(rec, first, last);
    if !all_digits(bytes) {
        return None;
    }
    let values = bytes - ZEROS;
    let pairs = (values * 10 + values / 0x100) & PAIRS;
    let fours = pairs * 100 + pairs / 0x1_0000;
    Some((fours % 0x1_0000, fours / 0x1_0000_0000 % 0x1_0000))
}

// A twin of `number::digits`, for speed: a third less time for eight positions.
pub fn digits(rec: &[u8], first: usize, last: usize) -> bool
    requires has_field { HasField rec.now first last }
    requires last_value { last ≡ first + 7 }
    ensures { result ≡ digits (field rec.now first last) }
{
    all_digits(word(rec, first, last))
}

// Whether the first three of eight positions are zeros.
pub fn three_zeros(bytes: u64) -> bool
    ensures { (f : List ℕ) → Packs f bytes → result ≡ is (field f 1 3) "000" }
{
    bytes % THREE_BYTES == THREE_ZEROS
}

// A field of eight to sixteen positions, in two words that may share some.
pub fn wide_digits(rec: &[u8], first: usize, last: usize) -> bool
    requires has_field { HasField rec.now first last }
    requires first_bound { (first + 7 ≤ last) × (last ≤ first + 15) }
    ensures { result ≡ digits (field rec.now first last) }
{
    digits(rec, first, first + 7) & digits(rec, last - 7, last)
}

// Whether two fields of eight, of one record or of two, are the same. A twin of `text::same`, for speed: with `==` of slices it was slower by a third.
pub fn same(rec: &[u8], first: usize, last: usize, other: &[u8], from: usize, to: usize) -> bool
    requires has_field { HasField rec.now first last }
    requires has_field_2 { HasField other.now from to }
    requires last_value { (last ≡ first + 7) × (to ≡ from + 7) }
    ensures { result ≡ same (field rec.now first last) (field other.now from to) }
{
    word(rec, first, last) == word(other, from, to)
}

// A field of eight positions or more: before `text::blank`, for speed. A text mostly shows at one end: then nothing between is looked at, and nothing has to be foretold.
pub fn blank(rec: &[u8], first: usize, last: usize) -> bool
    requires has_field { HasField rec.now first last }
    requires first_bound { first + 7 ≤ last }
    ensures { result ≡ blank (field rec.now first last) }
{
    let front = word(rec, first, first + 7);
    let back = word(rec, last - 7, last);
    if front | back != BLANKS {
        return false;
    }
    text::blank(rec, first, last)
}
