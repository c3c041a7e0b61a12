// What an individual record says beside its rules: how much, to whom, from whom, and whether more follows.
ghost use Rattle.std.specs.Prelude.{◌≡◌, ◌+◌, ◌^◌, ◌<◌, length};
ghost use Rattle.paper.specs.Fields.{field, number};
ghost use Rattle.paper.specs.Records.{amount_of, destination_in, destination_field, sender_in, flagged_in, number_in};
ghost use Rattle.characters.specs.Part.{HasField};
ghost use Rattle.field.specs.Sequences.{sequence_of};

use crate::entity;
use crate::place::Record;
use characters::{number, text, word};

// One past the largest number of so many digits.
const TWO_DIGITS: u64 = 100;

const THREE_DIGITS: u64 = 1000;

const FOUR_DIGITS: u64 = 10000;

// The number in ten positions from the first on; nothing where they are not ten digits. The last two are counted from it too, so that the compiler sees
// how many they are.
pub fn cents(rec: &[u8], first: usize) -> u64
    requires { HasField rec.now first (first + 9) }
    ensures { (result ≡ number (field rec.now first (first + 9))) × (result < 10 ^ 10) }
{
    let Some((high, low)) = word::halves(rec, first, first + 7) else {
        return 0;
    };
    if !number::digits(rec, first + 8, first + 9) {
        return 0;
    }
    (high * FOUR_DIGITS + low) * TWO_DIGITS + number::number(rec, first + 8, first + 9)
}

// In cents; nothing where it is not ten digits.
#[tactic(auto, unfolding(paper::specs::Records::amount_of))]
pub fn amount(rec: &[u8; Record::LENGTH]) -> u64
    ensures { (result ≡ amount_of rec.now) × (result < 10 ^ 10) }
{
    cents(rec, 30)
}

// Positions 80 to 94: the number in the last seven, where all fifteen are digits. Of two words that share position 87 the second one's last seven.
pub fn counter(rec: &[u8; Record::LENGTH]) -> Option<u64>
    ensures { result ≡ sequence_of rec.now }
{
    if !word::digits(rec, 80, 87) {
        return None;
    }
    let (high, low) = word::halves(rec, 87, 94)?;
    Some(high % THREE_DIGITS * FOUR_DIGITS + low)
}

// 88 to 94; 0 where that is not seven digits.
pub fn number(rec: &[u8; Record::LENGTH]) -> u64
    ensures { (result ≡ number_in rec.now) × (result < 10 ^ 7) }
{
    counter(rec).unwrap_or_else(|| number::number(rec, 88, 94))
}

// The entity that it is addressed to, at any branch.
pub fn destination(rec: &[u8; Record::LENGTH]) -> u64
    ensures { (result ≡ destination_in rec.now) × (result < 500) }
{
    entity::entity(rec, 4, 11)
}

// Entity and branch as one number, as the controls add it up.
pub fn destination_field(rec: &[u8; Record::LENGTH]) -> u64
    ensures { (result ≡ destination_field rec.now) × (result < 10 ^ 8) }
{
    number::number(rec, 4, 11)
}

pub fn sender(rec: &[u8; Record::LENGTH]) -> u64
    ensures { (result ≡ sender_in rec.now) × (result < 500) }
{
    entity::entity(rec, 80, 87)
}

// Whether an additional record follows.
pub fn flagged(rec: &[u8; Record::LENGTH]) -> bool
    ensures { result ≡ flagged_in rec.now }
{
    text::reads(rec, 79, 79, b"1")
}
