// Block 2 of an account: thirteen digits, and the digit that checks them (003, chapter 4).
ghost use Rattle.std.specs.Prelude.{◌≡◌, ◌≤◌};
ghost use Rattle.field.specs.Blocks.{weighed, sum_good};

// The ponderador 9713: digits four positions apart have the same weight, and the last of the thirteen has 3.
const WEIGHTS: [u64; 4] = [9, 7, 1, 3];

// What fourteen zeros come to, each taken as its byte: 64, all weights with the check digit's 1, times 48.
const ZEROS: u64 = 3072;

// One past the largest number of so many bytes.
const BYTE: u64 = 0x100;

const TWO_BYTES: u64 = 0x1_0000;

const THREE_BYTES: u64 = 0x100_0000;

const FOUR_BYTES: u64 = 0x1_0000_0000;

// The first and the third of four bytes.
const APART: u64 = 0x00FF_00FF;

// The lowest four bytes, each times its weight. Each product has two of them in its middle place, where they are added up.
fn weigh(four: u64) -> u64
    ensures { (result ≡ weighed four) × (result ≤ 5100) }
{
    let first = four & APART;
    let second = four / BYTE & APART;
    let products = first * (WEIGHTS[0] * TWO_BYTES + WEIGHTS[2])
        + second * (WEIGHTS[1] * TWO_BYTES + WEIGHTS[3]);
    products / TWO_BYTES % TWO_BYTES
}

// Of a block of digits in two words and a byte this is the rule (`Blocks.block_told`). Digits eight positions apart are added up, then those four apart, all
// at once.
#[tactic(auto, unfolding(crate::specs::Blocks::sum_good))]
pub fn good(front: u64, back: u64, check: u8) -> bool
    ensures { result ≡ sum_good front back check }
{
    let eight = (front / THREE_BYTES * THREE_BYTES).wrapping_add(back);
    let four = eight.wrapping_add(eight / FOUR_BYTES);
    (weigh(four) + check as u64) % 10 == ZEROS % 10
}
