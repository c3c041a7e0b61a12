// The closing record: it counts the details, and adds up their amounts.
ghost use Rattle.std.specs.Prelude.{◌≡◌, ◌+◌, length};
ghost use Rattle.company.specs.Files.{closing_good};
ghost use Rattle.company.specs.Sums.{kept};

use characters::{number, text};

// From here on a sum has more digits than its field, and none of them is told from another.
const BEYOND: u64 = 10000000000;

// A sum with an amount added.
#[tactic(auto, using(std::proofs::lemmas::Bool::Decides::nat_tests), unfolding(crate::specs::Sums::kept))]
pub fn added(sum: u64, amount: u64) -> u64
    ensures { result ≡ kept (sum + amount) }
{
    sum.saturating_add(amount).min(BEYOND)
}

// After so many details with this sum.
#[tactic(auto, unfolding(crate::specs::Files::closing_good))]
pub fn good(rec: &[u8], details: u64, sum: u64) -> bool
    requires { length rec.now ≡ 250 }
    ensures { result ≡ closing_good details sum rec.now }
{
    text::reads(rec, 1, 1, b"T")
        & number::spells(rec, 2, 11, details)
        & number::spells(rec, 12, 18, details)
        & text::reads(rec, 19, 25, b"0000000")
        & number::spells(rec, 104, 113, sum)
}
