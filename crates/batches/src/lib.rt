// A batch as it is written: the records up to the next batch header, and what its control counts of them.
#![tactic(auto)]

ghost use Rattle.std.specs.Prelude.{◌≡◌, ◌^◌, ◌≤◌, length};
ghost use Rattle.paper.specs.Kinds.{opens_batch, kind_of};
ghost use Rattle.controls.specs.Bounds.{Below};
ghost use Rattle.batches.specs.Blocks.{with_record};

use controls::tally;
use field::kind;
use field::place::Record;
use paper::record::{Kind, Tally};

pub mod records;

pub fn opens(rec: &[u8]) -> bool
    requires { 1 ≤ length rec.now }
    ensures { result ≡ opens_batch (kind_of rec.now) }
{
    kind::opens_batch(kind::kind(rec))
}

// A record counted with those before it.
#[tactic(auto, unfolding(crate::specs::Blocks::with_record))]
pub fn count(tally: Tally, rec: &[u8; Record::LENGTH]) -> Tally
    requires below { Below (10 ^ 18) tally }
    ensures { result ≡ with_record (kind_of rec.now) tally rec.now }
{
    match kind::kind(rec) {
        Kind::Individual => tally::with_individual(tally, rec),
        Kind::Additional => tally::with_additional(tally),
        _ => tally,
    }
}
