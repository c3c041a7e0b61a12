// 9, file control.
ghost use Rattle.std.specs.Prelude.{◌≡◌, ◌≤◌, ◌+◌, length};
ghost use Rattle.paper.specs.Controls.{blocks, file_control};
ghost use Rattle.verdicts.specs.Verdicts.{check_of};

use crate::control;
use characters::number;
use field::place::Record;
use paper::answer::Fault;
use paper::record::Tally;
use verdicts::verdict::need;

// All records by tens, rounded up.
#[tactic(auto, unfolding(paper::specs::Controls::blocks))]
pub fn blocks(all: u64) -> u64
    requires { all ≤ 10000 }
    ensures { result ≡ blocks all }
{
    (all + 9) / 10
}

// Of a file of `all` records, this one included.
#[tactic(auto, using(verdicts::proofs::Chain::chain), unfolding(paper::specs::Controls::file_control))]
pub fn judge(all: u64, batches: u64, tally: Tally, rec: &[u8; Record::LENGTH]) -> Result<(), Fault>
    requires all_bound { all ≤ 10000 }
    ensures { check_of result ≡ file_control all batches tally rec.now }
{
    need(number::spells(rec, 2, 7, batches), Fault::Format)?;
    need(number::spells(rec, 8, 13, blocks(all)), Fault::Format)?;
    need(number::spells(rec, 14, 21, tally.records), Fault::Format)?;
    need(
        number::spells(rec, 22, 31, control::last_ten(tally.destinations)),
        Fault::Format,
    )?;
    need(number::spells(rec, 32, 43, tally.debits), Fault::Format)?;
    need(number::spells(rec, 44, 55, tally.credits), Fault::Format)
}
