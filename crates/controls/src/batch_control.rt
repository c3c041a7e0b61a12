// 8, batch control, under its header.
ghost use Rattle.std.specs.Prelude.{◌≡◌, length};
ghost use Rattle.paper.specs.Controls.{batch_control};
ghost use Rattle.verdicts.specs.Verdicts.{check_of};

use crate::control;
use characters::{number, text};
use field::place::Record;
use paper::answer::Fault;
use paper::record::Tally;
use verdicts::verdict::need;

#[tactic(auto, using(verdicts::proofs::Chain::chain), unfolding(paper::specs::Controls::batch_control))]
pub fn judge(
    header: &[u8; Record::LENGTH],
    tally: Tally,
    rec: &[u8; Record::LENGTH],
) -> Result<(), Fault>
    ensures { check_of result ≡ batch_control header.now tally rec.now }
{
    need(text::same(rec, 2, 4, header, 2, 4), Fault::Format)?;
    need(text::same(rec, 45, 54, header, 41, 50), Fault::Format)?;
    need(text::same(rec, 80, 87, header, 80, 87), Fault::Format)?;
    need(text::same(rec, 88, 94, header, 88, 94), Fault::Format)?;
    need(number::spells(rec, 5, 10, tally.records), Fault::Format)?;
    need(
        number::spells(rec, 11, 20, control::last_ten(tally.destinations)),
        Fault::Format,
    )?;
    need(number::spells(rec, 21, 32, tally.debits), Fault::Format)?;
    need(number::spells(rec, 33, 44, tally.credits), Fault::Format)
}
