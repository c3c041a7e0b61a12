// A file built from a header body and a tray.
#![tactic(auto)]

ghost use Rattle.std.specs.Prelude.{◌≡◌, leb};
ghost use Rattle.paper.specs.Answers.{said, require};
ghost use Rattle.paper.specs.Buffers.{told, written, buildable};
ghost use Rattle.paper.specs.Trays.{build};

use batches::records;
use field::place::Record;
use paper::answer::{Fault, Refusal};
use tray::Tray;

mod batch;
mod numbering;
mod whole;

// 201 of a file of too many records.
#[tactic(auto, using(paper::proofs::Chained::chained, std::proofs::lemmas::Bool::Decides::nat_tests))]
fn unless_too_long(records: usize) -> Result<(), Refusal>
    ensures { said result ≡ require (leb records 10000) 201 0 }
{
    if Record::MOST < records {
        return Err(Fault::Length.at(0));
    }
    Ok(())
}

// 207, 201, then 206, before anything is written.
#[tactic(auto, using(paper::proofs::Chained::chained, std::proofs::lemmas::Bool::Decides::nat_tests, crate::proofs::Answering::answering))]
pub fn build(header: &[u8], tray: &[u8], out: &mut [u8]) -> Result<usize, Refusal>
    ensures { told result out.new
        ≡ written (buildable header.now tray.now out.old) (build header.now tray.now) out.old }
{
    tray::answer(header, tray)?;
    let records = tray.len() / Tray::RECORD + tray::batches(tray) + records::FRAME;
    unless_too_long(records)?;
    writing::room(records * Record::LENGTH, out)?;
    whole::write(out, header, tray);
    Ok(records * Record::LENGTH)
}
