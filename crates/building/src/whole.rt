// The built file, from its header to its file control.
ghost use Rattle.std.specs.Prelude.{◌≡◌};
ghost use Rattle.paper.specs.Buffers.{over};
ghost use Rattle.paper.specs.Trays.{build};
ghost use Rattle.building.specs.Numbering.{ToBuild};

use crate::batch;
use crate::numbering::Numbering;
use batches::records;
use controls::tally;
use field::place::Record;
use paper::record::Tally;
use tray::Tray;

pub fn write(out: &mut [u8], header: &[u8], tray: &[u8])
    requires { ToBuild header.now tray.now out.old }
    ensures { out.new ≡ over (build header.now tray.now) out.old }
{
    writing::copy(&mut out[0..Record::LENGTH], header);
    // what stands before the first batch has no control
    let loose = batch::own(&mut out[Record::LENGTH..], tray, Numbering::NONE);
    let mut from = loose.records * Tray::RECORD;
    let mut at = (loose.records + 1) * Record::LENGTH;
    let mut numbering = loose.numbering;
    let mut closed = Tally::NONE;
    // a batch has no size of its own by which a `for` could step
    while from < tray.len() {
        let batch = batch::write(&mut out[at..], &tray[from..], numbering);
        from += (batch.records + 1) * Tray::RECORD;
        at += (batch.records + 2) * Record::LENGTH;
        numbering = batch.numbering;
        let tally = batch.tally;
        closed = tally::plus(closed, tally);
    }
    let all = (at / Record::LENGTH + 1) as u64;
    records::file_control(
        &mut out[at..at + Record::LENGTH],
        all,
        numbering.batches,
        closed,
    );
}
