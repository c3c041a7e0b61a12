// A batch of an extract: its header under a new number, its records, and the control that counts them.
ghost use Rattle.std.specs.Prelude.{◌≡◌, ◌+◌, ◌≤◌, ◌<◌, length, get_or, drop};
ghost use Rattle.paper.specs.Reading.{record_at};
ghost use Rattle.picking.specs.Places.{Placed, chosen};
ghost use Rattle.batches.specs.Blocks.{own_of, block, Batched};
ghost use Rattle.extract.specs.Blocks.{ToCopy};

use batches::records;
use field::place;
use field::place::Record;
use paper::record::Tally;

// How many records it has of its own, and what its control counts.
#[derive(Clone, Copy)]
pub struct Batch {
    pub records: usize,
    pub tally: Tally,
}

// The records up to the next batch header, one after the other.
fn own(dst: &mut [u8], file: &[u8], places: &[u16]) -> Batch
    requires { ToCopy file.now places.now dst.old (length (own_of (chosen file.now places.now))) }
    ensures { Batched (own_of (chosen file.now places.now)) (own_of (chosen file.now places.now))
        dst.old dst.new result.records result.tally }
{
    let mut tally = Tally::NONE;
    for (i, place) in places.iter().enumerate() {
        let rec = place::record_at(file, *place as usize);
        if batches::opens(rec) {
            return Batch { records: i, tally };
        }
        let at = i * Record::LENGTH;
        dst[at..at + Record::LENGTH].copy_from_slice(rec);
        tally = batches::count(tally, rec);
    }
    Batch {
        records: places.len(),
        tally,
    }
}

// The batch whose header stands at the first of the places.
pub fn write(dst: &mut [u8], file: &[u8], places: &[u16], number: u64) -> Batch
    requires to_copy { ToCopy file.now places.now dst.old (length (own_of (chosen file.now (drop 1 places.now))) + 2) }
    requires places_nonzero { 0 < length places.now }
    ensures { Batched
        (block number (record_at file.now (get_or places.now 0 0)) (own_of (chosen file.now (drop 1 places.now))))
        (own_of (chosen file.now (drop 1 places.now)))
        dst.old dst.new result.records result.tally }
{
    let place = places[0] as usize;
    let header = place::record_at(file, place);
    records::numbered(&mut dst[0..Record::LENGTH], header, number);
    let batch = own(&mut dst[Record::LENGTH..], file, &places[1..]);
    let at = (batch.records + 1) * Record::LENGTH;
    let tally = batch.tally;
    records::batch_control(&mut dst[at..at + Record::LENGTH], header, number, tally);
    batch
}
