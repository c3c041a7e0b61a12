// What is addressed to one entity, written into a lent buffer.
#![tactic(auto)]

ghost use Rattle.std.specs.Prelude.{◌≡◌, ◌≤◌};
ghost use Rattle.paper.specs.Buffers.{told, written, room_for};
ghost use Rattle.paper.specs.Extract.{extract};
ghost use Rattle.picking.specs.Places.{Passed};

use batches::records;
use field::place::Record;
use paper::answer::{Fault, Refusal};
use paper::rules::Currency;
use picking::Picked;

mod batch;
mod header;
mod whole;

// Of a file that the reading accepted. Nothing is written before the size is known.
pub fn extract(
    currency: Currency,
    entity: u64,
    file: &[u8],
    out: &mut [u8],
) -> Result<usize, Refusal>
    requires entity_bound { entity ≤ 499 }
    requires passed { Passed file.now }
    ensures { told result out.new
        ≡ written (room_for (extract currency entity file.now) out.old) (extract currency entity file.now) out.old }
{
    let mut places = [0; Picked::MOST];
    let picked = picking::pick(entity, file, &mut places);
    let count = picked.count;
    let size = (count + picked.batches + records::FRAME) * Record::LENGTH;
    if out.len() < size {
        return Err(Fault::Room.at(0));
    }
    whole::write(out, currency, entity, file, &places[0..count]);
    Ok(size)
}
