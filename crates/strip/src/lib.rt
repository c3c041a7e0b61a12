// A file's batch headers, individuals and additionals, back on a tray.
#![tactic(auto)]

ghost use Rattle.std.specs.Prelude.{◌≡◌, ◌≤◌, length};
ghost use Rattle.paper.specs.Buffers.{told, over, written, room_for};
ghost use Rattle.paper.specs.Trays.{strip};

use field::place;
use field::place::Record;
use paper::answer::{Fault, Refusal};

mod marks;

// How many bytes the tray takes.
#[tactic(auto, using(crate::proofs::Passing::none_passed, crate::proofs::Passing::all_passed, crate::proofs::Passing::one_longer))]
fn size(file: &[u8]) -> usize
    requires { length file.now ≤ 940000 }
    ensures { result ≡ length (strip file.now) }
{
    let records = file.len() / Record::LENGTH;
    let mut size = 0;
    for place in 0..records {
        size += marks::bytes(place::record_at(file, place));
    }
    size
}

// The records in order, each behind those before it.
#[tactic(auto, using(crate::proofs::Passing::as_long, crate::proofs::Passing::put_inside, crate::proofs::Passing::record_room))]
fn write(out: &mut [u8], file: &[u8])
    requires { (length file.now ≤ 940000) × (length (strip file.now) ≤ length out.old) }
    ensures { out.new ≡ over (strip file.now) out.old }
{
    let records = file.len() / Record::LENGTH;
    let mut at = 0;
    for place in 0..records {
        at += marks::marked(&mut out[at..], place::record_at(file, place));
    }
}

// Of a file that is not too long. Nothing is written before the size is known.
pub fn strip(file: &[u8], out: &mut [u8]) -> Result<usize, Refusal>
    requires { length file.now ≤ 940000 }
    ensures { told result out.new
        ≡ written (room_for (strip file.now) out.old) (strip file.now) out.old }
{
    let size = size(file);
    if out.len() < size {
        return Err(Fault::Room.at(0));
    }
    write(out, file);
    Ok(size)
}
