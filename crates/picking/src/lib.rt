// One pass over a file: the places of the records that go to one entity, in order.
#![tactic(auto)]

ghost use Rattle.std.specs.Prelude.{◌≡◌, ℕ, List, length, set};
ghost use Rattle.paper.specs.Extract.{is_to};
ghost use Rattle.picking.specs.Notes.{header_waits, record_goes, record_passes, notes_with};
ghost use Rattle.picking.specs.Picks.{ToPut, ToNote, ToStep, Moves, Picks};
ghost use Rattle.picking.specs.Places.{Passed};

use field::place::Record;
use field::{individual, kind, place};
use paper::record::Kind;

// How many records go, and how many of them are batch headers.
#[derive(Clone, Copy)]
pub struct Picked {
    pub count: usize,
    pub batches: usize,
}

impl Picked {
    // Places, at most.
    pub const MOST: usize = Record::MOST;
}

// A batch header waits, put down after those that go, until a record of its batch goes.
#[derive(Clone, Copy)]
pub struct Picking {
    pub count: usize,
    // after what waits: an index, by which it goes; an enum of what waits would be turned into one at each use
    pub next: usize,
    pub batches: usize,
    // whether the last individual record goes
    pub mine: bool,
}

// At any branch.
#[tactic(auto, unfolding(paper::specs::Extract::is_to))]
fn is_to(entity: u64, rec: &[u8; Record::LENGTH]) -> bool
    ensures { result ≡ is_to entity rec.now }
{
    individual::destination(rec) == entity
}

// One entry, and no other.
fn note(places: &mut [u16], at: usize, place: usize)
    requires { ToPut at place places.old }
    ensures { places.new ≡ set places.old at place }
{
    places[at] = place as u16;
}

// A batch header waits behind those that go.
fn waits(picking: Picking, places: &mut [u16], place: usize) -> Picking
    requires { ToNote place picking places.old }
    ensures { Moves (header_waits place) places.old picking places.new result }
{
    note(places, picking.count, place);
    Picking {
        next: picking.count + 1,
        mine: false,
        ..picking
    }
}

// A record goes, and with it what waits.
fn goes(picking: Picking, places: &mut [u16], place: usize) -> Picking
    requires { ToNote place picking places.old }
    ensures { Moves (record_goes place) places.old picking places.new result }
{
    let next = picking.next;
    note(places, next, place);
    Picking {
        count: next + 1,
        next: next + 1,
        batches: picking.batches + (next - picking.count),
        mine: true,
    }
}

// An individual record to somebody else; what waits, waits on.
fn passes(picking: Picking) -> Picking
    ensures { (places : List ℕ) → Moves record_passes places picking places result }
{
    Picking {
        mine: false,
        ..picking
    }
}

// One record further.
fn step(picking: Picking, entity: u64, file: &[u8], place: usize, places: &mut [u16]) -> Picking
    requires { ToStep file.now place picking places.old }
    ensures { Moves (notes_with entity file.now place) places.old picking places.new result }
{
    let rec = place::record_at(file, place);
    match kind::kind(rec) {
        Kind::BatchHeader => waits(picking, places, place),
        Kind::Individual => {
            if is_to(entity, rec) {
                goes(picking, places, place)
            } else {
                passes(picking)
            }
        }
        Kind::Additional => {
            if picking.mine {
                goes(picking, places, place)
            } else {
                picking
            }
        }
        _ => picking,
    }
}

// Of a file that the reading accepted.
pub fn pick(entity: u64, file: &[u8], places: &mut [u16; Picked::MOST]) -> Picked
    requires { Passed file.now }
    ensures { Picks entity file.now places.old result places.new }
{
    // as a slice, since its length is then known
    let held = &mut places[..];
    let mut picking = Picking {
        count: 0,
        next: 0,
        batches: 0,
        mine: false,
    };
    for place in 0..file.len() / Record::LENGTH {
        picking = step(picking, entity, file, place, held);
    }
    Picked {
        count: picking.count,
        batches: picking.batches,
    }
}
