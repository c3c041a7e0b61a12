// Each figure of the state after a record of a kind. Of an individual record its numbers, and whether it is flagged, are handed in.
ghost use Rattle.std.specs.Prelude.{◌≡◌, ◌^◌, ◌<◌};
ghost use Rattle.paper.specs.Reading.{closed_next};
ghost use Rattle.controls.specs.Bounds.{Below};
ghost use Rattle.state.specs.States.{header_place, individual_place, higher, before_by, counter_by, batches_by, batch_by};

use crate::flag;
use controls::tally;
use entries::individual::Entry;
use field::kind;
use paper::record::{Before, Kind, Tally};

pub fn before(kind: Kind, flagged: bool) -> Before
    ensures { result ≡ before_by kind flagged }
{
    match kind {
        Kind::FileHeader => Before::Between,
        Kind::BatchHeader => Before::Opened,
        Kind::Individual => flag(flagged),
        Kind::Additional => Before::Inside,
        Kind::BatchControl => Before::Between,
        Kind::FileControl => Before::Ended,
        Kind::Other => Before::Nothing,
    }
}

pub fn header(kind: Kind, header: usize, place: usize) -> usize
    ensures { result ≡ header_place kind header place }
{
    if kind::opens_batch(kind) {
        return place;
    }
    header
}

pub fn individual(kind: Kind, individual: usize, place: usize) -> usize
    ensures { result ≡ individual_place kind individual place }
{
    if kind::is_individual(kind) {
        return place;
    }
    individual
}

pub fn counter(kind: Kind, counter: u64, number: u64) -> u64
    ensures { result ≡ counter_by kind counter number }
{
    if kind::opens_batch(kind) {
        return 0;
    }
    if kind::is_individual(kind) {
        return number;
    }
    counter
}

pub fn highest(kind: Kind, highest: u64, counter: u64) -> u64
    ensures { result ≡ higher kind highest counter }
{
    if kind::opens_batch(kind) & (counter > highest) {
        return counter;
    }
    highest
}

pub fn batches(kind: Kind, batches: u64) -> u64
    requires { batches < 10 ^ 18 }
    ensures { result ≡ batches_by kind batches }
{
    if kind::opens_batch(kind) {
        return batches + 1;
    }
    batches
}

pub fn batch(kind: Kind, batch: Tally, entry: Entry) -> Tally
    requires destination_bound { (entry.destination < 10 ^ 8) × (entry.amount < 10 ^ 10) }
    requires below { Below (10 ^ 18) batch }
    ensures { result ≡ batch_by kind batch entry }
{
    if kind::opens_batch(kind) {
        return Tally::NONE;
    }
    if kind::is_individual(kind) {
        let code = entry.code;
        return tally::with_entry(batch, entry.destination, kind::collects(code), entry.amount);
    }
    if kind::is_additional(kind) {
        return tally::with_additional(batch);
    }
    batch
}

pub fn closed(kind: Kind, closed: Tally, batch: Tally) -> Tally
    requires below { Below (10 ^ 18) closed }
    requires below_2 { Below (10 ^ 18) batch }
    ensures { result ≡ closed_next kind closed batch }
{
    if kind::closes_batch(kind) {
        return tally::plus(closed, batch);
    }
    closed
}
