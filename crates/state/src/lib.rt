// What the next record finds before it, and the state after a record of each kind.
#![tactic(auto)]

ghost use Rattle.std.specs.Prelude.{◌≡◌, ◌^◌, ◌<◌};
ghost use Rattle.paper.specs.Reading.{flag};
ghost use Rattle.state.specs.States.{RoomToCount, after_by, past_by};

use entries::individual::Entry;
use field::place::Record;
use paper::record::{Before, Kind, Tally};

// A step is its judge and the state after it, two lines for each kind: one step that is handed its judge would be no shorter.
pub mod additional;
pub mod batch_control;
pub mod batch_header;
mod columns;
pub mod file_control;
pub mod file_header;
pub mod individual;
mod numbers;

// Records are held by their places in the file.
#[derive(Clone, Copy)]
pub struct State {
    pub before: Before,
    // the last batch's header
    pub header: usize,
    // the last individual record
    pub individual: usize,
    // 88-94 of the last individual record of this batch, 0 as long as it has none
    pub counter: u64,
    // the largest of the batches before, 0 before the first
    pub highest: u64,
    // where somebody looked: the first record from there on whose number stands before it, or how many there are; else 0
    pub fresh: usize,
    pub batches: u64,
    // what the batch's control counts
    pub batch: Tally,
    // what the file control counts of the batches closed
    pub closed: Tally,
}

impl State {
    // A place that no file has.
    const NOWHERE: usize = Record::MOST;
    // Before the first record.
    pub const START: State = State {
        before: Before::Nothing,
        header: State::NOWHERE,
        individual: State::NOWHERE,
        counter: 0,
        highest: 0,
        fresh: 0,
        batches: 0,
        batch: Tally::NONE,
        closed: Tally::NONE,
    };

    // After a record of a kind without fault; numbers are known to be new up to `fresh`.
    fn after(self, kind: Kind, place: usize, entry: Entry, flagged: bool, fresh: usize) -> State
        requires place_bound { (place < 10000) × RoomToCount place self }
        requires destination_bound { (entry.destination < 10 ^ 8) × (entry.amount < 10 ^ 10) }
        ensures { result ≡ after_by kind place self entry flagged fresh }
    {
        let batch = self.batch;
        let closed = self.closed;
        State {
            before: columns::before(kind, flagged),
            header: columns::header(kind, self.header, place),
            individual: columns::individual(kind, self.individual, place),
            counter: columns::counter(kind, self.counter, entry.counter),
            highest: columns::highest(kind, self.highest, self.counter),
            fresh: fresh,
            batches: columns::batches(kind, self.batches),
            batch: columns::batch(kind, batch, entry),
            closed: columns::closed(kind, closed, batch),
        }
    }

    // After one that is no individual record.
    fn past(self, kind: Kind, place: usize) -> State
        requires { (place < 10000) × RoomToCount place self }
        ensures { result ≡ past_by kind place self }
    {
        self.after(kind, place, Entry::NONE, false, self.fresh)
    }
}

// After an individual record.
pub fn flag(flagged: bool) -> Before
    ensures { result ≡ flag flagged }
{
    if flagged {
        return Before::Flagged;
    }
    Before::Inside
}
