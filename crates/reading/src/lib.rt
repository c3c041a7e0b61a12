// The reading of a file: 201, then records in order. The first fault is the answer.
#![tactic(auto)]

ghost use Rattle.std.specs.Prelude.{◌≡◌, true, ◌/◌, ◌+◌, ◌*◌, ◌≤◌, ◌<◌, leb, length};
ghost use Rattle.paper.specs.Checks.{need, ◌also◌};
ghost use Rattle.paper.specs.Fields.{every, good};
ghost use Rattle.paper.specs.Kinds.{kind_of, allowed};
ghost use Rattle.paper.specs.Reading.{finish, length_good, reading_by, record_at};
ghost use Rattle.state.specs.States.{Arrived};
ghost use Rattle.verdicts.specs.Verdicts.{check_of, under};
ghost use Rattle.paper.specs.Answers.{said};
ghost use Rattle.reading.specs.Said.{Carries};
ghost use Rattle.reading.specs.Taken.{taken, Comes, Clean, is_entry, Framed, Underway, Runs, Further};

use characters::{number, text};
use field::place::Record;
use field::{kind, place};
use paper::answer::{Fault, Refusal};
use paper::record::{Before, Kind};
use paper::rules::Terms;
use state::{
    State, additional, batch_control, batch_header, file_control, file_header, individual,
};
use verdicts::verdict::need;
use verdicts::{order, verdict};

// Characters are tested in blocks of so many bytes, sixteen records and a whole number of what the compiler takes at a time.
const BLOCK: usize = 16 * Record::LENGTH;

// What a file can be.
#[derive(Clone, Copy)]
pub struct Reading;

impl Reading {
    // Bytes of a file, at least: a header and a control.
    pub const SHORTEST: usize = 2 * Record::LENGTH;
    // At most.
    pub const LONGEST: usize = Record::MOST * Record::LENGTH;
}

fn length_good(n: usize) -> bool
    ensures { result ≡ length_good n }
{
    number::within(Reading::SHORTEST as u64, Reading::LONGEST as u64, n as u64)
        & (n % Record::LENGTH == 0)
}

// How many bytes at the front are known to be characters: up to the first block that holds another.
fn clean_front(file: &[u8]) -> usize
    requires { length file.now ≤ 940000 }
    ensures { Clean file.now result }
{
    let blocks = file.len() / BLOCK;
    for block in 0..blocks {
        let front = block * BLOCK;
        if !text::all_good(&file[front..front + BLOCK]) {
            return front;
        }
    }
    let front = blocks * BLOCK;
    if text::all_good(&file[front..]) {
        return file.len();
    }
    front
}

// Whether the record at a place lies there.
fn in_front(front: usize, place: usize) -> bool
    requires { place < 10000 }
    ensures { result ≡ leb ((place + 1) * 94) front }
{
    (place + 1) * Record::LENGTH <= front
}

// They are tested here only where that was not done before.
fn characters(clean: bool, rec: &[u8]) -> bool
    requires { clean ≡ true → every good rec.now ≡ true }
    ensures { result ≡ every good rec.now }
{
    if clean {
        return true;
    }
    text::all_good(rec)
}

// Characters, then whether this type may stand here.
#[tactic(auto, using(verdicts::proofs::Chain::chain))]
fn stands(clean: bool, rec: &[u8], before: Before, kind: Kind) -> Result<(), Fault>
    requires { clean ≡ true → every good rec.now ≡ true }
    ensures { check_of result ≡ need (every good rec.now) 17 also allowed before kind }
{
    need(characters(clean, rec), Fault::Format)?;
    order::allowed(before, kind)
}

// The records that most of a file is made of.
fn is_entry(kind: Kind) -> bool
    ensures { result ≡ is_entry kind }
{
    kind::is_individual(kind) | kind::is_additional(kind)
}

// One of these. Its kind is written out, so that the compiler knows what may stand before it.
fn entry(
    terms: Terms,
    file: &[u8],
    clean: bool,
    place: usize,
    kind: Kind,
    state: State,
) -> Result<State, Fault>
    requires arrived { Arrived file.now place state }
    requires place_value { clean ≡ true → every good (record_at file.now place) ≡ true }
    requires place_value_2 { (kind_of (record_at file.now place) ≡ kind) × (is_entry kind ≡ true) }
    ensures { Comes (taken (under terms.entry) file.now place state) file.now place result }
{
    let rec = place::record_at(file, place);
    match kind {
        Kind::Individual => {
            stands(clean, rec, state.before, Kind::Individual)?;
            individual::step(terms, file, place, state)
        }
        Kind::Additional => {
            stands(clean, rec, state.before, Kind::Additional)?;
            additional::step(file, place, state)
        }
        _ => Err(Fault::Format),
    }
}

// Entries in turn, up to a record that is none.
fn entries(
    terms: Terms,
    file: &[u8],
    front: usize,
    records: usize,
    first: usize,
    state: State,
) -> Result<(usize, State), Refusal>
    requires { Underway file.now records front first state }
    ensures { Runs (under terms.entry) file.now records first state result }
{
    let mut now = state;
    for place in first..records {
        let kind = kind::kind(place::record_at(file, place));
        if !is_entry(kind) {
            return Ok((place, now));
        }
        let clean = in_front(front, place);
        now = verdict::at(entry(terms, file, clean, place, kind, now), place)?;
    }
    Ok((records, now))
}

// Any other record. An entry is met here at the beginning of a file only, where it may not stand.
fn frame(terms: Terms, file: &[u8], clean: bool, place: usize, state: State) -> Result<State, Fault>
    requires arrived { Arrived file.now place state }
    requires place_value { clean ≡ true → every good (record_at file.now place) ≡ true }
    requires framed { Framed file.now place state }
    ensures { Comes (taken (under terms.entry) file.now place state) file.now place result }
{
    let rec = place::record_at(file, place);
    let kind = kind::kind(rec);
    stands(clean, rec, state.before, kind)?;
    match kind {
        Kind::FileHeader => file_header::step(terms, file, place, state),
        Kind::BatchHeader => batch_header::step(terms, file, place, state),
        Kind::BatchControl => batch_control::step(file, place, state),
        Kind::FileControl => file_control::step(file, place, state),
        Kind::Individual => Err(Fault::Format),
        Kind::Additional => Err(Fault::Format),
        Kind::Other => Err(Fault::Format),
    }
}

// A record that is no entry, and the entries that follow it.
fn onward(
    terms: Terms,
    file: &[u8],
    front: usize,
    records: usize,
    place: usize,
    state: State,
) -> Result<(usize, State), Refusal>
    requires underway { Underway file.now records front place state }
    requires place_lt_records { (place < records) × Framed file.now place state }
    ensures { Runs (under terms.entry) file.now records place state result × Further place result }
{
    let clean = in_front(front, place);
    match frame(terms, file, clean, place, state) {
        Ok(next) => entries(terms, file, front, records, place + 1, next),
        Err(fault) => Err(fault.at(place)),
    }
}

// Records that end before a file control are wrong one past the last.
fn finish(before: Before, records: usize) -> Result<usize, Refusal>
    ensures { (said result ≡ finish before records) × Carries records result }
{
    match before {
        Before::Ended => Ok(records),
        _ => Err(Fault::Format.at(records)),
    }
}

// Acceptance with the number of records.
pub fn read(terms: Terms, file: &[u8]) -> Result<usize, Refusal>
    ensures { (said result ≡ reading_by (under terms.entry) file.now) × Carries (length file.now / 94) result }
{
    if !length_good(file.len()) {
        return Err(Fault::Length.at(0));
    }
    let front = clean_front(file);
    let records = file.len() / Record::LENGTH;
    let mut state = State::START;
    let mut place: usize = 0;
    // no `for`: each turn goes on by a run of records, and how long that is, the run says
    while place < records {
        let (at, after) = onward(terms, file, front, records, place, state)?;
        place = at;
        state = after;
    }
    finish(state.before, records)
}
