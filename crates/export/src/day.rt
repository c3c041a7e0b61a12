// A whole day: an opening, and files presented in turn.
ghost use Rattle.std.specs.Prelude.{◌≡◌};
ghost use Rattle.desk.specs.Standing.{standing};
ghost use Rattle.desk.specs.Calls.{Reachable};
ghost use Rattle.export.specs.Day.{between, turns_of, day_of, day_listed};

use crate::figures::hand_figures;
use crate::pairs::hand_pair;
use crate::{Spoken, open, opened, speak, speak_of};
use desk::Session;
use listing::Listing;

// A day and the presenting of a file say no number of records.
const NO_RECORDS: usize = 0;

// The bytes from the end of the file before up to an end, as far as there are any.
#[tactic(auto, using(crate::proofs::Days::part_within))]
fn between(from: usize, end: usize, files: &[u8]) -> &[u8]
    ensures { result.now ≡ between from end files.now }
{
    let stop = end.min(files.len());
    let start = from.min(stop);
    &files[start..stop]
}

// The files in turn, each answer handed over.
fn present_all(session: &mut Session, ends: &[u64], files: &[u8], answers: &mut [u64])
    requires { Reachable session.old }
    ensures { (turns_of ends.now files.now (standing session.old) answers.old
        ≡ record { session = standing session.new; answers = answers.new }) × Reachable session.new }
{
    let mut from: usize = 0;
    for (i, file_end) in ends.iter().enumerate() {
        let end = *file_end as usize;
        let answer = session.present(between(from, end, files));
        let spoken = speak_of(NO_RECORDS, answer);
        hand_pair(i, spoken.number, spoken.place, answers);
        from = end;
    }
}

// File i is the bytes of `files` from the end of the one before up to ends[i]. The opening's answer comes back; where it is accepted, the
// others stand in `answers`, two numbers each, and the figures of the cells at the end in `figures`, at the indices of `Figure`.
#[tactic(auto, using(crate::proofs::Jobs::jobs), unfolding(crate::specs::Day::day_of, crate::specs::Day::day_closed))]
pub fn shaydhoqel_day(
    date: u64,
    dollars: bool,
    entities: &[u64],
    ends: &[u64],
    files: &[u8],
    answers: &mut [u64],
    figures: &mut [i64],
) -> Spoken
    ensures { day_of date dollars entities.now ends.now files.now
        record { answers = answers.old; figures = figures.old }
        ≡ record { spoken = result; lent = record { answers = answers.new; figures = figures.new } } }
{
    let mut reply = open(date, dollars, entities);
    if let Err(spoken) = opened(&reply) {
        return spoken;
    }
    present_all(&mut reply.session, ends, files, answers);
    hand_figures(&reply.session.cells(), figures);
    speak(Ok(NO_RECORDS))
}

// The listing of the session at the end of such a day, whatever the last answer was: 0 and the number of bytes, or the opening's refusal.
#[tactic(auto, using(crate::proofs::Jobs::jobs), unfolding(crate::specs::Day::day_listed, crate::specs::Spoken::delivered_of, paper::specs::Buffers::written))]
pub fn shaydhoqel_day_listing(
    date: u64,
    dollars: bool,
    entities: &[u64],
    ends: &[u64],
    files: &[u8],
    out: &mut [u8; Listing::ROOM],
) -> Spoken
    ensures { day_listed date dollars entities.now ends.now files.now out.old
        ≡ record { spoken = result; lent = out.new } }
{
    let mut reply = open(date, dollars, entities);
    if let Err(spoken) = opened(&reply) {
        return spoken;
    }
    let mut unasked: [u64; 0] = [];
    present_all(&mut reply.session, ends, files, &mut unasked);
    speak(Ok(listing::print(&reply.session, out)))
}
