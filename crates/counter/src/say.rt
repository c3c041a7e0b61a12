// What is printed, each line the bytes of a proved function, and how the program ends by it. An answer that nobody can read is no answer.
#![tactic(auto, using(crate::proofs::Printed::printed))]

ghost use Rattle.std.specs.Prelude.{Ok, Err, ◌≡◌, ◌≤◌, length};
ghost use Rattle.paper.specs.Answers.{said, refused_by};
ghost use Rattle.desk.specs.Calls.{Reachable};
ghost use Rattle.counter.specs.Ending.{ended_by, Ends};

use crate::world::World;
use desk::Session;
use files::ending::Stopped;
use files::saying;
use intake::roster::Roll;
use listing::{Listing, answers, reason};
use paper::answer::{Fault, Refusal};

// A line, where it could be printed.
fn printed(rt: &impl World, line: &[u8]) -> Result<(), Stopped>
    ensures { Ends (Ok tt) result }
{
    rt.write_all(line)
        .inspect_err(|error| saying::failed(b"standard output", error))
        .map_err(|_| Stopped::Undone)
}

#[tactic(auto, unfolding(crate::specs::Ending::ended_by))]
fn ended_by(answer: Result<(), Refusal>) -> Result<(), Stopped>
    ensures { result ≡ ended_by (said answer) }
{
    answer.map_err(|_| Stopped::Refused)
}

// The word of the roster that an opening was refused for by 208.
fn word(rt: &impl World, refusal: Refusal, roll: &Roll) -> Result<(), Stopped>
    ensures { Ends (Ok tt) result }
{
    if refusal.fault != Fault::Entity {
        return Ok(());
    }
    let Some(wrong) = roll.wrong() else {
        return Ok(());
    };
    let mut line = [0u8; Listing::WORD_LINE];
    let n = answers::word(wrong.place, wrong.shown(), &mut line);
    printed(rt, &line[..n])
}

pub(crate) fn opening(rt: &impl World, refusal: Refusal, roll: &Roll) -> Result<(), Stopped>
    ensures { Ends (ended_by (refused_by refusal)) result }
{
    let mut line = [0u8; Listing::LINE];
    let n = answers::opening(Err(refusal), &mut line);
    printed(rt, &line[..n])?;
    word(rt, refusal, roll)?;
    ended_by(Err(refusal))
}

pub(crate) fn answer(rt: &impl World, answer: Result<(), Refusal>) -> Result<(), Stopped>
    ensures { Ends (ended_by (said answer)) result }
{
    let mut line = [0u8; Listing::LINE];
    let n = answers::answer(answer, &mut line);
    printed(rt, &line[..n])?;
    ended_by(answer)
}

// A refusal by itself.
#[tactic(auto, using(crate::proofs::Endings::stops))]
pub(crate) fn refusal(rt: &impl World, refusal: Refusal) -> Stopped
    ensures { Ends (ended_by (refused_by refusal)) (Err result) }
{
    answer(rt, Err(refusal)).unwrap_err()
}

// With the name of its file.
pub(crate) fn named(
    rt: &impl World,
    answer: Result<(), Refusal>,
    name: &[u8],
) -> Result<(), Stopped>
    ensures { Ends (ended_by (said answer)) result }
{
    let mut line = [0u8; Listing::NAMED];
    let n = answers::named(answer, name, &mut line);
    printed(rt, &line[..n])?;
    ended_by(answer)
}

// What was handed out to an entity.
pub(crate) fn part(rt: &impl World, entity: u64, bytes: usize) -> Result<(), Stopped> {
    let mut line = [0u8; Listing::LINE];
    let n = answers::part(entity, bytes, &mut line);
    printed(rt, &line[..n])
}

// What was written.
pub(crate) fn output(rt: &impl World, bytes: usize) -> Result<(), Stopped> {
    let mut line = [0u8; Listing::LINE];
    let n = answers::output(Ok(bytes), &mut line);
    printed(rt, &line[..n])
}

// Why a debit came back, by the record at a place; nothing where that says none.
pub(crate) fn reason(
    rt: &impl World,
    file: &[u8],
    motives: &[u8],
    place: usize,
) -> Result<(), Stopped>
    requires { length file.now ≤ 940000 }
{
    let mut line = [0u8; Listing::REASON];
    let n = reason::line(file, motives, place, &mut line);
    printed(rt, &line[..n])
}

// The listing of the session, whatever its last answer was.
pub(crate) fn list(rt: &impl World, session: &Session) -> Result<(), Stopped>
    requires { Reachable session.now }
{
    let mut lines = [0u8; Listing::ROOM];
    let n = listing::print(session, &mut lines);
    printed(rt, &lines[..n])
}
