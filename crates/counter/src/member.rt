// A member's desk: an extract is received, and why debits came back is printed. Nothing is written.
ghost use Rattle.std.specs.Prelude.{◌≤◌, length};

use crate::world::World;
use crate::{jobs, say, world};
use desk::Session;
use files::args;
use files::ending::Stopped;
use intake::held;
use reasons::Shown;
use typed::call::Word;
use typed::words;

pub(crate) fn receive(rt: &impl World, session: &Session) -> Result<(), Stopped> {
    let mut input = held::input();
    let (_source, file) = world::file(rt, Word::SECOND, &mut input)?;
    say::answer(rt, session.receive(jobs::entity(rt), file))
}

// The place of the record asked for.
fn place(rt: &impl World) -> usize {
    let mut word = io::buffer();
    words::place(args::word(rt, Word::FOURTH, &mut word))
}

// The reason in the record at a place.
fn show_one(
    rt: &impl World,
    session: &Session,
    file: &[u8],
    motives: &[u8],
    place: usize,
) -> Result<(), Stopped> {
    let shown = session.show(jobs::entity(rt), file, motives, place);
    say::answer(rt, shown.and(Ok(())))?;
    say::reason(rt, file, motives, place)
}

// All of them in order; the first that could not be printed ends it.
fn show_each(rt: &impl World, file: &[u8], motives: &[u8]) -> Result<(), Stopped>
    requires { length file.now ≤ 940000 }
{
    for place in 0..file.len() / Session::RECORD {
        say::reason(rt, file, motives, place)?;
    }
    Ok(())
}

// Every reason; the file is read once.
fn show_every(
    rt: &impl World,
    session: &Session,
    file: &[u8],
    motives: &[u8],
) -> Result<(), Stopped> {
    say::answer(rt, session.ask(jobs::entity(rt), file, motives))?;
    show_each(rt, file, motives)
}

// Of a file, by the motive list lent with it: the reason of the record at that place, or every one.
fn show(rt: &impl World, session: &Session, wanted: Option<usize>) -> Result<(), Stopped> {
    let mut input = held::input();
    let (_source, file) = world::file(rt, Word::SECOND, &mut input)?;
    // one byte more than a motive list shows that there was more
    let mut motives = [0u8; Shown::MOTIVES + 1];
    let (_list, motives) = world::file(rt, Word::THIRD, &mut motives)?;
    match wanted {
        Some(place) => show_one(rt, session, file, motives, place),
        None => show_every(rt, session, file, motives),
    }
}

pub(crate) fn reason(rt: &impl World, session: &Session) -> Result<(), Stopped> {
    show(rt, session, Some(place(rt)))
}

pub(crate) fn reasons(rt: &impl World, session: &Session) -> Result<(), Stopped> {
    show(rt, session, None)
}
