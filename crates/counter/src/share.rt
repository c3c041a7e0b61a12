// The day's hand-out: the extract of each entity to which the file holds a record, in a file of its own.
ghost use Rattle.std.specs.Prelude.{◌+◌, ◌≤◌, ◌<◌, length};

use crate::world::World;
use crate::{jobs, say, world};
use desk::Session;
use files::ending::Stopped;
use files::{saying, taking};
use intake::held;
use typed::call::Word;

// What a file's name takes behind that of its folder, at most.
const NAME: usize = 32;

// FOLDER/402.txt
#[tactic(auto, using(crate::proofs::Printed::named))]
fn path_in<'a>(folder: &[u8], entity: u64, path: &'a mut [u8]) -> &'a [u8]
    requires { length folder.now + 32 ≤ length path.old }
    ensures { length result.now ≤ length path.old }
{
    let past_folder = writing::text(path, 0, folder);
    let past_slash = writing::text(path, past_folder, b"/");
    let past_entity = writing::number(path, past_slash, entity);
    let end = writing::text(path, past_entity, b".txt");
    &path[..end]
}

// The line is printed once the bytes are where they belong.
fn hand_out(rt: &impl World, folder: &[u8], entity: u64, bytes: &[u8]) -> Result<(), Stopped>
    requires folder_len_bound { length folder.now + 32 ≤ 4096 }
    requires entity_bound { entity < 500 }
{
    let mut path = io::buffer();
    let path = path_in(folder, entity, &mut path);
    let written = jobs::put(rt, path, entity as usize, bytes)?;
    say::part(rt, entity, written)
}

fn share_with(
    rt: &impl World,
    session: &Session,
    entity: u64,
    file: &[u8],
    folder: &[u8],
    out: &mut [u8],
) -> Result<(), Stopped>
    requires folder_len_bound { length folder.now + 32 ≤ 4096 }
    requires entity_bound { entity < 500 }
{
    match sharing::share(session, entity, file, out) {
        Ok(None) => Ok(()),
        Ok(Some(n)) => hand_out(rt, folder, entity, &out[..n]),
        // a file that the reading accepted, and room for every extract: it cannot be
        Err(refusal) => Err(say::refusal(rt, refusal)),
    }
}

// Ascending; the first that could not be done ends it.
fn share_each(
    rt: &impl World,
    session: &Session,
    file: &[u8],
    folder: &[u8],
    out: &mut [u8],
) -> Result<(), Stopped>
    requires { length folder.now + 32 ≤ 4096 }
{
    for entity in 1..=Session::LAST {
        share_with(rt, session, entity, file, folder, out)?;
    }
    Ok(())
}

// The reading's answer goes first.
fn share_to(rt: &impl World, session: &Session, folder: &[u8]) -> Result<(), Stopped>
    requires { length folder.now + 32 ≤ 4096 }
{
    let mut input = held::input();
    let (_source, file) = world::file(rt, Word::FIRST, &mut input)?;
    say::answer(rt, session.read(file))?;
    let mut out = held::output();
    share_each(rt, session, file, folder, &mut out)
}

pub(crate) fn share(rt: &impl World, session: &Session) -> Result<(), Stopped> {
    let mut folder = io::buffer();
    let folder = taking::name(rt, Word::SECOND, &mut folder)?;
    if folder.len() > handing::PATH_MAX - NAME {
        saying::wrong(folder, b"the name of a folder is too long");
        return Err(Stopped::Undone);
    }
    share_to(rt, session, folder)
}
