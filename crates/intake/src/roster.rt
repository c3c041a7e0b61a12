// The entities that ROSTER lists: a file's, of any length, or all.
ghost use Rattle.std.specs.Prelude.{◌≡◌};
ghost use Rattle.paper.specs.Listing.{numbers_to};
ghost use Rattle.paper.specs.Buffers.{over};
ghost use Rattle.files.specs.Sources.{JustOpened};
ghost use Rattle.intake.specs.Gathering.{PieceRead, ToEnd, wrong_of, Gathers};

use desk::Session;
use files::taking::{Failure, Source};
use std::fs::File;
use std::rt::Files;
use typed::roster::{Text, Wrong};
use typed::words;
use watch::Watch;

// What a text is read in pieces of: as many bytes as a large buffer takes.
const PIECE: usize = 65536;

// How many entities are listed, and the source after the last piece of the text that lists them; none for the word all. Besides, all that was read.
#[derive(Drop)]
pub struct Roll {
    pub count: usize,
    pub source: Option<Source>,
    text: Text,
}

impl Roll {
    // The first word of the text that is no entity's number.
    pub fn wrong(&self) -> Option<Wrong>
        ensures { result ≡ wrong_of self.now.text }
    {
        self.text.roster().closed().wrong()
    }
}

fn everyone(entities: &mut [u64; Session::ROSTER]) -> usize
    ensures { (result ≡ 499) × (entities.new ≡ over (numbers_to 499) entities.old) }
{
    let all = Session::everybody();
    entities[..Session::EVERYBODY].copy_from_slice(&all);
    all.len()
}

// The next piece, read into the buffer: the source after it, how many bytes, and the text with them.
fn read_on(
    text: Text,
    source: Source,
    path: &[u8],
    buffer: &mut [u8],
) -> Result<(Source, usize, Text), Failure>
    ensures { PieceRead text source buffer.new result }
{
    let (after, n) = source.fill(path, buffer)?;
    let known = text.read(&buffer[..n]);
    Ok((after, n, known))
}

// The text to its last piece. Each full one is counted, so the loop ends by what the source may hand over.
fn read_all(
    source: Source,
    path: &[u8],
    buffer: &mut [u8; PIECE],
) -> Result<(Source, Text), Failure>
    requires { JustOpened path.now source }
    ensures { ToEnd path.now result }
{
    let mut text = Text::begun(source.watch());
    let mut before = source;
    loop {
        let (after, _, known) = read_on(text, before, path, buffer)?;
        if after.has_ended() {
            return Ok((after, known));
        }
        before = after;
        text = known;
    }
}

// What the word lists: all, or the text under that name.
pub fn gather(
    files: &impl Files<File = File>,
    path: &[u8],
    entities: &mut [u64; Session::ROSTER],
) -> Result<Roll, Failure>
    ensures { Gathers path.now result entities.old entities.new }
{
    if words::is(path, b"all") {
        return Ok(Roll {
            count: everyone(entities),
            source: None,
            text: Text::begun(Watch::at(0)),
        });
    }
    let mut buffer = io::large_buffer();
    let (source, text) = read_all(Source::open(files, path)?, path, &mut buffer)?;
    let count = text.roster().closed().entities(entities);
    Ok(Roll {
        count,
        source: Some(source),
        text,
    })
}
