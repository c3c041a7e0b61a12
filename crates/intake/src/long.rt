// What a job takes up, by its form: whole in a buffer; or longer than the job can take, looked at piece by piece, with the job's refusal.
ghost use Rattle.files.specs.Sources.{JustOpened};
ghost use Rattle.intake.specs.Looking.{LookedOn, LongSoFar, LookedThrough, Takes};

use crate::held::Size;
use files::taking::{Failure, Source};
use looking::{Form, Look};
use paper::answer::Refusal;
use std::fs::File;
use std::rt::Files;

// So many bytes are all of it; or it is longer, with its refusal, and all that was looked at. Each with its source after the last piece, which is closed where
// this is let go.
#[derive(Drop)]
pub enum Took {
    Whole(usize, Source),
    Long(Refusal, Source, Look),
}

// A piece: the source after it, how many bytes, and what is known with them.
fn look_on(
    seen: Look,
    source: Source,
    path: &[u8],
    body: &[u8],
    buffer: &mut [u8],
) -> Result<(Source, usize, Look), Failure>
    ensures { LookedOn seen source body.now buffer.new result }
{
    let (after, n) = source.fill(path, buffer)?;
    let known = seen.read(body, &buffer[..n]);
    Ok((after, n, known))
}

// To the last piece. Each full one is counted, so the loop ends by what the source may hand over. The form is there for the contract alone.
// No one function with `roster::read_all`: what a look keeps, by form, body and whole records, takes a trait of more lines than this loop.
fn look_through(
    form: Form,
    begun: Look,
    source: Source,
    path: &[u8],
    body: &[u8],
    input: &mut [u8; Size::LONG],
) -> Result<(Source, Look), Failure>
    requires { LongSoFar form path.now body.now source begun }
    ensures { LookedThrough form path.now body.now result }
{
    let mut seen = begun;
    let mut before = source;
    loop {
        let (after, _, known) = look_on(seen, before, path, body, input)?;
        if after.has_ended() {
            return Ok((after, known));
        }
        before = after;
        seen = known;
    }
}

fn take_from(
    form: Form,
    source: Source,
    path: &[u8],
    body: &[u8],
    input: &mut [u8; Size::LONG],
) -> Result<Took, Failure>
    requires { JustOpened path.now source }
    ensures { Takes form path.now body.now input.new result }
{
    let begun = Look::begun(form, source.watch());
    let (after, n, known) = look_on(begun, source, path, body, input)?;
    if after.has_ended() {
        return Ok(Took::Whole(n, after));
    }
    let (last, seen) = look_through(form, known, after, path, body, input)?;
    // there is an answer: no source comes to more records than are looked at
    Ok(Took::Long(seen.answer(body).unwrap(), last, seen))
}

// What stands under that name, its first piece into the buffer; the body is what the job is handed with it.
pub fn take(
    files: &impl Files<File = File>,
    form: Form,
    path: &[u8],
    body: &[u8],
    input: &mut [u8; Size::LONG],
) -> Result<Took, Failure>
    ensures { Takes form path.now body.now input.new result }
{
    take_from(form, Source::open(files, path)?, path, body, input)
}
