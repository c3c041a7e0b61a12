// What a job asks of the system: the words of the call, files by name, and where lines are printed.
use files::ending::Stopped;
use files::taking;
use files::taking::Source;
use std::env::FillError;
use std::fs::File;
use std::rt::{Env, Files};

pub(crate) trait World: Env + Files<File = File> + Print {}

impl World for HostRuntime {}

// How many words the call has, the name of the program among them.
pub(crate) fn words(rt: &impl World) -> usize {
    let mut none = [0u8; 1];
    (0..usize::MAX)
        .find(|i| matches!(rt.arg(*i, &mut none), Err(FillError::NotPresent)))
        .unwrap_or(usize::MAX)
}

// The file that a word names, as much of it as the buffer takes. The source is open as long as it is kept: a pipe that two words name goes on between them.
pub(crate) fn file<'a>(
    rt: &impl World,
    word: usize,
    buf: &'a mut [u8],
) -> Result<(Source, &'a [u8]), Stopped> {
    let (source, n) = taking::file(rt, word, buf)?;
    Ok((source, &buf[..n]))
}
