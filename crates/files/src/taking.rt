// Files read into lent buffers.
ghost use Rattle.std.specs.Prelude.{◌≡◌, ◌+◌, ◌-◌, ◌≤◌, ◌<◌, T, length, IfOk, IfSome};
ghost use Rattle.std.specs.Fd.{file_raw_fd};
ghost use Rattle.std.specs.Int.Signed.{non_neg};
ghost use Rattle.std.specs.Io.{ReadsAtMost};
ghost use Rattle.files.specs.Sources.{handed_by, has_ended, watch_of, most_handed, name_of, name_in, AsOpened, GoneOn, AsFilled, AsFile, Copied};

use crate::{filling, saying};
use std::env::FillError;
use std::fs::File;
use std::io::{Error, ErrorKind, Read, Seek, SeekFrom};
use std::os::fd::AsRawFd;
use std::os::unix::fs::FileExt;
use std::rt::{Env, Files};
use std::str;
use watch::Watch;

// A file that is being read. Only this room can make or change one, so that it tells what the system handed over, and which byte at a place that nobody
// else knows.
#[derive(Drop)]
pub struct Source {
    file: File,
    // a file whose place tells how much a pipe has handed over; none where `file` itself has places
    meter: Option<File>,
    // the name that it was opened under, watched
    name: Watch,
    // bytes handed over so far
    total: u64,
    // and watched
    watch: Watch,
    // the last filling met the end
    ended: bool,
}

// A file of this name could not be read, and that was said; of none where a word gave no name. Only this room can make one: who hands one on was handed it
// here.
#[derive(Clone, Copy)]
pub struct Failure {
    name: Watch,
}

// The system is asked by text: a name that is none cannot be.
pub fn text(path: &[u8]) -> std::io::Result<&str>
    ensures { IfOk result (λ text. text.now ≡ path.now) }
{
    str::from_utf8(path).map_err(|_| {
        Error::new(
            ErrorKind::InvalidFilename,
            "its name is not UTF-8, and it cannot be opened",
        )
    })
}

fn opened(files: &impl Files<File = File>, path: &[u8]) -> std::io::Result<File> {
    File::open(files, text(path)?)
}

// The file of that name, open for reading. That its descriptor is one is asked, since no contract says it.
fn open_read(files: &impl Files<File = File>, path: &[u8]) -> std::io::Result<File>
    ensures { IfOk result (λ file. T (non_neg (file_raw_fd file))) }
{
    let file = opened(files, path)?;
    if file.as_raw_fd() < 0 {
        return Err(Error::from(ErrorKind::Other));
    }
    Ok(file)
}

// A pipe has no places to read at.
fn has_places(file: &File) -> bool {
    !matches!(file.read_at(&mut [], 0), Err(error) if error.kind() == ErrorKind::NotSeekable)
}

// What tells how far a source without places has come: the system keeps it, so that no copy of the source takes it back. An error where there is none, and
// that was said.
fn meter(files: &impl Files<File = File>, file: &File, path: &[u8]) -> std::io::Result<Option<File>>
    ensures { IfOk result (λ meter. IfSome meter (λ file. T (non_neg (file_raw_fd file)))) }
{
    if has_places(file) {
        return Ok(None);
    }
    // every program has this one, and it takes any place; it is never read
    let kept = b"/proc/self/mem";
    let meter = open_read(files, kept).inspect_err(|error| saying::failed_for(path, kept, error))?;
    Ok(Some(meter))
}

// Where a source stands: its file, what tells how far it has come, and the place of its next byte.
#[derive(Clone, Copy, Drop)]
struct Stand<'a> {
    file: &'a File,
    meter: &'a File,
    place: u64,
}

impl Stand<'_> {
    // The next bytes of a pipe that stands at the place asked for, and a failure where it stands elsewhere.
    fn read_standing(
        &self,
        stands: u64,
        without_places: Error,
        buf: &mut [u8],
    ) -> std::io::Result<usize>
        ensures standing { IfOk result (λ n. stands ≡ self.now.place) }
        ensures counted { ReadsAtMost result buf.new }
    {
        if stands != self.place {
            return Err(without_places);
        }
        let mut pipe = self.file;
        pipe.read(buf)
    }

    // A pipe hands over each byte once: to the source that counts all before it, and to no older copy of that source.
    fn read_next(&self, without_places: Error, buf: &mut [u8]) -> std::io::Result<usize>
        ensures { ReadsAtMost result buf.new }
    {
        let mut meter = self.meter;
        let stands = meter.seek(SeekFrom::Current(0))?;
        let got = self.read_standing(stands, without_places, buf)?;
        let _ = meter.seek(SeekFrom::Current(got as i64));
        Ok(got)
    }

    // The bytes that stand at the place of the file, so that an older copy of a source is handed the same bytes again.
    fn read_at(&self, buf: &mut [u8]) -> std::io::Result<usize>
        ensures { ReadsAtMost result buf.new }
    {
        match self.file.read_at(buf, self.place) {
            Err(error) if error.kind() == ErrorKind::NotSeekable => self.read_next(error, buf),
            got => got,
        }
    }
}

impl Read for Stand<'_> {
    fn read(&mut self, buf: &mut [u8]) -> std::io::Result<usize> {
        let got = self.read_at(buf)?;
        self.place = self.place.saturating_add(got as u64);
        Ok(got)
    }
}

impl Source {
    // A source that has handed over so much is not read on: it is taken to have no end.
    pub const MOST: u64 = 1 << 30;
    // Any place would do: no contract says which it is.
    const WATCHED: u64 = 0;

    // The file of that name, open for reading.
    pub fn open(files: &impl Files<File = File>, path: &[u8]) -> Result<Source, Failure>
        ensures { AsOpened path.now result }
    {
        let name = Watch::at(Source::WATCHED).on(path);
        let file = open_read(files, path)
            .inspect_err(|error| saying::failed(path, error))
            .map_err(|_| Failure { name })?;
        let meter = meter(files, &file, path).map_err(|_| Failure { name })?;
        Ok(Source {
            file,
            meter,
            name,
            total: 0,
            watch: Watch::at(Source::WATCHED),
            ended: false,
        })
    }

    // A copy to go back to, which has handed over what this one has and goes on from there: a file hands it the same bytes again, and a pipe none that this
    // one was handed meanwhile.
    pub fn copied(&self) -> std::io::Result<Source>
        ensures { IfOk result (λ copy. Copied self.now copy) }
    {
        let file = self.file.try_clone()?;
        let meter = self.meter.as_ref().map(File::try_clone).transpose()?;
        Ok(Source {
            file,
            meter,
            ..*self
        })
    }

    fn stand(&self) -> Stand<'_> {
        Stand {
            file: &self.file,
            meter: self.meter.as_ref().unwrap_or(&self.file),
            place: self.total,
        }
    }

    // How much more it may hand over.
    fn left(&self) -> u64
        ensures { result ≡ most_handed - handed_by self.now }
    {
        Source::MOST.saturating_sub(self.total)
    }

    // Reading failed, and it is closed.
    fn failed(self) -> Failure
        ensures { name_in result ≡ name_of self }
    {
        let under = self.name;
        self.close();
        Failure { name: under }
    }

    // It handed over these bytes, and met the end or not.
    fn after(self, bytes: &[u8], ended: bool) -> Source
        requires { handed_by self + length bytes.now < most_handed }
        ensures { GoneOn self bytes.now ended result }
    {
        let total = self.total + bytes.len() as u64;
        let watch = self.watch.on(bytes);
        Source {
            total,
            watch,
            ended,
            ..self
        }
    }

    // The next bytes, as many as the buffer takes: the source after them, and how many they are. The path is for what is said.
    pub fn fill(self, path: &[u8], buf: &mut [u8]) -> Result<(Source, usize), Failure>
        ensures { AsFilled self buf.new result }
    {
        if buf.len() as u64 >= self.left() {
            saying::wrong(
                path,
                b"some 1 GiB were read, and it is taken to have no end",
            );
            return Err(self.failed());
        }
        match filling::fill(&mut self.stand(), buf) {
            Ok(n) => {
                let ended = n < buf.len();
                Ok((self.after(&buf[..n], ended), n))
            }
            Err(error) => {
                saying::failed(path, &error);
                Err(self.failed())
            }
        }
    }

    // What watches the bytes that it hands over.
    pub fn watch(&self) -> Watch
        ensures { result ≡ watch_of self.now }
    {
        self.watch
    }

    pub fn has_ended(&self) -> bool
        ensures { result ≡ has_ended self.now }
    {
        self.ended
    }

    // How many bytes it handed over in all.
    pub fn close(self) -> u64
        ensures { result ≡ handed_by self }
    {
        self.total
    }
}

// A word of the call gave no name, and that was said.
fn nameless(said: &[u8], what: &[u8]) -> Failure {
    saying::wrong(said, what);
    Failure {
        name: Watch::at(Source::WATCHED),
    }
}

// The name that a word of the call gives, put into the buffer.
pub fn name<'a>(words: &impl Env, word: usize, path: &'a mut [u8]) -> Result<&'a [u8], Failure>
    ensures { IfOk result (λ name. length name.now ≤ length path.old) }
{
    match words.arg(word, path) {
        Ok(0) | Err(FillError::NotPresent) => {
            Err(nameless(b"''", b"the name of a file is empty"))
        }
        Ok(length) => Ok(&path[..length]),
        Err(FillError::TooLong) => Err(nameless(
            path,
            b"the name of a file, of which this is the beginning, is too long",
        )),
    }
}

// The file of that name, as much of it as the buffer takes. The source is closed where the answer is let go.
pub fn file_named(
    files: &impl Files<File = File>,
    path: &[u8],
    buf: &mut [u8],
) -> Result<(Source, usize), Failure>
    ensures { AsFile buf.new result }
{
    Source::open(files, path)?.fill(path, buf)
}

// The file that a word of the call names, as much of it as the buffer takes.
pub fn file(
    rt: &(impl Env + Files<File = File>),
    word: usize,
    buf: &mut [u8],
) -> Result<(Source, usize), Failure>
    ensures { AsFile buf.new result }
{
    let mut path = io::buffer();
    file_named(rt, name(rt, word, &mut path)?, buf)
}
