// Where a job's bytes go. They are written beside OUT first and take its place whole, so that no failure leaves half a file under its name.
#![tactic(auto)]

ghost use Rattle.std.specs.Prelude.{◌≡◌, ◌+◌, ◌≤◌, length};
ghost use Rattle.files.specs.declared.ending.Stopped.TheVariants.{Undone};
ghost use Rattle.handing.specs.Handed.{AllOf};

use files::ending::Stopped;
use files::saying;
use files::taking::text;
use std::fs::{File, OpenOptions, Permissions};
use std::io::{Error, ErrorKind, Write};
use std::os::unix::fs::PermissionsExt;
use std::rt::Files;
use std::{fs, io};

pub mod modes;

// A path has no more bytes.
pub const PATH_MAX: usize = 4096;

// A path, and the name of a part in its folder.
const PART: usize = 2 * PATH_MAX;

// The bytes do not stand under the name, and that was said.
#[derive(Clone, Copy, Debug, PartialEq, Eq)]
pub struct Unwritten;

impl From<Unwritten> for Stopped {
    ghost from_gives = { λ _ e. e ≡ Undone };

    fn from(_unwritten: Unwritten) -> Stopped {
        Stopped::Undone
    }
}

// A call of the system failed on the path.
fn failed(path: &[u8], error: &Error) -> Unwritten {
    saying::failed(path, error);
    Unwritten
}

// Nothing can take the place of what the path names.
fn not_plain(path: &[u8]) -> Unwritten {
    saying::wrong(path, b"not a plain file");
    Unwritten
}

fn leads_on(files: &impl Files<File = File>, path: &[u8]) -> io::Result<bool> {
    Ok(fs::symlink_metadata(files, text(path)?)?.is_symlink())
}

fn opened(files: &impl Files<File = File>, path: &[u8]) -> io::Result<File> {
    OpenOptions::new()
        .read(true)
        .write(true)
        .open(files, text(path)?)
}

// Whether a new file can take its place: there is none, or a plain one.
fn plain(files: &impl Files<File = File>, path: &[u8]) -> Result<(), Unwritten> {
    match opened(files, path) {
        // nothing of a device or a pipe can be kept on a disk; asking that changes nothing of the file
        Ok(file) => file.sync_all().map_err(|_| not_plain(path)),
        Err(error) if error.kind() == ErrorKind::NotFound => Ok(()),
        Err(error) => Err(failed(path, &error)),
    }
}

// Whether a new file can take the place of what the path names. A link would stay, and what it leads to would not.
fn replaceable(files: &impl Files<File = File>, path: &[u8]) -> Result<(), Unwritten> {
    if leads_on(files, path).unwrap_or(false) {
        return Err(not_plain(path));
    }
    plain(files, path)
}

fn unlink(files: &impl Files<File = File>, part: &[u8]) -> io::Result<()> {
    fs::remove_file(files, text(part)?)
}

// The folder of a path, up to its last slash.
fn folder(path: &[u8]) -> &[u8]
    ensures { length result.now ≤ length path.now }
{
    match path.iter().rposition(|b| *b == b'/') {
        Some(slash) => &path[..slash + 1],
        None => &path[..0],
    }
}

// A name in the folder of the path. The launcher chose it, and finds the file by it where a signal ends the program.
fn name_part<'a>(part: &'a mut [u8], path: &[u8], name: &[u8]) -> &'a [u8]
    requires { length path.now + length name.now ≤ length part.old }
    ensures { length result.now ≤ length part.old }
{
    let past_folder = writing::text(part, 0, folder(path));
    let end = writing::text(part, past_folder, name);
    &part[..end]
}

// What is to stand under a path: these bytes, in a file of that mode, or of a new file's. They stand in the part first.
#[derive(Drop)]
struct Out<'a> {
    path: &'a [u8],
    part: &'a [u8],
    mode: Option<u32>,
    bytes: &'a [u8],
}

impl Out<'_> {
    // Nobody has a file of that name, or this fails.
    fn created(&self, files: &impl Files<File = File>) -> io::Result<File> {
        OpenOptions::new()
            .write(true)
            .create_new(true)
            .open(files, text(self.part)?)
    }

    fn written(&self, file: &File) -> io::Result<()> {
        let mut to = file;
        to.write_all(self.bytes)?;
        if let Some(bits) = self.mode {
            file.set_permissions(Permissions::from_mode(bits))?;
        }
        file.sync_all()
    }

    fn renamed(&self, files: &impl Files<File = File>) -> io::Result<()> {
        fs::rename(files, text(self.part)?, text(self.path)?)
    }

    // The part is given up.
    fn dropped(&self, files: &impl Files<File = File>, error: &Error) -> Unwritten {
        let unwritten = failed(self.path, error);
        let _ = unlink(files, self.part);
        unwritten
    }

    // A new file beside the path, with these bytes.
    fn write_part(&self, files: &impl Files<File = File>) -> Result<(), Unwritten> {
        let file = self
            .created(files)
            .map_err(|error| failed(self.path, &error))?;
        self.written(&file)
            .map_err(|error| self.dropped(files, &error))
    }

    // Then it takes the place of what the path names.
    fn replace(&self, files: &impl Files<File = File>) -> Result<(), Unwritten> {
        self.write_part(files)?;
        self.renamed(files)
            .map_err(|error| self.dropped(files, &error))
    }
}

// The bytes under that path, and how many they are. While they are written they stand beside it, under the other name.
pub fn put(
    files: &impl Files<File = File>,
    path: &[u8],
    name: &[u8],
    mode: Option<u32>,
    bytes: &[u8],
) -> Result<usize, Unwritten>
    requires path_len_bound { length path.now ≤ 4096 }
    requires name_len_bound { length name.now ≤ 4096 }
    ensures { AllOf bytes.now result }
{
    replaceable(files, path)?;
    let mut part = [0u8; PART];
    let part = name_part(&mut part, path, name);
    let out = Out {
        path,
        part,
        mode,
        bytes,
    };
    out.replace(files)?;
    Ok(bytes.len())
}
