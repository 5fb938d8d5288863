// A FILE REPLACED WHOLE OR NOT AT ALL. The bytes go into a new file beside it, NAME.unfinished-PID, which takes the name once it is whole and on its device:
// whenever the program is killed, the name has what it had or all the new bytes, and what may be left over says by its name what it is.
// A regular file alone is replaced, and keeps its permissions; a link is seen as a link, and is no regular file. A new file has what the umask leaves.
// No contract can say what the system finds or does in a file system: tests/mend.sh tries that, with links, devices, folders, modes and kills. What is said outright is the new file's name.
#![tactic(auto)]

ghost use Rattle.std.specs.Prelude.{◌≡◌, ◌+◌, ◌≤◌, length};
ghost use Rattle.listing.specs.Put.{Put};
ghost use Rattle.saving.specs.Names.{suffix_size, unfinished};
ghost use Rattle.saving.specs.declared.SaveError.TheVariants.{Failed};

use decimals::{put_decimal, put_text};
use places::{PATH_MAX, Place};
use std::fs::{OpenFile, OpenOptions, Permissions};
use std::io::{ErrorKind, Write};
use std::os::unix::fs::PermissionsExt;
use std::process::Process;
use std::rt::Files;
use std::str::Utf8Error;
use std::{fs, io, process};

// The longest name that leaves room for `.unfinished-`, the 20 digits of a number and a 0.
const NAME_SIZE: usize = PATH_MAX - 33;

// Why a saving failed: what has the name is no regular file; or the system refused.
#[derive(Drop)]
pub enum SaveError {
    NotRegular,
    Failed,
}

impl From<io::Error> for SaveError {
    ghost from_gives = { λ _ e. e ≡ Failed };

    fn from(_e: io::Error) -> SaveError {
        SaveError::Failed
    }
}

impl From<Utf8Error> for SaveError {
    ghost from_gives = { λ _ e. e ≡ Failed };

    fn from(_e: Utf8Error) -> SaveError {
        SaveError::Failed
    }
}

// The number of this process.
fn own_number(process: Process) -> u64 {
    process::id(process) as u64
}

// The name of the new file: its length.
fn put_unfinished(name: &[u8], pid: u64, out: &mut [u8]) -> usize
    requires { length name.now + suffix_size ≤ length out.old }
    ensures { Put out.old 0 (unfinished name.now pid) out.new result × (result ≤ length name.now + suffix_size) }
{
    let a = put_text(name, out, 0);
    let b = put_text(b".unfinished-", out, a);
    put_decimal(pid, out, b)
}

// A new file, open for writing, under a name that nothing has.
fn fresh<R: Files>(rt: &R, path: &str) -> io::Result<R::File> {
    OpenOptions::new()
        .write(true)
        .create_new(true)
        .open(rt, path)
}

// The same. What a dead process of the same number left under that name is removed.
fn created<R: Files>(rt: &R, path: &str) -> io::Result<R::File> {
    match fresh(rt, path) {
        Err(e) if e.kind() == ErrorKind::AlreadyExists => {
            fs::remove_file(rt, path).is_ok();
            fresh(rt, path)
        }
        opened => opened,
    }
}

// The permissions that are kept, if any are; without, the umask's stay.
fn permit<F: OpenFile>(file: &F, mode: Option<u32>) -> io::Result<()> {
    match mode {
        Some(mode) => file.set_permissions(Permissions::from_mode(mode)),
        None => Ok(()),
    }
}

// The bytes into an open file, which is closed. It has its permissions before the bytes, so that nobody reads them who may not, and again after them, since writing may take some away.
// Each step is tried, whatever became of those before it; the first error is told.
fn fill<F: Write + OpenFile + Drop>(file: F, mode: Option<u32>, bytes: &[u8]) -> io::Result<()> {
    let mut file = file;
    let shut = permit(&file, mode);
    let whole = file.write_all(bytes);
    let open = permit(&file, mode);
    let kept = file.sync_all();
    shut.and(whole).and(open).and(kept)
}

// The bytes into the new file, which then takes the name.
fn put<R: Files>(
    rt: &R,
    file: R::File,
    new: &str,
    name: &str,
    bytes: &[u8],
    mode: Option<u32>,
) -> io::Result<()> {
    fill(file, mode, bytes)?;
    fs::rename(rt, new, name)
}

// The same; where anything fails the new file is removed.
fn moved<R: Files>(
    rt: &R,
    new: &str,
    name: &str,
    bytes: &[u8],
    mode: Option<u32>,
) -> io::Result<()> {
    let file = created(rt, new)?;
    let answer = put(rt, file, new, name, bytes, mode);
    if answer.is_err() {
        fs::remove_file(rt, new).is_ok();
    }
    answer
}

// Names are text in UTF-8: others can be given to no file.
fn replaced<R: Files>(
    rt: &R,
    process: Process,
    name: &[u8],
    bytes: &[u8],
    mode: Option<u32>,
) -> Result<(), SaveError> {
    if name.len() > NAME_SIZE {
        return Err(SaveError::Failed);
    }
    let mut space = [0u8; PATH_MAX];
    let n = put_unfinished(name, own_number(process), &mut space);
    let new = str::from_utf8(&space[..n])?;
    moved(rt, new, str::from_utf8(name)?, bytes, mode)?;
    Ok(())
}

// The bytes under a name that nothing has, or in place of the regular file that has it. Anything else of that name is left alone.
pub fn save<R: Files>(
    rt: &R,
    process: Process,
    name: &[u8],
    bytes: &[u8],
) -> Result<(), SaveError> {
    match places::at(rt, name) {
        Place::Free => replaced(rt, process, name, bytes, None),
        Place::Regular(mode) => replaced(rt, process, name, bytes, Some(mode)),
        Place::Other => Err(SaveError::NotRegular),
        Place::Unknown => Err(SaveError::Failed),
    }
}
