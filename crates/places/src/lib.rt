// WHAT HAS A NAME in the file system: nothing, a regular file with its permissions, or something else. A link is seen as a link, since it is not followed.
// No contract can say what the system finds there: tests/mend.sh tries that. What is said outright is the name as C reads it, and what the mode that is found means.
#![tactic(auto)]

ghost use Rattle.std.specs.Prelude.{◌≡◌, ◌<◌, length};
ghost use Rattle.whole.specs.Says.{Says};
ghost use Rattle.places.specs.Names.{path_size, c_name, Ended, Nameable};
ghost use Rattle.places.specs.Places.{«place_of»};

use decimals::put_text;
use std::ffi::CStr;
use std::fs::Metadata;
use std::io::ErrorKind;
use std::os::unix::fs::PermissionsExt;
use std::rt::Files;
use std::{fs, io};

// Bytes of a name as C reads it, with the 0 that ends it.
pub const PATH_MAX: usize = 4096;

// The permissions of a mode are its bits below this one; its kind stands above them.
const KIND: u32 = 0o10000;

// The kind of a regular file.
const REGULAR: u32 = 8;

// What has a name: nothing, a regular file with these permissions, something else; or that cannot be told.
#[derive(Drop)]
pub enum Place {
    Free,
    Regular(u32),
    Other,
    Unknown,
}

// What has a name, where the system found something of this mode, or found nothing, since nothing has the name or for another reason.
fn judged(found: bool, missing: bool, mode: u32) -> Place
    ensures { result ≡ place_of found missing mode }
{
    if !found {
        if missing {
            return Place::Free;
        }
        return Place::Unknown;
    }
    if mode / KIND % 16 != REGULAR {
        return Place::Other;
    }
    Place::Regular(mode % KIND)
}

// The same by what the system answers.
fn told(answer: io::Result<Metadata>) -> Place {
    match answer {
        Ok(status) => judged(true, false, status.permissions().mode()),
        Err(e) => judged(false, e.kind() == ErrorKind::NotFound, 0),
    }
}

// The same of the name up to its 0. Of a name that is no text in UTF-8 it cannot be told.
fn seen<F: Files>(rt: &F, path: &[u8; PATH_MAX]) -> Place
    requires { Ended path.now }
{
    match CStr::from_bytes_until_nul(path) {
        Ok(name) => match name.to_str() {
            Ok(text) => told(fs::symlink_metadata(rt, text)),
            Err(_) => Place::Unknown,
        },
        Err(_) => Place::Unknown,
    }
}

// Whether C can be handed all of the name: a name that is cut short names another file.
fn is_name(name: &[u8]) -> bool
    ensures { Says result (Nameable name.now) }
{
    if name.len() == 0 {
        return false;
    }
    if name.len() >= PATH_MAX {
        return false;
    }
    !name.contains(&0)
}

// The name as C reads it, up to a 0.
fn c_name(name: &[u8]) -> [u8; PATH_MAX]
    requires { length name.now < path_size }
    ensures { (result ≡ c_name name.now) × Ended result }
{
    let mut out = [0u8; PATH_MAX];
    put_text(name, &mut out, 0);
    out
}

// What has the name.
pub fn at<F: Files>(rt: &F, name: &[u8]) -> Place {
    if !is_name(name) {
        return Place::Unknown;
    }
    let path = c_name(name);
    seen(rt, &path)
}
