// What stands at a path, and which way a file is saved there.
ghost use Rattle.std.specs.Prelude.{◌≡◌, false, ◌<◌, length};
ghost use Rattle.links.specs.Looking.{kind_of, unseen_by, found_of, way_of, has_bits, unseen_long};
ghost use Rattle.links.specs.Paths.{longest_path};

use crate::faults::reason;
use crate::paths::{LAST, NAME_TOO_LONG, text_of};
use std::fs;
use std::os::unix::fs::MetadataExt;
use std::rt::HostRuntime;
use streams::error_number;

// The error numbers of a path at which nothing stands, and of a folder where a file was asked for.
const NO_ENTRY: i32 = 2;

const IS_FOLDER: i32 = 21;

// The bits of a mode that tell what kind of file it is, and the three kinds that matter here.
const KIND_BITS: u32 = 0o170000;

const REGULAR: u32 = 0o100000;

const FOLDER: u32 = 0o040000;

const LINK: u32 = 0o120000;

// The bits of a mode that tell who may read, write and run a file. Those that let it run as its owner are not among them: the new file may have another.
const PERMISSIONS: u32 = 0o777;

// Nothing stands there, or a regular file with these permissions, a folder, a link or something else; or the system does not say what, with the reason's number.
#[derive(Clone, Copy, PartialEq, Eq)]
pub enum Kind {
    Missing,
    Regular(u32),
    Folder,
    Link,
    Other,
    Unseen(i32),
}

// A file is saved beside the path and renamed, with the permissions of the file that it replaces where there is one; or in place, or not at all. No Result: all three are told in one match, and a path is found on each of them.
#[derive(Clone, Copy)]
pub enum Way {
    Beside(Option<u32>),
    InPlace,
    Barred(i32),
}

// Asks the mode of what stands at a path, or the number of the failure. A link is not followed: it is something else than the file that it names.
fn ask(rt: &HostRuntime, path: &str) -> Result<u32, i32> {
    let found = fs::symlink_metadata(rt, path).map_err(|e| error_number(e))?;
    Ok(found.mode())
}

fn kind_by(mode: u32) -> Kind
    ensures { result ≡ kind_of mode }
{
    match mode & KIND_BITS {
        REGULAR => Kind::Regular(mode & PERMISSIONS),
        FOLDER => Kind::Folder,
        LINK => Kind::Link,
        _ => Kind::Other,
    }
}

// Where the system does not say what stands there, it may say that nothing does.
fn unseen(error: i32) -> Kind
    ensures { result ≡ unseen_by error }
{
    if error == NO_ENTRY {
        return Kind::Missing;
    }
    Kind::Unseen(reason(error))
}

fn kind_found(asked: Result<u32, i32>) -> Kind
    ensures { result ≡ found_of asked }
{
    match asked {
        Ok(mode) => kind_by(mode),
        Err(error) => unseen(error),
    }
}

pub fn look(rt: &HostRuntime, path: &[u8]) -> Kind
    ensures { longest_path < length path.now → result ≡ unseen_long }
{
    if LAST < path.len() {
        return Kind::Unseen(NAME_TOO_LONG);
    }
    match text_of(path) {
        Ok(text) => kind_found(ask(rt, text)),
        Err(error) => Kind::Unseen(error),
    }
}

// Which way a file is saved where this stands: `way_of`, case by case.
pub fn way_by(kind: Kind) -> Way
    ensures { result ≡ way_of kind }
{
    match kind {
        Kind::Missing => Way::Beside(None),
        Kind::Regular(bits) => Way::Beside(Some(bits)),
        Kind::Folder => Way::Barred(IS_FOLDER),
        Kind::Link => Way::InPlace,
        Kind::Other => Way::InPlace,
        Kind::Unseen(error) => Way::Barred(error),
    }
}

fn has_bits(kind: Kind, bits: u32) -> bool
    ensures { result ≡ has_bits kind bits }
{
    kind == Kind::Regular(bits)
}

// Whether a regular file with these permissions stands at the path.
pub fn has_permissions(rt: &HostRuntime, path: &[u8], bits: u32) -> bool
    ensures { longest_path < length path.now → result ≡ false }
{
    has_bits(look(rt, path), bits)
}
