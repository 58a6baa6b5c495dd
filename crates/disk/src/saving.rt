// A file written whole or not at all: it is made beside the path under another name, made safe, and renamed when it is whole. Where that fails, what was at the path stays and the other file is removed.
// The path, the other name and the open file stay parameters of their own: each step takes those that it needs, and `IsPart` relates two of them at the one call, as `suffix_size` does the path and its room.
// Behind a symbolic link the file that it leads to is saved so, and the link stays. What is no regular file, such as a device or a pipe, is written in place and never renamed over.
ghost use Rattle.std.specs.Prelude.{◌≡◌, ◌+◌, ◌<◌, ◌≤◌, length, take};
ghost use Rattle.ascii.specs.Laying.{Laid};
ghost use Rattle.ascii.specs.Words.{bytes_before};
ghost use Rattle.disk.specs.Saving.{part_name, suffix_size, last_digit, IsPart, is_taken, not_made_long, not_made_zero};
ghost use Rattle.links.specs.Paths.{folder_of, longest_path};

use crate::failures::{INVALID, SaveError, settled_by};
use crate::files::open;
use ascii::{bytes_before, put_byte, put_bytes};
use links::{PATH_ROOM, Way, answered, find, folder_size, has_permissions, text_of, told};
use std::fs;
use std::fs::{File, OpenOptions, Permissions};
use std::os::unix::fs::PermissionsExt;
use std::rt::HostRuntime;
use streams::write_whole;

// How many bytes the other name has more, and the longest path that has room for them.
const SUFFIX: usize = 6;

const LAST: usize = PATH_ROOM - 1;

const MOST_PATH: usize = LAST - SUFFIX;

const LAST_DIGIT: u8 = 9;

const ZERO: u8 = 0;

// The error numbers of a name that is taken, and of one that is too long.
const IS_TAKEN: i32 = 17;

const NAME_TOO_LONG: i32 = 36;

// ---- an open file

fn put(rt: &HostRuntime, file: &mut File, bytes: &[u8]) -> Result<(), SaveError> {
    told(write_whole(rt, file, bytes)).map_err(SaveError::NotWritten)
}

fn make_safe(file: &File) -> Result<(), SaveError> {
    answered(file.sync_all()).map_err(SaveError::NotSafe)
}

// std closes a file where it is let go, and does not tell how that went. So what a close would tell of the bytes is asked for before, of what can be made safe at all.
fn shut(file: File) -> Result<(), SaveError> {
    settled_by(answered(file.sync_all()))
}

// Some file systems know one mode for all files and let nobody change it: there the file has it all the same.
fn change_mode(rt: &HostRuntime, part: &[u8], file: &File, bits: u32) -> Result<(), SaveError> {
    let changed = answered(file.set_permissions(Permissions::from_mode(bits)));
    if changed.is_err() && has_permissions(rt, part, bits) {
        return Ok(());
    }
    changed.map_err(SaveError::NotMade)
}

fn give(rt: &HostRuntime, part: &[u8], file: &File, mode: Option<u32>) -> Result<(), SaveError> {
    match mode {
        Some(bits) => change_mode(rt, part, file, bits),
        None => Ok(()),
    }
}

// The permissions are given before the bytes, so that by its mode the file is never more open than the one that was there. It is closed behind this, with nothing left to tell.
fn fill(
    rt: &HostRuntime,
    part: &[u8],
    mut file: File,
    mode: Option<u32>,
    bytes: &[u8],
) -> Result<(), SaveError> {
    give(rt, part, &file, mode)?;
    let written = put(rt, &mut file, bytes);
    let safe = make_safe(&file);
    written.and(safe)
}

// ---- the other name

// Lays the path, ".part" and a digit.
fn name_part(path: &[u8], digit: u8, name: &mut [u8]) -> usize
    requires { (digit ≤ last_digit) × (length path.now + suffix_size ≤ length name.old) }
    ensures { Laid name.old 0 (part_name path.now digit) name.new result }
{
    let at = put_bytes(name, 0, path);
    let at = put_bytes(name, at, b".part");
    put_byte(name, at, b'0' + digit)
}

fn create(rt: &HostRuntime, part: &[u8]) -> Result<File, i32> {
    let text = text_of(part)?;
    answered(
        OpenOptions::new()
            .write(true)
            .create_new(true)
            .open(rt, text),
    )
}

fn make(rt: &HostRuntime, path: &[u8], digit: u8, name: &mut [u8]) -> Result<File, i32>
    requires { (digit ≤ last_digit) × (length path.now + suffix_size ≤ length name.old) }
    ensures { (length name.new ≡ length name.old)
        × IsPart path.now (take (length path.now + suffix_size) name.new) }
{
    let end = name_part(path, digit, name);
    create(rt, &name[..end])
}

fn is_taken(opened: &Result<File, i32>) -> bool
    ensures { result ≡ is_taken opened.now }
{
    match opened {
        Ok(_) => false,
        Err(error) => *error == IS_TAKEN,
    }
}

// Makes the other file under the first name that is not taken.
fn make_part(rt: &HostRuntime, path: &[u8], name: &mut [u8]) -> Result<File, i32>
    requires { length path.now + suffix_size ≤ length name.old }
    ensures { (length name.new ≡ length name.old)
        × IsPart path.now (take (length path.now + suffix_size) name.new) }
{
    for digit in 0..LAST_DIGIT {
        let made = make(rt, path, digit, name);
        if !is_taken(&made) {
            return made;
        }
    }
    make(rt, path, LAST_DIGIT, name)
}

// ---- the file beside the path

// Only the other file is ever removed.
fn remove(rt: &HostRuntime, path: &[u8], part: &[u8])
    requires { IsPart path.now part.now }
{
    if let Ok(text) = text_of(part) {
        let _ = fs::remove_file(rt, text);
    }
}

// Only a file that is whole is renamed.
fn rename(
    rt: &HostRuntime,
    path: &[u8],
    part: &[u8],
    filled: Result<(), SaveError>,
) -> Result<(), SaveError>
    requires { IsPart path.now part.now × (filled ≡ Ok tt) }
{
    filled.and(move_over(rt, part, path).map_err(SaveError::NotRenamed))
}

fn move_over(rt: &HostRuntime, from: &[u8], to: &[u8]) -> Result<(), i32> {
    let old = text_of(from)?;
    let new = text_of(to)?;
    answered(fs::rename(rt, old, new))
}

// Opens the path's folder.
fn open_folder(rt: &HostRuntime, path: &[u8], folder: &[u8]) -> Result<File, i32>
    requires { folder.now ≡ folder_of path.now }
{
    open(rt, folder)
}

fn open_folder_of(rt: &HostRuntime, path: &[u8]) -> Result<File, i32> {
    let end = folder_size(path);
    if end == 0 {
        return open_folder(rt, path, b".");
    }
    open_folder(rt, path, &path[..end])
}

fn sync_folder(folder: File) -> Result<(), SaveError> {
    settled_by(answered(folder.sync_all()))
}

// Makes the rename safe. A folder that may not be read can't be: the file in it is whole all the same.
fn settle(rt: &HostRuntime, path: &[u8], renamed: Result<(), SaveError>) -> Result<(), SaveError>
    requires { renamed ≡ Ok tt }
{
    match open_folder_of(rt, path) {
        Err(_) => renamed,
        Ok(folder) => renamed.and(sync_folder(folder)),
    }
}

fn replace(
    rt: &HostRuntime,
    path: &[u8],
    part: &[u8],
    file: File,
    mode: Option<u32>,
    bytes: &[u8],
) -> Result<(), SaveError>
    requires { IsPart path.now part.now }
{
    let filled = fill(rt, part, file, mode, bytes);
    let Ok(()) = filled else {
        remove(rt, path, part);
        return filled;
    };
    let renamed = rename(rt, path, part, filled);
    let Ok(()) = renamed else {
        remove(rt, path, part);
        return renamed;
    };
    settle(rt, path, renamed)
}

fn save_beside(
    rt: &HostRuntime,
    path: &[u8],
    mode: Option<u32>,
    bytes: &[u8],
) -> Result<(), SaveError> {
    if MOST_PATH < path.len() {
        return Err(SaveError::NotMade(NAME_TOO_LONG));
    }
    let mut name = [0u8; PATH_ROOM];
    let end = path.len() + SUFFIX;
    let file = make_part(rt, path, &mut name).map_err(SaveError::NotMade)?;
    replace(rt, path, &name[..end], file, mode, bytes)
}

// ---- in place

fn open_in_place(rt: &HostRuntime, path: &[u8]) -> Result<File, i32> {
    let text = text_of(path)?;
    answered(File::create(rt, text))
}

fn overwrite(rt: &HostRuntime, mut file: File, bytes: &[u8]) -> Result<(), SaveError> {
    let written = put(rt, &mut file, bytes);
    let closed = shut(file);
    written.and(closed)
}

fn save_in_place(rt: &HostRuntime, path: &[u8], bytes: &[u8]) -> Result<(), SaveError> {
    let file = open_in_place(rt, path).map_err(SaveError::NotMade)?;
    overwrite(rt, file, bytes)
}

// ---- the path that is reached

// A match, since each way is a call of its own with what it carries.
fn save_at(rt: &HostRuntime, place: &[u8], way: Way, bytes: &[u8]) -> Result<(), SaveError> {
    match way {
        Way::Beside(mode) => save_beside(rt, place, mode, bytes),
        Way::InPlace => save_in_place(rt, place, bytes),
        Way::Barred(error) => Err(SaveError::NotMade(error)),
    }
}

// Saves the bytes as the file that this path leads to.
pub fn save(rt: &HostRuntime, path: &[u8], bytes: &[u8]) -> Result<(), SaveError>
    ensures value { longest_path < length path.now → result ≡ not_made_long }
    ensures value_2 { length path.now ≤ longest_path → bytes_before 0 path.now < length path.now → result ≡ not_made_zero }
{
    if LAST < path.len() {
        return Err(SaveError::NotMade(NAME_TOO_LONG));
    }
    if bytes_before(ZERO, path) < path.len() {
        return Err(SaveError::NotMade(INVALID));
    }
    let mut place = [0u8; PATH_ROOM];
    let size = put_bytes(&mut place, 0, path);
    let found = find(rt, &mut place, size);
    save_at(rt, &place[..found.size], found.way, bytes)
}
