// Links followed up to what they lead to in the end, as the system follows them.
// That `size` is no longer than a path is a clause: it is so of the first bytes of a place that each function is lent, and that is written meanwhile.
ghost use Rattle.std.specs.Prelude.{◌≡◌, ◌<◌, ◌≤◌, length};
ghost use Rattle.links.specs.Paths.{longest_path, path_room};
ghost use Rattle.links.specs.Links.{is_link, turn_of, AtMost, most_links};

use crate::faults::told;
use crate::looking::{Kind, Way, look, way_by};
use crate::paths::{NAME_TOO_LONG, NO_TEXT, PATH_ROOM, go_to, is_systems, text_of};
use ascii::put_bytes;
use std::rt::HostRuntime;
use std::{fs, io};

const MOST_LINKS: u64 = 40;

const TOO_MANY_LINKS: i32 = 40;

const NO_MEMORY: i32 = 12;

// How many bytes the path has that was reached, and which way a file is saved there.
#[derive(Clone, Copy)]
pub struct Found {
    pub size: usize,
    pub way: Way,
}

fn is_link(kind: Kind) -> bool
    ensures { result ≡ is_link kind }
{
    matches!(kind, Kind::Link)
}

// Which way a file is saved where this stands, or none where it is a link that is followed.
fn turn_by(kind: Kind, own: bool, followed: u64) -> Option<Way>
    ensures { result ≡ turn_of kind own followed }
{
    if !is_link(kind) || own {
        return Some(way_by(kind));
    }
    if followed < MOST_LINKS {
        return None;
    }
    Some(Way::Barred(TOO_MANY_LINKS))
}

fn turn_at(rt: &HostRuntime, path: &[u8], followed: u64) -> Option<Way>
    ensures { result ≡ None → followed < most_links }
{
    turn_by(look(rt, path), is_systems(path), followed)
}

// The number of the failure to read a link: std gives none where there is no memory for its text, nor where that is not UTF-8.
fn link_error(e: io::Error) -> i32 {
    match e.raw_os_error() {
        Some(error) => error,
        None => match e.kind() {
            io::ErrorKind::OutOfMemory => NO_MEMORY,
            _ => NO_TEXT,
        },
    }
}

// Lays the text that a link has over the front of `target`. What has no room there is longer than any path.
fn lay_link(rt: &HostRuntime, link: &str, target: &mut [u8]) -> Result<usize, i32>
    ensures { AtMost (length target.new) result }
{
    match fs::read_link(rt, link) {
        Ok(text) => lay_text(text.as_str().as_bytes(), target),
        Err(e) => Err(link_error(e)),
    }
}

fn lay_text(text: &[u8], target: &mut [u8]) -> Result<usize, i32>
    ensures { AtMost (length target.new) result }
{
    if target.len() < text.len() {
        return Err(NAME_TOO_LONG);
    }
    Ok(put_bytes(target, 0, text))
}

// The same of a link whose path is given as bytes: how many bytes its text has, or why it can't be read.
fn read_link(rt: &HostRuntime, link: &[u8], target: &mut [u8]) -> Result<usize, i32>
    requires { length link.now ≤ longest_path }
    ensures { AtMost (length target.new) result }
{
    let text = text_of(link)?;
    told(lay_link(rt, text, target))
}

// Lays the path that a link leads to over the link's own. What the link's text has no room for is longer than any path.
fn follow(rt: &HostRuntime, place: &mut [u8; PATH_ROOM], size: usize) -> Result<usize, i32>
    requires { size ≤ longest_path }
    ensures { AtMost longest_path result }
{
    let mut target = [0u8; PATH_ROOM];
    let n = read_link(rt, &place[..size], &mut target)?;
    go_to(place, size, &target[..n])
}

// Follows links from the path that is the first `size` bytes of a path's room, and lays the path that is reached over it.
fn find_in(rt: &HostRuntime, place: &mut [u8; PATH_ROOM], size: usize) -> Found
    requires { size ≤ longest_path }
    ensures { result.size ≤ longest_path }
{
    let mut at = size;
    let mut followed = 0;
    // A `loop`, since how many links were followed is asked at what each of them leads to: behind a `for` there would be a way to name that no path comes to.
    loop {
        if let Some(way) = turn_at(rt, &place[..at], followed) {
            return Found { size: at, way };
        }
        match follow(rt, place, at) {
            Ok(n) => at = n,
            Err(error) => {
                return Found {
                    size: at,
                    way: Way::Barred(error),
                };
            }
        }
        followed += 1;
    }
}

// The same of any lent bytes that are as many as a path's room: a caller may have no array.
pub fn find(rt: &HostRuntime, place: &mut [u8], size: usize) -> Found
    requires { (size ≤ longest_path) × (length place.old ≡ path_room) }
    ensures { (result.size ≤ longest_path) × (length place.new ≡ path_room) }
{
    match place.as_mut_array::<PATH_ROOM>() {
        Some(room) => find_in(rt, room, size),
        None => Found {
            size,
            way: Way::Barred(NAME_TOO_LONG),
        },
    }
}
