// Paths as bytes: the folder that a path names a file in, and where a link leads.
ghost use Rattle.std.specs.Prelude.{◌≡◌, ◌≤◌, length, MatchResult, pos};
ghost use Rattle.links.specs.Paths.{folder_size, kept_size, is_systems, longest_path, no_text, Gone};

use ascii::{begins, put_bytes};
use std::str;

const SLASH: u8 = b'/';

// As many bytes as a path of the system has, and one more.
pub const PATH_ROOM: usize = 4096;

pub const LAST: usize = PATH_ROOM - 1;

pub const NAME_TOO_LONG: i32 = 36;

// The error number of bytes that are no text. std names a file by text alone, which is UTF-8.
pub const NO_TEXT: i32 = 84;

// The path as std takes one: its own bytes, where they are text.
pub fn text_of(path: &[u8]) -> Result<&str, i32>
    ensures { MatchResult result (λ text. text.now ≡ path.now) (λ error. error ≡ pos no_text) }
{
    str::from_utf8(path).map_err(|_| NO_TEXT)
}

// How many bytes of the path name its folder: those up to the last slash.
pub fn folder_size(path: &[u8]) -> usize
    ensures { (result ≡ folder_size path.now) × (result ≤ length path.now) }
{
    for n in (0..path.len()).rev() {
        if path[n] == SLASH {
            return n + 1;
        }
    }
    0
}

// How many bytes of a link's own path stay before what it leads to.
pub fn kept_size(link: &[u8], target: &[u8]) -> usize
    ensures { (result ≡ kept_size link.now target.now) × (result ≤ length link.now) }
{
    if begins(b"/", target) {
        return 0;
    }
    folder_size(link)
}

// Lays the path that a link leads to over the link's own, which is the first `size` bytes.
pub fn go_to(place: &mut [u8; PATH_ROOM], size: usize, target: &[u8]) -> Result<usize, i32>
    requires { size ≤ longest_path }
    ensures { Gone place.old size target.now place.new result }
{
    let kept = kept_size(&place[..size], target);
    if LAST - kept < target.len() {
        return Err(NAME_TOO_LONG);
    }
    Ok(put_bytes(place, kept, target))
}

// Whether the path lies among the system's own files.
pub fn is_systems(path: &[u8]) -> bool
    ensures { result ≡ is_systems path.now }
{
    begins(b"/dev/", path) || begins(b"/proc/", path)
}
