// Why a run was refused or has failed, on standard error.
// Each asks for room by a clause: a type around the lent bytes would be built at each call, and taken apart again in it.
// Runtime and names are lent apart: a struct of them would be made for each line that is said.
ghost use Rattle.std.specs.Prelude.{◌≡◌, true, ◌≤◌, length, take};
ghost use Rattle.base.specs.Tests.{pick};
ghost use Rattle.ascii.specs.Laying.{Laid};
ghost use Rattle.reasons.specs.Reasons.{unread_line, unwritten_line};
ghost use Rattle.telling.specs.Openings.{tells_refusal, tells_grace, tells_unopened};
ghost use Rattle.telling.specs.Said.{most_name, said_room, told_name, blamed, refused_name, refused_line, unopened_line};

use ascii::put_bytes;
use session::Refusal;
use std::rt::HostRuntime;

// A name is told up to this many bytes: what is longer is cut.
const MOST_NAME: usize = 4352;

// Room for any line that has a name in front.
const SAID_ROOM: usize = 4608;

// ---- names

// As much of a name as is told.
fn told(name: &[u8]) -> &[u8]
    ensures { (result.now ≡ told_name name.now) × (length result.now ≤ most_name) }
{
    if MOST_NAME < name.len() {
        return &name[..MOST_NAME];
    }
    name
}

// ---- saying a line

// Says the line that `put` lays from the front of a room, of the length that it answers.
fn say_line<P: FnOnce(&mut [u8]) -> usize>(rt: &HostRuntime, put: P)
    requires { (text : _) → said_room ≤ length text.now → P.pre put text }
{
    let mut text = [0u8; SAID_ROOM];
    let n = put(&mut text);
    streams::say_first(rt, &text, n);
}

// ---- an input that can't be read

// The line of an input that can't be read, with as much of the name as is told.
// It and `put_unwritten` are one call each, of another line of reasons: one function would take the line as a closure, and be no shorter.
fn put_unread(text: &mut [u8], name: &[u8], error: i32) -> usize
    requires { said_room ≤ length text.old }
    ensures { Laid text.old 0 (unread_line (told_name name.now) error) text.new result }
{
    reasons::unread_line(text, told(name), error)
}

pub fn say_unread(rt: &HostRuntime, name: &[u8], error: i32) {
    say_line(rt, |text| put_unread(text, name, error));
}

// ---- an output that can't be written

fn put_unwritten(text: &mut [u8], name: &[u8], error: i32) -> usize
    requires { said_room ≤ length text.old }
    ensures { Laid text.old 0 (unwritten_line (told_name name.now) error) text.new result }
{
    reasons::unwritten_line(text, told(name), error)
}

pub fn say_unwritten(rt: &HostRuntime, name: &[u8], error: i32) {
    say_line(rt, |text| put_unwritten(text, name, error));
}

// ---- a refused opening

// What a refusal is for: the score file, the grace, or the first line of the commands.
#[derive(Clone, Copy)]
pub enum Blame {
    Score,
    Grace,
    Line,
}

// An arm for each refusal, as in the definition `blamed`: one that is added has to be given its answer here.
fn blame_of(x: Refusal) -> Blame
    ensures { result ≡ blamed x }
{
    match x {
        Refusal::MemoryShort => Blame::Line,
        Refusal::RoomShort => Blame::Line,
        Refusal::File(_) => Blame::Score,
        Refusal::BadTempo => Blame::Line,
        Refusal::BadGrace => Blame::Grace,
        Refusal::NoSession => Blame::Line,
        Refusal::NoEvent => Blame::Line,
        Refusal::NotAfter => Blame::Line,
        Refusal::BadMillis => Blame::Line,
        Refusal::ClockFull => Blame::Line,
    }
}

// The line of a refusal, with as much of the name as is told.
fn put_refused(text: &mut [u8], name: &[u8], file: &[u8], x: Refusal) -> usize
    requires { said_room ≤ length text.old }
    ensures { Laid text.old 0 (refused_line name.now file.now x) text.new result }
{
    refusals::refusal_line(text, told(name), file, x)
}

// The line that tells people why an opening was refused, with the name of what it was refused for.
// A `match`: the arms are the three names.
fn put_refusal(text: &mut [u8], score: &[u8], first: &[u8], file: &[u8], x: Refusal) -> usize
    requires { said_room ≤ length text.old }
    ensures { Laid text.old 0 (refused_line (refused_name score.now first.now (blamed x)) file.now x) text.new result }
{
    match blame_of(x) {
        Blame::Score => put_refused(text, score, file, x),
        Blame::Grace => put_refused(text, b"GRACE", file, x),
        Blame::Line => put_refused(text, first, file, x),
    }
}

fn say_refusal(rt: &HostRuntime, file: &[u8], score: &[u8], first: &[u8], nineteen: bool) {
    let x = playing::why_refused(file, nineteen);
    say_line(rt, |text| put_refusal(text, score, first, file, x));
}

// Whether what a line printed tells of an opening that is refused.
fn is_refusal(printed: &[u8]) -> bool
    ensures { result ≡ tells_refusal printed.now }
{
    if ascii::begins(b"open 0 ", printed) {
        return false;
    }
    ascii::begins(b"open ", printed)
}

// Whether it tells of one that is refused for its grace.
fn is_grace(printed: &[u8]) -> bool
    ensures { result ≡ tells_grace printed.now }
{
    ascii::begins(b"open 19 ", printed)
}

// ---- a first line that opens nothing

// Whether what a line printed tells of it.
fn is_unopened(printed: &[u8]) -> bool
    ensures { result ≡ tells_unopened printed.now }
{
    ascii::same(b"bad 1\n", printed)
}

fn put_unopened(text: &mut [u8], first: &[u8]) -> usize
    requires { said_room ≤ length text.old }
    ensures { Laid text.old 0 (unopened_line first.now) text.new result }
{
    let at = put_bytes(text, 0, told(first));
    put_bytes(
        text,
        at,
        b": opens no score, so nothing is played. The first line of the commands has to be O PARTS TEMPO and no more, as O 65535 5040 (docs/PLAY.md)\n",
    )
}

fn tell_unopened(rt: &HostRuntime, first: &[u8]) {
    say_line(rt, |text| put_unopened(text, first));
}

fn say_unopened(rt: &HostRuntime, first: &[u8], printed: &[u8]) {
    if is_unopened(printed) {
        tell_unopened(rt, first);
    }
}

// An input that ends with no line and no byte opens nothing either.
pub fn say_empty(rt: &HostRuntime, first: &[u8], lines: u64, kept: usize) {
    if 0 < lines {
        return;
    }
    if kept < 1 {
        tell_unopened(rt, first);
    }
}

// ---- after a line

// Whether an opening has been refused, after a line that printed the first n bytes of `out`. People are told of it, and of a first line that opens nothing.
// A length beside the bytes, since it is public, and its clause stays as callers know it.
pub fn after_line(
    rt: &HostRuntime,
    file: &[u8],
    score: &[u8],
    first: &[u8],
    out: &[u8],
    n: usize,
    refused: bool,
) -> bool
    requires { n ≤ length out.now }
    ensures { result ≡ pick (tells_refusal (take n out.now)) true refused }
{
    let printed = &out[..n];
    if !is_refusal(printed) {
        say_unopened(rt, first, printed);
        return refused;
    }
    say_refusal(rt, file, score, first, is_grace(printed));
    true
}
