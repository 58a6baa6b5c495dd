// `poolmirror`: what people do with a score from the shell. The libraries decide what is asked for, what is said and which status tells it; the program moves bytes between the system and them.
// The rooms that are lent stay parameters of their own: each call writes some of them while it reads others, and a struct of them would be taken apart again in each. A name is the first n bytes of its room, since it is shown in place there.
#![tactic(auto)]

ghost use Rattle.std.specs.Prelude.{◌≡◌, false, ◌≤◌, length, IfSome, IfOk, IfErr};
ghost use Rattle.orders.specs.Endings.{ending_if};

use ascii::{put_byte, put_number};
use checking::Tally;
use disk::SaveError;
use links::PATH_ROOM;
use menu::Command;
use orders::{Order, Usage};
use playing::OUTPUT_ROOM;
use session::layout::{MEMORY_SIZE, ROOM_SIZE};
use std::env::FillError;
use std::fs::File;
use std::io::Read;
use std::rt::{Env, HostRuntime};
use streams::Ending;

// More than any score has, so that a longer file is refused for its length.
const FILE_ROOM: usize = 65536;

// The longest text or extended score that is read from here, and one byte more: sixteen times what any score needs.
const TEXT_ROOM: usize = 4194305;

// Room for the text of any score.
const WRITTEN_ROOM: usize = writer::TEXT_ROOM;

// Room for any line, with a name of any length in it, and for any page of words.
const LINE_ROOM: usize = 8192;

// The longest path of the folder of links: a slash and a number have room behind it.
const MOST_LINKS_PATH: usize = 4064;

// The error number of what is too large.
const TOO_LARGE: i32 = 27;

// The place of the first argument behind the command.
const FIRST_NAME: usize = 2;

// ---- the arguments

// An argument's bytes; of one that is longer than any name of a file the first ones, which name no file either.
fn read_argument(rt: &HostRuntime, i: usize, arg: &mut [u8]) -> usize
    ensures { result ≤ length arg.new }
{
    match rt.arg(i, arg) {
        Ok(n) => n,
        Err(FillError::TooLong) => arg.len(),
        Err(FillError::NotPresent) => 0,
    }
}

fn is_argument(rt: &HostRuntime, i: usize) -> bool {
    let mut first = [0u8; 1];
    !matches!(rt.arg(i, &mut first), Err(FillError::NotPresent))
}

// How many arguments there are, the program's own name among them.
fn argument_count(rt: &HostRuntime) -> usize {
    for i in 0..usize::MAX {
        if !is_argument(rt, i) {
            return i;
        }
    }
    usize::MAX
}

fn begin_order(rt: &HostRuntime, arg: &mut [u8]) -> Order {
    let n = read_argument(rt, 1, arg);
    orders::begin(&arg[..n])
}

fn take_argument(rt: &HostRuntime, o: Order, i: usize, arg: &mut [u8]) -> Order {
    let n = read_argument(rt, i, arg);
    orders::take(o, i, &arg[..n])
}

fn read_order(rt: &HostRuntime, arg: &mut [u8]) -> Order {
    let count = argument_count(rt);
    if count < FIRST_NAME {
        return orders::nothing();
    }
    let mut o = begin_order(rt, arg);
    for i in FIRST_NAME..count {
        o = take_argument(rt, o, i, arg);
    }
    orders::close(o)
}

// ---- files

// The variables that tell where the links to files are that a name which is no text stands for: to those that are read, and to where one that is written is saved.
const READ_NAMES: &str = "POOLMIRROR_NAMES";

const SAVED_NAMES: &str = "POOLMIRROR_SAVED";

// Lays the path of the link to what argument i names, which bin/shared.bash makes where the name is no text: std opens a file by text alone. Answers the path's length, where there is one.
fn put_link(rt: &HostRuntime, names: &str, i: usize, place: &mut [u8; PATH_ROOM]) -> Option<usize>
    ensures { IfSome result (λ n. n ≤ 4096) }
{
    let Ok(n) = rt.var(names, place) else {
        return None;
    };
    if MOST_LINKS_PATH < n {
        return None;
    }
    let at = put_byte(place, n, b'/');
    Some(put_number(place, at, i as u64))
}

// The file that argument i names, open for reading.
fn open_named(rt: &HostRuntime, i: usize, name: &[u8]) -> Result<File, i32> {
    if links::text_of(name).is_ok() {
        return disk::open(rt, name);
    }
    let mut place = [0u8; PATH_ROOM];
    match put_link(rt, READ_NAMES, i, &mut place) {
        Some(n) => disk::open(rt, &place[..n]),
        None => disk::open(rt, name),
    }
}

// Saves the bytes as the file that argument i names.
fn save_by(rt: &HostRuntime, i: usize, name: &[u8], made: &[u8]) -> Result<(), SaveError> {
    let mut place = [0u8; PATH_ROOM];
    match put_link(rt, SAVED_NAMES, i, &mut place) {
        Some(n) => disk::save(rt, &place[..n], made),
        None => disk::save(rt, name, made),
    }
}

// How many bytes the file that argument i names has, or standard input, as many as there is room for; or the number of why it can't be read.
fn read_named(rt: &HostRuntime, i: usize, name: &[u8], file: &mut [u8]) -> Result<usize, i32>
    ensures { IfOk result (λ count. count ≤ length file.new) }
{
    if orders::is_standard(name) {
        let mut input = rt.stdin();
        return disk::read_input(rt, &mut input, file);
    }
    disk::read_opened(rt, open_named(rt, i, name), file)
}

// The same, where more than there is room for is told as too large.
fn read_whole(rt: &HostRuntime, i: usize, name: &[u8], file: &mut [u8]) -> Result<usize, i32>
    ensures { IfOk result (λ count. count ≤ length file.new) }
{
    let count = read_named(rt, i, name, file)?;
    if file.len() <= count {
        return Err(TOO_LARGE);
    }
    Ok(count)
}

// ---- check

// What has come of the files so far, and the order as far as it was gone through again.
#[derive(Clone, Copy)]
struct Run {
    tally: Tally,
    order: Order,
}

// The line of a name. Where it can't be written, the program has failed.
fn check_name(
    rt: &HostRuntime,
    i: usize,
    arg: &mut [u8; PATH_ROOM],
    n: usize,
    file: &mut [u8],
    out: &mut [u8; LINE_ROOM],
    t: Tally,
) -> Result<Tally, Ending>
    requires { n ≤ length arg.old }
    ensures { IfErr result (λ ending. ending ≡ ending_if false) }
{
    let read = read_named(rt, i, &arg[..n], file);
    let shown = orders::show(arg, n);
    let a = match read {
        Ok(size) => checking::account_line(out, &arg[..shown], 0, &file[..size]),
        Err(error) => checking::account_line(out, &arg[..shown], error, b""),
    };
    if !streams::print(rt, out, a.count) {
        return Err(orders::ending_if(false));
    }
    Ok(checking::count_file(t, a.came))
}

// One argument more. What is no name is passed.
fn check_argument(
    rt: &HostRuntime,
    i: usize,
    arg: &mut [u8; PATH_ROOM],
    file: &mut [u8],
    out: &mut [u8; LINE_ROOM],
    s: Run,
) -> Result<Run, Ending>
    ensures { IfErr result (λ ending. ending ≡ ending_if false) }
{
    let n = read_argument(rt, i, arg);
    let named = orders::is_name(s.order, &arg[..n]);
    let order = orders::take(s.order, i, &arg[..n]);
    if !named {
        return Ok(Run {
            tally: s.tally,
            order,
        });
    }
    let tally = check_name(rt, i, arg, n, file, out, s.tally)?;
    Ok(Run { tally, order })
}

// The line of each name, in order.
fn check_names(
    rt: &HostRuntime,
    arg: &mut [u8; PATH_ROOM],
    file: &mut [u8],
    out: &mut [u8; LINE_ROOM],
) -> Result<Tally, Ending>
    ensures { IfErr result (λ ending. ending ≡ ending_if false) }
{
    let count = argument_count(rt);
    let order = begin_order(rt, arg);
    let mut s = Run {
        tally: checking::no_files(),
        order,
    };
    for i in FIRST_NAME..count {
        s = check_argument(rt, i, arg, file, out, s)?;
    }
    Ok(s.tally)
}

// The sum, where it is worth telling.
fn say_tally(rt: &HostRuntime, out: &mut [u8; LINE_ROOM], t: Tally) {
    if checking::worth_telling(t) {
        let n = checking::tally_line(out, t);
        streams::say_first(rt, out, n);
    }
}

fn check(
    rt: &HostRuntime,
    arg: &mut [u8; PATH_ROOM],
    file: &mut [u8],
    out: &mut [u8; LINE_ROOM],
) -> Ending {
    match check_names(rt, arg, file, out) {
        Ok(tally) => {
            say_tally(rt, out, tally);
            checking::ending_of(tally)
        }
        Err(ending) => ending,
    }
}

// ---- play

// What can't be read is told, and nothing is played.
fn unread(rt: &HostRuntime, name: &[u8], error: i32) -> Ending {
    telling::say_unread(rt, name, error);
    orders::ending_if(false)
}

fn perform<R: Read>(
    rt: &HostRuntime,
    file: &[u8],
    score: &[u8],
    list: &[u8],
    grace: u64,
    input: &mut R,
    first: &mut [u8; LINE_ROOM],
) -> Ending
    requires { length list.now ≤ 4096 }
{
    let mut mem = [0u64; MEMORY_SIZE];
    let mut room = [0u64; ROOM_SIZE];
    let mut out = [0u8; OUTPUT_ROOM];
    let n = orders::put_first_line(first, list);
    performance::perform(
        rt,
        file,
        score,
        &first[..n],
        list,
        grace,
        input,
        &mut mem,
        &mut room,
        &mut out,
    )
}

// Plays the score by commands that are open.
fn play_score<R: Read>(
    rt: &HostRuntime,
    i: usize,
    score: &mut [u8; PATH_ROOM],
    n: usize,
    list: &[u8],
    grace: u64,
    input: &mut R,
    file: &mut [u8],
    out: &mut [u8; LINE_ROOM],
) -> Ending
    requires { (n ≤ length score.old) × (length list.now ≤ 4096) }
{
    let read = read_named(rt, i, &score[..n], file);
    let named = orders::show(score, n);
    match read {
        Ok(size) => perform(rt, &file[..size], &score[..named], list, grace, input, out),
        Err(error) => unread(rt, &score[..named], error),
    }
}

// `play FILE COMMANDS [GRACE]`: the first name is the score's, the second the commands', and the number behind them is the grace, which is 0 where there is none. The commands are opened before the score is read, so that nothing is played where one of them can't be.
fn play(
    rt: &HostRuntime,
    o: Order,
    score: &mut [u8; PATH_ROOM],
    list: &mut [u8; PATH_ROOM],
    file: &mut [u8],
    out: &mut [u8; LINE_ROOM],
) -> Ending {
    let names = o.names;
    let n = read_argument(rt, names.first, score);
    let m = read_argument(rt, names.second, list);
    if orders::is_standard(&list[..m]) {
        let listed = orders::show(list, m);
        let mut input = rt.stdin();
        return play_score(
            rt,
            names.first,
            score,
            n,
            &list[..listed],
            o.number,
            &mut input,
            file,
            out,
        );
    }
    let commands = open_named(rt, names.second, &list[..m]);
    let listed = orders::show(list, m);
    match commands {
        Err(error) => unread(rt, &list[..listed], error),
        Ok(mut input) => play_score(
            rt,
            names.first,
            score,
            n,
            &list[..listed],
            o.number,
            &mut input,
            file,
            out,
        ),
    }
}

// ---- read, write and unfold

// What can't be written is told. A function of its own, as `unread` is: what they differ in is the one call, and a parameter for it would be as long.
fn unwritten(rt: &HostRuntime, name: &[u8], error: i32) -> Ending {
    telling::say_unwritten(rt, name, error);
    orders::ending_if(false)
}

fn tell_saved(rt: &HostRuntime, name: &[u8], saved: Result<(), SaveError>) -> Ending {
    match saved {
        Ok(()) => orders::ending_if(true),
        Err(
            SaveError::NotMade(error)
            | SaveError::NotWritten(error)
            | SaveError::NotSafe(error)
            | SaveError::NotRenamed(error),
        ) => unwritten(rt, name, error),
    }
}

// What was made goes to standard output, or into the file of this name: whole or not at all.
fn save_named(
    rt: &HostRuntime,
    i: usize,
    name: &mut [u8; PATH_ROOM],
    n: usize,
    made: &[u8],
) -> Ending
    requires { n ≤ length name.old }
{
    if orders::is_standard(&name[..n]) {
        return orders::ending_if(streams::print(rt, made, made.len()));
    }
    let saved = save_by(rt, i, &name[..n], made);
    let shown = orders::show(name, n);
    tell_saved(rt, &name[..shown], saved)
}

// Why nothing was made: how many bytes of `out` say so, and how the program ends for it.
#[derive(Clone, Copy)]
struct Refused {
    said: usize,
    ending: Ending,
}

// What `read`, `write` and `unfold` differ in: what they read, and what they make of it.
trait Making {
    // Reads what argument i names. More than there is room for is told as too large.
    fn read(rt: &HostRuntime, i: usize, name: &[u8], given: &mut [u8]) -> Result<usize, i32>
        ensures { IfOk result (λ count. count ≤ length given.new) }
    {
        read_whole(rt, i, name, given)
    }

    // Makes what is saved, from the front of the room: how many bytes it has. The three stay three: each names its reader, its line and its ending.
    fn make(
        name: &[u8],
        given: &[u8],
        room: &mut [u8],
        out: &mut [u8; LINE_ROOM],
    ) -> Result<usize, Refused>
        requires { length name.now ≤ 4096 };
}

// `read`: a score's file, of its text.
struct Reading;

// `write`: a score's text, of its file.
struct Writing;

// `unfold`: a score's file, of an extended score.
struct Unfolding;

impl Making for Reading {
    fn make(
        name: &[u8],
        given: &[u8],
        room: &mut [u8],
        out: &mut [u8; LINE_ROOM],
    ) -> Result<usize, Refused> {
        let t = reader::read_text(given, room);
        let said = transcribing::read_line(out, name, given, t);
        let ending = transcribing::ending_of(t);
        t.map_err(|_| Refused { said, ending })
    }
}

impl Making for Writing {
    // A file that is longer than any score's is refused for its length, by `make`.
    fn read(rt: &HostRuntime, i: usize, name: &[u8], given: &mut [u8]) -> Result<usize, i32> {
        read_named(rt, i, name, given)
    }

    fn make(
        name: &[u8],
        given: &[u8],
        room: &mut [u8],
        out: &mut [u8; LINE_ROOM],
    ) -> Result<usize, Refused> {
        let t = writer::write_text(given, room);
        let said = transcribing::write_line(out, name, given, t);
        let ending = transcribing::ending_of(t);
        t.map_err(|_| Refused { said, ending })
    }
}

impl Making for Unfolding {
    fn make(
        name: &[u8],
        given: &[u8],
        room: &mut [u8],
        out: &mut [u8; LINE_ROOM],
    ) -> Result<usize, Refused> {
        let u = unfolder::unfold(given, room);
        let said = transcribing::unfold_line(out, name, given, u);
        let ending = transcribing::unfold_ending(u);
        u.map_err(|_| Refused { said, ending })
    }
}

// What was made is saved, and what is refused is said. What the first name names is read whole before anything is written under the second.
fn transcribe_named<M: Making>(
    rt: &HostRuntime,
    o: Order,
    name: &mut [u8; PATH_ROOM],
    saved: &mut [u8; PATH_ROOM],
    given: &mut [u8],
    room: &mut [u8],
    out: &mut [u8; LINE_ROOM],
) -> Ending {
    let names = o.names;
    let n = read_argument(rt, names.first, name);
    let m = read_argument(rt, names.second, saved);
    let read = M::read(rt, names.first, &name[..n], given);
    let shown = orders::show(name, n);
    let size = match read {
        Ok(size) => size,
        Err(error) => return unread(rt, &name[..shown], error),
    };
    match M::make(&name[..shown], &given[..size], room, out) {
        Ok(size) => save_made(rt, names.second, saved, m, room, size),
        Err(refused) => {
            streams::say_first(rt, out, refused.said);
            refused.ending
        }
    }
}

// The first bytes of the room, as many as were made.
fn save_made(
    rt: &HostRuntime,
    i: usize,
    name: &mut [u8; PATH_ROOM],
    n: usize,
    room: &[u8],
    size: usize,
) -> Ending
    requires { n ≤ length name.old }
{
    match room.get(..size) {
        Some(made) => save_named(rt, i, name, n, made),
        None => orders::ending_if(false),
    }
}

fn transcribe<M: Making>(rt: &HostRuntime, o: Order, given: &mut [u8], room: &mut [u8]) -> Ending {
    let mut name = [0u8; PATH_ROOM];
    let mut saved = [0u8; PATH_ROOM];
    let mut out = [0u8; LINE_ROOM];
    transcribe_named::<M>(rt, o, &mut name, &mut saved, given, room, &mut out)
}

// `read TEXT FILE` and `unfold EXTENDED FILE`. The room of what is given stands in a function of its own, and so does that of what `write` makes: the length of so long an array is proved by a law, since to count it would be too much.
fn transcribe_text<M: Making>(rt: &HostRuntime, o: Order) -> Ending {
    let mut given = [0u8; TEXT_ROOM];
    transcribe_file::<M>(rt, o, &mut given)
}

fn transcribe_file<M: Making>(rt: &HostRuntime, o: Order, given: &mut [u8]) -> Ending {
    let mut room = [0u8; FILE_ROOM];
    transcribe::<M>(rt, o, given, &mut room)
}

// `write FILE TEXT`
fn write(rt: &HostRuntime, o: Order) -> Ending {
    let mut room = [0u8; WRITTEN_ROOM];
    write_into(rt, o, &mut room)
}

fn write_into(rt: &HostRuntime, o: Order, room: &mut [u8]) -> Ending {
    let mut file = [0u8; FILE_ROOM];
    transcribe::<Writing>(rt, o, &mut file, room)
}

// ---- words

// `help` and `replies`, a function each: the call that lays the page is all that they differ in, and a parameter for it would be as long.
fn help(rt: &HostRuntime, out: &mut [u8; LINE_ROOM]) -> Ending {
    let n = menu::help_text(out);
    orders::ending_if(streams::print(rt, out, n))
}

fn replies(rt: &HostRuntime, out: &mut [u8; LINE_ROOM]) -> Ending {
    let n = wording::reply_lines(out);
    orders::ending_if(streams::print(rt, out, n))
}

// A wrong usage is told with the argument at fault, and nothing else is done. That it has failed is `ending_of`'s to say.
fn misused(
    rt: &HostRuntime,
    o: Order,
    arg: &mut [u8; PATH_ROOM],
    out: &mut [u8; LINE_ROOM],
) -> Ending {
    let n = read_argument(rt, o.at, arg);
    let shown = orders::show(arg, n);
    let m = orders::misuse_line(out, o, &arg[..shown]);
    streams::say_first(rt, out, m);
    Ending::Done
}

// ---- the program

// A match, since each command is a call of its own with the rooms that it needs.
fn carry_out(
    rt: &HostRuntime,
    o: Order,
    arg: &mut [u8; PATH_ROOM],
    out: &mut [u8; LINE_ROOM],
) -> Ending {
    let mut list = [0u8; PATH_ROOM];
    let mut file = [0u8; FILE_ROOM];
    match o.command {
        Command::Check => check(rt, arg, &mut file, out),
        Command::Play => play(rt, o, arg, &mut list, &mut file, out),
        Command::Read => transcribe_text::<Reading>(rt, o),
        Command::Write => write(rt, o),
        Command::Unfold => transcribe_text::<Unfolding>(rt, o),
        Command::Replies => replies(rt, out),
        Command::Help => help(rt, out),
    }
}

fn obey(
    rt: &HostRuntime,
    o: Order,
    arg: &mut [u8; PATH_ROOM],
    out: &mut [u8; LINE_ROOM],
) -> Ending {
    match o.usage {
        Usage::Right => carry_out(rt, o, arg, out),
        Usage::Wished => help(rt, out),
        Usage::NoCommand
        | Usage::NoOption
        | Usage::TooFew
        | Usage::TooMany
        | Usage::NoNumber
        | Usage::InputTwice => misused(rt, o, arg, out),
    }
}

fn main(rt: HostRuntime) {
    let mut arg = [0u8; PATH_ROOM];
    let mut out = [0u8; LINE_ROOM];
    let o = read_order(&rt, &mut arg);
    let done = obey(&rt, o, &mut arg, &mut out);
    let u = o.usage;
    streams::tell_ending(orders::ending_of(u, done));
}
