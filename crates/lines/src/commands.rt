// "commands from standard input: `O parts tempo` (first, once), `H event tempo`, `T ms`, whole numbers, one space between".
ghost use Rattle.std.specs.Prelude.{◌≡◌};
ghost use Rattle.lines.specs.Commands.{pair_of, open_of, hear_of, pass_of, command_of, in_turn};

use crate::Command;
use ascii::{SPACE, begins, bytes_before, read_number};

const MOST_PARTS: u64 = 65535;

// Two numbers, "one space between".
fn read_pair(bytes: &[u8]) -> Option<(u64, u64)>
    ensures { result ≡ pair_of bytes.now }
{
    let stop = bytes_before(SPACE, bytes);
    if bytes.len() <= stop {
        return None;
    }
    let a = read_number(&bytes[..stop])?;
    let b = read_number(&bytes[stop + 1..])?;
    Some((a, b))
}

// "parts above 65,535 make the line unreadable"
fn read_open(bytes: &[u8]) -> Option<Command>
    ensures { result ≡ open_of bytes.now }
{
    let (parts, tempo) = read_pair(bytes)?;
    if MOST_PARTS < parts {
        return None;
    }
    Some(Command::Open(parts, tempo))
}

fn read_hear(bytes: &[u8]) -> Option<Command>
    ensures { result ≡ hear_of bytes.now }
{
    let (event, tempo) = read_pair(bytes)?;
    Some(Command::Hear(event, tempo))
}

fn read_pass(bytes: &[u8]) -> Option<Command>
    ensures { result ≡ pass_of bytes.now }
{
    let ms = read_number(bytes)?;
    Some(Command::Pass(ms))
}

// The line as it reads, whatever its turn.
fn read_command(line: &[u8]) -> Option<Command>
    ensures { result ≡ command_of line.now }
{
    if begins(b"O ", line) {
        return read_open(&line[2..]);
    }
    if begins(b"H ", line) {
        return read_hear(&line[2..]);
    }
    if begins(b"T ", line) {
        return read_pass(&line[2..]);
    }
    None
}

// "Out of turn are an `O` on any line but the first, and `H` or `T` before an opening that was granted."
fn in_turn(first: bool, opened: bool, c: Command) -> Option<Command>
    ensures { result ≡ in_turn first opened (Some c) }
{
    let turn = match c {
        Command::Open(_, _) => first,
        Command::Hear(_, _) | Command::Pass(_) => opened,
    };
    turn.then_some(c)
}

// What the line asks for, where it is the first one or not, and a session was opened or not.
pub fn command_in_turn(line: &[u8], first: bool, opened: bool) -> Option<Command>
    ensures { result ≡ in_turn first opened (command_of line.now) }
{
    in_turn(first, opened, read_command(line)?)
}
