// The table of commands: a row for each, the order in which they are listed, and looking one up by its name.
ghost use Rattle.std.specs.Prelude.{◌≡◌};
ghost use Rattle.menu.specs.Table.{row_of, command_named};
ghost use Rattle.menu.specs.Rows.{Holds};

use crate::Command;
use ascii::same;

// As many as there may be.
const ANY_NUMBER: usize = 18446744073709551615;

// A command's row: its name, how it is used, what it is for, how many arguments it takes, how many of them are names of files, and how many of these are read.
#[derive(Clone, Copy)]
pub struct Entry {
    pub name: &'static [u8],
    pub usage: &'static [u8],
    pub help: &'static [u8],
    pub least: usize,
    pub most: usize,
    pub files: usize,
    pub reads: usize,
}

// The order in which the commands are listed.
pub const COMMANDS: [Command; 7] = [
    Command::Check,
    Command::Play,
    Command::Read,
    Command::Write,
    Command::Unfold,
    Command::Replies,
    Command::Help,
];

// A command's row: a match, since it is the table, a row for each command.
pub fn entry_of(c: Command) -> Entry
    ensures { Holds (row_of c) result }
{
    match c {
        Command::Check => Entry {
            name: b"check",
            usage: b"check FILE ..",
            help: b"says of each file what is in it, or why it is refused",
            least: 1,
            most: ANY_NUMBER,
            files: ANY_NUMBER,
            reads: ANY_NUMBER,
        },
        Command::Play => Entry {
            name: b"play",
            usage: b"play FILE COMMANDS [GRACE]",
            help: b"plays a score by commands, and prints what is sent; GRACE is 0 to 630 grains",
            least: 2,
            most: 3,
            files: 2,
            reads: 2,
        },
        Command::Read => Entry {
            name: b"read",
            usage: b"read TEXT FILE",
            help: b"reads a score that is written as text, and makes its file",
            least: 2,
            most: 2,
            files: 2,
            reads: 1,
        },
        Command::Write => Entry {
            name: b"write",
            usage: b"write FILE TEXT",
            help: b"writes a score as text, to be read, corrected and sent back",
            least: 2,
            most: 2,
            files: 2,
            reads: 1,
        },
        Command::Unfold => Entry {
            name: b"unfold",
            usage: b"unfold EXTENDED FILE",
            help: b"unfolds the loops and curves of an extended score, and makes its file",
            least: 2,
            most: 2,
            files: 2,
            reads: 1,
        },
        Command::Replies => Entry {
            name: b"replies",
            usage: b"replies",
            help: b"lists the reply numbers with their words",
            least: 0,
            most: 0,
            files: 0,
            reads: 0,
        },
        Command::Help => Entry {
            name: b"help",
            usage: b"help",
            help: b"lists the commands",
            least: 0,
            most: 0,
            files: 0,
            reads: 0,
        },
    }
}

// The command whose name the bytes are.
pub fn find_command(bytes: &[u8]) -> Option<Command>
    ensures { result ≡ command_named bytes.now }
{
    for c in COMMANDS {
        if same(entry_of(c).name, bytes) {
            return Some(c);
        }
    }
    None
}
