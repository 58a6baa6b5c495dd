// What `bin/poolmirror COMMAND ARGS` decides from its arguments, and what it tells of them, on lent bytes.
#![tactic(auto)]

pub use arguments::{begin, close, is_name, is_standard, nothing, take};
pub use ending::{ending_if, ending_of};
use menu::Command;
pub use said::{misuse_line, put_first_line, show};

mod arguments;
mod ending;
mod said;

// What an argument is: a name, the `--` behind which all are names, a wish for help, or an option that there is none of.
#[derive(Clone, Copy)]
pub enum Argument {
    Name,
    Plain,
    Wish,
    Dashed,
}

// Whether the arguments are as the command's usage says, or help is wished for, or what is wrong. No Result: theorems speak of an order's `usage` by these cases (`fault-decides`, `right-counted`), and two of them are no fault.
#[derive(Clone, Copy)]
pub enum Usage {
    Right,
    Wished,
    NoCommand,
    NoOption,
    TooFew,
    TooMany,
    NoNumber,
    InputTwice,
}

// The names so far: how many, and which arguments the first two are, 0 where there is none.
#[derive(Clone, Copy)]
pub struct Names {
    pub count: usize,
    pub first: usize,
    pub second: usize,
}

// What is ordered so far: the command, its names, how many of them are standard input, the number behind them, 0 where there is none, and whether `--` was passed; `at` is the argument at fault.
// Each of these stands by its name and its 0 in the laws of an order (`names-placed`, `number-placed`, `fault-decides`), so none is an Option.
#[derive(Clone, Copy)]
pub struct Order {
    pub command: Command,
    pub names: Names,
    pub inputs: usize,
    pub number: u64,
    pub plain: bool,
    pub usage: Usage,
    pub at: usize,
}
