// The arguments, read from front to back.
ghost use Rattle.std.specs.Prelude.{◌≡◌, [], ◌<◌};
ghost use Rattle.ascii.specs.Words.{same};
ghost use Rattle.menu.specs.Table.{row_of, any_number};
ghost use Rattle.orders.specs.Usage.{argument_of, is_name, name_more, fresh, stopped, is_right, begun_named, begun, named, numbered, is_input, file_taken, number_taken, name_taken, taken_plain, taken_as, taken, closed, dash, ordered};

use crate::{Argument, Names, Order, Usage};
use ascii::{begins, read_number, same};
use menu::{Command, entry_of, find_command};

// What the argument is. Behind `--` each is a name.
fn argument_of(plain: bool, arg: &[u8]) -> Argument
    ensures { result ≡ argument_of plain arg.now }
{
    if plain {
        return Argument::Name;
    }
    if same(b"--", arg) {
        return Argument::Plain;
    }
    if same(b"-h", arg) || same(b"--help", arg) {
        return Argument::Wish;
    }
    if same(b"-", arg) {
        return Argument::Name;
    }
    if begins(b"-", arg) {
        return Argument::Dashed;
    }
    Argument::Name
}

// Whether it is a name, behind what was ordered so far.
pub fn is_name(o: Order, arg: &[u8]) -> bool
    ensures { result ≡ is_name (argument_of o.plain arg.now) }
{
    matches!(argument_of(o.plain, arg), Argument::Name)
}

// One name more, which is argument i.
fn name_more(n: Names, i: usize) -> Names
    requires { n.count < any_number }
    ensures { result ≡ name_more n i }
{
    let count = n.count + 1;
    match n.count {
        0 => Names {
            count,
            first: i,
            ..n
        },
        1 => Names {
            count,
            second: i,
            ..n
        },
        _ => Names { count, ..n },
    }
}

// An order with no names.
#[tactic(auto, unfolding(crate::specs::Usage::fresh, crate::specs::Usage::no_names))]
fn fresh(c: Command, u: Usage, at: usize) -> Order
    ensures { result ≡ fresh c u at }
{
    Order {
        command: c,
        names: Names {
            count: 0,
            first: 0,
            second: 0,
        },
        inputs: 0,
        number: 0,
        plain: false,
        usage: u,
        at,
    }
}

// The order, with what was found at an argument.
#[tactic(auto, unfolding(crate::specs::Usage::stopped))]
fn stopped(o: Order, u: Usage, at: usize) -> Order
    ensures { result ≡ stopped o u at }
{
    Order { usage: u, at, ..o }
}

// Whether nothing was found.
fn is_right(u: Usage) -> bool
    ensures { result ≡ is_right u }
{
    matches!(u, Usage::Right)
}

// What the first argument orders, where it is no wish.
#[tactic(auto, unfolding(crate::specs::Usage::begun_named))]
fn begin_named(found: Option<Command>) -> Order
    ensures { result ≡ begun_named found }
{
    match found {
        Some(c) => fresh(c, Usage::Right, 0),
        None => fresh(Command::Help, Usage::NoCommand, 1),
    }
}

// What no argument at all orders.
#[tactic(auto, unfolding(crate::specs::Usage::ordered))]
pub fn nothing() -> Order
    ensures { result ≡ ordered [] }
{
    fresh(Command::Help, Usage::Wished, 0)
}

// What the first argument orders.
pub fn begin(arg: &[u8]) -> Order
    ensures { result ≡ begun arg.now }
{
    match argument_of(false, arg) {
        Argument::Wish => fresh(Command::Help, Usage::Wished, 0),
        Argument::Name | Argument::Plain | Argument::Dashed => begin_named(find_command(arg)),
    }
}

// That there may be one name more is a clause, here and in what comes to this: it is so of an order that is not yet full, and the order that is handed back may be.
// The order with a name more, where so many of the names are standard input.
fn named(o: Order, i: usize, inputs: usize) -> Order
    requires { o.names.count < any_number }
    ensures { result ≡ named o i inputs }
{
    Order {
        names: name_more(o.names, i),
        inputs,
        ..o
    }
}

// The order with a number more.
fn numbered(o: Order, i: usize, number: u64) -> Order
    requires { o.names.count < any_number }
    ensures { result ≡ numbered o i number }
{
    Order {
        names: name_more(o.names, i),
        number,
        ..o
    }
}

// Whether the next name is standard input's.
fn is_input(o: Order, arg: &[u8]) -> bool
    ensures { result ≡ is_input o arg.now }
{
    same(b"-", arg) && o.names.count < entry_of(o.command).reads
}

// The name of a file: standard input a second time is a fault.
fn take_file(o: Order, i: usize, arg: &[u8]) -> Order
    requires { o.names.count < any_number }
    ensures { result ≡ file_taken o i arg.now }
{
    if is_input(o, arg) {
        if 1 <= o.inputs {
            return stopped(o, Usage::InputTwice, i);
        }
        return named(o, i, o.inputs + 1);
    }
    named(o, i, o.inputs)
}

// A number: anything else is a fault.
fn take_number(o: Order, i: usize, arg: &[u8]) -> Order
    requires { o.names.count < any_number }
    ensures { result ≡ number_taken o i arg.now }
{
    let Some(n) = read_number(arg) else {
        return stopped(o, Usage::NoNumber, i);
    };
    numbered(o, i, n)
}

// A name: a file's, or a number behind these. One more than the command takes is a fault.
fn take_name(o: Order, i: usize, arg: &[u8]) -> Order
    ensures { result ≡ name_taken o i arg.now }
{
    let row = entry_of(o.command);
    if row.most <= o.names.count {
        return stopped(o, Usage::TooMany, i);
    }
    if row.files <= o.names.count {
        return take_number(o, i, arg);
    }
    take_file(o, i, arg)
}

// The order, where each argument from here on is a name.
#[tactic(auto, unfolding(crate::specs::Usage::taken_plain))]
fn take_plain(o: Order) -> Order
    ensures { result ≡ taken_plain o }
{
    Order { plain: true, ..o }
}

// One argument more, by what it is: `taken_as`, case by case. The order so far, the argument's place and its bytes go together from here on, and stay three: theorems speak of each, and the order alone is what is handed back.
#[tactic(auto, unfolding(crate::specs::Usage::taken_as))]
fn take_as(o: Order, i: usize, a: Argument, arg: &[u8]) -> Order
    ensures { result ≡ taken_as o i a arg.now }
{
    match a {
        Argument::Name => take_name(o, i, arg),
        Argument::Plain => take_plain(o),
        Argument::Wish => stopped(o, Usage::Wished, 0),
        Argument::Dashed => stopped(o, Usage::NoOption, i),
    }
}

// One argument more, at place i. The first fault decides.
pub fn take(o: Order, i: usize, arg: &[u8]) -> Order
    ensures { result ≡ taken o i arg.now }
{
    if is_right(o.usage) {
        return take_as(o, i, argument_of(o.plain, arg), arg);
    }
    o
}

// No argument more.
pub fn close(o: Order) -> Order
    ensures { result ≡ closed o }
{
    if !is_right(o.usage) {
        return o;
    }
    if o.names.count < entry_of(o.command).least {
        return stopped(o, Usage::TooFew, 1);
    }
    o
}

// Whether a name is standard input's or, of a file that is written, standard output's.
pub fn is_standard(name: &[u8]) -> bool
    ensures { result ≡ same dash name.now }
{
    same(b"-", name)
}
