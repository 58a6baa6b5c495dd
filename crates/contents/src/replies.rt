// The reply table: the number and the place of every fault.
ghost use Rattle.std.specs.Prelude.{◌≡◌};
ghost use Rattle.contents.specs.Replies.{rule_row, fault_row, reply_of};

use crate::{Fault, ItemRule, Reply, RuleRow};

fn row(number: usize, place: usize) -> Reply
    ensures { result ≡ record { number = number; place = place } }
{
    Reply { number, place }
}

fn numbered(number: usize, offset: usize) -> RuleRow
    ensures { result ≡ record { number = number; offset = offset } }
{
    RuleRow { number, offset }
}

// An item's rule: its number, and where its field stands in the item.
pub fn rule_row(r: ItemRule) -> RuleRow
    ensures { result ≡ rule_row r }
{
    match r {
        ItemRule::Kind => numbered(20, 0),
        ItemRule::Synchrony => numbered(21, 1),
        ItemRule::ErrorWord => numbered(21, 2),
        ItemRule::Part => numbered(22, 3),
        ItemRule::Delay => numbered(23, 4),
        ItemRule::Event => numbered(24, 8),
        ItemRule::Nesting => numbered(25, 10),
        ItemRule::Message => numbered(26, 10),
        ItemRule::Actions => numbered(27, 0),
    }
}

fn fault_row(x: Fault) -> Reply
    ensures { result ≡ fault_row x }
{
    match x {
        Fault::FileShort => row(3, 0),
        Fault::BadCount(at) => row(4, at),
        Fault::BadOffset(at) => row(5, at),
        Fault::BadLength => row(5, 0),
        Fault::BadEvent(at) => row(6, at),
        Fault::BadItem(rule, at) => row(rule_row(rule).number, at),
        Fault::BadMessage(at) => row(8, at),
        Fault::TextLeft => row(8, 24),
        Fault::NoMessage => row(15, 0),
    }
}

// The reply table's number and place for what a check or a look-up found.
pub fn replied(v: Result<(), Fault>) -> Reply
    ensures { result ≡ reply_of v }
{
    match v {
        Ok(()) => Reply {
            number: 0,
            place: 0,
        },
        Err(x) => fault_row(x),
    }
}
