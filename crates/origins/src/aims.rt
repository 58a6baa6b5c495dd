// What is looked for in the text, by the entry that the byte lies in.
ghost use Rattle.std.specs.Prelude.{◌≡◌, ◌-◌, get_or};
ghost use Rattle.origins.specs.declared.aims.Table.TheVariants.{Events};
ghost use Rattle.origins.specs.declared.aims.Aim.TheVariants.{Past, Nothing};
ghost use Rattle.origins.specs.Origins.{count_of};
ghost use Rattle.origins.specs.Aims.{event_aim, field_aims, aim_at, share_of, hits_in, aim_behind};

use contents::limits::{MOST_EVENTS, MOST_ITEMS, MOST_MESSAGES, MOST_TEXT};
use contents::{Counts, Entry};

// What the table of contents counts.
#[derive(Clone, Copy)]
pub enum Table {
    Events,
    Items,
    Messages,
    Text,
}

// What is looked for, of which nothing is a case like the others: each function here has an answer for it. It is nothing, the text's end, the end of the message list, or the first line with which there are more than n of a kind.
#[derive(Clone, Copy)]
pub enum Aim {
    Nothing,
    TextEnd,
    ListEnd,
    Past { table: Table, n: usize },
}

// A `match` for each definition of Aims, here and below: its arms are the definition's, and an aim that is added has to be given its answer in each.
fn count_of(table: Table, c: Counts) -> usize
    ensures { result ≡ count_of table c }
{
    match table {
        Table::Events => c.events,
        Table::Items => c.items,
        Table::Messages => c.messages,
        Table::Text => c.text,
    }
}

// A function beside the variant: the tables below stay one row a line with it.
fn past(table: Table, n: usize) -> Aim
    ensures { result ≡ Past table n }
{
    Aim::Past { table, n }
}

// "for a count the first one past its limit": where there is no event, one is missing at the text's end.
fn event_aim(events: usize) -> Aim
    ensures { result ≡ event_aim events }
{
    if events == 0 {
        return Aim::TextEnd;
    }
    past(Table::Events, MOST_EVENTS)
}

// A field of the contents.
fn field_aim(c: Counts, k: usize) -> Aim
    ensures { result ≡ get_or (field_aims c) k Nothing }
{
    match k {
        1 => event_aim(c.events),
        3 => past(Table::Items, MOST_ITEMS),
        5 => past(Table::Messages, MOST_MESSAGES),
        6 => Aim::ListEnd,
        7 => past(Table::Text, MOST_TEXT),
        _ => Aim::Nothing,
    }
}

// "Events are numbered from 1".
fn numbered(n: usize) -> Aim
    ensures { result ≡ Past Events (n - 1) }
{
    if n < 1 {
        return past(Table::Events, 0);
    }
    past(Table::Events, n - 1)
}

// An entry of a file that has so much of each kind.
pub fn aim_at(c: Counts, e: Entry) -> Aim
    ensures { result ≡ aim_at c e }
{
    match e {
        Entry::Nowhere => Aim::Nothing,
        Entry::Contents(k) => field_aim(c, k),
        Entry::Event(n) => numbered(n),
        Entry::Item(n) => past(Table::Items, n),
        Entry::Message(n) => past(Table::Messages, n),
    }
}

// How much of what is looked for a line has that adds this to the counts.
pub fn share_of(aim: Aim, c: Counts) -> usize
    ensures { result ≡ share_of aim c }
{
    match aim {
        Aim::Nothing => 0,
        Aim::TextEnd => 0,
        Aim::ListEnd => 0,
        Aim::Past { table, .. } => count_of(table, c),
    }
}

// Whether a line with so much of it is the one that is looked for.
pub fn hits(aim: Aim, share: usize) -> bool
    ensures { result ≡ hits_in aim share }
{
    match aim {
        Aim::Nothing => false,
        Aim::TextEnd => false,
        Aim::ListEnd => false,
        Aim::Past { n, .. } => n < share,
    }
}

// What is looked for behind such a line.
pub fn aim_behind(aim: Aim, share: usize) -> Aim
    ensures { result ≡ aim_behind aim share }
{
    match aim {
        Aim::Nothing => aim,
        Aim::TextEnd => aim,
        Aim::ListEnd => aim,
        Aim::Past { table, n } => {
            if n < share {
                return past(table, 0);
            }
            past(table, n - share)
        }
    }
}
