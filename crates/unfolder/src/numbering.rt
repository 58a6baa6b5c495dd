// The message list with the values of the curves, and the page with their numbers.
// The rooms have fixed sizes, so how much of each is filled stands beside it.
ghost use Rattle.std.specs.Prelude.{◌≤◌, length};
ghost use Rattle.contents.specs.Limits.{most_actions, longest_score};
ghost use Rattle.filing.specs.Bodies.{ListRoom};
ghost use Rattle.unfolder.specs.Inner.{Answers, Measured, Nameable, Listed};

use crate::finishing::finish;
use building::build_page;
use contents::Counts;
use extended::Extent;
use extended::layout::items_start;
use naming::name_values;
use tables::fill_values;
use unfolding::UnfoldError;

const VALUES_ROOM: usize = 1024;

const ITEMS_ROOM: usize = 24576;

const ENTRIES_ROOM: usize = 2048;

const LABELS_ROOM: usize = 24576;

// The items laid out, then the file.
fn lay(
    extended: &[u8],
    c: Extent,
    table: &[u32],
    numbers: &[u16],
    k: Counts,
    entries: &[u8],
    labels: &[u8],
    room: &mut [u8],
) -> Result<usize, UnfoldError>
    requires { Listed extended.now c table.now numbers.now k entries.now labels.now × (longest_score ≤ length room.old) }
    ensures { Answers extended.now room.old room.new result }
{
    let mut items = [0; ITEMS_ROOM];
    build_page(
        extended,
        items_start(c),
        table,
        numbers,
        c.items,
        &mut items,
    );
    finish(extended, k, &items, entries, labels, room)
}

// The values find their messages, or join the list, in these rooms.
fn list(
    extended: &[u8],
    c: Extent,
    table: &[u32],
    items: usize,
    values: &[u64],
    count: usize,
    entries: &mut [u8],
    labels: &mut [u8],
    numbers: &mut [u16],
    room: &mut [u8],
) -> Result<usize, UnfoldError>
    requires { Nameable extended.now c table.now items values.now count × ListRoom entries.old labels.old × (most_actions ≤ length numbers.old) × (longest_score ≤ length room.old) }
    ensures { Answers extended.now room.old room.new result }
{
    let Some(named) = name_values(extended, c, values, count, entries, labels, numbers) else {
        return Err(UnfoldError::OverLimit);
    };
    let k = Counts {
        events: c.events,
        items,
        messages: named.messages,
        text: named.text,
    };
    lay(extended, c, table, numbers, k, entries, labels, room)
}

fn name(
    extended: &[u8],
    c: Extent,
    table: &[u32],
    items: usize,
    values: &[u64],
    count: usize,
    room: &mut [u8],
) -> Result<usize, UnfoldError>
    requires { Nameable extended.now c table.now items values.now count × (longest_score ≤ length room.old) }
    ensures { Answers extended.now room.old room.new result }
{
    let mut entries = [0; ENTRIES_ROOM];
    let mut labels = [0; LABELS_ROOM];
    let mut numbers = [0; VALUES_ROOM];
    list(
        extended,
        c,
        table,
        items,
        values,
        count,
        &mut entries,
        &mut labels,
        &mut numbers,
        room,
    )
}

// A score whose items, actions and depth are within the limits: so many items.
pub fn number(
    extended: &[u8],
    c: Extent,
    table: &[u32],
    items: usize,
    room: &mut [u8],
) -> Result<usize, UnfoldError>
    requires { Measured extended.now c table.now items × (longest_score ≤ length room.old) }
    ensures { Answers extended.now room.old room.new result }
{
    let mut values = [0; VALUES_ROOM];
    let count = fill_values(extended, c, &mut values);
    name(extended, c, table, items, &values, count, room)
}
