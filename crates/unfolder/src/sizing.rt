// "Sizes are found before anything is made": what breaks a limit goes no further.
ghost use Rattle.std.specs.Prelude.{◌≡◌, ◌≤◌, length};
ghost use Rattle.contents.specs.Limits.{longest_score};
ghost use Rattle.base.specs.Checks.{fine};
ghost use Rattle.extended.specs.Right.{extended_right};
ghost use Rattle.unfolder.specs.Inner.{few, Sizable, Answers};

use crate::numbering::number;
use contents::limits::{MOST_EVENTS, MOST_ITEMS, MOST_MESSAGES, MOST_TEXT};
use extended::{Extent, extent_of};
use shapes::find_sizes;
use tables::fill_table;
use unfolding::UnfoldError;

// A row of four words for each of 2,048 items.
const TABLE_ROOM: usize = 8192;

// What the counts alone tell: an unfolded score has as many events, and no fewer of anything else.
fn few_enough(c: Extent) -> bool
    ensures { result ≡ few c }
{
    if c.events < 1 {
        return false;
    }
    if MOST_EVENTS < c.events {
        return false;
    }
    if MOST_ITEMS < c.items {
        return false;
    }
    if MOST_MESSAGES < c.messages {
        return false;
    }
    c.text <= MOST_TEXT
}

// A score whose items were found right, with few enough of everything on its page.
fn size_page(
    extended: &[u8],
    c: Extent,
    table: &mut [u32],
    room: &mut [u8],
) -> Result<usize, UnfoldError>
    requires { Sizable extended.now c table.old × (longest_score ≤ length room.old) }
    ensures { Answers extended.now room.old room.new result }
{
    let Some(_) = fill_table(extended, c, table) else {
        return Err(UnfoldError::OverLimit);
    };
    let Some(sizes) = find_sizes(table, c.items) else {
        return Err(UnfoldError::OverLimit);
    };
    number(extended, c, table, sizes.items, room)
}

pub fn measure(extended: &[u8], room: &mut [u8]) -> Result<usize, UnfoldError>
    requires { (extended_right extended.now ≡ fine) × (longest_score ≤ length room.old) }
    ensures { Answers extended.now room.old room.new result }
{
    let c = extent_of(extended);
    if !few_enough(c) {
        return Err(UnfoldError::OverLimit);
    }
    let mut table = [0; TABLE_ROOM];
    size_page(extended, c, &mut table, room)
}
