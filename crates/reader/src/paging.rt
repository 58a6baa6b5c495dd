// The page: the durations of the events, and the items. While a group is open its last field says where the group around it stands, 0 where there is none, else one
// more than its place: so no room is needed for the open ones.
ghost use Rattle.std.specs.Prelude.{◌≡◌, [], ◌∷◌, ◌+◌, ◌*◌, ◌≤◌, ◌<◌};
ghost use Rattle.ascii.specs.Laying.{Laid};
ghost use Rattle.contents.specs.Limits.{item_size, most_items};
ghost use Rattle.score.specs.Encode.{item_bytes};
ghost use Rattle.text.specs.Said.{event_of};
ghost use Rattle.reader.specs.Items.{send_item, group_item};
ghost use Rattle.reader.specs.Filled.{Tellable, Begun, RowRoom, Paged};
ghost use Rattle.filing.specs.Bodies.{PageRoom};

use crate::turns::next_line;
use contents::limits::{EVENT_SIZE, ITEM_SIZE};
use filing::{put_item, put32, set_last};
use page::Item;
use script::Found;
use text::Stage;
use units::Grains;

// "A top item names its event. An item within a group has event 0".
fn event_of(inner: usize, events: usize) -> usize
    ensures { (result ≡ event_of inner events) × (result ≤ events) }
{
    if inner == 0 {
        return events;
    }
    0
}

// The n-th item, an action.
// The numbers of an item are parameters apart, here and for a group: a struct of them would be the `Item` that is made here.
fn put_send(
    items: &mut [u8],
    n: usize,
    inner: usize,
    events: usize,
    part: usize,
    delay: u64,
    number: usize,
) -> usize
    requires { RowRoom items.old n events part delay × (number < 65536) }
    ensures { Laid items.old (item_size * n) (item_bytes (send_item part (event_of inner events) delay number ∷ [])) items.new result × (result ≡ item_size * n + item_size) }
{
    let event = event_of(inner, events);
    let i = Item {
        kind: 0,
        synchrony: 0,
        error: 0,
        part,
        delay: Grains(delay),
        event,
        last: number,
    };
    put_item(items, ITEM_SIZE * n, i)
}

// The n-th item, a group that is open.
// Its words are numbers, as page's `Item` holds them.
fn put_group(
    items: &mut [u8],
    n: usize,
    inner: usize,
    events: usize,
    part: usize,
    delay: u64,
    synchrony: usize,
    error: usize,
) -> usize
    requires { RowRoom items.old n events part delay × (synchrony ≤ 1) × (error ≤ 3) × (inner ≤ most_items) }
    ensures { Laid items.old (item_size * n) (item_bytes (group_item part (event_of inner events) delay synchrony error inner ∷ [])) items.new result × (result ≡ item_size * n + item_size) }
{
    let event = event_of(inner, events);
    let i = Item {
        kind: 1,
        synchrony,
        error,
        part,
        delay: Grains(delay),
        event,
        last: inner,
    };
    put_item(items, ITEM_SIZE * n, i)
}

// The durations and the items, from behind the list of so many messages on.
pub fn fill_page(text: &[u8], start: usize, messages: usize, durations: &mut [u8], items: &mut [u8])
    requires { Tellable text.now × Begun text.now start messages × PageRoom durations.old items.old }
    ensures { Paged text.now durations.new items.new }
{
    let mut at = start;
    let mut stage = Stage::Listing { next: messages };
    let mut events = 0;
    let mut part = 0;
    let mut n = 0;
    let mut inner = 0;
    // A `while let`: where the next line begins is what the line before answers. A `match`, and no closure: each arm steps counts of its own.
    while let Some(s) = next_line(text, at, stage) {
        at = s.next;
        stage = s.stage;
        match s.found {
            Found::Heading => {}
            Found::Message { start: _, size: _ } => {}
            Found::Event { grains } => {
                put32(durations, EVENT_SIZE * events, grains as usize);
                events += 1;
            }
            Found::Part { number } => {
                part = number as usize;
            }
            Found::Send { delay, number } => {
                put_send(items, n, inner, events, part, delay, number as usize);
                n += 1;
            }
            Found::Group {
                delay,
                synchrony,
                error,
            } => {
                put_group(
                    items,
                    n,
                    inner,
                    events,
                    part,
                    delay,
                    synchrony as usize,
                    error as usize,
                );
                n += 1;
                inner = n;
            }
            Found::Close => {
                inner = set_last(items, inner - 1, n - inner);
            }
        }
    }
}
