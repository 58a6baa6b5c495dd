// The sequences of the item table: "Each part has its own sequence at each event."
ghost use Rattle.std.specs.Prelude.{◌≡◌, ◌+◌, ◌≤◌, ◌<◌, length, drop};
ghost use Rattle.rules.specs.Rules.{missed_top};
ghost use Rattle.rules.specs.Page.{levels, goes_on, run_length};
ghost use Rattle.fates.specs.Fields.{item_in};
ghost use Rattle.fates.specs.Places.{PlacesFit, items_in};
ghost use Rattle.evaluators.specs.Inner.{Lent, Dated, owed, sequence_done, Advanced};

use crate::walk;
use fates::{PlacedWords, Places, words};
use rules::{ErrorWord, Fate, Synchrony, Taken};
use units::Grains;

// "depth 8": groups are entered so many times, one within the other.
const LEVELS: usize = 7;

// Whether the item of a word goes on with the sequence of a part at an event.
fn goes_on(w: u64, event: usize, part: usize) -> bool
    ensures { result ≡ goes_on event part (item_in w) }
{
    let x = words::item_in(w);
    if x.event == 0 {
        return true;
    }
    if x.event == event {
        return x.part == part;
    }
    false
}

// How many items from `at` on do, one after the other.
fn run_length(mem: &[u64], t: Places, at: usize, event: usize, part: usize) -> usize
    requires { PlacesFit t (length mem.now) × (at ≤ t.size) }
    ensures { (result ≡ run_length event part (drop at (items_in t mem.now))) × (at + result ≤ t.size) }
{
    let left = t.size - at;
    for n in 0..left {
        if !goes_on(mem[t.items + (at + n)], event, part) {
            return n;
        }
    }
    left
}

// The items of a part's sequence at an event that was missed, which is no group: j is the first event heard after.
fn missed_top(mem: &mut [u64], t: Places, at: usize, count: usize, j: usize, start: Grains)
    requires { Lent t mem.old at count × Dated j start.0 at }
    ensures { mem.new ≡ owed t (missed_top j start.0) 0 mem.old levels at count }
{
    let mut place = at;
    let mut left = count;
    let mut date = start;
    // How far the next item is, `walk::item` answers.
    while 0 < left {
        let from = t.items + place;
        let w = mem[from];
        date = Grains(date.0 + words::delay_in(w).0);
        let n = walk::item(mem, t, LEVELS, place, left, w, Fate::MissedBy(j, date));
        place += n;
        left -= n;
    }
}

// A part's sequence at event i: `count` items from `at` on.
fn sequence(mem: &mut [u64], t: Places, at: usize, count: usize, i: usize)
    requires { Lent t mem.old at count × (i ≤ 256) }
    ensures { mem.new ≡ sequence_done t mem.old levels at count i }
{
    let r = PlacedWords {
        words: &*mem,
        places: t,
    };
    let taken = words::taken_of(r, i);
    let start = words::start_of(r, i);
    match taken {
        Taken::Heard => walk::heard_body(
            mem,
            t,
            LEVELS,
            at,
            count,
            Synchrony::Loose,
            ErrorWord::Local,
            i,
            start,
        ),
        Taken::Missed(j) => missed_top(mem, t, at, count, j, start),
        Taken::Unsettled => walk::still_body(mem, t, LEVELS, at, count, Fate::NotYet),
    }
}

// The sequence that begins at a place: how many items it has.
pub fn perform_run(mem: &mut [u64], t: Places, at: usize) -> usize
    requires { PlacesFit t (length mem.old) × (at < t.size) }
    ensures { Advanced t mem.old at result mem.new }
{
    let from = t.items + at;
    let x = words::item_in(mem[from]);
    let n = 1 + run_length(mem, t, at + 1, x.event, x.part);
    sequence(mem, t, at, n, x.event);
    n
}
