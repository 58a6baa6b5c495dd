// The items of a sequence, one after the other, and of the groups within it: heard and missed groups call on each other. The bodies go through their items by a
// `while`, since `item` answers how far the next one is. Memory, places and a run's bounds go side by side: memory is lent for writing, and Rattle keeps no ghost
// fact in a struct beside a `&mut`.
ghost use Rattle.std.specs.Prelude.{◌≡◌, true, ◌+◌, ◌<◌, min};
ghost use Rattle.rules.specs.Rules.{heard_group, missed_group, enter};
ghost use Rattle.fates.specs.Fates.{FateBounded};
ghost use Rattle.evaluators.specs.Inner.{latest_at, item_word_at, Lent, Dated, owed, Stepped, still};

use fates::{PlacedWords, Places, outcomes, running, words};
use rules::{ErrorWord, Fate, Synchrony};
use units::Grains;

// One item whose fate is known, with all within it: how many items that is.
#[cycle(heard_body_item_missed_body_still_body_within)]
pub fn item(
    mem: &mut [u64],
    t: Places,
    levels: usize,
    at: usize,
    count: usize,
    w: u64,
    f: Fate,
) -> usize
    requires { Lent t mem.old at count × (0 < count) × (w ≡ item_word_at t mem.old at) × FateBounded f (latest_at (at + 1)) }
    ensures { Stepped t f mem.old levels at count result mem.new }
{
    let x = words::item_in(w);
    if x.kind == 0 {
        outcomes::leave(mem, t, at, f);
        return 1;
    }
    let n = x.last.min(count - 1);
    let size = n + 1;
    if levels == 0 {
        return size;
    }
    let y = Synchrony::from(x.synchrony);
    let e = ErrorWord::from(x.error);
    within(mem, t, levels - 1, at + 1, n, y, e, f);
    size
}

// A group's body, by the group's fate: each of the two readings calls on the other through this.
#[cycle(heard_body_item_missed_body_still_body_within)]
fn within(
    mem: &mut [u64],
    t: Places,
    levels: usize,
    at: usize,
    count: usize,
    y: Synchrony,
    e: ErrorWord,
    f: Fate,
)
    requires { Lent t mem.old at count × FateBounded f (latest_at at) }
    ensures { mem.new ≡ owed t (enter f y e) 0 mem.old levels at count }
{
    match f {
        Fate::HeardAt(i, start) => heard_body(mem, t, levels, at, count, y, e, i, start),
        Fate::MissedBy(j, start) => missed_body(mem, t, levels, at, count, y, e, j, start),
        Fate::GroupsOnly(j, start) => missed_body(mem, t, levels, at, count, y, e, j, start),
        Fate::Nothing => still_body(mem, t, levels, at, count, f),
        Fate::NotYet => still_body(mem, t, levels, at, count, f),
    }
}

// The items of a group that is heard at event i and starts at `start`.
#[cycle(heard_body_item_missed_body_still_body_within)]
pub fn heard_body(
    mem: &mut [u64],
    t: Places,
    levels: usize,
    at: usize,
    count: usize,
    y: Synchrony,
    e: ErrorWord,
    i: usize,
    start: Grains,
)
    requires { Lent t mem.old at count × Dated i start.0 at }
    ensures { mem.new ≡ owed t (heard_group y e i start.0) 0 mem.old levels at count }
{
    let mut place = at;
    let mut left = count;
    let mut date = start;
    while 0 < left {
        let from = t.items + place;
        let w = mem[from];
        date = Grains(date.0 + words::delay_in(w).0);
        let r = PlacedWords {
            words: &*mem,
            places: t,
        };
        let f = running::heard_fate(r, y, e, i, date);
        let n = item(mem, t, levels, place, left, w, f);
        place += n;
        left -= n;
    }
}

// The items of a group that was missed and was to start at `start`: j is the first event heard after.
#[cycle(heard_body_item_missed_body_still_body_within)]
pub fn missed_body(
    mem: &mut [u64],
    t: Places,
    levels: usize,
    at: usize,
    count: usize,
    y: Synchrony,
    e: ErrorWord,
    j: usize,
    start: Grains,
)
    requires { Lent t mem.old at count × Dated j start.0 at }
    ensures { mem.new ≡ owed t (missed_group y e j start.0) 0 mem.old levels at count }
{
    let mut place = at;
    let mut left = count;
    let mut after = Grains(0);
    while 0 < left {
        let from = t.items + place;
        let w = mem[from];
        after = Grains(after.0 + words::delay_in(w).0);
        let r = PlacedWords {
            words: &*mem,
            places: t,
        };
        let f = running::missed_fate(r, y, e, j, start, after);
        let n = item(mem, t, levels, place, left, w, f);
        place += n;
        left -= n;
    }
}

// The items of a group that yields nothing, ever or yet.
#[cycle(heard_body_item_missed_body_still_body_within)]
pub fn still_body(mem: &mut [u64], t: Places, levels: usize, at: usize, count: usize, f: Fate)
    requires { Lent t mem.old at count × (still f ≡ true) }
    ensures { mem.new ≡ owed t (enter f Synchrony.Loose ErrorWord.Local) 0 mem.old levels at count }
{
    let mut place = at;
    let mut left = count;
    while 0 < left {
        let from = t.items + place;
        let w = mem[from];
        let n = item(mem, t, levels, place, left, w, f);
        place += n;
        left -= n;
    }
}
