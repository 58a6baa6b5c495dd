// How an item runs that starts at an ideal date, by what holds it.
ghost use Rattle.std.specs.Prelude.{◌≡◌, ◌+◌, ◌^◌, ◌≤◌, ◌<◌, length};
ghost use Rattle.rules.specs.Rules.{loosely, missed_fate, sliced_fate, heard_fate};
ghost use Rattle.rules.specs.Rules;
ghost use Rattle.fates.specs.Places.{PlacesFit, reading_in};
ghost use Rattle.fates.specs.Fates.{FateBounded};

use crate::{PlacedWords, dates, words};
use rules::{ErrorWord, Fate, Synchrony, Taken};
use units::Grains;

// "An item is past exactly if its date plus g is before E(j)"
fn past(r: PlacedWords<'_>, j: usize, date: Grains) -> bool
    requires { (j ≤ 256) × (date.0 < 2 ^ 51) }
    ensures { result ≡ Rules.past (reading_in r.entry.places r.entry.words.now) j date.0 }
{
    let g = r.places.grace;
    date.0 + g.0 < words::start_of(r, j).0
}

// The date that a future item has where it is heard at j: "its delay is never below 0".
fn future_date(r: PlacedWords<'_>, j: usize, own: Grains) -> Grains
    requires { (j ≤ 256) }
    ensures { (result.0 ≡ Rules.future_date (reading_in r.entry.places r.entry.words.now) j own.0) × (result.0 ≤ own.0 + 2 ^ 31) }
{
    let start = words::start_of(r, j);
    Grains(own.0.max(start.0))
}

// Where a missed global group starts that is heard at j: the later of its own date and E(j), as a future item does.
fn global_start(r: PlacedWords<'_>, j: usize, own: Grains) -> Grains
    requires { (j ≤ 256) }
    ensures { (result.0 ≡ Rules.global_start (reading_in r.entry.places r.entry.words.now) j own.0) × (result.0 ≤ own.0 + 2 ^ 31) }
{
    future_date(r, j, own)
}

// An item of a loose group that was missed and was to start at `own`, `after` later: j is the first event heard after. The four error words.
fn missed_loosely(r: PlacedWords<'_>, e: ErrorWord, j: usize, own: Grains, after: Grains) -> Fate
    requires { (j ≤ 256) × (own.0 < 2 ^ 50) × (after.0 < 2 ^ 50) }
    ensures { (result ≡ missed_fate (reading_in r.entry.places r.entry.words.now) e j own.0 after.0 (loosely j)) × FateBounded result (own.0 + after.0 + 2 ^ 31) }
{
    let date = Grains(own.0 + after.0);
    match e {
        ErrorWord::Local => Fate::Nothing,
        ErrorWord::Global => {
            let start = global_start(r, j, own);
            Fate::HeardAt(j, Grains(start.0 + after.0))
        }
        ErrorWord::Partial => {
            if past(r, j, date) {
                return Fate::GroupsOnly(j, date);
            }
            Fate::HeardAt(j, future_date(r, j, date))
        }
        ErrorWord::Causal => {
            if past(r, j, date) {
                return Fate::MissedBy(j, date);
            }
            Fate::HeardAt(j, future_date(r, j, date))
        }
    }
}

// An item of a tight group's slice at event k.
fn sliced_fate(r: PlacedWords<'_>, e: ErrorWord, k: usize, date: Grains) -> Fate
    requires { (k ≤ 256) × (date.0 < 2 ^ 50) }
    ensures { (result ≡ sliced_fate (reading_in r.entry.places r.entry.words.now) e k date.0 ((reading_in r.entry.places r.entry.words.now).became k)) × FateBounded result (date.0 + 2 ^ 32) }
{
    let taken = words::taken_of(r, k);
    match taken {
        Taken::Heard => Fate::HeardAt(k, date),
        Taken::Missed(j) => {
            let own = words::start_of(r, k);
            missed_loosely(r, e, j, own, dates::since(date, own))
        }
        Taken::Unsettled => Fate::NotYet,
    }
}

// An item of a group that is heard at i.
pub fn heard_fate(r: PlacedWords<'_>, y: Synchrony, e: ErrorWord, i: usize, date: Grains) -> Fate
    requires { (i ≤ 256) × (date.0 < 2 ^ 50) }
    ensures { (result ≡ heard_fate (reading_in r.entry.places r.entry.words.now) y e i date.0) × FateBounded result (date.0 + 2 ^ 32) }
{
    match y {
        Synchrony::Loose => Fate::HeardAt(i, date),
        Synchrony::Tight => {
            let k = dates::last_by(r, date);
            sliced_fate(r, e, k, date)
        }
    }
}

// An item of a group that was missed and was to start at `own`, `after` later. Where the group is heard at j, it is sliced from there.
pub fn missed_fate(
    r: PlacedWords<'_>,
    y: Synchrony,
    e: ErrorWord,
    j: usize,
    own: Grains,
    after: Grains,
) -> Fate
    requires { (j ≤ 256) × (own.0 < 2 ^ 45) × (after.0 < 2 ^ 45) }
    ensures { (result ≡ missed_fate (reading_in r.entry.places r.entry.words.now) e j own.0 after.0 (heard_fate (reading_in r.entry.places r.entry.words.now) y e j)) × FateBounded result (own.0 + after.0 + 2 ^ 31 + 2 ^ 32) }
{
    let f = missed_loosely(r, e, j, own, after);
    match f {
        Fate::HeardAt(_, date) => heard_fate(r, y, e, j, date),
        Fate::MissedBy(_, _) => f,
        Fate::GroupsOnly(_, _) => f,
        Fate::Nothing => f,
        Fate::NotYet => f,
    }
}
