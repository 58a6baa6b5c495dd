// What is left of a date after a start, and the last event at or before a date.
ghost use Rattle.std.specs.Prelude.{◌≡◌, ◌-◌, ◌≤◌, length};
ghost use Rattle.fates.specs.Places.{PlacesFit, reading_in};

use crate::{PlacedWords, words};
use units::Grains;

// What is left of a date after a start.
pub fn since(date: Grains, start: Grains) -> Grains
    ensures { result.0 ≡ date.0 - start.0 }
{
    Grains(date.0.saturating_sub(start.0))
}

// The last event at or before a date, by bisection: the events from `low` on, `size` of them, are those that are left. It halves by hand, since the definition
// `halved` says of any words, sorted or not, which event is found, and the library's search promises nothing of words that are not sorted.
pub fn last_by(r: PlacedWords<'_>, date: Grains) -> usize
    ensures { (result ≡ (reading_in r.entry.places r.entry.words.now).last_before date.0) × (result ≤ 256) }
{
    let mut low: usize = 1;
    let mut size = r.places.events;
    while 1 < size {
        let half = size / 2;
        let start = words::start_of(r, low + half);
        if start.0 <= date.0 {
            low += half;
            size -= half;
            continue;
        }
        size = half;
    }
    low
}
