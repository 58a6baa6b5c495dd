// The fields of a word: an item, a start, what has become of an event.
ghost use Rattle.std.specs.Prelude.{◌≡◌, ◌≤◌, ◌<◌, length};
ghost use Rattle.fates.specs.Fields.{delay_numbers, start_numbers, item_in, item_word, FitsWord};
ghost use Rattle.fates.specs.Places.{PlacesFit, reading_in};
ghost use Rattle.fates.specs.Fates.{next_of};

use crate::PlacedWords;
use page::Item;
use rules::Taken;
use units::Grains;

// Event numbers are 0 to 256.
const EVENT_NUMBERS: u64 = 257;

// A delay, 0 to 5,040,000, has 23 bits.
const DELAY_NUMBERS: u64 = 8388608;

// E(k), at most 255 durations of 5,040,000, has 31 bits.
const START_NUMBERS: u64 = 2147483648;

// An item's delay.
pub fn delay_in(w: u64) -> Grains
    ensures { (result ≡ (item_in w).delay) × (result.0 < delay_numbers) }
{
    Grains(w / 256 % DELAY_NUMBERS)
}

// The item that a word stands for.
pub fn item_in(w: u64) -> Item
    ensures { (result ≡ item_in w) × FitsWord result }
{
    Item {
        kind: (w % 2) as usize,
        synchrony: (w / 2 % 2) as usize,
        error: (w / 4 % 4) as usize,
        part: (w / 16 % 16) as usize,
        delay: delay_in(w),
        event: (w / 2147483648 % 512 % EVENT_NUMBERS) as usize,
        last: (w / 1099511627776 % 2048) as usize,
    }
}

// The word that stands for an item.
pub fn item_word(i: Item) -> u64
    requires { FitsWord i }
    ensures { result ≡ item_word i }
{
    let low = (i.kind + 2 * i.synchrony + 4 * i.error + 16 * i.part) as u64;
    low + 256 * i.delay.0 + 2147483648 * (i.event as u64) + 1099511627776 * (i.last as u64)
}

// E(k).
pub fn start_of(r: PlacedWords<'_>, k: usize) -> Grains
    requires { (k ≤ 256) }
    ensures { (result.0 ≡ (reading_in r.entry.places r.entry.words.now).start k) × (result.0 < start_numbers) }
{
    let at = r.places.starts + k;
    Grains(r.words[at] % START_NUMBERS)
}

// What has become of event k.
pub fn taken_of(r: PlacedWords<'_>, k: usize) -> Taken
    requires { (k ≤ 256) }
    ensures { (result ≡ (reading_in r.entry.places r.entry.words.now).became k) × (next_of result ≤ 256) }
{
    let at = r.places.taken + k;
    let next = (r.words[at] % EVENT_NUMBERS) as usize;
    if next == 0 {
        return Taken::Unsettled;
    }
    if next == k {
        return Taken::Heard;
    }
    Taken::Missed(next)
}
