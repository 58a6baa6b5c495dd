// The rules of performance for one item, carried out over lent words, wherever they stand: how it runs by what holds it, and the word for its outcome.
#![tactic(auto)]

ghost use Rattle.std.specs.Prelude.{length};
ghost use Rattle.fates.specs.Places.{PlacesFit};

use units::Grains;

pub mod words; // words.rt: the fields of a word
mod dates; // dates.rt: what is left of a date, and "the last event k with E(k) <= t"
pub mod running; // running.rt: how an item runs, by what holds it
pub mod outcomes; // outcomes.rt: the outcome of an action

// Where the words that are read and written begin among those lent: `starts` and `taken` by event, `items` and `outcomes` by page place. How many events there
// are, and how many items; and the grace.
#[derive(Clone, Copy)]
pub struct Places {
    pub starts: usize,
    pub taken: usize,
    pub items: usize,
    pub outcomes: usize,
    pub events: usize,
    pub size: usize,
    pub grace: Grains,
}

// Lent words that are read, and places that lie within them.
#[derive(Clone, Copy)]
pub struct PlacedWords<'a> {
    pub words: &'a [u64],
    pub places: Places,
    ghost fit: { PlacesFit places (length words.now) },
}
