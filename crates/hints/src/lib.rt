// Hints for people: what a common mistake in a text looks like, and what is told of it.
#![tactic(auto)]

pub use choices::{fault_hint, hint_at};
pub use table::put_hint;

mod choices;
mod fractions;
mod marks;
mod table;
mod words;

// A row of the table of hints; a refusal has one or none.
#[derive(Clone, Copy)]
pub enum Hint {
    ByteOrderMark,
    Capitals,
    NoList,
    WordOrder,
    InnerPart,
    InnerEvent,
    Decimal,
    Mixed,
    Uneven,
    PastList,
}
