// The written page: what one line of the item table says. A file's bytes and a session's words are both read as a list of these.
#![tactic(auto)]

use units::Grains;

// "kind (0 action, 1 group), synchrony (0 loose, 1 tight), error word (0 local, 1 global, 2 partial, 3 causal), part, delay, event, last". Nothing is
// asked of the numbers here, so that they are no enums: which are lawful is the file check's to say, of any bytes (`item_right` in items).
#[derive(Clone, Copy)]
pub struct Item {
    pub kind: usize,
    pub synchrony: usize,
    pub error: usize,
    pub part: usize,
    pub delay: Grains,
    pub event: usize,
    pub last: usize,
}
