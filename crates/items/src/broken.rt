// Which rule a wrong item breaks.
ghost use Rattle.std.specs.Prelude.{◌≡◌};
ghost use Rattle.items.specs.Items.{item_right};
ghost use Rattle.items.specs.Inner.{broken_by};

use crate::{
    Setting, delay_right, error_right, event_right, kind_right, nesting_right, number_right,
    part_right, synchrony_right,
};
use contents::{Counts, ItemRule};
use page::Item;

// The first rule that a wrong item breaks, in the order of specs/Items. Beside `item_right`, which promises a yes or no: of an accepted file no item is asked which rule it breaks.
pub fn rule_broken(i: Item, c: Counts, h: Setting, left: usize, actions: usize) -> ItemRule
    ensures { result ≡ broken_by (item_right i c h left actions) }
{
    if !kind_right(i) {
        return ItemRule::Kind;
    }
    if !synchrony_right(i) {
        return ItemRule::Synchrony;
    }
    if !error_right(i) {
        return ItemRule::ErrorWord;
    }
    if !part_right(i, h) {
        return ItemRule::Part;
    }
    if !delay_right(i) {
        return ItemRule::Delay;
    }
    if !event_right(i, c, h) {
        return ItemRule::Event;
    }
    if !nesting_right(i, h, left) {
        return ItemRule::Nesting;
    }
    if !number_right(i, c) {
        return ItemRule::Message;
    }
    ItemRule::Actions
}
