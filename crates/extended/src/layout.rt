// Where each table of an extended score starts: "tables without gaps". Five tables of 32-bit counts never come near 64 bits.
ghost use Rattle.std.specs.Prelude.{◌≡◌, ◌≤◌, length};
ghost use Rattle.extended.specs.Layout.{extended_contents, extent_of, items_start, messages_start, text_start, points_start, whole_size};
ghost use Rattle.extended.specs.Inner.{SmallExtent};

use crate::Extent;
use contents::bytes::read32;
use contents::limits::{EVENT_SIZE, MESSAGE_SIZE};

pub const EXTENDED_CONTENTS: usize = 40;

pub const FOLDED_SIZE: usize = 20;

pub const POINT_SIZE: usize = 8;

pub fn extent_of(file: &[u8]) -> Extent
    requires { extended_contents ≤ length file.now }
    ensures { (result ≡ extent_of file.now) × SmallExtent result }
{
    let events = read32(file, 4);
    let items = read32(file, 12);
    let messages = read32(file, 20);
    let text = read32(file, 28);
    let points = read32(file, 36);
    Extent {
        events,
        items,
        messages,
        text,
        points,
    }
}

pub fn items_start(c: Extent) -> usize
    requires { SmallExtent c }
    ensures { result ≡ items_start c }
{
    EXTENDED_CONTENTS + EVENT_SIZE * c.events
}

pub fn messages_start(c: Extent) -> usize
    requires { SmallExtent c }
    ensures { result ≡ messages_start c }
{
    items_start(c) + FOLDED_SIZE * c.items
}

pub fn text_start(c: Extent) -> usize
    requires { SmallExtent c }
    ensures { result ≡ text_start c }
{
    messages_start(c) + MESSAGE_SIZE * c.messages
}

pub fn points_start(c: Extent) -> usize
    requires { SmallExtent c }
    ensures { result ≡ points_start c }
{
    text_start(c) + c.text
}

pub fn whole_size(c: Extent) -> usize
    requires { SmallExtent c }
    ensures { result ≡ whole_size c }
{
    points_start(c) + POINT_SIZE * c.points
}
