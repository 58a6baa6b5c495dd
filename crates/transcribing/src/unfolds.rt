// What `unfold` says of an extended score that it refuses, laid out on lent bytes, and how it ends.
// Each asks for room by a clause: a type around the lent bytes would be built at each call, and taken apart again in it.
ghost use Rattle.std.specs.Prelude.{◌≡◌, ◌+◌, ◌≤◌, length};
ghost use Rattle.ascii.specs.Laying.{Laid};
ghost use Rattle.session.specs.declared.Refusal.TheVariants.{File};
ghost use Rattle.refusals.specs.Texts.{unmade_line};
ghost use Rattle.transcribing.specs.Told.{line_room};
ghost use Rattle.transcribing.specs.Unfolds.{events_folded, items_told, counts_folded, unfold_line, unfold_ending};

use contents::limits::MOST_ITEMS;
use contents::{Counts, Fault};
use extended::extent_of;
use extended::layout::EXTENDED_CONTENTS;
use refusals::{folded_line, unmade_line};
use session::Refusal;
use streams::Ending;
use unfolding::UnfoldError;

fn events_folded(extended: &[u8]) -> usize
    ensures { result ≡ events_folded extended.now }
{
    if extended.len() < EXTENDED_CONTENTS {
        return 0;
    }
    extent_of(extended).events
}

// How many items the entry at fault is looked for among: all that there may be, where it is an item.
// An arm for each fault: one that is added has to be given its answer here.
#[tactic(auto, unfolding(crate::specs::Unfolds::items_told))]
fn items_told(x: Fault) -> usize
    ensures { result ≡ items_told x }
{
    match x {
        Fault::FileShort => 0,
        Fault::BadCount(_) => 0,
        Fault::BadOffset(_) => 0,
        Fault::BadLength => 0,
        Fault::BadEvent(_) => 0,
        Fault::BadItem(_, _) => MOST_ITEMS,
        Fault::BadMessage(_) => 0,
        Fault::TextLeft => 0,
        Fault::NoMessage => 0,
    }
}

fn counts_folded(extended: &[u8], x: Fault) -> Counts
    ensures { result ≡ counts_folded extended.now x }
{
    let events = events_folded(extended);
    let items = items_told(x);
    Counts {
        events,
        items,
        messages: 0,
        text: 0,
    }
}

// The line of an extended score whose unfolded file is refused.
fn put_unfolded(out: &mut [u8], name: &[u8], extended: &[u8], x: Fault) -> usize
    requires { line_room + length name.now ≤ length out.old }
    ensures { Laid out.old 0 (unmade_line name.now (counts_folded extended.now x) (File x)) out.new result }
{
    let c = counts_folded(extended, x);
    unmade_line(out, name, c, Refusal::File(x))
}

// What `unfold` says of the extended score of this name, from the front of `out`: nothing where it was unfolded. Answers its length.
#[tactic(auto, unfolding(crate::specs::Unfolds::unfold_line))]
pub fn unfold_line(
    out: &mut [u8],
    name: &[u8],
    extended: &[u8],
    u: Result<usize, UnfoldError>,
) -> usize
    requires { line_room + length name.now ≤ length out.old }
    ensures { Laid out.old 0 (unfold_line name.now extended.now u) out.new result }
{
    match u {
        Ok(_) => 0,
        Err(UnfoldError::BadFile { fault }) => put_unfolded(out, name, extended, fault),
        Err(e) => folded_line(out, name, extended, Err(e)),
    }
}

// How it ends: done where something was made.
// A function beside `ending_of`, for the reason that stands there.
pub fn unfold_ending(u: Result<usize, UnfoldError>) -> Ending
    ensures { result ≡ unfold_ending u }
{
    match u {
        Ok(_) => Ending::Done,
        Err(_) => Ending::Refused,
    }
}
