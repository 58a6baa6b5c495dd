// The values one after the other.
// The list stands in lent rooms that it doesn't fill and nothing allocates, so how many messages and bytes of text there are stands beside them.
ghost use Rattle.std.specs.Prelude.{◌≡◌, ◌<◌, map, take};
ghost use Rattle.values.specs.Inner.{value_of};
ghost use Rattle.unfolding.specs.Extended.{extended_of};
ghost use Rattle.naming.specs.Named.{Namable, Names};
ghost use Rattle.naming.specs.Inner.{messages_in, Standing, Keyed, EachAsked};

use crate::Named;
use crate::copying::copy_list;
use crate::keys::key_list;
use crate::places::place_value;
use extended::Extent;

// One key for each message that a score may have, and one place more, behind the last.
const KEY_ROOM: usize = 513;

// Each of the first `count` values, with the first messages and bytes of text that stand there: none where there would be more than a score may have.
fn name_each(
    values: &[u64],
    count: usize,
    entries: &mut [u8],
    messages: usize,
    labels: &mut [u8],
    text: usize,
    inside: bool,
    keys: &mut [u64],
    numbers: &mut [u16],
) -> Option<Named>
    requires { EachAsked values.now count numbers.old × Standing entries.old labels.old messages text × Keyed inside entries.old labels.old messages text keys.old }
    ensures { Names (messages_in entries.old labels.old messages text) (map value_of (take count values.now)) count entries.new labels.new numbers.new result }
{
    let mut n = messages;
    let mut size = text;
    for i in 0..count {
        let place = place_value(values[i], entries, n, labels, size, inside, keys)?;
        numbers[i] = place.number as u16;
        n = place.messages;
        size = place.text;
    }
    Some(Named {
        messages: n,
        text: size,
    })
}

// Copies the score's entries and text to the fronts of `entries` and `labels`, and has each of the first `count` values find its message there or join it. Puts
// their numbers at the front of `numbers`. None where there would be more messages or text than a score may have.
pub fn name_values(
    file: &[u8],
    c: Extent,
    values: &[u64],
    count: usize,
    entries: &mut [u8],
    labels: &mut [u8],
    numbers: &mut [u16],
) -> Option<Named>
    requires { Namable file.now c values.now count entries.old labels.old numbers.old }
    ensures { Names (extended_of file.now).messages (map value_of (take count values.now)) count entries.new labels.new numbers.new result }
{
    let messages = c.messages;
    let text = c.text;
    copy_list(file, c, entries, labels);
    let mut keys: [u64; KEY_ROOM] = [0; KEY_ROOM];
    let inside = key_list(entries, messages, labels, text, &mut keys);
    name_each(
        values, count, entries, messages, labels, text, inside, &mut keys, numbers,
    )
}
