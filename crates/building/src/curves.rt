// The actions that a curve's values are.
// The rooms are lent and nothing allocates, so the byte at which the next one goes stands beside its room.
ghost use Rattle.std.specs.Prelude.{◌≡◌, [], ◌∷◌, ◌+◌, ◌*◌, ◌≤◌, ◌<◌, length};
ghost use Rattle.ascii.specs.Laying.{Laid};
ghost use Rattle.contents.specs.Limits.{item_size};
ghost use Rattle.contents.specs.Bytes.{part};
ghost use Rattle.score.specs.Encode.{item_bytes};
ghost use Rattle.extended.specs.Inner.{word_range};
ghost use Rattle.filing.specs.Pieces.{Fitting};
ghost use Rattle.unfolding.specs.Unfolded.{send_item, sends};
ghost use Rattle.building.specs.Inner.{page_bytes};

use filing::put_item;
use page::Item;
use units::Grains;

// A value's action: "For an action both words are 0".
fn put_send(out: &mut [u8], at: usize, i: Item, delay: usize, number: usize) -> usize
    requires { (at + item_size ≤ length out.old) × Fitting i × (delay < word_range) × (number < 65536) }
    ensures { Laid out.old at (item_bytes (send_item i delay number ∷ [])) out.new result × (result ≡ at + item_size) }
{
    let delay = Grains(delay as u64);
    let g = Item {
        kind: 0,
        synchrony: 0,
        error: 0,
        part: i.part,
        delay,
        event: 0,
        last: number,
    };
    put_item(out, at, g)
}

// A curve's actions, one for each of its `times` message numbers from `first` on.
pub fn build_values(
    i: Item,
    step: usize,
    numbers: &[u16],
    first: usize,
    times: usize,
    out: &mut [u8],
    to: usize,
) -> usize
    requires { Fitting i × (step < word_range) × (first < word_range) × (times < word_range) × (length (part numbers.now first times) ≡ times) × (to + item_size * times ≤ length out.old) }
    ensures { Laid out.old to (page_bytes (sends i step 0 (part numbers.now first times))) out.new result }
{
    let mut at = to;
    let mut delay = 0;
    // By place, since a curve without values may start past the last number, where there is no slice.
    for p in 0..times {
        let n = usize::from(numbers[first + p]);
        at = put_send(out, at, i, delay, n);
        delay = step;
    }
    at
}
