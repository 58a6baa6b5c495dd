// The rules of performance carried out over lent words, wherever they stand. It knows neither clock nor file.
#![tactic(auto)]

ghost use Rattle.std.specs.Prelude.{◌≡◌, length};
ghost use Rattle.fates.specs.Places.{PlacesFit};
ghost use Rattle.evaluators.specs.Performed.{performed};

use fates::Places;

mod walk; // walk.rt: the items of a sequence and of the groups within it
mod runs; // runs.rt: the sequences of the item table

// The outcome of every action of the page, left at its page place.
pub fn perform(mem: &mut [u64], t: Places)
    requires { PlacesFit t (length mem.old) }
    ensures { mem.new ≡ performed t mem.old }
{
    let mut place: usize = 0;
    let size = t.size;
    // How far the next sequence is, `perform_run` answers.
    while place < size {
        let n = runs::perform_run(mem, t, place);
        place += n;
    }
}
