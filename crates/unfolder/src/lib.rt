// An extended score unfolded into the file of its unfolded score. Its sizes are found before anything is made; the file is made once, in bytes of the function's
// own, and the room is touched only where its check finds nothing wrong. The public call has no `requires`, and a refusal leaves every lent byte.
#![tactic(auto)]

ghost use Rattle.std.specs.Prelude.{◌≡◌, length};
ghost use Rattle.unfolding.specs.Answers.{unfold_answer, unfolded_file, room_left};

use contents::limits::LONGEST_SCORE;
use folding::check_extended;
use sizing::measure;
use unfolding::UnfoldError;

mod finishing;
mod numbering;
mod sizing;

// Unfolds an extended score and puts the file at the front of the room.
pub fn unfold(extended: &[u8], room: &mut [u8]) -> Result<usize, UnfoldError>
    ensures value { result ≡ unfold_answer (length room.old) extended.now }
    ensures room_after { room.new ≡ room_left result (unfolded_file extended.now) room.old }
{
    if room.len() < LONGEST_SCORE {
        return Err(UnfoldError::NoRoom);
    }
    if let Err(place) = check_extended(extended) {
        return Err(UnfoldError::BadExtended { place });
    }
    measure(extended, room)
}
