// The one loop over the text: line by line, up to the one that is looked for.
ghost use Rattle.std.specs.Prelude.{◌≤◌, length, drop};
ghost use Rattle.text.specs.declared.Stage.TheVariants.{Start};
ghost use Rattle.text.specs.Grammar.{script};
ghost use Rattle.origins.specs.Origins.{placed_lines};
ghost use Rattle.origins.specs.Aims.{ended_as, sought_in, Finds};

use crate::aims::{Aim, aim_behind, hits, share_of};
use crate::making::{added_by, list_end, token_at};
use script::{after, is_over, line};
use text::Stage;
use tokens::past_blanks;

// The lines are over, and those of the list end here.
fn ended(text: &[u8], aim: Aim, listed: usize) -> Option<usize>
    requires { listed ≤ length text.now }
    ensures { Finds text.now (ended_as aim (drop listed text.now)) result }
{
    match aim {
        Aim::Nothing => None,
        Aim::TextEnd => Some(text.len()),
        Aim::ListEnd => Some(listed),
        Aim::Past { .. } => None,
    }
}

// Where what is looked for stands among the lines of the text, up to its end or its first fault.
pub fn seek(text: &[u8], wanted: Aim) -> Option<usize>
    ensures { Finds text.now (sought_in wanted text.now (placed_lines Start text.now (script Start text.now))) result }
{
    let mut at = 0;
    let mut stage = Stage::Start;
    let mut aim = wanted;
    let mut listed = 0;
    // A `loop`: how far a step goes is what `line` answers.
    loop {
        let from = past_blanks(text, at);
        if is_over(text, from, stage) {
            return ended(text, aim, listed);
        }
        let Ok(s) = line(text, from, stage) else {
            return ended(text, aim, listed);
        };
        let share = share_of(aim, added_by(s.found));
        if hits(aim, share) {
            return Some(token_at(text, from, s.found));
        }
        at = s.next;
        aim = aim_behind(aim, share);
        listed = list_end(s.found, listed, at);
        stage = after(s.found, stage);
    }
}
