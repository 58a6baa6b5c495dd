// The outcome of an action, as a word at its page place.
ghost use Rattle.std.specs.Prelude.{◌≡◌, ◌+◌, ◌^◌, ◌<◌, length, set};
ghost use Rattle.rules.specs.Rules.{outcome_of};
ghost use Rattle.fates.specs.Fields.{outcome_word};
ghost use Rattle.fates.specs.Places.{PlacesFit, reading_in};
ghost use Rattle.fates.specs.Fates.{FateBounded};

use crate::{PlacedWords, Places, dates, words};
use rules::Fate;

// The word for the outcome of an action of this fate.
fn outcome_word(r: PlacedWords<'_>, f: Fate) -> u64
    requires { FateBounded f (2 ^ 50) }
    ensures { result ≡ outcome_word (outcome_of (reading_in r.entry.places r.entry.words.now) f) }
{
    match f {
        Fate::HeardAt(i, date) => 2 + dates::since(date, words::start_of(r, i)).0,
        Fate::MissedBy(j, date) => 2 + dates::since(date, words::start_of(r, j)).0,
        Fate::GroupsOnly(_, _) => 1,
        Fate::Nothing => 1,
        Fate::NotYet => 0,
    }
}

// The outcome is left at the action's page place.
pub fn leave(mem: &mut [u64], t: Places, at: usize, f: Fate)
    requires { PlacesFit t (length mem.old) × (at < t.size) × FateBounded f (2 ^ 50) }
    ensures { mem.new ≡ set mem.old (t.outcomes + at) (outcome_word (outcome_of (reading_in t mem.old) f)) }
{
    let r = PlacedWords {
        words: &*mem,
        places: t,
    };
    let v = outcome_word(r, f);
    let to = t.outcomes + at;
    mem[to] = v;
}
