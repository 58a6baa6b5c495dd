// The rules of performance: their words. What the rules say stands in specs/, and the crate `evaluators` carries them out.
#![tactic(auto)]

ghost use Rattle.std.specs.Prelude.{◌≡◌};
ghost use Rattle.rules.specs.Words.{synchrony_of, error_of};

use units::Grains;

// "synchrony (0 loose, 1 tight)"
#[derive(Clone, Copy)]
pub enum Synchrony {
    Loose,
    Tight,
}

// "error word (0 local, 1 global, 2 partial, 3 causal)"
#[derive(Clone, Copy)]
pub enum ErrorWord {
    Local,
    Global,
    Partial,
    Causal,
}

// What has become of an event: heard, or missed with the first heard event after it, or neither yet.
#[derive(Clone, Copy)]
pub enum Taken {
    Heard,
    Missed(usize),
    Unsettled,
}

// How an item runs that starts at an ideal date: as heard at an event; as missed, with the first heard event after; as missed if it is a group and not at
// all if it is an action; never; or not yet.
#[derive(Clone, Copy)]
pub enum Fate {
    HeardAt(usize, Grains),
    MissedBy(usize, Grains),
    GroupsOnly(usize, Grains),
    Nothing,
    NotYet,
}

// The word that an item's number stands for. Every number has one, since the evaluators read words that nobody checked.
impl From<usize> for Synchrony {
    ghost from_gives = { λ n y. y ≡ synchrony_of n };

    fn from(n: usize) -> Synchrony {
        match n {
            0 => Synchrony::Loose,
            _ => Synchrony::Tight,
        }
    }
}

impl From<usize> for ErrorWord {
    ghost from_gives = { λ n e. e ≡ error_of n };

    fn from(n: usize) -> ErrorWord {
        match n {
            0 => ErrorWord::Local,
            1 => ErrorWord::Global,
            2 => ErrorWord::Partial,
            _ => ErrorWord::Causal,
        }
    }
}
