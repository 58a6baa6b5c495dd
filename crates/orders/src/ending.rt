// How the program ends, by what was ordered and how it was carried out.
ghost use Rattle.std.specs.Prelude.{◌≡◌};
ghost use Rattle.orders.specs.Endings.{ending_of, ending_if};

use crate::Usage;
use streams::Ending;

// A wrong usage has failed; any other order ends as it was carried out. No `From`, since the ending of what was carried out is asked for, too.
pub fn ending_of(u: Usage, done: Ending) -> Ending
    ensures { result ≡ ending_of u done }
{
    match u {
        Usage::Right | Usage::Wished => done,
        Usage::NoCommand => Ending::Failed,
        Usage::NoOption | Usage::TooFew | Usage::TooMany => Ending::Failed,
        Usage::NoNumber | Usage::InputTwice => Ending::Failed,
    }
}

// What could not be read or written has failed.
pub fn ending_if(done: bool) -> Ending
    ensures { result ≡ ending_if done }
{
    if done {
        return Ending::Done;
    }
    Ending::Failed
}
