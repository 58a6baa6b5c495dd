// Where in a text stands what made a byte of the file that it makes, so that a composer finds what the file check refuses. No public call has a `requires`; one loop
// goes over the text, and nothing recurses.
#![tactic(auto)]

ghost use Rattle.std.specs.Prelude.{◌≡◌};
ghost use Rattle.text.specs.Said.{said};
ghost use Rattle.origins.specs.Origins.{place_of, place_in_text};
ghost use Rattle.origins.specs.Aims.{no_place, Says, origin_as, Lies};

use aims::aim_at;
use contents::{Counts, entry_at};
use script::tally_text;
use seeking::seek;
use tokens::{Place, place_behind};

mod aims;
mod making;
mod seeking;

// 0 and 0, and no Option: so the definition `place_in_text` answers.
fn no_place() -> Place
    ensures { result ≡ no_place }
{
    Place { line: 0, column: 0 }
}

// The line and column of what was found.
fn place_of(text: &[u8], found: Option<usize>) -> Place
    requires { Lies text.now found }
    ensures { result ≡ place_of text.now (origin_as text.now found) }
{
    match found {
        None => no_place(),
        Some(at) => place_behind(&text[..at]),
    }
}

// A text without a fault, which has so much of each kind.
fn place_by(text: &[u8], c: Counts, place: usize) -> Place
    requires { Says text.now c }
    ensures { result ≡ place_in_text text.now place }
{
    let entry = entry_at(c, place);
    let aim = aim_at(c, entry);
    let found = seek(text, aim);
    place_of(text, found)
}

// Line and column of what made the byte at this place of the file that the text makes; 0 and 0 where nothing did.
pub fn place_in_text(text: &[u8], place: usize) -> Place
    ensures { result ≡ place_in_text text.now place }
{
    match tally_text(text) {
        Ok(counts) => place_by(text, counts, place),
        Err(_) => no_place(),
    }
}
