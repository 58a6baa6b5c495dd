// "lines from 1, columns in bytes from 1"
ghost use Rattle.std.specs.Prelude.{◌≡◌};
ghost use Rattle.tokens.specs.Places.{place_behind};

use crate::Place;
use ascii::NEWLINE;

// Where the byte behind these bytes of a text stands.
pub fn place_behind(before: &[u8]) -> Place
    ensures { result ≡ place_behind before.now }
{
    let mut line = 1;
    let mut column = 1;
    for &b in before {
        if b == NEWLINE {
            line += 1;
            column = 1;
            continue;
        }
        column += 1;
    }
    Place { line, column }
}
