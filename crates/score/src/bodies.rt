// The bodies of a file whose contents are right: 6, 20 to 27 and 8, "over the file from front to back".
ghost use Rattle.std.specs.Prelude.{◌≡◌};
ghost use Rattle.contents.specs.Replies.{verdict_of};
ghost use Rattle.contents.specs.Inner.{RightContents};
ghost use Rattle.score.specs.File.{bodies_right};

use crate::events::check_events;
use contents::{Counts, Fault};
use items::check_items;
use messages::check_messages;

pub fn check_bodies(file: &[u8], c: Counts) -> Result<(), Fault>
    requires { RightContents file.now c }
    ensures { result ≡ verdict_of (bodies_right file.now c) }
{
    check_events(file, c)?;
    check_items(file, c)?;
    check_messages(file, c)
}
