// The line of a file that was read, or could not be, and what came of it.
ghost use Rattle.checking.specs.Account.{checked_came, AccountTold, account_room};
ghost use Rattle.std.specs.Prelude.{◌≡◌, ◌+◌, ◌≤◌, length};

use crate::line::check_line;
use crate::run::Came;
use reasons::unread_line;

#[derive(Clone, Copy)]
pub struct Account {
    pub count: usize,
    pub came: Came,
}

// What came of a file that was checked.
fn came_of(accepted: bool) -> Came
    ensures { result ≡ checked_came accepted }
{
    if accepted {
        return Came::Accepted;
    }
    Came::Refused
}

// The line of any file from the front of `out`: with an error number other than 0 it could not be read.
// A number, and no Result: `AccountTold` takes the error number as it is, 0 where there is none.
pub fn account_line(out: &mut [u8], name: &[u8], error: i32, file: &[u8]) -> Account
    requires { account_room + length name.now ≤ length out.old }
    ensures { AccountTold out.old name.now error file.now out.new result }
{
    if error != 0 {
        return Account {
            count: unread_line(out, name, error),
            came: Came::Unread,
        };
    }
    let c = check_line(out, name, file);
    Account {
        count: c.count,
        came: came_of(c.accepted),
    }
}
