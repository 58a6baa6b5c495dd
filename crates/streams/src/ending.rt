// How a program ended, and the status that tells it.
ghost use Rattle.std.specs.Prelude.{◌≡◌, ◌≤◌};
ghost use Rattle.streams.specs.Endings.{status_of};

// Where a program tells its status, to the script that runs it.
const STATUS: i32 = 3;

// All was done; something was refused; the usage is wrong, or something could not be read or written.
#[derive(Clone, Copy)]
pub enum Ending {
    Done,
    Refused,
    Failed,
}

// A function, and no `From`: that it is one digit is promised here, too, and docs name it.
pub fn status_of(e: Ending) -> u8
    ensures { (result ≡ status_of e) × (result ≤ 2) }
{
    match e {
        Ending::Done => 0,
        Ending::Refused => 1,
        Ending::Failed => 2,
    }
}

// Tells how the program ended, as one digit, in one write: std has no file for a descriptor that is handed down. Nothing is to be done where nobody listens.
pub fn tell_ending(e: Ending) {
    io::write_all(STATUS, &[b'0' + status_of(e)]);
}
