// How a save failed: which step's failure is told.
ghost use Rattle.std.specs.Prelude.{◌≡◌};
ghost use Rattle.disk.specs.Saving.{settled_for, settled_by};

// The error number of what can't be asked at all: a path that is none, a folder of a file system that makes none safe.
pub const INVALID: i32 = 22;

// The step for which the file is not whole, with its error number.
#[derive(Clone, Copy)]
pub enum SaveError {
    NotMade(i32),
    NotWritten(i32),
    NotSafe(i32),
    NotRenamed(i32),
}

// A folder that can't be made safe at all has nothing to tell.
fn settled_for(error: i32) -> Result<(), SaveError>
    ensures { result ≡ settled_for error }
{
    if error == INVALID {
        return Ok(());
    }
    Err(SaveError::NotSafe(error))
}

pub fn settled_by(synced: Result<(), i32>) -> Result<(), SaveError>
    ensures { result ≡ settled_by synced }
{
    synced.or_else(settled_for)
}
