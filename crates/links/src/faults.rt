// What a call to the system comes to, and the error number that is told where it fails.
ghost use Rattle.std.specs.Prelude.{◌≡◌};
ghost use Rattle.links.specs.Faults.{reason_of, told_of, answered_of};

use std::io;
use streams::error_number;

// The number of an input or output error.
const INPUT_OUTPUT: i32 = 5;

// A failure always has a number: where the system gives none, it is that of an input or output error.
pub fn reason(error: i32) -> i32
    ensures { result ≡ reason_of error }
{
    if error == 0 {
        return INPUT_OUTPUT;
    }
    error
}

// What a call gave, or the number that its failure is told by.
pub fn told<T>(answer: Result<T, i32>) -> Result<T, i32>
    ensures { result ≡ told_of answer }
{
    answer.map_err(reason)
}

// The same of a call that std answers.
pub fn answered<T>(answer: io::Result<T>) -> Result<T, i32>
    ensures { result ≡ answered_of answer }
{
    answer.map_err(|e| reason(error_number(e)))
}
