// "Each is sent as a message of its decimal digits, with a minus sign below 0"
// The rooms are lent and nothing allocates, so the byte at which the next one goes stands beside its room.
ghost use Rattle.std.specs.Prelude.{◌+◌, ◌<◌, ◌≤◌, length};
ghost use Rattle.ascii.specs.Laying.{Laid};
ghost use Rattle.values.specs.Integers.{whole_range};
ghost use Rattle.values.specs.Digits.{digits};
ghost use Rattle.values.specs.Inner.{value_of, most_digits, digit_room};

use crate::curve::HALF_RANGE;
use ascii::{put_byte, put_number};

// The raised value's digits, laid behind the first `at` bytes of `out`.
pub fn put_value(out: &mut [u8], at: usize, v: u64) -> usize
    requires { (at + digit_room ≤ length out.old) × (v < whole_range) }
    ensures { Laid out.old at (digits (value_of v)) out.new result × (result ≤ at + most_digits) }
{
    if HALF_RANGE <= v {
        return put_number(out, at, v - HALF_RANGE);
    }
    let next = put_byte(out, at, b'-');
    put_number(out, next, HALF_RANGE - v)
}
