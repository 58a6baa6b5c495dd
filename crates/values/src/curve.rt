// "the value j steps into a span of d grains is v + floor(j x step x (w - v) / d), also where w is below v"
ghost use Rattle.std.specs.Prelude.{◌≡◌, ◌<◌};
ghost use Rattle.values.specs.Integers.{whole_range, from_bits};
ghost use Rattle.values.specs.Curves.{curve_value};
ghost use Rattle.values.specs.Inner.{value_of, Within};

pub const HALF_RANGE: u64 = 2147483648;

// The value whose 32 bits these are.
pub fn raised(bits: u64) -> u64
    requires { bits < whole_range }
    ensures { (value_of result ≡ from_bits bits) × (result < whole_range) }
{
    if bits < HALF_RANGE {
        return bits + HALF_RANGE;
    }
    bits - HALF_RANGE
}

// A curve that falls is rounded up in what it has fallen by. The products stay below 2^64.
pub fn curve_value(v: u64, w: u64, step: u64, span: u64, j: u64) -> u64
    requires { Within v w step span j }
    ensures { (value_of result ≡ curve_value (value_of v) (value_of w) step span j) × (result < whole_range) }
{
    let into = j * step;
    if v <= w {
        return v + into * (w - v) / span;
    }
    v - (into * (v - w) + (span - 1)) / span
}
