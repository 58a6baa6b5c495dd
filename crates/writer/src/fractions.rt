// "Beats in lowest terms, without `/1`."
// A place beside the bytes, as in ascii's laying.
ghost use Rattle.std.specs.Prelude.{◌≡◌, ◌+◌, ◌≤◌, length};
ghost use Rattle.ascii.specs.Laying.{Laid};
ghost use Rattle.contents.specs.Limits.{longest};
ghost use Rattle.tokens.specs.Beats.{grains_of_a_beat};
ghost use Rattle.text.specs.Beats.{denominator, beats_text};
ghost use Rattle.writer.specs.Fractions.{Common};

use ascii::{put_byte, put_decimal};

const GRAINS_OF_A_BEAT: u64 = 5040;

// The greatest number that divides a beat's grains and these.
// A `while`: the two numbers of a step are the last one's second and its remainder, and nothing is counted.
fn common(grains: u64) -> u64
    ensures { Common grains result }
{
    let mut a = GRAINS_OF_A_BEAT;
    let mut b = grains;
    while 0 < b {
        (a, b) = (b, a % b);
    }
    a
}

// The least denominator.
fn denominator(grains: u64) -> u64
    ensures { (result ≡ denominator grains) × (result ≤ grains_of_a_beat) }
{
    GRAINS_OF_A_BEAT / common(grains)
}

pub fn put_beats(out: &mut [u8], at: usize, grains: u64) -> usize
    requires { (grains ≤ longest) × (at + length (beats_text grains) ≤ length out.old) }
    ensures { Laid out.old at (beats_text grains) out.new result }
{
    let d = denominator(grains);
    let n = grains * d / GRAINS_OF_A_BEAT;
    if d == 1 {
        return put_decimal(out, at, n);
    }
    let next = put_decimal(out, at, n);
    let over = put_byte(out, next, b'/');
    put_decimal(out, over, d)
}
