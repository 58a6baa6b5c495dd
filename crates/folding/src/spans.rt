// "A span is at least one step and a multiple of it", and "0 at the last".
ghost use Rattle.std.specs.Prelude.{◌≡◌, ◌+◌, ◌*◌, ◌≤◌, length};
ghost use Rattle.extended.specs.Layout.{point_size};
ghost use Rattle.extended.specs.Points.{points_from, spans_right};

use contents::bytes::read32;
use extended::layout::POINT_SIZE;

// The spans of the `count` points from the byte `at` on.
pub fn spans_right(file: &[u8], step: usize, at: usize, count: usize) -> bool
    requires { (at + point_size * count ≤ length file.now) × ((1 ≤ step) × (1 ≤ count)) }
    ensures { result ≡ spans_right step (points_from file.now at count) }
{
    for k in 0..count - 1 {
        let span = read32(file, at + POINT_SIZE * k + 4);
        if span < step {
            return false;
        }
        if span % step != 0 {
            return false;
        }
    }
    read32(file, at + POINT_SIZE * (count - 1) + 4) == 0
}
