// Score grains, clock thousandths and stage milliseconds, kept apart by their types.
#![tactic(auto)]

ghost use Rattle.std.specs.Prelude.{◌≡◌, ◌*◌, ◌^◌, ◌≤◌, ◌<◌};
ghost use Rattle.units.specs.Units.{moved_by, on_clock};

// Score time as written: a beat is 5,040 grains.
#[derive(Clone, Copy)]
pub struct Grains(pub u64);

// The beat clock's readings and due dates: thousandths of a grain.
#[derive(Clone, Copy)]
pub struct Thousandths(pub u64);

// Stage time.
#[derive(Clone, Copy)]
pub struct Millis(pub u64);

// The tempo step: the one place where milliseconds become thousandths. Both numbers are ones that a call has let in.
pub fn moved_by(m: Millis, tempo: u64) -> Thousandths
    requires { (m.0 ≤ 1000) × (tempo ≤ 50400) }
    ensures { (result ≡ moved_by m tempo) × (result.0 ≤ 50400000) }
{
    Thousandths(m.0 * tempo)
}

// A delay on the clock.
pub fn on_clock(g: Grains) -> Thousandths
    requires { g.0 < 2 ^ 50 }
    ensures { result ≡ on_clock g }
{
    Thousandths(1000 * g.0)
}
