// The report.
ghost use Rattle.std.specs.Prelude.{◌≡◌};
ghost use Rattle.sequencer.specs.Calls.{reported};

use crate::Figures;
use session::Refusal;
use session::layout::{CLOCK_AT, LAST_AT, MEMORY_SIZE, TEMPO_AT, TOTAL_AT};

// Clock, tempo, last event heard and messages sent since the opening.
pub fn read_report(mem: &[u64]) -> Result<Figures, Refusal>
    ensures { result ≡ reported mem.now }
{
    if mem.len() < MEMORY_SIZE {
        return Err(Refusal::MemoryShort);
    }
    if !session::is_session(mem) {
        return Err(Refusal::NoSession);
    }
    Ok(Figures {
        clock: mem[CLOCK_AT],
        tempo: mem[TEMPO_AT],
        last: mem[LAST_AT],
        total: mem[TOTAL_AT],
    })
}
