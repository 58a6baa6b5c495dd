// What a heard note or passing time prints: a line for each message in the send room, or the refusal's number.
// Each asks for room by a clause: a type around the lent bytes would be built at each call, and taken apart again in it.
ghost use Rattle.std.specs.Prelude.{◌≡◌, true, ◌+◌, ◌*◌, ◌≤◌, length};
ghost use Rattle.ascii.specs.Laying.{Laid};
ghost use Rattle.session.specs.Layout.{most_sent};
ghost use Rattle.sending.specs.Room.{pairs_in};
ghost use Rattle.sequencer.specs.Calls.{heard_note, passing_time};
ghost use Rattle.playing.specs.Printed.{figures_of, sent_line, sent_lines, sending_lines, carried_sending};
ghost use Rattle.playing.specs.Inner.{message_room, output_room, Fits, Carries};

use crate::Line;
use score::AcceptedFile;
use sequencer::Figures;
use session::Refusal;

// What the report gives: every figure is 0 where there is no session.
pub fn figures_of(mem: &[u64]) -> Figures
    ensures { result ≡ figures_of mem.now }
{
    let r = sequencer::report_reply(sequencer::read_report(mem));
    r.figures
}

// One message's line behind the first `at` bytes.
fn put_message(
    file: AcceptedFile<'_>,
    clock: u64,
    due: u64,
    word: u64,
    out: &mut [u8],
    at: usize,
) -> usize
    requires { at + message_room ≤ length out.old }
    ensures { Laid out.old at (sent_line file.entry.bytes.now clock (record { due = due; word = word })) out.new result
        × (result ≤ at + message_room) }
{
    let label = score::accepted_label(file.bytes, word % 65536);
    lines::message_line(out, at, clock, due, word / 65536, label)
}

// The first `count` messages of the send room, a line for each.
fn put_messages(
    file: AcceptedFile<'_>,
    clock: u64,
    room: &[u64],
    count: usize,
    out: &mut [u8],
) -> usize
    requires { (count ≤ most_sent) × (2 * count ≤ length room.now) × (output_room ≤ length out.old) }
    ensures { Laid out.old 0 (sent_lines file.entry.bytes.now clock (pairs_in count 0 room.now)) out.new result }
{
    let mut at = 0;
    for i in 0..count {
        at = put_message(file, clock, room[2 * i], room[2 * i + 1], out, at);
    }
    at
}

// What a call answered, with memory and room as it left them.
fn put_sent(
    file: AcceptedFile<'_>,
    mem: &[u64],
    room: &[u64],
    sent: Result<usize, Refusal>,
    out: &mut [u8],
) -> usize
    requires { Fits sent room.now × (output_room ≤ length out.old) }
    ensures { Laid out.old 0 (sending_lines file.entry.bytes.now mem.now room.now sent) out.new result }
{
    match sent {
        Ok(count) => {
            let s = figures_of(mem);
            put_messages(file, s.clock, room, count, out)
        }
        Err(x) => {
            let r = session::refusal_row(x);
            lines::no_line(out, r.number as u64)
        }
    }
}

pub fn hear_line(
    file: AcceptedFile<'_>,
    mem: &mut [u64],
    room: &mut [u64],
    event: u64,
    tempo: u64,
    out: &mut [u8],
) -> Line
    requires { output_room ≤ length out.old }
    ensures { Carries
        (carried_sending file.entry.bytes.now true (heard_note mem.old room.old event tempo))
        out.old mem.new room.new out.new result.opened result.count }
{
    let sent = sequencer::hear(mem, room, event, tempo);
    let count = put_sent(file, mem, room, sent, out);
    Line {
        count,
        opened: true,
    }
}

pub fn pass_line(
    file: AcceptedFile<'_>,
    mem: &mut [u64],
    room: &mut [u64],
    ms: u64,
    out: &mut [u8],
) -> Line
    requires { output_room ≤ length out.old }
    ensures { Carries
        (carried_sending file.entry.bytes.now true (passing_time mem.old room.old ms))
        out.old mem.new room.new out.new result.opened result.count }
{
    let sent = sequencer::pass(mem, room, ms);
    let count = put_sent(file, mem, room, sent, out);
    Line {
        count,
        opened: true,
    }
}
