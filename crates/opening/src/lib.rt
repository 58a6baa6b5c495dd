// The opening: a session on a score file, with a set of sounding parts, a tempo and a grace. No call of document 01 has a `requires`.
#![tactic(auto)]

ghost use Rattle.std.specs.Prelude.{◌≡◌, [], ◌∷◌, map, ◌+◌, ◌≤◌, length};
ghost use Rattle.contents.specs.Limits.{most_events, most_items};
ghost use Rattle.contents.specs.Contents.{counts_of};
ghost use Rattle.score.specs.Piece.{decode};
ghost use Rattle.fates.specs.Fields.{item_word};
ghost use Rattle.session.specs.Layout.{memory_size, mark_at, starts_at, page_at, tempo_at, mark};
ghost use Rattle.opening.specs.Opening.{with_words, starts_of, cleared, new_session, opened};

use fates::words::item_word;
use score::AcceptedFile;
use session::Refusal;
use session::layout::{
    EVENT_COUNT_AT, GRACE_AT, ITEM_COUNT_AT, MARK, MARK_AT, MEMORY_SIZE, MOST_GRACE, MOST_TEMPO,
    PAGE_AT, PARTS_AT, STARTS_AT, TEMPO_AT,
};
use units::Grains;

mod replies;

pub use replies::opening_reply;

// The reply table's number and place, and the figure beside them.
#[derive(Clone, Copy)]
pub struct OpeningReply {
    pub number: usize,
    pub place: usize,
    pub parts: u32,
}

// "Words past 8,192 are never read or changed."
fn clear(mem: &mut [u64])
    requires { memory_size ≤ length mem.old }
    ensures { mem.new ≡ cleared mem.old }
{
    mem[..MEMORY_SIZE].fill(0);
}

// The header of a new session: nothing heard, nothing sent, the clock at 0.
fn put_header(mem: &mut [u64], events: usize, items: usize, parts: u16, tempo: u64, grace: u64)
    requires { memory_size ≤ length mem.old }
    ensures { mem.new ≡ with_words tempo_at (tempo ∷ []) (with_words mark_at (mark ∷ events ∷ items ∷ parts ∷ grace ∷ []) mem.old) }
{
    mem[MARK_AT] = MARK;
    mem[EVENT_COUNT_AT] = events as u64;
    mem[ITEM_COUNT_AT] = items as u64;
    mem[PARTS_AT] = parts as u64;
    mem[GRACE_AT] = grace;
    mem[TEMPO_AT] = tempo;
}

// E(k) at place k, for each event of the file.
fn put_starts(mem: &mut [u64], file: AcceptedFile<'_>, events: usize)
    requires { (memory_size ≤ length mem.old) × (events ≡ (counts_of file.bytes.now).events) × (events ≤ most_events) }
    ensures { mem.new ≡ with_words (starts_at + 1) (starts_of 0 (decode file.entry.bytes.now).durations) mem.old }
{
    let mut sum = Grains(0);
    for k in 0..events {
        mem[STARTS_AT + 1 + k] = sum.0;
        let d = score::duration(file.bytes, k);
        sum = Grains(sum.0 + d.0);
    }
}

// A word for each item of the file.
fn put_page(mem: &mut [u64], file: AcceptedFile<'_>, items: usize)
    requires { (memory_size ≤ length mem.old) × (items ≡ (counts_of file.bytes.now).items) × (items ≤ most_items) }
    ensures { mem.new ≡ with_words page_at (map item_word (decode file.entry.bytes.now).items) mem.old }
{
    for p in 0..items {
        mem[PAGE_AT + p] = item_word(score::read_item(file.bytes, p));
    }
}

// The words of a new session on an accepted file.
fn begin(mem: &mut [u64], file: AcceptedFile<'_>, parts: u16, tempo: u64, grace: u64)
    requires { memory_size ≤ length mem.old }
    ensures { mem.new ≡ new_session (decode file.entry.bytes.now) (record { parts = parts; tempo = tempo; grace = grace }) mem.old }
{
    let events = score::event_count(file.bytes);
    let items = score::item_count(file.bytes);
    clear(mem);
    put_header(mem, events, items, parts, tempo, grace);
    put_starts(mem, file, events);
    put_page(mem, file, items);
}

// Opens a session in the lent words: the file, the part bits, the tempo that it begins with and the grace, in grains. It answers how many parts sound.
pub fn open_session(
    mem: &mut [u64],
    file: &[u8],
    parts: u16,
    tempo: u64,
    grace: u64,
) -> Result<u32, Refusal>
    ensures { opened mem.old file.now (record { parts = parts; tempo = tempo; grace = grace }) ≡ record { reply = result; memory = mem.new } }
{
    if mem.len() < MEMORY_SIZE {
        return Err(Refusal::MemoryShort);
    }
    score::check_file(file)?;
    if tempo < 1 {
        return Err(Refusal::BadTempo);
    }
    if MOST_TEMPO < tempo {
        return Err(Refusal::BadTempo);
    }
    if MOST_GRACE < grace {
        return Err(Refusal::BadGrace);
    }
    begin(mem, AcceptedFile { bytes: file }, parts, tempo, grace);
    Ok(parts.count_ones())
}
