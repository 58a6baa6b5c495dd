// The calls of an opened session: it is told of heard notes and of passing time, and asked for a report. All of it lives in 8,192 lent words.
#![tactic(auto)]

mod finish;
mod heard;
mod passing;
mod replies;
mod reporting;

pub use heard::hear;
pub use passing::pass;
pub use replies::{report_reply, sending_reply};
pub use reporting::read_report;

// "The report gives clock, tempo, last event heard (0 before the first) and messages sent since the opening."
#[derive(Clone, Copy)]
pub struct Figures {
    pub clock: u64,
    pub tempo: u64,
    pub last: u64,
    pub total: u64,
}

// The reply table's number and place, and the figures beside them. No generic reply for the three calls: each names its figure, as the theorems `no-parts`, `no-count`
// and `no-figures` do.
#[derive(Clone, Copy)]
pub struct SendingReply {
    pub number: usize,
    pub place: usize,
    pub count: usize,
}

#[derive(Clone, Copy)]
pub struct ReportReply {
    pub number: usize,
    pub place: usize,
    pub figures: Figures,
}
