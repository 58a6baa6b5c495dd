// The reply table in words for people, laid out on lent bytes: the words of a row, whether it names a byte, and the whole table.
#![tactic(auto)]

pub use figures::{put_counted, put_figure};
pub use replies::{put_row_words, reply_lines, row_number};
use session::Refusal;
pub use table::{placed, put_text_words, put_unfold_words, put_words};
use text::TextError;
use unfolding::UnfoldError;

mod figures;
mod replies;
mod table;

// A row of the reply table: of a call, of a text that is read or written, or of an extended score that is unfolded.
#[derive(Clone, Copy)]
pub enum Row {
    Call(Refusal),
    Text(Result<usize, TextError>),
    Unfold(Result<usize, UnfoldError>),
}
