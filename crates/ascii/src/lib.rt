// Bytes, decimals and fixed words on lent bytes: comparing a word, reading a number, laying bytes one behind the other.
#![tactic(auto)]

pub use laying::{put_byte, put_bytes, put_decimal, put_number, put_spaces};
pub use numbers::{is_digit, read_number};
pub use words::{begins, bytes_before, same};

mod laying;
mod numbers;
mod words;

pub const SPACE: u8 = b' ';

pub const NEWLINE: u8 = b'\n';
