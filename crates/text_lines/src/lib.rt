//! Texts by lines, lines by tokens, and numbers in decimal digits: what the script language and the report format share.
#![tactic(auto)]

mod lines;
mod numerals;
mod parts;
mod reading;
mod script;

pub use lines::{first_line, strict_lines, strict_tokens, text_of_lines, without_feed};
pub use numerals::{
    digits_value, digits_write_one_number, numerals_are_decimal, push_numeral, read_numeral,
};
pub use parts::{Parts, cut_at, joined_parts, parts_joined};
pub use reading::{LineReader, TextError, one_first_bad_line, read_lines};
pub use script::{Words, script_number, script_numbers_are_written, script_words};
