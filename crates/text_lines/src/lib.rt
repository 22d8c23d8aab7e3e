//! Lines, words and decimal numbers, for every text that the product reads.
//!
//! A text is cut into lines at each line feed; the last line may lack it. The bytes 9, 13 and 32 separate
//! the words of a line. [`tokens`] gives the words of a text in order, each with its place, and
//! [`line_word_count`] tells how many of them stand on the first line, so that a reader goes from line to line:
//! its lines with words are those of `numbered`, from 1 on, lines without words counted too.
#![tactic(auto)]

mod line;
mod marks;
mod number;
mod token;

pub use line::{len_before, split_line};
pub use number::{LARGE, NumberFault, begins_with_minus, in_range, is_digit, natural, number_in};
pub use token::{Comments, Token, line_word_count, put_line, tokens, visible, word_at};
