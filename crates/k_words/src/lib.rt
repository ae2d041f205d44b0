//! Lines, words, numbers and declared names of the texts that the program reads and writes.
//!
//! The contracts say exactly which lines and words a text has, what number or register a word is,
//! and whether a word may be a name. A [`NameList`] is the list of its names. The calls on words
//! take no memory. A [`LineBuffer`] takes a line that is
//! being made. Below stand `k_io`, for the want of memory and for sinks, and `itoa`.
#![tactic(auto)]

mod line_buffer;
mod name_list;
mod names;
mod numbers;
mod words;

pub use line_buffer::LineBuffer;
pub use name_list::NameList;
pub use names::{is_keyword, is_name};
pub use numbers::{number, register};
pub use words::{
    after_word, are_words, find, is, is_printable, next_line, split_at_line, word, word_count,
};
