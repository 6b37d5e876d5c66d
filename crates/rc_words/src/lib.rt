//! The words of a command line or a job file: which setting each gives, or why the first that is refused is refused.
//!
//! One table names each switch with the kind of its value. What a word means depends on the words before it (the list
//! that it belongs to, the roots that are given) and is said word by word; the layer above is promised that what is
//! read are the settings of all words in their order, and that a refusal is that of the first word that has one.
#![tactic(auto)]

mod letters;
mod read;
mod setting;
mod spelling;
mod table;
mod values;

pub use read::read_words;
pub use setting::{Placed, Setting, Word, Words, WordsErr};
