//! The words of a job file.
//!
//! The bytes of a job file are a text in UTF-8 or UTF-16, and the text is lines of words with quotes and comments. The
//! layer above is promised the words that stand in the bytes, each with whether it began with a quote, or the place at
//! which they are no text or leave a quote open.
#![tactic(auto)]

mod decoding;
mod lexing;
mod reading;
mod start;
mod word;

pub use decoding::job_words;
pub use reading::JobTextErr;
