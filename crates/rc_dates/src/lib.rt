//! Calendar dates and moments: what an age that is written as a date means, and how a moment is printed.
//!
//! A moment counts units of 100 nanoseconds from the start of 1601 UTC on, and a day has 864,000,000,000 of them.
//! Which dates there are, and on which day each stands, is the calendar of `jiff`.
#![tactic(auto)]

mod ages;
mod laws;
mod stamp;

pub use ages::{DateErr, date_to_moment, days_before};
pub use laws::one_text_a_moment;
pub use stamp::moment_text;
