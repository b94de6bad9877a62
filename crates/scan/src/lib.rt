//! The loops of the reader: what each rule of the syntax takes of the input, and what of it goes into the caller's
//! cells.
//!
//! This crate is the inner part of the crate `reader`, which is the one to call. All of it works over `Lookahead`,
//! three code points in sight. Each function's contract names the rule of `syntax` that it follows: what the rule
//! collects is laid into the cells, and what the rule leaves is ahead afterwards, places included.
#![tactic(auto)]

mod cells;
mod collecting;
mod escapes;
mod number;
mod rule;
mod rules;
mod skipping;

pub use cells::Cells;
pub use collecting::{collect_digits, collect_name, collect_string, collect_url};
pub use escapes::escape;
pub use number::collect_number;
pub use skipping::{skip_comments, skip_extra_whitespace, skip_remnants, skip_whitespace};
