//! Normalize, and the normal-form law.
//!
//! `normalize` reads the tokens of a source, leaves out whitespace after whitespace and puts the rest into a new writer
//! over a sink. `compare` makes two lists of calls on two new writers; its contract states the law whole, for all
//! runs, readings, sources and sinks (`specs/Law.antt`).
#![tactic(auto)]

mod comparison;
mod normalization;

pub use comparison::{Compared, compare};
pub use normalization::{Normalized, normalize};
