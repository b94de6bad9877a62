//! Code points: their classes, what two or three of them begin, and their bytes in UTF-8.
//!
//! Each function's result is pinned to a definition of `specs/`. The table of classes is held to its rule at every
//! entry by one computation. `utf8_stands` carries the theorems of UTF-8: a sequence is well-formed exactly when it
//! encodes a scalar value, and encoded lists decode to themselves.
#![tactic(auto)]

pub mod class;
mod encoded;
pub mod starts;
pub mod utf8;
