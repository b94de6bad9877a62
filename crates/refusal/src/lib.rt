//! Refusals: one enum for every layer, which goes up through every call unaltered.
//!
//! Proved here: each fault answers the number, the layer and the place that its definition names, and shows them as
//! in `fault 6 writer 4`.
#![tactic(auto)]

mod fault;

pub use fault::{Fault, Layer};
