//! Tokens: what they are, how they are read and spelled, and the laws that tie the two.
//!
//! The definitions stand in `specs/`; the code here is their vocabulary, with the small questions about tokens, names
//! and numbers that more than one crate above asks. `theorems` carries what is proved of the definitions themselves.
#![tactic(auto)]

pub mod kind;
pub mod name;
pub mod neighbour;
pub mod number;
pub mod place;
pub mod theorems;
pub mod token;
pub mod waiting;
