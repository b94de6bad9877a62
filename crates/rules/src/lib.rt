//! The rules that a writer holds tokens to: which are lawful, which are in turn, and between which neighbours a
//! comment stands. Each function answers exactly what the definition of `syntax` says.
#![tactic(auto)]

mod lawful;
mod neighbour;
mod number;
pub mod points;
mod turn;

pub use lawful::is_lawful;
pub use neighbour::{is_apart, left_of, right_of};
pub use number::is_number;
pub use turn::{is_in_turn, waiting_after};
