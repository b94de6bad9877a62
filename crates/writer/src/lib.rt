//! The writer: tokens put one after another into any sink, with comments where neighbours need them, and blocks that
//! are opened and closed by slips.
//!
//! Each call's contract says which refusal it gives, by the first rule that applies, and what the writer and its sink
//! are afterwards. Runs of calls are followed by those same relations: a finished run has written its accepted tokens.
#![tactic(auto)]

mod adding;
mod admission;
mod blocks;
mod calls;
mod counts;
mod replay;
mod state;
mod writing;

pub use blocks::Blocks;
pub use calls::Call;
pub use counts::Counts;
pub use state::State;
pub use writing::{Slip, Writer};
