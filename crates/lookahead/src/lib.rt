//! Code points read one after another with the next three in sight.
//!
//! `Lookahead` says what that means, and the loops of the reader are proved over it. `Window` gives it over the
//! preprocessing layer over any source: it takes code points from the source as far as they are in sight, and shows and
//! passes them one by one. Proved here: whatever lies in the window and whatever is still in the source are one list, which
//! only `bump` shortens, and only by its first code point.
#![tactic(auto)]

mod ahead;
mod window;

pub use ahead::{Lookahead, Peek};
pub use window::Window;
