//! The reader of tokens, over the preprocessing layer over any source.
//!
//! `Reader::next_token` reads one token into cells lent by the caller, in one pass and without allocation. Its contract
//! (`specs/NextToken.antt`) is an equation for everything it touches: the answer, each cell, what is left of the
//! input, and what the reader does next. `readings_give_the_tokens` carries the theorem that calling it to the end
//! gives exactly the tokens of the source's preprocessed code points.
#![tactic(auto)]

mod answer;
mod answering;
mod first_three;
mod held;
mod names;
mod read;
mod reader;
mod texts;
mod theorems;
mod tokens;
mod viewing;

pub use answer::{Located, Next};
pub use reader::Reader;
pub use theorems::readings_give_the_tokens;
pub use viewing::view;
