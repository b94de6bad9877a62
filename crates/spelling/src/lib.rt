//! How texts and tokens are spelled into any sink.
//!
//! One rule of escaping serves every place where a text stands. What goes out is pinned, for every text and token, to
//! the spelling of `syntax` in UTF-8: all of its bytes, or those before the first that the sink refuses.
#![tactic(auto)]

mod place;
mod text;
mod token;

pub use place::{Identifier, Loose, QuotedString, SpellingPlace, Url};
pub use text::emit_text;
pub use token::emit_token;
