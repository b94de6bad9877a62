//! What the tokens so far make a writer wait for.
#[derive(Clone, Copy, PartialEq, Eq, Debug)]
pub enum Waiting {
    Free,
    AfterBackslash,
    AfterUrl,
    AfterUrlWhitespace,
}
