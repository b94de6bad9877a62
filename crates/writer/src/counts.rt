//! What finish answers.

/// The numbers of accepted tokens and of comments between them.
#[derive(Clone, Copy, PartialEq, Eq, PartialOrd, Ord, Hash, Default, Debug)]
pub struct Counts {
    pub tokens: usize,
    pub comments: usize,
}
