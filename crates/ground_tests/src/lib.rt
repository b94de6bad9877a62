//! Examples of the layers below tokens, worked out by hand from the rules.
#![tactic(auto)]

#[cfg(test)]
mod decoding;
#[cfg(test)]
mod preprocessing;
#[cfg(test)]
mod sinking;
