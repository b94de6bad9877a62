//! Examples of the reader, worked out by hand from the rules.
#![tactic(auto)]

#[cfg(test)]
mod asking;
#[cfg(test)]
mod ending;
#[cfg(test)]
mod small_buffers;
#[cfg(test)]
mod tokens;
