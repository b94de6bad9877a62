//! Examples of the writer at its limits, worked out by hand from the rules.
#![tactic(auto)]

#[cfg(test)]
mod limits;
#[cfg(test)]
mod orders;
#[cfg(test)]
mod sinks;
#[cfg(test)]
mod tokens;
