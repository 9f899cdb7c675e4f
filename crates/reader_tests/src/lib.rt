//! Readers of standard types, as tests: each over a sequence of texts, and over scalars that are shown.
//! The wanted values are those of serde's own readers, but for what they call expected.
#![tactic(auto)]

#[cfg(test)]
mod checks;
#[cfg(test)]
mod compound;
#[cfg(test)]
mod scalars;
#[cfg(test)]
mod signed;
#[cfg(test)]
mod told;
#[cfg(test)]
mod tuples;
#[cfg(test)]
mod unsigned;
#[cfg(test)]
mod wide;
