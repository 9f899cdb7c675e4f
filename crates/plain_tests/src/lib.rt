//! Deserializers over texts, numbers and booleans that are at hand, as tests.
#![tactic(auto)]

#[cfg(test)]
mod checks;
#[cfg(test)]
mod plain;
#[cfg(test)]
mod strings;
