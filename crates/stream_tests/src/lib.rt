//! Sources and sinks of bytes, as tests.
#![tactic(auto)]

#[cfg(test)]
mod adapters;
#[cfg(test)]
mod sinks;
#[cfg(test)]
mod sources;
