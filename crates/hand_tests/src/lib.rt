//! Readers that are written by hand, over trees, as tests.
#![tactic(auto)]

#[cfg(test)]
mod enums;
#[cfg(test)]
mod events;
#[cfg(test)]
mod lenient;
#[cfg(test)]
mod newtypes;
#[cfg(test)]
mod second;
#[cfg(test)]
mod structs;
#[cfg(test)]
mod told;
#[cfg(test)]
mod trees;
#[cfg(test)]
mod types;
