//! Deserializers over items and pairs that are at hand, as tests.
#![tactic(auto)]

#[cfg(test)]
mod checks;
#[cfg(test)]
mod elements;
#[cfg(test)]
mod entries;
#[cfg(test)]
mod ignored;
#[cfg(test)]
mod maps;
#[cfg(test)]
mod parts;
