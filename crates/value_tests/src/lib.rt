//! Trees, their maps, their deserializer and its errors, as tests.
#![tactic(auto)]

#[cfg(test)]
mod boxes;
#[cfg(test)]
mod captured;
#[cfg(test)]
mod ends;
#[cfg(test)]
mod errors;
#[cfg(test)]
mod maps;
#[cfg(test)]
mod order;
#[cfg(test)]
mod payloads;
#[cfg(test)]
mod rising;
#[cfg(test)]
mod shown;
#[cfg(test)]
mod told;
#[cfg(test)]
mod trees;
#[cfg(test)]
mod unexpected;
