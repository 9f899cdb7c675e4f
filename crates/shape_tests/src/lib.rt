//! Shapes, the data that is read by them, and their reader, as tests.
#![tactic(auto)]

#[cfg(test)]
mod boxes;
#[cfg(test)]
mod depth;
#[cfg(test)]
mod expected;
#[cfg(test)]
mod fields;
#[cfg(test)]
mod hints;
#[cfg(test)]
mod maps;
#[cfg(test)]
mod order;
#[cfg(test)]
mod reading;
#[cfg(test)]
mod rising;
#[cfg(test)]
mod shapes;
#[cfg(test)]
mod told;
#[cfg(test)]
mod upgraded;
#[cfg(test)]
mod variants;
