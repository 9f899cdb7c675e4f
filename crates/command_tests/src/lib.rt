//! Tests of the command over streams that no row can hold: those that fail, come in pieces, are too long,
//! have a newline or are no text; and of words that no row can hold.
#![tactic(auto)]

#[cfg(test)]
mod endings;
#[cfg(test)]
mod faults;
#[cfg(test)]
mod lengths;
#[cfg(test)]
mod streams;
#[cfg(test)]
mod words;
