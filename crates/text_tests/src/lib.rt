//! Plain words, paths, tracks and errors, as tests.
#![tactic(auto)]

#[cfg(test)]
mod checks;
#[cfg(test)]
mod errors;
#[cfg(test)]
mod expected_names;
#[cfg(test)]
mod names;
#[cfg(test)]
mod path_errors;
#[cfg(test)]
mod paths;
#[cfg(test)]
mod places;
#[cfg(test)]
mod segments;
#[cfg(test)]
mod texts;
#[cfg(test)]
mod tracks;
#[cfg(test)]
mod words;
