//! Pairs by rising key: where a key is among them, with its comparisons counted, and pairs made so by one sort.
#![tactic(auto)]

mod counted;
mod probe;
mod search;
mod sorted;
mod steps;

pub use counted::CountedOrd;
pub use probe::{KeyProbe, Neighbours, Probe};
pub use search::{all_less, place, place_of_key};
pub use sorted::sort_pairs;
pub use steps::Steps;
