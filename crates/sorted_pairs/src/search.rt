//! A search by halves, and a test of a whole row, over comparisons that are counted as they are made.
ghost use Rattle.std.specs.Prelude.{◌≡◌, ◌↔◌, ◌+◌, ◌-◌, ◌*◌, ◌^◌, ◌<◌, ◌≤◌, IsTrue, length, MatchResult};
ghost use Rattle.sorted_pairs.specs.Answers.{AllLess, Falls, greater, not_less};
ghost use Rattle.sorted_pairs.specs.Pairs.{Rises, below, up_to};

use crate::counted::CountedOrd;
use crate::probe::{KeyProbe, Probe};
use crate::steps::Steps;
use std::cmp::Ordering;
use std::sync::ledger::Ledger;

/// The place of the `Equal` among answers that fall, or as an error the place where it would stand.
#[tactic(auto, using(crate::proofs::Probes::halves))]
pub fn place<P: Probe<L>, L: Ledger>(probe: &P, steps: &mut Steps<L>) -> Result<usize, usize>
    requires { Falls (P.answers probe.now) }
    ensures within { MatchResult result (λ i. i < length (P.answers probe.now)) (λ i. i ≤ length (P.answers probe.now)) }
    ensures greater { MatchResult result (λ i. greater (P.answers probe.now) ≡ i) (λ i. greater (P.answers probe.now) ≡ i) }
    ensures not_less { MatchResult result (λ i. not_less (P.answers probe.now) ≡ i + 1) (λ i. not_less (P.answers probe.now) ≡ i) }
    ensures cost { 2 ^ (steps.new - steps.old) ≤ 2 * length (P.answers probe.now) + 1 }
    ensures never_falls { steps.old ≤ steps.new }
{
    let mut low = 0;
    let mut high = probe.len();
    while low < high {
        let middle = low + (high - low) / 2;
        match probe.compare(middle, steps) {
            Ordering::Less => high = middle,
            Ordering::Equal => return Ok(middle),
            Ordering::Greater => low = middle + 1,
        }
    }
    Err(low)
}

/// Whether each comparison of a row answers `Less`: one pass, up to the first that does not.
pub fn all_less<P: Probe<L>, L: Ledger>(probe: &P, steps: &mut Steps<L>) -> bool
    ensures answer { IsTrue result ↔ AllLess (P.answers probe.now) }
    ensures cost { steps.new ≤ steps.old + length (P.answers probe.now) }
    ensures never_falls { steps.old ≤ steps.new }
{
    for i in 0..probe.len() {
        match probe.compare(i, steps) {
            Ordering::Less => {}
            Ordering::Equal | Ordering::Greater => return false,
        }
    }
    true
}

/// The place of a key among pairs by rising key, or as an error the place where it would go.
#[tactic(auto, using(crate::proofs::Rows::keys))]
pub fn place_of_key<K: CountedOrd<L>, V, L: Ledger>(
    pairs: &[(K, V)],
    key: &K,
    steps: &mut Steps<L>,
) -> Result<usize, usize>
    requires { Rises K.order pairs.now }
    ensures within { MatchResult result (λ i. i < length pairs.now) (λ i. i ≤ length pairs.now) }
    ensures below { MatchResult result (λ i. below K.order key.now pairs.now ≡ i) (λ i. below K.order key.now pairs.now ≡ i) }
    ensures up_to { MatchResult result (λ i. up_to K.order key.now pairs.now ≡ i + 1) (λ i. up_to K.order key.now pairs.now ≡ i) }
    ensures cost { 2 ^ (steps.new - steps.old) ≤ 2 * length pairs.now + 1 }
    ensures never_falls { steps.old ≤ steps.new }
{
    place(&KeyProbe::new(pairs, key), steps)
}
