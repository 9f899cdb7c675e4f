//! Pairs in any order, made pairs by rising key.
ghost use Rattle.std.specs.Prelude.{◌≡◌, ◌+◌, ◌-◌, ◌≤◌, [], length, IsOk, OnOk, OnErr};
ghost use Rattle.std.specs.Bool.{MatchBool};
ghost use Rattle.std.specs.Ordering.{is_eq};
ghost use Rattle.sorted_pairs.specs.Pairs.{Rises, put_all};

use crate::counted::CountedOrd;
use crate::probe::Neighbours;
use crate::search::all_less;
use crate::steps::Steps;
use std::alloc::AllocError;
use std::mem;
use std::sync::ledger::Ledger;

/// What is left when each pair was put in turn, in n log n: of equal keys the first, with the last value.
/// Keys that rise already cost one pass, whose comparisons are counted. For want of memory, of more than
/// twenty pairs whose keys do not rise, nothing is changed.
pub fn sort_pairs<K: CountedOrd<L> + Drop, V: Drop, L: Ledger>(
    pairs: &mut Vec<(K, V)>,
    steps: &mut Steps<L>,
) -> Result<(), AllocError>
    ensures put { OnOk result (pairs.new.items ≡ put_all K.order [] pairs.old.items) }
    ensures unchanged { OnErr result (pairs.new.items ≡ pairs.old.items) }
    ensures risen { Rises K.order pairs.old.items → IsOk result }
    ensures few { length pairs.old.items ≤ 20 → IsOk result }
    ensures one_pass { Rises K.order pairs.old.items → (steps.old ≤ steps.new) × (steps.new ≤ steps.old + (length pairs.old.items - 1)) }
{
    if all_less(&Neighbours::new(pairs.as_slice()), steps) {
        return Ok(());
    }
    put_each(pairs, steps)
}

// The same, of keys that need not rise.
fn put_each<K: CountedOrd<L> + Drop, V: Drop, L: Ledger>(
    pairs: &mut Vec<(K, V)>,
    steps: &mut Steps<L>,
) -> Result<(), AllocError>
    ensures put { OnOk result (pairs.new.items ≡ put_all K.order [] pairs.old.items) }
    ensures unchanged { OnErr result (pairs.new.items ≡ pairs.old.items) }
    ensures few { length pairs.old.items ≤ 20 → IsOk result }
{
    pairs.sort_by(|a, b| a.0.compare_counted(&b.0, steps))?;
    pairs.dedup_by(
        |later: &mut (K, V), kept: &mut (K, V)| -> bool
            ensures tied { result ≡ is_eq (K.order later.old.0 kept.old.0) }
            ensures moved { MatchBool result (kept.new ≡ (kept.old.0, later.old.1)) ((later.new ≡ later.old) × (kept.new ≡ kept.old)) }
        {
            let tied = later.0.compare_counted(&kept.0, steps).is_eq();
            if tied {
                mem::swap(&mut later.1, &mut kept.1);
            }
            tied
        },
    );
    Ok(())
}
