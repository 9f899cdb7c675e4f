//! A reader by hand that goes on after refusals.
ghost use Rattle.std.specs.Prelude.{◌≡◌, None, IfErr, refl};
ghost use Rattle.data_core.specs.Reads.{Unsaid};
ghost use Rattle.data_core.specs.Tracking.{Stays};
ghost use Rattle.data_core.specs.Ask as asks;

use crate::told::{refusal, says};
use crate::trees::{Tree, pair};
use data_core::{DeError, DeserializeSeed, Deserializer, Hint, Shown, Track, refused};
use serde_path_to_error::deserialize_seed;
use serde_value::Value;
use std::alloc::{AllocError, Global};
use std::test::Fail;

// What goes through a sequence of numbers, drops each refusal, and at the end refuses the whole. It
// is its own reader.
#[derive(Drop)]
struct Lenient;

// Goes over one element, and drops its refusal. Tells whether there was one.
fn pass_over<D: Deserializer>(
    alloc: Global,
    seq: &mut D::Seq,
    track: &mut Track,
) -> Result<bool, D::Error>
    ensures memory { IfErr result (λ e. D.Error.fault e ≡ None) }
    ensures stays { Stays track.old track.new }
{
    let Some(element) = D::next_element(seq)? else {
        return Ok(false);
    };
    let before = track.holds();
    let read = data_std::deserialize::<u8, D>(alloc, element, track);
    D::leave_element(seq, before, read.is_err(), track)?;
    Ok(true)
}

// The same of each element that is left.
#[tactic(auto, using(crate::proofs::Steps::stays_then))]
fn pass_over_all<D: Deserializer>(
    alloc: Global,
    seq: &mut D::Seq,
    track: &mut Track,
) -> Result<(), D::Error>
    ensures memory { IfErr result (λ e. D.Error.fault e ≡ None) }
    ensures stays { Stays track.old track.new }
{
    'elements: for _ in 0..u64::MAX {
        if !pass_over::<D>(alloc, seq, track)? {
            break;
        }
    }
    Ok(())
}

impl DeserializeSeed for Lenient {
    type Value = Lenient;

    ghost asks = { λ _. asks.seq };

    // Nothing is said of it but that it passes refusals on.
    ghost reads = { λ _. Unsaid };

    ghost quiet = { ⊥ };

    ghost placed = { Unit {0} };

    ghost leaves = { λ _ _ _. ⊥ };

    fn hint(&self) -> Hint<'_> {
        Hint::Seq
    }

    fn visit<D: Deserializer>(
        self,
        alloc: Global,
        shown: Shown<D>,
        track: &mut Track,
    ) -> Result<Lenient, D::Error> {
        let Shown::Seq(seq) = shown else {
            return Err(refused(alloc, shown, "seq"));
        };
        let mut seq = seq;
        pass_over_all::<D>(alloc, &mut seq, track)?;
        if track.is_marked() {
            return Err(D::Error::memory());
        }
        Err(D::Error::custom(alloc, "read to the end"))
    }

    ghost passes_refusals = { λ _ _. (refl, λ _ h. h) };
}

// What is told of a pair.
fn read_pair(alloc: Global, first: Value, second: Value) -> Result<String, AllocError> {
    let tree = Tree::new(alloc, pair(alloc, first, second)?);
    match deserialize_seed(alloc, tree, Lenient) {
        Ok(Lenient) => String::from_str(alloc, "no refusal"),
        Err(error) => refusal(alloc, error),
    }
}

#[test]
fn the_path_of_the_first_refusal_is_kept(rt: HostRuntime) -> Result<(), Fail> {
    let alloc = rt.alloc();
    says(
        &rt,
        read_pair(alloc, Value::U8(0), Value::Unit),
        "[1]: Custom",
    )?;
    says(
        &rt,
        read_pair(alloc, Value::Unit, Value::Bool(true)),
        "[0]: Custom",
    )
}
