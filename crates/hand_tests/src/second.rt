//! A reader by hand that passes over the keys of a map and over its first value.
ghost use Rattle.std.specs.Prelude.{◌≡◌, refl};
ghost use Rattle.data_core.specs.Reads.{Unsaid};
ghost use Rattle.data_core.specs.Tracking.{Keeps, clear};
ghost use Rattle.data_core.specs.Ask as asks;
ghost use Rattle.data_core.specs.Outcome.{Among};

use crate::told::{refusal, says};
use crate::trees::{Tree, entries};
use data_core::{DeError, DeserializeSeed, Deserializer, Hint, Shown, Track, refused};
use data_std::{IgnoredAny, next_entry, next_key};
use serde_path_to_error::deserialize_seed;
use serde_value::Value;
use std::alloc::{AllocError, Global};
use std::test::Fail;

// The value of a map's second entry, a number. It is its own reader.
#[derive(Drop)]
struct Second(u8);

// The value of the entry that is next. A value that waits is passed over.
fn next_number<D: Deserializer>(
    alloc: Global,
    map: &mut D::Map,
    track: &mut Track,
) -> Result<Second, D::Error>
    ensures reads { Among D.Error.fault (Unit {0}) D.tracks result (λ _. Unit {0}) track.old track.new }
    ensures keeps { Keeps D.Error.fault (Unit {0}) D.tracks result track.old track.new }
{
    match next_entry::<D, IgnoredAny, u8>(alloc, map, track)? {
        Some((_, number)) => Ok(Second(number)),
        None => Err(D::Error::invalid_length(alloc, 1, "two entries")),
    }
}

impl DeserializeSeed for Second {
    type Value = Second;

    ghost asks = { λ _. asks.map };

    // Nothing is said of it but that it passes refusals on.
    ghost reads = { λ _. Unsaid };

    ghost quiet = { Unit {0} };

    ghost placed = { Unit {0} };

    ghost leaves = { λ _ _ now. now ≡ clear };

    fn hint(&self) -> Hint<'_> {
        Hint::Map
    }

    fn visit<D: Deserializer>(
        self,
        alloc: Global,
        shown: Shown<D>,
        track: &mut Track,
    ) -> Result<Second, D::Error> {
        let Shown::Map(map) = shown else {
            return Err(refused(alloc, shown, "map"));
        };
        let mut map = map;
        match next_key::<D, IgnoredAny>(alloc, &mut map, track)? {
            Some(IgnoredAny) => next_number::<D>(alloc, &mut map, track),
            None => Err(D::Error::invalid_length(alloc, 0, "two entries")),
        }
    }

    ghost passes_refusals = { λ _ _. (refl, λ _ h. h) };
}

// What is read of a map of 1 to a unit, and of x to this value.
fn read_second(alloc: Global, value: Value) -> Result<String, AllocError> {
    let first = (Value::U8(1), Value::Unit);
    let tree = Tree::new(alloc, entries(alloc, first, (Value::Char('x'), value))?);
    match deserialize_seed(alloc, tree, Second(0)) {
        Ok(Second(number)) => format!(in alloc; "{number}"),
        Err(error) => refusal(alloc, error),
    }
}

#[test]
fn the_second_value_alone_is_read(rt: HostRuntime) -> Result<(), Fail> {
    let alloc = rt.alloc();
    says(&rt, read_second(alloc, Value::U8(7)), "7")?;
    says(
        &rt,
        read_second(alloc, Value::Bool(true)),
        "?: InvalidType Bool",
    )
}
