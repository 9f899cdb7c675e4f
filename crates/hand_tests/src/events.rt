//! A reader by hand that keeps a tree, and reads it once it knows as what.
ghost use Rattle.std.specs.Prelude.{◌≡◌, refl};
ghost use Rattle.data_core.specs.Reads.{Unsaid};
ghost use Rattle.data_core.specs.Tracking.{Keeps, clear};
ghost use Rattle.data_core.specs.Ask as asks;
ghost use Rattle.data_core.specs.Outcome.{Among};

use crate::told::{refusal, says};
use crate::trees::{Tree, entries as two_entries, text};
use data_core::{DeError, DeserializeSeed, Deserializer, Hint, Names, Shown, Text, Track, refused};
use data_std::next_entry;
use serde_path_to_error::deserialize_seed;
use serde_value::{Value, ValueDeserializer};
use std::alloc::{AllocError, Global};
use std::test::Fail;

#[derive(Drop)]
enum Event {
    Added(u32),
    Error(u8),
}

// The reader of an event: a map of its kind, a text, and of an object, which is read by the kind.
#[derive(Drop)]
struct EventSeed {
    fields: Names,
    kinds: Names,
}

impl EventSeed {
    // An object of a kind. What is read of the tree that is kept has a track of its own.
    fn event<E: DeError>(&self, alloc: Global, kind: &str, object: Value) -> Result<Event, E> {
        let d = ValueDeserializer::<E>::new(alloc, object);
        let mut track = Track::new(alloc);
        match kind {
            "ADDED" => Ok(Event::Added(data_std::deserialize(alloc, d, &mut track)?)),
            "ERROR" => Ok(Event::Error(data_std::deserialize(alloc, d, &mut track)?)),
            _ => Err(E::unknown_variant(alloc, kind, &self.kinds)),
        }
    }
}

// The entries of a map that are an event's: its kind and its object.
fn entries<D: Deserializer>(
    alloc: Global,
    map: &mut D::Map,
    track: &mut Track,
) -> Result<(Value, Value), D::Error>
    ensures reads { Among D.Error.fault (Unit {0}) D.tracks result (λ _. Unit {0}) track.old track.new }
    ensures keeps { Keeps D.Error.fault (Unit {0}) D.tracks result track.old track.new }
{
    let mut kind = Value::Unit;
    let mut object = Value::Unit;
    'pairs: for _ in 0..u64::MAX {
        let Some((name, value)) = next_entry::<D, String, Value>(alloc, map, track)? else {
            break;
        };
        match name.as_str() {
            "kind" => kind = value,
            "object" => object = value,
            _ => drop(value),
        }
    }
    Ok((kind, object))
}

impl DeserializeSeed for EventSeed {
    type Value = Event;

    ghost use Rattle.std.specs.Prelude.{codes};

    ghost asks = { λ s. asks.struct (codes "Event") s.fields };

    // Nothing is said of it but that it passes refusals on.
    ghost reads = { λ _. Unsaid };

    ghost quiet = { Unit {0} };

    ghost placed = { Unit {0} };

    ghost leaves = { λ _ _ now. now ≡ clear };

    fn hint(&self) -> Hint<'_> {
        Hint::Struct("Event", &self.fields)
    }

    fn visit<D: Deserializer>(
        self,
        alloc: Global,
        shown: Shown<D>,
        track: &mut Track,
    ) -> Result<Event, D::Error> {
        let Shown::Map(map) = shown else {
            return Err(refused(alloc, shown, "struct Event"));
        };
        let mut map = map;
        let (kind, object) = entries::<D>(alloc, &mut map, track)?;
        match kind {
            Value::String(kind) => self.event(alloc, kind.as_str(), object),
            _ => Err(D::Error::missing_field(alloc, "kind")),
        }
    }

    ghost passes_refusals = { λ _ _. (refl, λ _ h. h) };
}

fn two_names(alloc: Global, first: &str, second: &str) -> Result<Names, AllocError> {
    let mut names = Names::new(alloc);
    for name in [first, second] {
        if names.push(Text::new(alloc, name)?).is_err() {
            return Err(AllocError);
        }
    }
    Ok(names)
}

fn seed(alloc: Global) -> Result<EventSeed, AllocError> {
    Ok(EventSeed {
        fields: two_names(alloc, "kind", "object")?,
        kinds: two_names(alloc, "ADDED", "ERROR")?,
    })
}

fn tree(alloc: Global, kind: &str, object: Value) -> Result<Value, AllocError> {
    let kind = (text(alloc, "kind")?, text(alloc, kind)?);
    two_entries(alloc, kind, (text(alloc, "object")?, object))
}

// What is read of an event of a kind, as a text.
fn read_event(alloc: Global, kind: &str, object: Value) -> Result<String, AllocError> {
    let tree = Tree::new(alloc, tree(alloc, kind, object)?);
    match deserialize_seed(alloc, tree, seed(alloc)?) {
        Ok(Event::Added(number)) => format!(in alloc; "added {number}"),
        Ok(Event::Error(number)) => format!(in alloc; "error {number}"),
        Err(error) => refusal(alloc, error),
    }
}

#[test]
fn an_object_is_read_by_its_kind(rt: HostRuntime) -> Result<(), Fail> {
    let alloc = rt.alloc();
    says(&rt, read_event(alloc, "ADDED", Value::U32(5)), "added 5")?;
    says(&rt, read_event(alloc, "ERROR", Value::U8(5)), "error 5")?;
    says(
        &rt,
        read_event(alloc, "ADDED", Value::Unit),
        ".: InvalidType Unit",
    )?;
    says(
        &rt,
        read_event(alloc, "GONE", Value::Unit),
        ".: UnknownVariant GONE",
    )
}
