//! A struct that is read by hand.
ghost use Rattle.std.specs.Prelude.{◌≡◌, refl};
ghost use Rattle.data_core.specs.Reads.{Unsaid};
ghost use Rattle.data_core.specs.Tracking.{clear};
ghost use Rattle.data_core.specs.Ask as asks;

use crate::newtypes::Foo;
use crate::told::{refusal, says};
use crate::trees::{Tree, entry};
use data_core::{DeError, DeserializeSeed, Deserializer, Hint, Names, Shown, Text, Track, refused};
use data_std::next_entry;
use serde_path_to_error::deserialize_seed;
use serde_value::Value;
use std::alloc::{AllocError, Global};
use std::test::Fail;

// The reader of a struct of one field, foo, which is a Foo.
#[derive(Drop)]
struct StructSeed {
    names: Names,
}

impl DeserializeSeed for StructSeed {
    type Value = Foo;

    ghost use Rattle.std.specs.Prelude.{codes};

    ghost asks = { λ s. asks.struct (codes "S") s.names };

    // Nothing is said of it but that it passes refusals on.
    ghost reads = { λ _. Unsaid };

    ghost quiet = { Unit {0} };

    ghost placed = { Unit {0} };

    ghost leaves = { λ _ _ now. now ≡ clear };

    fn hint(&self) -> Hint<'_> {
        Hint::Struct("S", &self.names)
    }

    fn visit<D: Deserializer>(
        self,
        alloc: Global,
        shown: Shown<D>,
        track: &mut Track,
    ) -> Result<Foo, D::Error> {
        let Shown::Map(map) = shown else {
            return Err(refused(alloc, shown, "struct"));
        };
        let mut map = map;
        let mut foo = None;
        'pairs: for _ in 0..u64::MAX {
            let Some((name, value)) = next_entry::<D, String, Foo>(alloc, &mut map, track)? else {
                break;
            };
            if name.as_str() == "foo" {
                foo = Some(value);
            }
        }
        foo.ok_or(D::Error::missing_field(alloc, "foo"))
    }

    ghost passes_refusals = { λ _ _. (refl, λ _ h. h) };
}

fn seed(alloc: Global) -> Result<StructSeed, AllocError> {
    let mut names = Names::new(alloc);
    match names.push(Text::new(alloc, "foo")?) {
        Ok(()) => Ok(StructSeed { names }),
        Err(_) => Err(AllocError),
    }
}

// What is read of a map of one entry, as a text.
fn read_struct(alloc: Global, key: &str, value: Value) -> Result<String, AllocError> {
    let tree = Tree::new(alloc, entry(alloc, key, value)?);
    match deserialize_seed(alloc, tree, seed(alloc)?) {
        Ok(Foo(number)) => format!(in alloc; "{number}"),
        Err(error) => refusal(alloc, error),
    }
}

#[test]
fn a_struct_by_the_name_of_its_field(rt: HostRuntime) -> Result<(), Fail> {
    let alloc = rt.alloc();
    says(&rt, read_struct(alloc, "foo", Value::I32(5)), "5")?;
    says(
        &rt,
        read_struct(alloc, "foo", Value::Unit),
        "foo: InvalidType Unit",
    )?;
    says(
        &rt,
        read_struct(alloc, "bar", Value::I32(5)),
        ".: MissingField foo",
    )
}
