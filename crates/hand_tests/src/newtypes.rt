//! A newtype that is read by hand.
ghost use Rattle.std.specs.Prelude.{◌≡◌, refl};
ghost use Rattle.data_core.specs.Reads.{Unsaid};
ghost use Rattle.data_core.specs.Tracking.{clear};
ghost use Rattle.data_core.specs.Ask as asks;

use crate::told::{refusal, says};
use crate::trees::Tree;
use data_core::{DeserializeSeed, Deserializer, Hint, Shown, Track, refused};
use data_std::Deserialize;
use serde_path_to_error::deserialize;
use serde_value::Value;
use std::alloc::{AllocError, Global};
use std::test::Fail;

/// A newtype around a number. It is its own reader.
#[derive(Drop)]
pub struct Foo(pub i32);

impl DeserializeSeed for Foo {
    type Value = Foo;

    ghost use Rattle.std.specs.Prelude.{codes};

    ghost asks = { λ _. asks.newtype_struct (codes "Foo") };

    // Nothing is said of it but that it passes refusals on.
    ghost reads = { λ _. Unsaid };

    ghost quiet = { Unit {0} };

    ghost placed = { Unit {0} };

    ghost leaves = { λ _ _ now. now ≡ clear };

    fn hint(&self) -> Hint<'_> {
        Hint::NewtypeStruct("Foo")
    }

    fn visit<D: Deserializer>(
        self,
        alloc: Global,
        shown: Shown<D>,
        track: &mut Track,
    ) -> Result<Foo, D::Error> {
        match shown {
            Shown::NewtypeStruct(inside) => {
                Ok(Foo(data_std::deserialize::<i32, D>(alloc, inside, track)?))
            }
            other => Err(refused(alloc, other, "newtype")),
        }
    }

    ghost passes_refusals = { λ _ _. (refl, λ _ h. h) };
}

impl Deserialize for Foo {
    type Seed = Foo;

    ghost use Rattle.std.specs.Prelude.{codes};

    ghost asks = { asks.newtype_struct (codes "Foo") };

    ghost reads = { Unsaid };

    ghost leaves = { λ _ now. now ≡ clear };

    fn seed(_alloc: Global) -> Result<Foo, AllocError> {
        Ok(Foo(0))
    }
}

// What is read of a tree, as a text.
fn read_foo(alloc: Global, tree: Value) -> Result<String, AllocError> {
    match deserialize::<Tree, Foo>(alloc, Tree::new(alloc, tree)) {
        Ok(Foo(number)) => format!(in alloc; "{number}"),
        Err(error) => refusal(alloc, error),
    }
}

#[test]
fn a_newtype_is_read_of_any_tree(rt: HostRuntime) -> Result<(), Fail> {
    let alloc = rt.alloc();
    says(&rt, read_foo(alloc, Value::I32(5)), "5")?;
    says(&rt, read_foo(alloc, Value::Unit), ".: InvalidType Unit")
}
