//! Enums that are read by hand.
ghost use Rattle.std.specs.Prelude.{◌≡◌, refl};
ghost use Rattle.data_core.specs.Reads.{Unsaid};
ghost use Rattle.data_core.specs.Tracking.{Keeps, clear};
ghost use Rattle.data_core.specs.Ask as asks;
ghost use Rattle.data_core.specs.Outcome.{Among};

use crate::told::{refusal, says};
use crate::trees::{Tree, entry, pair, text};
use data_core::{
    DeError, DeserializeSeed, Deserializer, Hint, Names, Shown, Text, Track, refused,
    tuple_variant, unit_variant,
};
use data_std::{newtype_variant, variant};
use serde_path_to_error::deserialize_seed;
use serde_value::Value;
use std::alloc::{AllocError, Global};
use std::test::Fail;

#[derive(Drop)]
enum Foo {
    Bar,
    Baz(u8),
    // A tuple of two, whose elements are passed over.
    Corge,
}

// The reader of a Foo.
#[derive(Drop)]
struct FooSeed {
    variants: Names,
}

// The payload of the variant of a name.
fn payload<D: Deserializer>(
    alloc: Global,
    variants: &Names,
    name: &str,
    chosen: &mut D::Variant,
    track: &mut Track,
) -> Result<Foo, D::Error>
    ensures reads { Among D.Error.fault (Unit {0}) D.tracks result (λ _. Unit {0}) track.old track.new }
    ensures keeps { Keeps D.Error.fault (Unit {0}) D.tracks result track.old track.new }
{
    match name {
        "Bar" => {
            no_payload::<D>(alloc, chosen, track)?;
            Ok(Foo::Bar)
        }
        "Baz" => Ok(Foo::Baz(number::<D>(alloc, chosen, track)?)),
        "Corge" => {
            no_elements::<D>(alloc, chosen, track)?;
            Ok(Foo::Corge)
        }
        other => Err(D::Error::unknown_variant(alloc, other, variants)),
    }
}

fn no_payload<D: Deserializer>(
    alloc: Global,
    chosen: &mut D::Variant,
    track: &mut Track,
) -> Result<(), D::Error>
    ensures reads { Among D.Error.fault (Unit {0}) D.tracks result (λ _. Unit {0}) track.old track.new }
    ensures keeps { Keeps D.Error.fault (Unit {0}) D.tracks result track.old track.new }
{
    unit_variant::<D>(alloc, chosen, track)
}

fn number<D: Deserializer>(
    alloc: Global,
    chosen: &mut D::Variant,
    track: &mut Track,
) -> Result<u8, D::Error>
    ensures reads { Among D.Error.fault (Unit {0}) D.tracks result (λ _. Unit {0}) track.old track.new }
    ensures keeps { Keeps D.Error.fault (Unit {0}) D.tracks result track.old track.new }
{
    newtype_variant::<D, u8>(alloc, chosen, track)
}

fn no_elements<D: Deserializer>(
    alloc: Global,
    chosen: &mut D::Variant,
    track: &mut Track,
) -> Result<NoElements, D::Error>
    ensures reads { Among D.Error.fault (Unit {0}) D.tracks result (λ _. Unit {0}) track.old track.new }
    ensures keeps { Keeps D.Error.fault (Unit {0}) D.tracks result track.old track.new }
{
    tuple_variant::<D, NoElements>(alloc, chosen, 2, NoElements, track)
}

impl DeserializeSeed for FooSeed {
    type Value = Foo;

    ghost use Rattle.std.specs.Prelude.{codes};

    ghost asks = { λ s. asks.enum (codes "Foo") s.variants };

    // Nothing is said of it but that it passes refusals on.
    ghost reads = { λ _. Unsaid };

    ghost quiet = { Unit {0} };

    ghost placed = { Unit {0} };

    ghost leaves = { λ _ _ now. now ≡ clear };

    fn hint(&self) -> Hint<'_> {
        Hint::Enum("Foo", &self.variants)
    }

    fn visit<D: Deserializer>(
        self,
        alloc: Global,
        shown: Shown<D>,
        track: &mut Track,
    ) -> Result<Foo, D::Error> {
        let Shown::Enum(name, chosen) = shown else {
            return Err(refused(alloc, shown, "enum Foo"));
        };
        let mut chosen = chosen;
        let name = variant::<D, String>(alloc, &mut chosen, name, track)?;
        payload::<D>(alloc, &self.variants, name.as_str(), &mut chosen, track)
    }

    ghost passes_refusals = { λ _ _. (refl, λ _ h. h) };
}

// A reader of a tuple that takes none of its elements. It is its own reader.
#[derive(Drop)]
struct NoElements;

impl DeserializeSeed for NoElements {
    type Value = NoElements;

    ghost asks = { λ _. asks.tuple 2 };

    // Nothing is said of it but that it passes refusals on.
    ghost reads = { λ _. Unsaid };

    ghost quiet = { Unit {0} };

    ghost placed = { Unit {0} };

    ghost leaves = { λ _ _ now. now ≡ clear };

    fn hint(&self) -> Hint<'_> {
        Hint::Tuple(2)
    }

    fn visit<D: Deserializer>(
        self,
        alloc: Global,
        shown: Shown<D>,
        _track: &mut Track,
    ) -> Result<NoElements, D::Error> {
        let Shown::Seq(seq) = shown else {
            return Err(refused(alloc, shown, "tuple"));
        };
        D::end_seq(alloc, seq)?;
        Ok(NoElements)
    }

    ghost passes_refusals = { λ _ _. (refl, λ _ h. h) };
}

fn seed(alloc: Global) -> Result<FooSeed, AllocError> {
    let mut variants = Names::new(alloc);
    for name in ["Bar", "Baz", "Corge"] {
        if variants.push(Text::new(alloc, name)?).is_err() {
            return Err(AllocError);
        }
    }
    Ok(FooSeed { variants })
}

// What is read of a tree, as a text.
fn read_foo(alloc: Global, tree: Value) -> Result<String, AllocError> {
    match deserialize_seed(alloc, Tree::new(alloc, tree), seed(alloc)?) {
        Ok(Foo::Bar) => String::from_str(alloc, "Bar"),
        Ok(Foo::Baz(number)) => format!(in alloc; "Baz {number}"),
        Ok(Foo::Corge) => String::from_str(alloc, "Corge"),
        Err(error) => refusal(alloc, error),
    }
}

// The same of a name alone.
fn named(alloc: Global, name: &str) -> Result<String, AllocError> {
    read_foo(alloc, text(alloc, name)?)
}

// The same of a name with a payload.
fn with_payload(alloc: Global, name: &str, payload: Value) -> Result<String, AllocError> {
    read_foo(alloc, entry(alloc, name, payload)?)
}

#[test]
fn variants_with_and_without_a_payload(rt: HostRuntime) -> Result<(), Fail> {
    let alloc = rt.alloc();
    says(&rt, named(alloc, "Bar"), "Bar")?;
    says(&rt, with_payload(alloc, "Baz", Value::U8(1)), "Baz 1")
}

#[test]
fn a_payload_is_refused_at_its_variant(rt: HostRuntime) -> Result<(), Fail> {
    let alloc = rt.alloc();
    says(
        &rt,
        with_payload(alloc, "Baz", Value::Unit),
        "Baz: InvalidType Unit",
    )?;
    says(&rt, named(alloc, "Baz"), "Baz: InvalidType UnitVariant")
}

#[test]
fn a_name_is_refused_at_the_enum(rt: HostRuntime) -> Result<(), Fail> {
    let want = ".: UnknownVariant Quux";
    says(&rt, named(rt.alloc(), "Quux"), want)
}

#[test]
fn no_element_of_a_tuple_variant_of_two(rt: HostRuntime) -> Result<(), Fail> {
    let alloc = rt.alloc();
    let two = pair(alloc, Value::U8(1), Value::U8(2))?;
    says(
        &rt,
        with_payload(alloc, "Corge", two),
        "Corge: InvalidLength 2",
    )
}
