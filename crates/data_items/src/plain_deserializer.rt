//! Deserializers over a text, a number or a boolean that is at hand.
ghost use Rattle.std.specs.Prelude.{◌≡◌, None, false, true, option_map};
ghost use Rattle.data_core.specs.Source.{end, no_entries};
ghost use Rattle.data_items.specs.Plain.{plain_source, unit_choice};

use crate::empty::{NoElements, NoEntries, UnitOnly};
use crate::plain::Plain;
use data_core::{DeError, Deserializer, Hint, Names, Shown, Track, Unexpected};
use std::alloc::Global;
use std::borrow::CowStr;
use std::marker::PhantomData;

/// A deserializer that shows its value as it is, and a text or a `u32`, to a reader that hopes for an
/// enum, as a variant of that name without a payload. Its errors are of the type `E`.
#[derive(Drop)]
pub struct PlainDeserializer<V: Plain, E: DeError> {
    value: V,
    error: PhantomData<E>,
}

/// A deserializer over a text that it owns.
pub type StringDeserializer<E> = PlainDeserializer<String, E>;

/// A deserializer over a text that is lent.
pub type StrDeserializer<'a, E> = PlainDeserializer<&'a str, E>;

/// A deserializer over a text that is lent or owned.
pub type CowStrDeserializer<'a, E> = PlainDeserializer<CowStr<'a>, E>;

pub type BoolDeserializer<E> = PlainDeserializer<bool, E>;

pub type U8Deserializer<E> = PlainDeserializer<u8, E>;

pub type U16Deserializer<E> = PlainDeserializer<u16, E>;

pub type U32Deserializer<E> = PlainDeserializer<u32, E>;

pub type U64Deserializer<E> = PlainDeserializer<u64, E>;

pub type I8Deserializer<E> = PlainDeserializer<i8, E>;

pub type I16Deserializer<E> = PlainDeserializer<i16, E>;

pub type I32Deserializer<E> = PlainDeserializer<i32, E>;

pub type I64Deserializer<E> = PlainDeserializer<i64, E>;

impl<V: Plain, E: DeError> PlainDeserializer<V, E> {
    /// A deserializer that stands for the value: `new` of serde's deserializer of its type. Takes no
    /// memory.
    pub fn new(value: V) -> PlainDeserializer<V, E>
        ensures { ⟦<PlainDeserializer<V, E> as Deserializer>⟧.source result ≡ plain_source V.names_variants (V.scalar value) }
    {
        PlainDeserializer {
            value,
            error: PhantomData,
        }
    }
}

// It shows no sequence and no map.
impl<V: Plain, E: DeError> Deserializer for PlainDeserializer<V, E> {
    type Error = E;

    type Text = V::Text;

    type Bytes = Vec<u8>;

    type Seq = NoElements;

    type Map = NoEntries<PlainDeserializer<V, E>>;

    type Variant = UnitOnly;

    ghost tracks = { false };

    ghost human_readable = { true };

    ghost source = { λ d. plain_source V.names_variants (V.scalar d.value) };

    ghost sequence = { λ _. record { left = end; taken = 0; checks = false; tells = true } };

    ghost table = { λ m. record {
      left = no_entries;
      taken = 0;
      waiting = option_map (λ d. plain_source V.names_variants (V.scalar d.value)) m.waiting;
      checks = false;
      tells = true;
    } };

    ghost choice = { λ v. unit_choice v.taken };

    ghost key_text = { λ _. None };

    ghost name_text = { λ _. None };

    fn is_human_readable(&self) -> bool {
        true
    }

    fn show(self, hint: Hint<'_>) -> Result<Shown<PlainDeserializer<V, E>>, E> {
        match hint {
            Hint::Enum(_, _) if V::names_a_variant() => Ok(Shown::Enum(self, UnitOnly::new())),
            _ => Ok(Shown::Scalar(self.value.into_scalar())),
        }
    }

    fn next_element(_seq: &mut NoElements) -> Result<Option<PlainDeserializer<V, E>>, E> {
        Ok(None)
    }

    fn leave_element(
        _seq: &mut NoElements,
        _before: bool,
        _failed: bool,
        _track: &mut Track,
    ) -> Result<(), E> {
        Ok(())
    }

    fn elements_taken(_seq: &NoElements) -> usize {
        0
    }

    fn elements_left(_seq: &NoElements) -> Option<usize> {
        Some(0)
    }

    fn end_seq(_alloc: Global, _seq: NoElements) -> Result<(), E> {
        Ok(())
    }

    fn next_key(
        map: &mut NoEntries<PlainDeserializer<V, E>>,
    ) -> Result<Option<PlainDeserializer<V, E>>, E> {
        map.waiting = None;
        Ok(None)
    }

    fn show_key(
        _map: &mut NoEntries<PlainDeserializer<V, E>>,
        key: PlainDeserializer<V, E>,
        hint: Hint<'_>,
    ) -> Result<Shown<PlainDeserializer<V, E>>, E> {
        key.show(hint)
    }

    fn leave_key(
        _map: &mut NoEntries<PlainDeserializer<V, E>>,
        _before: bool,
        _failed: bool,
        _track: &mut Track,
    ) -> Result<(), E> {
        Ok(())
    }

    fn next_value(
        map: &mut NoEntries<PlainDeserializer<V, E>>,
    ) -> Result<PlainDeserializer<V, E>, E> {
        Ok(map.waiting.take().unwrap())
    }

    fn leave_value(
        _map: &mut NoEntries<PlainDeserializer<V, E>>,
        _before: bool,
        _failed: bool,
        _track: &mut Track,
    ) -> Result<(), E> {
        Ok(())
    }

    fn entries_left(_map: &NoEntries<PlainDeserializer<V, E>>) -> Option<usize> {
        Some(0)
    }

    fn end_map(_alloc: Global, _map: NoEntries<PlainDeserializer<V, E>>) -> Result<(), E> {
        Ok(())
    }

    fn show_name(
        _variant: &mut UnitOnly,
        name: PlainDeserializer<V, E>,
        hint: Hint<'_>,
    ) -> Result<Shown<PlainDeserializer<V, E>>, E> {
        name.show(hint)
    }

    fn leave_name(
        _variant: &mut UnitOnly,
        _before: bool,
        _failed: bool,
        _track: &mut Track,
    ) -> Result<(), E> {
        Ok(())
    }

    fn unit_variant(alloc: Global, variant: &mut UnitOnly) -> Result<(), E> {
        variant.take(alloc)
    }

    fn newtype_variant(
        alloc: Global,
        variant: &mut UnitOnly,
    ) -> Result<PlainDeserializer<V, E>, E> {
        variant.take::<E>(alloc)?;
        Err(E::invalid_type(alloc, Unexpected::UnitVariant, "newtype variant"))
    }

    fn tuple_variant(alloc: Global, variant: &mut UnitOnly, _len: usize) -> Result<NoElements, E> {
        variant.take::<E>(alloc)?;
        Err(E::invalid_type(alloc, Unexpected::UnitVariant, "tuple variant"))
    }

    fn struct_variant(
        alloc: Global,
        variant: &mut UnitOnly,
        _fields: &Names,
    ) -> Result<NoEntries<PlainDeserializer<V, E>>, E> {
        variant.take::<E>(alloc)?;
        Err(E::invalid_type(alloc, Unexpected::UnitVariant, "struct variant"))
    }

    fn leave_payload(
        _variant: &mut UnitOnly,
        _before: bool,
        _failed: bool,
        _track: &mut Track,
    ) -> Result<(), E> {
        Ok(())
    }
}
