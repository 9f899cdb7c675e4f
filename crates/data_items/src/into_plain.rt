//! Texts, booleans and integers that are made into deserializers.
ghost use Rattle.std.specs.Prelude.{true, false, string_bytes};
ghost use Rattle.std.specs.Cow.{cow_str_bytes};
ghost use Rattle.data_core.specs.Source.{w8, w16, w32, w64, unsigned, signed};
ghost use Rattle.data_core.specs.Source as spec;
ghost use Rattle.data_items.specs.Plain.{plain_source};

use crate::into::IntoDeserializer;
use crate::plain_deserializer::PlainDeserializer;
use data_core::DeError;
use std::alloc::Global;
use std::borrow::CowStr;

impl<E: DeError> IntoDeserializer<E> for String {
    type Deserializer = PlainDeserializer<String, E>;

    ghost source = { λ s. plain_source true (spec.text (string_bytes s)) };

    fn into_deserializer(self, _alloc: Global) -> PlainDeserializer<String, E> {
        PlainDeserializer::new(self)
    }
}

impl<'a, E: DeError> IntoDeserializer<E> for &'a str {
    type Deserializer = PlainDeserializer<&'a str, E>;

    ghost source = { λ s. plain_source true (spec.text s.now) };

    fn into_deserializer(self, _alloc: Global) -> PlainDeserializer<&'a str, E> {
        PlainDeserializer::new(self)
    }
}

impl<'a, E: DeError> IntoDeserializer<E> for CowStr<'a> {
    type Deserializer = PlainDeserializer<CowStr<'a>, E>;

    ghost source = { λ s. plain_source true (spec.text (cow_str_bytes s)) };

    fn into_deserializer(self, _alloc: Global) -> PlainDeserializer<CowStr<'a>, E> {
        PlainDeserializer::new(self)
    }
}

impl<E: DeError> IntoDeserializer<E> for bool {
    type Deserializer = PlainDeserializer<bool, E>;

    ghost source = { λ b. plain_source false (spec.boolean b) };

    fn into_deserializer(self, _alloc: Global) -> PlainDeserializer<bool, E> {
        PlainDeserializer::new(self)
    }
}

impl<E: DeError> IntoDeserializer<E> for u8 {
    type Deserializer = PlainDeserializer<u8, E>;

    ghost source = { λ n. plain_source false (unsigned w8 n) };

    fn into_deserializer(self, _alloc: Global) -> PlainDeserializer<u8, E> {
        PlainDeserializer::new(self)
    }
}

impl<E: DeError> IntoDeserializer<E> for u16 {
    type Deserializer = PlainDeserializer<u16, E>;

    ghost source = { λ n. plain_source false (unsigned w16 n) };

    fn into_deserializer(self, _alloc: Global) -> PlainDeserializer<u16, E> {
        PlainDeserializer::new(self)
    }
}

impl<E: DeError> IntoDeserializer<E> for u32 {
    type Deserializer = PlainDeserializer<u32, E>;

    ghost source = { λ n. plain_source true (unsigned w32 n) };

    fn into_deserializer(self, _alloc: Global) -> PlainDeserializer<u32, E> {
        PlainDeserializer::new(self)
    }
}

impl<E: DeError> IntoDeserializer<E> for u64 {
    type Deserializer = PlainDeserializer<u64, E>;

    ghost source = { λ n. plain_source false (unsigned w64 n) };

    fn into_deserializer(self, _alloc: Global) -> PlainDeserializer<u64, E> {
        PlainDeserializer::new(self)
    }
}

impl<E: DeError> IntoDeserializer<E> for i8 {
    type Deserializer = PlainDeserializer<i8, E>;

    ghost source = { λ z. plain_source false (signed w8 z) };

    fn into_deserializer(self, _alloc: Global) -> PlainDeserializer<i8, E> {
        PlainDeserializer::new(self)
    }
}

impl<E: DeError> IntoDeserializer<E> for i16 {
    type Deserializer = PlainDeserializer<i16, E>;

    ghost source = { λ z. plain_source false (signed w16 z) };

    fn into_deserializer(self, _alloc: Global) -> PlainDeserializer<i16, E> {
        PlainDeserializer::new(self)
    }
}

impl<E: DeError> IntoDeserializer<E> for i32 {
    type Deserializer = PlainDeserializer<i32, E>;

    ghost source = { λ z. plain_source false (signed w32 z) };

    fn into_deserializer(self, _alloc: Global) -> PlainDeserializer<i32, E> {
        PlainDeserializer::new(self)
    }
}

impl<E: DeError> IntoDeserializer<E> for i64 {
    type Deserializer = PlainDeserializer<i64, E>;

    ghost source = { λ z. plain_source false (signed w64 z) };

    fn into_deserializer(self, _alloc: Global) -> PlainDeserializer<i64, E> {
        PlainDeserializer::new(self)
    }
}
