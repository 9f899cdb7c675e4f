//! Values that serde has a deserializer of their own for.
ghost use Rattle.std.specs.Prelude.{◌≡◌, Bool, true, false, string_bytes};
ghost use Rattle.std.specs.Cow.{cow_str_bytes};
ghost use Rattle.data_core.specs.Show.{scalar_view};
ghost use Rattle.data_core.specs.Source.{w8, w16, w32, w64, unsigned, signed};
ghost use Rattle.data_core.specs.Source as spec;

use data_core::{Scalar, TextLike};
use std::borrow::CowStr;

/// A text, a boolean or an integer, which is shown as itself.
pub trait Plain: Drop + Sized {
    /// The text that is shown of it, where it is one.
    type Text: TextLike;

    ghost scalar: { Self → spec.Scalar };

    // Whether it names a variant where an enum is hoped for.
    ghost names_variants: { Bool };

    /// Whether a value of this type names a variant where an enum is hoped for.
    fn names_a_variant() -> bool
        ensures { result ≡ names_variants };

    /// The value as it is shown. Takes no memory.
    fn into_scalar(self) -> Scalar<Self::Text, Vec<u8>>
        ensures { scalar_view Self.Text.text (λ b. b.items) result ≡ scalar self };
}

impl Plain for String {
    type Text = String;

    ghost scalar = { λ s. spec.text (string_bytes s) };

    ghost names_variants = { true };

    fn names_a_variant() -> bool {
        true
    }

    fn into_scalar(self) -> Scalar<String, Vec<u8>> {
        Scalar::Text(self)
    }
}

impl<'a> Plain for &'a str {
    type Text = &'a str;

    ghost scalar = { λ s. spec.text s.now };

    ghost names_variants = { true };

    fn names_a_variant() -> bool
        ensures { result ≡ true }
    {
        true
    }

    fn into_scalar(self) -> Scalar<&'a str, Vec<u8>> {
        Scalar::Text(self)
    }
}

impl<'a> Plain for CowStr<'a> {
    type Text = CowStr<'a>;

    ghost scalar = { λ s. spec.text (cow_str_bytes s) };

    ghost names_variants = { true };

    fn names_a_variant() -> bool
        ensures { result ≡ true }
    {
        true
    }

    fn into_scalar(self) -> Scalar<CowStr<'a>, Vec<u8>> {
        Scalar::Text(self)
    }
}

impl Plain for bool {
    type Text = String;

    ghost scalar = { λ b. spec.boolean b };

    ghost names_variants = { false };

    fn names_a_variant() -> bool {
        false
    }

    fn into_scalar(self) -> Scalar<String, Vec<u8>> {
        Scalar::Bool(self)
    }
}

impl Plain for u8 {
    type Text = String;

    ghost scalar = { λ n. unsigned w8 n };

    ghost names_variants = { false };

    fn names_a_variant() -> bool {
        false
    }

    fn into_scalar(self) -> Scalar<String, Vec<u8>> {
        Scalar::U8(self)
    }
}

impl Plain for u16 {
    type Text = String;

    ghost scalar = { λ n. unsigned w16 n };

    ghost names_variants = { false };

    fn names_a_variant() -> bool {
        false
    }

    fn into_scalar(self) -> Scalar<String, Vec<u8>> {
        Scalar::U16(self)
    }
}

impl Plain for u32 {
    type Text = String;

    ghost scalar = { λ n. unsigned w32 n };

    ghost names_variants = { true };

    fn names_a_variant() -> bool {
        true
    }

    fn into_scalar(self) -> Scalar<String, Vec<u8>> {
        Scalar::U32(self)
    }
}

impl Plain for u64 {
    type Text = String;

    ghost scalar = { λ n. unsigned w64 n };

    ghost names_variants = { false };

    fn names_a_variant() -> bool {
        false
    }

    fn into_scalar(self) -> Scalar<String, Vec<u8>> {
        Scalar::U64(self)
    }
}

impl Plain for i8 {
    type Text = String;

    ghost scalar = { λ z. signed w8 z };

    ghost names_variants = { false };

    fn names_a_variant() -> bool {
        false
    }

    fn into_scalar(self) -> Scalar<String, Vec<u8>> {
        Scalar::I8(self)
    }
}

impl Plain for i16 {
    type Text = String;

    ghost scalar = { λ z. signed w16 z };

    ghost names_variants = { false };

    fn names_a_variant() -> bool {
        false
    }

    fn into_scalar(self) -> Scalar<String, Vec<u8>> {
        Scalar::I16(self)
    }
}

impl Plain for i32 {
    type Text = String;

    ghost scalar = { λ z. signed w32 z };

    ghost names_variants = { false };

    fn names_a_variant() -> bool {
        false
    }

    fn into_scalar(self) -> Scalar<String, Vec<u8>> {
        Scalar::I32(self)
    }
}

impl Plain for i64 {
    type Text = String;

    ghost scalar = { λ z. signed w64 z };

    ghost names_variants = { false };

    fn names_a_variant() -> bool {
        false
    }

    fn into_scalar(self) -> Scalar<String, Vec<u8>> {
        Scalar::I64(self)
    }
}
