//! A text that is shown, or a variant of that name.

use crate::checks::{Text, answer, refusal, says, text};
use data_core::{Deserializer, Hint, Names, Scalar, Shown, Track, unit_variant};
use data_items::{Error, IntoDeserializer, UnitOnly};
use data_std::variant;
use std::alloc::{AllocError, Global};
use std::test::Fail;

// What the text `on` shows, in words.
fn shown(alloc: Global, hint: Hint<'_>) -> Result<String, AllocError> {
    match text(alloc, "on")?.show(hint) {
        Ok(Shown::Scalar(Scalar::Text(text))) => format!(in alloc; "text {text}"),
        Ok(Shown::Enum(name, _variant)) => format!(in alloc; "variant {}", name_of(alloc, name)?),
        _ => String::from_str(alloc, "neither a text nor a variant"),
    }
}

// The text of a name.
fn name_of(alloc: Global, name: Text) -> Result<String, AllocError> {
    match name.show(Hint::Identifier) {
        Ok(Shown::Scalar(Scalar::Text(text))) => Ok(text),
        _ => String::from_str(alloc, "no name"),
    }
}

// What is shown of a text that is made into a deserializer.
fn made(alloc: Global, text: &str) -> Result<String, AllocError> {
    let text = String::from_str(alloc, text)?;
    let d: Text = IntoDeserializer::<Error>::into_deserializer(text, alloc);
    name_of(alloc, d)
}

// What is read of the name of a variant.
fn read_name(alloc: Global, name: &str) -> Result<String, AllocError> {
    let name = text(alloc, name)?;
    let mut track = Track::new(alloc);
    answer(
        alloc,
        variant::<Text, char>(alloc, &mut UnitOnly::new(), name, &mut track),
    )
}

#[test]
fn a_text_where_none_hopes_for_an_enum(rt: HostRuntime) -> Result<(), Fail> {
    let hints = [
        Hint::Any,
        Hint::Bool,
        Hint::String,
        Hint::Bytes,
        Hint::Option,
        Hint::NewtypeStruct("Switch"),
        Hint::Seq,
        Hint::Map,
        Hint::Identifier,
        Hint::IgnoredAny,
    ];
    for hint in hints {
        says(&rt, shown(rt.alloc(), hint), "text on")?;
    }
    Ok(())
}

#[test]
fn a_variant_of_that_name(rt: HostRuntime) -> Result<(), Fail> {
    let alloc = rt.alloc();
    let names = Names::new(alloc);
    says(
        &rt,
        shown(alloc, Hint::Enum("Switch", &names)),
        "variant on",
    )
}

#[test]
fn a_text_is_made_into_a_deserializer(rt: HostRuntime) -> Result<(), Fail> {
    let alloc = rt.alloc();
    says(&rt, made(alloc, "on"), "on")
}

#[test]
fn the_name_and_the_end_of_a_variant(rt: HostRuntime) -> Result<(), Fail> {
    let alloc = rt.alloc();
    let mut track = Track::new(alloc);
    assert!(rt; unit_variant::<Text>(alloc, &mut UnitOnly::new(), &mut track).is_ok());
    says(&rt, read_name(alloc, "a"), "'a'")
}

#[test]
fn a_variant_of_no_payload(rt: HostRuntime) -> Result<(), Fail> {
    let alloc = rt.alloc();
    let newtype = Text::newtype_variant(alloc, &mut UnitOnly::new());
    let want = "invalid type: unit variant, expected newtype variant";
    says(&rt, refusal(alloc, newtype), want)?;
    let tuple = Text::tuple_variant(alloc, &mut UnitOnly::new(), 1);
    let want = "invalid type: unit variant, expected tuple variant";
    says(&rt, refusal(alloc, tuple), want)?;
    let fields = Text::struct_variant(alloc, &mut UnitOnly::new(), &Names::new(alloc));
    let want = "invalid type: unit variant, expected struct variant";
    says(&rt, refusal(alloc, fields), want)
}

#[test]
fn the_end_of_a_variant_is_taken_once(rt: HostRuntime) -> Result<(), Fail> {
    let alloc = rt.alloc();
    let mut variant = UnitOnly::new();
    assert!(rt; Text::unit_variant(alloc, &mut variant).is_ok());
    let again = Text::unit_variant(alloc, &mut variant);
    says(&rt, refusal(alloc, again), "the payload was taken")
}

#[test]
fn texts_are_read_as_people_write_them(rt: HostRuntime) -> Result<(), Fail> {
    assert!(rt; text(rt.alloc(), "a")?.is_human_readable());
    Ok(())
}
