//! Texts, numbers and booleans at hand.

use crate::checks::{answer, says};
use data_core::{Deserializer, Hint, Names, Scalar, Shown, Track};
use data_items::{
    BoolDeserializer, CowStrDeserializer, Error, I64Deserializer, StrDeserializer, U8Deserializer,
    U32Deserializer,
};
use data_std::{Deserialize, deserialize};
use std::alloc::{AllocError, Global};
use std::borrow::CowStr;
use std::fmt;
use std::test::Fail;

// What is read of a deserializer.
fn read<T: Deserialize + fmt::Debug, D: Deserializer<Error = Error>>(
    alloc: Global,
    d: D,
) -> Result<String, AllocError> {
    let mut track = Track::new(alloc);
    answer::<T>(alloc, deserialize(alloc, d, &mut track))
}

#[test]
fn numbers_and_booleans(rt: HostRuntime) -> Result<(), Fail> {
    let alloc = rt.alloc();
    let number = U8Deserializer::<Error>::new(7);
    says(&rt, read::<u8, U8Deserializer<Error>>(alloc, number), "7")?;
    let negative = I64Deserializer::<Error>::new(-7);
    says(
        &rt,
        read::<i8, I64Deserializer<Error>>(alloc, negative),
        "-7",
    )?;
    let truth = BoolDeserializer::<Error>::new(true);
    says(
        &rt,
        read::<bool, BoolDeserializer<Error>>(alloc, truth),
        "true",
    )
}

// Whether a text that is lent is shown.
fn is_lent<'t>(d: StrDeserializer<'t, Error>, want: &str) -> bool {
    match d.show(Hint::Str) {
        Ok(Shown::Scalar(Scalar::Text(text))) => text == want,
        _ => false,
    }
}

// The same of one that may be lent.
fn may_be_lent<'t>(d: CowStrDeserializer<'t, Error>, want: &str) -> bool {
    match d.show(Hint::Str) {
        Ok(Shown::Scalar(Scalar::Text(text))) => text.as_str() == want,
        _ => false,
    }
}

#[test]
fn texts(rt: HostRuntime) {
    assert!(rt; is_lent(StrDeserializer::new("a"), "a"));
    assert!(rt; may_be_lent(CowStrDeserializer::new(CowStr::Borrowed("b")), "b"));
}

// Whether a number names a variant.
fn names_a_variant<D: Deserializer>(alloc: Global, d: D) -> bool {
    let names = Names::new(alloc);
    matches!(d.show(Hint::Enum("E", &names)), Ok(Shown::Enum(_, _)))
}

#[test]
fn a_u32_names_a_variant_and_no_other_number_does(rt: HostRuntime) {
    let alloc = rt.alloc();
    assert!(rt; names_a_variant(alloc, U32Deserializer::<Error>::new(1)));
    assert!(rt; !names_a_variant(alloc, U8Deserializer::<Error>::new(1)));
}
