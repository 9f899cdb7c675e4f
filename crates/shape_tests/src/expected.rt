//! What the reader of a shape makes of a scalar, and what it says that it expected.

use crate::shapes::{map, newtype, newtype_variant, one, option, seq};
use crate::told::says;
use data_core::{Scalar, Shown, Text, Track};
use data_items::Error;
use serde_value::ValueDeserializer;
use shape::{Data, Fields, Shape};
use shape_read::visit;
use std::alloc::{AllocError, Global};
use std::test::Fail;

// What a shape makes of a scalar, as a text.
fn visited(
    alloc: Global,
    shape: Shape,
    scalar: Scalar<String, Vec<u8>>,
) -> Result<String, AllocError> {
    let mut track = Track::new(alloc);
    let shown: Shown<ValueDeserializer<Error>> = Shown::Scalar(scalar);
    match visit(alloc, &shape, shown, &mut track) {
        Ok(Data::Unsigned(number)) => format!(in alloc; "{number}"),
        Ok(_) => String::from_str(alloc, "other data"),
        Err(error) => error.to_string(alloc),
    }
}

// What a shape says of an option that is none.
fn refused(alloc: Global, shape: Shape) -> Result<String, AllocError> {
    visited(alloc, shape, Scalar::None)
}

#[test]
fn a_number_is_visited(rt: HostRuntime) -> Result<(), Fail> {
    let alloc = rt.alloc();
    says(&rt, visited(alloc, Shape::U64, Scalar::U8(7)), "7")?;
    says(
        &rt,
        visited(alloc, Shape::U64, Scalar::U128(1)),
        "invalid type: u128, expected u64",
    )?;
    says(
        &rt,
        visited(alloc, Shape::I64, Scalar::I128(-1)),
        "invalid type: i128, expected i64",
    )?;
    says(
        &rt,
        visited(alloc, Shape::U8, Scalar::U16(256)),
        "invalid value: integer `256`, expected u8",
    )
}

#[test]
fn integers_say_what_they_expected(rt: HostRuntime) -> Result<(), Fail> {
    let alloc = rt.alloc();
    let want = "invalid type: Option value, expected u8";
    says(&rt, refused(alloc, Shape::U8), want)?;
    let want = "invalid type: Option value, expected u16";
    says(&rt, refused(alloc, Shape::U16), want)?;
    let want = "invalid type: Option value, expected u32";
    says(&rt, refused(alloc, Shape::U32), want)?;
    let want = "invalid type: Option value, expected i8";
    says(&rt, refused(alloc, Shape::I8), want)?;
    let want = "invalid type: Option value, expected i16";
    says(&rt, refused(alloc, Shape::I16), want)?;
    let want = "invalid type: Option value, expected i32";
    says(&rt, refused(alloc, Shape::I32), want)
}

#[test]
fn scalars_say_what_they_expected(rt: HostRuntime) -> Result<(), Fail> {
    let alloc = rt.alloc();
    let want = "invalid type: Option value, expected bool";
    says(&rt, refused(alloc, Shape::Bool), want)?;
    let want = "invalid type: Option value, expected char";
    says(&rt, refused(alloc, Shape::Char), want)?;
    let want = "invalid type: Option value, expected text";
    says(&rt, refused(alloc, Shape::Text), want)?;
    let want = "invalid type: Option value, expected bytes";
    says(&rt, refused(alloc, Shape::Bytes), want)?;
    let want = "invalid type: Option value, expected unit";
    says(&rt, refused(alloc, Shape::Unit), want)?;
    let marker = Shape::UnitStruct(Text::new(alloc, "Marker")?);
    let want = "invalid type: Option value, expected unit struct";
    says(&rt, refused(alloc, marker), want)
}

#[test]
fn parts_say_what_they_expected(rt: HostRuntime) -> Result<(), Fail> {
    let alloc = rt.alloc();
    let want = "invalid type: unit value, expected seq";
    says(
        &rt,
        visited(alloc, seq(alloc, Shape::U8)?, Scalar::Unit),
        want,
    )?;
    let want = "invalid type: unit value, expected tuple";
    says(
        &rt,
        visited(alloc, Shape::Tuple(one(alloc)?), Scalar::Unit),
        want,
    )?;
    let want = "invalid type: unit value, expected tuple";
    says(
        &rt,
        visited(alloc, Shape::Prefix(one(alloc)?), Scalar::Unit),
        want,
    )?;
    let want = "invalid type: unit value, expected map";
    says(&rt, visited(alloc, map(alloc)?, Scalar::Unit), want)?;
    let want = "invalid type: integer `1`, expected option";
    says(
        &rt,
        visited(alloc, option(alloc, Shape::U8)?, Scalar::U8(1)),
        want,
    )?;
    let want = "invalid type: integer `1`, expected newtype struct";
    says(
        &rt,
        visited(alloc, newtype(alloc, Shape::U8)?, Scalar::U8(1)),
        want,
    )
}

#[test]
fn named_shapes_say_what_they_expected(rt: HostRuntime) -> Result<(), Fail> {
    let alloc = rt.alloc();
    let point = Shape::TupleStruct(Text::new(alloc, "P")?, one(alloc)?);
    let want = "invalid type: Option value, expected tuple struct";
    says(&rt, refused(alloc, point), want)?;
    let fields = Shape::Struct(Text::new(alloc, "P")?, Fields::new(alloc));
    let want = "invalid type: Option value, expected struct";
    says(&rt, refused(alloc, fields), want)?;
    let variants = Shape::Enum(Text::new(alloc, "C")?, newtype_variant(alloc)?);
    let want = "invalid type: Option value, expected enum";
    says(&rt, refused(alloc, variants), want)
}
