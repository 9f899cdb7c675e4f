//! The words of faults, and of what was seen.

use crate::checks::says;
use data_core::{Unexpected, Word};
use std::test::Fail;

#[test]
fn spells_the_word(rt: HostRuntime) {
    let table = [
        (Word::Boolean, "boolean"),
        (Word::U64, "u64"),
        (Word::TupleStruct, "tuple struct"),
    ];
    for (word, want) in table {
        assert_eq!(rt; word.as_str(), want);
    }
}

#[test]
fn has_the_kind(rt: HostRuntime) {
    let table = [
        (Unexpected::Bool(true), "Bool"),
        (Unexpected::Unsigned(1), "Unsigned"),
        (Unexpected::Str("1"), "Str"),
        (Unexpected::NewtypeStruct, "NewtypeStruct"),
        (Unexpected::Other("i128"), "Other"),
    ];
    for (seen, want) in table {
        assert_eq!(rt; seen.kind().as_str(), want);
    }
}

#[test]
fn shows_what_was_seen(rt: HostRuntime) -> Result<(), Fail> {
    let table = [
        (Unexpected::Bool(false), "boolean `false`"),
        (Unexpected::Unsigned(7), "integer `7`"),
        (Unexpected::Signed(-7), "integer `-7`"),
        (Unexpected::Char('ß'), "character `ß`"),
        (Unexpected::Str("a\"b"), "string \"a\\\"b\""),
        (Unexpected::Bytes(&[1]), "byte array"),
        (Unexpected::Unit, "unit value"),
        (Unexpected::Option, "Option value"),
        (Unexpected::NewtypeStruct, "newtype struct"),
        (Unexpected::Seq, "sequence"),
        (Unexpected::Map, "map"),
        (Unexpected::Enum, "enum"),
        (Unexpected::UnitVariant, "unit variant"),
        (Unexpected::NewtypeVariant, "newtype variant"),
        (Unexpected::TupleVariant, "tuple variant"),
        (Unexpected::StructVariant, "struct variant"),
        (Unexpected::Other("u128"), "u128"),
    ];
    for (seen, want) in table {
        says(&rt, seen.to_string(rt.alloc()), want)?;
    }
    Ok(())
}
