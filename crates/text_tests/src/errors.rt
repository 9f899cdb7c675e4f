//! The error of deserializers over values that are at hand.
ghost use Rattle.std.specs.Prelude.{◌≡◌, IfOk, string_bytes};
ghost use Rattle.data_items.specs.ErrorView.{error_text};

use crate::checks::says;
use data_core::{DeError, Fault, Unexpected};
use data_items::Error;
use std::alloc::{AllocError, Global};
use std::test::Fail;

// What a caller of `to_string` knows.
fn shown(alloc: Global, error: Error) -> Result<String, AllocError>
    ensures { IfOk result (λ s. string_bytes s ≡ error_text error) }
{
    error.to_string(alloc)
}

#[test]
fn says_what_was_seen(rt: HostRuntime) -> Result<(), Fail> {
    let alloc = rt.alloc();
    let of_type = Error::invalid_type(alloc, Unexpected::Bool(true), "a text");
    says(
        &rt,
        shown(alloc, of_type),
        "invalid type: boolean `true`, expected a text",
    )?;
    let of_value = Error::invalid_value(alloc, Unexpected::Str("x"), "a date");
    says(
        &rt,
        shown(alloc, of_value),
        "invalid value: string \"x\", expected a date",
    )?;
    let of_length = Error::invalid_length(alloc, 3, "a pair");
    says(
        &rt,
        shown(alloc, of_length),
        "invalid length 3, expected a pair",
    )
}

#[test]
fn says_which_field(rt: HostRuntime) -> Result<(), Fail> {
    let alloc = rt.alloc();
    let missing = Error::missing_field(alloc, "f");
    says(&rt, shown(alloc, missing), "missing field `f`")?;
    let duplicate = Error::duplicate_field(alloc, "f");
    says(&rt, shown(alloc, duplicate), "duplicate field `f`")
}

#[test]
fn says_what_a_reader_says(rt: HostRuntime) -> Result<(), Fail> {
    let alloc = rt.alloc();
    says(&rt, shown(alloc, Error::custom(alloc, "no")), "no")?;
    says(&rt, shown(alloc, Error::memory()), "out of memory")
}

#[test]
fn has_its_fault(rt: HostRuntime) {
    let error = Error::invalid_length(rt.alloc(), 3, "a pair");
    assert!(rt; matches!(error.into_fault(), Some(Fault::InvalidLength(3))));
    assert!(rt; Error::memory().into_fault().is_none());
}
