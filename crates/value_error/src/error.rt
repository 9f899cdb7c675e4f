//! The error of reading a tree.
ghost use Rattle.std.specs.Prelude.{◌≡◌, None};
ghost use Rattle.data_core.specs.Fault.{IsCalled};
ghost use Rattle.data_core.specs.Unexpected.{IsSeenAs, kind_of, seen_of};
ghost use Rattle.value_error.specs.ErrorView.{fault_of, saw_of, SameFault, SameSight};
ghost use Rattle.value_error.specs.ErrorText.{shown_text};
ghost use Rattle.value_error.specs.OfItems.{of_items};
ghost use Rattle.value_error.specs.Report.{Reports};
ghost use Rattle.value_error.specs.Report as report;

use crate::unexpected::Unexpected;
use data_core::{DeError, Fault, Names, Text};
use std::alloc::Global;
use std::fmt;

/// Why a tree was not read: serde_value's `DeserializerError`. `Memory` stands for want of memory,
/// and carries no claim on the tree.
#[derive(Drop)]
pub enum DeserializerError {
    Custom(Text),
    InvalidType(Unexpected, Text),
    InvalidValue(Unexpected, Text),
    InvalidLength(usize, Text),
    UnknownVariant(Text, Names),
    UnknownField(Text, Names),
    MissingField(Text),
    DuplicateField(Text),
    Memory,
}

impl DeserializerError {
    /// The same error in another error type: serde_value's `to_error`, except that a duplicate field
    /// stays one.
    pub fn to_error<E: DeError>(&self, alloc: Global) -> E
        ensures fault { SameFault (E.fault result) (fault_of self.now) }
        ensures sees { SameSight (E.saw result) (saw_of self.now) }
        ensures memory { fault_of self.now ≡ None → E.fault result ≡ None }
    {
        match self {
            DeserializerError::Custom(msg) => E::custom(alloc, msg.as_str()),
            DeserializerError::InvalidType(unexp, exp) => {
                E::invalid_type(alloc, unexp.to_unexpected(), exp.as_str())
            }
            DeserializerError::InvalidValue(unexp, exp) => {
                E::invalid_value(alloc, unexp.to_unexpected(), exp.as_str())
            }
            DeserializerError::InvalidLength(len, exp) => {
                E::invalid_length(alloc, *len, exp.as_str())
            }
            DeserializerError::UnknownVariant(variant, expected) => {
                E::unknown_variant(alloc, variant.as_str(), expected)
            }
            DeserializerError::UnknownField(field, expected) => {
                E::unknown_field(alloc, field.as_str(), expected)
            }
            DeserializerError::MissingField(field) => E::missing_field(alloc, field.as_str()),
            DeserializerError::DuplicateField(field) => E::duplicate_field(alloc, field.as_str()),
            DeserializerError::Memory => E::memory(),
        }
    }

    /// The same of an error that is moved: serde_value's `into_error`.
    pub fn into_error<E: DeError>(self, alloc: Global) -> E
        ensures fault { SameFault (E.fault result) (fault_of self) }
        ensures sees { SameSight (E.saw result) (saw_of self) }
        ensures memory { fault_of self ≡ None → E.fault result ≡ None }
    {
        self.to_error(alloc)
    }
}

impl DeError for DeserializerError {
    ghost fault = { fault_of };

    ghost saw = { saw_of };

    fn memory() -> DeserializerError {
        DeserializerError::Memory
    }

    fn custom(alloc: Global, msg: &str) -> DeserializerError
        ensures fault { IsCalled (fault_of result) Fault.Custom }
        ensures report { Reports result (report.custom msg.now) }
    {
        match Text::new(alloc, msg) {
            Ok(msg) => DeserializerError::Custom(msg),
            Err(_) => DeserializerError::Memory,
        }
    }

    fn invalid_type(alloc: Global, unexp: data_core::Unexpected<'_>, exp: &str) -> DeserializerError
        ensures called { IsCalled (fault_of result) (Fault.InvalidType (kind_of unexp.entry)) }
        ensures sees { IsSeenAs (saw_of result) (seen_of unexp.entry) }
        ensures report { Reports result (report.invalid_type (seen_of unexp.entry) exp.now) }
    {
        match (Unexpected::from_core(alloc, unexp), Text::new(alloc, exp)) {
            (Ok(unexp), Ok(exp)) => DeserializerError::InvalidType(unexp, exp),
            _ => DeserializerError::Memory,
        }
    }

    fn invalid_value(
        alloc: Global,
        unexp: data_core::Unexpected<'_>,
        exp: &str,
    ) -> DeserializerError
        ensures called { IsCalled (fault_of result) (Fault.InvalidValue (kind_of unexp.entry)) }
        ensures sees { IsSeenAs (saw_of result) (seen_of unexp.entry) }
        ensures report { Reports result (report.invalid_value (seen_of unexp.entry) exp.now) }
    {
        match (Unexpected::from_core(alloc, unexp), Text::new(alloc, exp)) {
            (Ok(unexp), Ok(exp)) => DeserializerError::InvalidValue(unexp, exp),
            _ => DeserializerError::Memory,
        }
    }

    fn invalid_length(alloc: Global, len: usize, exp: &str) -> DeserializerError
        ensures fault { IsCalled (fault_of result) (Fault.InvalidLength len) }
        ensures report { Reports result (report.invalid_length len exp.now) }
    {
        match Text::new(alloc, exp) {
            Ok(exp) => DeserializerError::InvalidLength(len, exp),
            Err(_) => DeserializerError::Memory,
        }
    }

    fn unknown_variant(alloc: Global, variant: &str, expected: &Names) -> DeserializerError
        ensures fault { IsCalled (fault_of result) (Fault.UnknownVariant variant.now) }
        ensures report { Reports result (report.unknown_variant variant.now expected.now) }
    {
        match (Text::new(alloc, variant), expected.try_clone(alloc)) {
            (Ok(variant), Ok(expected)) => DeserializerError::UnknownVariant(variant, expected),
            _ => DeserializerError::Memory,
        }
    }

    fn unknown_field(alloc: Global, field: &str, expected: &Names) -> DeserializerError
        ensures fault { IsCalled (fault_of result) (Fault.UnknownField field.now) }
        ensures report { Reports result (report.unknown_field field.now expected.now) }
    {
        match (Text::new(alloc, field), expected.try_clone(alloc)) {
            (Ok(field), Ok(expected)) => DeserializerError::UnknownField(field, expected),
            _ => DeserializerError::Memory,
        }
    }

    fn missing_field(alloc: Global, field: &str) -> DeserializerError
        ensures fault { IsCalled (fault_of result) (Fault.MissingField field.now) }
        ensures report { Reports result (report.missing_field field.now) }
    {
        match Text::new(alloc, field) {
            Ok(field) => DeserializerError::MissingField(field),
            Err(_) => DeserializerError::Memory,
        }
    }

    fn duplicate_field(alloc: Global, field: &str) -> DeserializerError
        ensures fault { IsCalled (fault_of result) (Fault.DuplicateField field.now) }
        ensures report { Reports result (report.duplicate_field field.now) }
    {
        match Text::new(alloc, field) {
            Ok(field) => DeserializerError::DuplicateField(field),
            Err(_) => DeserializerError::Memory,
        }
    }

    fn into_fault(self) -> Option<Fault> {
        match self {
            DeserializerError::Custom(_) => Some(Fault::Custom),
            DeserializerError::InvalidType(unexp, _) => {
                Some(Fault::InvalidType(unexp.to_unexpected().kind()))
            }
            DeserializerError::InvalidValue(unexp, _) => {
                Some(Fault::InvalidValue(unexp.to_unexpected().kind()))
            }
            DeserializerError::InvalidLength(len, _) => Some(Fault::InvalidLength(len)),
            DeserializerError::UnknownVariant(variant, _) => Some(Fault::UnknownVariant(variant)),
            DeserializerError::UnknownField(field, _) => Some(Fault::UnknownField(field)),
            DeserializerError::MissingField(field) => Some(Fault::MissingField(field)),
            DeserializerError::DuplicateField(field) => Some(Fault::DuplicateField(field)),
            DeserializerError::Memory => None,
        }
    }
}

/// The text of serde's error, without its fault: serde_value's `From` of serde's `de::value::Error`.
impl From<data_items::Error> for DeserializerError {
    ghost from_gives = { λ error made. made ≡ of_items error };

    fn from(error: data_items::Error) -> DeserializerError {
        match error {
            data_items::Error::Fault { cause, text } => {
                drop(cause);
                DeserializerError::Custom(text)
            }
            data_items::Error::Memory => DeserializerError::Memory,
        }
    }
}

/// The words of serde_value's `Display`, and `out of memory`.
impl fmt::Display for DeserializerError {
    ghost output = { shown_text };

    fn fmt<W: fmt::Write>(&self, f: &mut fmt::Formatter<W>) -> fmt::Result {
        match self {
            DeserializerError::Custom(msg) => f.write_str(msg.as_str()),
            DeserializerError::InvalidType(unexp, exp) => {
                write!(f, "Invalid type {unexp}. Expected {}", exp.as_str())
            }
            DeserializerError::InvalidValue(unexp, exp) => {
                write!(f, "Invalid value {unexp}. Expected {}", exp.as_str())
            }
            DeserializerError::InvalidLength(len, exp) => {
                write!(f, "Invalid length {len}. Expected {}", exp.as_str())
            }
            DeserializerError::UnknownVariant(variant, expected) => {
                write!(f, "Unknown variant {}. Expected one of ", variant.as_str())?;
                write_joined(f, expected)
            }
            DeserializerError::UnknownField(field, expected) => {
                write!(f, "Unknown field {}. Expected one of ", field.as_str())?;
                write_joined(f, expected)
            }
            DeserializerError::MissingField(field) => write!(f, "Missing field {}", field.as_str()),
            DeserializerError::DuplicateField(field) => {
                write!(f, "Duplicate field {}", field.as_str())
            }
            DeserializerError::Memory => f.write_str("out of memory"),
        }
    }
}

// The names, with a comma between two.
fn write_joined<W: fmt::Write>(f: &mut fmt::Formatter<W>, names: &Names) -> fmt::Result {
    for place in 0..names.len() {
        if place > 0 {
            f.write_str(", ")?;
        }
        if let Some(name) = names.get(place) {
            f.write_str(name)?;
        }
    }
    Ok(())
}
