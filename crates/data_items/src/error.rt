//! The error of serde's deserializers over values that are at hand.
ghost use Rattle.std.specs.Prelude.{◌≡◌, IfOk, string_bytes};
ghost use Rattle.data_core.specs.Fault.{IsCalled};
ghost use Rattle.data_items.specs.ErrorView.{fault_of, error_text};

use data_core::{DeError, Fault, Names, Text, Unexpected};
use std::alloc::{AllocError, Global};
use std::fmt;

/// Why a value was not read, with the text that serde shows for it: serde's `de::value::Error`.
/// `Memory` stands for want of memory, and carries no claim on the value.
#[derive(Drop)]
pub enum Error {
    Fault { cause: Fault, text: Text },
    Memory,
}

impl DeError for Error {
    ghost fault = { fault_of };

    fn memory() -> Error {
        Error::Memory
    }

    fn custom(alloc: Global, msg: &str) -> Error {
        with_text(Fault::Custom, String::from_str(alloc, msg))
    }

    fn invalid_type(alloc: Global, unexp: Unexpected<'_>, exp: &str) -> Error {
        with_text(
            Fault::InvalidType(unexp.kind()),
            format!(in alloc; "invalid type: {unexp}, expected {exp}"),
        )
    }

    fn invalid_value(alloc: Global, unexp: Unexpected<'_>, exp: &str) -> Error {
        with_text(
            Fault::InvalidValue(unexp.kind()),
            format!(in alloc; "invalid value: {unexp}, expected {exp}"),
        )
    }

    fn invalid_length(alloc: Global, len: usize, exp: &str) -> Error {
        with_text(
            Fault::InvalidLength(len),
            format!(in alloc; "invalid length {len}, expected {exp}"),
        )
    }

    fn unknown_variant(alloc: Global, variant: &str, expected: &Names) -> Error {
        let expected = Expected {
            names: expected,
            what: "variants",
        };
        match Text::new(alloc, variant) {
            Ok(name) => with_text(
                Fault::UnknownVariant(name),
                format!(in alloc; "unknown variant `{variant}`, {expected}"),
            ),
            Err(_) => Error::Memory,
        }
    }

    fn unknown_field(alloc: Global, field: &str, expected: &Names) -> Error {
        let expected = Expected {
            names: expected,
            what: "fields",
        };
        match Text::new(alloc, field) {
            Ok(name) => with_text(
                Fault::UnknownField(name),
                format!(in alloc; "unknown field `{field}`, {expected}"),
            ),
            Err(_) => Error::Memory,
        }
    }

    fn missing_field(alloc: Global, field: &str) -> Error {
        match Text::new(alloc, field) {
            Ok(name) => with_text(
                Fault::MissingField(name),
                format!(in alloc; "missing field `{field}`"),
            ),
            Err(_) => Error::Memory,
        }
    }

    fn duplicate_field(alloc: Global, field: &str) -> Error {
        match Text::new(alloc, field) {
            Ok(name) => with_text(
                Fault::DuplicateField(name),
                format!(in alloc; "duplicate field `{field}`"),
            ),
            Err(_) => Error::Memory,
        }
    }

    fn into_fault(self) -> Option<Fault> {
        match self {
            Error::Fault { cause, .. } => Some(cause),
            Error::Memory => None,
        }
    }
}

// The error of a fault, once its text found memory.
fn with_text(cause: Fault, text: Result<String, AllocError>) -> Error
    ensures { IsCalled (fault_of result) cause }
{
    match text {
        Ok(text) => Error::Fault {
            cause,
            text: Text::from_string(text),
        },
        Err(_) => Error::Memory,
    }
}

/// The text that serde shows, and `out of memory`.
impl fmt::Display for Error {
    ghost use Rattle.std.specs.Prelude.{Some};

    ghost output = { λ e. Some (error_text e) };

    // Also under the options of a hole, as `{:#}`.
    ghost styled_output = { λ e _. Some (error_text e) };

    fn fmt<W: fmt::Write>(&self, f: &mut fmt::Formatter<W>) -> fmt::Result {
        match self {
            Error::Fault { text, .. } => f.write_str(text.as_str()),
            Error::Memory => f.write_str("out of memory"),
        }
    }
}

// The names that were expected, in the words of serde's `OneOf`, or that there are none.
#[derive(Clone, Copy)]
struct Expected<'a> {
    names: &'a Names,
    what: &'static str,
}

impl fmt::Display for Expected<'_> {
    fn fmt<W: fmt::Write>(&self, f: &mut fmt::Formatter<W>) -> fmt::Result {
        let names = self.names;
        match (names.get(0), names.get(1)) {
            (None, _) => write!(f, "there are no {}", self.what),
            (Some(first), None) => write!(f, "expected `{first}`"),
            (Some(first), Some(second)) if names.len() == 2 => {
                write!(f, "expected `{first}` or `{second}`")
            }
            _ => {
                f.write_str("expected one of ")?;
                write_names(f, names)
            }
        }
    }
}

// The names, with a comma between two.
fn write_names<W: fmt::Write>(f: &mut fmt::Formatter<W>, names: &Names) -> fmt::Result {
    for place in 0..names.len() {
        if let Some(name) = names.get(place) {
            write!(f, "{}`{name}`", if place == 0 { "" } else { ", " })?;
        }
    }
    Ok(())
}
