//! How answers of texts and plain values at hand are compared.

use data_items::{Error, StringDeserializer};
use std::alloc::{AllocError, Global};
use std::fmt;
use std::process::Abort;
use std::test::Fail;

// A deserializer over a text.
pub(crate) type Text = StringDeserializer<Error>;

// A text that was made is the wanted one.
pub(crate) fn says(
    rt: &impl Abort,
    text: Result<String, AllocError>,
    want: &str,
) -> Result<(), Fail> {
    let text = text?;
    assert_eq!(rt; text.as_str(), want);
    Ok(())
}

// A deserializer over this text.
pub(crate) fn text(alloc: Global, text: &str) -> Result<Text, AllocError> {
    Ok(StringDeserializer::new(String::from_str(alloc, text)?))
}

// A value, or the text of an error.
pub(crate) fn answer<T: fmt::Debug + Drop>(
    alloc: Global,
    read: Result<T, Error>,
) -> Result<String, AllocError> {
    match read {
        Ok(value) => format!(in alloc; "{value:?}"),
        Err(error) => error.to_string(alloc),
    }
}

// The text of a refusal.
pub(crate) fn refusal<T: Drop>(
    alloc: Global,
    read: Result<T, Error>,
) -> Result<String, AllocError> {
    match read {
        Ok(_) => String::from_str(alloc, "read"),
        Err(error) => error.to_string(alloc),
    }
}
