//! What is read, and how answers are compared.
ghost use Rattle.data_core.specs.Show.{Begins};

use data_core::{DeError, DeserializeSeed, Deserializer, Scalar, Shown, Track};
use data_items::{Error, SeqDeserializer, StringDeserializer};
use data_std::{Deserialize, deserialize};
use std::alloc::{AllocError, Global};
use std::fmt;
use std::process::Abort;
use std::test::Fail;

// A deserializer over a sequence of texts.
pub(crate) type Texts = SeqDeserializer<StringDeserializer<Error>>;

// A text that was made is the wanted one.
pub(crate) fn says(
    rt: &impl Abort,
    text: Result<String, AllocError>,
    want: &str,
) -> Result<(), Fail> {
    let text = text?;
    assert_eq!(rt; text.as_str(), want);
    Ok(())
}

// A sequence of these texts.
pub(crate) fn texts(alloc: Global, texts: &[&str]) -> Result<Texts, AllocError> {
    let mut items = Vec::new(alloc);
    for text in texts {
        let text = String::from_str(alloc, text)?;
        items.push(StringDeserializer::new(text))?;
    }
    Ok(SeqDeserializer::new(items))
}

// What the reader of a type makes of what is shown.
pub(crate) fn visited<T: Deserialize>(alloc: Global, shown: Shown<Texts>) -> Result<T, Error>
    requires { Begins ⟦<Texts as Deserializer>⟧.sequence ⟦<Texts as Deserializer>⟧.table
        ⟦<Texts as Deserializer>⟧.key_text ⟦<Texts as Deserializer>⟧.name_text shown }
{
    let mut track = Track::new(alloc);
    match T::seed(alloc) {
        Ok(seed) => seed.visit(alloc, shown, &mut track),
        Err(_) => Err(Error::memory()),
    }
}

// What the reader of a type makes of a scalar.
pub(crate) fn scalar<T: Deserialize>(
    alloc: Global,
    scalar: Scalar<String, Vec<u8>>,
) -> Result<T, Error> {
    visited(alloc, Shown::Scalar(scalar))
}

// Why the reader of a type refuses a scalar.
pub(crate) fn refusal<T: Deserialize>(
    alloc: Global,
    shown: Scalar<String, Vec<u8>>,
) -> Result<String, AllocError> {
    match scalar::<T>(alloc, shown) {
        Ok(_) => String::from_str(alloc, "read"),
        Err(error) => error.to_string(alloc),
    }
}

// What is read of a sequence of texts, or why it is refused.
pub(crate) fn read<T: Deserialize + fmt::Debug>(
    alloc: Global,
    items: &[&str],
) -> Result<String, AllocError> {
    let d = texts(alloc, items)?;
    let mut track = Track::new(alloc);
    answer::<T>(alloc, deserialize(alloc, d, &mut track))
}

// A value, or the text of an error.
pub(crate) fn answer<T: fmt::Debug + Drop>(
    alloc: Global,
    read: Result<T, Error>,
) -> Result<String, AllocError> {
    match read {
        Ok(value) => format!(in alloc; "{value:?}"),
        Err(error) => error.to_string(alloc),
    }
}
