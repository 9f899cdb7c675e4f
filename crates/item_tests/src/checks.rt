//! What deserializers are over, and how answers are compared.

use data_core::Track;
use data_items::{Error, MapDeserializer, MapEntries, SeqElements, StringDeserializer};
use data_std::{Deserialize, deserialize};
use std::alloc::{AllocError, Global};
use std::fmt;
use std::process::Abort;
use std::test::Fail;

// A deserializer over a text.
pub(crate) type Text = StringDeserializer<Error>;

// A deserializer over pairs of texts.
pub(crate) type Pairs = MapDeserializer<Text>;

// A text that was made is the wanted one.
pub(crate) fn says(
    rt: &impl Abort,
    text: Result<String, AllocError>,
    want: &str,
) -> Result<(), Fail> {
    let text = text?;
    assert_eq!(rt; text.as_str(), want);
    Ok(())
}

// A deserializer over this text.
pub(crate) fn text(alloc: Global, text: &str) -> Result<Text, AllocError> {
    Ok(StringDeserializer::new(String::from_str(alloc, text)?))
}

// A key and a value.
fn pair(alloc: Global, key: &str, value: &str) -> Result<(Text, Text), AllocError> {
    let key = text(alloc, key)?;
    match text(alloc, value) {
        Ok(value) => Ok((key, value)),
        Err(error) => Err(error),
    }
}

fn pairs_of(alloc: Global, pairs: &[(&str, &str)]) -> Result<Vec<(Text, Text)>, AllocError> {
    let mut items = Vec::new(alloc);
    for (key, value) in pairs {
        items.push(pair(alloc, key, value)?)?;
    }
    Ok(items)
}

// A deserializer over these pairs.
pub(crate) fn pairs(alloc: Global, pairs: &[(&str, &str)]) -> Result<Pairs, AllocError> {
    Ok(MapDeserializer::new(alloc, pairs_of(alloc, pairs)?))
}

// The entries of these pairs, to be taken by hand.
pub(crate) fn entries(
    alloc: Global,
    pairs: &[(&str, &str)],
) -> Result<MapEntries<Text>, AllocError> {
    Ok(MapEntries::new(alloc, pairs_of(alloc, pairs)?))
}

// The elements of these texts, to be taken by hand.
pub(crate) fn elements(alloc: Global, texts: &[&str]) -> Result<SeqElements<Text>, AllocError> {
    let mut items = Vec::new(alloc);
    for item in texts {
        items.push(text(alloc, item)?)?;
    }
    Ok(SeqElements::new(items))
}

// What is read of these pairs, or why they are refused.
pub(crate) fn read<T: Deserialize + fmt::Debug>(
    alloc: Global,
    items: &[(&str, &str)],
) -> Result<String, AllocError> {
    let d = pairs(alloc, items)?;
    let mut track = Track::new(alloc);
    answer::<T>(alloc, deserialize(alloc, d, &mut track))
}

// A value, or the text of an error.
pub(crate) fn answer<T: fmt::Debug + Drop>(
    alloc: Global,
    read: Result<T, Error>,
) -> Result<String, AllocError> {
    match read {
        Ok(value) => format!(in alloc; "{value:?}"),
        Err(error) => error.to_string(alloc),
    }
}

// The text of a refusal.
pub(crate) fn refusal<T: Drop>(
    alloc: Global,
    read: Result<T, Error>,
) -> Result<String, AllocError> {
    match read {
        Ok(_) => String::from_str(alloc, "read"),
        Err(error) => error.to_string(alloc),
    }
}
