//! Readers of booleans, characters, texts and units.
ghost use Rattle.std.specs.Prelude.{◌≡◌, refl, string_bytes, IfErr};
ghost use Rattle.data_core.specs.Ask as asks;
ghost use Rattle.data_core.specs.Source.{scalar};
ghost use Rattle.data_core.specs.Source as offer;
ghost use Rattle.data_core.specs.Outcome.{Answers};
ghost use Rattle.data_core.specs.Refused.{IsSeenOf};
ghost use Rattle.data_core.specs.Tracking.{clear};
ghost use Rattle.data_core.specs.Reads.{IsOutcome, only_refusal};
ghost use Rattle.scalar_seeds.specs.Scalars.{boolean_of, character_of, text_of, unit_of};

use data_core::{
    BytesLike, DeError, DeserializeSeed, Deserializer, Hint, Scalar, Shown, TextLike, Track,
    Unexpected, only_char, refused,
};
use std::alloc::Global;

/// The reader of `bool`: it takes a boolean.
#[derive(Drop)]
pub struct BoolSeed;

impl DeserializeSeed for BoolSeed {
    type Value = bool;

    ghost asks = { λ _. asks.boolean };

    ghost reads = { λ _ offer outcome. IsOutcome (λ b. b) (boolean_of offer) outcome };

    fn hint(&self) -> Hint<'_> {
        Hint::Bool
    }

    fn visit<D: Deserializer>(
        self,
        alloc: Global,
        shown: Shown<D>,
        _track: &mut Track,
    ) -> Result<bool, D::Error> {
        match shown {
            Shown::Scalar(Scalar::Bool(b)) => Ok(b),
            other => Err(refused(alloc, other, "bool")),
        }
    }

    ghost passes_refusals = { λ _ f. (refl, only_refusal (λ b. b) f) };

    ghost quiet = { Unit {0} };

    ghost placed = { Unit {0} };

    ghost leaves = { λ _ _ now. now ≡ clear };
}

/// The reader of `()`: it takes a unit.
#[derive(Drop)]
pub struct UnitSeed;

impl DeserializeSeed for UnitSeed {
    type Value = ();

    ghost asks = { λ _. asks.unit };

    ghost reads = { λ _ offer outcome. IsOutcome (λ u. u) (unit_of offer) outcome };

    fn hint(&self) -> Hint<'_> {
        Hint::Unit
    }

    fn visit<D: Deserializer>(
        self,
        alloc: Global,
        shown: Shown<D>,
        _track: &mut Track,
    ) -> Result<(), D::Error> {
        match shown {
            Shown::Scalar(Scalar::Unit) => Ok(()),
            other => Err(refused(alloc, other, "unit")),
        }
    }

    ghost passes_refusals = { λ _ f. (refl, only_refusal (λ u. u) f) };

    ghost quiet = { Unit {0} };

    ghost placed = { Unit {0} };

    ghost leaves = { λ _ _ now. now ≡ clear };
}

/// The reader of `char`: it takes a character, or a text of exactly one.
#[derive(Drop)]
pub struct CharSeed;

impl DeserializeSeed for CharSeed {
    type Value = char;

    ghost asks = { λ _. asks.character };

    ghost reads = { λ _ offer outcome. IsOutcome (λ c. c) (character_of offer) outcome };

    fn hint(&self) -> Hint<'_> {
        Hint::Char
    }

    fn visit<D: Deserializer>(
        self,
        alloc: Global,
        shown: Shown<D>,
        _track: &mut Track,
    ) -> Result<char, D::Error> {
        match shown {
            Shown::Scalar(Scalar::Char(c)) => Ok(c),
            Shown::Scalar(Scalar::Text(text)) => char_of_text::<D>(alloc, text.as_str()),
            other => Err(refused(alloc, other, "char")),
        }
    }

    ghost passes_refusals = { λ _ f. (refl, only_refusal (λ c. c) f) };

    ghost quiet = { Unit {0} };

    ghost placed = { Unit {0} };

    ghost leaves = { λ _ _ now. now ≡ clear };
}

// The character of a text of exactly one.
fn char_of_text<D: Deserializer>(alloc: Global, text: &str) -> Result<char, D::Error>
    ensures answers { Answers D.Error.fault (λ c. c) result (character_of (scalar (offer.text text.now))) }
    ensures sees { IfErr result (λ e. IsSeenOf (D.Error.saw e) (scalar (offer.text text.now))) }
{
    match only_char(text) {
        Some(c) => Ok(c),
        None => Err(D::Error::invalid_value(alloc, Unexpected::Str(text), "char")),
    }
}

/// The reader of `String`: it takes a text, a character or bytes that are UTF-8. What is owned is
/// moved, and else copied.
#[derive(Drop)]
pub struct StringSeed;

impl DeserializeSeed for StringSeed {
    type Value = String;

    ghost asks = { λ _. asks.string };

    ghost reads = { λ _ offer outcome. IsOutcome string_bytes (text_of offer) outcome };

    fn hint(&self) -> Hint<'_> {
        Hint::String
    }

    fn visit<D: Deserializer>(
        self,
        alloc: Global,
        shown: Shown<D>,
        _track: &mut Track,
    ) -> Result<String, D::Error> {
        match shown {
            Shown::Scalar(Scalar::Text(text)) => match text.into_string(alloc) {
                Ok(text) => Ok(text),
                Err(_) => Err(D::Error::memory()),
            },
            Shown::Scalar(Scalar::Char(c)) => text_of_char::<D>(alloc, c),
            Shown::Scalar(Scalar::Bytes(bytes)) => match bytes.into_vec(alloc) {
                Ok(bytes) => text_of_bytes::<D>(alloc, bytes),
                Err(_) => Err(D::Error::memory()),
            },
            other => Err(refused(alloc, other, "text")),
        }
    }

    ghost passes_refusals = { λ _ f. (refl, only_refusal string_bytes f) };

    ghost quiet = { Unit {0} };

    ghost placed = { Unit {0} };

    ghost leaves = { λ _ _ now. now ≡ clear };
}

// A character as the text of it alone.
fn text_of_char<D: Deserializer>(alloc: Global, c: char) -> Result<String, D::Error>
    ensures { Answers D.Error.fault string_bytes result (text_of (scalar (offer.character c))) }
{
    let mut text = String::new(alloc);
    if text.push(c).is_err() {
        return Err(D::Error::memory());
    }
    Ok(text)
}

// Bytes as the text that they spell. They are moved.
fn text_of_bytes<D: Deserializer>(alloc: Global, bytes: Vec<u8>) -> Result<String, D::Error>
    ensures answers { Answers D.Error.fault string_bytes result (text_of (scalar (offer.bytes bytes.items))) }
    ensures sees { IfErr result (λ e. IsSeenOf (D.Error.saw e) (scalar (offer.bytes bytes.items))) }
{
    match String::from_utf8(bytes) {
        Ok(text) => Ok(text),
        Err(malformed) => {
            let bytes = malformed.into_bytes();
            Err(D::Error::invalid_value(alloc, Unexpected::Bytes(bytes.as_slice()), "text"))
        }
    }
}
