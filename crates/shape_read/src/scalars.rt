//! Readers of scalars.
ghost use Rattle.std.specs.Prelude.{◌≡◌, ◌<◌, ◌^◌, IfErr};
ghost use Rattle.data_core.specs.Source.{scalar};
ghost use Rattle.data_core.specs.Source as offer;
ghost use Rattle.data_core.specs.Show.{shown_offer};
ghost use Rattle.data_core.specs.Outcome.{Answers};
ghost use Rattle.data_core.specs.Refused.{IsSeenOf};
ghost use Rattle.shape_read.specs.Scalars.{boolean_of, unsigned_of, signed_of, within, character_of, text_of, bytes_of, unit_of};
ghost use Rattle.shape_read.specs.Integer.{ShowsInteger};
ghost use Rattle.shape.specs.View.{data_view};

use data_core::{
    BytesLike, DeError, Deserializer, Scalar, Shown, Text, TextLike, Unexpected, only_char, refused,
};
use shape::Data;
use std::alloc::Global;

/// Takes a boolean. A refusal names `bool` as what was expected.
pub fn visit_bool<D: Deserializer>(alloc: Global, shown: Shown<D>) -> Result<Data, D::Error>
    ensures answers { Answers D.Error.fault data_view result
        (boolean_of (shown_offer D.Text.text D.Bytes.bytes D.source D.sequence D.table D.choice shown)) }
    ensures sees { IfErr result (λ e. IsSeenOf (D.Error.saw e) (shown_offer D.Text.text D.Bytes.bytes D.source D.sequence D.table D.choice shown)) }
{
    match shown {
        Shown::Scalar(Scalar::Bool(b)) => Ok(Data::Bool(b)),
        other => Err(refused(alloc, other, "bool")),
    }
}

// An integer of up to 64 bits, as it came.
#[derive(Clone, Copy)]
enum Integer {
    Unsigned(u64),
    Signed(i64),
}

// The integer that is shown, if one of up to 64 bits is.
fn shown_integer<D: Deserializer>(shown: &Shown<D>) -> Option<Integer>
    ensures { ShowsInteger (shown_offer D.Text.text D.Bytes.bytes D.source D.sequence D.table D.choice shown.now) result }
{
    let Shown::Scalar(scalar) = shown else {
        return None;
    };
    match scalar {
        Scalar::U8(n) => Some(Integer::Unsigned(u64::from(*n))),
        Scalar::U16(n) => Some(Integer::Unsigned(u64::from(*n))),
        Scalar::U32(n) => Some(Integer::Unsigned(u64::from(*n))),
        Scalar::U64(n) => Some(Integer::Unsigned(*n)),
        Scalar::I8(n) => Some(Integer::Signed(i64::from(*n))),
        Scalar::I16(n) => Some(Integer::Signed(i64::from(*n))),
        Scalar::I32(n) => Some(Integer::Signed(i64::from(*n))),
        Scalar::I64(n) => Some(Integer::Signed(*n)),
        _ => None,
    }
}

/// Takes an integer from 0 up to `greatest`. A refusal names `expected` as what was expected.
pub fn visit_unsigned<D: Deserializer>(
    alloc: Global,
    shown: Shown<D>,
    greatest: u64,
    expected: &str,
) -> Result<Data, D::Error>
    ensures answers { Answers D.Error.fault data_view result
        (unsigned_of greatest (shown_offer D.Text.text D.Bytes.bytes D.source D.sequence D.table D.choice shown)) }
    ensures sees { IfErr result (λ e. IsSeenOf (D.Error.saw e) (shown_offer D.Text.text D.Bytes.bytes D.source D.sequence D.table D.choice shown)) }
{
    match shown_integer(&shown) {
        Some(Integer::Unsigned(n)) => unsigned::<D>(alloc, n, greatest, expected),
        Some(Integer::Signed(n)) => to_unsigned::<D>(alloc, n, greatest, expected),
        None => Err(refused(alloc, shown, expected)),
    }
}

// An unsigned integer up to the greatest.
fn unsigned<D: Deserializer>(
    alloc: Global,
    n: u64,
    greatest: u64,
    expected: &str,
) -> Result<Data, D::Error>
    ensures answers { Answers D.Error.fault data_view result (unsigned_of greatest (scalar (offer.unsigned offer.w64 n))) }
    ensures sees { IfErr result (λ e. IsSeenOf (D.Error.saw e) (scalar (offer.unsigned offer.w64 n))) }
{
    if n <= greatest {
        Ok(Data::Unsigned(n))
    } else {
        Err(D::Error::invalid_value(alloc, Unexpected::Unsigned(n), expected))
    }
}

// A signed integer from 0 up to the greatest. A refusal shows it as it came, signed.
fn to_unsigned<D: Deserializer>(
    alloc: Global,
    n: i64,
    greatest: u64,
    expected: &str,
) -> Result<Data, D::Error>
    ensures answers { Answers D.Error.fault data_view result (unsigned_of greatest (scalar (offer.signed offer.w64 n))) }
    ensures sees { IfErr result (λ e. IsSeenOf (D.Error.saw e) (scalar (offer.signed offer.w64 n))) }
{
    match u64::try_from(n) {
        Ok(m) if m <= greatest => Ok(Data::Unsigned(m)),
        _ => Err(D::Error::invalid_value(alloc, Unexpected::Signed(n), expected)),
    }
}

/// Takes an integer from `-greatest - 1` up to `greatest`. A refusal names `expected` as what was
/// expected.
pub fn visit_signed<D: Deserializer>(
    alloc: Global,
    shown: Shown<D>,
    greatest: u64,
    expected: &str,
) -> Result<Data, D::Error>
    requires { greatest < 2 ^ 63 }
    ensures answers { Answers D.Error.fault data_view result
        (signed_of greatest (shown_offer D.Text.text D.Bytes.bytes D.source D.sequence D.table D.choice shown)) }
    ensures sees { IfErr result (λ e. IsSeenOf (D.Error.saw e) (shown_offer D.Text.text D.Bytes.bytes D.source D.sequence D.table D.choice shown)) }
{
    match shown_integer(&shown) {
        Some(Integer::Unsigned(n)) => to_signed::<D>(alloc, n, greatest, expected),
        Some(Integer::Signed(n)) => signed::<D>(alloc, n, greatest, expected),
        None => Err(refused(alloc, shown, expected)),
    }
}

// A signed integer in the range that the greatest gives.
fn signed<D: Deserializer>(
    alloc: Global,
    n: i64,
    greatest: u64,
    expected: &str,
) -> Result<Data, D::Error>
    ensures answers { Answers D.Error.fault data_view result (signed_of greatest (scalar (offer.signed offer.w64 n))) }
    ensures sees { IfErr result (λ e. IsSeenOf (D.Error.saw e) (scalar (offer.signed offer.w64 n))) }
{
    if is_within(n, greatest) {
        Ok(Data::Signed(n))
    } else {
        Err(D::Error::invalid_value(alloc, Unexpected::Signed(n), expected))
    }
}

// Whether an integer lies between one below the negative of the greatest and the greatest.
fn is_within(n: i64, greatest: u64) -> bool
    ensures { result ≡ within greatest n }
{
    if n < 0 {
        n.unsigned_abs() - 1 <= greatest
    } else {
        n.unsigned_abs() <= greatest
    }
}

// An unsigned integer up to the greatest. A refusal shows it as it came, unsigned.
fn to_signed<D: Deserializer>(
    alloc: Global,
    n: u64,
    greatest: u64,
    expected: &str,
) -> Result<Data, D::Error>
    requires { greatest < 2 ^ 63 }
    ensures answers { Answers D.Error.fault data_view result (signed_of greatest (scalar (offer.unsigned offer.w64 n))) }
    ensures sees { IfErr result (λ e. IsSeenOf (D.Error.saw e) (scalar (offer.unsigned offer.w64 n))) }
{
    if n <= greatest {
        Ok(Data::Signed(n as i64))
    } else {
        Err(D::Error::invalid_value(alloc, Unexpected::Unsigned(n), expected))
    }
}

/// Takes a character, or a text of exactly one. A refusal names `char` as what was expected.
pub fn visit_char<D: Deserializer>(alloc: Global, shown: Shown<D>) -> Result<Data, D::Error>
    ensures answers { Answers D.Error.fault data_view result
        (character_of (shown_offer D.Text.text D.Bytes.bytes D.source D.sequence D.table D.choice shown)) }
    ensures sees { IfErr result (λ e. IsSeenOf (D.Error.saw e) (shown_offer D.Text.text D.Bytes.bytes D.source D.sequence D.table D.choice shown)) }
{
    match shown {
        Shown::Scalar(Scalar::Char(c)) => Ok(Data::Char(c)),
        Shown::Scalar(Scalar::Text(text)) => char_of_text::<D>(alloc, text.as_str()),
        other => Err(refused(alloc, other, "char")),
    }
}

// The character of a text of exactly one.
fn char_of_text<D: Deserializer>(alloc: Global, text: &str) -> Result<Data, D::Error>
    ensures answers { Answers D.Error.fault data_view result (character_of (scalar (offer.text text.now))) }
    ensures sees { IfErr result (λ e. IsSeenOf (D.Error.saw e) (scalar (offer.text text.now))) }
{
    match only_char(text) {
        Some(c) => Ok(Data::Char(c)),
        None => Err(D::Error::invalid_value(alloc, Unexpected::Str(text), "char")),
    }
}

/// Takes a text, a character, or bytes that are UTF-8. What is owned is moved, and else copied.
pub fn visit_text<D: Deserializer>(alloc: Global, shown: Shown<D>) -> Result<Data, D::Error>
    ensures { Answers D.Error.fault data_view result
        (text_of (shown_offer D.Text.text D.Bytes.bytes D.source D.sequence D.table D.choice shown)) }
{
    match shown {
        Shown::Scalar(Scalar::Text(text)) => match text.into_string(alloc) {
            Ok(text) => Ok(Data::Text(Text::from_string(text))),
            Err(_) => Err(D::Error::memory()),
        },
        Shown::Scalar(Scalar::Char(c)) => text_of_char::<D>(alloc, c),
        Shown::Scalar(Scalar::Bytes(bytes)) => match bytes.into_vec(alloc) {
            Ok(bytes) => text_of_bytes::<D>(alloc, bytes),
            Err(_) => Err(D::Error::memory()),
        },
        other => Err(refused(alloc, other, "text")),
    }
}

// A character as the text of it alone.
fn text_of_char<D: Deserializer>(alloc: Global, c: char) -> Result<Data, D::Error>
    ensures { Answers D.Error.fault data_view result (text_of (scalar (offer.character c))) }
{
    let mut text = String::new(alloc);
    if text.push(c).is_err() {
        return Err(D::Error::memory());
    }
    Ok(Data::Text(Text::from_string(text)))
}

// Bytes as the text that they spell. They are moved.
fn text_of_bytes<D: Deserializer>(alloc: Global, bytes: Vec<u8>) -> Result<Data, D::Error>
    ensures answers { Answers D.Error.fault data_view result (text_of (scalar (offer.bytes bytes.items))) }
    ensures sees { IfErr result (λ e. IsSeenOf (D.Error.saw e) (scalar (offer.bytes bytes.items))) }
{
    match String::from_utf8(bytes) {
        Ok(text) => Ok(Data::Text(Text::from_string(text))),
        Err(malformed) => {
            let bytes = malformed.into_bytes();
            Err(D::Error::invalid_value(alloc, Unexpected::Bytes(bytes.as_slice()), "text"))
        }
    }
}

/// Takes bytes, and no text. What is owned is moved, and else copied.
pub fn visit_bytes<D: Deserializer>(alloc: Global, shown: Shown<D>) -> Result<Data, D::Error>
    ensures { Answers D.Error.fault data_view result
        (bytes_of (shown_offer D.Text.text D.Bytes.bytes D.source D.sequence D.table D.choice shown)) }
{
    match shown {
        Shown::Scalar(Scalar::Bytes(bytes)) => match bytes.into_vec(alloc) {
            Ok(bytes) => Ok(Data::Bytes(bytes)),
            Err(_) => Err(D::Error::memory()),
        },
        other => Err(refused(alloc, other, "bytes")),
    }
}

/// Takes the unit. A refusal names `expected` as what was expected.
pub fn visit_unit<D: Deserializer>(
    alloc: Global,
    shown: Shown<D>,
    expected: &str,
) -> Result<Data, D::Error>
    ensures answers { Answers D.Error.fault data_view result
        (unit_of (shown_offer D.Text.text D.Bytes.bytes D.source D.sequence D.table D.choice shown)) }
    ensures sees { IfErr result (λ e. IsSeenOf (D.Error.saw e) (shown_offer D.Text.text D.Bytes.bytes D.source D.sequence D.table D.choice shown)) }
{
    match shown {
        Shown::Scalar(Scalar::Unit) => Ok(Data::Unit),
        other => Err(refused(alloc, other, expected)),
    }
}
