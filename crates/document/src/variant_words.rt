//! The words of a document that name variants.
ghost use Rattle.std.specs.Prelude.{◌≡◌, length, IfOk, IfSome, option_map};
ghost use Rattle.serde_json.specs.View.{view, items_view};
ghost use Rattle.shape.specs.View.{variant_shape_view, variants_view};
ghost use Rattle.document.specs.Words.{word_payload as payload_named, tagged_payload as payload_under, shape_of, row_in, fields_in, payload_in, variant_in, variants_in, variants_from, named_variants_in};

use crate::members::sole_member;
use crate::named::named;
use crate::shape_words::{boxed_shape, fields, row};
use crate::version::Version;
use data_core::Text;
use serde_json::Value as Json;
use shape::{VariantShape, Variants};
use std::alloc::{AllocError, Global};

/// A name and an array of variants, in an array of the two.
#[cycle(shape)]
#[tactic(auto, using(crate::proofs::NamePairs::variants))]
pub fn named_variants(
    alloc: Global,
    version: Version,
    json: &Json,
) -> Result<Option<(Text, Variants)>, AllocError>
    ensures variants { IfOk result (λ found. option_map (λ n. (n.0, variants_view n.1)) found
        ≡ named_variants_in version (view json.now)) }
    ensures even { IfOk result (λ found. IfSome found (λ n. length n.1.names ≡ length n.1.shapes.items)) }
{
    let Some((name, inside)) = named(json) else {
        return Ok(None);
    };
    match variants(alloc, version, inside)? {
        Some(variants) => Ok(Some((Text::new(alloc, name)?, variants))),
        None => Ok(None),
    }
}

#[cycle(shape)]
fn variants(alloc: Global, version: Version, json: &Json) -> Result<Option<Variants>, AllocError>
    ensures variants { IfOk result (λ found. option_map variants_view found ≡ variants_in version (view json.now)) }
    ensures even { IfOk result (λ found. IfSome found (λ v. length v.names ≡ length v.shapes.items)) }
{
    match json {
        Json::Array(items) => variants_of_items(alloc, version, items),
        _ => Ok(None),
    }
}

#[cycle(shape)]
#[tactic(auto, using(crate::proofs::Elements::steps))]
fn variants_of_items(
    alloc: Global,
    version: Version,
    items: &[Json],
) -> Result<Option<Variants>, AllocError>
    ensures variants { IfOk result (λ found. option_map variants_view found ≡ variants_from version (items_view items.now)) }
    ensures even { IfOk result (λ found. IfSome found (λ v. length v.names ≡ length v.shapes.items)) }
{
    let mut variants = Variants::new(alloc);
    for item in items {
        let Some((name, payload)) = variant(alloc, version, item)? else {
            return Ok(None);
        };
        if variants.push(name, payload).is_err() {
            return Err(AllocError);
        }
    }
    Ok(Some(variants))
}

// A name and a payload, in an array of the two.
#[cycle(shape)]
#[tactic(auto, using(crate::proofs::NamePairs::payloads))]
fn variant(
    alloc: Global,
    version: Version,
    json: &Json,
) -> Result<Option<(Text, VariantShape)>, AllocError>
    ensures { IfOk result (λ found. option_map (λ n. (n.0, variant_shape_view n.1)) found ≡ variant_in version (view json.now)) }
{
    let Some((name, inside)) = named(json) else {
        return Ok(None);
    };
    match payload(alloc, version, inside)? {
        Some(payload) => Ok(Some((Text::new(alloc, name)?, payload))),
        None => Ok(None),
    }
}

#[cycle(shape)]
#[tactic(auto, using(crate::proofs::SoleMember::soles))]
fn payload(alloc: Global, version: Version, json: &Json) -> Result<Option<VariantShape>, AllocError>
    ensures { IfOk result (λ found. option_map variant_shape_view found ≡ payload_in version (view json.now)) }
{
    match json {
        Json::String(word) => Ok(word_payload(word.as_str())),
        Json::Object(members) => match sole_member(members) {
            Some((tag, inside)) => tagged_payload(alloc, version, tag.as_str(), inside),
            None => Ok(None),
        },
        _ => Ok(None),
    }
}

fn word_payload(word: &str) -> Option<VariantShape>
    ensures { option_map variant_shape_view result ≡ payload_named word.now }
{
    match word {
        "unit" => Some(VariantShape::Unit),
        _ => None,
    }
}

#[cycle(shape)]
#[tactic(auto, using(shape::proofs::Views::views_of_rows, crate::proofs::FieldViews::views))]
fn tagged_payload(
    alloc: Global,
    version: Version,
    tag: &str,
    inside: &Json,
) -> Result<Option<VariantShape>, AllocError>
    ensures { IfOk result (λ found. option_map variant_shape_view found
        ≡ payload_under version tag.now (shape_of version (view inside.now)) (row_in version (view inside.now)) (fields_in version (view inside.now))) }
{
    let second = matches!(version, Version::Second);
    match tag {
        "newtype" => match boxed_shape(alloc, version, inside)? {
            Some(inside) => Ok(Some(VariantShape::Newtype(inside))),
            None => Ok(None),
        },
        "tuple" => match row(alloc, version, inside)? {
            Some(row) => Ok(Some(VariantShape::Tuple(row))),
            None => Ok(None),
        },
        "struct" => match fields(alloc, version, inside)? {
            Some(fields) => Ok(Some(VariantShape::Struct(fields))),
            None => Ok(None),
        },
        "strict" => match fields(alloc, version, inside)? {
            Some(fields) => Ok(Some(VariantShape::Strict(fields))),
            None => Ok(None),
        },
        "loose" if second => match fields(alloc, version, inside)? {
            Some(fields) => Ok(Some(VariantShape::Loose(fields))),
            None => Ok(None),
        },
        _ => Ok(None),
    }
}
