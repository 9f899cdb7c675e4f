//! How values are printed.
ghost use Rattle.std.specs.Prelude.{◌≡◌, Option, map, option_map, IfOk, encode_utf8};
ghost use Rattle.serde_json.specs.Data.{array, string, item, no_items};
ghost use Rattle.serde_json.specs.View.{view};
ghost use Rattle.shape.specs.Shape.{parts_of, pairs_of};
ghost use Rattle.shape.specs.View.{data_view, pair_view, payload_view};
ghost use Rattle.answer.specs.Line.{whole, each, with_name as named_by, variant_name as variant_named, name_or_number, shape_of_payload, printed, printed_parts, printed_fields, printed_pairs, printed_payload, shape_of_keys, shape_of_values};
ghost use Rattle.answer.specs.LentShape.{lent, elements_view, lent_fields};

use crate::payload_parts::{
    elements_of_variant, fields_of_variant, inside_of_variant, payload_shape, variant_name,
};
use crate::shape_parts::{
    Elements, element_shape, element_shapes, field_name, field_shape, field_shapes, inside_shape,
    key_shape, value_shape,
};
use serde_json::{Value as Json, json};
use shape::{Data, Fields, Payload, Shape};
use std::alloc::{AllocError, Global};

/// How a value of a shape is printed. What is of no such shape is printed without the names of fields.
#[cycle(print)]
pub fn print(alloc: Global, shape: Option<&Shape>, value: Data) -> Result<Json, AllocError>
    ensures { IfOk result (λ json. view json ≡ printed (lent shape.entry) (data_view value)) }
{
    match value {
        Data::Bool(b) => Ok(Json::Bool(b)),
        Data::Unsigned(n) => Ok(Json::from(n)),
        Data::Signed(n) => Ok(Json::from(n)),
        Data::Char(c) => print_char(alloc, c),
        Data::Text(text) => Ok(Json::String(text.into_string())),
        Data::Bytes(bytes) => print_bytes(alloc, &bytes),
        Data::Unit => Ok(Json::Null),
        Data::Option(None) => json!(in alloc; []),
        Data::Option(Some(inside)) => {
            let inside = print(alloc, inside_shape(shape), inside.into_inner())?;
            json!(in alloc; [inside])
        }
        Data::Newtype(inside) => print(alloc, inside_shape(shape), inside.into_inner()),
        Data::Seq(items) => print_items(alloc, element_shapes(shape), items.into_vec()),
        Data::Map(pairs) => print_pairs(alloc, shape, pairs.into_vec()),
        Data::Struct(items) => print_fields(alloc, field_shapes(shape), items.into_vec()),
        Data::Enum(number, payload) => print_variant(alloc, shape, number, payload),
    }
}

// Elements, each by the shape of its place.
#[cycle(print)]
#[tactic(auto, using(crate::proofs::Printing::printing))]
fn print_items(alloc: Global, elements: Elements<'_>, items: Vec<Data>) -> Result<Json, AllocError>
    ensures { IfOk result (λ json. view json ≡ array (printed_parts (elements_view elements.entry) 0 (parts_of (map data_view items.items)))) }
{
    let mut printed = Vec::with_capacity(alloc, items.len())?;
    for item in items {
        let element = element_shape(elements, printed.len());
        printed.push(print(alloc, element, item)?)?;
    }
    Ok(Json::Array(printed))
}

// Fields, each by its name and the shape of its place.
#[cycle(print)]
#[tactic(auto, using(crate::proofs::Printing::printing))]
fn print_fields(
    alloc: Global,
    fields: Option<&Fields>,
    items: Vec<Data>,
) -> Result<Json, AllocError>
    ensures { IfOk result (λ json. view json ≡ array (printed_fields (lent_fields fields.entry) 0 (parts_of (map data_view items.items)))) }
{
    let mut printed = Vec::with_capacity(alloc, items.len())?;
    for item in items {
        let place = printed.len();
        let field = print(alloc, field_shape(fields, place), item)?;
        printed.push(with_name(alloc, field_name(fields, place), field)?)?;
    }
    Ok(Json::Array(printed))
}

// A field with its name, if it has one.
fn with_name(alloc: Global, name: Option<&str>, field: Json) -> Result<Json, AllocError>
    ensures { IfOk result (λ json. view json ≡ named_by (option_map (λ n. n.now) name.entry) (view field)) }
{
    match name {
        Some(name) => json!(in alloc; [name, field]),
        None => Ok(field),
    }
}

// Arrays of a key and its value.
#[cycle(print)]
#[tactic(auto, using(crate::proofs::Printing::printing))]
fn print_pairs(
    alloc: Global,
    shape: Option<&Shape>,
    pairs: Vec<(Data, Data)>,
) -> Result<Json, AllocError>
    ensures { IfOk result (λ json. view json ≡ array (printed_pairs (lent shape.entry) (pairs_of (map pair_view pairs.items)))) }
{
    let mut printed = Vec::with_capacity(alloc, pairs.len())?;
    for (key, value) in pairs {
        printed.push(print_pair(alloc, shape, key, value)?)?;
    }
    Ok(Json::Array(printed))
}

#[cycle(print)]
fn print_pair(
    alloc: Global,
    shape: Option<&Shape>,
    key: Data,
    value: Data,
) -> Result<Json, AllocError>
    ensures { IfOk result (λ json. view json ≡ array (item (printed (shape_of_keys (lent shape.entry)) (data_view key))
        (item (printed (shape_of_values (lent shape.entry)) (data_view value)) no_items))) }
{
    let key = print(alloc, key_shape(shape), key)?;
    let value = print(alloc, value_shape(shape), value)?;
    json!(in alloc; [key, value])
}

// A variant by its name, and what it holds, if anything.
#[cycle(print)]
fn print_variant(
    alloc: Global,
    shape: Option<&Shape>,
    number: usize,
    payload: Payload,
) -> Result<Json, AllocError>
    ensures { IfOk result (λ json. view json ≡ array (item (name_or_number (variant_named (lent shape.entry) number) number)
        (printed_payload (shape_of_payload (lent shape.entry) number) (payload_view payload)))) }
{
    let name = print_name(alloc, variant_name(shape, number), number)?;
    let held = payload_shape(shape, number);
    let inside = match payload {
        Payload::Unit => return json!(in alloc; [name]),
        Payload::Newtype(inside) => print(alloc, inside_of_variant(held), inside.into_inner())?,
        Payload::Tuple(items) => {
            print_items(alloc, elements_of_variant(held), items.into_vec())?
        }
        Payload::Struct(items) => print_fields(alloc, fields_of_variant(held), items.into_vec())?,
    };
    json!(in alloc; [name, inside])
}

// A variant's name, or its number where it has none.
fn print_name(alloc: Global, name: Option<&str>, number: usize) -> Result<Json, AllocError>
    ensures { IfOk result (λ json. view json ≡ name_or_number (option_map (λ n. n.now) name.entry) number) }
{
    match name {
        Some(name) => Ok(Json::String(String::from_str(alloc, name)?)),
        None => Ok(Json::from(number as u64)),
    }
}

fn print_char(alloc: Global, c: char) -> Result<Json, AllocError>
    ensures { IfOk result (λ json. view json ≡ string (encode_utf8 c)) }
{
    let mut text = String::new(alloc);
    text.push(c)?;
    Ok(Json::String(text))
}

fn print_bytes(alloc: Global, bytes: &[u8]) -> Result<Json, AllocError>
    ensures { IfOk result (λ json. view json ≡ array (each whole bytes.now)) }
{
    let mut items = Vec::with_capacity(alloc, bytes.len())?;
    for byte in bytes {
        items.push(Json::from(*byte))?;
    }
    Ok(Json::Array(items))
}
