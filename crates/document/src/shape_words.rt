//! The words of a document that name shapes.
ghost use Rattle.std.specs.Prelude.{◌≡◌, length, map, IfOk, IfSome, option_map};
ghost use Rattle.serde_json.specs.View.{view, items_view};
ghost use Rattle.shape.specs.View.{shape_view, fields_view};
ghost use Rattle.document.specs.Words.{word_shape as shape_named, tagged_shape as shape_under, unit_struct_in, shape_of, under_in, row_in, row_from, named_row_in, named_shape_in, named_fields_in, fields_in, fields_from, shapes_in};

use crate::members::sole_member;
use crate::named::{name, named};
use crate::twos::two;
use crate::variant_words::named_variants;
use crate::version::Version;
use data_core::Text;
use serde_json::Value as Json;
use shape::{Fields, MapShape, Shape};
use std::alloc::{AllocError, Global};

/// The shape that a JSON value is the word of, in a document of this version.
#[cycle(shape)]
#[tactic(auto, using(crate::proofs::SoleMember::soles))]
pub fn shape(alloc: Global, version: Version, json: &Json) -> Result<Option<Shape>, AllocError>
    ensures { IfOk result (λ found. option_map shape_view found ≡ shape_of version (view json.now)) }
{
    match json {
        Json::String(word) => Ok(word_shape(word.as_str())),
        Json::Object(members) => match sole_member(members) {
            Some((tag, inside)) => tagged_shape(alloc, version, tag.as_str(), inside),
            None => Ok(None),
        },
        _ => Ok(None),
    }
}

fn word_shape(word: &str) -> Option<Shape>
    ensures { option_map shape_view result ≡ shape_named word.now }
{
    match word {
        "bool" => Some(Shape::Bool),
        "u8" => Some(Shape::U8),
        "u16" => Some(Shape::U16),
        "u32" => Some(Shape::U32),
        "u64" => Some(Shape::U64),
        "i8" => Some(Shape::I8),
        "i16" => Some(Shape::I16),
        "i32" => Some(Shape::I32),
        "i64" => Some(Shape::I64),
        "char" => Some(Shape::Char),
        "text" => Some(Shape::Text),
        "bytes" => Some(Shape::Bytes),
        "unit" => Some(Shape::Unit),
        _ => None,
    }
}

#[cycle(shape)]
#[tactic(auto, using(shape::proofs::Views::views_of_rows, crate::proofs::FieldViews::views))]
fn tagged_shape(
    alloc: Global,
    version: Version,
    tag: &str,
    inside: &Json,
) -> Result<Option<Shape>, AllocError>
    ensures { IfOk result (λ found. option_map shape_view found
        ≡ shape_under version tag.now (view inside.now) (under_in version (view inside.now))) }
{
    let second = matches!(version, Version::Second);
    match tag {
        "unit_struct" => unit_struct(alloc, inside),
        "option" => match boxed_shape(alloc, version, inside)? {
            Some(inside) => Ok(Some(Shape::Option(inside))),
            None => Ok(None),
        },
        "seq" => match boxed_shape(alloc, version, inside)? {
            Some(inside) => Ok(Some(Shape::Seq(inside))),
            None => Ok(None),
        },
        "tuple" => match row(alloc, version, inside)? {
            Some(row) => Ok(Some(Shape::Tuple(row))),
            None => Ok(None),
        },
        "tuple_struct" => match named_row(alloc, version, inside)? {
            Some((name, row)) => Ok(Some(Shape::TupleStruct(name, row))),
            None => Ok(None),
        },
        "map" => match map_shape(alloc, version, inside)? {
            Some(shapes) => Ok(Some(Shape::Map(shapes))),
            None => Ok(None),
        },
        "newtype" => match named_shape(alloc, version, inside)? {
            Some((name, inside)) => Ok(Some(Shape::Newtype(name, inside))),
            None => Ok(None),
        },
        "struct" => match named_fields(alloc, version, inside)? {
            Some((name, fields)) => Ok(Some(Shape::Struct(name, fields))),
            None => Ok(None),
        },
        "strict" => match named_fields(alloc, version, inside)? {
            Some((name, fields)) => Ok(Some(Shape::Strict(name, fields))),
            None => Ok(None),
        },
        "loose" if second => match named_fields(alloc, version, inside)? {
            Some((name, fields)) => Ok(Some(Shape::Loose(name, fields))),
            None => Ok(None),
        },
        "enum" => match named_variants(alloc, version, inside)? {
            Some((name, variants)) => Ok(Some(Shape::Enum(name, variants))),
            None => Ok(None),
        },
        "prefix" if second => match row(alloc, version, inside)? {
            Some(row) => Ok(Some(Shape::Prefix(row))),
            None => Ok(None),
        },
        "prefix_struct" if second => match named_row(alloc, version, inside)? {
            Some((name, row)) => Ok(Some(Shape::PrefixStruct(name, row))),
            None => Ok(None),
        },
        _ => Ok(None),
    }
}

/// The same, in a box.
#[cycle(shape)]
pub fn boxed_shape(
    alloc: Global,
    version: Version,
    json: &Json,
) -> Result<Option<Box<Shape>>, AllocError>
    ensures { IfOk result (λ found. option_map (λ b. shape_view b.value) found ≡ shape_of version (view json.now)) }
{
    match shape(alloc, version, json)? {
        Some(inside) => Ok(Some(Box::new(alloc, inside)?)),
        None => Ok(None),
    }
}

// The shapes of keys and of values, in an array of the two.
#[cycle(shape)]
#[tactic(auto, using(crate::proofs::TwoValues::shapes))]
fn map_shape(
    alloc: Global,
    version: Version,
    json: &Json,
) -> Result<Option<Box<MapShape>>, AllocError>
    ensures { IfOk result (λ found. option_map (λ b. (shape_view b.value.key, shape_view b.value.value)) found
        ≡ shapes_in version (view json.now)) }
{
    let Some((key, value)) = two(json) else {
        return Ok(None);
    };
    let Some(key) = shape(alloc, version, key)? else {
        return Ok(None);
    };
    let Some(value) = shape(alloc, version, value)? else {
        return Ok(None);
    };
    Ok(Some(Box::new(alloc, MapShape { key, value })?))
}

/// Shapes in an array.
#[cycle(shape)]
pub fn row(alloc: Global, version: Version, json: &Json) -> Result<Option<Vec<Shape>>, AllocError>
    ensures { IfOk result (λ found. option_map (λ v. map shape_view v.items) found ≡ row_in version (view json.now)) }
{
    match json {
        Json::Array(items) => shapes(alloc, version, items),
        _ => Ok(None),
    }
}

#[cycle(shape)]
#[tactic(auto, using(crate::proofs::Elements::steps))]
fn shapes(alloc: Global, version: Version, items: &[Json]) -> Result<Option<Vec<Shape>>, AllocError>
    ensures { IfOk result (λ found. option_map (λ v. map shape_view v.items) found ≡ row_from version (items_view items.now)) }
{
    let mut shapes = Vec::with_capacity(alloc, items.len())?;
    for item in items {
        let Some(inside) = shape(alloc, version, item)? else {
            return Ok(None);
        };
        shapes.push(inside)?;
    }
    Ok(Some(shapes))
}

// A name and shapes, in an array of the two.
#[cycle(shape)]
#[tactic(auto, using(crate::proofs::NamePairs::rows))]
fn named_row(
    alloc: Global,
    version: Version,
    json: &Json,
) -> Result<Option<(Text, Vec<Shape>)>, AllocError>
    ensures { IfOk result (λ found. option_map (λ n. (n.0, map shape_view n.1.items)) found
        ≡ named_row_in version (view json.now)) }
{
    let Some((name, inside)) = named(json) else {
        return Ok(None);
    };
    match row(alloc, version, inside)? {
        Some(row) => Ok(Some((Text::new(alloc, name)?, row))),
        None => Ok(None),
    }
}

// A name and a shape, in an array of the two.
#[cycle(shape)]
#[tactic(auto, using(crate::proofs::NamePairs::shapes))]
fn named_shape(
    alloc: Global,
    version: Version,
    json: &Json,
) -> Result<Option<(Text, Box<Shape>)>, AllocError>
    ensures { IfOk result (λ found. option_map (λ n. (n.0, shape_view n.1.value)) found
        ≡ named_shape_in version (view json.now)) }
{
    let Some((name, inside)) = named(json) else {
        return Ok(None);
    };
    match boxed_shape(alloc, version, inside)? {
        Some(inside) => Ok(Some((Text::new(alloc, name)?, inside))),
        None => Ok(None),
    }
}

// A name and an array of fields, in an array of the two.
#[cycle(shape)]
#[tactic(auto, using(crate::proofs::NamePairs::structs))]
fn named_fields(
    alloc: Global,
    version: Version,
    json: &Json,
) -> Result<Option<(Text, Fields)>, AllocError>
    ensures fields { IfOk result (λ found. option_map (λ n. (n.0, fields_view n.1)) found
        ≡ named_fields_in version (view json.now)) }
    ensures even { IfOk result (λ found. IfSome found (λ n. length n.1.names ≡ length n.1.shapes.items)) }
{
    let Some((name, inside)) = named(json) else {
        return Ok(None);
    };
    match fields(alloc, version, inside)? {
        Some(fields) => Ok(Some((Text::new(alloc, name)?, fields))),
        None => Ok(None),
    }
}

/// Fields in an array, each in an array of its name and its shape.
#[cycle(shape)]
pub fn fields(alloc: Global, version: Version, json: &Json) -> Result<Option<Fields>, AllocError>
    ensures fields { IfOk result (λ found. option_map fields_view found ≡ fields_in version (view json.now)) }
    ensures even { IfOk result (λ found. IfSome found (λ f. length f.names ≡ length f.shapes.items)) }
{
    match json {
        Json::Array(items) => fields_of_items(alloc, version, items),
        _ => Ok(None),
    }
}

#[cycle(shape)]
#[tactic(auto, using(crate::proofs::Elements::steps))]
fn fields_of_items(
    alloc: Global,
    version: Version,
    items: &[Json],
) -> Result<Option<Fields>, AllocError>
    ensures fields { IfOk result (λ found. option_map fields_view found ≡ fields_from version (items_view items.now)) }
    ensures even { IfOk result (λ found. IfSome found (λ f. length f.names ≡ length f.shapes.items)) }
{
    let mut fields = Fields::new(alloc);
    for item in items {
        let Some((name, inside)) = field(alloc, version, item)? else {
            return Ok(None);
        };
        if fields.push(name, inside).is_err() {
            return Err(AllocError);
        }
    }
    Ok(Some(fields))
}

#[cycle(shape)]
#[tactic(auto, using(crate::proofs::NamePairs::shapes))]
fn field(alloc: Global, version: Version, json: &Json) -> Result<Option<(Text, Shape)>, AllocError>
    ensures { IfOk result (λ found. option_map (λ n. (n.0, shape_view n.1)) found
        ≡ named_shape_in version (view json.now)) }
{
    let Some((name, inside)) = named(json) else {
        return Ok(None);
    };
    match shape(alloc, version, inside)? {
        Some(inside) => Ok(Some((Text::new(alloc, name)?, inside))),
        None => Ok(None),
    }
}

fn unit_struct(alloc: Global, json: &Json) -> Result<Option<Shape>, AllocError>
    ensures { IfOk result (λ found. option_map shape_view found ≡ unit_struct_in (view json.now)) }
{
    match name(json) {
        Some(name) => Ok(Some(Shape::UnitStruct(Text::new(alloc, name)?))),
        None => Ok(None),
    }
}
