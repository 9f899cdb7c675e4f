//! Shapes of older documents.
ghost use Rattle.std.specs.Prelude.{◌≡◌, map};
ghost use Rattle.shape.specs.Upgraded.{upgraded, upgraded_payload};
ghost use Rattle.shape.specs.View.{shape_view, variant_shape_view};

use crate::shapes::{Fields, MapShape, Shape, VariantShape, Variants};
use std::mem;

/// The shape by which a document of version 1 is read: in it every tuple is a prefix, every tuple
/// struct the prefix of one, and every struct a loose one, that of a variant too, at every depth. A
/// tuple variant keeps its size. It is this project's own. Takes no memory, and recurses as deep as
/// the shape nests.
#[cycle(upgrade)]
#[tactic(auto, using(crate::proofs::Views::rows))]
pub fn upgrade(shape: Shape) -> Shape
    ensures { shape_view result ≡ upgraded (shape_view shape) }
{
    match shape {
        Shape::Bool => Shape::Bool,
        Shape::U8 => Shape::U8,
        Shape::U16 => Shape::U16,
        Shape::U32 => Shape::U32,
        Shape::U64 => Shape::U64,
        Shape::I8 => Shape::I8,
        Shape::I16 => Shape::I16,
        Shape::I32 => Shape::I32,
        Shape::I64 => Shape::I64,
        Shape::Char => Shape::Char,
        Shape::Text => Shape::Text,
        Shape::Bytes => Shape::Bytes,
        Shape::Unit => Shape::Unit,
        Shape::UnitStruct(name) => Shape::UnitStruct(name),
        Shape::Option(inner) => Shape::Option(upgrade_inner(inner)),
        Shape::Seq(inner) => Shape::Seq(upgrade_inner(inner)),
        Shape::Tuple(shapes) => Shape::Prefix(upgrade_all(shapes)),
        Shape::TupleStruct(name, shapes) => Shape::PrefixStruct(name, upgrade_all(shapes)),
        Shape::Prefix(shapes) => Shape::Prefix(upgrade_all(shapes)),
        Shape::PrefixStruct(name, shapes) => Shape::PrefixStruct(name, upgrade_all(shapes)),
        Shape::Map(shapes) => Shape::Map(upgrade_map(shapes)),
        Shape::Newtype(name, inner) => Shape::Newtype(name, upgrade_inner(inner)),
        Shape::Struct(name, fields) => Shape::Loose(name, upgrade_fields(fields)),
        Shape::Strict(name, fields) => Shape::Strict(name, upgrade_fields(fields)),
        Shape::Loose(name, fields) => Shape::Loose(name, upgrade_fields(fields)),
        Shape::Enum(name, variants) => Shape::Enum(name, upgrade_variants(variants)),
    }
}

// The inside of an option, a sequence or a newtype, which stays in its box.
#[cycle(upgrade)]
fn upgrade_inner(inner: Box<Shape>) -> Box<Shape>
    ensures { shape_view result.value ≡ upgraded (shape_view inner.value) }
{
    let mut inner = inner;
    let shape = mem::replace(&mut *inner, Shape::Unit);
    *inner = upgrade(shape);
    inner
}

// The shapes of a map, which stay in their box.
#[cycle(upgrade)]
fn upgrade_map(shapes: Box<MapShape>) -> Box<MapShape>
    ensures key { shape_view result.value.key ≡ upgraded (shape_view shapes.value.key) }
    ensures value { shape_view result.value.value ≡ upgraded (shape_view shapes.value.value) }
{
    let mut shapes = shapes;
    let key = mem::replace(&mut shapes.key, Shape::Unit);
    shapes.key = upgrade(key);
    let value = mem::replace(&mut shapes.value, Shape::Unit);
    shapes.value = upgrade(value);
    shapes
}

// The fields of a struct, whose names stay.
#[cycle(upgrade)]
fn upgrade_fields(fields: Fields) -> Fields
    ensures names { result.names ≡ fields.names }
    ensures shapes { map shape_view result.shapes.items ≡ map (λ shape. upgraded (shape_view shape)) fields.shapes.items }
{
    let Fields { names, shapes } = fields;
    Fields {
        names,
        shapes: upgrade_all(shapes),
    }
}

// The variants of an enum, whose names stay.
#[cycle(upgrade)]
fn upgrade_variants(variants: Variants) -> Variants
    ensures names { result.names ≡ variants.names }
    ensures shapes { map variant_shape_view result.shapes.items ≡ map (λ shape. upgraded_payload (variant_shape_view shape)) variants.shapes.items }
{
    let Variants { names, shapes } = variants;
    Variants {
        names,
        shapes: upgrade_payloads(shapes),
    }
}

// What is read of variants beside their names, each at its place.
#[cycle(upgrade)]
fn upgrade_payloads(shapes: Vec<VariantShape>) -> Vec<VariantShape>
    ensures { map variant_shape_view result.items ≡ map (λ shape. upgraded_payload (variant_shape_view shape)) shapes.items }
{
    let mut shapes = shapes;
    for i in 0..shapes.len() {
        let shape = mem::replace(&mut shapes[i], VariantShape::Unit);
        shapes[i] = upgrade_payload(shape);
    }
    shapes
}

// What is read of a variant beside its name.
#[cycle(upgrade)]
#[tactic(auto, using(crate::proofs::Views::rows))]
fn upgrade_payload(shape: VariantShape) -> VariantShape
    ensures { variant_shape_view result ≡ upgraded_payload (variant_shape_view shape) }
{
    match shape {
        VariantShape::Unit => VariantShape::Unit,
        VariantShape::Newtype(inner) => VariantShape::Newtype(upgrade_inner(inner)),
        VariantShape::Tuple(shapes) => VariantShape::Tuple(upgrade_all(shapes)),
        VariantShape::Struct(fields) => VariantShape::Loose(upgrade_fields(fields)),
        VariantShape::Strict(fields) => VariantShape::Strict(upgrade_fields(fields)),
        VariantShape::Loose(fields) => VariantShape::Loose(upgrade_fields(fields)),
    }
}

// The shapes of a row, each at its place.
#[cycle(upgrade)]
fn upgrade_all(shapes: Vec<Shape>) -> Vec<Shape>
    ensures { map shape_view result.items ≡ map (λ shape. upgraded (shape_view shape)) shapes.items }
{
    let mut shapes = shapes;
    for i in 0..shapes.len() {
        let shape = mem::replace(&mut shapes[i], Shape::Unit);
        shapes[i] = upgrade(shape);
    }
    shapes
}
