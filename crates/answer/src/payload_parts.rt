//! The shapes of variants and of the parts of their payloads. A value that is of no such shape has parts
//! of none.
ghost use Rattle.std.specs.Prelude.{◌≡◌, map, option_map};
ghost use Rattle.answer.specs.Line.{variant_name as name_of, shape_of_payload, payload_at, inside_of_payload, elements_of_payload, fields_of_payload};
ghost use Rattle.shape.specs.Shape.{payloads_of};
ghost use Rattle.shape.specs.View.{variant_shape_view};
ghost use Rattle.answer.specs.LentShape.{lent, lent_payload, elements_view, lent_fields};

use crate::shape_parts::Elements;
use shape::{Fields, Shape, VariantShape};

/// The name of a variant.
#[tactic(auto, using(shape::proofs::Views::views_of_rows))]
pub fn variant_name(shape: Option<&Shape>, number: usize) -> Option<&str>
    ensures { option_map (λ n. n.now) result ≡ name_of (lent shape.entry) number }
{
    match shape? {
        Shape::Enum(_name, variants) => variants.names().get(number),
        _ => None,
    }
}

/// The payload of a variant.
#[tactic(auto, using(shape::proofs::Views::views_of_rows))]
pub fn payload_shape(shape: Option<&Shape>, number: usize) -> Option<&VariantShape>
    ensures { lent_payload result ≡ shape_of_payload (lent shape.entry) number }
{
    match shape? {
        Shape::Enum(_name, variants) => at(variants.shapes(), number),
        _ => None,
    }
}

/// What a newtype variant holds.
pub fn inside_of_variant(payload: Option<&VariantShape>) -> Option<&Shape>
    ensures { lent result ≡ inside_of_payload (lent_payload payload.entry) }
{
    match payload? {
        VariantShape::Newtype(inside) => Some(inside),
        _ => None,
    }
}

/// The elements of a tuple variant.
#[tactic(auto, using(shape::proofs::Views::views_of_rows))]
pub fn elements_of_variant(payload: Option<&VariantShape>) -> Elements<'_>
    ensures { elements_view result ≡ elements_of_payload (lent_payload payload.entry) }
{
    match payload {
        Some(VariantShape::Tuple(row)) => Elements::Row(row),
        _ => Elements::Every(None),
    }
}

/// The fields of a struct variant.
#[tactic(auto, using(shape::proofs::Views::views_of_rows))]
pub fn fields_of_variant(payload: Option<&VariantShape>) -> Option<&Fields>
    ensures { lent_fields result ≡ fields_of_payload (lent_payload payload.entry) }
{
    match payload? {
        VariantShape::Struct(fields) => Some(fields),
        VariantShape::Strict(fields) => Some(fields),
        VariantShape::Loose(fields) => Some(fields),
        _ => None,
    }
}

// The payload at a place.
#[tactic(auto, using(crate::proofs::Rows::payloads))]
fn at(payloads: &[VariantShape], place: usize) -> Option<&VariantShape>
    ensures { lent_payload result ≡ payload_at (payloads_of (map variant_shape_view payloads.now)) place }
{
    if place < payloads.len() {
        Some(&payloads[place])
    } else {
        None
    }
}
