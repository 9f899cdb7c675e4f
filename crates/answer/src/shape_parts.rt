//! The shapes of the parts of values. A value that is of no such shape has parts of none.
ghost use Rattle.std.specs.Prelude.{◌≡◌, Some, map, option_map, slice_get};
ghost use Rattle.answer.specs.Line.{shape_inside, shapes_of_elements, element_at, shape_of_keys, shape_of_values, shapes_of_fields, shape_at};
ghost use Rattle.shape.specs.Shape.{shapes_of};
ghost use Rattle.shape.specs.View.{shape_view};
ghost use Rattle.answer.specs.LentShape.{lent, elements_view, lent_fields};

use shape::{Fields, Shape};

/// The shapes of elements.
#[derive(Clone, Copy)]
pub enum Elements<'s> {
    /// One of all.
    Every(Option<&'s Shape>),
    /// One for each place.
    Row(&'s [Shape]),
}

/// What an option or a newtype holds.
pub fn inside_shape(shape: Option<&Shape>) -> Option<&Shape>
    ensures { lent result ≡ shape_inside (lent shape.entry) }
{
    match shape? {
        Shape::Option(inside) | Shape::Newtype(_, inside) => Some(inside),
        _ => None,
    }
}

/// The elements of a sequence or a tuple.
pub fn element_shapes(shape: Option<&Shape>) -> Elements<'_>
    ensures { elements_view result ≡ shapes_of_elements (lent shape.entry) }
{
    match shape {
        Some(shape) => shapes_within(shape),
        None => Elements::Every(None),
    }
}

#[tactic(auto, using(shape::proofs::Views::views_of_rows))]
fn shapes_within(shape: &Shape) -> Elements<'_>
    ensures { elements_view result ≡ shapes_of_elements (Some (shape_view shape.now)) }
{
    match shape {
        Shape::Seq(element) => Elements::Every(Some(element)),
        Shape::Tuple(row) => Elements::Row(row),
        Shape::TupleStruct(_name, row) => Elements::Row(row),
        Shape::Prefix(row) => Elements::Row(row),
        Shape::PrefixStruct(_name, row) => Elements::Row(row),
        _ => Elements::Every(None),
    }
}

/// The element at a place.
pub fn element_shape(elements: Elements<'_>, place: usize) -> Option<&Shape>
    ensures { lent result ≡ element_at (elements_view elements.entry) place }
{
    match elements {
        Elements::Every(element) => element,
        Elements::Row(row) => at(row, place),
    }
}

/// The keys of a map.
pub fn key_shape(shape: Option<&Shape>) -> Option<&Shape>
    ensures { lent result ≡ shape_of_keys (lent shape.entry) }
{
    match shape? {
        Shape::Map(shapes) => Some(&shapes.key),
        _ => None,
    }
}

/// The values of a map.
pub fn value_shape(shape: Option<&Shape>) -> Option<&Shape>
    ensures { lent result ≡ shape_of_values (lent shape.entry) }
{
    match shape? {
        Shape::Map(shapes) => Some(&shapes.value),
        _ => None,
    }
}

/// The fields of a struct.
#[tactic(auto, using(shape::proofs::Views::views_of_rows))]
pub fn field_shapes(shape: Option<&Shape>) -> Option<&Fields>
    ensures { lent_fields result ≡ shapes_of_fields (lent shape.entry) }
{
    match shape? {
        Shape::Struct(_name, fields) => Some(fields),
        Shape::Strict(_name, fields) => Some(fields),
        Shape::Loose(_name, fields) => Some(fields),
        _ => None,
    }
}

/// The field at a place.
pub fn field_shape(fields: Option<&Fields>, place: usize) -> Option<&Shape>
    ensures { lent result ≡ shape_at (lent_fields fields.entry).shapes place }
{
    at(fields?.shapes(), place)
}

/// The name of the field at a place.
pub fn field_name(fields: Option<&Fields>, place: usize) -> Option<&str>
    ensures { option_map (λ n. n.now) result ≡ slice_get (lent_fields fields.entry).names place }
{
    fields?.names().get(place)
}

// The shape at a place of a row.
#[tactic(auto, using(crate::proofs::Rows::rows))]
fn at(row: &[Shape], place: usize) -> Option<&Shape>
    ensures { lent result ≡ shape_at (shapes_of (map shape_view row.now)) place }
{
    if place < row.len() {
        Some(&row[place])
    } else {
        None
    }
}
