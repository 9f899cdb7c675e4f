//! Shapes, made of their parts.

use data_core::Text;
use shape::{Fields, MapShape, Shape, VariantShape, Variants};
use std::alloc::{AllocError, Global};

/// An option.
pub fn option(alloc: Global, inner: Shape) -> Result<Shape, AllocError> {
    Ok(Shape::Option(Box::new(alloc, inner)?))
}

/// A sequence.
pub fn seq(alloc: Global, inner: Shape) -> Result<Shape, AllocError> {
    Ok(Shape::Seq(Box::new(alloc, inner)?))
}

/// A map of small numbers to units.
pub fn map(alloc: Global) -> Result<Shape, AllocError> {
    let shapes = MapShape {
        key: Shape::U8,
        value: Shape::Unit,
    };
    Ok(Shape::Map(Box::new(alloc, shapes)?))
}

/// The shapes of a row of one small number.
pub fn one(alloc: Global) -> Result<Vec<Shape>, AllocError> {
    Ok(vec![in alloc; Shape::U8]?)
}

/// A newtype of the name N.
pub fn newtype(alloc: Global, inner: Shape) -> Result<Shape, AllocError> {
    let inner = Box::new(alloc, inner)?;
    Ok(Shape::Newtype(Text::new(alloc, "N")?, inner))
}

/// A small number `a`.
pub fn field(alloc: Global) -> Result<Fields, AllocError> {
    let mut fields = Fields::new(alloc);
    match fields.push(Text::new(alloc, "a")?, Shape::U8) {
        Ok(()) => Ok(fields),
        Err(_) => Err(AllocError),
    }
}

/// One variant `A`.
pub fn variant(alloc: Global, payload: VariantShape) -> Result<Variants, AllocError> {
    add(alloc, Variants::new(alloc), "A", payload)
}

/// Variants with one more at the end.
pub fn add(
    alloc: Global,
    variants: Variants,
    name: &str,
    payload: VariantShape,
) -> Result<Variants, AllocError> {
    let mut variants = variants;
    match variants.push(Text::new(alloc, name)?, payload) {
        Ok(()) => Ok(variants),
        Err(_) => Err(AllocError),
    }
}

/// A variant `A` of one small number, as a newtype.
pub fn newtype_variant(alloc: Global) -> Result<Variants, AllocError> {
    variant(alloc, VariantShape::Newtype(Box::new(alloc, Shape::U8)?))
}
