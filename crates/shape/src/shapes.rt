//! Shapes.
use data_core::{Names, Text};

/// What a reader is to read. It is this project's own. Dropping it recurses as deep as it nests.
#[cycle(shape)]
#[derive(Drop)]
pub enum Shape {
    Bool,
    U8,
    U16,
    U32,
    U64,
    I8,
    I16,
    I32,
    I64,
    Char,
    Text,
    Bytes,
    Unit,
    /// A unit struct, and its name.
    UnitStruct(Text),
    Option(Box<Shape>),
    /// A sequence of elements of one shape.
    Seq(Box<Shape>),
    /// So many elements, each of a shape of its own.
    Tuple(Vec<Shape>),
    /// A tuple struct: its name, and the shapes of its elements.
    TupleStruct(Text, Vec<Shape>),
    /// A tuple, after which more elements may come. They are read as what is ignored.
    Prefix(Vec<Shape>),
    /// A tuple struct, after which more elements may come. They are read as what is ignored.
    PrefixStruct(Text, Vec<Shape>),
    /// A map, whose keys have one shape and whose values have one.
    Map(Box<MapShape>),
    /// A newtype struct: its name, and the shape of its inside.
    Newtype(Text, Box<Shape>),
    /// A struct: its name and its fields. No other field and no further element is taken.
    Struct(Text, Fields),
    /// A struct, after whose elements more may come. They are read as what is ignored.
    Strict(Text, Fields),
    /// A struct, after whose elements more may come, and between whose fields others. They are read as
    /// what is ignored.
    Loose(Text, Fields),
    /// An enum: its name and its variants.
    Enum(Text, Variants),
}

/// The shapes of a map's keys and of its values. It is this project's own. Dropping it recurses as
/// deep as it nests.
#[cycle(shape)]
#[derive(Drop)]
pub struct MapShape {
    pub key: Shape,
    pub value: Shape,
}

/// The fields of a struct: their names, and the shape of each at the place of its name. It is this
/// project's own. Dropping it recurses as deep as it nests.
#[cycle(shape)]
#[derive(Drop)]
pub struct Fields {
    pub(crate) names: Names,
    pub(crate) shapes: Vec<Shape>,
}

/// The variants of an enum: their names, and the shape of each one's payload at the place of its name.
/// It is this project's own. Dropping it recurses as deep as it nests.
#[cycle(shape)]
#[derive(Drop)]
pub struct Variants {
    pub(crate) names: Names,
    pub(crate) shapes: Vec<VariantShape>,
}

/// What a reader is to read of a variant beside its name. It is this project's own. Dropping it
/// recurses as deep as it nests.
#[cycle(shape)]
#[derive(Drop)]
pub enum VariantShape {
    Unit,
    /// The shape of the inside.
    Newtype(Box<Shape>),
    /// So many elements, each of a shape of its own.
    Tuple(Vec<Shape>),
    /// Fields by name. No other field is taken.
    Struct(Fields),
    /// Fields by name. No other field is taken, in an upgraded shape too.
    Strict(Fields),
    /// Fields by name, between which others may come. They are read as what is ignored.
    Loose(Fields),
}
