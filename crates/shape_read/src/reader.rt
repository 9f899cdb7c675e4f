//! Readers by shape.
ghost use Rattle.std.specs.Prelude.{◌≡◌};
ghost use Rattle.data_core.specs.Ask.{ask};
ghost use Rattle.data_core.specs.Show.{shown_offer, Begins};
ghost use Rattle.data_core.specs.Outcome.{Gives};
ghost use Rattle.data_core.specs.Tracking.{Keeps};
ghost use Rattle.shape_read.specs.First.{asks, visited, first, option_of, newtype_of};
ghost use Rattle.shape.specs.View.{shape_view, data_view};

use crate::entries::visit_map;
use crate::enums::visit_enum;
use crate::rows::{visit_seq, visit_tuple};
use crate::scalars::{
    visit_bool, visit_bytes, visit_char, visit_signed, visit_text, visit_unit, visit_unsigned,
};
use crate::structs::visit_struct;
use data_core::{DeError, Deserializer, Hint, Scalar, Shown, Track, refused};
use shape::{Data, DataHeld, Shape};
use std::alloc::Global;

/// What a shape hopes for. Takes no memory.
#[tactic(auto, using(crate::proofs::Readers::rows))]
pub fn hint(shape: &Shape) -> Hint<'_>
    ensures { ask result ≡ asks (shape_view shape.now) }
{
    match shape {
        Shape::Bool => Hint::Bool,
        Shape::U8 => Hint::U8,
        Shape::U16 => Hint::U16,
        Shape::U32 => Hint::U32,
        Shape::U64 => Hint::U64,
        Shape::I8 => Hint::I8,
        Shape::I16 => Hint::I16,
        Shape::I32 => Hint::I32,
        Shape::I64 => Hint::I64,
        Shape::Char => Hint::Char,
        Shape::Text => Hint::String,
        Shape::Bytes => Hint::ByteBuf,
        Shape::Unit => Hint::Unit,
        Shape::UnitStruct(name) => Hint::UnitStruct(name.as_str()),
        Shape::Option(_) => Hint::Option,
        Shape::Seq(_) => Hint::Seq,
        Shape::Tuple(shapes) => Hint::Tuple(shapes.len()),
        Shape::TupleStruct(name, shapes) => Hint::TupleStruct(name.as_str(), shapes.len()),
        Shape::Prefix(shapes) => Hint::Tuple(shapes.len()),
        Shape::PrefixStruct(name, shapes) => Hint::TupleStruct(name.as_str(), shapes.len()),
        Shape::Map(_) => Hint::Map,
        Shape::Newtype(name, _) => Hint::NewtypeStruct(name.as_str()),
        Shape::Struct(name, fields) => Hint::Struct(name.as_str(), fields.names()),
        Shape::Strict(name, fields) => Hint::Struct(name.as_str(), fields.names()),
        Shape::Loose(name, fields) => Hint::Struct(name.as_str(), fields.names()),
        Shape::Enum(name, variants) => Hint::Enum(name.as_str(), variants.names()),
    }
}

/// Reads data of a shape. `track` then holds the path of a refusal, if `D` tracks and no path was
/// held before.
#[cycle(read)]
#[tactic(auto, using(crate::specs::Refusals::visited_refused))]
pub fn read<D: Deserializer>(
    alloc: Global,
    shape: &Shape,
    d: D,
    track: &mut Track,
) -> Result<Data, D::Error>
    ensures value { Gives D.Error.fault D.tracks data_view result
        (first (shape_view shape.now) (D.source d)) track.old track.new }
    ensures keeps { Keeps D.Error.fault (Unit {0}) D.tracks result track.old track.new }
{
    let shown = d.show(hint(shape))?;
    visit(alloc, shape, shown, track)
}

/// Makes data of a shape of what is shown. `track` then holds the path of a refusal, if `D` tracks
/// and no path was held before. It recurses as deep as the shape nests, and takes memory for elements
/// as they come, however many are said to be left.
#[cycle(read)]
pub fn visit<D: Deserializer>(
    alloc: Global,
    shape: &Shape,
    shown: Shown<D>,
    track: &mut Track,
) -> Result<Data, D::Error>
    requires { Begins D.sequence D.table D.key_text D.name_text shown }
    ensures value { Gives D.Error.fault D.tracks data_view result
        (visited (shape_view shape.now) (shown_offer D.Text.text D.Bytes.bytes D.source D.sequence D.table D.choice shown))
        track.old track.new }
    ensures keeps { Keeps D.Error.fault (Unit {0}) D.tracks result track.old track.new }
{
    match shape {
        Shape::Bool => visit_bool(alloc, shown),
        Shape::U8 => visit_unsigned(alloc, shown, u64::from(u8::MAX), "u8"),
        Shape::U16 => visit_unsigned(alloc, shown, u64::from(u16::MAX), "u16"),
        Shape::U32 => visit_unsigned(alloc, shown, u64::from(u32::MAX), "u32"),
        Shape::U64 => visit_unsigned(alloc, shown, u64::MAX, "u64"),
        Shape::I8 => visit_signed(alloc, shown, i8::MAX as u64, "i8"),
        Shape::I16 => visit_signed(alloc, shown, i16::MAX as u64, "i16"),
        Shape::I32 => visit_signed(alloc, shown, i32::MAX as u64, "i32"),
        Shape::I64 => visit_signed(alloc, shown, i64::MAX as u64, "i64"),
        Shape::Char => visit_char(alloc, shown),
        Shape::Text => visit_text(alloc, shown),
        Shape::Bytes => visit_bytes(alloc, shown),
        Shape::Unit => visit_unit(alloc, shown, "unit"),
        Shape::UnitStruct(_) => visit_unit(alloc, shown, "unit struct"),
        Shape::Option(inner) => visit_option(alloc, inner, shown, track),
        Shape::Seq(inner) => visit_seq(alloc, inner, shown, track),
        Shape::Tuple(row) => visit_tuple(alloc, row, true, shown, "tuple", track),
        Shape::TupleStruct(_, row) => visit_tuple(alloc, row, true, shown, "tuple struct", track),
        Shape::Prefix(row) => visit_tuple(alloc, row, false, shown, "tuple", track),
        Shape::PrefixStruct(_, row) => visit_tuple(alloc, row, false, shown, "tuple struct", track),
        Shape::Map(shapes) => visit_map(alloc, shapes, shown, track),
        Shape::Newtype(_, inner) => visit_newtype(alloc, inner, shown, track),
        Shape::Struct(_, fields) => visit_struct(alloc, fields, true, true, shown, track),
        Shape::Strict(_, fields) => visit_struct(alloc, fields, false, true, shown, track),
        Shape::Loose(_, fields) => visit_struct(alloc, fields, false, false, shown, track),
        Shape::Enum(_, variants) => visit_enum(alloc, variants, shown, track),
    }
}

#[cycle(read)]
fn visit_option<D: Deserializer>(
    alloc: Global,
    inner: &Shape,
    shown: Shown<D>,
    track: &mut Track,
) -> Result<Data, D::Error>
    ensures value { Gives D.Error.fault D.tracks data_view result
        (option_of (first (shape_view inner.now)) (shown_offer D.Text.text D.Bytes.bytes D.source D.sequence D.table D.choice shown))
        track.old track.new }
    ensures keeps { Keeps D.Error.fault (Unit {0}) D.tracks result track.old track.new }
{
    match shown {
        Shown::Scalar(Scalar::None | Scalar::Unit) => Ok(Data::Option(None)),
        Shown::Some(d) => {
            let value = read(alloc, inner, d, track)?;
            match Box::new(alloc, value) {
                Ok(value) => Ok(Data::Option(Some(DataHeld::from_box(value)))),
                Err(_) => Err(D::Error::memory()),
            }
        }
        other => Err(refused(alloc, other, "option")),
    }
}

#[cycle(read)]
fn visit_newtype<D: Deserializer>(
    alloc: Global,
    inner: &Shape,
    shown: Shown<D>,
    track: &mut Track,
) -> Result<Data, D::Error>
    ensures value { Gives D.Error.fault D.tracks data_view result
        (newtype_of (first (shape_view inner.now)) (shown_offer D.Text.text D.Bytes.bytes D.source D.sequence D.table D.choice shown))
        track.old track.new }
    ensures keeps { Keeps D.Error.fault (Unit {0}) D.tracks result track.old track.new }
{
    match shown {
        Shown::NewtypeStruct(d) => {
            let value = read(alloc, inner, d, track)?;
            match Box::new(alloc, value) {
                Ok(value) => Ok(Data::Newtype(DataHeld::from_box(value))),
                Err(_) => Err(D::Error::memory()),
            }
        }
        other => Err(refused(alloc, other, "newtype struct")),
    }
}
