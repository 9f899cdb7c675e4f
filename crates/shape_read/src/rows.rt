//! Readers of sequences and of rows, which have a shape for each element.
ghost use Rattle.std.specs.Prelude.{◌≡◌, OnOk, option_map};
ghost use Rattle.data_core.specs.Show.{shown_offer, Begins};
ghost use Rattle.data_core.specs.Sequence.{one_taken};
ghost use Rattle.data_core.specs.Took.{Took};
ghost use Rattle.data_core.specs.Tracking.{Keeps};
ghost use Rattle.data_core.specs.Outcome.{Gives};
ghost use Rattle.data_std.specs.Ignored.{ignored_rest};
ghost use Rattle.shape_read.specs.Parts.{each, row_of, refuse_rest, rest_of_row};
ghost use Rattle.shape_read.specs.First.{first, seq_of, tuple_of};
ghost use Rattle.shape.specs.View.{shape_view, data_view};
ghost use Rattle.shape_read.specs.Readers.{readers_of};
ghost use Rattle.shape_read.specs.Steps.{next_of, one_each, row_taken, all_viewed};

use crate::reader::read;
use data_core::{DeError, Deserializer, Shown, Track, refused};
use data_std::ignore_rest;
use shape::{Data, DataItems, Shape};
use std::alloc::Global;

/// Makes a sequence of what is shown, of which each element has one shape.
#[cycle(read)]
pub fn visit_seq<D: Deserializer>(
    alloc: Global,
    inner: &Shape,
    shown: Shown<D>,
    track: &mut Track,
) -> Result<Data, D::Error>
    requires { Begins D.sequence D.table D.key_text D.name_text shown }
    ensures value { Gives D.Error.fault D.tracks data_view result
        (seq_of (first (shape_view inner.now)) (shown_offer D.Text.text D.Bytes.bytes D.source D.sequence D.table D.choice shown))
        track.old track.new }
    ensures keeps { Keeps D.Error.fault (Unit {0}) D.tracks result track.old track.new }
{
    match shown {
        Shown::Seq(seq) => {
            let mut seq = seq;
            let items = read_each::<D>(alloc, inner, &mut seq, track)?;
            Ok(Data::Seq(DataItems::from_vec(items)))
        }
        other => Err(refused(alloc, other, "seq")),
    }
}

/// Makes a tuple of what is shown, by a shape for each element. Where it is `whole`, elements that are
/// left are refused where the end is checked, and else they are read as what is ignored. A refusal of
/// what is no sequence or too short names `expected` as what was expected.
#[cycle(read)]
pub fn visit_tuple<D: Deserializer>(
    alloc: Global,
    shapes: &[Shape],
    whole: bool,
    shown: Shown<D>,
    expected: &str,
    track: &mut Track,
) -> Result<Data, D::Error>
    requires { Begins D.sequence D.table D.key_text D.name_text shown }
    ensures value { Gives D.Error.fault D.tracks data_view result
        (tuple_of whole (readers_of shapes.now) (shown_offer D.Text.text D.Bytes.bytes D.source D.sequence D.table D.choice shown))
        track.old track.new }
    ensures keeps { Keeps D.Error.fault (Unit {0}) D.tracks result track.old track.new }
{
    match shown {
        Shown::Seq(seq) => {
            let items = read_elements::<D>(alloc, shapes, whole, seq, expected, track)?;
            Ok(Data::Seq(DataItems::from_vec(items)))
        }
        other => Err(refused(alloc, other, expected)),
    }
}

/// An element for each shape. Where it is `whole`, elements that are left are refused where the end is
/// checked, and else they are read as what is ignored.
#[cycle(read)]
pub fn read_elements<D: Deserializer>(
    alloc: Global,
    shapes: &[Shape],
    whole: bool,
    seq: D::Seq,
    expected: &str,
    track: &mut Track,
) -> Result<Vec<Data>, D::Error>
    requires { (D.sequence seq).taken ≡ 0 }
    ensures value { Gives D.Error.fault D.tracks all_viewed result
        (row_of (rest_of_row whole (D.sequence seq).checks) (readers_of shapes.now) 0 (D.sequence seq).left)
        track.old track.new }
    ensures keeps { Keeps D.Error.fault (Unit {0}) D.tracks result track.old track.new }
{
    if whole {
        read_whole::<D>(alloc, shapes, seq, expected, track)
    } else {
        read_prefix::<D>(alloc, shapes, seq, expected, track)
    }
}

// An element for each shape. One that is left is refused where the end is checked.
#[cycle(read)]
fn read_whole<D: Deserializer>(
    alloc: Global,
    shapes: &[Shape],
    seq: D::Seq,
    expected: &str,
    track: &mut Track,
) -> Result<Vec<Data>, D::Error>
    requires { (D.sequence seq).taken ≡ 0 }
    ensures value { Gives D.Error.fault D.tracks all_viewed result
        (row_of (refuse_rest (D.sequence seq).checks) (readers_of shapes.now) 0 (D.sequence seq).left)
        track.old track.new }
    ensures keeps { Keeps D.Error.fault (Unit {0}) D.tracks result track.old track.new }
{
    let mut seq = seq;
    let items = read_row::<D>(alloc, shapes, &mut seq, expected, track)?;
    D::end_seq(alloc, seq)?;
    Ok(items)
}

// An element for each shape. Those that are left are read as what is ignored.
#[cycle(read)]
fn read_prefix<D: Deserializer>(
    alloc: Global,
    shapes: &[Shape],
    seq: D::Seq,
    expected: &str,
    track: &mut Track,
) -> Result<Vec<Data>, D::Error>
    requires { (D.sequence seq).taken ≡ 0 }
    ensures value { Gives D.Error.fault D.tracks all_viewed result
        (row_of ignored_rest (readers_of shapes.now) 0 (D.sequence seq).left)
        track.old track.new }
    ensures keeps { Keeps D.Error.fault (Unit {0}) D.tracks result track.old track.new }
{
    let mut seq = seq;
    let items = read_row::<D>(alloc, shapes, &mut seq, expected, track)?;
    ignore_rest::<D>(alloc, &mut seq, track)?;
    Ok(items)
}

// Each element that is left, read by the same shape.
#[cycle(read)]
fn read_each<D: Deserializer>(
    alloc: Global,
    inner: &Shape,
    seq: &mut D::Seq,
    track: &mut Track,
) -> Result<Vec<Data>, D::Error>
    ensures value { Gives D.Error.fault D.tracks all_viewed result
        (each (first (shape_view inner.now)) (D.sequence seq.old).taken (D.sequence seq.old).left)
        track.old track.new }
    ensures keeps { Keeps D.Error.fault (Unit {0}) D.tracks result track.old track.new }
{
    let mut items = Vec::new(alloc);
    'reads: while let Some(item) = read_element::<D>(alloc, inner, seq, track)? {
        if items.push(item).is_err() {
            return Err(D::Error::memory());
        }
    }
    Ok(items)
}

// The next elements, one for each shape.
#[cycle(read)]
fn read_row<D: Deserializer>(
    alloc: Global,
    shapes: &[Shape],
    seq: &mut D::Seq,
    expected: &str,
    track: &mut Track,
) -> Result<Vec<Data>, D::Error>
    requires { (D.sequence seq.old).taken ≡ 0 }
    ensures value { Gives D.Error.fault D.tracks all_viewed result
        (one_each (readers_of shapes.now) 0 (D.sequence seq.old).left)
        track.old track.new }
    ensures took { OnOk result (D.sequence seq.new ≡ row_taken (readers_of shapes.now) (D.sequence seq.old)) }
    ensures keeps { Keeps D.Error.fault (Unit {0}) D.tracks result track.old track.new }
{
    let mut items = Vec::new(alloc);
    'reads: for shape in shapes {
        let Some(item) = read_element::<D>(alloc, shape, seq, track)? else {
            return Err(D::Error::invalid_length(alloc, items.len(), expected));
        };
        if items.push(item).is_err() {
            return Err(D::Error::memory());
        }
    }
    Ok(items)
}

// The next element of a sequence.
#[cycle(read)]
fn read_element<D: Deserializer>(
    alloc: Global,
    shape: &Shape,
    seq: &mut D::Seq,
    track: &mut Track,
) -> Result<Option<Data>, D::Error>
    ensures value { Gives D.Error.fault D.tracks (option_map data_view) result
        (next_of (first (shape_view shape.now)) (D.sequence seq.old).taken (D.sequence seq.old).left)
        track.old track.new }
    ensures took { Took D.Error.fault result (D.sequence seq.old) (one_taken (D.sequence seq.old)) (D.sequence seq.new) }
    ensures keeps { Keeps D.Error.fault (Unit {0}) D.tracks result track.old track.new }
{
    let Some(element) = D::next_element(seq)? else {
        return Ok(None);
    };
    let before = track.holds();
    let value = read(alloc, shape, element, track);
    D::leave_element(seq, before, value.is_err(), track)?;
    Ok(Some(value?))
}
