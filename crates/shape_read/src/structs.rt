//! Readers of structs.
ghost use Rattle.std.specs.Prelude.{◌≡◌, ◌<◌, true, Some, None, OnOk, IfOk, IfSome, IsSome, length, replicate, slice_get};
ghost use Rattle.data_core.specs.Ask.{identifier};
ghost use Rattle.data_core.specs.Source.{Source, offer_of};
ghost use Rattle.data_core.specs.Table.{Catches, offer_text, value_taken, entry_segment, segment_of_key};
ghost use Rattle.data_core.specs.declared.path.Segment.{Segment};
ghost use Rattle.data_core.specs.Fault.{IsCalled};
ghost use Rattle.data_core.specs.declared.fault.Fault.TheVariants.{DuplicateField};
ghost use Rattle.data_core.specs.Show.{shown_offer, Begins};
ghost use Rattle.data_core.specs.Tracking.{Keeps};
ghost use Rattle.data_core.specs.Outcome.{Answers, Gives};
ghost use Rattle.data_std.specs.Ignored.{at_key};
ghost use Rattle.shape_read.specs.Fields.{is_option, place_of, known, place_of_key, put_field, field_step, filled, completed, named};
ghost use Rattle.shape_read.specs.Parts.{each_entry};
ghost use Rattle.shape_read.specs.First.{struct_of};
ghost use Rattle.shape_read.specs.Steps.{all_viewed};
ghost use Rattle.shape.specs.View.{shape_view, data_view};
ghost use Rattle.shape_read.specs.Readers.{readers_of, fields_in, slots_view, slot_view};

use crate::entries::read_value;
use crate::rows::read_elements;
use data_core::{DeError, Deserializer, Hint, Scalar, Shown, TextLike, Track, refused};
use data_std::ignore_value;
use shape::{Data, DataItems, Fields, Shape};
use std::alloc::{AllocError, Global};

/// Makes a struct of what is shown: of elements by position, or of entries by name. Where it is
/// `whole`, elements that are left are refused where the end is checked, and else they are read as
/// what is ignored. Where it is `strict`, a name that is none of the fields' is refused, and else its
/// value is read as what is ignored.
#[cycle(read)]
pub fn visit_struct<D: Deserializer>(
    alloc: Global,
    fields: &Fields,
    whole: bool,
    strict: bool,
    shown: Shown<D>,
    track: &mut Track,
) -> Result<Data, D::Error>
    requires { Begins D.sequence D.table D.key_text D.name_text shown }
    ensures value { Gives D.Error.fault D.tracks data_view result
        (struct_of whole strict (fields_in fields.now) (readers_of fields.now.shapes.items)
        (shown_offer D.Text.text D.Bytes.bytes D.source D.sequence D.table D.choice shown))
        track.old track.new }
    ensures keeps { Keeps D.Error.fault (Unit {0}) D.tracks result track.old track.new }
{
    match shown {
        Shown::Seq(seq) => {
            let shapes = fields.shapes();
            let items = read_elements::<D>(alloc, shapes, whole, seq, "struct", track)?;
            Ok(Data::Struct(DataItems::from_vec(items)))
        }
        Shown::Map(map) => {
            let mut map = map;
            let items = read_named::<D>(alloc, fields, strict, &mut map, track)?;
            Ok(Data::Struct(DataItems::from_vec(items)))
        }
        other => Err(refused(alloc, other, "struct")),
    }
}

/// The value of each field, from entries in any order. Where it is `strict`, a name that is none of
/// the fields' is refused, and else its value is read as what is ignored.
#[cycle(read)]
pub fn read_named<D: Deserializer>(
    alloc: Global,
    fields: &Fields,
    strict: bool,
    map: &mut D::Map,
    track: &mut Track,
) -> Result<Vec<Data>, D::Error>
    ensures value { Gives D.Error.fault D.tracks all_viewed result
        (named strict (fields_in fields.now) (D.table map.old).left) track.old track.new }
    ensures keeps { Keeps D.Error.fault (Unit {0}) D.tracks result track.old track.new }
{
    let slots = read_fields::<D>(alloc, fields, strict, map, track)?;
    finish::<D>(alloc, fields, slots)
}

// Each entry that is left, put into the slot of its field.
#[cycle(read)]
fn read_fields<D: Deserializer>(
    alloc: Global,
    fields: &Fields,
    strict: bool,
    map: &mut D::Map,
    track: &mut Track,
) -> Result<Vec<Option<Data>>, D::Error>
    ensures value { Gives D.Error.fault D.tracks slots_view result
        (each_entry (field_step strict (fields_in fields.now)) (replicate (length (fields_in fields.now)) None) (D.table map.old).left)
        track.old track.new }
    ensures slots { IfOk result (λ slots. length slots.items ≡ length (fields_in fields.now)) }
    ensures keeps { Keeps D.Error.fault (Unit {0}) D.tracks result track.old track.new }
{
    let Ok(mut slots) = empty_slots(alloc, fields.len()) else {
        return Err(D::Error::memory());
    };
    'reads: while let Some(key) = D::next_key(map)? {
        read_field(alloc, fields, strict, &mut slots, map, key, track)?;
    }
    Ok(slots)
}

// Slots in which nothing is.
fn empty_slots(alloc: Global, count: usize) -> Result<Vec<Option<Data>>, AllocError>
    ensures { IfOk result (λ slots. slots.items ≡ replicate count None) }
{
    let mut slots = Vec::new(alloc);
    'slots: for _ in 0..count {
        slots.push(None)?;
    }
    Ok(slots)
}

// The key that was taken last, and the value that waits, put into its field's slot.
#[cycle(read)]
fn read_field<D: Deserializer>(
    alloc: Global,
    fields: &Fields,
    strict: bool,
    slots: &mut Vec<Option<Data>>,
    map: &mut D::Map,
    key: D,
    track: &mut Track,
) -> Result<(), D::Error>
    requires waits { IsSome (D.table map.old).waiting }
    requires slots { length slots.old.items ≡ length (fields_in fields.now) }
    ensures value { (v : Source) → (D.table map.old).waiting ≡ Some v → Gives D.Error.fault D.tracks (λ u. slots_view slots.new) result
        (field_step strict (fields_in fields.now) (slots_view slots.old) (D.source key) v) track.old track.new }
    ensures took { OnOk result (D.table map.new ≡ value_taken (D.table map.old)) }
    ensures slots { length slots.new.items ≡ length slots.old.items }
    ensures keeps { Keeps D.Error.fault (Unit {0}) D.tracks result track.old track.new }
{
    let place = read_place(alloc, fields, strict, map, key, track)?;
    match place {
        Some(place) => put::<D>(alloc, fields, place, slots, map, track),
        None => ignore_value::<D>(alloc, map, track),
    }
}

// The place of the field that the key that was taken last names. The path of a refusal is the
// entry's segment alone.
fn read_place<D: Deserializer>(
    alloc: Global,
    fields: &Fields,
    strict: bool,
    map: &mut D::Map,
    key: D,
    track: &mut Track,
) -> Result<Option<usize>, D::Error>
    ensures value { Gives D.Error.fault D.tracks (λ place. place) result
        (at_key (segment_of_key identifier (D.source key)) (place_of_key strict (fields_in fields.now) (offer_of (D.source key) identifier)))
        track.old track.new }
    ensures caught { D.tracks ≡ true → OnOk result (D.key_text map.new ≡ offer_text (offer_of (D.source key) identifier)) }
    ensures table { D.table map.new ≡ D.table map.old }
    ensures within { IfOk result (λ place. IfSome place (λ i. i < length (fields_in fields.now))) }
    ensures named { IfOk result (λ place. IfSome place (λ i. i < length fields.now.names)) }
    ensures shaped { IfOk result (λ place. IfSome place (λ i. i < length fields.now.shapes.items)) }
    ensures keeps { Keeps D.Error.fault (Unit {0}) D.tracks result track.old track.new }
{
    let before = track.holds();
    let place = visit_key(alloc, fields, strict, map, key);
    D::leave_key(map, before, place.is_err(), track)?;
    place
}

// The place of the field that a key names.
fn visit_key<D: Deserializer>(
    alloc: Global,
    fields: &Fields,
    strict: bool,
    map: &mut D::Map,
    key: D,
) -> Result<Option<usize>, D::Error>
    ensures value { Answers D.Error.fault (λ place. place) result (place_of_key strict (fields_in fields.now) (offer_of (D.source key) identifier)) }
    ensures caught { D.tracks ≡ true → Catches D.Error.fault result
        (offer_text (offer_of (D.source key) identifier)) (D.key_text map.new) }
    ensures table { D.table map.new ≡ D.table map.old }
{
    let shown = D::show_key(map, key, Hint::Identifier)?;
    visit_place(alloc, fields, strict, shown)
}

// The place of the field that is shown: of a text, or of a character as its text.
fn visit_place<D: Deserializer>(
    alloc: Global,
    fields: &Fields,
    strict: bool,
    shown: Shown<D>,
) -> Result<Option<usize>, D::Error>
    ensures { Answers D.Error.fault (λ place. place) result
        (place_of_key strict (fields_in fields.now) (shown_offer D.Text.text D.Bytes.bytes D.source D.sequence D.table D.choice shown)) }
{
    match shown {
        Shown::Scalar(Scalar::Text(text)) => {
            find_place::<D>(alloc, fields, strict, text.as_str())
        }
        Shown::Scalar(Scalar::Char(c)) => {
            let mut room = [0u8; 4];
            find_place::<D>(alloc, fields, strict, c.encode_utf8(&mut room))
        }
        other => Err(refused(alloc, other, "field identifier")),
    }
}

// The place of the field of a name. Another name is refused, or has none.
#[tactic(auto, using(crate::proofs::Places::place_in_fields))]
fn find_place<D: Deserializer>(
    alloc: Global,
    fields: &Fields,
    strict: bool,
    name: &str,
) -> Result<Option<usize>, D::Error>
    ensures { Answers D.Error.fault (λ place. place) result (known strict name.now (place_of name.now (fields_in fields.now))) }
{
    match fields.find(name) {
        None if strict => Err(D::Error::unknown_field(alloc, name, fields.names())),
        place => Ok(place),
    }
}

// The value that waits, put into the slot of its field. A slot that is taken is refused here.
#[cycle(read)]
fn put<D: Deserializer>(
    alloc: Global,
    fields: &Fields,
    place: usize,
    slots: &mut Vec<Option<Data>>,
    map: &mut D::Map,
    track: &mut Track,
) -> Result<(), D::Error>
    requires waits { IsSome (D.table map.old).waiting }
    requires named { place < length fields.now.names }
    requires shaped { place < length fields.now.shapes.items }
    requires slot { place < length slots.old.items }
    ensures value { (segment : Segment) → (D.tracks ≡ true → segment ≡ entry_segment (D.key_text map.old))
        → (v : Source) → (D.table map.old).waiting ≡ Some v → Gives D.Error.fault D.tracks (λ u. slots_view slots.new) result
        (put_field segment v (slots_view slots.old) place (slice_get (fields_in fields.now) place) (slice_get (slots_view slots.old) place))
        track.old track.new }
    ensures took { OnOk result (D.table map.new ≡ value_taken (D.table map.old)) }
    ensures slots { length slots.new.items ≡ length slots.old.items }
    ensures keeps { Keeps D.Error.fault (Unit {0}) D.tracks result track.old track.new }
{
    if slots[place].is_some() {
        return Err(duplicate::<D>(alloc, fields, place));
    }
    let value = read_value::<D>(alloc, &fields.shapes()[place], map, track)?;
    slots[place] = Some(value);
    Ok(())
}

// The refusal of a field that came twice.
fn duplicate<D: Deserializer>(alloc: Global, fields: &Fields, place: usize) -> D::Error
    requires { place < length fields.now.names }
    ensures { IfSome (slice_get fields.now.names place) (λ name. IsCalled (D.Error.fault result) (DuplicateField name)) }
{
    match fields.names().get(place) {
        Some(name) => D::Error::duplicate_field(alloc, name),
        None => D::Error::memory(),
    }
}

// The value of each field, once every entry was read.
fn finish<D: Deserializer>(
    alloc: Global,
    fields: &Fields,
    slots: Vec<Option<Data>>,
) -> Result<Vec<Data>, D::Error>
    requires { length slots.items ≡ length (fields_in fields.now) }
    ensures { Answers D.Error.fault all_viewed result (completed (fields_in fields.now) (slots_view slots)) }
{
    let mut items = Vec::new(alloc);
    'slots: for slot in slots {
        let item = fill::<D>(alloc, fields, items.len(), slot)?;
        if items.push(item).is_err() {
            return Err(D::Error::memory());
        }
    }
    Ok(items)
}

// The value of a field: what was read of it, or nothing, where it may be missing.
fn fill<D: Deserializer>(
    alloc: Global,
    fields: &Fields,
    place: usize,
    slot: Option<Data>,
) -> Result<Data, D::Error>
    requires { place < length (fields_in fields.now) }
    ensures { IfSome (slice_get (fields_in fields.now) place) (λ field. Answers D.Error.fault data_view result (filled field (slot_view slot))) }
{
    match slot {
        Some(data) => Ok(data),
        None => fill_missing::<D>(alloc, fields, place),
    }
}

// The value of a field that no entry named.
#[tactic(auto, using(crate::proofs::Places::length_fields))]
fn fill_missing<D: Deserializer>(
    alloc: Global,
    fields: &Fields,
    place: usize,
) -> Result<Data, D::Error>
    requires { place < length (fields_in fields.now) }
    ensures { IfSome (slice_get (fields_in fields.now) place) (λ field. Answers D.Error.fault data_view result (filled field None)) }
{
    if may_be_missing(&fields.shapes()[place]) {
        return Ok(Data::Option(None));
    }
    match fields.names().get(place) {
        Some(name) => Err(D::Error::missing_field(alloc, name)),
        None => Err(D::Error::memory()),
    }
}

// Whether a field of this shape may be missing.
fn may_be_missing(shape: &Shape) -> bool
    ensures { result ≡ is_option (shape_view shape.now) }
{
    match shape {
        Shape::Option(_) => true,
        Shape::Bool
        | Shape::U8
        | Shape::U16
        | Shape::U32
        | Shape::U64
        | Shape::I8
        | Shape::I16
        | Shape::I32
        | Shape::I64
        | Shape::Char
        | Shape::Text
        | Shape::Bytes
        | Shape::Unit
        | Shape::UnitStruct(_)
        | Shape::Seq(_)
        | Shape::Tuple(_)
        | Shape::TupleStruct(_, _)
        | Shape::Prefix(_)
        | Shape::PrefixStruct(_, _)
        | Shape::Map(_)
        | Shape::Newtype(_, _)
        | Shape::Struct(_, _)
        | Shape::Strict(_, _)
        | Shape::Loose(_, _)
        | Shape::Enum(_, _) => false,
    }
}
