//! Readers of enums.
ghost use Rattle.std.specs.Prelude.{◌≡◌, ◌<◌, true, OnOk, IfOk, length};
ghost use Rattle.data_core.specs.Ask.{identifier};
ghost use Rattle.data_core.specs.Wanted as wanted;
ghost use Rattle.data_core.specs.Source.{offer_of};
ghost use Rattle.data_core.specs.Source as offer;
ghost use Rattle.data_core.specs.Table.{Catches, offer_text};
ghost use Rattle.data_core.specs.Choice.{variant_segment};
ghost use Rattle.data_core.specs.declared.path.Segment.{Segment};
ghost use Rattle.data_core.specs.Show.{shown_offer};
ghost use Rattle.data_core.specs.Tracking.{Keeps};
ghost use Rattle.data_core.specs.Outcome.{under, bare, Answers, Gives};
ghost use Rattle.shape_read.specs.Variants.{place_of_variant, known_variant, variant_place};
ghost use Rattle.shape_read.specs.First.{first, enum_of, newtype_payload_of, tuple_payload_of, struct_payload_of, visited_payload};
ghost use Rattle.shape.specs.View.{shape_view, variant_shape_view, data_view, payload_view};
ghost use Rattle.shape_read.specs.Readers.{readers_of, fields_in, variants_in};

use crate::reader::read;
use crate::rows::read_elements;
use crate::structs::read_named;
use data_core::{DeError, Deserializer, Hint, Scalar, Shown, TextLike, Track, refused};
use shape::{Data, DataHeld, DataItems, Fields, Payload, Shape, VariantShape, Variants};
use std::alloc::Global;

/// Makes a variant of what is shown: its place by its name, and then what its payload's shape reads.
#[cycle(read)]
pub fn visit_enum<D: Deserializer>(
    alloc: Global,
    variants: &Variants,
    shown: Shown<D>,
    track: &mut Track,
) -> Result<Data, D::Error>
    ensures value { Gives D.Error.fault D.tracks data_view result
        (enum_of (variants_in variants.now) (shown_offer D.Text.text D.Bytes.bytes D.source D.sequence D.table D.choice shown))
        track.old track.new }
    ensures keeps { Keeps D.Error.fault (Unit {0}) D.tracks result track.old track.new }
{
    match shown {
        Shown::Enum(name, variant) => {
            let mut variant = variant;
            read_variant(alloc, variants, &mut variant, name, track)
        }
        other => Err(refused(alloc, other, "enum")),
    }
}

// The name of a variant, and then its payload.
#[cycle(read)]
fn read_variant<D: Deserializer>(
    alloc: Global,
    variants: &Variants,
    variant: &mut D::Variant,
    name: D,
    track: &mut Track,
) -> Result<Data, D::Error>
    ensures value { Gives D.Error.fault D.tracks data_view result
        (enum_of (variants_in variants.now) (offer.variant (D.source name) (D.choice variant.old)))
        track.old track.new }
    ensures keeps { Keeps D.Error.fault (Unit {0}) D.tracks result track.old track.new }
{
    let place = read_name(alloc, variants, variant, name, track)?;
    let payload = read_payload::<D>(alloc, &variants.shapes()[place], variant, track)?;
    Ok(Data::Enum(place, payload))
}

// The place of the variant of a name. The refusal of a name is that of the enum itself.
fn read_name<D: Deserializer>(
    alloc: Global,
    variants: &Variants,
    variant: &mut D::Variant,
    name: D,
    track: &mut Track,
) -> Result<usize, D::Error>
    ensures value { Gives D.Error.fault D.tracks (λ place. place) result
        (bare (variant_place (variants_in variants.now) (offer_of (D.source name) identifier)))
        track.old track.new }
    ensures caught { D.tracks ≡ true → OnOk result (D.name_text variant.new ≡ offer_text (offer_of (D.source name) identifier)) }
    ensures choice { D.choice variant.new ≡ D.choice variant.old }
    ensures within { IfOk result (λ place. place < length (variants_in variants.now)) }
    ensures shaped { IfOk result (λ place. place < length variants.now.shapes.items) }
    ensures keeps { Keeps D.Error.fault (Unit {0}) D.tracks result track.old track.new }
{
    let before = track.holds();
    let place = visit_name(alloc, variants, variant, name);
    D::leave_name(variant, before, place.is_err(), track)?;
    place
}

// The place of the variant of what the name shows.
fn visit_name<D: Deserializer>(
    alloc: Global,
    variants: &Variants,
    variant: &mut D::Variant,
    name: D,
) -> Result<usize, D::Error>
    ensures value { Answers D.Error.fault (λ place. place) result
        (variant_place (variants_in variants.now) (offer_of (D.source name) identifier)) }
    ensures caught { D.tracks ≡ true → Catches D.Error.fault result
        (offer_text (offer_of (D.source name) identifier)) (D.name_text variant.new) }
    ensures choice { D.choice variant.new ≡ D.choice variant.old }
{
    let shown = D::show_name(variant, name, Hint::Identifier)?;
    visit_place(alloc, variants, shown)
}

// The place of the variant that is shown: of a text, or of a character as its text.
fn visit_place<D: Deserializer>(
    alloc: Global,
    variants: &Variants,
    shown: Shown<D>,
) -> Result<usize, D::Error>
    ensures { Answers D.Error.fault (λ place. place) result
        (variant_place (variants_in variants.now) (shown_offer D.Text.text D.Bytes.bytes D.source D.sequence D.table D.choice shown)) }
{
    match shown {
        Shown::Scalar(Scalar::Text(text)) => find_place::<D>(alloc, variants, text.as_str()),
        Shown::Scalar(Scalar::Char(c)) => {
            let mut room = [0u8; 4];
            find_place::<D>(alloc, variants, c.encode_utf8(&mut room))
        }
        other => Err(refused(alloc, other, "variant identifier")),
    }
}

// The place of the variant of a name. Another name is refused.
#[tactic(auto, using(crate::proofs::Places::place_in_variants))]
fn find_place<D: Deserializer>(
    alloc: Global,
    variants: &Variants,
    name: &str,
) -> Result<usize, D::Error>
    ensures { Answers D.Error.fault (λ place. place) result
        (known_variant name.now (place_of_variant name.now (variants_in variants.now))) }
{
    match variants.find(name) {
        Some(place) => Ok(place),
        None => Err(D::Error::unknown_variant(alloc, name, variants.names())),
    }
}

// The payload of a variant. The text of the variant's name goes into the path of a refusal.
#[cycle(read)]
fn read_payload<D: Deserializer>(
    alloc: Global,
    shape: &VariantShape,
    variant: &mut D::Variant,
    track: &mut Track,
) -> Result<Payload, D::Error>
    ensures value { (segment : Segment) → (D.tracks ≡ true → segment ≡ variant_segment (D.name_text variant.old))
        → Gives D.Error.fault D.tracks payload_view result
        (under segment (visited_payload (variant_shape_view shape.now) (D.choice variant.old)))
        track.old track.new }
    ensures keeps { Keeps D.Error.fault (Unit {0}) D.tracks result track.old track.new }
{
    let before = track.holds();
    let payload = take_payload::<D>(alloc, shape, variant, track);
    D::leave_payload(variant, before, payload.is_err(), track)?;
    payload
}

// The payload of a variant, by its shape.
#[cycle(read)]
fn take_payload<D: Deserializer>(
    alloc: Global,
    shape: &VariantShape,
    variant: &mut D::Variant,
    track: &mut Track,
) -> Result<Payload, D::Error>
    ensures value { Gives D.Error.fault D.tracks payload_view result
        (visited_payload (variant_shape_view shape.now) (D.choice variant.old))
        track.old track.new }
    ensures caught { D.name_text variant.new ≡ D.name_text variant.old }
    ensures keeps { Keeps D.Error.fault (Unit {0}) D.tracks result track.old track.new }
{
    match shape {
        VariantShape::Unit => {
            D::unit_variant(alloc, variant)?;
            Ok(Payload::Unit)
        }
        VariantShape::Newtype(inner) => take_newtype::<D>(alloc, inner, variant, track),
        VariantShape::Tuple(shapes) => take_tuple::<D>(alloc, shapes, variant, track),
        VariantShape::Struct(fields) => take_struct::<D>(alloc, fields, true, variant, track),
        VariantShape::Strict(fields) => take_struct::<D>(alloc, fields, true, variant, track),
        VariantShape::Loose(fields) => take_struct::<D>(alloc, fields, false, variant, track),
    }
}

// The inside of a newtype variant.
#[cycle(read)]
fn take_newtype<D: Deserializer>(
    alloc: Global,
    inner: &Shape,
    variant: &mut D::Variant,
    track: &mut Track,
) -> Result<Payload, D::Error>
    ensures value { Gives D.Error.fault D.tracks payload_view result
        (newtype_payload_of (first (shape_view inner.now)) (D.choice variant.old wanted.newtype))
        track.old track.new }
    ensures caught { D.name_text variant.new ≡ D.name_text variant.old }
    ensures keeps { Keeps D.Error.fault (Unit {0}) D.tracks result track.old track.new }
{
    let d = D::newtype_variant(alloc, variant)?;
    let value = read(alloc, inner, d, track)?;
    match Box::new(alloc, value) {
        Ok(value) => Ok(Payload::Newtype(DataHeld::from_box(value))),
        Err(_) => Err(D::Error::memory()),
    }
}

// An element for each shape. One that is left is refused where the end is checked.
#[cycle(read)]
fn take_tuple<D: Deserializer>(
    alloc: Global,
    shapes: &[Shape],
    variant: &mut D::Variant,
    track: &mut Track,
) -> Result<Payload, D::Error>
    ensures value { Gives D.Error.fault D.tracks payload_view result
        (tuple_payload_of (readers_of shapes.now) (D.choice variant.old (wanted.tuple (length shapes.now))))
        track.old track.new }
    ensures caught { D.name_text variant.new ≡ D.name_text variant.old }
    ensures keeps { Keeps D.Error.fault (Unit {0}) D.tracks result track.old track.new }
{
    let seq = D::tuple_variant(alloc, variant, shapes.len())?;
    let items = read_elements::<D>(alloc, shapes, true, seq, "tuple variant", track)?;
    Ok(Payload::Tuple(DataItems::from_vec(items)))
}

// The value of each field. Where it is `strict`, a name that is none of the fields' is refused, and
// else its value is read as what is ignored.
#[cycle(read)]
fn take_struct<D: Deserializer>(
    alloc: Global,
    fields: &Fields,
    strict: bool,
    variant: &mut D::Variant,
    track: &mut Track,
) -> Result<Payload, D::Error>
    ensures value { Gives D.Error.fault D.tracks payload_view result
        (struct_payload_of strict (fields_in fields.now) (D.choice variant.old (wanted.struct fields.now.names)))
        track.old track.new }
    ensures caught { D.name_text variant.new ≡ D.name_text variant.old }
    ensures keeps { Keeps D.Error.fault (Unit {0}) D.tracks result track.old track.new }
{
    let mut map = D::struct_variant(alloc, variant, fields.names())?;
    let items = read_named::<D>(alloc, fields, strict, &mut map, track)?;
    Ok(Payload::Struct(DataItems::from_vec(items)))
}
