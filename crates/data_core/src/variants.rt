//! Reading of variants by readers that are at hand.
ghost use Rattle.std.specs.Prelude.{◌≡◌, true, None, OnOk};
ghost use Rattle.data_core.specs.Source.{offer_of};
ghost use Rattle.data_core.specs.Wanted as wanted;
ghost use Rattle.data_core.specs.Table.{Catches, offer_text};
ghost use Rattle.data_core.specs.Choice.{IsName, IsNothing, IsInside, LeavesInside, spent, variant_segment};
ghost use Rattle.data_core.specs.Tracking.{Keeps, Notes, LeavesUnder, Swallows, clear};
ghost use Rattle.data_core.specs.Outcome.{Among, IsUnder};
ghost use Rattle.data_core.specs.declared.path.Segment.{Segment};

use crate::de::{Deserializer, Shown};
use crate::names::Names;
use crate::seed::DeserializeSeed;
use crate::track::Track;
use std::alloc::Global;

/// Reads the name of a variant: serde's `EnumAccess::variant_seed`. Where `D` tracks and no path
/// was held before, `track` then holds the path of a refusal of a reader that places its refusals,
/// and some path of any other's.
pub fn variant_seed<D: Deserializer, S: DeserializeSeed>(
    alloc: Global,
    variant: &mut D::Variant,
    name: D,
    seed: S,
    track: &mut Track,
) -> Result<S::Value, D::Error>
    ensures reads { Among D.Error.fault S.placed D.tracks result
        (IsName (λ source. S.reads seed (offer_of source (S.asks seed))) (D.source name)) track.old track.new }
    ensures keeps { Keeps D.Error.fault S.quiet D.tracks result track.old track.new }
    ensures caught { D.tracks ≡ true → Catches D.Error.fault result (offer_text (offer_of (D.source name) (S.asks seed)))
        (D.name_text variant.new) }
    ensures choice { D.choice variant.new ≡ D.choice variant.old }
    ensures notes { D.tracks ≡ true → Notes D.Error.fault result track.new }
    ensures swallowed { D.tracks ≡ true → track.old ≡ clear → OnOk result (Swallows track.new) }
{
    let before = track.holds();
    let value = visit_name(alloc, variant, name, seed, track);
    D::leave_name(variant, before, value.is_err(), track)?;
    value
}

// Reads what the name shows.
fn visit_name<D: Deserializer, S: DeserializeSeed>(
    alloc: Global,
    variant: &mut D::Variant,
    name: D,
    seed: S,
    track: &mut Track,
) -> Result<S::Value, D::Error>
    ensures reads { Among D.Error.fault S.placed D.tracks result
        (S.reads seed (offer_of (D.source name) (S.asks seed))) track.old track.new }
    ensures keeps { Keeps D.Error.fault S.quiet D.tracks result track.old track.new }
    ensures caught { D.tracks ≡ true → Catches D.Error.fault result (offer_text (offer_of (D.source name) (S.asks seed)))
        (D.name_text variant.new) }
    ensures choice { D.choice variant.new ≡ D.choice variant.old }
    ensures leaves { D.tracks ≡ true → track.old ≡ clear → OnOk result
        (S.leaves seed (offer_of (D.source name) (S.asks seed)) track.new) }
{
    let shown = D::show_name(variant, name, seed.hint())?;
    seed.visit(alloc, shown, track)
}

/// The end of a variant that has no payload: serde's `VariantAccess::unit_variant`. Where `D`
/// tracks and no path was held before, `track` then holds the path of a refusal.
pub fn unit_variant<D: Deserializer>(
    alloc: Global,
    variant: &mut D::Variant,
    track: &mut Track,
) -> Result<(), D::Error>
    ensures reads { (segment : Segment) → (D.tracks ≡ true → segment ≡ variant_segment (D.name_text variant.old))
        → Among D.Error.fault (Unit {0}) D.tracks result
        (IsUnder segment (IsNothing (D.choice variant.old wanted.unit)))
        track.old track.new }
    ensures keeps { Keeps D.Error.fault (Unit {0}) D.tracks result track.old track.new }
    ensures taken { D.choice variant.new ≡ spent }
    ensures caught { D.name_text variant.new ≡ None }
    ensures notes { D.tracks ≡ true → Notes D.Error.fault result track.new }
{
    let before = track.holds();
    let end = D::unit_variant(alloc, variant);
    D::leave_payload(variant, before, end.is_err(), track)?;
    end
}

/// Reads the inside of a newtype variant: serde's `VariantAccess::newtype_variant_seed`. Where `D`
/// tracks and no path was held before, `track` then holds the path of a refusal of a reader that
/// places its refusals, and some path of any other's.
pub fn newtype_variant_seed<D: Deserializer, S: DeserializeSeed>(
    alloc: Global,
    variant: &mut D::Variant,
    seed: S,
    track: &mut Track,
) -> Result<S::Value, D::Error>
    ensures reads { (segment : Segment) → (D.tracks ≡ true → segment ≡ variant_segment (D.name_text variant.old))
        → Among D.Error.fault S.placed D.tracks result
        (IsUnder segment (IsInside (λ source. S.reads seed (offer_of source (S.asks seed))) (D.choice variant.old wanted.newtype)))
        track.old track.new }
    ensures keeps { Keeps D.Error.fault S.quiet D.tracks result track.old track.new }
    ensures taken { D.choice variant.new ≡ spent }
    ensures caught { D.name_text variant.new ≡ None }
    ensures notes { D.tracks ≡ true → Notes D.Error.fault result track.new }
    ensures leaves { D.tracks ≡ true → track.old ≡ clear → OnOk result
        (LeavesUnder (variant_segment (D.name_text variant.old))
        (LeavesInside (λ source. S.leaves seed (offer_of source (S.asks seed))) (D.choice variant.old wanted.newtype)) track.new) }
{
    let before = track.holds();
    let value = read_inside::<D, S>(alloc, variant, seed, track);
    D::leave_payload(variant, before, value.is_err(), track)?;
    value
}

// Reads the inside of a newtype variant, without the way out.
fn read_inside<D: Deserializer, S: DeserializeSeed>(
    alloc: Global,
    variant: &mut D::Variant,
    seed: S,
    track: &mut Track,
) -> Result<S::Value, D::Error>
    ensures reads { Among D.Error.fault S.placed D.tracks result
        (IsInside (λ source. S.reads seed (offer_of source (S.asks seed))) (D.choice variant.old wanted.newtype))
        track.old track.new }
    ensures keeps { Keeps D.Error.fault S.quiet D.tracks result track.old track.new }
    ensures taken { D.choice variant.new ≡ spent }
    ensures caught { D.name_text variant.new ≡ D.name_text variant.old }
    ensures leaves { D.tracks ≡ true → track.old ≡ clear → OnOk result
        (LeavesInside (λ source. S.leaves seed (offer_of source (S.asks seed))) (D.choice variant.old wanted.newtype) track.new) }
{
    let inside = D::newtype_variant(alloc, variant)?;
    seed.deserialize(alloc, inside, track)
}

/// Reads a tuple variant of `len` elements, whose elements `seed` is shown: serde's
/// `VariantAccess::tuple_variant`. Where `D` tracks and no path was held before, `track` then holds
/// the path of a refusal of a reader that places its refusals, and some path of any other's.
pub fn tuple_variant<D: Deserializer, S: DeserializeSeed>(
    alloc: Global,
    variant: &mut D::Variant,
    len: usize,
    seed: S,
    track: &mut Track,
) -> Result<S::Value, D::Error>
    ensures reads { (segment : Segment) → (D.tracks ≡ true → segment ≡ variant_segment (D.name_text variant.old))
        → Among D.Error.fault S.placed D.tracks result
        (IsUnder segment (S.reads seed (D.choice variant.old (wanted.tuple len))))
        track.old track.new }
    ensures keeps { Keeps D.Error.fault S.quiet D.tracks result track.old track.new }
    ensures taken { D.choice variant.new ≡ spent }
    ensures caught { D.name_text variant.new ≡ None }
    ensures notes { D.tracks ≡ true → Notes D.Error.fault result track.new }
    ensures leaves { D.tracks ≡ true → track.old ≡ clear → OnOk result
        (LeavesUnder (variant_segment (D.name_text variant.old)) (S.leaves seed (D.choice variant.old (wanted.tuple len)))
        track.new) }
{
    let before = track.holds();
    let value = visit_elements::<D, S>(alloc, variant, len, seed, track);
    D::leave_payload(variant, before, value.is_err(), track)?;
    value
}

// Visits the elements of a tuple variant, without the way out.
fn visit_elements<D: Deserializer, S: DeserializeSeed>(
    alloc: Global,
    variant: &mut D::Variant,
    len: usize,
    seed: S,
    track: &mut Track,
) -> Result<S::Value, D::Error>
    ensures reads { Among D.Error.fault S.placed D.tracks result
        (S.reads seed (D.choice variant.old (wanted.tuple len))) track.old track.new }
    ensures keeps { Keeps D.Error.fault S.quiet D.tracks result track.old track.new }
    ensures taken { D.choice variant.new ≡ spent }
    ensures caught { D.name_text variant.new ≡ D.name_text variant.old }
    ensures leaves { D.tracks ≡ true → track.old ≡ clear → OnOk result
        (S.leaves seed (D.choice variant.old (wanted.tuple len)) track.new) }
{
    let seq = D::tuple_variant(alloc, variant, len)?;
    seed.visit::<D>(alloc, Shown::Seq(seq), track)
}

/// Reads a struct variant of these fields, whose entries `seed` is shown: serde's
/// `VariantAccess::struct_variant`. Where `D` tracks and no path was held before, `track` then
/// holds the path of a refusal of a reader that places its refusals, and some path of any other's.
pub fn struct_variant<D: Deserializer, S: DeserializeSeed>(
    alloc: Global,
    variant: &mut D::Variant,
    fields: &Names,
    seed: S,
    track: &mut Track,
) -> Result<S::Value, D::Error>
    ensures reads { (segment : Segment) → (D.tracks ≡ true → segment ≡ variant_segment (D.name_text variant.old))
        → Among D.Error.fault S.placed D.tracks result
        (IsUnder segment (S.reads seed (D.choice variant.old (wanted.struct fields.now))))
        track.old track.new }
    ensures keeps { Keeps D.Error.fault S.quiet D.tracks result track.old track.new }
    ensures taken { D.choice variant.new ≡ spent }
    ensures caught { D.name_text variant.new ≡ None }
    ensures notes { D.tracks ≡ true → Notes D.Error.fault result track.new }
    ensures leaves { D.tracks ≡ true → track.old ≡ clear → OnOk result
        (LeavesUnder (variant_segment (D.name_text variant.old))
        (S.leaves seed (D.choice variant.old (wanted.struct fields.now))) track.new) }
{
    let before = track.holds();
    let value = visit_fields::<D, S>(alloc, variant, fields, seed, track);
    D::leave_payload(variant, before, value.is_err(), track)?;
    value
}

// Visits the entries of a struct variant, without the way out.
fn visit_fields<D: Deserializer, S: DeserializeSeed>(
    alloc: Global,
    variant: &mut D::Variant,
    fields: &Names,
    seed: S,
    track: &mut Track,
) -> Result<S::Value, D::Error>
    ensures reads { Among D.Error.fault S.placed D.tracks result
        (S.reads seed (D.choice variant.old (wanted.struct fields.now))) track.old track.new }
    ensures keeps { Keeps D.Error.fault S.quiet D.tracks result track.old track.new }
    ensures taken { D.choice variant.new ≡ spent }
    ensures caught { D.name_text variant.new ≡ D.name_text variant.old }
    ensures leaves { D.tracks ≡ true → track.old ≡ clear → OnOk result
        (S.leaves seed (D.choice variant.old (wanted.struct fields.now)) track.new) }
{
    let map = D::struct_variant(alloc, variant, fields)?;
    seed.visit::<D>(alloc, Shown::Map(map), track)
}
