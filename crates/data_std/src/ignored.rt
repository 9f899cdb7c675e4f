//! What is read and dropped.
ghost use Rattle.std.specs.Prelude.{◌≡◌, true, Some, None, OnOk, IsSome};
ghost use Rattle.data_core.specs.Ask.{ignored_any};
ghost use Rattle.data_core.specs.Source.{Source, offer_of};
ghost use Rattle.data_core.specs.Source as offer;
ghost use Rattle.data_core.specs.Took.{Took};
ghost use Rattle.data_core.specs.Table.{Catches, KeepsText, offer_text, value_taken, entry_segment, segment_of_key};
ghost use Rattle.data_core.specs.Wanted.{newtype};
ghost use Rattle.data_core.specs.Choice.{variant_segment};
ghost use Rattle.data_core.specs.declared.path.Segment.{Segment};
ghost use Rattle.data_core.specs.Show.{shown_offer, Begins};
ghost use Rattle.data_core.specs.Outcome.{under, bare, Gives};
ghost use Rattle.data_core.specs.Tracking.{Keeps, Notes, clear};
ghost use Rattle.data_core.specs.Reads.{IsOutcome};
ghost use Rattle.data_std.specs.Ignored.{ignored, ignored_offer, ignored_rest, ignored_entries, ignored_pair, at_key, after_refused, after_refused_entry, waits_refused, pair_taken};
ghost use Rattle.data_std.specs.Whole.{all_taken, Counts, entries_taken, CountsKeys, IsLeft};

use crate::types::Deserialize;
use data_core::{DeserializeSeed, Deserializer, Hint, Shown, Track};
use std::alloc::{AllocError, Global};

/// A value of which nothing is kept: serde's `IgnoredAny`. It is its own reader.
#[derive(Drop)]
pub struct IgnoredAny;

impl DeserializeSeed for IgnoredAny {
    type Value = IgnoredAny;

    ghost use Rattle.std.specs.Prelude.{refl};
    ghost use Rattle.data_core.specs.Reads.{only_refusal};

    ghost asks = { λ _. ignored_any };

    ghost reads = { λ _ offer outcome. IsOutcome (λ _. tt) (ignored_offer offer) outcome };

    ghost quiet = { Unit {0} };

    ghost placed = { Unit {0} };

    ghost leaves = { λ _ _ now. now ≡ clear };

    fn hint(&self) -> Hint<'_> {
        Hint::IgnoredAny
    }

    fn visit<D: Deserializer>(
        self,
        alloc: Global,
        shown: Shown<D>,
        track: &mut Track,
    ) -> Result<IgnoredAny, D::Error> {
        ignore_shown(alloc, shown, track)?;
        Ok(IgnoredAny)
    }

    ghost passes_refusals = { λ _ f. (refl, only_refusal (λ _. tt) f) };
}

impl Deserialize for IgnoredAny {
    type Seed = IgnoredAny;

    ghost asks = { ignored_any };

    ghost reads = { λ offer outcome. IsOutcome (λ _. tt) (ignored_offer offer) outcome };

    ghost leaves = { λ _ now. now ≡ clear };

    fn seed(_alloc: Global) -> Result<IgnoredAny, AllocError> {
        Ok(IgnoredAny)
    }
}

/// Reads each element of a sequence that is left, and drops it, up to the first refusal. What came
/// after a refused element is left. `track` then holds the path of a refusal, if `D` tracks and no
/// path was held before.
#[cycle(ignore)]
pub fn ignore_rest<D: Deserializer>(
    alloc: Global,
    seq: &mut D::Seq,
    track: &mut Track,
) -> Result<(), D::Error>
    ensures value { Gives D.Error.fault D.tracks (λ u. u) result
        (ignored_rest (D.sequence seq.old).taken (D.sequence seq.old).left) track.old track.new }
    ensures keeps { Keeps D.Error.fault (Unit {0}) D.tracks result track.old track.new }
    ensures counts { Counts (D.sequence seq.old) (D.sequence seq.new) }
    ensures all { OnOk result (D.sequence seq.new ≡ all_taken (D.sequence seq.old)) }
    ensures left { IsLeft D.Error.fault result (after_refused (D.sequence seq.old).left) (D.sequence seq.new).left }
    ensures notes { D.tracks ≡ true → Notes D.Error.fault result track.new }
{
    'elements: while let Some(element) = D::next_element(seq)? {
        let before = track.holds();
        let read = ignore(alloc, element, track);
        D::leave_element(seq, before, read.is_err(), track)?;
        read?;
    }
    Ok(())
}

/// Reads each entry of a map that is left, and drops it, up to the first refusal. What came after a
/// refused entry is left, and the value of a refused key waits. `track` then holds the path of a
/// refusal, if `D` tracks and no path was held before.
#[cycle(ignore)]
pub fn ignore_entries<D: Deserializer>(
    alloc: Global,
    map: &mut D::Map,
    track: &mut Track,
) -> Result<(), D::Error>
    ensures value { Gives D.Error.fault D.tracks (λ u. u) result
        (ignored_entries (D.table map.old).left) track.old track.new }
    ensures keeps { Keeps D.Error.fault (Unit {0}) D.tracks result track.old track.new }
    ensures counts { CountsKeys (D.table map.old) (D.table map.new) }
    ensures all { OnOk result (D.table map.new ≡ entries_taken (D.table map.old)) }
    ensures left { IsLeft D.Error.fault result (after_refused_entry (D.table map.old).left) (D.table map.new).left }
    ensures waiting { IsLeft D.Error.fault result (waits_refused (D.table map.old).left) (D.table map.new).waiting }
    ensures caught { D.tracks ≡ true → IsLeft D.Error.fault result None (D.key_text map.new) }
    ensures notes { D.tracks ≡ true → Notes D.Error.fault result track.new }
{
    'entries: while let Some(key) = D::next_key(map)? {
        ignore_entry(alloc, map, key, track)?;
    }
    Ok(())
}

// Reads the key that was taken last and the value that waits, and drops both.
#[cycle(ignore)]
fn ignore_entry<D: Deserializer>(
    alloc: Global,
    map: &mut D::Map,
    key: D,
    track: &mut Track,
) -> Result<(), D::Error>
    requires { IsSome (D.table map.old).waiting }
    ensures value { (v : Source) → (D.table map.old).waiting ≡ Some v → Gives D.Error.fault D.tracks (λ u. u) result
        (ignored_pair (segment_of_key ignored_any (D.source key)) (ignored (D.source key)) (ignored v)) track.old track.new }
    ensures keeps { Keeps D.Error.fault (Unit {0}) D.tracks result track.old track.new }
    ensures took { Took D.Error.fault result (D.table map.old) (pair_taken (ignored (D.source key)) (D.table map.old)) (D.table map.new) }
    ensures caught { D.tracks ≡ true → IsLeft D.Error.fault result None (D.key_text map.new) }
    ensures notes { D.tracks ≡ true → Notes D.Error.fault result track.new }
{
    ignore_key(alloc, map, key, track)?;
    ignore_value::<D>(alloc, map, track)
}

// Reads the key that was taken last, and drops it.
#[cycle(ignore)]
fn ignore_key<D: Deserializer>(
    alloc: Global,
    map: &mut D::Map,
    key: D,
    track: &mut Track,
) -> Result<(), D::Error>
    ensures value { Gives D.Error.fault D.tracks (λ u. u) result
        (at_key (segment_of_key ignored_any (D.source key)) (ignored (D.source key))) track.old track.new }
    ensures keeps { Keeps D.Error.fault (Unit {0}) D.tracks result track.old track.new }
    ensures caught { D.tracks ≡ true → KeepsText D.Error.fault result (offer_text (offer_of (D.source key) ignored_any))
        (D.key_text map.new) }
    ensures table { D.table map.new ≡ D.table map.old }
    ensures notes { D.tracks ≡ true → Notes D.Error.fault result track.new }
{
    let before = track.holds();
    let read = visit_key(alloc, map, key, track);
    D::leave_key(map, before, read.is_err(), track)?;
    read
}

// Reads what the key shows, and drops it.
#[cycle(ignore)]
fn visit_key<D: Deserializer>(
    alloc: Global,
    map: &mut D::Map,
    key: D,
    track: &mut Track,
) -> Result<(), D::Error>
    ensures value { Gives D.Error.fault D.tracks (λ u. u) result (ignored (D.source key)) track.old track.new }
    ensures keeps { Keeps D.Error.fault (Unit {0}) D.tracks result track.old track.new }
    ensures caught { D.tracks ≡ true → Catches D.Error.fault result (offer_text (offer_of (D.source key) ignored_any))
        (D.key_text map.new) }
    ensures table { D.table map.new ≡ D.table map.old }
{
    let shown = D::show_key(map, key, Hint::IgnoredAny)?;
    ignore_shown(alloc, shown, track)
}

/// Reads the value that waits, and drops it. `track` then holds the path of a refusal, if `D` tracks
/// and no path was held before.
#[cycle(ignore)]
pub fn ignore_value<D: Deserializer>(
    alloc: Global,
    map: &mut D::Map,
    track: &mut Track,
) -> Result<(), D::Error>
    requires { IsSome (D.table map.old).waiting }
    ensures value { (segment : Segment) → (D.tracks ≡ true → segment ≡ entry_segment (D.key_text map.old))
        → (v : Source) → (D.table map.old).waiting ≡ Some v → Gives D.Error.fault D.tracks (λ u. u) result
        (under segment (ignored v)) track.old track.new }
    ensures keeps { Keeps D.Error.fault (Unit {0}) D.tracks result track.old track.new }
    ensures took { Took D.Error.fault result (D.table map.old) (value_taken (D.table map.old)) (D.table map.new) }
    ensures caught { Took D.Error.fault result (D.key_text map.old) None (D.key_text map.new) }
    ensures notes { D.tracks ≡ true → Notes D.Error.fault result track.new }
{
    let value = D::next_value(map)?;
    let before = track.holds();
    let read = ignore(alloc, value, track);
    D::leave_value(map, before, read.is_err(), track)?;
    read
}

// Reads what a deserializer stands for, and drops it.
#[cycle(ignore)]
fn ignore<D: Deserializer>(alloc: Global, d: D, track: &mut Track) -> Result<(), D::Error>
    ensures value { Gives D.Error.fault D.tracks (λ u. u) result (ignored (D.source d)) track.old track.new }
    ensures keeps { Keeps D.Error.fault (Unit {0}) D.tracks result track.old track.new }
{
    let shown = d.show(Hint::IgnoredAny)?;
    ignore_shown(alloc, shown, track)
}

// Reads what is shown, and drops it.
#[cycle(ignore)]
fn ignore_shown<D: Deserializer>(
    alloc: Global,
    shown: Shown<D>,
    track: &mut Track,
) -> Result<(), D::Error>
    requires { Begins D.sequence D.table D.key_text D.name_text shown }
    ensures value { Gives D.Error.fault D.tracks (λ u. u) result
        (ignored_offer (shown_offer D.Text.text D.Bytes.bytes D.source D.sequence D.table D.choice shown)) track.old track.new }
    ensures keeps { Keeps D.Error.fault (Unit {0}) D.tracks result track.old track.new }
{
    match shown {
        Shown::Scalar(_) => Ok(()),
        Shown::Some(inner) | Shown::NewtypeStruct(inner) => ignore(alloc, inner, track),
        Shown::Seq(seq) => {
            let mut seq = seq;
            ignore_rest::<D>(alloc, &mut seq, track)
        }
        Shown::Map(map) => {
            let mut map = map;
            ignore_entries::<D>(alloc, &mut map, track)
        }
        Shown::Enum(name, variant) => {
            let mut variant = variant;
            ignore_variant(alloc, &mut variant, name, track)
        }
    }
}

// Reads the name of a variant and then its payload, and drops both.
#[cycle(ignore)]
fn ignore_variant<D: Deserializer>(
    alloc: Global,
    variant: &mut D::Variant,
    name: D,
    track: &mut Track,
) -> Result<(), D::Error>
    ensures value { Gives D.Error.fault D.tracks (λ u. u) result
        (ignored_offer (offer.variant (D.source name) (D.choice variant.old))) track.old track.new }
    ensures keeps { Keeps D.Error.fault (Unit {0}) D.tracks result track.old track.new }
{
    ignore_name(alloc, variant, name, track)?;
    ignore_payload::<D>(alloc, variant, track)
}

// Reads the name of a variant, and drops it.
#[cycle(ignore)]
fn ignore_name<D: Deserializer>(
    alloc: Global,
    variant: &mut D::Variant,
    name: D,
    track: &mut Track,
) -> Result<(), D::Error>
    ensures value { Gives D.Error.fault D.tracks (λ u. u) result (bare (ignored (D.source name))) track.old track.new }
    ensures keeps { Keeps D.Error.fault (Unit {0}) D.tracks result track.old track.new }
    ensures caught { D.tracks ≡ true → Catches D.Error.fault result (offer_text (offer_of (D.source name) ignored_any))
        (D.name_text variant.new) }
    ensures choice { D.choice variant.new ≡ D.choice variant.old }
{
    let before = track.holds();
    let read = visit_name(alloc, variant, name, track);
    D::leave_name(variant, before, read.is_err(), track)?;
    read
}

// Reads what the name shows, and drops it.
#[cycle(ignore)]
fn visit_name<D: Deserializer>(
    alloc: Global,
    variant: &mut D::Variant,
    name: D,
    track: &mut Track,
) -> Result<(), D::Error>
    ensures value { Gives D.Error.fault D.tracks (λ u. u) result (ignored (D.source name)) track.old track.new }
    ensures keeps { Keeps D.Error.fault (Unit {0}) D.tracks result track.old track.new }
    ensures caught { D.tracks ≡ true → Catches D.Error.fault result (offer_text (offer_of (D.source name) ignored_any))
        (D.name_text variant.new) }
    ensures choice { D.choice variant.new ≡ D.choice variant.old }
{
    let shown = D::show_name(variant, name, Hint::IgnoredAny)?;
    ignore_shown(alloc, shown, track)
}

// Reads the payload of a variant as the inside of a newtype, and drops it.
#[cycle(ignore)]
fn ignore_payload<D: Deserializer>(
    alloc: Global,
    variant: &mut D::Variant,
    track: &mut Track,
) -> Result<(), D::Error>
    ensures value { (segment : Segment) → (D.tracks ≡ true → segment ≡ variant_segment (D.name_text variant.old))
        → Gives D.Error.fault D.tracks (λ u. u) result
        (under segment (ignored_offer (D.choice variant.old newtype))) track.old track.new }
    ensures keeps { Keeps D.Error.fault (Unit {0}) D.tracks result track.old track.new }
{
    let before = track.holds();
    let read = ignore_inside::<D>(alloc, variant, track);
    D::leave_payload(variant, before, read.is_err(), track)?;
    read
}

// Reads the inside of a newtype variant, and drops it.
#[cycle(ignore)]
fn ignore_inside<D: Deserializer>(
    alloc: Global,
    variant: &mut D::Variant,
    track: &mut Track,
) -> Result<(), D::Error>
    ensures value { Gives D.Error.fault D.tracks (λ u. u) result
        (ignored_offer (D.choice variant.old newtype)) track.old track.new }
    ensures keeps { Keeps D.Error.fault (Unit {0}) D.tracks result track.old track.new }
    ensures caught { D.name_text variant.new ≡ D.name_text variant.old }
{
    let inside = D::newtype_variant(alloc, variant)?;
    ignore(alloc, inside, track)
}
