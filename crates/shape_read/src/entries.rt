//! Readers of maps.
ghost use Rattle.std.specs.Prelude.{◌≡◌, true, [], Some, OnOk, IsSome};
ghost use Rattle.data_core.specs.Source.{Source, offer_of};
ghost use Rattle.data_core.specs.Table.{Catches, offer_text, value_taken, entry_segment, segment_of_key};
ghost use Rattle.data_core.specs.declared.path.Segment.{Segment};
ghost use Rattle.data_core.specs.Show.{shown_offer};
ghost use Rattle.data_core.specs.Took.{Took};
ghost use Rattle.data_core.specs.Tracking.{Keeps};
ghost use Rattle.data_core.specs.Outcome.{under, Gives};
ghost use Rattle.data_std.specs.Ignored.{at_key};
ghost use Rattle.shape_read.specs.Parts.{each_entry};
ghost use Rattle.shape_read.specs.First.{asks, first, pair_of, pair_step, map_of};
ghost use Rattle.shape.specs.View.{shape_view, data_view, pair_view};

use crate::reader::{hint, read, visit};
use data_core::{DeError, Deserializer, Shown, Track, refused};
use shape::{Data, DataMap, MapShape, Shape};
use std::alloc::Global;

/// Makes a map of what is shown: each entry is read in turn, and the value of a later equal key takes
/// the place of the earlier one.
#[cycle(read)]
pub fn visit_map<D: Deserializer>(
    alloc: Global,
    shapes: &MapShape,
    shown: Shown<D>,
    track: &mut Track,
) -> Result<Data, D::Error>
    ensures value { Gives D.Error.fault D.tracks data_view result
        (map_of (asks (shape_view shapes.now.key)) (first (shape_view shapes.now.key)) (first (shape_view shapes.now.value))
        (shown_offer D.Text.text D.Bytes.bytes D.source D.sequence D.table D.choice shown))
        track.old track.new }
    ensures keeps { Keeps D.Error.fault (Unit {0}) D.tracks result track.old track.new }
{
    match shown {
        Shown::Map(map) => {
            let mut map = map;
            let pairs = read_entries::<D>(alloc, shapes, &mut map, track)?;
            Ok(Data::Map(pairs))
        }
        other => Err(refused(alloc, other, "map")),
    }
}

// Each entry that is left, put into a map in turn.
#[cycle(read)]
fn read_entries<D: Deserializer>(
    alloc: Global,
    shapes: &MapShape,
    map: &mut D::Map,
    track: &mut Track,
) -> Result<DataMap, D::Error>
    ensures value { Gives D.Error.fault D.tracks (λ pairs. pairs) result
        (each_entry (pair_step (asks (shape_view shapes.now.key)) (first (shape_view shapes.now.key)) (first (shape_view shapes.now.value)))
        [] (D.table map.old).left)
        track.old track.new }
    ensures keeps { Keeps D.Error.fault (Unit {0}) D.tracks result track.old track.new }
{
    let mut pairs = DataMap::new(alloc);
    'reads: while let Some(key) = D::next_key(map)? {
        let (key, value) = read_entry(alloc, shapes, map, key, track)?;
        if pairs.insert(key, value).is_err() {
            return Err(D::Error::memory());
        }
    }
    Ok(pairs)
}

// The key that was taken last, and the value that waits.
#[cycle(read)]
fn read_entry<D: Deserializer>(
    alloc: Global,
    shapes: &MapShape,
    map: &mut D::Map,
    key: D,
    track: &mut Track,
) -> Result<(Data, Data), D::Error>
    requires { IsSome (D.table map.old).waiting }
    ensures value { (v : Source) → (D.table map.old).waiting ≡ Some v → Gives D.Error.fault D.tracks pair_view result
        (pair_of (segment_of_key (asks (shape_view shapes.now.key)) (D.source key))
        (first (shape_view shapes.now.key) (D.source key)) (first (shape_view shapes.now.value) v))
        track.old track.new }
    ensures took { OnOk result (D.table map.new ≡ value_taken (D.table map.old)) }
    ensures keeps { Keeps D.Error.fault (Unit {0}) D.tracks result track.old track.new }
{
    let key = read_key(alloc, &shapes.key, map, key, track)?;
    let value = read_value::<D>(alloc, &shapes.value, map, track)?;
    Ok((key, value))
}

// The key that was taken last. The path of a refusal is the entry's segment alone.
#[cycle(read)]
fn read_key<D: Deserializer>(
    alloc: Global,
    shape: &Shape,
    map: &mut D::Map,
    key: D,
    track: &mut Track,
) -> Result<Data, D::Error>
    ensures value { Gives D.Error.fault D.tracks data_view result
        (at_key (segment_of_key (asks (shape_view shape.now)) (D.source key)) (first (shape_view shape.now) (D.source key)))
        track.old track.new }
    ensures caught { D.tracks ≡ true → OnOk result (D.key_text map.new ≡ offer_text (offer_of (D.source key) (asks (shape_view shape.now)))) }
    ensures table { D.table map.new ≡ D.table map.old }
    ensures keeps { Keeps D.Error.fault (Unit {0}) D.tracks result track.old track.new }
{
    let before = track.holds();
    let read = visit_key(alloc, shape, map, key, track);
    D::leave_key(map, before, read.is_err(), track)?;
    read
}

// What the key shows.
#[cycle(read)]
#[tactic(auto, using(crate::specs::Refusals::visited_refused))]
fn visit_key<D: Deserializer>(
    alloc: Global,
    shape: &Shape,
    map: &mut D::Map,
    key: D,
    track: &mut Track,
) -> Result<Data, D::Error>
    ensures value { Gives D.Error.fault D.tracks data_view result (first (shape_view shape.now) (D.source key)) track.old track.new }
    ensures caught { D.tracks ≡ true → Catches D.Error.fault result
        (offer_text (offer_of (D.source key) (asks (shape_view shape.now)))) (D.key_text map.new) }
    ensures table { D.table map.new ≡ D.table map.old }
    ensures keeps { Keeps D.Error.fault (Unit {0}) D.tracks result track.old track.new }
{
    let shown = D::show_key(map, key, hint(shape))?;
    visit(alloc, shape, shown, track)
}

/// The value that waits. The text of its key goes into the path of a refusal.
#[cycle(read)]
pub fn read_value<D: Deserializer>(
    alloc: Global,
    shape: &Shape,
    map: &mut D::Map,
    track: &mut Track,
) -> Result<Data, D::Error>
    requires { IsSome (D.table map.old).waiting }
    ensures value { (segment : Segment) → (D.tracks ≡ true → segment ≡ entry_segment (D.key_text map.old))
        → (v : Source) → (D.table map.old).waiting ≡ Some v → Gives D.Error.fault D.tracks data_view result
        (under segment (first (shape_view shape.now) v)) track.old track.new }
    ensures took { Took D.Error.fault result (D.table map.old) (value_taken (D.table map.old)) (D.table map.new) }
    ensures keeps { Keeps D.Error.fault (Unit {0}) D.tracks result track.old track.new }
{
    let value = D::next_value(map)?;
    let before = track.holds();
    let read = read(alloc, shape, value, track);
    D::leave_value(map, before, read.is_err(), track)?;
    read
}
