//! Reading by readers that are at hand.
ghost use Rattle.std.specs.Prelude.{◌≡◌, true, IfOk, IsSome, OnOk, None};
ghost use Rattle.data_core.specs.Source.{offer_of};
ghost use Rattle.data_core.specs.Took.{Took};
ghost use Rattle.data_core.specs.Sequence.{one_taken, IsNext, LeavesNext};
ghost use Rattle.data_core.specs.Table.{IsKey, IsValue, LeavesValue, Catches, KeepsText, offer_text, next_text, key_taken, value_taken, entry_segment};
ghost use Rattle.data_core.specs.Tracking.{Keeps, Notes, Swallows, clear};
ghost use Rattle.data_core.specs.Outcome.{Among};
ghost use Rattle.data_core.specs.declared.path.Segment.{Segment};

use crate::de::Deserializer;
use crate::seed::DeserializeSeed;
use crate::track::Track;
use std::alloc::Global;

/// Reads the next element of a sequence, and gives none where none is left: serde's
/// `SeqAccess::next_element_seed`. Where `D` tracks and no path was held before, `track` then holds
/// the path of a refusal of a reader that places its refusals, and some path of any other's.
pub fn next_element_seed<D: Deserializer, S: DeserializeSeed>(
    alloc: Global,
    seq: &mut D::Seq,
    seed: S,
    track: &mut Track,
) -> Result<Option<S::Value>, D::Error>
    ensures reads { Among D.Error.fault S.placed D.tracks result
        (IsNext (λ source. S.reads seed (offer_of source (S.asks seed))) (D.sequence seq.old).taken (D.sequence seq.old).left)
        track.old track.new }
    ensures keeps { Keeps D.Error.fault S.quiet D.tracks result track.old track.new }
    ensures took { Took D.Error.fault result (D.sequence seq.old) (one_taken (D.sequence seq.old)) (D.sequence seq.new) }
    ensures leaves { D.tracks ≡ true → track.old ≡ clear → OnOk result
        (LeavesNext (λ source. S.leaves seed (offer_of source (S.asks seed))) (D.sequence seq.old).taken (D.sequence seq.old).left track.new) }
    ensures notes { D.tracks ≡ true → Notes D.Error.fault result track.new }
{
    let Some(element) = D::next_element(seq)? else {
        return Ok(None);
    };
    let before = track.holds();
    let value = seed.deserialize(alloc, element, track);
    D::leave_element(seq, before, value.is_err(), track)?;
    Ok(Some(value?))
}

/// Reads the key of the next entry of a map, and gives none where none is left: serde's
/// `MapAccess::next_key_seed`. Where `D` tracks and no path was held before, `track` then holds the
/// path of a refusal of a reader that places its refusals, and some path of any other's.
pub fn next_key_seed<D: Deserializer, S: DeserializeSeed>(
    alloc: Global,
    map: &mut D::Map,
    seed: S,
    track: &mut Track,
) -> Result<Option<S::Value>, D::Error>
    ensures reads { Among D.Error.fault S.placed D.tracks result
        (IsKey (S.asks seed) (λ source. S.reads seed (offer_of source (S.asks seed))) (D.table map.old).left)
        track.old track.new }
    ensures keeps { Keeps D.Error.fault S.quiet D.tracks result track.old track.new }
    ensures took { Took D.Error.fault result (D.table map.old) (key_taken (D.table map.old)) (D.table map.new) }
    ensures ready { IfOk result (λ key. IsSome key → IsSome (D.table map.new).waiting) }
    ensures caught { D.tracks ≡ true → KeepsText D.Error.fault result (next_text (S.asks seed) (D.table map.old).left)
        (D.key_text map.new) }
    ensures notes { D.tracks ≡ true → Notes D.Error.fault result track.new }
    ensures swallowed { D.tracks ≡ true → track.old ≡ clear → OnOk result (Swallows track.new) }
{
    let Some(key) = D::next_key(map)? else {
        return Ok(None);
    };
    let before = track.holds();
    let value = visit_key(alloc, map, key, seed, track);
    D::leave_key(map, before, value.is_err(), track)?;
    Ok(Some(value?))
}

// Reads the key that was taken last.
fn visit_key<D: Deserializer, S: DeserializeSeed>(
    alloc: Global,
    map: &mut D::Map,
    key: D,
    seed: S,
    track: &mut Track,
) -> Result<S::Value, D::Error>
    ensures reads { Among D.Error.fault S.placed D.tracks result
        (S.reads seed (offer_of (D.source key) (S.asks seed))) track.old track.new }
    ensures keeps { Keeps D.Error.fault S.quiet D.tracks result track.old track.new }
    ensures caught { D.tracks ≡ true → Catches D.Error.fault result
        (offer_text (offer_of (D.source key) (S.asks seed))) (D.key_text map.new) }
    ensures table { D.table map.new ≡ D.table map.old }
    ensures leaves { D.tracks ≡ true → track.old ≡ clear → OnOk result
        (S.leaves seed (offer_of (D.source key) (S.asks seed)) track.new) }
{
    let shown = D::show_key(map, key, seed.hint())?;
    seed.visit(alloc, shown, track)
}

/// Reads the value that waits: serde's `MapAccess::next_value_seed`. Where `D` tracks and no path
/// was held before, `track` then holds the path of a refusal of a reader that places its refusals,
/// and some path of any other's.
pub fn next_value_seed<D: Deserializer, S: DeserializeSeed>(
    alloc: Global,
    map: &mut D::Map,
    seed: S,
    track: &mut Track,
) -> Result<S::Value, D::Error>
    requires { IsSome (D.table map.old).waiting }
    ensures reads { (segment : Segment) → (D.tracks ≡ true → segment ≡ entry_segment (D.key_text map.old))
        → Among D.Error.fault S.placed D.tracks result
        (IsValue segment (λ source. S.reads seed (offer_of source (S.asks seed))) (D.table map.old).waiting)
        track.old track.new }
    ensures keeps { Keeps D.Error.fault S.quiet D.tracks result track.old track.new }
    ensures took { Took D.Error.fault result (D.table map.old) (value_taken (D.table map.old)) (D.table map.new) }
    ensures caught { Took D.Error.fault result (D.key_text map.old) None (D.key_text map.new) }
    ensures leaves { D.tracks ≡ true → track.old ≡ clear → OnOk result
        (LeavesValue (entry_segment (D.key_text map.old)) (λ source. S.leaves seed (offer_of source (S.asks seed))) (D.table map.old).waiting track.new) }
    ensures notes { D.tracks ≡ true → Notes D.Error.fault result track.new }
{
    let value = D::next_value(map)?;
    let before = track.holds();
    let value = seed.deserialize(alloc, value, track);
    D::leave_value(map, before, value.is_err(), track)?;
    value
}
