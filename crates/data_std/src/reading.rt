//! Reading by the readers of types.
ghost use Rattle.std.specs.Prelude.{◌≡◌, true, IfOk, IsSome, None, OnOk};
ghost use Rattle.data_core.specs.Source.{offer_of};
ghost use Rattle.data_core.specs.Took.{Took};
ghost use Rattle.data_core.specs.Sequence.{one_taken, IsNext, LeavesNext};
ghost use Rattle.data_core.specs.Table.{IsKey, IsValue, LeavesValue, next_text, key_taken, value_taken, entry_segment};
ghost use Rattle.data_core.specs.Tracking.{Keeps, Notes, Swallows, clear};
ghost use Rattle.data_core.specs.declared.path.Segment.{Segment};
ghost use Rattle.data_core.specs.Outcome.{Among};
ghost use Rattle.data_core.specs.Reads.{ReadsFrom, LeavesFrom};
ghost use Rattle.data_std.specs.Entry.{KeepsOwnText, ForgetsText, TookEntry, LeavesEntry};
ghost use Rattle.data_std.specs.Pairs.{NextReads};

use crate::types::Deserialize;
use data_core::{
    DeError, DeserializeSeed, Deserializer, Track, next_element_seed, next_key_seed,
    next_value_seed,
};
use std::alloc::Global;

/// Reads a value of a type from a deserializer: serde's `Deserialize::deserialize`. Where `D`
/// tracks and no path was held before, `track` then holds the path of a refusal of a reader that
/// places its refusals, and some path of any other's.
pub fn deserialize<T: Deserialize, D: Deserializer>(
    alloc: Global,
    d: D,
    track: &mut Track,
) -> Result<T, D::Error>
    ensures reads { Among D.Error.fault T.Seed.placed D.tracks result (T.reads (offer_of (D.source d) T.asks)) track.old track.new }
    ensures keeps { Keeps D.Error.fault T.Seed.quiet D.tracks result track.old track.new }
    ensures leaves { D.tracks ≡ true → track.old ≡ clear → OnOk result
        (LeavesFrom T.asks T.leaves (D.source d) track.new) }
{
    match T::seed(alloc) {
        Ok(seed) => seed.deserialize(alloc, d, track),
        Err(_) => Err(D::Error::memory()),
    }
}

/// Reads the next element of a sequence by the reader of its type: serde's
/// `SeqAccess::next_element`. Where `D` tracks and no path was held before, `track` then holds the
/// path of a refusal of a reader that places its refusals, and some path of any other's.
pub fn next_element<D: Deserializer, T: Deserialize>(
    alloc: Global,
    seq: &mut D::Seq,
    track: &mut Track,
) -> Result<Option<T>, D::Error>
    ensures reads { Among D.Error.fault T.Seed.placed D.tracks result
        (IsNext (λ source. T.reads (offer_of source T.asks)) (D.sequence seq.old).taken (D.sequence seq.old).left)
        track.old track.new }
    ensures keeps { Keeps D.Error.fault T.Seed.quiet D.tracks result track.old track.new }
    ensures took { Took D.Error.fault result (D.sequence seq.old) (one_taken (D.sequence seq.old)) (D.sequence seq.new) }
    ensures leaves { D.tracks ≡ true → track.old ≡ clear → OnOk result
        (LeavesNext (LeavesFrom T.asks T.leaves) (D.sequence seq.old).taken (D.sequence seq.old).left track.new) }
    ensures notes { D.tracks ≡ true → Notes D.Error.fault result track.new }
{
    match T::seed(alloc) {
        Ok(seed) => next_element_seed::<D, T::Seed>(alloc, seq, seed, track),
        Err(_) => Err(D::Error::memory()),
    }
}

/// Reads the key of the next entry of a map by the reader of its type, and gives none where none is
/// left: serde's `MapAccess::next_key`. Where `D` tracks and no path was held before, `track` then
/// holds the path of a refusal of a reader that places its refusals, and some path of any other's.
pub fn next_key<D: Deserializer, K: Deserialize>(
    alloc: Global,
    map: &mut D::Map,
    track: &mut Track,
) -> Result<Option<K>, D::Error>
    ensures reads { Among D.Error.fault K.Seed.placed D.tracks result
        (IsKey K.asks (λ source. K.reads (offer_of source K.asks)) (D.table map.old).left) track.old track.new }
    ensures keeps { Keeps D.Error.fault K.Seed.quiet D.tracks result track.old track.new }
    ensures took { Took D.Error.fault result (D.table map.old) (key_taken (D.table map.old)) (D.table map.new) }
    ensures ready { IfOk result (λ key. IsSome key → IsSome (D.table map.new).waiting) }
    ensures caught { D.tracks ≡ true → KeepsOwnText D.Error.fault result (next_text K.asks (D.table map.old).left)
        (D.key_text map.old) (D.key_text map.new) }
    ensures notes { D.tracks ≡ true → Notes D.Error.fault result track.new }
    ensures swallowed { D.tracks ≡ true → track.old ≡ clear → OnOk result (Swallows track.new) }
{
    match K::seed(alloc) {
        Ok(seed) => next_key_seed::<D, K::Seed>(alloc, map, seed, track),
        Err(_) => Err(D::Error::memory()),
    }
}

/// Reads the value that waits by the reader of its type: serde's `MapAccess::next_value`. Where `D`
/// tracks and no path was held before, `track` then holds the path of a refusal of a reader that
/// places its refusals, and some path of any other's.
pub fn next_value<D: Deserializer, V: Deserialize>(
    alloc: Global,
    map: &mut D::Map,
    track: &mut Track,
) -> Result<V, D::Error>
    requires { IsSome (D.table map.old).waiting }
    ensures reads { (segment : Segment) → (D.tracks ≡ true → segment ≡ entry_segment (D.key_text map.old))
        → Among D.Error.fault V.Seed.placed D.tracks result
        (IsValue segment (λ source. V.reads (offer_of source V.asks)) (D.table map.old).waiting)
        track.old track.new }
    ensures keeps { Keeps D.Error.fault V.Seed.quiet D.tracks result track.old track.new }
    ensures took { Took D.Error.fault result (D.table map.old) (value_taken (D.table map.old)) (D.table map.new) }
    ensures caught { Took D.Error.fault result (D.key_text map.old) None (D.key_text map.new) }
    ensures leaves { D.tracks ≡ true → track.old ≡ clear → OnOk result
        (LeavesValue (entry_segment (D.key_text map.old)) (LeavesFrom V.asks V.leaves) (D.table map.old).waiting track.new) }
    ensures notes { D.tracks ≡ true → Notes D.Error.fault result track.new }
{
    match V::seed(alloc) {
        Ok(seed) => next_value_seed::<D, V::Seed>(alloc, map, seed, track),
        Err(_) => Err(D::Error::memory()),
    }
}

/// Reads the next entry of a map by the readers of its types, and gives none where none is left:
/// serde's `MapAccess::next_entry`. Where `D` tracks and no path was held before, `track` then
/// holds the path of a refusal of a reader that places its refusals, and some path of any other's.
/// The value of a key that was refused waits.
pub fn next_entry<D: Deserializer, K: Deserialize, V: Deserialize>(
    alloc: Global,
    map: &mut D::Map,
    track: &mut Track,
) -> Result<Option<(K, V)>, D::Error>
    ensures reads { Among D.Error.fault (K.Seed.placed × K.Seed.quiet × V.Seed.placed) D.tracks result
        (NextReads K.asks (ReadsFrom K.asks K.reads) (ReadsFrom V.asks V.reads) (D.table map.old).left)
        track.old track.new }
    ensures keeps { Keeps D.Error.fault (K.Seed.quiet × V.Seed.quiet) D.tracks result track.old track.new }
    ensures took { TookEntry D.Error.fault result (ReadsFrom K.asks K.reads) (D.table map.old) (D.table map.new) }
    ensures caught { D.tracks ≡ true → ForgetsText D.Error.fault result (next_text K.asks (D.table map.old).left)
        (D.key_text map.old) (D.key_text map.new) }
    ensures leaves { D.tracks ≡ true → track.old ≡ clear → OnOk result
        (LeavesEntry K.asks (LeavesFrom V.asks V.leaves) (D.table map.old).left track.new) }
    ensures notes { D.tracks ≡ true → Notes D.Error.fault result track.new }
{
    let Some(key) = next_key::<D, K>(alloc, map, track)? else {
        return Ok(None);
    };
    let value = next_value::<D, V>(alloc, map, track)?;
    Ok(Some((key, value)))
}
