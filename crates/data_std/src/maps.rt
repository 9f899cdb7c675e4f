//! Readers of maps.
ghost use Rattle.std.specs.Prelude.{◌≡◌, true, refl, OnOk};
ghost use Rattle.data_core.specs.Ask as asks;
ghost use Rattle.data_core.specs.Outcome.{Among};
ghost use Rattle.data_core.specs.Reads.{ReadsFrom, LeavesFrom};
ghost use Rattle.data_core.specs.Tracking.{Keeps, clear};
ghost use Rattle.data_std.specs.Pairs.{TableRead, MapReads};
ghost use Rattle.data_std.specs.Swallowed.{EntriesLeave, MapLeaves};

use crate::reading::next_entry;
use crate::types::Deserialize;
use data_core::{DeError, DeserializeSeed, Deserializer, Hint, Shown, Track, refused};
use std::alloc::{AllocError, Global};
use std::collections::BTreeMap;
use std::marker::PhantomData;

/// The reader of `BTreeMap<K, V>`: it takes a map, to its end, and reads each key as `K` and each
/// value as `V`. Of equal keys the first stays, with the value of the last.
#[derive(Drop)]
pub struct MapSeed<K: Deserialize + Ord, V: Deserialize> {
    of: PhantomData<(K, V)>,
}

impl<K: Deserialize + Ord, V: Deserialize> DeserializeSeed for MapSeed<K, V> {
    type Value = BTreeMap<K, V>;

    ghost asks = { λ _. asks.map };

    ghost reads = { λ _. MapReads (λ m. m.entries) K.cmp K.asks (ReadsFrom K.asks K.reads) (ReadsFrom V.asks V.reads) };

    ghost quiet = { K.Seed.quiet × V.Seed.quiet };

    ghost placed = { (K.Seed.placed × V.Seed.placed) × (K.Seed.quiet × V.Seed.quiet) };

    ghost leaves = { λ _. MapLeaves K.asks (LeavesFrom V.asks V.leaves) };

    fn hint(&self) -> Hint<'_> {
        Hint::Map
    }

    fn visit<D: Deserializer>(
        self,
        alloc: Global,
        shown: Shown<D>,
        track: &mut Track,
    ) -> Result<BTreeMap<K, V>, D::Error> {
        match shown {
            Shown::Map(map) => entries::<D, K, V>(alloc, map, track),
            other => Err(refused(alloc, other, "map")),
        }
    }

    ghost passes_refusals = { λ _ _. (refl, λ _ h. h) };
}

impl<K: Deserialize + Ord, V: Deserialize> Deserialize for BTreeMap<K, V> {
    type Seed = MapSeed<K, V>;

    ghost asks = { asks.map };

    ghost reads = { MapReads (λ m. m.entries) K.cmp K.asks (ReadsFrom K.asks K.reads) (ReadsFrom V.asks V.reads) };

    ghost leaves = { MapLeaves K.asks (LeavesFrom V.asks V.leaves) };

    fn seed(_alloc: Global) -> Result<MapSeed<K, V>, AllocError> {
        Ok(MapSeed { of: PhantomData })
    }
}

// The entries that are left.
fn entries<D: Deserializer, K: Deserialize + Ord, V: Deserialize>(
    alloc: Global,
    map: D::Map,
    track: &mut Track,
) -> Result<BTreeMap<K, V>, D::Error>
    ensures reads { Among D.Error.fault ((K.Seed.placed × V.Seed.placed) × (K.Seed.quiet × V.Seed.quiet)) D.tracks result
        (TableRead (λ m. m.entries) K.cmp K.asks (ReadsFrom K.asks K.reads) (ReadsFrom V.asks V.reads) (D.table map).left)
        track.old track.new }
    ensures keeps { Keeps D.Error.fault (K.Seed.quiet × V.Seed.quiet) D.tracks result track.old track.new }
    ensures leaves { D.tracks ≡ true → track.old ≡ clear → OnOk result
        (EntriesLeave K.asks (LeavesFrom V.asks V.leaves) (D.table map).left track.new) }
{
    let mut map = map;
    let mut read = BTreeMap::new(alloc);
    'entries: while let Some((key, value)) = next_entry::<D, K, V>(alloc, &mut map, track)? {
        if read.insert(key, value).is_err() {
            return Err(D::Error::memory());
        }
    }
    Ok(read)
}
