//! Reading of variants by the readers of types.
ghost use Rattle.std.specs.Prelude.{◌≡◌, true, None, OnOk};
ghost use Rattle.data_core.specs.Source.{offer_of};
ghost use Rattle.data_core.specs.Wanted.{newtype};
ghost use Rattle.data_core.specs.Took.{Took};
ghost use Rattle.data_core.specs.Table.{offer_text};
ghost use Rattle.data_core.specs.Choice.{IsName, IsInside, LeavesInside, spent, variant_segment};
ghost use Rattle.data_core.specs.Tracking.{Keeps, Notes, LeavesUnder, Swallows, clear};
ghost use Rattle.data_core.specs.declared.path.Segment.{Segment};
ghost use Rattle.data_core.specs.Outcome.{Among, IsUnder};
ghost use Rattle.data_core.specs.Reads.{LeavesFrom};
ghost use Rattle.data_std.specs.Entry.{CatchesOwn};

use crate::types::Deserialize;
use data_core::{DeError, Deserializer, Track, newtype_variant_seed, variant_seed};
use std::alloc::Global;

/// Reads the name of a variant by the reader of its type: serde's `EnumAccess::variant`. Where `D`
/// tracks and no path was held before, `track` then holds the path of a refusal of a reader that
/// places its refusals, and some path of any other's.
pub fn variant<D: Deserializer, T: Deserialize>(
    alloc: Global,
    variant: &mut D::Variant,
    name: D,
    track: &mut Track,
) -> Result<T, D::Error>
    ensures reads { Among D.Error.fault T.Seed.placed D.tracks result
        (IsName (λ source. T.reads (offer_of source T.asks)) (D.source name)) track.old track.new }
    ensures keeps { Keeps D.Error.fault T.Seed.quiet D.tracks result track.old track.new }
    ensures caught { D.tracks ≡ true → CatchesOwn D.Error.fault result (offer_text (offer_of (D.source name) T.asks))
        (D.name_text variant.old) (D.name_text variant.new) }
    ensures choice { D.choice variant.new ≡ D.choice variant.old }
    ensures notes { D.tracks ≡ true → Notes D.Error.fault result track.new }
    ensures swallowed { D.tracks ≡ true → track.old ≡ clear → OnOk result (Swallows track.new) }
{
    match T::seed(alloc) {
        Ok(seed) => variant_seed::<D, T::Seed>(alloc, variant, name, seed, track),
        Err(_) => Err(D::Error::memory()),
    }
}

/// Reads the inside of a newtype variant by the reader of its type: serde's
/// `VariantAccess::newtype_variant`. Where `D` tracks and no path was held before, `track` then
/// holds the path of a refusal of a reader that places its refusals, and some path of any other's.
pub fn newtype_variant<D: Deserializer, T: Deserialize>(
    alloc: Global,
    variant: &mut D::Variant,
    track: &mut Track,
) -> Result<T, D::Error>
    ensures reads { (segment : Segment) → (D.tracks ≡ true → segment ≡ variant_segment (D.name_text variant.old))
        → Among D.Error.fault T.Seed.placed D.tracks result
        (IsUnder segment (IsInside (λ source. T.reads (offer_of source T.asks)) (D.choice variant.old newtype)))
        track.old track.new }
    ensures keeps { Keeps D.Error.fault T.Seed.quiet D.tracks result track.old track.new }
    ensures taken { Took D.Error.fault result (D.choice variant.old) spent (D.choice variant.new) }
    ensures caught { Took D.Error.fault result (D.name_text variant.old) None (D.name_text variant.new) }
    ensures notes { D.tracks ≡ true → Notes D.Error.fault result track.new }
    ensures leaves { D.tracks ≡ true → track.old ≡ clear → OnOk result
        (LeavesUnder (variant_segment (D.name_text variant.old))
        (LeavesInside (LeavesFrom T.asks T.leaves) (D.choice variant.old newtype)) track.new) }
{
    match T::seed(alloc) {
        Ok(seed) => newtype_variant_seed::<D, T::Seed>(alloc, variant, seed, track),
        Err(_) => Err(D::Error::memory()),
    }
}
