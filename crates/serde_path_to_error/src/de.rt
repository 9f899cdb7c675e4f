//! Entry points of reading.
ghost use Rattle.data_core.specs.Source.{offer_of};
ghost use Rattle.path_core.specs.Error.{path_of};
ghost use Rattle.serde_path_to_error.specs.Traced.{Traced, TracedAs};

use data_core::{DeError, DeserializeSeed, Deserializer};
use data_std::{Deserialize, Told};
use path_core::{Error, Track};
use std::alloc::Global;

/// Reads a value of a type from a deserializer. An error comes with the path of the part that it is
/// about. Of a type whose reader goes on from refusals, or does not place its own, it may be another.
pub fn deserialize<D: Deserializer, T: Deserialize>(
    alloc: Global,
    deserializer: D,
) -> Result<T, Error<D::Error>>
    ensures { Traced D.Error.fault T.Seed.placed result (T.reads (offer_of (D.source deserializer) T.asks)) }
{
    let mut track = Track::new(alloc);
    let tracked = path_read::Deserializer::new(alloc, deserializer);
    match data_std::deserialize(alloc, tracked, &mut track) {
        Ok(value) => Ok(value),
        Err(error) => Err(Error::new(track.path(), error)),
    }
}

/// Reads a value of a type whose reader has exactly one outcome of each offer: what is answered is
/// that one, and a fault comes with its path. It is this project's own.
pub fn deserialize_told<D: Deserializer, T: Told>(
    alloc: Global,
    deserializer: D,
) -> Result<T, Error<D::Error>>
    ensures { TracedAs D.Error.fault T.see result (T.outcome (offer_of (D.source deserializer) T.asks)) }
{
    let mut track = Track::new(alloc);
    let tracked = path_read::Deserializer::new(alloc, deserializer);
    match data_std::deserialize_told(alloc, tracked, &mut track) {
        Ok(value) => Ok(value),
        Err(error) => Err(Error::new(track.path(), error)),
    }
}

/// Reads by a reader that is at hand. An error comes with the path of the part that it is about. It
/// is this project's own.
pub fn deserialize_seed<D: Deserializer, X: DeserializeSeed>(
    alloc: Global,
    deserializer: D,
    seed: X,
) -> Result<X::Value, Error<D::Error>>
    ensures { Traced D.Error.fault X.placed result
        (X.reads seed (offer_of (D.source deserializer) (X.asks seed))) }
{
    let mut track = Track::new(alloc);
    let tracked = path_read::Deserializer::new(alloc, deserializer);
    match seed.deserialize(alloc, tracked, &mut track) {
        Ok(value) => Ok(value),
        Err(error) => Err(Error::new(track.path(), error)),
    }
}
