//! Values that are made into deserializers.
ghost use Rattle.std.specs.Prelude.{◌≡◌};
ghost use Rattle.data_core.specs.Source.{Source};

use data_core::{DeError, Deserializer};
use std::alloc::Global;

/// A value that a deserializer can be made of, whose errors are of the type `E`: serde's
/// `IntoDeserializer`.
pub trait IntoDeserializer<E: DeError>: Drop + Sized {
    type Deserializer: Deserializer<Error = E>;

    // What the value stands for.
    ghost source: { Self → Source };

    /// The deserializer that stands for the value. Takes no memory; the allocator is for refusals that
    /// the deserializer makes itself.
    fn into_deserializer(self, alloc: Global) -> Self::Deserializer
        ensures { Self.Deserializer.source result ≡ source self };
}
