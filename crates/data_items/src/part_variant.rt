//! Variants that stand in items at hand.
ghost use Rattle.std.specs.Prelude.{◌≡◌, false};

use data_core::Deserializer;

/// A variant of an enum that stands in an item of a `SeqDeserializer` or of a `MapDeserializer`.
#[derive(Drop)]
pub struct PartVariant<D: Deserializer> {
    pub(crate) variant: D::Variant,
    ghost untracked: { D.tracks ≡ false },
}
