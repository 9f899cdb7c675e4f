//! Readers.
ghost use Rattle.std.specs.Prelude.{◌≡◌, true, OnOk};
ghost use Rattle.data_core.specs.Ask.{Ask, ask};
ghost use Rattle.data_core.specs.Source.{Offer, offer_of};
ghost use Rattle.data_core.specs.Show.{shown_offer, Begins};
ghost use Rattle.data_core.specs.Outcome.{Outcome, Among, PassesRefusals};
ghost use Rattle.data_core.specs.Tracking.{Keeps, Refusal, clear};

use crate::de::{Deserializer, Shown};
use crate::hint::Hint;
use crate::track::Track;
use std::alloc::Global;

/// A reader: serde's `DeserializeSeed` and its `Visitor` in one. It has two steps, what it hopes
/// for and what it makes of what is shown, so that who shows may see it first.
pub trait DeserializeSeed: Drop + Sized {
    type Value: Drop;

    ghost asks: { Self → Ask };

    // That an offer is read as an outcome.
    ghost reads: { Self → Offer → Outcome Self.Value → Type 0 };

    // Whether the reader passes each refusal on, and notes none by itself.
    ghost quiet: { Type 0 };

    // Whether a refusal that it tells is one at the path that the track then holds.
    ghost placed: { Type 0 };

    // What a read that gave a value leaves of a clear track, where the deserializer tracks: a clear one, or the
    // path of a refusal that it went on from.
    ghost leaves: { Self → Offer → Refusal → Type 0 };

    /// What the reader hopes for.
    fn hint(&self) -> Hint<'_>
        ensures { ask result ≡ asks self.now };

    /// What the reader makes of what is shown.
    fn visit<D: Deserializer>(
        self,
        alloc: Global,
        shown: Shown<D>,
        track: &mut Track,
    ) -> Result<Self::Value, D::Error>
        requires { Begins D.sequence D.table D.key_text D.name_text shown }
        ensures reads { Among D.Error.fault placed D.tracks result
            (reads self (shown_offer D.Text.text D.Bytes.bytes D.source D.sequence D.table D.choice shown)) track.old track.new }
        ensures keeps { Keeps D.Error.fault quiet D.tracks result track.old track.new }
        ensures leaves { D.tracks ≡ true → track.old ≡ clear → OnOk result
            (leaves self (shown_offer D.Text.text D.Bytes.bytes D.source D.sequence D.table D.choice shown) track.new) };

    ghost passes_refusals: { PassesRefusals reads };

    /// Reads a value from a deserializer. Where `D` tracks and no path was held before, `track`
    /// then holds the path of a refusal of a reader that places its refusals, and some path of any
    /// other's.
    final fn deserialize<D: Deserializer>(
        self,
        alloc: Global,
        d: D,
        track: &mut Track,
    ) -> Result<Self::Value, D::Error>
        ensures reads { Among D.Error.fault Self.placed D.tracks result
            (Self.reads self (offer_of (D.source d) (Self.asks self))) track.old track.new }
        ensures keeps { Keeps D.Error.fault Self.quiet D.tracks result track.old track.new }
        ensures leaves { D.tracks ≡ true → track.old ≡ clear → OnOk result
            (Self.leaves self (offer_of (D.source d) (Self.asks self)) track.new) }
    {
        let shown = d.show(self.hint())?;
        self.visit(alloc, shown, track)
    }
}
