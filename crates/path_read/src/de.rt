//! The tracked deserializer.
ghost use Rattle.std.specs.Prelude.{◌≡◌, ◌≢◌, true, OnOk};
ghost use Rattle.data_core.specs.Show.{shown_offer, Begins};
ghost use Rattle.data_core.specs.Tracking.{Leaves, marked};
ghost use Rattle.path_read.specs.Tracked.{inner_of, source_of, sequence_of, table_of, choice_of, key_text_of, name_text_of};

use crate::map::{TrackedMap, caught_text, segment_of};
use crate::variant::{TrackedVariant, leave_name, payload_segment};
use data_core::{DeError, Hint, Names, Path, Segment, Shown, Track};
use std::alloc::Global;

/// A deserializer that shows what another shows, and notes the path of a refusal in the track that
/// its reader is handed: serde_path_to_error's `Deserializer`.
#[derive(Drop)]
pub struct Deserializer<D: data_core::Deserializer> {
    alloc: Global,
    inner: D,
}

/// The elements of a sequence that is tracked: serde_path_to_error's `SeqAccess`.
#[derive(Drop)]
pub struct TrackedSeq<D: data_core::Deserializer> {
    alloc: Global,
    inner: D::Seq,
}

impl<D: data_core::Deserializer> Deserializer<D> {
    /// A deserializer that tracks the refusals of the inside. It keeps the allocator for the paths.
    /// Takes no memory.
    pub fn new(alloc: Global, inner: D) -> Deserializer<D>
        ensures { inner_of result ≡ inner }
    {
        Deserializer { alloc, inner }
    }
}

// What the inside shows, tracked.
fn track_inside<D: data_core::Deserializer>(
    alloc: Global,
    shown: Shown<D>,
) -> Shown<Deserializer<D>>
    ensures offer { shown_offer D.Text.text D.Bytes.bytes (source_of D.source) (sequence_of D.sequence) (table_of D.table) (choice_of D.choice) result
        ≡ shown_offer D.Text.text D.Bytes.bytes D.source D.sequence D.table D.choice shown }
    ensures begins { Begins D.sequence D.table D.key_text D.name_text shown
        → Begins (sequence_of D.sequence) (table_of D.table) key_text_of name_text_of result }
{
    match shown {
        Shown::Scalar(scalar) => Shown::Scalar(scalar),
        Shown::Some(inner) => Shown::Some(Deserializer { alloc, inner }),
        Shown::NewtypeStruct(inner) => Shown::NewtypeStruct(Deserializer { alloc, inner }),
        Shown::Seq(inner) => Shown::Seq(TrackedSeq { alloc, inner }),
        Shown::Map(inner) => Shown::Map(TrackedMap {
            alloc,
            inner,
            key: None,
        }),
        Shown::Enum(name, variant) => Shown::Enum(
            Deserializer { alloc, inner: name },
            TrackedVariant {
                alloc,
                inner: variant,
                name: None,
            },
        ),
    }
}

// The way out of the read of a part: its segment is put before the path of a refusal that came from
// within it. Under a track whose path was lost it is want of memory.
fn leave<E: DeError>(
    alloc: Global,
    segment: Segment,
    before: bool,
    failed: bool,
    track: &mut Track,
) -> Result<(), E>
    ensures path { Leaves E.fault true segment before failed track.old track.new result }
    ensures lost { OnOk result (track.new ≢ marked) }
{
    if !before {
        if failed {
            track.note(Some(Path::new(alloc)));
        }
        if track.holds() {
            track.add(segment);
        }
    }
    if track.is_marked() {
        Err(E::memory())
    } else {
        Ok(())
    }
}

impl<D: data_core::Deserializer> data_core::Deserializer for Deserializer<D> {
    type Error = D::Error;

    type Text = D::Text;

    type Bytes = D::Bytes;

    type Seq = TrackedSeq<D>;

    type Map = TrackedMap<D>;

    type Variant = TrackedVariant<D>;

    ghost tracks = { true };

    ghost human_readable = { D.human_readable };

    ghost source = { source_of D.source };

    ghost sequence = { sequence_of D.sequence };

    ghost table = { table_of D.table };

    ghost choice = { choice_of D.choice };

    ghost key_text = { key_text_of };

    ghost name_text = { name_text_of };

    fn is_human_readable(&self) -> bool {
        self.inner.is_human_readable()
    }

    fn show(self, hint: Hint<'_>) -> Result<Shown<Deserializer<D>>, D::Error> {
        let alloc = self.alloc;
        let shown = self.inner.show(hint)?;
        Ok(track_inside(alloc, shown))
    }

    fn next_element(seq: &mut TrackedSeq<D>) -> Result<Option<Deserializer<D>>, D::Error> {
        let alloc = seq.alloc;
        match D::next_element(&mut seq.inner)? {
            Some(inner) => Ok(Some(Deserializer { alloc, inner })),
            None => Ok(None),
        }
    }

    fn leave_element(
        seq: &mut TrackedSeq<D>,
        before: bool,
        failed: bool,
        track: &mut Track,
    ) -> Result<(), D::Error> {
        let index = D::elements_taken(&seq.inner).saturating_sub(1);
        leave(seq.alloc, Segment::Seq { index }, before, failed, track)
    }

    fn elements_taken(seq: &TrackedSeq<D>) -> usize {
        D::elements_taken(&seq.inner)
    }

    fn elements_left(seq: &TrackedSeq<D>) -> Option<usize> {
        D::elements_left(&seq.inner)
    }

    fn end_seq(alloc: Global, seq: TrackedSeq<D>) -> Result<(), D::Error> {
        D::end_seq(alloc, seq.inner)
    }

    fn next_key(map: &mut TrackedMap<D>) -> Result<Option<Deserializer<D>>, D::Error> {
        let alloc = map.alloc;
        // The text of an earlier key names neither this one nor its value.
        map.key = None;
        match D::next_key(&mut map.inner)? {
            Some(inner) => Ok(Some(Deserializer { alloc, inner })),
            None => Ok(None),
        }
    }

    fn show_key(
        map: &mut TrackedMap<D>,
        key: Deserializer<D>,
        hint: Hint<'_>,
    ) -> Result<Shown<Deserializer<D>>, D::Error> {
        let alloc = map.alloc;
        // What shows no text, or fails, leaves none of an earlier key.
        drop(map.key.take());
        let shown = D::show_key(&mut map.inner, key.inner, hint)?;
        match caught_text(alloc, &shown) {
            Ok(text) => map.key = text,
            Err(_) => return Err(D::Error::memory()),
        }
        Ok(track_inside(alloc, shown))
    }

    fn leave_key(
        map: &mut TrackedMap<D>,
        before: bool,
        failed: bool,
        track: &mut Track,
    ) -> Result<(), D::Error> {
        if !before {
            track.drop_path();
        }
        // Of a key that was read the text stays, for its value.
        let segment = if failed {
            segment_of(map.key.take())
        } else {
            Segment::Unknown
        };
        leave(map.alloc, segment, before, failed, track)
    }

    fn next_value(map: &mut TrackedMap<D>) -> Result<Deserializer<D>, D::Error> {
        let alloc = map.alloc;
        let inner = D::next_value(&mut map.inner)?;
        Ok(Deserializer { alloc, inner })
    }

    fn leave_value(
        map: &mut TrackedMap<D>,
        before: bool,
        failed: bool,
        track: &mut Track,
    ) -> Result<(), D::Error> {
        let segment = segment_of(map.key.take());
        leave(map.alloc, segment, before, failed, track)
    }

    fn entries_left(map: &TrackedMap<D>) -> Option<usize> {
        D::entries_left(&map.inner)
    }

    fn end_map(alloc: Global, map: TrackedMap<D>) -> Result<(), D::Error> {
        D::end_map(alloc, map.inner)
    }

    fn show_name(
        variant: &mut TrackedVariant<D>,
        name: Deserializer<D>,
        hint: Hint<'_>,
    ) -> Result<Shown<Deserializer<D>>, D::Error> {
        let alloc = variant.alloc;
        // A name that shows no text, or fails, leaves none.
        variant.name = None;
        let shown = D::show_name(&mut variant.inner, name.inner, hint)?;
        match caught_text(alloc, &shown) {
            Ok(text) => variant.name = text,
            Err(_) => return Err(D::Error::memory()),
        }
        Ok(track_inside(alloc, shown))
    }

    fn leave_name(
        variant: &mut TrackedVariant<D>,
        before: bool,
        failed: bool,
        track: &mut Track,
    ) -> Result<(), D::Error> {
        leave_name(variant.alloc, before, failed, track)
    }

    fn unit_variant(alloc: Global, variant: &mut TrackedVariant<D>) -> Result<(), D::Error> {
        D::unit_variant(alloc, &mut variant.inner)
    }

    fn newtype_variant(
        alloc: Global,
        variant: &mut TrackedVariant<D>,
    ) -> Result<Deserializer<D>, D::Error> {
        let inner = D::newtype_variant(alloc, &mut variant.inner)?;
        Ok(Deserializer {
            alloc: variant.alloc,
            inner,
        })
    }

    fn tuple_variant(
        alloc: Global,
        variant: &mut TrackedVariant<D>,
        len: usize,
    ) -> Result<TrackedSeq<D>, D::Error> {
        let inner = D::tuple_variant(alloc, &mut variant.inner, len)?;
        Ok(TrackedSeq {
            alloc: variant.alloc,
            inner,
        })
    }

    fn struct_variant(
        alloc: Global,
        variant: &mut TrackedVariant<D>,
        fields: &Names,
    ) -> Result<TrackedMap<D>, D::Error> {
        let inner = D::struct_variant(alloc, &mut variant.inner, fields)?;
        Ok(TrackedMap {
            alloc: variant.alloc,
            inner,
            key: None,
        })
    }

    fn leave_payload(
        variant: &mut TrackedVariant<D>,
        before: bool,
        failed: bool,
        track: &mut Track,
    ) -> Result<(), D::Error> {
        let segment = payload_segment(variant.name.take());
        leave(variant.alloc, segment, before, failed, track)
    }
}
