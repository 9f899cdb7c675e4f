//! Deserializers over items that are at hand.
ghost use Rattle.std.specs.Prelude.{◌≡◌, true, false, None};
ghost use Rattle.data_core.specs.Show.{shown_offer, Begins};
ghost use Rattle.data_core.specs.Source.{source, elements};
ghost use Rattle.data_core.specs.Sequence.{Ends, surplus};
ghost use Rattle.data_items.specs.Items.{sources_of};

use crate::ends::end_of_items;
use crate::part_variant::PartVariant;
use crate::waiting::Waiting;
use data_core::{Deserializer, Hint, Names, Shown, Track};
use std::alloc::Global;

/// A deserializer that shows its items as the elements of a sequence, whatever is hoped for: serde's
/// `SeqDeserializer`. Its items are deserializers that note no path.
#[derive(Drop)]
pub struct SeqDeserializer<D: Deserializer> {
    level: Level<D>,
    ghost untracked: { D.tracks ≡ false },
}

// The whole, or what one of its items holds.
#[derive(Drop)]
enum Level<D: Deserializer> {
    Whole(Vec<D>),
    Part(D),
}

/// The elements of a `SeqDeserializer`, or of a part of it, under way.
#[derive(Drop)]
pub struct SeqElements<D: Deserializer> {
    level: ElementsLevel<D>,
    ghost untracked: { D.tracks ≡ false },
}

#[derive(Drop)]
enum ElementsLevel<D: Deserializer> {
    Whole(Waiting<D>),
    Part(D::Seq),
}

/// The entries of a map that stands in an item of a `SeqDeserializer`, under way.
#[derive(Drop)]
pub struct SeqEntries<D: Deserializer> {
    map: D::Map,
    ghost untracked: { D.tracks ≡ false },
}

impl<D: Deserializer> Deserializer for SeqDeserializer<D> {
    type Error = D::Error;

    type Text = D::Text;

    type Bytes = D::Bytes;

    type Seq = SeqElements<D>;

    type Map = SeqEntries<D>;

    type Variant = PartVariant<D>;

    ghost use Rattle.data_items.specs.Sequences.{source_of, sequence_of};

    ghost tracks = { false };

    ghost human_readable = { true };

    ghost source = { λ d. source_of D.source d.level };

    ghost sequence = { λ s. sequence_of D.source D.sequence s.level };

    ghost table = { λ m. D.table m.map };

    ghost choice = { λ v. D.choice v.variant };

    ghost key_text = { λ _. None };

    ghost name_text = { λ _. None };

    fn is_human_readable(&self) -> bool {
        true
    }

    fn show(self, hint: Hint<'_>) -> Result<Shown<SeqDeserializer<D>>, D::Error> {
        let level = self.level;
        match level {
            Level::Whole(items) => Ok(whole(items)),
            Level::Part(d) => Ok(part(d.show(hint)?)),
        }
    }

    fn next_element(seq: &mut SeqElements<D>) -> Result<Option<SeqDeserializer<D>>, D::Error> {
        let next = match &mut seq.level {
            ElementsLevel::Whole(items) => items.next(),
            ElementsLevel::Part(seq) => D::next_element(seq)?,
        };
        match next {
            Some(d) => Ok(Some(SeqDeserializer {
                level: Level::Part(d),
            })),
            None => Ok(None),
        }
    }

    fn leave_element(
        seq: &mut SeqElements<D>,
        before: bool,
        failed: bool,
        track: &mut Track,
    ) -> Result<(), D::Error> {
        match &mut seq.level {
            ElementsLevel::Whole(_) => Ok(()),
            ElementsLevel::Part(seq) => D::leave_element(seq, before, failed, track),
        }
    }

    fn elements_taken(seq: &SeqElements<D>) -> usize {
        match &seq.level {
            ElementsLevel::Whole(items) => items.taken(),
            ElementsLevel::Part(seq) => D::elements_taken(seq),
        }
    }

    #[tactic(auto, using(crate::proofs::Items::count_sources))]
    fn elements_left(seq: &SeqElements<D>) -> Option<usize> {
        match &seq.level {
            ElementsLevel::Whole(items) => Some(items.len()),
            ElementsLevel::Part(seq) => D::elements_left(seq),
        }
    }

    #[tactic(auto, using(crate::proofs::Items::surplus_items))]
    fn end_seq(alloc: Global, seq: SeqElements<D>) -> Result<(), D::Error> {
        let level = seq.level;
        match level {
            ElementsLevel::Whole(items) => end_of_items(alloc, items),
            ElementsLevel::Part(seq) => D::end_seq(alloc, seq),
        }
    }

    fn next_key(map: &mut SeqEntries<D>) -> Result<Option<SeqDeserializer<D>>, D::Error> {
        match D::next_key(&mut map.map)? {
            Some(key) => Ok(Some(SeqDeserializer {
                level: Level::Part(key),
            })),
            None => Ok(None),
        }
    }

    fn show_key(
        map: &mut SeqEntries<D>,
        key: SeqDeserializer<D>,
        hint: Hint<'_>,
    ) -> Result<Shown<SeqDeserializer<D>>, D::Error> {
        let level = key.level;
        match level {
            Level::Whole(items) => Ok(whole(items)),
            Level::Part(d) => Ok(part(D::show_key(&mut map.map, d, hint)?)),
        }
    }

    fn leave_key(
        map: &mut SeqEntries<D>,
        before: bool,
        failed: bool,
        track: &mut Track,
    ) -> Result<(), D::Error> {
        D::leave_key(&mut map.map, before, failed, track)
    }

    fn next_value(map: &mut SeqEntries<D>) -> Result<SeqDeserializer<D>, D::Error> {
        let value = D::next_value(&mut map.map)?;
        Ok(SeqDeserializer {
            level: Level::Part(value),
        })
    }

    fn leave_value(
        map: &mut SeqEntries<D>,
        before: bool,
        failed: bool,
        track: &mut Track,
    ) -> Result<(), D::Error> {
        D::leave_value(&mut map.map, before, failed, track)
    }

    fn entries_left(map: &SeqEntries<D>) -> Option<usize> {
        D::entries_left(&map.map)
    }

    fn end_map(alloc: Global, map: SeqEntries<D>) -> Result<(), D::Error> {
        D::end_map(alloc, map.map)
    }

    fn show_name(
        _variant: &mut PartVariant<D>,
        name: SeqDeserializer<D>,
        hint: Hint<'_>,
    ) -> Result<Shown<SeqDeserializer<D>>, D::Error> {
        name.show(hint)
    }

    fn leave_name(
        _variant: &mut PartVariant<D>,
        _before: bool,
        _failed: bool,
        _track: &mut Track,
    ) -> Result<(), D::Error> {
        Ok(())
    }

    fn unit_variant(alloc: Global, variant: &mut PartVariant<D>) -> Result<(), D::Error> {
        D::unit_variant(alloc, &mut variant.variant)
    }

    fn newtype_variant(
        alloc: Global,
        variant: &mut PartVariant<D>,
    ) -> Result<SeqDeserializer<D>, D::Error> {
        let d = D::newtype_variant(alloc, &mut variant.variant)?;
        Ok(SeqDeserializer {
            level: Level::Part(d),
        })
    }

    fn tuple_variant(
        alloc: Global,
        variant: &mut PartVariant<D>,
        len: usize,
    ) -> Result<SeqElements<D>, D::Error> {
        let seq = D::tuple_variant(alloc, &mut variant.variant, len)?;
        Ok(SeqElements {
            level: ElementsLevel::Part(seq),
        })
    }

    fn struct_variant(
        alloc: Global,
        variant: &mut PartVariant<D>,
        fields: &Names,
    ) -> Result<SeqEntries<D>, D::Error> {
        let map = D::struct_variant(alloc, &mut variant.variant, fields)?;
        Ok(SeqEntries { map })
    }

    fn leave_payload(
        _variant: &mut PartVariant<D>,
        _before: bool,
        _failed: bool,
        _track: &mut Track,
    ) -> Result<(), D::Error> {
        Ok(())
    }
}

// All items, as the elements of a sequence.
fn whole<D: Deserializer>(items: Vec<D>) -> Shown<SeqDeserializer<D>>
    requires { D.tracks ≡ false }
    ensures offer { shown_offer D.Text.text D.Bytes.bytes ⟦<SeqDeserializer<D> as Deserializer>⟧.source
        ⟦<SeqDeserializer<D> as Deserializer>⟧.sequence ⟦<SeqDeserializer<D> as Deserializer>⟧.table ⟦<SeqDeserializer<D> as Deserializer>⟧.choice result
        ≡ elements true (sources_of D.source items.items) }
    ensures begins { Begins ⟦<SeqDeserializer<D> as Deserializer>⟧.sequence ⟦<SeqDeserializer<D> as Deserializer>⟧.table
        ⟦<SeqDeserializer<D> as Deserializer>⟧.key_text ⟦<SeqDeserializer<D> as Deserializer>⟧.name_text result }
{
    Shown::Seq(SeqElements {
        level: ElementsLevel::Whole(Waiting::new(items)),
    })
}

// What an item or a part of it shows.
fn part<D: Deserializer>(shown: Shown<D>) -> Shown<SeqDeserializer<D>>
    requires { D.tracks ≡ false }
    ensures offer { shown_offer D.Text.text D.Bytes.bytes ⟦<SeqDeserializer<D> as Deserializer>⟧.source
        ⟦<SeqDeserializer<D> as Deserializer>⟧.sequence ⟦<SeqDeserializer<D> as Deserializer>⟧.table ⟦<SeqDeserializer<D> as Deserializer>⟧.choice result
        ≡ shown_offer D.Text.text D.Bytes.bytes D.source D.sequence D.table D.choice shown }
    ensures begins { Begins D.sequence D.table D.key_text D.name_text shown
        → Begins ⟦<SeqDeserializer<D> as Deserializer>⟧.sequence ⟦<SeqDeserializer<D> as Deserializer>⟧.table
        ⟦<SeqDeserializer<D> as Deserializer>⟧.key_text ⟦<SeqDeserializer<D> as Deserializer>⟧.name_text result }
{
    match shown {
        Shown::Scalar(scalar) => Shown::Scalar(scalar),
        Shown::Some(d) => Shown::Some(SeqDeserializer {
            level: Level::Part(d),
        }),
        Shown::NewtypeStruct(d) => Shown::NewtypeStruct(SeqDeserializer {
            level: Level::Part(d),
        }),
        Shown::Seq(seq) => Shown::Seq(SeqElements {
            level: ElementsLevel::Part(seq),
        }),
        Shown::Map(map) => Shown::Map(SeqEntries { map }),
        Shown::Enum(name, variant) => Shown::Enum(
            SeqDeserializer {
                level: Level::Part(name),
            },
            PartVariant { variant },
        ),
    }
}

impl<D: Deserializer> SeqDeserializer<D> {
    /// A deserializer over these items: serde's `SeqDeserializer::new`. Takes no memory.
    pub fn new(items: Vec<D>) -> SeqDeserializer<D>
        requires { D.tracks ≡ false }
        ensures { ⟦<SeqDeserializer<D> as Deserializer>⟧.source result
            ≡ source (λ _. elements true (sources_of D.source items.items)) }
    {
        SeqDeserializer {
            level: Level::Whole(items),
        }
    }
}

impl<D: Deserializer> SeqElements<D> {
    /// The elements of a deserializer over these items, for who takes them by hand. Takes no memory.
    pub fn new(items: Vec<D>) -> SeqElements<D>
        requires { D.tracks ≡ false }
        ensures { ⟦<SeqDeserializer<D> as Deserializer>⟧.sequence result
            ≡ record { left = sources_of D.source items.items; taken = 0; checks = true; tells = true } }
    {
        SeqElements {
            level: ElementsLevel::Whole(Waiting::new(items)),
        }
    }

    /// The end of the elements, where none may be left: serde's `SeqDeserializer::end`. What is
    /// refused is the length of all elements.
    pub fn end(self, alloc: Global) -> Result<(), D::Error>
        ensures { let sequence = ⟦<SeqDeserializer<D> as Deserializer>⟧.sequence self in
            Ends D.Error.fault result (surplus sequence.checks sequence.taken sequence.left) }
    {
        SeqDeserializer::end_seq(alloc, self)
    }
}
