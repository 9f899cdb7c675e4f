//! Deserializers over pairs that are at hand.
ghost use Rattle.std.specs.Prelude.{◌≡◌, ◌≤◌, ◌-◌, true, false, None, Ok, IfOk, MatchOption};
ghost use Rattle.data_core.specs.Ask.{ask};
ghost use Rattle.data_core.specs.Source.{count, end, more, offer_of};
ghost use Rattle.data_core.specs.Sequence.{Ends, surplus};
ghost use Rattle.data_core.specs.Table.{TakesKey, key_taken, surplus_entries};
ghost use Rattle.data_core.specs.Show.{shown_offer, Shows, Begins};
ghost use Rattle.data_items.specs.PairSources.{parts_of, pair_of, pairs_source, pair_entries, pairs_table};

use crate::ends::{end_of_items, wrong_length};
use crate::part_variant::PartVariant;
use crate::waiting::Waiting;
use data_core::{DeError, Deserializer, Hint, Names, Shown, Track};
use std::alloc::Global;

/// A deserializer that shows its pairs as the entries of a map: serde's `MapDeserializer`. To a reader
/// that hopes for a sequence or a tuple it shows a sequence of pairs, each a sequence of two parts as
/// serde's `PairDeserializer`. Its items are deserializers that note no path.
#[derive(Drop)]
pub struct MapDeserializer<D: Deserializer> {
    alloc: Global,
    level: MapLevel<D>,
    ghost untracked: { D.tracks ≡ false },
}

// The whole, one of its pairs, or what an item holds.
#[derive(Drop)]
enum MapLevel<D: Deserializer> {
    Whole(Vec<(D, D)>),
    Pair(D, D),
    Part(D),
}

/// The pairs of a `MapDeserializer` as elements, the parts of one of them, or the elements of a part,
/// under way.
#[derive(Drop)]
pub struct MapElements<D: Deserializer> {
    alloc: Global,
    level: PairsLevel<D>,
    ghost untracked: { D.tracks ≡ false },
}

#[derive(Drop)]
enum PairsLevel<D: Deserializer> {
    Whole(Waiting<(D, D)>),
    Pair(Option<D>, Option<D>),
    Part(D::Seq),
}

/// The entries of a `MapDeserializer`, or of a part of it, under way.
#[derive(Drop)]
pub struct MapEntries<D: Deserializer> {
    alloc: Global,
    level: EntriesLevel<D>,
    ghost untracked: { D.tracks ≡ false },
}

// Of the whole, the pairs that are left and the value that waits.
#[derive(Drop)]
enum EntriesLevel<D: Deserializer> {
    Whole(Waiting<(D, D)>, Option<D>),
    Part(D::Map),
}

impl<D: Deserializer> Deserializer for MapDeserializer<D> {
    type Error = D::Error;

    type Text = D::Text;

    type Bytes = D::Bytes;

    type Seq = MapElements<D>;

    type Map = MapEntries<D>;

    type Variant = PartVariant<D>;

    ghost use Rattle.data_items.specs.MapSources.{source_of, sequence_of, table_of};

    ghost tracks = { false };

    ghost human_readable = { true };

    ghost source = { λ d. source_of D.source d.level };

    ghost sequence = { λ s. sequence_of D.source D.sequence s.level };

    ghost table = { λ m. table_of D.source D.table m.level };

    ghost choice = { λ v. D.choice v.variant };

    ghost key_text = { λ _. None };

    ghost name_text = { λ _. None };

    fn is_human_readable(&self) -> bool {
        true
    }

    fn show(self, hint: Hint<'_>) -> Result<Shown<MapDeserializer<D>>, D::Error> {
        let alloc = self.alloc;
        let level = self.level;
        match level {
            MapLevel::Whole(pairs) => Ok(show_pairs(alloc, pairs, hint)),
            MapLevel::Pair(first, second) => show_pair(alloc, first, second, hint),
            MapLevel::Part(d) => Ok(show_part(alloc, d.show(hint)?)),
        }
    }

    fn next_element(seq: &mut MapElements<D>) -> Result<Option<MapDeserializer<D>>, D::Error> {
        let alloc = seq.alloc;
        let next = match &mut seq.level {
            PairsLevel::Whole(pairs) => match pairs.next() {
                Some((first, second)) => Some(MapLevel::Pair(first, second)),
                None => None,
            },
            PairsLevel::Pair(first, second) => match next_part(first, second) {
                Some(d) => Some(MapLevel::Part(d)),
                None => None,
            },
            PairsLevel::Part(seq) => match D::next_element(seq)? {
                Some(d) => Some(MapLevel::Part(d)),
                None => None,
            },
        };
        match next {
            Some(level) => Ok(Some(MapDeserializer { alloc, level })),
            None => Ok(None),
        }
    }

    fn leave_element(
        _seq: &mut MapElements<D>,
        _before: bool,
        _failed: bool,
        _track: &mut Track,
    ) -> Result<(), D::Error> {
        Ok(())
    }

    fn elements_taken(seq: &MapElements<D>) -> usize {
        match &seq.level {
            PairsLevel::Whole(pairs) => pairs.taken(),
            PairsLevel::Pair(first, second) => 2 - parts_left(first, second),
            PairsLevel::Part(seq) => D::elements_taken(seq),
        }
    }

    #[tactic(auto, using(crate::proofs::Items::count_pairs))]
    fn elements_left(seq: &MapElements<D>) -> Option<usize> {
        match &seq.level {
            PairsLevel::Whole(pairs) => Some(pairs.len()),
            PairsLevel::Pair(first, second) => Some(parts_left(first, second)),
            PairsLevel::Part(seq) => D::elements_left(seq),
        }
    }

    #[tactic(auto, using(crate::proofs::Items::surplus_pairs))]
    fn end_seq(alloc: Global, seq: MapElements<D>) -> Result<(), D::Error> {
        let level = seq.level;
        match level {
            PairsLevel::Whole(pairs) => end_of_items(alloc, pairs),
            PairsLevel::Pair(first, second) => end_of_pair::<D>(alloc, first, second),
            PairsLevel::Part(seq) => D::end_seq(alloc, seq),
        }
    }

    fn next_key(map: &mut MapEntries<D>) -> Result<Option<MapDeserializer<D>>, D::Error> {
        let alloc = map.alloc;
        let key = match &mut map.level {
            EntriesLevel::Whole(pairs, value) => next_pair(pairs, value),
            EntriesLevel::Part(map) => D::next_key(map)?,
        };
        match key {
            Some(d) => Ok(Some(MapDeserializer {
                alloc,
                level: MapLevel::Part(d),
            })),
            None => Ok(None),
        }
    }

    fn show_key(
        _map: &mut MapEntries<D>,
        key: MapDeserializer<D>,
        hint: Hint<'_>,
    ) -> Result<Shown<MapDeserializer<D>>, D::Error> {
        key.show(hint)
    }

    fn leave_key(
        _map: &mut MapEntries<D>,
        _before: bool,
        _failed: bool,
        _track: &mut Track,
    ) -> Result<(), D::Error> {
        Ok(())
    }

    fn next_value(map: &mut MapEntries<D>) -> Result<MapDeserializer<D>, D::Error> {
        let alloc = map.alloc;
        let value = match &mut map.level {
            EntriesLevel::Whole(_, value) => value.take().unwrap(),
            EntriesLevel::Part(map) => D::next_value(map)?,
        };
        Ok(MapDeserializer {
            alloc,
            level: MapLevel::Part(value),
        })
    }

    fn leave_value(
        _map: &mut MapEntries<D>,
        _before: bool,
        _failed: bool,
        _track: &mut Track,
    ) -> Result<(), D::Error> {
        Ok(())
    }

    #[tactic(auto, using(crate::proofs::Items::count_pair_entries))]
    fn entries_left(map: &MapEntries<D>) -> Option<usize> {
        match &map.level {
            EntriesLevel::Whole(pairs, _) => Some(pairs.len()),
            EntriesLevel::Part(map) => D::entries_left(map),
        }
    }

    #[tactic(auto, using(crate::proofs::Items::surplus_pair_entries))]
    fn end_map(alloc: Global, map: MapEntries<D>) -> Result<(), D::Error> {
        let level = map.level;
        match level {
            EntriesLevel::Whole(pairs, value) => {
                drop(value);
                end_of_items(alloc, pairs)
            }
            EntriesLevel::Part(map) => D::end_map(alloc, map),
        }
    }

    fn show_name(
        _variant: &mut PartVariant<D>,
        name: MapDeserializer<D>,
        hint: Hint<'_>,
    ) -> Result<Shown<MapDeserializer<D>>, D::Error> {
        name.show(hint)
    }

    fn leave_name(
        _variant: &mut PartVariant<D>,
        _before: bool,
        _failed: bool,
        _track: &mut Track,
    ) -> Result<(), D::Error> {
        Ok(())
    }

    fn unit_variant(alloc: Global, variant: &mut PartVariant<D>) -> Result<(), D::Error> {
        D::unit_variant(alloc, &mut variant.variant)
    }

    fn newtype_variant(
        alloc: Global,
        variant: &mut PartVariant<D>,
    ) -> Result<MapDeserializer<D>, D::Error> {
        let d = D::newtype_variant(alloc, &mut variant.variant)?;
        Ok(MapDeserializer {
            alloc,
            level: MapLevel::Part(d),
        })
    }

    fn tuple_variant(
        alloc: Global,
        variant: &mut PartVariant<D>,
        len: usize,
    ) -> Result<MapElements<D>, D::Error> {
        let seq = D::tuple_variant(alloc, &mut variant.variant, len)?;
        Ok(MapElements {
            alloc,
            level: PairsLevel::Part(seq),
        })
    }

    fn struct_variant(
        alloc: Global,
        variant: &mut PartVariant<D>,
        fields: &Names,
    ) -> Result<MapEntries<D>, D::Error> {
        let map = D::struct_variant(alloc, &mut variant.variant, fields)?;
        Ok(MapEntries {
            alloc,
            level: EntriesLevel::Part(map),
        })
    }

    fn leave_payload(
        _variant: &mut PartVariant<D>,
        _before: bool,
        _failed: bool,
        _track: &mut Track,
    ) -> Result<(), D::Error> {
        Ok(())
    }
}

impl<D: Deserializer> MapDeserializer<D> {
    /// A deserializer over these pairs: serde's `MapDeserializer::new`. It keeps the allocator for its
    /// errors. Takes no memory.
    pub fn new(alloc: Global, pairs: Vec<(D, D)>) -> MapDeserializer<D>
        requires { D.tracks ≡ false }
        ensures { ⟦<MapDeserializer<D> as Deserializer>⟧.source result ≡ pairs_source D.source pairs.items }
    {
        MapDeserializer {
            alloc,
            level: MapLevel::Whole(pairs),
        }
    }
}

impl<D: Deserializer> MapEntries<D> {
    /// The entries of a deserializer over these pairs, for who takes them by hand. Takes no memory.
    pub fn new(alloc: Global, pairs: Vec<(D, D)>) -> MapEntries<D>
        requires { D.tracks ≡ false }
        ensures { ⟦<MapDeserializer<D> as Deserializer>⟧.table result
            ≡ record { left = pair_entries D.source pairs.items; taken = 0; waiting = None; checks = true; tells = true } }
    {
        MapEntries {
            alloc,
            level: EntriesLevel::Whole(Waiting::new(pairs), None),
        }
    }

    /// The end of the entries, where none may be left: serde's `MapDeserializer::end`. What is refused
    /// is the number of all entries.
    pub fn end(self, alloc: Global) -> Result<(), D::Error>
        ensures { let table = ⟦<MapDeserializer<D> as Deserializer>⟧.table self in
            Ends D.Error.fault result (surplus_entries table.checks table.taken table.left) }
    {
        MapDeserializer::end_map(alloc, self)
    }
}

// The key of the next pair, whose value waits then.
fn next_pair<D: Deserializer>(pairs: &mut Waiting<(D, D)>, waiting: &mut Option<D>) -> Option<D>
    ensures takes { TakesKey D.source D.Error.fault (Ok result) (pairs_table D.source pairs.old waiting.old) (pairs_table D.source pairs.new waiting.new) }
    ensures took { pairs_table D.source pairs.new waiting.new ≡ key_taken (pairs_table D.source pairs.old waiting.old) }
{
    match pairs.next() {
        Some((key, value)) => {
            *waiting = Some(value);
            Some(key)
        }
        None => {
            *waiting = None;
            None
        }
    }
}

// The next part of a pair.
fn next_part<D: Deserializer>(first: &mut Option<D>, second: &mut Option<D>) -> Option<D>
    ensures { MatchOption result ((parts_of D.source first.old second.old ≡ end) × (parts_of D.source first.new second.new ≡ end))
        (λ d. parts_of D.source first.old second.old ≡ more (D.source d) (parts_of D.source first.new second.new)) }
{
    match first.take() {
        Some(d) => Some(d),
        None => second.take(),
    }
}

// How many parts of a pair are left.
fn parts_left<D: Deserializer>(first: &Option<D>, second: &Option<D>) -> usize
    ensures left { result ≡ count (parts_of D.source first.now second.now) }
    ensures few { result ≤ 2 }
{
    usize::from(first.is_some()) + usize::from(second.is_some())
}

// The end of a pair, no part of which may be left.
fn end_of_pair<D: Deserializer>(
    alloc: Global,
    first: Option<D>,
    second: Option<D>,
) -> Result<(), D::Error>
    ensures { Ends D.Error.fault result
        (surplus true (2 - count (parts_of D.source first second)) (parts_of D.source first second)) }
{
    let left = parts_left(&first, &second);
    if left == 0 {
        return Ok(());
    }
    Err(wrong_length(alloc, 2, 2 - left))
}

// Pairs, as the elements of a sequence or the entries of a map.
fn show_pairs<D: Deserializer>(
    alloc: Global,
    pairs: Vec<(D, D)>,
    hint: Hint<'_>,
) -> Shown<MapDeserializer<D>>
    requires { D.tracks ≡ false }
    ensures offer { shown_offer D.Text.text D.Bytes.bytes ⟦<MapDeserializer<D> as Deserializer>⟧.source
        ⟦<MapDeserializer<D> as Deserializer>⟧.sequence ⟦<MapDeserializer<D> as Deserializer>⟧.table ⟦<MapDeserializer<D> as Deserializer>⟧.choice result
        ≡ offer_of (pairs_source D.source pairs.items) (ask hint.entry) }
    ensures begins { Begins ⟦<MapDeserializer<D> as Deserializer>⟧.sequence ⟦<MapDeserializer<D> as Deserializer>⟧.table
        ⟦<MapDeserializer<D> as Deserializer>⟧.key_text ⟦<MapDeserializer<D> as Deserializer>⟧.name_text result }
{
    let pairs = Waiting::new(pairs);
    match hint {
        Hint::Seq | Hint::Tuple(_) => Shown::Seq(MapElements {
            alloc,
            level: PairsLevel::Whole(pairs),
        }),
        _ => Shown::Map(MapEntries {
            alloc,
            level: EntriesLevel::Whole(pairs, None),
        }),
    }
}

// A pair, as the elements of a sequence.
fn show_pair<D: Deserializer>(
    alloc: Global,
    first: D,
    second: D,
    hint: Hint<'_>,
) -> Result<Shown<MapDeserializer<D>>, D::Error>
    requires { D.tracks ≡ false }
    ensures shows { Shows D.Text.text D.Bytes.bytes ⟦<MapDeserializer<D> as Deserializer>⟧.source
        ⟦<MapDeserializer<D> as Deserializer>⟧.sequence ⟦<MapDeserializer<D> as Deserializer>⟧.table ⟦<MapDeserializer<D> as Deserializer>⟧.choice D.Error.fault result
        (offer_of (pair_of D.source first second) (ask hint.entry)) }
    ensures begins { IfOk result (Begins ⟦<MapDeserializer<D> as Deserializer>⟧.sequence ⟦<MapDeserializer<D> as Deserializer>⟧.table
        ⟦<MapDeserializer<D> as Deserializer>⟧.key_text ⟦<MapDeserializer<D> as Deserializer>⟧.name_text) }
{
    match hint {
        Hint::Tuple(len) if len != 2 => Err(wrong_length(alloc, 2, len)),
        _ => Ok(Shown::Seq(MapElements {
            alloc,
            level: PairsLevel::Pair(Some(first), Some(second)),
        })),
    }
}

// What an item or a part of it shows.
fn show_part<D: Deserializer>(alloc: Global, shown: Shown<D>) -> Shown<MapDeserializer<D>>
    requires { D.tracks ≡ false }
    ensures offer { shown_offer D.Text.text D.Bytes.bytes ⟦<MapDeserializer<D> as Deserializer>⟧.source
        ⟦<MapDeserializer<D> as Deserializer>⟧.sequence ⟦<MapDeserializer<D> as Deserializer>⟧.table ⟦<MapDeserializer<D> as Deserializer>⟧.choice result
        ≡ shown_offer D.Text.text D.Bytes.bytes D.source D.sequence D.table D.choice shown }
    ensures begins { Begins D.sequence D.table D.key_text D.name_text shown
        → Begins ⟦<MapDeserializer<D> as Deserializer>⟧.sequence ⟦<MapDeserializer<D> as Deserializer>⟧.table
        ⟦<MapDeserializer<D> as Deserializer>⟧.key_text ⟦<MapDeserializer<D> as Deserializer>⟧.name_text result }
{
    match shown {
        Shown::Scalar(scalar) => Shown::Scalar(scalar),
        Shown::Some(d) => Shown::Some(MapDeserializer {
            alloc,
            level: MapLevel::Part(d),
        }),
        Shown::NewtypeStruct(d) => Shown::NewtypeStruct(MapDeserializer {
            alloc,
            level: MapLevel::Part(d),
        }),
        Shown::Seq(seq) => Shown::Seq(MapElements {
            alloc,
            level: PairsLevel::Part(seq),
        }),
        Shown::Map(map) => Shown::Map(MapEntries {
            alloc,
            level: EntriesLevel::Part(map),
        }),
        Shown::Enum(name, variant) => Shown::Enum(
            MapDeserializer {
                alloc,
                level: MapLevel::Part(name),
            },
            PartVariant { variant },
        ),
    }
}
