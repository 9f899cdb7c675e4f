//! Deserializers over trees.
ghost use Rattle.std.specs.Prelude.{◌≡◌, ◌+◌, ◌^◌, true, false, Some, None, IsOk, IsSome, OnErr};
ghost use Rattle.data_core.specs.Fault.{IsCalled};
ghost use Rattle.data_core.specs.Node.{of_nodes, of_pairs, nodes_of, pairs_of, plain};
ghost use Rattle.data_core.specs.Refused.{IsSeenOf, fault_of};
ghost use Rattle.data_core.specs.Source.{count, count_entries};
ghost use Rattle.data_core.specs.Took.{Took};
ghost use Rattle.data_core.specs.Sequence.{Takes, Ends, one_taken, surplus};
ghost use Rattle.data_core.specs.Table.{TakesKey, TakesValue, key_taken, value_taken, surplus_entries};
ghost use Rattle.serde_value.specs.View.{node_view};
ghost use Rattle.serde_value.specs.Deserializer.{value_of, source_of, sequence_of, table_of, choice_of, no_key_text, no_name_text};

use crate::show::{show_enum, show_newtype, show_option, show_plain};
use crate::value::{Items, Value, ValueMap};
use crate::variant::ValueVariant;
use data_core::{DeError, Deserializer, Fault, Hint, Names, Shown, Track, Unexpected};
use std::alloc::Global;
use std::marker::PhantomData;
use std::vec::IntoIter;

/// A deserializer over a tree, whose errors are of the type `E`: serde_value's `ValueDeserializer`.
/// It keeps the allocator for the refusals that it makes itself.
#[derive(Drop)]
pub struct ValueDeserializer<E: DeError> {
    alloc: Global,
    value: Value,
    error: PhantomData<E>,
}

impl<E: DeError> ValueDeserializer<E> {
    /// A deserializer that stands for the tree. Takes no memory.
    pub fn new(alloc: Global, value: Value) -> ValueDeserializer<E>
        ensures { value_of result ≡ value }
    {
        ValueDeserializer {
            alloc,
            value,
            error: PhantomData,
        }
    }

    /// The tree. Takes no memory.
    pub fn into_value(self) -> Value
        ensures { result ≡ value_of self }
    {
        self.value
    }
}

/// The elements of a sequence that are left, and how many were taken: serde's `SeqDeserializer` over
/// trees. They are taken from the front, and none is copied. Dropping deep trees recurses.
#[derive(Drop)]
pub struct ValueElements<E: DeError> {
    alloc: Global,
    rest: IntoIter<Value>,
    taken: usize,
    error: PhantomData<E>,
}

impl<E: DeError> ValueElements<E> {
    // A whole sequence, of which none was taken.
    pub(crate) fn new(alloc: Global, items: Items) -> ValueElements<E>
        ensures left { (sequence_of result).left ≡ of_nodes (nodes_of items) }
        ensures taken { (sequence_of result).taken ≡ 0 }
    {
        ValueElements {
            alloc,
            rest: items.into_vec().into_iter(),
            taken: 0,
            error: PhantomData,
        }
    }
}

/// The entries of a map that are left, the value whose key was taken last, how many keys were taken,
/// and whether the end is checked: serde's `MapDeserializer` over trees. They are taken by rising key,
/// and none is copied. Dropping deep trees recurses.
#[derive(Drop)]
pub struct ValueEntries<E: DeError> {
    alloc: Global,
    rest: IntoIter<(Value, Value)>,
    waiting: Option<Value>,
    taken: usize,
    checks: bool,
    error: PhantomData<E>,
}

impl<E: DeError> ValueEntries<E> {
    // A whole map, of which none was taken.
    pub(crate) fn new(alloc: Global, map: ValueMap, checks: bool) -> ValueEntries<E>
        ensures left { (table_of result).left ≡ of_pairs (pairs_of map) }
        ensures taken { (table_of result).taken ≡ 0 }
        ensures waiting { (table_of result).waiting ≡ None }
        ensures checks { (table_of result).checks ≡ checks }
    {
        ValueEntries {
            alloc,
            rest: map.into_vec().into_iter(),
            waiting: None,
            taken: 0,
            checks,
            error: PhantomData,
        }
    }
}

impl<E: DeError> Deserializer for ValueDeserializer<E> {
    type Error = E;

    type Text = String;

    type Bytes = Vec<u8>;

    type Seq = ValueElements<E>;

    type Map = ValueEntries<E>;

    type Variant = ValueVariant<E>;

    ghost tracks = { false };

    ghost human_readable = { true };

    ghost source = { source_of };

    ghost sequence = { sequence_of };

    ghost table = { table_of };

    ghost choice = { choice_of };

    ghost key_text = { no_key_text };

    ghost name_text = { no_name_text };

    fn is_human_readable(&self) -> bool {
        true
    }

    fn show(self, hint: Hint<'_>) -> Result<Shown<ValueDeserializer<E>>, E> {
        match hint {
            Hint::I128 | Hint::U128 => Err(E::custom(
                self.alloc,
                "integers of 128 bits are not supported",
            )),
            Hint::Option => Ok(show_option(self.alloc, self.value)),
            Hint::NewtypeStruct(_) => Ok(show_newtype(self.alloc, self.value)),
            Hint::Enum(_, _) => show_enum(self.alloc, self.value),
            _ => Ok(show_plain(self.alloc, self.value)),
        }
    }

    fn next_element(seq: &mut ValueElements<E>) -> Result<Option<ValueDeserializer<E>>, E>
        ensures takes { Takes source_of E.fault result (sequence_of seq.old).left (sequence_of seq.new).left }
        ensures took { Took E.fault result (sequence_of seq.old) (one_taken (sequence_of seq.old)) (sequence_of seq.new) }
        ensures full { OnErr result ((sequence_of seq.old).taken + 1 ≡ 2 ^ 64) }
    {
        // Where the count has no room, nothing is taken.
        let Some(taken) = seq.taken.checked_add(1) else {
            return Err(E::memory());
        };
        let Some(value) = seq.rest.next() else {
            return Ok(None);
        };
        seq.taken = taken;
        Ok(Some(ValueDeserializer::new(seq.alloc, value)))
    }

    fn leave_element(
        _seq: &mut ValueElements<E>,
        _before: bool,
        _failed: bool,
        _track: &mut Track,
    ) -> Result<(), E> {
        Ok(())
    }

    fn elements_taken(seq: &ValueElements<E>) -> usize {
        seq.taken
    }

    #[tactic(auto, using(crate::proofs::Elements::count_of_values))]
    fn elements_left(seq: &ValueElements<E>) -> Option<usize>
        ensures { result ≡ Some (count (sequence_of seq.now).left) }
    {
        Some(seq.rest.len())
    }

    #[tactic(auto, using(crate::proofs::Elements::count_of_values, crate::proofs::Elements::surplus_of_values))]
    fn end_seq(alloc: Global, seq: ValueElements<E>) -> Result<(), E>
        ensures ends { Ends E.fault result (surplus true (sequence_of seq).taken (sequence_of seq).left) }
        ensures whole { count (sequence_of seq).left ≡ 0 → IsOk result }
    {
        let left = seq.rest.len();
        if left == 0 {
            return Ok(());
        }
        Err(refused_rest(alloc, seq.taken, left))
    }

    fn next_key(map: &mut ValueEntries<E>) -> Result<Option<ValueDeserializer<E>>, E>
        ensures takes { TakesKey source_of E.fault result (table_of map.old) (table_of map.new) }
        ensures took { Took E.fault result (table_of map.old) (key_taken (table_of map.old)) (table_of map.new) }
        ensures caught { no_key_text map.new ≡ None }
        ensures full { OnErr result ((table_of map.old).taken + 1 ≡ 2 ^ 64) }
    {
        // Where the count has no room, nothing is taken.
        let Some(taken) = map.taken.checked_add(1) else {
            return Err(E::memory());
        };
        map.waiting = None;
        let Some((key, value)) = map.rest.next() else {
            return Ok(None);
        };
        map.taken = taken;
        map.waiting = Some(value);
        Ok(Some(ValueDeserializer::new(map.alloc, key)))
    }

    fn show_key(
        _map: &mut ValueEntries<E>,
        key: ValueDeserializer<E>,
        hint: Hint<'_>,
    ) -> Result<Shown<ValueDeserializer<E>>, E> {
        key.show(hint)
    }

    fn leave_key(
        _map: &mut ValueEntries<E>,
        _before: bool,
        _failed: bool,
        _track: &mut Track,
    ) -> Result<(), E> {
        Ok(())
    }

    fn next_value(map: &mut ValueEntries<E>) -> Result<ValueDeserializer<E>, E>
        requires { IsSome (table_of map.old).waiting }
        ensures takes { TakesValue source_of E.fault result (table_of map.old).waiting }
        ensures took { Took E.fault result (table_of map.old) (value_taken (table_of map.old)) (table_of map.new) }
        ensures caught { no_key_text map.new ≡ no_key_text map.old }
        ensures given { IsOk result }
    {
        match map.waiting.take() {
            Some(value) => Ok(ValueDeserializer::new(map.alloc, value)),
            None => Err(E::memory()),
        }
    }

    fn leave_value(
        _map: &mut ValueEntries<E>,
        _before: bool,
        _failed: bool,
        _track: &mut Track,
    ) -> Result<(), E> {
        Ok(())
    }

    #[tactic(auto, using(crate::proofs::Elements::count_of_pairs))]
    fn entries_left(map: &ValueEntries<E>) -> Option<usize>
        ensures { result ≡ Some (count_entries (table_of map.now).left) }
    {
        Some(map.rest.len())
    }

    #[tactic(auto, using(crate::proofs::Elements::count_of_pairs, crate::proofs::Elements::surplus_of_pairs))]
    fn end_map(alloc: Global, map: ValueEntries<E>) -> Result<(), E>
        ensures ends { Ends E.fault result
            (surplus_entries (table_of map).checks (table_of map).taken (table_of map).left) }
        ensures whole { count_entries (table_of map).left ≡ 0 → IsOk result }
        ensures passed_over { (table_of map).checks ≡ false → IsOk result }
    {
        let left = map.rest.len();
        if !map.checks || left == 0 {
            return Ok(());
        }
        Err(refused_rest(alloc, map.taken, left))
    }

    fn show_name(
        _variant: &mut ValueVariant<E>,
        name: ValueDeserializer<E>,
        hint: Hint<'_>,
    ) -> Result<Shown<ValueDeserializer<E>>, E> {
        name.show(hint)
    }

    fn leave_name(
        _variant: &mut ValueVariant<E>,
        _before: bool,
        _failed: bool,
        _track: &mut Track,
    ) -> Result<(), E> {
        Ok(())
    }

    fn unit_variant(alloc: Global, variant: &mut ValueVariant<E>) -> Result<(), E> {
        match variant.take(alloc)? {
            None | Some(Value::Unit) => Ok(()),
            Some(other) => Err(refused_unit(alloc, other)),
        }
    }

    #[tactic(auto, using(crate::proofs::Variants::newtype_of_payload))]
    fn newtype_variant(
        alloc: Global,
        variant: &mut ValueVariant<E>,
    ) -> Result<ValueDeserializer<E>, E> {
        match variant.take(alloc)? {
            Some(value) => Ok(ValueDeserializer::new(alloc, value)),
            None => Err(E::invalid_type(alloc, Unexpected::UnitVariant, "newtype variant")),
        }
    }

    fn tuple_variant(
        alloc: Global,
        variant: &mut ValueVariant<E>,
        _len: usize,
    ) -> Result<ValueElements<E>, E> {
        match variant.take(alloc)? {
            Some(Value::Seq(items)) => Ok(ValueElements::new(alloc, items)),
            Some(other) => Err(E::invalid_type(alloc, other.unexpected(), "tuple variant")),
            None => Err(E::invalid_type(alloc, Unexpected::UnitVariant, "tuple variant")),
        }
    }

    fn struct_variant(
        alloc: Global,
        variant: &mut ValueVariant<E>,
        _fields: &Names,
    ) -> Result<ValueEntries<E>, E> {
        match variant.take(alloc)? {
            Some(Value::Map(map)) => Ok(ValueEntries::new(alloc, map, true)),
            Some(other) => Err(E::invalid_type(alloc, other.unexpected(), "struct variant")),
            None => Err(E::invalid_type(alloc, Unexpected::UnitVariant, "struct variant")),
        }
    }

    fn leave_payload(
        _variant: &mut ValueVariant<E>,
        _before: bool,
        _failed: bool,
        _track: &mut Track,
    ) -> Result<(), E> {
        Ok(())
    }
}

// The refusal of a tree that is to be a unit. A character is seen as its text.
fn refused_unit<E: DeError>(alloc: Global, value: Value) -> E
    ensures called { IsCalled (E.fault result) (fault_of (plain (node_view value))) }
    ensures sees { IsSeenOf (E.saw result) (plain (node_view value)) }
{
    match value {
        Value::Char(c) => {
            let mut room = [0u8; 4];
            let text = c.encode_utf8(&mut room);
            E::invalid_type(alloc, Unexpected::Str(text), "unit")
        }
        other => E::invalid_type(alloc, other.unexpected(), "unit"),
    }
}

// The refusal of a reader that took so many parts, and left so many.
fn refused_rest<E: DeError>(alloc: Global, taken: usize, left: usize) -> E
    ensures { IsCalled (E.fault result) (Fault.InvalidLength (taken + left)) }
{
    let Some(all) = taken.checked_add(left) else {
        return E::memory();
    };
    match format!(in alloc; "{taken}") {
        Ok(taken) => E::invalid_length(alloc, all, taken.as_str()),
        Err(_) => E::memory(),
    }
}
