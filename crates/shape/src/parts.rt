//! What data hold.
ghost use Rattle.std.specs.Prelude.{◌≡◌, length, map, IsTrue, ◌↔◌, []};
ghost use Rattle.shape.specs.View.{data_view};

use crate::data::{Data, DataHeld, DataItems};

impl DataHeld {
    /// What is in a box, held. Takes no memory.
    pub fn from_box(inner: Box<Data>) -> DataHeld
        ensures { result ≡ data_view inner.value }
    {
        DataHeld { inner }
    }

    /// What is held, still in its box. Takes no memory.
    pub fn into_box(self) -> Box<Data>
        ensures { data_view result.value ≡ self }
    {
        self.inner
    }

    /// What is held. Takes no memory.
    pub fn into_inner(self) -> Data
        ensures { data_view result ≡ self }
    {
        Box::into_inner(self.inner)
    }

    /// What is held, lent. Takes no memory.
    pub fn get(&self) -> &Data
        ensures { data_view result.now ≡ self.now }
    {
        &self.inner
    }
}

impl DataItems {
    /// What is in a `Vec`, as items. Takes no memory.
    pub fn from_vec(items: Vec<Data>) -> DataItems
        ensures { result ≡ map data_view items.items }
    {
        DataItems { items }
    }

    /// The items, in their `Vec`. Takes no memory.
    pub fn into_vec(self) -> Vec<Data>
        ensures { map data_view result.items ≡ self }
    {
        self.items
    }

    /// The items, lent. Takes no memory.
    pub fn as_slice(&self) -> &[Data]
        ensures { map data_view result.now ≡ self.now }
    {
        self.items.as_slice()
    }

    /// How many items there are. Takes no memory.
    pub fn len(&self) -> usize
        ensures { result ≡ length self.now }
    {
        self.items.len()
    }

    /// Whether there is no item. Takes no memory.
    pub fn is_empty(&self) -> bool
        ensures { IsTrue result ↔ (self.now ≡ []) }
    {
        self.items.is_empty()
    }
}
