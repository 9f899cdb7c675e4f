//! Trees that are made into deserializers.

use crate::de::ValueDeserializer;
use crate::value::Value;
use data_core::DeError;
use data_items::IntoDeserializer;
use std::alloc::Global;

impl<E: DeError> IntoDeserializer<E> for Value {
    type Deserializer = ValueDeserializer<E>;

    ghost use Rattle.data_core.specs.Node.{of_node};
    ghost use Rattle.serde_value.specs.View.{node_view};

    ghost source = { λ v. of_node (node_view v) };

    fn into_deserializer(self, alloc: Global) -> ValueDeserializer<E> {
        ValueDeserializer::new(alloc, self)
    }
}

impl<E: DeError> IntoDeserializer<E> for ValueDeserializer<E> {
    type Deserializer = ValueDeserializer<E>;

    ghost use Rattle.serde_value.specs.Deserializer.{source_of};

    ghost source = { source_of };

    fn into_deserializer(self, _alloc: Global) -> ValueDeserializer<E> {
        self
    }
}
