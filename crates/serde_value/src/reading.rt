//! The reading of trees.
ghost use Rattle.std.specs.Prelude.{◌≡◌, None, IfOk, IfErr};
ghost use Rattle.data_core.specs.Node.{of_node};
ghost use Rattle.data_core.specs.Outcome.{given};
ghost use Rattle.data_core.specs.Source.{offer_of};
ghost use Rattle.serde_value.specs.Captured.{captured};
ghost use Rattle.serde_value.specs.InOrder.{IsInOrder};
ghost use Rattle.serde_value.specs.Reading.{ReadsAmong};
ghost use Rattle.serde_value.specs.View.{node_view};
ghost use Rattle.value_error.specs.ErrorView.{fault_of};

use crate::de::ValueDeserializer;
use crate::value::Value;
use data_core::Track;
use data_std::Deserialize;
use std::alloc::Global;
use value_error::DeserializerError;

impl Value {
    /// Reads a value of a type from the tree: serde_value's `Value::deserialize_into`. No path is kept
    /// of a refusal.
    #[tactic(auto, using(crate::proofs::Readings::reads_among))]
    pub fn deserialize_into<T: Deserialize>(self, alloc: Global) -> Result<T, DeserializerError>
        ensures { ReadsAmong result (T.reads (offer_of (of_node (node_view self)) T.asks)) }
    {
        let mut track = Track::new(alloc);
        let d = ValueDeserializer::<DeserializerError>::new(alloc, self);
        data_std::deserialize(alloc, d, &mut track)
    }

    /// Captures the tree again, by the reader of trees. It is that very tree, since each of its maps has
    /// its keys in order.
    pub fn captured_again(self, alloc: Global) -> Result<Value, DeserializerError>
        ensures itself { IfOk result (λ v. IsInOrder (node_view self) → node_view v ≡ node_view self) }
        ensures memory { IfErr result (λ e. IsInOrder (node_view self) → fault_of e ≡ None) }
        // What is captured of a tree whose maps stand by rising key is that tree.
        ensures law { IsInOrder (node_view self) → captured (of_node (node_view self)) ≡ given (node_view self) }
    {
        self.deserialize_into::<Value>(alloc)
    }
}
