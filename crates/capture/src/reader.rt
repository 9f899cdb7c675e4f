//! Reading of an input under a shape.
ghost use Rattle.std.specs.Prelude.{◌≡◌, IfOk, IfErr};
ghost use Rattle.data_core.specs.Outcome.{given};
ghost use Rattle.path_core.specs.Error.{path_of, original_of};
ghost use Rattle.shape_read.specs.First.{first as first_source};
ghost use Rattle.shape_read.specs.OfShape.{IsOf};
ghost use Rattle.shape.specs.View.{shape_view, data_view};
ghost use Rattle.serde_value.specs.View.{node_view};
ghost use Rattle.value_error.specs.ErrorView.{fault_of};
ghost use Rattle.document.specs.Input.{input_view};
ghost use Rattle.shape.specs.Shape as spec;
ghost use Rattle.shape.specs.Upgraded.{upgraded};
ghost use Rattle.document.specs.Input as input;
ghost use Rattle.capture.specs.First.{first, first1, source_of};
ghost use Rattle.capture.specs.FirstTree.{first_tree};
ghost use Rattle.capture.specs.ByName.{ReadsByName};
ghost use Rattle.capture.specs.Reads.{Hands, HandsAny, Answers, IsRefusal, IsRefusalOf};

use data_core::{DeError, Deserializer, Fault, Path};
use document::Input;
use path_core::Error;
use serde_path_to_error::deserialize_seed;
use serde_value::{DeserializerError, Value, ValueDeserializer};
use shape::{Data, Shape};
use shape_read::ShapeSeed;
use std::alloc::Global;

/// Why an input was not read. It is this project's own.
#[derive(Drop)]
pub enum ReadError {
    /// There was no memory for it, which says nothing of the input.
    Memory,
    /// The input was refused: why, and at which of its parts.
    Refused { path: Path, fault: Fault },
}

/// Reads an input under a shape: its value, which is data of that shape, or the first fault in
/// reading order with the path to the refused part.
#[tactic(auto, using(crate::proofs::Hands::hands))]
pub fn read(alloc: Global, shape: &Shape, input: Input) -> Result<Data, ReadError>
    ensures value { IfOk result (λ d. first (shape_view shape.now) (input_view input) ≡ given (data_view d)) }
    ensures refusal { IfErr result (λ e. IsRefusal e (first (shape_view shape.now) (input_view input))) }
    ensures complete { Answers (first (shape_view shape.now) (input_view input)) result }
    ensures of_shape { IfOk result (λ d. IsOf (shape_view shape.now) (data_view d)) }
    // Over a map, a struct has exactly the values that the pairs name.
    ensures by_name { ReadsByName (shape_view shape.now) (input_view input) (λ d. first (shape_view shape.now) (input_view input) ≡ given d) }
    // An upgraded shape reads as the shape did in the first version.
    ensures first_version { (s : spec.Shape) → shape_view shape.now ≡ upgraded s → Answers (first1 s (input_view input)) result }
{
    match input {
        Input::Tree(value) => read_tree(alloc, shape, value),
    }
}

fn read_tree(alloc: Global, shape: &Shape, value: Value) -> Result<Data, ReadError>
    ensures { Hands result (first_tree (shape_view shape.now) (node_view value)) }
{
    let d: ValueDeserializer<DeserializerError> = ValueDeserializer::new(alloc, value);
    match read_any(alloc, shape, d) {
        Ok(data) => Ok(data),
        Err(error) => Err(refusal(error)),
    }
}

/// Reads under a shape from any deserializer. An error comes with the path of the refused part. It
/// is this project's own.
pub fn read_any<D: Deserializer>(
    alloc: Global,
    shape: &Shape,
    d: D,
) -> Result<Data, Error<D::Error>>
    ensures answer { HandsAny D.Error.fault result (first_source (shape_view shape.now) (D.source d)) }
    // Where the source is that of an input, the outcome is the first one of that input.
    ensures of_input { (i : input.Input) → D.source d ≡ source_of i → HandsAny D.Error.fault result (first (shape_view shape.now) i) }
    ensures of_shape { IfOk result (λ d. IsOf (shape_view shape.now) (data_view d)) }
{
    deserialize_seed(alloc, d, ShapeSeed::new(shape))
}

// The fault and the path of an error.
fn refusal(error: Error<DeserializerError>) -> ReadError
    ensures { IsRefusalOf result (fault_of (original_of error)) (path_of error) }
{
    let (path, original) = error.into_parts();
    match original.into_fault() {
        Some(fault) => ReadError::Refused { path, fault },
        None => ReadError::Memory,
    }
}
