//! The line that an answer is written as.
ghost use Rattle.std.specs.Prelude.{◌≡◌, ◌++◌, ◌∷◌, [], false, IfOk, string_bytes};
ghost use Rattle.serde_json.specs.View.{view};
ghost use Rattle.serde_json.specs.Written.{compact_text, has_float};
ghost use Rattle.data_core.specs.Outcome.{given, refused};
ghost use Rattle.shape.specs.Shape as plain;
ghost use Rattle.shape.specs.View.{data_view, shape_view};
ghost use Rattle.answer.specs.Line.{answer, line};

use crate::faults::print_fault;
use crate::paths::print_path;
use crate::values::print;
use data_core::{Fault, Path};
use serde_json::{Value as Json, json};
use shape::{Data, Shape};
use std::alloc::{AllocError, Global};

/// The line that answers a value of this shape.
pub fn value_line(alloc: Global, shape: &Shape, value: Data) -> Result<String, AllocError>
    ensures { IfOk result (λ s. string_bytes s ≡ line (shape_view shape.now) (given (data_view value))) }
{
    written(alloc, &answer_value(alloc, shape, value)?)
}

/// The line that answers a refusal, whatever the shape.
pub fn refusal_line(alloc: Global, path: Path, fault: Fault) -> Result<String, AllocError>
    ensures { (a : plain.Shape) → IfOk result (λ s. string_bytes s ≡ line a (refused fault path)) }
{
    written(alloc, &answer_refusal(alloc, path, fault)?)
}

// The compact text of a JSON value without floats, and the end of a line.
fn written(alloc: Global, json: &Json) -> Result<String, AllocError>
    ensures { IfOk result (λ s. has_float (view json.now) ≡ false
        → string_bytes s ≡ compact_text (view json.now) ++ 10 ∷ []) }
{
    let mut line = json.to_string(alloc)?;
    line.push('\n')?;
    Ok(line)
}

// How a value is answered.
fn answer_value(alloc: Global, shape: &Shape, value: Data) -> Result<Json, AllocError>
    ensures { IfOk result (λ json. view json ≡ answer (shape_view shape.now) (given (data_view value))) }
{
    let value = print(alloc, Some(shape), value)?;
    json!(in alloc; {"value": value})
}

// How a refusal is answered.
fn answer_refusal(alloc: Global, path: Path, fault: Fault) -> Result<Json, AllocError>
    ensures { (a : plain.Shape) → IfOk result (λ json. view json ≡ answer a (refused fault path)) }
{
    let at = path.to_string(alloc)?;
    let steps = print_path(alloc, &path)?;
    let why = print_fault(alloc, fault)?;
    json!(in alloc; {"at": at, "fault": why, "path": steps})
}
