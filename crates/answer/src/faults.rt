//! How faults are printed.
ghost use Rattle.std.specs.Prelude.{◌≡◌, IfOk};
ghost use Rattle.serde_json.specs.Data.{string};
ghost use Rattle.serde_json.specs.View.{view};
ghost use Rattle.answer.specs.Line.{printed_fault, alone as alone_of, about as about_of};

use data_core::Fault;
use serde_json::{Value as Json, json};
use std::alloc::{AllocError, Global};

/// How a fault is printed: an array of its name and what it is about.
pub fn print_fault(alloc: Global, fault: Fault) -> Result<Json, AllocError>
    ensures { IfOk result (λ json. view json ≡ printed_fault fault) }
{
    match fault {
        Fault::InvalidType(kind) => about_text(alloc, "InvalidType", kind.as_str()),
        Fault::InvalidValue(kind) => about_text(alloc, "InvalidValue", kind.as_str()),
        Fault::InvalidLength(n) => about(alloc, "InvalidLength", Json::from(n)),
        Fault::UnknownVariant(text) => about_text(alloc, "UnknownVariant", text.as_str()),
        Fault::UnknownField(text) => about_text(alloc, "UnknownField", text.as_str()),
        Fault::MissingField(text) => about_text(alloc, "MissingField", text.as_str()),
        Fault::DuplicateField(text) => about_text(alloc, "DuplicateField", text.as_str()),
        Fault::Parse(word) => about_text(alloc, "Parse", word.as_str()),
        Fault::ImpossibleDeserialization(word) => {
            about_text(alloc, "ImpossibleDeserialization", word.as_str())
        }
        Fault::Custom => alone(alloc, "Custom"),
        Fault::ImpossibleSerialization(word) => {
            about_text(alloc, "ImpossibleSerialization", word.as_str())
        }
        Fault::Utf8 => alone(alloc, "Utf8"),
    }
}

/// An array of a name.
pub fn alone(alloc: Global, name: &str) -> Result<Json, AllocError>
    ensures { IfOk result (λ json. view json ≡ alone_of name.now) }
{
    json!(in alloc; [name])
}

/// An array of a name and what it is about.
pub fn about(alloc: Global, name: &str, json: Json) -> Result<Json, AllocError>
    ensures { IfOk result (λ pair. view pair ≡ about_of name.now (view json)) }
{
    json!(in alloc; [name, json])
}

/// An array of a name and the text that it is about.
pub fn about_text(alloc: Global, name: &str, text: &str) -> Result<Json, AllocError>
    ensures { IfOk result (λ pair. view pair ≡ about_of name.now (string text.now)) }
{
    json!(in alloc; [name, text])
}
