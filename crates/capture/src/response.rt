//! Responses to documents.
ghost use Rattle.std.specs.Prelude.{◌≡◌, IfOk, option_map};
ghost use Rattle.document.specs.Document.{document_view, document};
ghost use Rattle.capture.specs.Response.{response_view, response_of};

use crate::reader::{ReadError, read};
use crate::status::Status;
use answer::{refusal_line, value_line};
use document::{Document, parse};
use std::alloc::{AllocError, Global};

/// A line that is ready to be written, and the status that comes with it.
#[derive(Drop)]
pub struct Response {
    pub status: Status,
    pub line: String,
}

/// The response to the document that the bytes are, if they are one.
pub fn respond(alloc: Global, bytes: &[u8]) -> Result<Option<Response>, AllocError>
    ensures { IfOk result (λ found. option_map response_view found ≡ option_map response_of (document bytes.now)) }
{
    let Some(document) = parse(alloc, bytes)? else {
        return Ok(None);
    };
    Ok(Some(respond_to(alloc, document)?))
}

fn respond_to(alloc: Global, document: Document) -> Result<Response, AllocError>
    ensures { IfOk result (λ r. response_view r ≡ response_of (document_view document)) }
{
    let Document { shape, input } = document;
    match read(alloc, &shape, input) {
        Ok(value) => Ok(Response {
            status: Status::Accepted,
            line: value_line(alloc, &shape, value)?,
        }),
        Err(ReadError::Refused { path, fault }) => Ok(Response {
            status: Status::Refused,
            line: refusal_line(alloc, path, fault)?,
        }),
        Err(ReadError::Memory) => Err(AllocError),
    }
}
