ghost use Rattle.std.specs.Prelude.{◌≡◌, IfOk, IsTrue, string_bytes};
ghost use Rattle.http.specs.StatusCode.{IsStatusCode};
ghost use Rattle.book_http.specs.Response.{close_field, head_of, is_answered, phrase, refusal, response};

use book_commodity::{Bytes, OutOfMemory};
use http::StatusCode;
use std::alloc::{AllocError, Global};

/// The phrase of a status, as RFC 9110 gives it.
fn phrase(status: u16) -> &'static str
    requires { IsStatusCode status }
    ensures { result.now ≡ phrase status }
{
    let Ok(code) = StatusCode::from_u16(status) else {
        unreachable!()
    };
    code.canonical_reason().unwrap_or("")
}

/// The field that says that the link closes.
fn close_field(close: bool) -> &'static str
    ensures { result.now ≡ close_field close }
{
    if close { "Connection: close\r\n" } else { "" }
}

/// The head of a response whose body has this size.
fn head_text(
    alloc: Global,
    status: u16,
    phrase: &str,
    size: usize,
    field: &str,
) -> Result<String, AllocError>
    ensures { IfOk result (λ head. string_bytes head ≡ head_of status phrase.now size field.now) }
{
    format!(in alloc;
        "HTTP/1.1 {status} {phrase}\r\nContent-Type: application/json\r\nContent-Length: {size}\r\n{field}\r\n"
    )
}

/// The bytes of the response of this status with this body. It says so where the link closes.
pub fn response_bytes(
    alloc: Global,
    status: u16,
    body: &[u8],
    close: bool,
) -> Result<Bytes, OutOfMemory>
    requires { IsTrue (is_answered status) }
    ensures { IfOk result (λ bytes. bytes ≡ response status body.now close) }
{
    let phrase = phrase(status);
    let head = head_text(alloc, status, phrase, body.len(), close_field(close))?;
    let mut bytes = head.into_bytes();
    bytes.extend_from_slice(body)?;
    Ok(Bytes::of(bytes))
}

/// The body of the answer to a request that is refused with this status.
pub fn refusal_body(alloc: Global, status: u16) -> Result<Bytes, OutOfMemory>
    ensures { IfOk result (λ bytes. bytes ≡ refusal status) }
{
    let text = format!(in alloc; "{{\"status\":{status}}}")?;
    Ok(Bytes::of(text.into_bytes()))
}
