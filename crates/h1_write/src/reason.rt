//! Reason phrases: RFC 9110 section 15, RFC 6585.

ghost use Rattle.std.specs.Prelude.{◌≡◌};
ghost use Rattle.http_model.specs.Bytes.{decimal_value};
ghost use Rattle.http_model.specs.Wire.{reason};

/// The phrase of a status; empty where the proxy has none for it.
pub fn phrase(code: u32) -> &'static [u8]
    ensures { result.now ≡ reason code }
{
    match code {
        200 => b"OK",
        201 => b"Created",
        202 => b"Accepted",
        204 => b"No Content",
        206 => b"Partial Content",
        301 => b"Moved Permanently",
        302 => b"Found",
        303 => b"See Other",
        304 => b"Not Modified",
        307 => b"Temporary Redirect",
        308 => b"Permanent Redirect",
        400 => b"Bad Request",
        401 => b"Unauthorized",
        403 => b"Forbidden",
        404 => b"Not Found",
        405 => b"Method Not Allowed",
        409 => b"Conflict",
        412 => b"Precondition Failed",
        413 => b"Content Too Large",
        429 => b"Too Many Requests",
        431 => b"Request Header Fields Too Large",
        500 => b"Internal Server Error",
        501 => b"Not Implemented",
        502 => b"Bad Gateway",
        503 => b"Service Unavailable",
        504 => b"Gateway Timeout",
        505 => b"HTTP Version Not Supported",
        _ => b"",
    }
}

/// The number that the digits of a status write, or one that has no phrase.
#[tactic(auto, using(crate::proofs::Capped::capped_more, crate::proofs::Capped::same_reason))]
pub fn code_of(status: &[u8]) -> u32
    ensures { reason result ≡ reason (decimal_value status.now) }
{
    let mut code: u32 = 0;
    for digit in status {
        code = (code * 10 + u32::from(digit.saturating_sub(b'0'))).min(1000);
    }
    code
}
