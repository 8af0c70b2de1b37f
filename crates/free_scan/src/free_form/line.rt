//! What one line of a text says.

ghost use Rattle.std.specs.List.{list_all, prefix_len};
ghost use Rattle.std.specs.Prelude.{◌≡◌, ◌+◌, ◌≤◌, ◌-◌, None, take, drop, length, reverse};
ghost use Rattle.ftn_base.specs.Letters.{is_blank as blank};
ghost use Rattle.ftn_tree.specs.Code as code;
ghost use Rattle.ftn_tree.specs.Lines as lines;
ghost use Rattle.free_scan.specs.steps.PlainText as plain;

use crate::free_form::pieces::after;
use ftn_base::is_blank;

/// Whether the first of the bytes is that one.
pub(crate) fn begins_with(byte: u8, bytes: &[u8]) -> bool
    ensures { result ≡ lines.begins_with byte bytes.now }
{
    match bytes {
        [] => false,
        [first, ..] => *first == byte,
    }
}

/// A line without the CR before its LF.
pub(crate) fn without_return(body: &[u8]) -> &[u8]
    ensures { result.now ≡ lines.without_return body.now }
{
    if body.ends_with(b"\r") {
        &body[..body.len() - 1]
    } else {
        body
    }
}

/// How many blanks a line begins with.
pub(crate) fn indent(body: &[u8]) -> usize
    ensures count { result ≡ lines.indent body.now }
    ensures fits { result ≤ length body.now }
{
    body.iter().take_while(|byte| is_blank(**byte)).count()
}

/// A line from its first byte on that is no blank.
fn without_indent(body: &[u8]) -> &[u8]
    ensures { result.now ≡ drop (lines.indent body.now) body.now }
{
    &body[indent(body)..]
}

/// Whether a line has nothing but blanks and a comment (3.3.1.1).
pub(crate) fn is_comment(body: &[u8]) -> bool
    ensures { result ≡ lines.is_comment body.now }
{
    let rest = without_indent(body);
    rest.is_empty() || begins_with(b'!', rest)
}

/// Whether the byte begins a character constant, or ends it.
pub(crate) fn is_quote(byte: u8) -> bool
    ensures { result ≡ code.is_quote byte }
{
    byte == b'\'' || byte == b'"'
}

/// Which quote is open after a byte (4.3.2.1).
pub(crate) fn quote_after(quote: Option<u8>, byte: u8) -> Option<u8>
    ensures { result ≡ code.quote_after quote byte }
{
    match quote {
        None => { if is_quote(byte) { Some(byte) } else { None } }
        Some(open) => { if byte == open { None } else { Some(open) } }
    }
}

/// Whether no quote is open.
pub(crate) fn is_outside(quote: Option<u8>) -> bool
    ensures { result ≡ code.is_outside quote }
{
    quote.is_none()
}

/// Whether the byte, outside constants, is a blank, or a letter, a digit or a mark but for `!`, `;`, `&` and quotes. A few such
/// bytes are left out, so that the test is short.
fn is_calm(byte: u8) -> bool
    ensures { result ≡ plain.is_calm byte }
{
    byte == b' ' || byte >= b'(' && byte < 127 && byte != b';'
}

/// How many such bytes stand in front.
pub(crate) fn calm_len(bytes: &[u8]) -> usize
    ensures count { result ≡ prefix_len plain.is_calm bytes.now }
    ensures fits { result ≤ length bytes.now }
{
    bytes.iter().take_while(|byte| is_calm(**byte)).count()
}

/// How many bytes stand before a comment, where that quote is open at first, found byte by byte.
fn walked_len(quote: Option<u8>, bytes: &[u8]) -> usize
    ensures count { result ≡ code.code_len quote bytes.now }
    ensures fits { result ≤ length bytes.now }
{
    let mut open = quote;
    for (at, byte) in bytes.iter().enumerate() {
        if is_outside(open) && *byte == b'!' {
            return at;
        }
        open = quote_after(open, *byte);
    }
    bytes.len()
}

/// How many bytes stand before a comment, where no quote is open at first.
fn outside_len(bytes: &[u8]) -> usize
    ensures count { result ≡ code.code_len None bytes.now }
    ensures fits { result ≤ length bytes.now }
{
    let calm = calm_len(bytes);
    calm + walked_len(None, after(bytes, calm))
}

/// How many bytes stand before a comment, where that quote is open at first.
pub(crate) fn code_len(quote: Option<u8>, bytes: &[u8]) -> usize
    ensures count { result ≡ code.code_len quote bytes.now }
    ensures fits { result ≤ length bytes.now }
{
    match quote {
        None => outside_len(bytes),
        Some(_) => walked_len(quote, bytes),
    }
}

/// How many blanks stand at the end.
fn trailing(bytes: &[u8]) -> usize
    ensures count { result ≡ prefix_len blank (reverse bytes.now) }
    ensures fits { result ≤ length bytes.now }
{
    bytes
        .iter()
        .rev()
        .take_while(|byte| is_blank(**byte))
        .count()
}

/// The bytes up to the last that is no blank.
fn stem(bytes: &[u8]) -> &[u8]
    ensures { result.now ≡ take (code.stem_len bytes.now) bytes.now }
{
    &bytes[..bytes.len() - trailing(bytes)]
}

/// Whether the last byte that is no blank is `&` (3.3.1.3).
pub(crate) fn goes_on(bytes: &[u8]) -> bool
    ensures { result ≡ code.goes_on bytes.now }
{
    stem(bytes).ends_with(b"&")
}

/// What stands before the `&` at the end, if there is one.
pub(crate) fn before_mark(bytes: &[u8]) -> &[u8]
    ensures before { result.now ≡ code.before_mark bytes.now }
    ensures fits { length result.now ≤ length bytes.now }
{
    let stem = stem(bytes);
    if stem.ends_with(b"&") {
        &stem[..stem.len() - 1]
    } else {
        bytes
    }
}

/// Whether the first byte that is no blank is `&`.
pub(crate) fn leads(body: &[u8]) -> bool
    ensures { result ≡ code.leads body.now }
{
    begins_with(b'&', without_indent(body))
}

/// The bytes before a comment, where that quote is open at first.
pub(crate) fn code_of(quote: Option<u8>, bytes: &[u8]) -> &[u8]
    ensures code { result.now ≡ code.code_of quote bytes.now }
    ensures fits { length result.now ≤ length bytes.now }
{
    &bytes[..code_len(quote, bytes)]
}

/// Whether there is nothing but blanks.
fn are_blanks(bytes: &[u8]) -> bool
    ensures { result ≡ list_all blank bytes.now }
{
    bytes.iter().all(|byte| is_blank(*byte))
}

/// Whether outside constants a line has nothing but one `&`, before a comment if there is one (3.3.1.3).
pub(crate) fn is_lone(body: &[u8]) -> bool
    ensures { result ≡ code.is_lone body.now }
{
    leads(body) && are_blanks(code_of(None, &body[indent(body) + 1..]))
}

/// Whether the byte is a control byte, other than a tab.
fn is_control(byte: u8) -> bool
    ensures { result ≡ code.is_control byte }
{
    byte < 32 && byte != b'\t' || byte == 127
}

/// Whether the byte may not stand there, where an `&` neither leads nor ends its line (3.1).
pub(crate) fn is_wrong(quote: Option<u8>, byte: u8) -> bool
    ensures { result ≡ code.is_wrong quote byte }
{
    is_control(byte) || is_outside(quote) && (byte >= 128 || byte == b'&')
}
