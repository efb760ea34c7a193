//! Which bytes of a head or of a trailer section are looked at.

ghost use Rattle.std.specs.Prelude.{◌≡◌, ◌+◌, ◌<◌, ◌≤◌, length, take, drop, slice_index_or, MatchOption};
ghost use Rattle.http_model.specs.Reading.{Partial};
ghost use Rattle.http_model.specs.Lines.{line, first_line, begins_field as begins};
ghost use Rattle.http_model.specs.Heads.{head_limit};
ghost use Rattle.h1_read.specs.Limits.{lines_len, is_crowded, section_seen, is_empty_end, IsLineEnd, IsFirstLineEnd};

/// The bytes that a head or a section may take.
pub const MAX_HEAD: usize = 32_768;

/// How many fields it may have.
pub const MAX_FIELDS: usize = 100;

/// The first bytes, as many as a head or a section may take.
pub fn front(bytes: &[u8]) -> &[u8]
    ensures { result.now ≡ take head_limit bytes.now }
{
    if bytes.len() < MAX_HEAD {
        bytes
    } else {
        &bytes[..MAX_HEAD]
    }
}

/// The bytes from a place on.
pub fn behind(bytes: &[u8], at: usize) -> &[u8]
    requires { at ≤ length bytes.now }
    ensures { result.now ≡ drop at bytes.now }
{
    &bytes[at..]
}

// The place behind so many line feeds, or the length where there are fewer.
fn lines_len(bytes: &[u8], count: usize) -> usize
    ensures value { result ≡ lines_len count bytes.now }
    ensures within { result ≤ length bytes.now }
{
    let mut at = 0;
    let mut left = count;
    while at < bytes.len() {
        if left == 0 {
            return at;
        }
        left = if bytes[at] == b'\n' { left - 1 } else { left };
        at += 1;
    }
    at
}

// Whether a field begins here.
fn begins_field(bytes: &[u8]) -> bool
    ensures { result ≡ begins bytes.now }
{
    match bytes.first() {
        Some(b) => *b != b'\r' && *b != b'\n',
        None => false,
    }
}

/// Whether a section has a field too many.
#[tactic(auto, unfolding(crate::specs::Limits::is_crowded))]
pub fn is_crowded(section: &[u8]) -> bool
    ensures { result ≡ is_crowded section.now }
{
    begins_field(&section[lines_len(section, MAX_FIELDS)..])
}

/// The bytes of a section before a field too many.
#[tactic(auto, unfolding(crate::specs::Limits::section_seen))]
pub fn section_seen(section: &[u8]) -> &[u8]
    ensures { result.now ≡ section_seen section.now }
{
    if is_crowded(section) {
        &section[..lines_len(section, MAX_FIELDS)]
    } else {
        section
    }
}

// The place behind the first line feed.
#[tactic(auto, using(crate::proofs::LineScan::lacks_more, crate::proofs::LineScan::line_found, crate::proofs::LineScan::lacks_all))]
fn line_end(bytes: &[u8]) -> Option<usize>
    ensures { MatchOption result (line bytes.now ≡ Partial) (IsLineEnd bytes.now) }
{
    for at in 0..bytes.len() {
        if bytes[at] == b'\n' {
            return Some(at + 1);
        }
    }
    None
}

// Whether the byte at `at` is of an empty line's end, where a line begins there.
fn is_empty_end(bytes: &[u8], at: usize) -> bool
    requires { at < length bytes.now }
    ensures { result ≡ is_empty_end (slice_index_or bytes.now at 0) (drop (at + 1) bytes.now) }
{
    bytes[at] == b'\n' || bytes[at] == b'\r' && at + 1 < bytes.len() && bytes[at + 1] == b'\n'
}

// How many bytes the empty lines at the front take.
#[tactic(auto, using(crate::proofs::LineScan::first_more, crate::proofs::LineScan::first_here, crate::proofs::LineScan::first_none))]
fn empty_lines_len(bytes: &[u8]) -> usize
    ensures value { first_line bytes.now ≡ line (drop result bytes.now) }
    ensures within { result ≤ length bytes.now }
{
    let mut at = 0;
    while at < bytes.len() && is_empty_end(bytes, at) {
        at += 1;
    }
    at
}

/// The place behind the first line that isn't empty; `None` where it isn't whole.
pub fn first_line_end(bytes: &[u8]) -> Option<usize>
    ensures { MatchOption result (first_line bytes.now ≡ Partial) (IsFirstLineEnd bytes.now) }
{
    let start = empty_lines_len(bytes);
    match line_end(&bytes[start..]) {
        Some(n) => Some(start + n),
        None => None,
    }
}
