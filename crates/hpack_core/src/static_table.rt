//! The static table: RFC 7541, appendix A.

ghost use Rattle.std.specs.Prelude.{◌≡◌, ◌<◌, [], get_or};
ghost use Rattle.hpack_core.specs.Static.{entry, static_table};
ghost use Rattle.hpack_core.specs.Writing.{is_field, field_number, name_number};
ghost use Rattle.std.specs.Str.{bytes_eq};

use ext_msgs::Field;

// How many entries there are.
pub(crate) const COUNT: u32 = 61;

// Whether an entry has a name.
fn has_name(entry: &[u8], name: &[u8]) -> bool
    ensures { result ≡ bytes_eq entry.now name.now }
{
    entry == name
}

// Whether an entry of this name and value is equal to a field.
fn is_equal(name: &[u8], value: &[u8], field: &Field) -> bool
    ensures { result ≡ is_field field.now (entry name.now value.now) }
{
    has_name(name, field.name.bytes()) && value == field.value.bytes()
}

// The lowest number of a name.
pub(crate) fn number_of_name(name: &[u8]) -> Option<u32>
    ensures { result ≡ name_number name.now }
{
    for index in 0..COUNT {
        if has_name(static_at(index).0, name) {
            return Some(index + 1);
        }
    }
    None
}

// The lowest number of a field.
pub(crate) fn number_of_field(field: &Field) -> Option<u32>
    ensures { result ≡ field_number field.now }
{
    for index in 0..COUNT {
        let (name, value) = static_at(index);
        if is_equal(name, value, field) {
            return Some(index + 1);
        }
    }
    None
}

// The entry of an index below 61.
// Prover: a match, since a constant array of texts would be opened in each proof.
#[tactic(auto, unfolding(crate::specs::Static::static_table))]
pub(crate) fn static_at(index: u32) -> (&'static [u8], &'static [u8])
    requires { index < 61 }
    ensures { entry result.0.now result.1.now ≡ get_or static_table index (entry [] []) }
{
    match index {
        0 => (b":authority", b""),
        1 => (b":method", b"GET"),
        2 => (b":method", b"POST"),
        3 => (b":path", b"/"),
        4 => (b":path", b"/index.html"),
        5 => (b":scheme", b"http"),
        6 => (b":scheme", b"https"),
        7 => (b":status", b"200"),
        8 => (b":status", b"204"),
        9 => (b":status", b"206"),
        10 => (b":status", b"304"),
        11 => (b":status", b"400"),
        12 => (b":status", b"404"),
        13 => (b":status", b"500"),
        14 => (b"accept-charset", b""),
        15 => (b"accept-encoding", b"gzip, deflate"),
        16 => (b"accept-language", b""),
        17 => (b"accept-ranges", b""),
        18 => (b"accept", b""),
        19 => (b"access-control-allow-origin", b""),
        20 => (b"age", b""),
        21 => (b"allow", b""),
        22 => (b"authorization", b""),
        23 => (b"cache-control", b""),
        24 => (b"content-disposition", b""),
        25 => (b"content-encoding", b""),
        26 => (b"content-language", b""),
        27 => (b"content-length", b""),
        28 => (b"content-location", b""),
        29 => (b"content-range", b""),
        30 => (b"content-type", b""),
        31 => (b"cookie", b""),
        32 => (b"date", b""),
        33 => (b"etag", b""),
        34 => (b"expect", b""),
        35 => (b"expires", b""),
        36 => (b"from", b""),
        37 => (b"host", b""),
        38 => (b"if-match", b""),
        39 => (b"if-modified-since", b""),
        40 => (b"if-none-match", b""),
        41 => (b"if-range", b""),
        42 => (b"if-unmodified-since", b""),
        43 => (b"last-modified", b""),
        44 => (b"link", b""),
        45 => (b"location", b""),
        46 => (b"max-forwards", b""),
        47 => (b"proxy-authenticate", b""),
        48 => (b"proxy-authorization", b""),
        49 => (b"range", b""),
        50 => (b"referer", b""),
        51 => (b"refresh", b""),
        52 => (b"retry-after", b""),
        53 => (b"server", b""),
        54 => (b"set-cookie", b""),
        55 => (b"strict-transport-security", b""),
        56 => (b"transfer-encoding", b""),
        57 => (b"user-agent", b""),
        58 => (b"vary", b""),
        59 => (b"via", b""),
        _ => (b"www-authenticate", b""),
    }
}
