//! Fronts of texts.

ghost use Rattle.std.specs.Prelude.{◌≡◌, ◌++◌, ℕ, List, MatchOption, option_copied};
ghost use Rattle.ext_top.specs.Scan.{stripped};

// What follows a text at the front, where it stands there.
fn strip_front<'a>(bytes: &'a [u8], text: &[u8]) -> Option<&'a [u8]>
    ensures { MatchOption result ((rest : List ℕ) → bytes.now ≡ text.now ++ rest
        → ⊥) (λ rest. bytes.now ≡ text.now ++ rest.now) }
{
    bytes.strip_prefix(text)
}

/// What follows a text at the front.
pub(crate) fn strip<'a>(bytes: &'a [u8], text: &[u8]) -> Option<&'a [u8]>
    ensures { option_copied result ≡ stripped text.now bytes.now }
{
    match strip_front(bytes, text) {
        Some(rest) => Some(rest),
        None => None,
    }
}
