//! Texts and names.

ghost use Rattle.std.specs.Prelude.{◌≡◌, true, false, MatchOption};
ghost use Rattle.std.specs.List.{list_all};
ghost use Rattle.std.specs.Str.{chars};
ghost use Rattle.signed_notes.specs.Notes.{is_ended, is_name, is_name_char, is_plain, is_text};

// Whether no byte is a control character other than a line feed.
fn are_plain(bytes: &[u8]) -> bool
    ensures { result ≡ list_all is_plain bytes.now }
{
    bytes.iter().all(|byte| *byte == b'\n' || *byte >= 32)
}

// Whether each character may stand in a name.
fn are_named(name: &str) -> bool
    ensures { result ≡ list_all is_name_char (chars name.now) }
{
    name.chars()
        .all(|c| c >= ' ' && !c.is_whitespace() && c != '+')
}

/// Returns bytes as a text, where they are UTF-8 without control characters but line feeds.
pub fn text_of(bytes: &[u8]) -> Option<&str>
    ensures { MatchOption result (is_text bytes.now ≡ false)
        (λ text. (text.now ≡ bytes.now) × (is_text bytes.now ≡ true)) }
{
    let Ok(text) = str::from_utf8(bytes) else {
        return None;
    };
    if is_text(text) { Some(text) } else { None }
}

/// Returns bytes as the name of a key, where they are one.
pub fn name_of(bytes: &[u8]) -> Option<&str>
    ensures { MatchOption result (is_name bytes.now ≡ false)
        (λ name. (name.now ≡ bytes.now) × (is_name bytes.now ≡ true)) }
{
    let Ok(name) = str::from_utf8(bytes) else {
        return None;
    };
    if is_name(name) { Some(name) } else { None }
}

/// Returns whether a text is the name of a key: not empty, without white space, plus signs and control characters.
pub fn is_name(name: &str) -> bool
    ensures { result ≡ is_name name.now }
{
    !name.is_empty() && are_named(name)
}

/// Returns whether a text has no control characters but line feeds.
pub fn is_text(text: &str) -> bool
    ensures { result ≡ is_text text.now }
{
    are_plain(text.as_bytes())
}

/// Returns whether the last byte is a line feed.
pub fn is_ended(bytes: &[u8]) -> bool
    ensures { result ≡ is_ended bytes.now }
{
    match bytes.last() {
        Some(last) => *last == b'\n',
        None => false,
    }
}
