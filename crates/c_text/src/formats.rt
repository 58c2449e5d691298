//! Which of the two formats of JSON a text says that it has, by the key `format` that the tools write first.
ghost use Rattle.std.specs.Prelude.{◌≡◌};
ghost use Rattle.std.specs.Option.{option_copied};
ghost use Rattle.c_text.specs.Formats.{after_prefix, after_token, are_swapped, is_font, is_of_format, is_tables, without_space};

/// Bytes without the whitespace that they begin with.
fn without_space(bytes: &[u8]) -> &[u8]
    ensures { result.now ≡ without_space bytes.now }
{
    bytes.trim_ascii_start()
}

/// What follows a token, if the bytes begin with it.
fn after_prefix<'a>(bytes: &'a [u8], token: &[u8]) -> Option<&'a [u8]>
    ensures { option_copied result ≡ after_prefix token.now bytes.now }
{
    match bytes.strip_prefix(token) {
        Some(rest) => Some(rest),
        None => None,
    }
}

/// What follows a token and the whitespace before it, if the bytes begin so.
fn after_token<'a>(bytes: &'a [u8], token: &[u8]) -> Option<&'a [u8]>
    ensures { option_copied result ≡ after_token token.now bytes.now }
{
    after_prefix(without_space(bytes), token)
}

/// Whether a text begins as an object whose first key is `format`, with a value (a string of JSON, with its quotes).
fn is_of_format(bytes: &[u8], value: &[u8]) -> bool
    ensures { result ≡ is_of_format value.now bytes.now }
{
    let Some(bytes) = after_token(bytes, b"{") else {
        return false;
    };
    let Some(bytes) = after_token(bytes, b"\"format\"") else {
        return false;
    };
    let Some(bytes) = after_token(bytes, b":") else {
        return false;
    };
    after_token(bytes, value).is_some()
}

/// Whether a text says that it is tables.
pub fn is_tables(bytes: &[u8]) -> bool
    ensures { result ≡ is_tables bytes.now }
{
    is_of_format(bytes, b"\"kuspveli-tables\"")
}

/// Whether a text says that it is a font.
pub fn is_font(bytes: &[u8]) -> bool
    ensures { result ≡ is_font bytes.now }
{
    is_of_format(bytes, b"\"kuspveli-font\"")
}

/// Whether one of tables and a font says that it is the other.
pub fn are_swapped(tables: &[u8], font: &[u8]) -> bool
    ensures { result ≡ are_swapped tables.now font.now }
{
    is_font(tables) || is_tables(font)
}
