//! The fields of rows.

/// A field of a row whose fields are separated by semicolons.
pub fn part(row: &str, at: usize) -> &str {
    row.split(';').nth(at).unwrap_or("")
}
