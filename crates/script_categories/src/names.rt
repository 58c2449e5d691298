//! Numbers by their names.
ghost use Rattle.std.specs.Prelude.{◌≡◌, find, map};
ghost use Rattle.std.specs.Option.{option_map};
ghost use Rattle.std.specs.Str.{bytes_eq};
ghost use Rattle.script_categories.specs.Names.{number_of};

/// The number of a name, if it is in the list.
pub(crate) fn number_of(rows: &[(&str, u8)], name: &str) -> Option<u8>
    ensures { result ≡ number_of (map (λ row. (row.0.now, row.1)) rows.now) name.now }
{
    number_in_row(rows, name)
}

fn number_in_row(rows: &[(&str, u8)], name: &str) -> Option<u8>
    ensures { result ≡ option_map (λ row. row.1) (find (λ row. bytes_eq row.0.now name.now) rows.now) }
{
    let row = rows.iter().find(|row| row.0 == name)?;
    Some(row.1)
}
