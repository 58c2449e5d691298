//! Laws of the rows of a subtable.
ghost use Rattle.font_cmap.specs.Laws.{RowsAreExact, RowsRise};

/// Of all formats: the glyph of each number's row is that which the format's rule gives it. The first range that doesn't
/// end before the number decides; numbers that are no characters have none.
#[tactic(auto, using(crate::proofs::Exact::array_is_exact))]
pub fn law_rows_are_exact()
    ensures { RowsAreExact }
{}

/// Characters of rows rise, so that each has one row.
#[tactic(auto, using(crate::proofs::Rising::ranges_rise))]
pub fn law_rows_rise()
    ensures { RowsRise }
{}
