//! What holds of the lines of a paragraph.
//!
//! What a caller tests of their premises:
//! - The lines are what `cut_lines` answers, for a text as long as the paragraph's (`HasOwnGlyphs`).
//! - The texts (`IsTextOfLine`): the paragraph's was pushed by `push_str`, and shaped with PRODUCE_SAFE_BREAKS. A line's
//!   has its characters, pushed by `UnicodeBuffer::add` with the bytes at which they begin in the paragraph, or by
//!   `push_str` for `law_own_lines_look_alike`. The line's text has the direction, the script, the language and the
//!   flags of the paragraph's, but BEGINNING_OF_TEXT and END_OF_TEXT at the ends of the paragraph alone; and the text
//!   before it and after it as its contexts.
//! - An edit (`IsEdited`): `edit_range` answered its bytes. The text up to them is one for both (`IsFrontOfBoth`), and those
//!   after them differ in clusters alone (`AreRestsOfBoth`), where the shaper reads no contexts, or where the edit is past the
//!   nearest letter on either side.
//! - The cuts (`IsCutAt`), as `kuspveli::laws::breaks::break_laws` lists it for each: the paragraph's text is cut at the
//!   line's start, and what is left at the line's end. At an end of the paragraph there is no cut.
ghost use Rattle.line_pieces.specs.Alone.{OwnLinesAreShapedAlone, OwnLinesLookAlike};
ghost use Rattle.line_pieces.specs.EditLaws.{EditKeepsTheFront, EditKeepsTheRest};
ghost use Rattle.line_pieces.specs.Laws.{FlagsShowSafeBreaks, LinesAreOne, LinesAreText};

use kuspveli::laws::breaks::break_laws::law_safe_breaks;
use kuspveli::laws::shaping::laws::{law_texts_keep_numbers, law_texts_read_alike};

/// The bytes of the lines of a text, one line after another, are the text.
#[tactic(auto, using(crate::proofs::OneWay::lines_are_text))]
pub fn law_lines_are_text()
    ensures { LinesAreText }
{}

/// A paragraph is cut in one way alone.
#[tactic(auto, using(crate::proofs::OneWay::lines_are_one))]
pub fn law_lines_are_one()
    ensures { LinesAreOne }
{}

/// Where a break is safe, by the glyphs as they stand along the line.
#[tactic(auto, using(crate::proofs::Shown::flags_show_safe_breaks))]
pub fn law_flags_show_safe_breaks()
    ensures { FlagsShowSafeBreaks }
{}

/// The glyphs that a line has of its paragraph (`Line::glyphs`) are those that shaping the line's text alone gives, at the
/// same positions and with the same clusters.
pub fn law_own_lines_are_shaped_alone()
    ensures { OwnLinesAreShapedAlone }
{
    law_safe_breaks();
    law_texts_keep_numbers();
}

/// The glyphs that a line has of its paragraph are, at the same positions, those of the line's text with other clusters,
/// another cluster level or other requests for glyph flags, where no feature is requested for a range of the text.
pub fn law_own_lines_look_alike()
    ensures { OwnLinesLookAlike }
{
    law_own_lines_are_shaped_alone();
    law_texts_read_alike();
}

/// Outside of the bytes that `edit_range` answers, the glyphs of the text before the edit and after it are the same, at the same
/// positions; before these also with the same clusters.
pub fn law_edit_keeps_the_rest()
    ensures front { EditKeepsTheFront }
    ensures rest { EditKeepsTheRest }
{
    law_safe_breaks();
    law_texts_keep_numbers();
    law_texts_read_alike();
}
