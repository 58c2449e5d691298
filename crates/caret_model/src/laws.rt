//! What holds of the carets of a line.
//!
//! What a caller tests of each premise: a `CaretModel` is a line (`IsLine`), whatever it is of. For
//! `law_results_have_lines` see the tests that `kuspveli::laws::clusters::source_laws` lists; where they hold,
//! `CaretModel::new` never answers NoSlices for the direction of the text.
ghost use Rattle.caret_model.specs.Laws.{BytesAreInOneSlice, CaretsHaveNeighbours, CaretsLeadBack, ResultsHaveLines, SelectionsJoin, StartsAreInOneSlice};

use kuspveli::SyllableSpans;
use kuspveli::laws::clusters::source_laws::law_results_have_source_slices;

/// Each byte of a text is in exactly one slice.
pub fn law_bytes_are_in_one_slice()
    ensures { BytesAreInOneSlice }
{}

/// The start of each character of a text is in exactly one slice.
pub fn law_starts_are_in_one_slice()
    ensures { StartsAreInOneSlice }
{}

/// Carets lead back to themselves by their bytes, and by their positions where no other caret is at the same one.
pub fn law_carets_lead_back()
    ensures { CaretsLeadBack }
{}

/// The carets to the right and to the left of one are its neighbours in the order of the text.
pub fn law_carets_have_neighbours()
    ensures { CaretsHaveNeighbours }
{}

/// The selections of two ranges that join are the selection of the whole.
pub fn law_selections_join()
    ensures { SelectionsJoin }
{}

/// While a glyph is left, the result of a text has a line along its direction.
pub fn law_results_have_lines<P: SyllableSpans>(spans: &P)
    ensures { ResultsHaveLines (P.span_of spans.now) }
{
    law_results_have_source_slices(spans);
}
