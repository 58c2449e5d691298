//! Laws of the program's runs.

ghost use Rattle.std.specs.Prelude.{◌≡◌, ◌≢◌, MatchBool};
ghost use Rattle.shell_run.specs.Laws.{AnswersAreOne, EmptyTextGivesEmptyLine, TextsHaveLines};

use font_bytes::fault::TableFault;
use font_bytes::font_fault::FontFault;
use shell_json::fault::JsonFault;
use shell_readers::fault::RunFault;

/// The empty text gives the empty line, in every font, and where slices are requested the line `no slices` after it.
#[tactic(auto, using(crate::proofs::Empty::empty_text_gives_empty_line))]
pub fn law_empty_text_gives_empty_line()
    ensures { EmptyTextGivesEmptyLine }
{}

/// Tables, a font and a text have at most one answer: the relation that specifies a run is a function.
#[tactic(auto, using(crate::proofs::Reading::answers_are_one))]
pub fn law_answers_are_one()
    ensures { AnswersAreOne }
{}

/// No line of a text has a line feed, and the lines, each followed by one, are the text, with one at its end.
pub fn law_texts_have_lines()
    ensures { TextsHaveLines }
{}

/// `==` of JSON faults holds exactly between equal ones.
pub fn law_json_faults_are_equal(left: JsonFault, right: JsonFault) -> bool
    ensures { MatchBool result (left ≡ right) (left ≢ right) }
{
    left == right
}

/// `==` of faults of a font file holds exactly between equal ones.
pub fn law_font_faults_are_equal(left: FontFault, right: FontFault) -> bool
    ensures { MatchBool result (left ≡ right) (left ≢ right) }
{
    // By the cause, since the search takes too long over all pairs of faults at once.
    match left.cause {
        TableFault::Short(_) => left == right,
        TableFault::Kind(_) => left == right,
        TableFault::Order(_) => left == right,
        TableFault::Index => left == right,
        TableFault::Missing => left == right,
        TableFault::TooLarge => left == right,
        TableFault::OutOfMemory => left == right,
    }
}

/// `==` of run faults holds exactly between equal ones.
pub fn law_run_faults_are_equal(left: RunFault, right: RunFault) -> bool
    ensures { MatchBool result (left ≡ right) (left ≢ right) }
{
    match (left, right) {
        (RunFault::Font(one), RunFault::Font(other)) => law_font_faults_are_equal(one, other),
        _ => left == right,
    }
}
