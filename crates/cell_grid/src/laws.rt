//! What holds of the cells of a line.
//!
//! What a caller tests of each premise: a `CellGrid` is a line of cells (`IsGrid`), and is that of the text's result that
//! `cell_grid` was given. For `law_runs_begin_at_graphemes` the text was pushed once by `push_str`, at the level
//! Graphemes, and shaped; `UnicodeTables` are lawful.
ghost use Rattle.cell_grid.specs.Graphemes.{RunsBeginAtGraphemes};
ghost use Rattle.cell_grid.specs.Laws.{CellsAreInOneRun};

use kuspveli::laws::clusters::grapheme_laws::law_pushed_clusters_are_graphemes;

/// Each cell of a line is in exactly one run.
#[tactic(auto, using(crate::proofs::OneRun::cells_are_in_one_run))]
pub fn law_cells_are_in_one_run()
    ensures { CellsAreInOneRun }
{}

/// At the level Graphemes each run begins where a grapheme does.
pub fn law_runs_begin_at_graphemes()
    ensures { RunsBeginAtGraphemes }
{
    law_pushed_clusters_are_graphemes();
}
