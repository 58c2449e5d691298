//! Breaks of a text under PRODUCE_SAFE_BREAKS: where no glyph of a cluster is unsafe to break, the text may be cut before
//! the cluster, and the pieces have the glyphs of the whole.
ghost use Rattle.std.specs.Prelude.{◌≡◌, ◌↔◌, ◌++◌, None, IfOk, IsTrue, OnOk};
ghost use Rattle.shape_trials.specs.Breaks.{KeepGraphemes, KeepTypes, cut_before, cuts_after, is_cut, is_safe_at};

use crate::alike::Answer;
use crate::joined::are_of_pieces;
use crate::pieces::{Piece, pieces_at};
use crate::premises::{
    is_native, keep_graphemes, keep_types, may_be_cut, may_join, may_run_out_of_numbers,
};
use crate::trial::Trial;
use buffer_glyphs::info::hb_glyph_info_t;
use buffer_glyphs::level::BufferClusterLevel;
use buffer_unicode_tables::UnicodeTables;
use buffer_wrappers::glyphs::GlyphBuffer;
use shape_pipeline::ShapePlan;
use shell_readers::fault::RunFault;
use std::alloc::{AllocError, Global};

/// The breaks of a text that were tried.
#[derive(Clone, Copy, Default)]
pub(crate) struct Tried {
    pub(crate) count: u64,
    /// At how many of them pieces differ where a premise is in doubt.
    pub(crate) unsure: u64,
    /// Whether pieces differ from the whole at one of them where no premise is.
    pub(crate) is_different: bool,
}

impl Tried {
    /// With what was found at one more break.
    fn with(self, found: Found) -> Tried {
        Tried {
            count: self
                .count
                .saturating_add(u64::from(!matches!(found, Found::PassedOver))),
            unsure: self
                .unsure
                .saturating_add(u64::from(matches!(found, Found::Unsure))),
            is_different: self.is_different || matches!(found, Found::Different),
        }
    }
}

/// What was found at a break.
#[derive(Clone, Copy)]
enum Found {
    /// The text may not be cut there.
    PassedOver,
    Alike,
    /// Pieces differ, or are refused, and a premise is in doubt.
    Unsure,
    Different,
}

/// Tries each safe break of a text at a monotone level.
pub(crate) fn try_breaks(
    trial: &Trial<'_>,
    plan: &ShapePlan,
    level: BufferClusterLevel,
) -> Result<Tried, RunFault> {
    if !is_native(plan.script_plan.direction, plan.script_plan.script) {
        return Ok(Tried::default());
    }
    let whole = Piece::whole(trial.text, level);
    match whole.shaped(trial, plan)? {
        Ok(glyphs) => try_cuts(trial, plan, level, &glyphs),
        Err(_) => Ok(Tried::default()),
    }
}

/// Tries each safe break of a text with the glyphs of the whole.
fn try_cuts(
    trial: &Trial<'_>,
    plan: &ShapePlan,
    level: BufferClusterLevel,
    glyphs: &GlyphBuffer,
) -> Result<Tried, RunFault> {
    let mut tried = Tried::default();
    for cut in cuts(trial.alloc, glyphs.glyph_infos())? {
        tried = tried.with(found_at(trial, plan, level, glyphs, cut)?);
    }
    Ok(tried)
}

/// The clusters but 0 none of whose glyphs is unsafe to break, each once for each run of glyphs that it has.
fn cuts(alloc: Global, glyphs: &[hb_glyph_info_t]) -> Result<Vec<u32>, AllocError>
    ensures { IfOk result (λ v. v.items ≡ cuts_after glyphs.now None glyphs.now) }
{
    let mut cuts = Vec::new(alloc);
    let mut last = None;
    for glyph in glyphs {
        push_cut(&mut cuts, glyphs, last, glyph.cluster)?;
        last = Some(glyph.cluster);
    }
    Ok(cuts)
}

fn push_cut(
    cuts: &mut Vec<u32>,
    glyphs: &[hb_glyph_info_t],
    last: Option<u32>,
    cluster: u32,
) -> Result<(), AllocError>
    ensures { OnOk result (cuts.new.items ≡ cuts.old.items ++ cut_before glyphs.now last cluster) }
{
    if is_cut(glyphs, last, cluster) {
        cuts.push(cluster)?;
    }
    Ok(())
}

/// Whether a cluster that follows a run of another one may be cut off.
fn is_cut(glyphs: &[hb_glyph_info_t], last: Option<u32>, cluster: u32) -> bool
    ensures { result ≡ is_cut glyphs.now last cluster }
{
    cluster > 0 && last != Some(cluster) && is_safe_at(glyphs, cluster)
}

fn is_safe_at(glyphs: &[hb_glyph_info_t], cluster: u32) -> bool
    ensures { result ≡ is_safe_at glyphs.now cluster }
{
    glyphs.iter().all(|glyph| glyph.cluster != cluster || !glyph.unsafe_to_break())
}

/// What the pieces of a text that is cut before a byte show.
fn found_at(
    trial: &Trial<'_>,
    plan: &ShapePlan,
    level: BufferClusterLevel,
    glyphs: &GlyphBuffer,
    cut: u32,
) -> Result<Found, RunFault> {
    let Some((early, late)) = pieces_at(trial.text, cut as usize, level) else {
        return Ok(Found::Different);
    };
    if !may_be_cut(plan.shaper, early.text, late.text) {
        return Ok(Found::PassedOver);
    }
    match are_alike(trial, plan, glyphs, &early, &late)? {
        Some(true) => return Ok(Found::Alike),
        Some(false) => {}
        None => return Ok(Found::Unsure),
    }
    let is_sure = leave_budget(trial, plan, level, &early, &late)? && is_sure(trial, plan);
    Ok(if is_sure {
        Found::Different
    } else {
        Found::Unsure
    })
}

/// Whether the pieces have the glyphs of the whole, `None` where one is refused.
fn are_alike(
    trial: &Trial<'_>,
    plan: &ShapePlan,
    glyphs: &GlyphBuffer,
    early: &Piece<'_>,
    late: &Piece<'_>,
) -> Result<Option<bool>, RunFault> {
    let first = early.shaped(trial, plan)?;
    let second = late.shaped(trial, plan)?;
    are_of_answers(trial, plan, glyphs, &first, &second)
}

/// Whether the glyphs of the whole are those of two answers, `None` where one is a refusal.
fn are_of_answers(
    trial: &Trial<'_>,
    plan: &ShapePlan,
    glyphs: &GlyphBuffer,
    first: &Answer,
    second: &Answer,
) -> Result<Option<bool>, RunFault> {
    let (Ok(first), Ok(second)) = (first, second) else {
        return Ok(None);
    };
    let is_backward = plan.script_plan.direction.is_backward();
    let is_same = are_of_pieces(trial.alloc, is_backward, glyphs, first, second)?;
    Ok(Some(is_same))
}

/// Whether the whole and its pieces each leave some of their budget of nested lookups.
fn leave_budget(
    trial: &Trial<'_>,
    plan: &ShapePlan,
    level: BufferClusterLevel,
    early: &Piece<'_>,
    late: &Piece<'_>,
) -> Result<bool, RunFault> {
    let whole = Piece::whole(trial.text, level);
    Ok(
        whole.leaves_budget(trial, plan)?
            && early.leaves_budget(trial, plan)?
            && late.leaves_budget(trial, plan)?,
    )
}

/// Whether numbers of ligatures don't run out, and for shapers that join letters the tables keep the premises.
fn is_sure(trial: &Trial<'_>, plan: &ShapePlan) -> bool {
    !may_run_out_of_numbers(trial.font.has_ligatures, trial.text)
        && (!may_join(plan.shaper) || keep_premises(&trial.tables.characters))
}

/// Whether contexts show the letters that texts have, and what syllables pass over continues a grapheme.
pub(crate) fn keep_premises(tables: &UnicodeTables) -> bool
    ensures { IsTrue result ↔ (KeepTypes tables.now × KeepGraphemes tables.now) }
{
    keep_types(tables) && keep_graphemes(tables)
}
