//! The initial reordering of Indic syllables (rustybuzz: hb/ot_shaper_indic.rs, `initial_reordering`).
ghost use Rattle.std.specs.Prelude.{◌≡◌, ◌≤◌, ◌<◌, length, slice_get, slice_range, OnOk, Some};
ghost use Rattle.buffer_glyphs.specs.Items.{item_of, strip};
ghost use Rattle.buffer_core.specs.Readings.{always};
ghost use Rattle.buffer_core.specs.Sides.{all_glyphs, items_of};
ghost use Rattle.buffer_stages.specs.Ready.{IsReady};
ghost use Rattle.buffer_stages.specs.Stages.{IsFollowed};
ghost use Rattle.buffer_glyphs.specs.Rewriting.{eventless_arrangement};
ghost use Rattle.buffer_stages.specs.SyllableBuffers.{IsRewritten, with_rule};
ghost use Rattle.script_indic_reordering.specs.Base.{reph_and_base};
ghost use Rattle.script_indic_reordering.specs.Initial.{all_placed, has_two_matras, initial_reordered, masks_set, matras_reversed, pref_pair};
ghost use Rattle.script_indic_reordering.specs.Orders.{initial_order};

use crate::base::find_base;
use crate::features::{Features, pref_pair};
use crate::forms::IndicForms;
use crate::glyphs::{is_left_matra, is_matra};
use crate::script::{IndicMasks, RephMode};
use crate::sought::Sought;
use buffer_core::buffer::hb_buffer_t;
use buffer_glyphs::info::hb_glyph_info_t;
use buffer_stages::groups::{GroupRule, reverse_groups};
use buffer_stages::rewriting::rewrite_part;
use buffer_stages::sorting::sort_by_auxiliary;
use buffer_stages::walk::{SyllableRule, each_syllable};
use script_categories::hb_ot_script_shaper_t::INDIC_SHAPER;
use script_categories::syllable_kinds::SYLLABLE_KIND;
use std::alloc::{AllocError, Global};

/// Reorders each Indic syllable of a kind that is reordered, before its forms are made. Its glyphs get their syllabic
/// positions, as `auxiliary`, and are sorted by them in stable order, with each smallest span that the order permutes
/// merged; two left matras or more, each with what follows it, are reversed and merge. Then the glyphs get the features of
/// their positions. It takes n log n time in the length of a syllable, but for the font's answers.
///
/// # Errors
///
/// Lack of memory for the order of a syllable.
pub fn reorder_initial<F: IndicForms>(
    alloc: Global,
    forms: &F,
    mode: RephMode,
    masks: &IndicMasks,
    buffer: &mut hb_buffer_t,
) -> Result<(), AllocError>
    requires ready { IsReady buffer.old }
    ensures { OnOk result (IsFollowed (always (with_rule (initial_order mode masks.now (F.forms_of forms.now)))) buffer.old buffer.new) }
{
    let order = InitialOrder {
        alloc,
        forms,
        mode,
        masks: *masks,
    };
    each_syllable(&order, buffer)
}

#[derive(Drop)]
struct InitialOrder<'a, F> {
    alloc: Global,
    forms: &'a F,
    mode: RephMode,
    masks: IndicMasks,
}

impl<F: IndicForms> SyllableRule for InitialOrder<'_, F> {
    ghost use Rattle.script_indic_reordering.specs.Orders.{initial_syllable};
    ghost use Rattle.script_indic_reordering.specs.Lemmas.InitialSize.{initial_keeps};

    ghost rewritten = { λ o. initial_syllable o.mode o.masks (F.forms_of o.forms.now) };

    fn rewrite(
        &self,
        buffer: &mut hb_buffer_t,
        start: usize,
        end: usize,
    ) -> Result<(), AllocError> {
        let first = first_glyph(buffer, start, end);
        if !INDIC_SHAPER.is_reordered(first.syllable & SYLLABLE_KIND) {
            return Ok(());
        }
        reorder_syllable(self, buffer, start, end)
    }

    ghost keeps_length = { λ o. initial_keeps o.mode o.masks (F.forms_of o.forms.now) };
}

/// The first glyph of those from `start` up to before `end`.
#[tactic(auto, using(crate::proofs::Lemmas::Steps::first_there))]
pub(crate) fn first_glyph(buffer: &hb_buffer_t, start: usize, end: usize) -> hb_glyph_info_t
    requires ready { IsReady buffer.now }
    requires some { start < end }
    requires within { end ≤ length (all_glyphs buffer.now) }
    ensures { slice_get (slice_range (items_of buffer.now) start end) 0 ≡ Some (item_of result) }
{
    buffer.info_slice()[start]
}

#[tactic(auto, using(crate::proofs::Lemmas::Steps::placed_even, crate::proofs::Lemmas::Steps::sorted_even, crate::proofs::Lemmas::Steps::matras_even))]
fn reorder_syllable<F: IndicForms>(
    order: &InitialOrder<'_, F>,
    buffer: &mut hb_buffer_t,
    start: usize,
    end: usize,
) -> Result<(), AllocError>
    requires ready { IsReady buffer.old }
    requires ordered { start ≤ end }
    requires within { end ≤ length (all_glyphs buffer.old) }
    ensures { OnOk result (IsRewritten (initial_reordered order.now.mode order.now.masks (F.forms_of order.now.forms.now)
        (slice_range (items_of buffer.old) start end)) start end buffer.old buffer.new) }
{
    set_positions(order.forms, order.mode, buffer, start, end);
    sort_by_auxiliary(order.alloc, buffer, start, end)?;
    reverse_matras(buffer, start, end);
    set_features(order.forms, &order.masks, buffer, start, end);
    Ok(())
}

fn set_positions<F: IndicForms>(
    forms: &F,
    mode: RephMode,
    buffer: &mut hb_buffer_t,
    start: usize,
    end: usize,
)
    requires ready { IsReady buffer.old }
    requires ordered { start ≤ end }
    requires within { end ≤ length (all_glyphs buffer.old) }
    ensures { IsRewritten (eventless_arrangement (all_placed (reph_and_base mode (F.forms_of forms.now) (slice_range (items_of buffer.old) start end))
        (slice_range (items_of buffer.old) start end))) start end buffer.old buffer.new }
{
    let base = find_base(forms, mode, &buffer.info_slice()[start..end]);
    rewrite_part(&base, buffer, start, end);
}

fn set_features<F: IndicForms>(
    forms: &F,
    masks: &IndicMasks,
    buffer: &mut hb_buffer_t,
    start: usize,
    end: usize,
)
    requires ready { IsReady buffer.old }
    requires ordered { start ≤ end }
    requires within { end ≤ length (all_glyphs buffer.old) }
    ensures { IsRewritten (eventless_arrangement (masks_set masks.now (pref_pair (F.forms_of forms.now) (slice_range (items_of buffer.old) start end))
        (slice_range (items_of buffer.old) start end))) start end buffer.old buffer.new }
{
    let pair = pref_pair(forms, &buffer.info_slice()[start..end]);
    let features = Features {
        masks: *masks,
        pair,
    };
    rewrite_part(&features, buffer, start, end);
}

fn reverse_matras(buffer: &mut hb_buffer_t, start: usize, end: usize)
    requires ready { IsReady buffer.old }
    requires ordered { start ≤ end }
    requires within { end ≤ length (all_glyphs buffer.old) }
    ensures { IsRewritten (matras_reversed (slice_range (items_of buffer.old) start end)) start end buffer.old
        buffer.new }
{
    let first = Sought::LeftMatra.index(&buffer.info_slice()[start..end]);
    let from = start + first;
    let count = Sought::NotLeft.index(&buffer.info_slice()[from..end]);
    if !has_two_matras(&buffer.info_slice()[from..from + count]) {
        return;
    }
    reverse_groups(&Matras, buffer, from, from + count);
}

/// Whether there are two left matras or more.
#[tactic(auto, using(crate::proofs::Lemmas::Sequences::first_left_met, crate::proofs::Lemmas::Sequences::second_left_met, crate::proofs::Lemmas::Sequences::none_left_met, crate::proofs::Lemmas::Sequences::no_second_met))]
fn has_two_matras(glyphs: &[hb_glyph_info_t]) -> bool
    ensures { result ≡ has_two_matras (strip glyphs.now) }
{
    let mut is_second = false;
    for i in 0..glyphs.len() {
        if is_left_matra(&glyphs[i]) {
            if is_second {
                return true;
            }
            is_second = true;
        }
    }
    false
}

/// A matra begins a group.
struct Matras;

impl GroupRule for Matras {
    ghost use Rattle.script_indic_reordering.specs.Glyphs.{is_matra};

    ghost begins = { λ _. is_matra };

    fn begins_group(&self, glyph: &hb_glyph_info_t) -> bool {
        is_matra(glyph)
    }
}
