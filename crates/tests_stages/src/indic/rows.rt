//! The two orders of syllables, by listed forms.
//!
//! The rows of the two orders have other options and need other calls, so each order has a function of its own that
//! reads its rows.
pub(crate) mod after_forms;
pub(crate) mod before_forms;
pub(crate) mod several_after_forms;
pub(crate) mod several_before_forms;

ghost use Rattle.std.specs.Prelude.{OnOk};
ghost use Rattle.buffer_stages.specs.Ready.{IsReady};

use crate::buffers::{buffer_of, has_glyphs};
use crate::indic::forms::ListedForms;
use crate::indic::text::lists;
use crate::rows::{hexadecimal, part, value};
use buffer_core::buffer::hb_buffer_t;
use buffer_glyphs::cause::ShapeCause;
use script_categories::hb_ot_script_shaper_t::INDIC_SHAPER;
use script_categories::indic_position_number;
use script_categories::ot_position_t::Position;
use script_indic_reordering::consonants::update_consonant_positions;
use script_indic_reordering::final_order::reorder_final;
use script_indic_reordering::initial::reorder_initial;
use script_indic_reordering::script::{IndicMasks, RephMode};
use std::alloc::Global;
use std::test::Fail;

fn masks_of(words: &str) -> IndicMasks {
    IndicMasks {
        rphf: hexadecimal(words, "rphf"),
        before_base: hexadecimal(words, "before"),
        after_base: hexadecimal(words, "after"),
        half: hexadecimal(words, "half"),
        pref: hexadecimal(words, "pref"),
        init: hexadecimal(words, "init"),
    }
}

fn mode_of(name: &str) -> RephMode {
    match name {
        "Implicit" => RephMode::Implicit,
        "Explicit" => RephMode::Explicit,
        _ => RephMode::Logical,
    }
}

fn forms_of(alloc: Global, words: &str) -> Result<ListedForms, Fail> {
    Ok(ListedForms {
        reph: lists(alloc, value(words, "reph_of"))?,
        pref: lists(alloc, value(words, "pref_of"))?,
        below: lists(alloc, value(words, "below_of"))?,
        post: lists(alloc, value(words, "post_of"))?,
    })
}

/// Orders the glyphs before their forms, after the positions of consonants where there is a virama.
fn order_initial(
    alloc: Global,
    forms: &ListedForms,
    words: &str,
    buffer: &mut hb_buffer_t,
) -> Result<(), ShapeCause>
    requires { IsReady buffer.old }
    ensures { OnOk result (IsReady buffer.new) }
{
    if let Ok(virama) = value(words, "virama").parse::<u32>() {
        update_consonant_positions(forms, virama, buffer);
    }
    let mode = mode_of(value(words, "mode"));
    reorder_initial(alloc, forms, mode, &masks_of(words), buffer)?;
    Ok(())
}

pub(crate) fn agrees_initially(alloc: Global, row: &str) -> Result<bool, Fail> {
    let words = part(row, 1);
    let forms = forms_of(alloc, words)?;
    let mut buffer = buffer_of(alloc, INDIC_SHAPER, words, part(row, 2))?;
    order_initial(alloc, &forms, words, &mut buffer)?;
    Ok(has_glyphs(INDIC_SHAPER, "n@mfcx", part(row, 3), &buffer))
}

fn order_final(
    reph_position: Position,
    masks: &IndicMasks,
    buffer: &mut hb_buffer_t,
) -> Result<(), ShapeCause>
    requires { IsReady buffer.old }
    ensures { OnOk result (IsReady buffer.new) }
{
    reorder_final(reph_position, masks, buffer)?;
    Ok(())
}

pub(crate) fn agrees_finally(alloc: Global, row: &str) -> Result<bool, Fail> {
    let words = part(row, 1);
    let reph_position = indic_position_number(value(words, "reph")).ok_or("no position")?;
    let mut buffer = buffer_of(alloc, INDIC_SHAPER, words, part(row, 2))?;
    order_final(reph_position, &masks_of(words), &mut buffer)?;
    Ok(has_glyphs(INDIC_SHAPER, "n@mfcx", part(row, 3), &buffer))
}
