//! All three rounds of normalizing, _hb_ot_shape_normalize (rustybuzz: hb/ot_shape_normalize.rs).
ghost use Rattle.std.specs.Prelude.{◌≡◌, length, IfErr, OnOk};
ghost use Rattle.std.specs.List.{list_any};
ghost use Rattle.buffer_glyphs.specs.Items.{item_of, strip};
ghost use Rattle.buffer_core.specs.Sides.{all_glyphs, items_of, zero_positions};
ghost use Rattle.buffer_stages.specs.Ready.{IsReady};
ghost use Rattle.buffer_stages.specs.Stages.{DoesStage};
ghost use Rattle.buffer_properties.specs.Characters.{is_mark};
ghost use Rattle.buffer_properties.specs.Normalizer.{is_composing};
ghost use Rattle.buffer_properties.specs.NormalizedList.{arranged_marks, has_later_mark};
ghost use Rattle.shape_normalize.specs.Rounds.{IsArranged, normalization};

use crate::SEVERAL;
use crate::joiners::show_joiners;
use crate::normalizing::Normalizing;
use crate::ordering::arrange_runs;
use crate::rounds::{compose_characters, expand_characters};
use buffer_core::buffer::hb_buffer_t;
use buffer_glyphs::cause::ShapeCause;
use buffer_glyphs::info::hb_glyph_info_t;
use buffer_properties::NormalizationMode;
use buffer_properties::categories::is_mark;
use std::alloc::Global;

/// Whether the mode composes marks with their base.
fn is_composing(mode: NormalizationMode) -> bool
    ensures { result ≡ is_composing mode }
{
    match mode {
        NormalizationMode::None | NormalizationMode::Decomposed => false,
        NormalizationMode::ComposedDiacritics
        | NormalizationMode::ComposedDiacriticsNoShortCircuit
        | NormalizationMode::Auto => true,
    }
}

fn has_mark(glyphs: &[hb_glyph_info_t]) -> bool
    ensures { result ≡ list_any (λ g. is_mark (item_of g)) glyphs.now }
{
    if glyphs.len() < SEVERAL {
        return glyphs.iter().any(|glyph| is_mark(glyph));
    }
    let mut any = false;
    for glyph in glyphs {
        any |= is_mark(glyph);
    }
    any
}

/// Whether there is a mark after the first item.
#[tactic(auto, using(crate::proofs::Whole::later_mark_seen))]
fn has_later_mark(glyphs: &[hb_glyph_info_t]) -> bool
    ensures { result ≡ has_later_mark (strip glyphs.now) }
{
    let Some((_, rest)) = glyphs.split_first() else {
        return false;
    };
    has_mark(rest)
}

/// Sorts and composes marks where there is one after the text's first item, and unhides joiners.
#[tactic(auto, using(crate::proofs::Whole::marks_alone, crate::proofs::Whole::marks_ordered, crate::proofs::Whole::marks_composed, crate::proofs::Whole::zero_ordered))]
fn arrange_marks<N: Normalizing>(
    by: &N,
    alloc: Global,
    has_later_mark: bool,
    buffer: &mut hb_buffer_t,
) -> Result<(), ShapeCause>
    requires ready { IsReady buffer.old }
    requires placed { buffer.old.positions ≡ zero_positions (length (all_glyphs buffer.old)) }
    ensures ok { OnOk result (IsArranged (arranged_marks has_later_mark (N.normalizer by.now) (items_of buffer.old))
        buffer.old buffer.new) }
    ensures err { IfErr result (λ e. e ≡ ShapeCause.OutOfMemory) }
{
    if !has_later_mark {
        show_joiners(buffer);
        return Ok(());
    }
    arrange_runs(by, alloc, buffer)?;
    show_joiners(buffer);
    if !is_composing(by.mode()) {
        return Ok(());
    }
    compose_characters(by, buffer)?;
    Ok(())
}

/// Normalizes a text as a font and a shaper require (`_hb_ot_shape_normalize`). Characters are decomposed as far as
/// they require, and each gets the font's glyph; a variation selector is combined with the character before it where
/// the font has the pair. Where there is a mark after the text's first character, runs of at most 32 marks are sorted
/// by combining class (UAX 15 D109), and marks are composed with their base where the font has the result (D117).
/// Grapheme joiners that keep no two marks apart are unhidden. All positions are reset to zero.
///
/// It takes linear time, but for the walk from each composed mark back to its base.
///
/// # Errors
///
/// `TooLong` where the text would decompose into more characters than the buffer may hold, or lack of memory.
pub fn _hb_ot_shape_normalize<N: Normalizing>(
    by: &N,
    alloc: Global,
    buffer: &mut hb_buffer_t,
) -> Result<(), ShapeCause>
    requires ready { IsReady buffer.old }
    ensures { DoesStage (normalization (N.normalizer by.now)) result buffer.old buffer.new }
{
    let is_marked = has_later_mark(buffer.info_slice());
    expand_characters(by, buffer)?;
    arrange_marks(by, alloc, is_marked, buffer)?;
    Ok(())
}
