//! The pauses between GSUB stages that several shapers of syllables have (rustybuzz: hb/ot_layout.rs,
//! hb/ot_shaper_khmer.rs and hb/ot_shaper_myanmar.rs).
ghost use Rattle.std.specs.Prelude.{◌≡◌, false, Ok, IfOk, IfErr, OnOk};
ghost use Rattle.buffer_core.specs.Sides.{items_of};
ghost use Rattle.buffer_stages.specs.Ready.{DoesGlyphStage, IsDone, IsReady};
ghost use Rattle.buffer_stages.specs.Pauses.{BringsNoGlyph};
ghost use Rattle.script_syllabic.specs.Bytes.{syllables_set};
ghost use Rattle.buffer_stages.specs.LayoutStages.{substitutions_cleared};
ghost use Rattle.script_syllabic.specs.Syllables.{syllables_cleared};

use crate::{clearing, syllables};
use buffer_core::buffer::hb_buffer_t;
use buffer_glyphs::cause::ShapeCause;
use buffer_stages::layout_stages::_hb_clear_substitution_flags;
use script_categories::{SyllableSpans, hb_ot_script_shaper_t};
use std::alloc::Global;

/// Sets the syllable byte of each glyph, and flags each syllable as unsafe to break (`setup_syllables`). Returns false:
/// no glyph is inserted.
///
/// # Errors
///
/// `UnknownSyllableKind` where the spans name a kind that the shaper does not have, or lack of memory.
pub fn setup_syllables<S: SyllableSpans>(
    alloc: Global,
    spans: &S,
    shaper: hb_ot_script_shaper_t,
    buffer: &mut hb_buffer_t,
) -> Result<bool, ShapeCause>
    requires ready { IsReady buffer.old }
    ensures stage { DoesGlyphStage (syllables_set (S.span_of spans.now) shaper) result buffer.old buffer.new }
    ensures inserts_none { IfOk result (λ inserted. inserted ≡ false) }
    ensures brings_none { result ≡ Ok false → BringsNoGlyph (items_of buffer.old) (items_of buffer.new) }
{
    syllables::setup_syllables(alloc, spans, shaper, buffer)?;
    Ok(false)
}

/// Sets the syllable byte of each glyph to 0 (`hb_syllabic_clear_var`). Returns false. It takes linear time and no memory.
pub fn clear_syllables(buffer: &mut hb_buffer_t) -> Result<bool, ShapeCause>
    requires ready { IsReady buffer.old }
    ensures answers { result ≡ Ok false }
    ensures ok { OnOk result (IsDone syllables_cleared buffer.old buffer.new) }
    ensures inserts_none { IfOk result (λ inserted. inserted ≡ false) }
    ensures brings_none { result ≡ Ok false → BringsNoGlyph (items_of buffer.old) (items_of buffer.new) }
    ensures err { IfErr result (λ e. e ≡ ShapeCause.OutOfMemory) }
{
    clearing::clear_syllables(buffer);
    Ok(false)
}

/// Clears the substituted bit of each glyph (`_hb_clear_substitution_flags`). Returns false. It takes linear time and no
/// memory.
pub fn clear_substitution_flags(buffer: &mut hb_buffer_t) -> Result<bool, ShapeCause>
    requires ready { IsReady buffer.old }
    ensures answers { result ≡ Ok false }
    ensures ok { OnOk result (IsDone substitutions_cleared buffer.old buffer.new) }
    ensures inserts_none { IfOk result (λ inserted. inserted ≡ false) }
    ensures brings_none { result ≡ Ok false → BringsNoGlyph (items_of buffer.old) (items_of buffer.new) }
    ensures err { IfErr result (λ e. e ≡ ShapeCause.OutOfMemory) }
{
    _hb_clear_substitution_flags(buffer);
    Ok(false)
}
