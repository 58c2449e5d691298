//! Alternate substitution (OpenType, GSUB lookup type 3; rustybuzz: hb/ot_layout_gsub_table.rs,
//! `AlternateSubstitution`).
ghost use Rattle.std.specs.Prelude.{◌≡◌, ◌<◌, ◌∷◌, [], length};
ghost use Rattle.buffer_glyphs.specs.Events.{Break};
ghost use Rattle.buffer_glyphs.specs.Items.{item_of};
ghost use Rattle.layout_match.specs.Applied.{apply_context_of};
ghost use Rattle.buffer_stages.specs.Actions.{whole};
ghost use Rattle.buffer_stages.specs.Buffers.{IsPassed, cut_of};
ghost use Rattle.buffer_stages.specs.Performing.{Performs, cut_with};
ghost use Rattle.layout_gsub.specs.Alternates.{alternate_of, alternate_of_value, alternate_subtable, drawn_alternate, feature_value, is_drawn};
ghost use Rattle.buffer_core.specs.Sides.{HasCurrent};

use crate::apply::{Apply, Skippable};
use crate::replacement::replace_glyph;
use buffer_core::buffer::hb_buffer_t;
use buffer_glyphs::cause::ShapeCause;
use buffer_glyphs::info::{DEFINED, hb_glyph_info_t};
use layout_match::hb_ot_apply_context_t;
use layout_tables::sequence::AlternateSubst;

/// The greatest value that a feature can have.
const MAX_VALUE: u64 = 255;

/// The value that a glyph's mask gives the feature of a lookup's mask.
fn feature_value(lookup_mask: u32, info: &hb_glyph_info_t) -> u64
    ensures { result ≡ feature_value lookup_mask (item_of info.now).mask }
{
    // A mask of features has none of the glyph flags.
    let features = info.mask - (info.mask & DEFINED);
    u64::from(features & lookup_mask) >> lookup_mask.trailing_zeros()
}

/// The alternate of a value: value 1 is the first.
fn alternate_of_value(glyphs: &[u16], value: u64) -> Option<u16>
    ensures { result ≡ alternate_of_value value glyphs.now }
{
    if value == 0 {
        return None;
    }
    glyphs.get((value - 1) as usize).copied()
}

/// Whether one of the alternates is drawn at random (HarfBuzz: feature `rand`).
fn is_drawn(random: bool, value: u64, glyphs: &[u16]) -> bool
    ensures { result ≡ is_drawn random value glyphs.now }
{
    random && value == MAX_VALUE && !glyphs.is_empty()
}

/// Flags all glyphs outside the least cluster as unsafe to break.
fn mark_all(buffer: &mut hb_buffer_t)
    ensures { IsPassed (Break 0 (length (whole (cut_of buffer.old))) ∷ []) buffer.old buffer.new }
{
    // The length of the input is the end for which `None` stands.
    let _end = buffer.len();
    buffer.unsafe_to_break_from_outbuffer(None, None);
}

/// Draws one of the alternates at random.
fn draw_alternate(
    glyphs: &[u16],
    ctx: &mut hb_ot_apply_context_t,
    buffer: &mut hb_buffer_t,
) -> Result<bool, ShapeCause>
    requires some { 0 < length glyphs.now }
    requires current { HasCurrent buffer.old }
    ensures performs { Performs (drawn_alternate ctx.old.face.now.gdef glyphs.now
        (cut_with ctx.old.random_state buffer.old)) result ctx.old.random_state ctx.new.random_state buffer.old
        buffer.new }
    ensures context { apply_context_of ctx.new ≡ apply_context_of ctx.old }
{
    mark_all(buffer);
    let index = ctx.random_number() as usize % glyphs.len();
    replace_glyph(ctx, glyphs[index], buffer)
}

/// Replaces the glyph at the cursor by the alternate of a value.
fn apply_alternate(
    glyphs: &[u16],
    value: u64,
    ctx: &mut hb_ot_apply_context_t,
    buffer: &mut hb_buffer_t,
) -> Result<bool, ShapeCause>
    requires current { HasCurrent buffer.old }
    ensures performs { Performs (alternate_of ctx.old.face.now.gdef ctx.old.random value glyphs.now
        (cut_with ctx.old.random_state buffer.old)) result ctx.old.random_state ctx.new.random_state buffer.old
        buffer.new }
    ensures context { apply_context_of ctx.new ≡ apply_context_of ctx.old }
{
    if is_drawn(ctx.random, value, glyphs) {
        return draw_alternate(glyphs, ctx, buffer);
    }
    match alternate_of_value(glyphs, value) {
        Some(glyph) => replace_glyph(ctx, glyph, buffer),
        None => Ok(false),
    }
}

/// Alternate substitution (OpenType, GSUB lookup type 3): where the subtable covers the glyph at the cursor, the
/// alternate of the feature's value replaces it; at the value 255 a lookup of the feature `rand` draws one at random,
/// and flags the whole text as unsafe to break.
impl Apply for AlternateSubst {
    ghost action = { λ s a. alternate_subtable a.font.gdef a.random a.mask s.rows };

    #[tactic(auto, using(buffer_stages::proofs::Lemmas::Glyphs::number_ahead))]
    fn apply(
        &self,
        ctx: &mut hb_ot_apply_context_t,
        buffer: &mut hb_buffer_t,
    ) -> Result<bool, ShapeCause> {
        let info = buffer.cur(0);
        let value = feature_value(ctx.lookup_mask(), info);
        match self.alternates(info.as_glyph().0) {
            Some(glyphs) => apply_alternate(glyphs, value, ctx, buffer),
            None => Ok(false),
        }
    }
}

impl Skippable for AlternateSubst {
    ghost use Rattle.layout_gsub.specs.Lemmas.Uncovered.{alternate_uncovered};

    ghost uncovered = { λ s a. alternate_uncovered a.font.gdef a.random a.mask s.rows };
}
