//! The replacements of the apply context, as its methods (rustybuzz: hb/ot_layout_gsubgpos.rs, `hb_ot_apply_context_t`).
ghost use Rattle.std.specs.Prelude.{ℕ, ◌≡◌, ◌≢◌, ◌<◌, ◌||◌, nat_lt, true, false, Some, [], length, slice_get, IfErr, OnOk};
ghost use Rattle.buffer_glyphs.specs.declared.info.hb_glyph_info_t.{hb_glyph_info_t as Glyph};
ghost use Rattle.buffer_glyphs.specs.Items.{item_of};
ghost use Rattle.buffer_glyphs.specs.Origins.{origin_of};
ghost use Rattle.buffer_core.specs.Sides.{has_output_room, HasCurrent};
ghost use Rattle.buffer_stages.specs.Actions.{Acts};
ghost use Rattle.buffer_stages.specs.Buffers.{cut_of};
ghost use Rattle.buffer_stages.specs.Performing.{Performs, PerformsWithoutOutput, cut_with};
ghost use Rattle.layout_face.specs.declared.parts.GlyphDefinition.{GlyphDefinition};
ghost use Rattle.layout_gsub.specs.LigatureReplacement.{guessed_ligature_props, ligature_replacement};
ghost use Rattle.layout_gsub.specs.Multiples.{component_item};
ghost use Rattle.layout_gsub.specs.Putting.{IsPut};
ghost use Rattle.layout_gsub.specs.Replacements.{single_substitution};
ghost use Rattle.layout_gsub.specs.Reverses.{cut_with_substitute_kept};

use crate::replacement::{glyph_props, set_glyph_props};
use buffer_core::buffer::hb_buffer_t;
use buffer_glyphs::cause::ShapeCause;
use buffer_glyphs::flags::GlyphPropsFlags;
use layout_face::Face;
use layout_match::hb_ot_apply_context_t;

/// What the parameters of applying a lookup do to the glyph at the cursor of a buffer. Glyph numbers are those of the
/// font. A call that outputs refuses for want of memory, or with `TooLong` where the output is full.
pub trait GlyphReplacement {
    ghost definition: { Self → GlyphDefinition };

    ghost random: { Self → ℕ };

    /// Replaces the glyph at the cursor by another, and outputs it; its class is GDEF's, where GDEF has classes. It
    /// answers true, as a rule that acted. An output that is in place stays there.
    fn replace_glyph(&self, glyph: u16, buffer: &mut hb_buffer_t) -> Result<bool, ShapeCause>
        requires current { HasCurrent buffer.old }
        ensures performs { Performs (single_substitution (definition self.now) (Some glyph)
            (cut_with (random self.now) buffer.old)) result (random self.now) (random self.now) buffer.old buffer.new }
        ensures apart { OnOk result (buffer.new.is_apart ≡ buffer.old.is_apart) };

    /// Replaces the glyph at the cursor by another, in place; its class is GDEF's, where GDEF has classes.
    fn replace_glyph_inplace(&self, glyph: u16, buffer: &mut hb_buffer_t)
        requires { 0 < length buffer.old.ahead }
        ensures { PerformsWithoutOutput (Acts (cut_with_substitute_kept (definition self.now) glyph
            (cut_of buffer.old)) []) true buffer.old buffer.new };

    /// Replaces the glyph at the cursor by a ligature, and outputs it; its class is GDEF's, where GDEF has classes, else
    /// the guess, and with an empty guess it stays. It answers true, as a rule that acted. An output that is in place
    /// stays there.
    fn replace_glyph_with_ligature(
        &self,
        glyph: u16,
        class_guess: GlyphPropsFlags,
        buffer: &mut hb_buffer_t,
    ) -> Result<bool, ShapeCause>
        requires current { HasCurrent buffer.old }
        ensures performs { Performs (ligature_replacement (definition self.now) glyph class_guess.0
            (cut_with (random self.now) buffer.old)) result (random self.now) (random self.now) buffer.old buffer.new }
        ensures apart { OnOk result (buffer.new.is_apart ≡ buffer.old.is_apart) };

    /// Outputs a glyph as a component, counted from 0, of the glyph at the cursor, which stays there. It is multiplied;
    /// its class is GDEF's, where GDEF has classes, else a ligature's component is a base. An output in place leaves it
    /// where it then has more glyphs than were read.
    fn output_glyph_for_component(
        &self,
        glyph: u16,
        component: usize,
        buffer: &mut hb_buffer_t,
    ) -> Result<(), ShapeCause>
        requires current { HasCurrent buffer.old }
        ensures put { OnOk result ((g : Glyph) → slice_get buffer.old.ahead 0 ≡ Some g →
            IsPut (component_item (definition self.now) (item_of g) component glyph) (origin_of g) buffer.old buffer.new) }
        ensures apart { OnOk result (buffer.new.is_apart
            ≡ (buffer.old.is_apart || nat_lt buffer.old.read (length buffer.new.behind))) }
        ensures room { OnOk result (has_output_room 1 buffer.old ≡ true) }
        ensures cause { IfErr result (λ e. e ≢ ShapeCause.OutOfMemory → e ≡ ShapeCause.TooLong) }
        ensures full { IfErr result (λ e. e ≢ ShapeCause.OutOfMemory → has_output_room 1 buffer.old ≡ false) };
}

impl<'a> GlyphReplacement for hb_ot_apply_context_t<'a> {
    ghost definition = { λ c. c.face.now.gdef };

    ghost random = { λ c. c.random_state };

    fn replace_glyph(&self, glyph: u16, buffer: &mut hb_buffer_t) -> Result<bool, ShapeCause> {
        crate::replacement::replace_glyph(self, glyph, buffer)
    }

    fn replace_glyph_inplace(&self, glyph: u16, buffer: &mut hb_buffer_t) {
        crate::reverse::replace_glyph_inplace(self, glyph, buffer)
    }

    fn replace_glyph_with_ligature(
        &self,
        glyph: u16,
        class_guess: GlyphPropsFlags,
        buffer: &mut hb_buffer_t,
    ) -> Result<bool, ShapeCause> {
        replace_with_ligature(self, glyph, class_guess, buffer)
    }

    fn output_glyph_for_component(
        &self,
        glyph: u16,
        component: usize,
        buffer: &mut hb_buffer_t,
    ) -> Result<(), ShapeCause> {
        let info = *buffer.cur(0);
        crate::multiple::output_glyph_for_component(self.face, &info, component, glyph, buffer)
    }
}

/// The properties of a ligature that replaces a glyph with the properties `old`.
fn guessed_ligature_props(
    face: &Face,
    glyph: u16,
    class_guess: GlyphPropsFlags,
    old: GlyphPropsFlags,
) -> GlyphPropsFlags
    ensures { result.0 ≡ guessed_ligature_props face.now.gdef glyph class_guess.0 old.0 }
{
    let props = old.0 | (GlyphPropsFlags::SUBSTITUTED.0 | GlyphPropsFlags::LIGATED.0);
    let kept = GlyphPropsFlags::SUBSTITUTED.0 | GlyphPropsFlags::LIGATED.0;
    if face.has_glyph_classes() {
        return GlyphPropsFlags(props & kept | glyph_props(face, glyph).0);
    }
    if class_guess.0 == 0 {
        return GlyphPropsFlags(props & !GlyphPropsFlags::MULTIPLIED.0);
    }
    GlyphPropsFlags(props & kept | class_guess.0)
}

fn replace_with_ligature(
    ctx: &hb_ot_apply_context_t,
    glyph: u16,
    class_guess: GlyphPropsFlags,
    buffer: &mut hb_buffer_t,
) -> Result<bool, ShapeCause>
    requires current { HasCurrent buffer.old }
    ensures performs { Performs (ligature_replacement ctx.now.face.now.gdef glyph class_guess.0
        (cut_with ctx.now.random_state buffer.old)) result ctx.now.random_state ctx.now.random_state buffer.old
        buffer.new }
    ensures apart { OnOk result (buffer.new.is_apart ≡ buffer.old.is_apart) }
{
    let props = guessed_ligature_props(ctx.face, glyph, class_guess, buffer.cur(0).glyph_props);
    set_glyph_props(buffer, props);
    let held = buffer.replace_glyph(u32::from(glyph))?;
    if held {
        return Ok(true);
    }
    Err(ShapeCause::TooLong)
}
