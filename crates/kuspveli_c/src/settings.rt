//! The calls that set what a client wants of a font, as `include/kuspveli.h` declares them.
//!
//! The calls have one form, each by its own definition of what it sets: a font is taken out of its handle, changed and put
//! back.
ghost use Rattle.std.specs.Prelude.{◌≡◌, ◌≢◌, IfNone, IfSome, Some};
ghost use Rattle.c_text.specs.Fonts.{AreSetAtFrontIn, advances_refusal_in, font_with_advances, font_with_glyphs, font_with_invisible, font_with_not_found, glyphs_refusal_in};
ghost use Rattle.c_text.specs.Replacements.{glyph_status};

use c_text::handle::Handle;
use c_text::numbers::{NO_FONT, OK};
use c_text::scale::Scale;
use c_text::types::{kus_character_glyph_t, kus_glyph_advance_t};
use std::alloc::Global;

/// Gives glyphs the advances of a list in a horizontal line, in font units, as a client measures them; texts that are shaped
/// from then on have the positions of a font with these advances. Of a glyph that is named twice the last one counts. A
/// list is refused by its first glyph that the font has no advance of, or first advance above 65535, and where other
/// handles share the font; then nothing changes. The glyphs of the last text stay as they are.
#[tactic(auto, using(crate::proofs::SetInHandles::advances_set, crate::proofs::SetInHandles::advances_refused, crate::proofs::SetInHandles::advances_shared))]
#[unsafe(no_mangle)]
pub extern "C" fn kus_font_set_advances(
    alloc: Global,
    font: &mut Handle,
    advances: &[kus_glyph_advance_t],
) -> u32
    ensures set { result ≡ 0 → (advances_refusal_in font.old.value advances.now ≡ 0)
        × IfSome font.old.value (λ f. font.new.value ≡ Some (font_with_advances advances.now f)) }
    ensures refused { result ≢ 0 → result ≢ 26 → result ≡ advances_refusal_in font.old.value advances.now }
    ensures shared { result ≡ 26 → advances_refusal_in font.old.value advances.now ≡ 0 }
    ensures kept { result ≢ 0 → font.new.value ≡ font.old.value }
{
    let Some(mut changed) = font.take(alloc) else {
        return NO_FONT;
    };
    let status = changed.set_advances(advances);
    font.put(alloc, changed);
    status
}

/// Gives characters the glyphs of a list, and variation sequences where a selector is not 0, as a client's own character map
/// has them: texts that are shaped from then on have those of a font with this map. Of one that is named twice the last
/// glyph counts. A list is refused by its first character or selector that is no scalar value, or first number that no
/// glyph has, and where other handles share the font; then nothing changes. For want of memory the glyphs at the front are
/// set, and the list may be given again. The glyphs of the last text stay as they are.
#[tactic(auto, using(crate::proofs::SetInHandles::glyphs_set, crate::proofs::SetInHandles::glyphs_refused, crate::proofs::SetInHandles::glyphs_shared, crate::proofs::SetInHandles::glyphs_at_front))]
#[unsafe(no_mangle)]
pub extern "C" fn kus_font_set_glyphs(
    alloc: Global,
    font: &mut Handle,
    glyphs: &[kus_character_glyph_t],
) -> u32
    ensures set { result ≡ 0 → (glyphs_refusal_in font.old.value glyphs.now ≡ 0)
        × IfSome font.old.value (λ f. font.new.value ≡ Some (font_with_glyphs glyphs.now f)) }
    ensures refused { result ≢ 0 → result ≢ 1 → result ≢ 26 → result ≡ glyphs_refusal_in font.old.value glyphs.now }
    ensures shared { result ≡ 26 → glyphs_refusal_in font.old.value glyphs.now ≡ 0 }
    ensures memory { result ≡ 1 → (glyphs_refusal_in font.old.value glyphs.now ≡ 0)
        × IfSome font.old.value (λ f. AreSetAtFrontIn glyphs.now f font.new.value) }
    ensures kept { result ≢ 0 → result ≢ 1 → font.new.value ≡ font.old.value }
{
    let Some(mut changed) = font.take(alloc) else {
        return NO_FONT;
    };
    let status = changed.set_glyphs(alloc, glyphs);
    font.put(alloc, changed);
    status
}

/// Sets the glyph that default ignorables have in the texts that are shaped from then on (`hb_buffer_set_invisible_glyph`): 0
/// for the font's space, without advance. A number that no glyph has is refused.
#[unsafe(no_mangle)]
pub extern "C" fn kus_font_set_invisible_glyph(alloc: Global, font: &mut Handle, glyph: u32) -> u32
    ensures no_font { IfNone font.old.value (result ≡ 16) }
    ensures status { IfSome font.old.value (λ _. result ≡ glyph_status glyph) }
    ensures set { result ≡ 0 → IfSome font.old.value (λ f. font.new.value ≡ Some (font_with_invisible glyph f)) }
    ensures kept { result ≢ 0 → font.new.value ≡ font.old.value }
{
    let Some(mut changed) = font.take(alloc) else {
        return NO_FONT;
    };
    let status = changed.set_invisible_glyph(glyph);
    font.put(alloc, changed);
    status
}

/// Sets the glyph that characters which the font lacks have in the texts that are shaped from then on
/// (`hb_buffer_set_not_found_glyph`), 0 at first. A number that no glyph has is refused.
#[unsafe(no_mangle)]
pub extern "C" fn kus_font_set_not_found_glyph(alloc: Global, font: &mut Handle, glyph: u32) -> u32
    ensures no_font { IfNone font.old.value (result ≡ 16) }
    ensures status { IfSome font.old.value (λ _. result ≡ glyph_status glyph) }
    ensures set { result ≡ 0 → IfSome font.old.value (λ f. font.new.value ≡ Some (font_with_not_found glyph f)) }
    ensures kept { result ≢ 0 → font.new.value ≡ font.old.value }
{
    let Some(mut changed) = font.take(alloc) else {
        return NO_FONT;
    };
    let status = changed.set_not_found_glyph(glyph);
    font.put(alloc, changed);
    status
}

/// Sets what an em is on each axis in the client's units, in which positions are handed out from then on, those of the last
/// text too; 0 on both axes for font units.
#[unsafe(no_mangle)]
pub extern "C" fn kus_font_set_scale(
    alloc: Global,
    font: &mut Handle,
    x_scale: i32,
    y_scale: i32,
) -> u32
    ensures no_font { IfNone font.old.value (result ≡ 16) }
    ensures set { IfSome font.old.value (λ f.
        (result ≡ 0) × (font.new.value ≡ Some (record f { scale = record { x = x_scale; y = y_scale } }))) }
    ensures kept { result ≢ 0 → font.new.value ≡ font.old.value }
{
    let Some(mut changed) = font.take(alloc) else {
        return NO_FONT;
    };
    changed.set_scale(Scale {
        x: x_scale,
        y: y_scale,
    });
    font.put(alloc, changed);
    OK
}
