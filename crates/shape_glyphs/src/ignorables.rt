//! Default ignorable characters, which show no glyph.
ghost use Rattle.std.specs.Prelude.{◌≡◌};
ghost use Rattle.std.specs.List.{list_any};
ghost use Rattle.buffer_glyphs.specs.PropertyWords.{is_default_ignorable};
ghost use Rattle.buffer_glyphs.specs.Items.{item_of};
ghost use Rattle.buffer_glyphs.specs.Origins.{origin_of};
ghost use Rattle.buffer_core.specs.Readings.{always};
ghost use Rattle.buffer_stages.specs.Ready.{IsDone, IsReady};
ghost use Rattle.buffer_stages.specs.Stages.{with_items_mapped};
ghost use Rattle.shape_glyphs.specs.Ignorables.{ignorables_hidden, hidden_item, invisible_glyph, is_ignorable_character, preserves_ignorables, without_ignorables};

use bitflags::Flags;
use buffer_common::constants::BufferFlags;
use buffer_core::buffer::hb_buffer_t;
use buffer_glyphs::flags::UnicodeProps;
use buffer_glyphs::info::hb_glyph_info_t;
use buffer_glyphs::property_words::_hb_glyph_info_is_default_ignorable;
use buffer_stages::glyphs::map_glyphs;
use layout_face::Face;

/// Hides default ignorables, unless PRESERVE_DEFAULT_IGNORABLES is set: each is replaced by the invisible glyph that is
/// set, else by the font's space; where REMOVE_DEFAULT_IGNORABLES is set, or neither glyph exists, it is deleted, and
/// its cluster is merged with a neighbour's. It takes linear time and no memory.
pub fn hide_default_ignorables(face: &Face, buffer: &mut hb_buffer_t)
    requires { IsReady buffer.old }
    ensures { IsDone (always (ignorables_hidden buffer.old.flags buffer.old.invisible face.now)) buffer.old buffer.new }
{
    if preserves_ignorables(buffer.flags()) {
        return;
    }
    match invisible_glyph(face, buffer) {
        Some(glyph) => hide_by(glyph, buffer),
        None => delete_ignorables(buffer),
    }
}

fn preserves_ignorables(flags: BufferFlags) -> bool
    ensures { result ≡ preserves_ignorables flags }
{
    flags.contains(BufferFlags::PRESERVE_DEFAULT_IGNORABLES)
}

fn invisible_glyph(face: &Face, buffer: &hb_buffer_t) -> Option<u16>
    ensures { result ≡ invisible_glyph buffer.now.flags buffer.now.invisible face.now }
{
    if buffer
        .flags()
        .contains(BufferFlags::REMOVE_DEFAULT_IGNORABLES)
    {
        return None;
    }
    match buffer.invisible() {
        Some(glyph) => Some(glyph.0),
        None => face.get_nominal_glyph(' '),
    }
}

#[tactic(auto, using(crate::proofs::Shown::items_stay_done))]
fn hide_by(invisible: u16, buffer: &mut hb_buffer_t)
    requires { IsReady buffer.old }
    ensures { IsDone (always (with_items_mapped (hidden_item invisible))) buffer.old buffer.new }
{
    if has_ignorable(buffer.info_slice()) {
        hide_each(invisible, buffer);
    }
}

/// A list of this length or more is searched to its end, so that several glyphs are tested at once.
const SEVERAL: usize = 16;

/// Whether one of the glyphs is a default ignorable.
#[tactic(auto, using(crate::proofs::Shown::none_ignorable))]
pub(crate) fn has_ignorable(glyphs: &[hb_glyph_info_t]) -> bool
    ensures { result ≡ list_any (λ g. is_default_ignorable (item_of g)) glyphs.now }
{
    if !has_ignorable_character(glyphs) {
        return false;
    }
    glyphs
        .iter()
        .any(|glyph| _hb_glyph_info_is_default_ignorable(glyph))
}

/// Whether one of the glyphs was made of a default ignorable.
fn has_ignorable_character(glyphs: &[hb_glyph_info_t]) -> bool
    ensures { result ≡ list_any (λ g. is_ignorable_character (item_of g)) glyphs.now }
{
    if glyphs.len() < SEVERAL {
        return glyphs.iter().any(|glyph| is_ignorable_character(glyph));
    }
    let mut any = false;
    for glyph in glyphs {
        any |= is_ignorable_character(glyph);
    }
    any
}

fn is_ignorable_character(glyph: &hb_glyph_info_t) -> bool
    ensures { result ≡ is_ignorable_character (item_of glyph.now) }
{
    glyph.unicode_props.0 & UnicodeProps::IGNORABLE.0 != 0
}

fn hide_each(invisible: u16, buffer: &mut hb_buffer_t)
    requires { IsReady buffer.old }
    ensures { IsDone (always (with_items_mapped (hidden_item invisible))) buffer.old buffer.new }
{
    map_glyphs(buffer, |glyph| hidden(invisible, glyph));
}

fn hidden(invisible: u16, glyph: &hb_glyph_info_t) -> hb_glyph_info_t
    ensures item { item_of result ≡ hidden_item invisible (item_of glyph.now) }
    ensures origin { origin_of result ≡ origin_of glyph.now }
{
    if _hb_glyph_info_is_default_ignorable(glyph) {
        hb_glyph_info_t {
            glyph_id: u32::from(invisible),
            ..*glyph
        }
    } else {
        *glyph
    }
}

fn delete_ignorables(buffer: &mut hb_buffer_t)
    requires { IsReady buffer.old }
    ensures { IsDone (always without_ignorables) buffer.old buffer.new }
{
    buffer.delete_glyphs_inplace(|glyph| _hb_glyph_info_is_default_ignorable(glyph));
}
