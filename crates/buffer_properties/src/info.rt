//! The properties of a glyph record that holds a character (rustybuzz: hb/buffer.rs, `init_unicode_props`).
ghost use Rattle.std.specs.Prelude.{◌≡◌};
ghost use Rattle.std.specs.Char.{IsScalar};
ghost use Rattle.std.specs.Int.RustNames.{bit_or};
ghost use Rattle.buffer_properties.specs.Properties.{scratch_flags_of, with_text_properties, without_continuation};

use crate::character::{character_class, scratch_flags_of, text_properties_of};
use buffer_common::constants::hb_buffer_scratch_flags_t;
use buffer_glyphs::flags::UnicodeProps;
use buffer_glyphs::info::hb_glyph_info_t;
use buffer_unicode_tables::UnicodeTables;

/// Gives a record the properties and the class of its character, and adds the character's scratch flags. A combining
/// mark is flagged as a continuation; the other continuations of a grapheme are found over the whole text.
pub fn init_unicode_props(
    info: &mut hb_glyph_info_t,
    tables: &UnicodeTables,
    scratch_flags: &mut hb_buffer_scratch_flags_t,
)
    requires { IsScalar info.old.glyph_id }
    ensures properties { info.new ≡ with_text_properties tables.now info.old }
    ensures flags { scratch_flags.new ≡ bit_or scratch_flags.old (scratch_flags_of info.old.glyph_id) }
{
    let u = info.as_char();
    info.unicode_props = UnicodeProps(text_properties_of(u));
    info.modified_combining_class = character_class(tables, u);
    *scratch_flags |= scratch_flags_of(u);
}

/// Clears the continuation flag, which no stage reads once the text is in its native order.
pub fn clear_continuation(info: &mut hb_glyph_info_t)
    ensures { info.new ≡ without_continuation info.old }
{
    let props = info.unicode_props.0;
    info.unicode_props = UnicodeProps(props - (props & UnicodeProps::CONTINUATION.0));
}
