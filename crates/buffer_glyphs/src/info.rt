//! The record of a character or glyph (rustybuzz: hb/buffer.rs, `hb_glyph_info_t`).
ghost use Rattle.std.specs.Prelude.{◌≡◌, ◌≢◌, ◌≤◌, ◌↔◌, IsTrue};
ghost use Rattle.std.specs.Int.RustNames.{bit_and};
ghost use Rattle.std.specs.Char.{IsScalar};

use crate::flags::{GlyphPropsFlags, UnicodeProps};
use crate::names::GlyphId;

/// HarfBuzz's name of a character.
pub type hb_codepoint_t = char;

/// A set of bits of a glyph's mask.
pub type hb_mask_t = u32;

/// A break before a glyph with this bit may change the shaping of the text around it.
pub const UNSAFE_TO_BREAK: hb_mask_t = 1;

/// Texts concatenated before a glyph with this bit may be shaped otherwise.
pub const UNSAFE_TO_CONCAT: hb_mask_t = 2;

/// A tatweel may be inserted before a glyph with this bit.
pub const SAFE_TO_INSERT_TATWEEL: hb_mask_t = 4;

/// The three glyph flags.
pub const DEFINED: hb_mask_t = 7;

/// A character, later a glyph, with the properties that shaping keeps of it.
// (in this order the fields leave no gap: 28 bytes)
#[derive(Clone, Copy, PartialEq, Eq, Debug, Default)]
pub struct hb_glyph_info_t {
    /// A character's code; a glyph's number once the text is mapped to glyphs.
    pub glyph_id: u32,
    /// The features that act on it, and the three glyph flags in its low bits.
    pub mask: hb_mask_t,
    /// The number of its cluster: in general the index of its first character or byte in the input text.
    pub cluster: u32,
    /// The glyph of the font that a character is mapped to.
    pub glyph_index: u32,
    /// The ligature word: the ligature that the glyph is or belongs to, and its component.
    pub lig_props: u32,
    pub unicode_props: UnicodeProps,
    pub glyph_props: GlyphPropsFlags,
    /// The modified combining class of a combining mark, or the fallback type of a space.
    pub modified_combining_class: u8,
    pub syllable: u8,
    pub category: u8,
    pub auxiliary: u8,
}

impl hb_glyph_info_t {
    /// Whether a break before it may change the shaping of the text around it.
    pub fn unsafe_to_break(&self) -> bool
        ensures { IsTrue result ↔ (bit_and self.now.mask UNSAFE_TO_BREAK ≢ 0) }
    {
        self.mask & UNSAFE_TO_BREAK != 0
    }

    /// The character, before the text is mapped to glyphs.
    pub fn as_char(&self) -> char
        requires { IsScalar self.now.glyph_id }
        ensures { result ≡ self.now.glyph_id }
    {
        char::from_u32(self.glyph_id).unwrap()
    }

    /// The glyph, once the text is mapped to glyphs.
    pub fn as_glyph(&self) -> GlyphId
        requires { self.now.glyph_id ≤ 65535 }
        ensures { result.0 ≡ self.now.glyph_id }
    {
        GlyphId(self.glyph_id as u16)
    }
}
