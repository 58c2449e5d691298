//! The glyphs of a shaped text (rustybuzz: hb/buffer.rs, `GlyphBuffer`).
//!
//! It and `UnicodeBuffer` hold a buffer behind the same model, each with an invariant of its own.
ghost use Rattle.std.specs.Prelude.{◌≡◌, ◌==◌, length, false, true, IfOk, string_bytes};
ghost use Rattle.buffer_wrappers.specs.Printed.{printed_text};
ghost use Rattle.buffer_core.specs.Sides.{empty_buffer, all_glyphs};

use crate::printing::serialize;
use crate::unicode_buffer::UnicodeBuffer;
use buffer_core::buffer::hb_buffer_t;
use buffer_glyphs::flags::SerializeFlags;
use buffer_glyphs::info::hb_glyph_info_t;
use buffer_glyphs::names::GlyphNames;
use buffer_glyphs::position::GlyphPosition;
use std::alloc::{AllocError, Global};
use std::marker::Model;

/// The result of shaping a text: glyphs with their positions, in the order in which they are drawn.
#[derive(Drop)]
pub struct GlyphBuffer {
    buffer: hb_buffer_t,
}

impl Model for GlyphBuffer {
    ghost use Rattle.buffer_core.specs.Sides.{Sides};
    ghost use Rattle.buffer_wrappers.specs.Wrappers.{IsClosed};

    ghost Value = { Sides };

    ghost view = { λ b. b.buffer };

    ghost invariant = { λ b. IsClosed b.buffer };
}

impl GlyphBuffer {
    /// How many glyphs there are.
    pub fn len(&self) -> usize
        ensures { result ≡ length (all_glyphs self.now) }
    {
        self.buffer.len()
    }

    /// Whether there is no glyph.
    pub fn is_empty(&self) -> bool
        ensures { result ≡ (length (all_glyphs self.now) == 0) }
    {
        self.buffer.is_empty()
    }

    /// The glyphs, with their clusters and masks.
    pub fn glyph_infos(&self) -> &[hb_glyph_info_t]
        ensures { result.now ≡ all_glyphs self.now }
    {
        self.buffer.info_slice()
    }

    /// The positions of the glyphs, in font units.
    pub fn glyph_positions(&self) -> &[GlyphPosition]
        ensures same { result.now ≡ self.now.positions }
        ensures len { length result.now ≡ length (all_glyphs self.now) }
    {
        self.buffer.pos_slice()
    }

    /// Frees memory that the glyphs don't need, as where ligatures made a long text's list shorter.
    pub fn shrink_to_fit(&mut self)
        ensures { self.new ≡ self.old }
    {
        self.buffer.shrink_to_fit();
    }

    /// An empty text in the same storage, as `new` makes it.
    pub fn clear(self) -> UnicodeBuffer
        ensures { result ≡ empty_buffer }
    {
        let GlyphBuffer { mut buffer } = self;
        buffer.clear();
        UnicodeBuffer::from_buffer(buffer)
    }

    /// The glyphs of a buffer.
    pub fn from_buffer(buffer: hb_buffer_t) -> GlyphBuffer
        requires { buffer.is_open ≡ false }
        ensures { result ≡ buffer }
    {
        GlyphBuffer { buffer }
    }

    /// The buffer that holds the glyphs.
    pub fn into_buffer(self) -> hb_buffer_t
        ensures same { result ≡ self }
        ensures closed { result.is_open ≡ false }
    {
        let GlyphBuffer { buffer } = self;
        buffer
    }
}

impl GlyphBuffer {
    /// Prints the glyphs; `names` gives their names and boxes.
    pub fn serialize<N: GlyphNames>(
        &self,
        alloc: Global,
        names: &N,
        flags: SerializeFlags,
    ) -> Result<String, AllocError>
        ensures { IfOk result
            (λ text. string_bytes text
            ≡ printed_text (N.name_of names.now) (N.extents_of names.now) flags
            (all_glyphs self.now) self.now.positions) }
    {
        serialize(
            alloc,
            self.glyph_infos(),
            self.glyph_positions(),
            names,
            flags,
        )
    }
}
