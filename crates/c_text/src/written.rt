//! What C reads, in its own arrays.
//!
//! The records of C have impls of one form.
ghost use Rattle.std.specs.Prelude.{◌≡◌, map};
ghost use Rattle.c_text.specs.Written.{extents_of, feature_tag, info_of, line_metrics_of, position_of, script_tag, slice_of, with_front};

use crate::line_spacing::LineSpacing;
use crate::types::{
    kus_glyph_extents_t, kus_glyph_info_t, kus_glyph_position_t, kus_line_metrics_t, kus_slice_t,
};
use buffer_glyphs::info::{DEFINED, hb_glyph_info_t};
use buffer_glyphs::names::hb_glyph_extents_t;
use buffer_glyphs::position::GlyphPosition;
use layout_tables::script::ScriptRecord;
use layout_tables::table::FeatureRecord;
use shape_slices::slices::SourceSlice;

/// A value that C reads in a form of its own.
pub trait Written {
    type Form: Copy;

    ghost form_of: { Self → Self.Form };

    /// Its form.
    fn form(&self) -> Self::Form
        ensures { result ≡ form_of self.now };
}

impl Written for hb_glyph_info_t {
    type Form = kus_glyph_info_t;

    ghost form_of = { info_of };

    fn form(&self) -> kus_glyph_info_t {
        kus_glyph_info_t {
            codepoint: self.glyph_id,
            mask: self.mask & DEFINED,
            cluster: self.cluster,
            var1: 0,
            var2: 0,
        }
    }
}

impl Written for GlyphPosition {
    type Form = kus_glyph_position_t;

    ghost form_of = { position_of };

    fn form(&self) -> kus_glyph_position_t {
        kus_glyph_position_t {
            x_advance: self.x_advance,
            y_advance: self.y_advance,
            x_offset: self.x_offset,
            y_offset: self.y_offset,
            var: 0,
        }
    }
}

impl Written for SourceSlice {
    type Form = kus_slice_t;

    ghost form_of = { slice_of };

    fn form(&self) -> kus_slice_t {
        kus_slice_t {
            first_glyph: self.first_glyph,
            end_glyph: self.end_glyph,
            start: self.start,
            end: self.end,
        }
    }
}

impl Written for FeatureRecord {
    type Form = u32;

    ghost form_of = { feature_tag };

    fn form(&self) -> u32 {
        self.tag().0
    }
}

impl Written for ScriptRecord {
    type Form = u32;

    ghost form_of = { script_tag };

    fn form(&self) -> u32 {
        self.tag().0
    }
}

impl Written for u8 {
    type Form = u8;

    ghost form_of = { λ b. b };

    fn form(&self) -> u8 {
        *self
    }
}

impl Written for i16 {
    type Form = i32;

    ghost form_of = { λ n. n };

    fn form(&self) -> i32 {
        i32::from(*self)
    }
}

/// Writes as many items as there is room for.
pub fn write_front<T: Written>(items: &[T], room: &mut [T::Form])
    ensures { room.new ≡ with_front (map T.form_of items.now) room.old }
{
    let count = items.len().min(room.len());
    for k in 0..count {
        room[k] = items[k].form();
    }
}

/// The box of a glyph.
pub fn extents_of(extents: hb_glyph_extents_t) -> kus_glyph_extents_t
    ensures { result ≡ extents_of extents }
{
    kus_glyph_extents_t {
        x_bearing: extents.x_bearing,
        y_bearing: extents.y_bearing,
        width: extents.width,
        height: extents.height,
    }
}

/// The metrics of a line.
pub fn line_metrics_of(line: LineSpacing) -> kus_line_metrics_t
    ensures { result ≡ line_metrics_of line }
{
    kus_line_metrics_t {
        ascender: i32::from(line.ascender),
        descender: i32::from(line.descender),
        line_gap: i32::from(line.line_gap),
    }
}
