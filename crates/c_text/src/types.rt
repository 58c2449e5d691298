//! The structs that C passes and reads. They lie as HarfBuzz's `hb_feature_t`, `hb_glyph_info_t` and
//! `hb_glyph_position_t` do.

/// A request for a feature, for the glyphs whose cluster is at least `start` and below `end` (`hb_feature_t`).
#[repr(C)]
#[derive(Clone, Copy)]
pub struct kus_feature_t {
    pub tag: u32,
    pub value: u32,
    pub start: u32,
    pub end: u32,
}

/// A text in UTF-8, and how it is to be shaped.
#[repr(C)]
#[derive(Clone, Copy)]
pub struct kus_text_t<'a> {
    pub text: &'a [u8],
    /// The text before it and the text after it, of which five characters count.
    pub before: &'a [u8],
    pub after: &'a [u8],
    /// The BCP 47 tag of the language; none where it is empty.
    pub language: &'a [u8],
    pub features: &'a [kus_feature_t],
    /// `hb_direction_t` and `hb_script_t`; 0 is guessed.
    pub direction: u32,
    pub script: u32,
    /// `hb_buffer_flags_t` and `hb_buffer_cluster_level_t`.
    pub flags: u32,
    pub cluster_level: u32,
}

/// A glyph: its number, its glyph flags alone as its mask, and its cluster (`hb_glyph_info_t`).
#[repr(C)]
#[derive(Clone, Copy)]
pub struct kus_glyph_info_t {
    pub codepoint: u32,
    pub mask: u32,
    pub cluster: u32,
    pub var1: u32,
    pub var2: u32,
}

/// The advance that a client gives a glyph in a horizontal line, in font units.
#[repr(C)]
#[derive(Clone, Copy)]
pub struct kus_glyph_advance_t {
    pub glyph: u32,
    pub advance: u32,
}

/// The glyph that a client gives a character, or with a selector, which is not 0, a variation sequence; `CODEPOINT_INVALID`
/// for none.
#[repr(C)]
#[derive(Clone, Copy)]
pub struct kus_character_glyph_t {
    pub character: u32,
    pub selector: u32,
    pub glyph: u32,
}

/// The position of a glyph, in font units or in the scale that is set (`hb_glyph_position_t`).
#[repr(C)]
#[derive(Clone, Copy)]
pub struct kus_glyph_position_t {
    pub x_advance: i32,
    pub y_advance: i32,
    pub x_offset: i32,
    pub y_offset: i32,
    pub var: u32,
}

/// A run of glyphs of one cluster, each end by its index: the first glyph and one past the last, and the same of the bytes of
/// the text that it comes from.
#[repr(C)]
#[derive(Clone, Copy)]
pub struct kus_slice_t {
    pub first_glyph: usize,
    pub end_glyph: usize,
    pub start: usize,
    pub end: usize,
}

/// What is above and below the baseline, where the descender is mostly negative, and what is left between two lines, in font
/// units (`hb_font_extents_t`).
#[repr(C)]
#[derive(Clone, Copy)]
pub struct kus_line_metrics_t {
    pub ascender: i32,
    pub descender: i32,
    pub line_gap: i32,
}

/// The box of a glyph's ink, in font units; the height is negative where y grows upward (`hb_glyph_extents_t`).
#[repr(C)]
#[derive(Clone, Copy)]
pub struct kus_glyph_extents_t {
    pub x_bearing: i32,
    pub y_bearing: i32,
    pub width: i32,
    pub height: i32,
}
