//! The settings of a buffer (rustybuzz: hb/buffer.rs).
ghost use Rattle.std.specs.Prelude.{◌≡◌};
ghost use Rattle.std.specs.Option.{option_copied};
ghost use Rattle.buffer_core.specs.Sides.{with_flags, with_level, with_scratch_flags};
ghost use Rattle.buffer_core.specs.Settings.{number_set, with_invisible, with_language, with_not_found, with_not_found_variation_selector};

use super::hb_buffer_t;
use buffer_common::constants::{BufferFlags, hb_buffer_scratch_flags_t};
use buffer_common::language::Language;
use buffer_glyphs::level::BufferClusterLevel;
use buffer_glyphs::names::GlyphId;

impl hb_buffer_t {
    /// The cluster level.
    pub fn cluster_level(&self) -> BufferClusterLevel
        ensures { result ≡ self.now.level }
    {
        self.cluster_level
    }

    /// Sets the cluster level.
    pub fn set_cluster_level(&mut self, level: BufferClusterLevel)
        ensures { self.new ≡ with_level level self.old }
    {
        self.cluster_level = level;
    }

    /// The flags that the stages of shaping set for each other, the bits `HB_BUFFER_SCRATCH_FLAG_`.
    pub fn scratch_flags(&self) -> hb_buffer_scratch_flags_t
        ensures { result ≡ self.now.scratch_flags }
    {
        self.scratch_flags
    }

    /// Sets the scratch flags.
    pub fn set_scratch_flags(&mut self, flags: hb_buffer_scratch_flags_t)
        ensures { self.new ≡ with_scratch_flags flags self.old }
    {
        self.scratch_flags = flags;
    }

    /// The requests for the shaping (`hb_buffer_flags_t`).
    pub fn flags(&self) -> BufferFlags
        ensures { result ≡ self.now.flags }
    {
        self.flags
    }

    /// Sets the requests for the shaping.
    pub fn set_flags(&mut self, flags: BufferFlags)
        ensures { self.new ≡ with_flags flags self.old }
    {
        self.flags = flags;
    }

    /// The language, if one was set.
    pub fn language(&self) -> Option<&Language>
        ensures { option_copied result ≡ self.now.language }
    {
        self.language.as_ref()
    }

    /// Sets the language of the text.
    pub fn set_language(&mut self, language: Option<Language>)
        ensures { self.new ≡ with_language language self.old }
    {
        self.language = language;
    }

    /// The glyph that stands for a character that is not to be seen, none for a space of no width.
    pub fn invisible(&self) -> Option<GlyphId>
        ensures { number_set result ≡ self.now.invisible }
    {
        self.invisible
    }

    pub fn set_invisible(&mut self, glyph: Option<GlyphId>)
        ensures { self.new ≡ with_invisible (number_set glyph) self.old }
    {
        self.invisible = glyph;
    }

    /// The glyph that stands for a variation selector that the font does not know.
    pub fn not_found_variation_selector(&self) -> Option<GlyphId>
        ensures { number_set result ≡ self.now.not_found_variation_selector }
    {
        self.not_found_variation_selector
    }

    pub fn set_not_found_variation_selector(&mut self, glyph: Option<GlyphId>)
        ensures { self.new ≡ with_not_found_variation_selector (number_set glyph) self.old }
    {
        self.not_found_variation_selector = glyph;
    }

    /// The glyph of a character that the font lacks, 0 (.notdef) where none was set.
    pub fn not_found(&self) -> GlyphId
        ensures { result.0 ≡ self.now.not_found }
    {
        self.not_found
    }

    pub fn set_not_found(&mut self, glyph: GlyphId)
        ensures { self.new ≡ with_not_found glyph.0 self.old }
    {
        self.not_found = glyph;
    }
}
