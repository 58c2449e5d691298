//! A text to shape, with its settings (rustybuzz: hb/buffer.rs, `UnicodeBuffer`).
ghost use Rattle.std.specs.Prelude.{◌≡◌, ◌≤◌, ◌==◌, length, true, false, Ok, Some, OnErr, IfOk, ◌∷◌, [], unwrap_or, take, reverse};
ghost use Rattle.std.specs.Option.{option_copied};
ghost use Rattle.std.specs.Str.{chars};
ghost use Rattle.buffer_common.specs.declared.script.TheConstants.{UNKNOWN};
ghost use Rattle.buffer_core.specs.Sides.{empty_buffer, all_glyphs, with_added, has_room, with_flags, with_level};
ghost use Rattle.buffer_core.specs.Settings.{with_reset_clusters, with_invisible, with_language, with_not_found, with_not_found_variation_selector, with_post_context, with_pre_context};
ghost use Rattle.buffer_wrappers.specs.Wrappers.{IsText};
ghost use Rattle.buffer_core.specs.Segment.{after_guess_segment_properties, guessed_direction, guessed_script, with_segment};
ghost use Rattle.buffer_core.specs.Text.{added_glyph, added_text, fits_text};

use buffer_common::constants::BufferFlags;
use buffer_common::direction::Direction;
use buffer_common::language::Language;
use buffer_common::script::{Script, UNKNOWN};
use buffer_core::buffer::hb_buffer_t;
use buffer_core::buffer::segment::{first_script, guessed_direction};
use buffer_glyphs::level::BufferClusterLevel;
use buffer_glyphs::names::GlyphId;
use std::alloc::{AllocError, Global};
use std::marker::Model;

/// A text to be shaped: characters, each with the number of its cluster, and the settings of its shaping.
#[derive(Drop)]
pub struct UnicodeBuffer {
    buffer: hb_buffer_t,
}

impl Model for UnicodeBuffer {
    ghost use Rattle.buffer_core.specs.Sides.{Sides};
    ghost use Rattle.buffer_wrappers.specs.Wrappers.{IsText};

    ghost Value = { Sides };

    ghost view = { λ b. b.buffer };

    ghost invariant = { λ b. IsText b.buffer };
}

impl UnicodeBuffer {
    /// An empty text with no direction and no script.
    pub fn new(alloc: Global) -> UnicodeBuffer
        ensures { result ≡ empty_buffer }
    {
        UnicodeBuffer {
            buffer: hb_buffer_t::new(alloc),
        }
    }

    /// How many characters there are.
    pub fn len(&self) -> usize
        ensures count { result ≡ length (all_glyphs self.now) }
        ensures within { result ≤ self.now.max_len }
    {
        self.buffer.len()
    }

    /// Whether there is no character.
    pub fn is_empty(&self) -> bool
        ensures { result ≡ (length (all_glyphs self.now) == 0) }
    {
        self.buffer.is_empty()
    }

    /// Adds a character; answers false, and adds nothing, where the text has as many as it may.
    #[tactic(auto, using(crate::proofs::Characters::one_character, crate::proofs::Characters::text_grown))]
    pub fn add(&mut self, codepoint: char, cluster: u32) -> Result<bool, AllocError>
        ensures held { IfOk result (λ b. b ≡ has_room 1 self.old) }
        ensures added { result ≡ Ok true → self.new ≡ with_added (added_glyph codepoint cluster ∷ []) self.old }
        ensures full { result ≡ Ok false → self.new ≡ self.old }
        ensures err { OnErr result (self.new ≡ self.old) }
    {
        self.buffer.add(codepoint, cluster)
    }

    /// Appends the characters of a text, each with the index of its first byte as its cluster; answers false, and
    /// appends nothing, where there would be more than there may be or a character begins past byte `u32::MAX`.
    #[tactic(auto, using(crate::proofs::Characters::text_characters, crate::proofs::Characters::text_grown))]
    pub fn push_str(&mut self, text: &str) -> Result<bool, AllocError>
        ensures held { IfOk result (λ b. b ≡ fits_text text.now self.old) }
        ensures added { result ≡ Ok true → self.new ≡ with_added (added_text text.now) self.old }
        ensures full { result ≡ Ok false → self.new ≡ self.old }
        ensures err { OnErr result (self.new ≡ self.old) }
    {
        self.buffer.push_str(text)
    }

    /// The direction, `Invalid` where none was set.
    pub fn direction(&self) -> Direction
        ensures { result ≡ self.now.direction }
    {
        self.buffer.direction()
    }

    /// Sets the direction of the text.
    pub fn set_direction(&mut self, direction: Direction)
        ensures { self.new ≡ with_segment direction self.old.script self.old }
    {
        self.buffer.set_direction(direction);
    }

    /// The script, `UNKNOWN` where none was set.
    pub fn script(&self) -> Script
        ensures { result ≡ unwrap_or self.now.script UNKNOWN }
    {
        self.buffer.script().unwrap_or(UNKNOWN)
    }

    /// Sets the script of the text.
    pub fn set_script(&mut self, script: Script)
        ensures { self.new ≡ with_segment self.old.direction (Some script) self.old }
    {
        self.buffer.set_script(Some(script));
    }

    /// The language, if it was set.
    pub fn language(&self) -> Option<&Language>
        ensures { option_copied result ≡ self.now.language }
    {
        self.buffer.language()
    }

    /// Sets the language of the text.
    pub fn set_language(&mut self, language: Language)
        ensures { self.new ≡ with_language (Some language) self.old }
    {
        self.buffer.set_language(Some(language));
    }

    /// Keeps the last five characters of the text before this one, which shape its first letters.
    pub fn set_pre_context(&mut self, text: &str)
        ensures { self.new ≡ with_pre_context (take 5 (reverse (chars text.now))) self.old }
    {
        self.buffer.set_pre_context(text);
    }

    /// Keeps the first five characters of the text after this one, which shape its last letters.
    pub fn set_post_context(&mut self, text: &str)
        ensures { self.new ≡ with_post_context (take 5 (chars text.now)) self.old }
    {
        self.buffer.set_post_context(text);
    }

    /// The requests for the shaping (`hb_buffer_flags_t`).
    pub fn flags(&self) -> BufferFlags
        ensures { result ≡ self.now.flags }
    {
        self.buffer.flags()
    }

    /// Sets the requests for the shaping.
    pub fn set_flags(&mut self, flags: BufferFlags)
        ensures { self.new ≡ with_flags flags self.old }
    {
        self.buffer.set_flags(flags);
    }

    /// Which characters share a cluster, and whether clusters may merge.
    pub fn cluster_level(&self) -> BufferClusterLevel
        ensures { result ≡ self.now.level }
    {
        self.buffer.cluster_level()
    }

    /// Sets the cluster level.
    pub fn set_cluster_level(&mut self, level: BufferClusterLevel)
        ensures { self.new ≡ with_level level self.old }
    {
        self.buffer.set_cluster_level(level);
    }

    /// Sets the glyph that stands for a character that is not to be seen.
    pub fn set_invisible_glyph(&mut self, glyph: GlyphId)
        ensures { self.new ≡ with_invisible (Some glyph.0) self.old }
    {
        self.buffer.set_invisible(Some(glyph));
    }

    /// Sets the glyph that stands for a variation selector that the font does not know.
    pub fn set_not_found_variation_selector_glyph(&mut self, glyph: GlyphId)
        ensures { self.new ≡ with_not_found_variation_selector (Some glyph.0) self.old }
    {
        self.buffer.set_not_found_variation_selector(Some(glyph));
    }

    /// Sets the glyph of a character that the font lacks and that isn't decomposed; glyph 0 (.notdef) where none is set.
    pub fn set_not_found_glyph(&mut self, glyph: GlyphId)
        ensures { self.new ≡ with_not_found glyph.0 self.old }
    {
        self.buffer.set_not_found(glyph);
    }

    /// Sets the clusters of the characters to 0, 1, 2 and so on; those past `u32::MAX` get that number.
    pub fn reset_clusters(&mut self)
        ensures { self.new ≡ with_reset_clusters self.old }
    {
        self.buffer.reset_clusters();
    }

    /// Sets a script that was not set to that of the first character with a script of its own, and a direction that was
    /// not set to that of the script, else to left to right.
    pub fn guess_segment_properties(&mut self)
        ensures { self.new ≡ after_guess_segment_properties self.old }
    {
        self.buffer.guess_segment_properties();
    }

    /// The script that guessing would set: the one that was set, else that of the first character with a script of its
    /// own.
    pub fn guessed_script(&self) -> Option<Script>
        ensures { result ≡ guessed_script self.now }
    {
        match self.buffer.script() {
            Some(script) => Some(script),
            None => first_script(self.buffer.info_slice()),
        }
    }

    /// The direction that guessing would set: the one that was set, else that of the script, else left to right.
    pub fn guessed_direction(&self) -> Direction
        ensures { result ≡ guessed_direction self.now.direction (guessed_script self.now) }
    {
        guessed_direction(self.buffer.direction(), self.guessed_script())
    }

    /// Resets the text to what `new` makes.
    pub fn clear(&mut self)
        ensures { self.new ≡ empty_buffer }
    {
        self.buffer.clear();
    }

    /// The buffer that holds the text.
    pub fn into_buffer(self) -> hb_buffer_t
        ensures same { result ≡ self }
        ensures text { IsText result }
    {
        let UnicodeBuffer { buffer } = self;
        buffer
    }

    /// The text that a buffer holds.
    pub fn from_buffer(buffer: hb_buffer_t) -> UnicodeBuffer
        requires text { IsText buffer }
        ensures { result ≡ buffer }
    {
        UnicodeBuffer { buffer }
    }
}
