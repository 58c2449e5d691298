//! Script and direction of a text where none was set (rustybuzz: hb/buffer.rs, `guess_segment_properties`).
ghost use Rattle.std.specs.Prelude.{◌≡◌, if◌then◌else◌, Some, None, false};
ghost use Rattle.buffer_unicode.specs.Scripts.{script_of};
ghost use Rattle.buffer_core.specs.Segment.{first_script, after_guess_segment_properties, guessed_direction, is_shared, has_own_script, with_segment};

use super::hb_buffer_t;
use buffer_common::direction::Direction;
use buffer_common::script::{COMMON, INHERITED, Script, UNKNOWN};
use buffer_glyphs::info::hb_glyph_info_t;
use buffer_unicode::CharExt;

impl hb_buffer_t {
    /// The direction, `Invalid` where none was set.
    pub fn direction(&self) -> Direction
        ensures { result ≡ self.now.direction }
    {
        self.direction
    }

    /// Sets the direction of the text.
    pub fn set_direction(&mut self, direction: Direction)
        ensures { self.new ≡ with_segment direction self.old.script self.old }
    {
        self.direction = direction;
    }

    /// The script, if one was set.
    pub fn script(&self) -> Option<Script>
        ensures { result ≡ self.now.script }
    {
        self.script
    }

    /// Sets the script of the text.
    pub fn set_script(&mut self, script: Option<Script>)
        ensures { self.new ≡ with_segment self.old.direction script self.old }
    {
        self.script = script;
    }

    /// Sets a script that was not set to that of the first character with a script of its own, and a direction that was
    /// not set to that of the script, else to left to right.
    pub fn guess_segment_properties(&mut self)
        requires { self.old.is_open ≡ false }
        ensures { self.new ≡ after_guess_segment_properties self.old }
    {
        self.script = self.script.or(first_script(&self.info));
        self.direction = guessed_direction(self.direction, self.script);
    }
}

/// The script of the first character with a script of its own: not Common, Inherited or Unknown.
pub fn first_script(glyphs: &[hb_glyph_info_t]) -> Option<Script>
    ensures { result ≡ first_script glyphs.now }
{
    for glyph in glyphs {
        if let Some(script) = own_script(glyph.glyph_id) {
            return Some(script);
        }
    }
    None
}

fn own_script(number: u32) -> Option<Script>
    ensures { result ≡ (if has_own_script number then Some (script_of number) else None) }
{
    let script = char::from_u32(number)?.script();
    if is_shared(script) {
        None
    } else {
        Some(script)
    }
}

fn is_shared(script: Script) -> bool
    ensures { result ≡ is_shared script }
{
    script == COMMON || script == INHERITED || script == UNKNOWN
}

/// The direction that was set, else that of the script, else left to right.
pub fn guessed_direction(direction: Direction, script: Option<Script>) -> Direction
    ensures { result ≡ guessed_direction direction script }
{
    if direction != Direction::Invalid {
        return direction;
    }
    match script {
        Some(script) => Direction::from_script(script).unwrap_or(Direction::LeftToRight),
        None => Direction::LeftToRight,
    }
}
