//! The text around the shaped text, five characters on each side (rustybuzz: hb/buffer.rs, `context`).
ghost use Rattle.std.specs.Prelude.{◌≡◌, ◌<◌, ◌++◌, ◌∷◌, [], length, reverse, take};
ghost use Rattle.std.specs.Char.{IsScalar};
ghost use Rattle.std.specs.Str.{chars};
ghost use Rattle.buffer_core.specs.Settings.{with_post_context, with_pre_context};

use super::hb_buffer_t;
use arrayvec::ArrayVec;

impl hb_buffer_t {
    /// The characters before the shaped text, nearest first, five at most.
    pub fn pre_context(&self) -> &[char]
        ensures { result.now ≡ self.now.pre_context }
    {
        &self.pre_context
    }

    /// Keeps the last five characters of the text before. It takes no memory.
    pub fn set_pre_context(&mut self, text: &str)
        ensures { self.new ≡ with_pre_context (take 5 (reverse (chars text.now))) self.old }
    {
        self.pre_context = last_characters(text);
    }

    /// The characters after the shaped text, nearest first, five at most.
    pub fn post_context(&self) -> &[char]
        ensures { result.now ≡ self.now.post_context }
    {
        &self.post_context
    }

    /// Keeps the first five characters of the text after. It takes no memory.
    pub fn set_post_context(&mut self, text: &str)
        ensures { self.new ≡ with_post_context (take 5 (chars text.now)) self.old }
    {
        self.post_context = first_characters(text);
    }
}

fn first_characters(text: &str) -> ArrayVec<char, 5>
    ensures { result.items ≡ take 5 (chars text.now) }
{
    let mut characters = ArrayVec::new();
    for c in text.chars() {
        if characters.is_full() {
            return characters;
        }
        characters.push(c);
    }
    characters
}

fn last_characters(text: &str) -> ArrayVec<char, 5>
    ensures { result.items ≡ take 5 (reverse (chars text.now)) }
{
    let mut characters = ArrayVec::new();
    for c in text.chars().rev() {
        if characters.is_full() {
            return characters;
        }
        push_character(&mut characters, c);
    }
    characters
}

fn push_character(characters: &mut ArrayVec<char, 5>, c: char)
    requires { length characters.old.items < 5 }
    ensures items { characters.new.items ≡ characters.old.items ++ c ∷ [] }
    ensures scalar { IsScalar c }
{
    characters.push(c);
}
