//! The lookup of a language's OpenType tags (rustybuzz: hb/tag.rs).
ghost use Rattle.std.specs.Prelude.{◌≡◌, List, ℕ};
ghost use Rattle.buffer_common.specs.declared.tag.Tag.{Tag};

use crate::tag::Tag;
use arrayvec::ArrayVec;

/// The OpenType language system tags of a language, the first wanted first.
pub trait LanguageTags {
    ghost tags_of: { Self → List ℕ → List Tag };

    /// The tags of a language by its BCP 47 tag; none where it has none.
    fn tags(&self, text: &str) -> ArrayVec<Tag, 3>
        ensures { result.items ≡ tags_of self.now text.now };
}
