//! OpenType tags (rustybuzz: hb/common.rs, `TagExt`).
ghost use Rattle.std.specs.Prelude.{◌≡◌, codes};
ghost use Rattle.std.specs.List.{slice_index_or};
ghost use Rattle.buffer_common.specs.Tag.{tag_of, bytes_of, tag_of_text, uppercase_tag};

/// An OpenType tag: four bytes as one number, the first byte highest.
#[derive(Clone, Copy, PartialEq, Eq, Debug, Default, Hash)]
pub struct Tag(pub u32);

/// HarfBuzz's name of a tag.
pub type hb_tag_t = Tag;

macro_rules! tag {
    ($text:expr) => {
        $crate::tag::Tag(
            (($text[0] as u32) << 24)
                | (($text[1] as u32) << 16)
                | (($text[2] as u32) << 8)
                | ($text[3] as u32),
        )
    };
}

pub(crate) use tag;

impl Tag {
    /// The tag of four bytes.
    pub const fn from_bytes(bytes: &[u8; 4]) -> Tag
        ensures { result ≡ tag_of bytes.now }
    {
        Tag(u32::from_be_bytes(*bytes))
    }

    /// The tag of the first four bytes, filled with spaces; of no bytes the zero tag.
    #[tactic(auto, using(crate::proofs::Texts::first_four))]
    pub fn from_bytes_lossy(bytes: &[u8]) -> Tag
        ensures { result ≡ tag_of_text bytes.now }
    {
        if bytes.is_empty() {
            return Tag(0);
        }
        Tag::from_bytes(&[
            byte_or_space(bytes, 0),
            byte_or_space(bytes, 1),
            byte_or_space(bytes, 2),
            byte_or_space(bytes, 3),
        ])
    }

    /// The four bytes of the tag.
    pub const fn to_bytes(self) -> [u8; 4]
        ensures { result ≡ bytes_of self }
    {
        self.0.to_be_bytes()
    }
}

fn byte_or_space(bytes: &[u8], index: usize) -> u8
    ensures { result ≡ slice_index_or bytes.now index 32 }
{
    bytes.get(index).copied().unwrap_or(b' ')
}

/// Tags with a meaning of their own in OpenType's registry.
pub trait TagExt: Sized {
    ghost use Rattle.buffer_common.specs.declared.tag.Tag.{Tag};

    ghost tag_value: { Self → Tag };

    /// The script `DFLT` of a font, for scripts without a script table.
    fn default_script() -> Self
        ensures { tag_value result ≡ tag_of (codes "DFLT") };

    /// The language system `dflt` of a script, for languages without one.
    fn default_language() -> Self
        ensures { tag_value result ≡ tag_of (codes "dflt") };

    /// The tag with its small letters of ASCII made capitals.
    fn to_uppercase(&self) -> Self
        ensures { tag_value result ≡ uppercase_tag (tag_value self.now) };
}

impl TagExt for Tag {
    ghost tag_value = { λ tag. tag };

    fn default_script() -> Tag {
        tag!(b"DFLT")
    }

    fn default_language() -> Tag {
        tag!(b"dflt")
    }

    fn to_uppercase(&self) -> Tag {
        let [first, second, third, fourth] = self.to_bytes();
        Tag::from_bytes(&[
            first.to_ascii_uppercase(),
            second.to_ascii_uppercase(),
            third.to_ascii_uppercase(),
            fourth.to_ascii_uppercase(),
        ])
    }
}
