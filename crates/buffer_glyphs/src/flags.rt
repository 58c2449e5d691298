//! The bits of glyph records and of printing (rustybuzz: hb/buffer.rs, hb/ot_layout.rs).
//!
//! Each set of flags has its impl of `Flags`: rt takes no impl that a macro of a repository writes.
ghost use Rattle.std.specs.Prelude.{⊤, [], ◌∷◌, codes};

use bitflags::{Flag, Flags, bitflag_items};

/// The class of a glyph by GDEF, and the substitutions that made it.
#[derive(Clone, Copy, PartialEq, Eq, Debug, Default)]
pub struct GlyphPropsFlags(pub u16);

bitflag_items! {
    impl GlyphPropsFlags: u16 {
        const BASE_GLYPH = 2;
        const LIGATURE = 4;
        const MARK = 8;
        const SUBSTITUTED = 16;
        const LIGATED = 32;
        const MULTIPLIED = 64;
        const PRESERVE = 112;
    }
}

impl Flags for GlyphPropsFlags {
    type Bits = u16;

    ghost exact = { ⊤ };

    ghost table = { (codes "BASE_GLYPH", 2) ∷ (codes "LIGATURE", 4) ∷ (codes "MARK", 8) ∷ (codes "SUBSTITUTED", 16)
        ∷ (codes "LIGATED", 32) ∷ (codes "MULTIPLIED", 64) ∷ (codes "PRESERVE", 112) ∷ [] };

    ghost set_of = { λ p. p.0 };

    fn flags<'a>() -> &'a [Flag<GlyphPropsFlags>] {
        GlyphPropsFlags::FLAGS
    }

    fn bits(&self) -> u16 {
        self.0
    }

    fn from_bits_retain(bits: u16) -> GlyphPropsFlags {
        GlyphPropsFlags(bits)
    }
}

/// The property word of a character: the number of its general category in the low five bits, and bits of its
/// treatment.
#[derive(Clone, Copy, PartialEq, Eq, Debug, Default)]
pub struct UnicodeProps(pub u16);

bitflag_items! {
    impl UnicodeProps: u16 {
        const GENERAL_CATEGORY = 0x1F;
        const IGNORABLE = 0x20;
        const HIDDEN = 0x40;
        const CONTINUATION = 0x80;
        const CF_ZWJ = 0x100;
        const CF_ZWNJ = 0x200;
        const CF_VS = 0x400;
    }
}

impl Flags for UnicodeProps {
    type Bits = u16;

    ghost exact = { ⊤ };

    ghost table = { (codes "GENERAL_CATEGORY", 0x1F) ∷ (codes "IGNORABLE", 0x20) ∷ (codes "HIDDEN", 0x40)
        ∷ (codes "CONTINUATION", 0x80) ∷ (codes "CF_ZWJ", 0x100) ∷ (codes "CF_ZWNJ", 0x200) ∷ (codes "CF_VS", 0x400)
        ∷ [] };

    ghost set_of = { λ p. p.0 };

    fn flags<'a>() -> &'a [Flag<UnicodeProps>] {
        UnicodeProps::FLAGS
    }

    fn bits(&self) -> u16 {
        self.0
    }

    fn from_bits_retain(bits: u16) -> UnicodeProps {
        UnicodeProps(bits)
    }
}

/// The fields that are printed of a glyph.
#[derive(Clone, Copy, PartialEq, Eq, Debug, Default)]
pub struct SerializeFlags(pub u8);

bitflag_items! {
    impl SerializeFlags: u8 {
        const NO_CLUSTERS = 1;
        const NO_POSITIONS = 2;
        const NO_GLYPH_NAMES = 4;
        const GLYPH_EXTENTS = 8;
        const GLYPH_FLAGS = 16;
        const NO_ADVANCES = 32;
    }
}

impl SerializeFlags {
    /// Names, clusters and positions, with all advances.
    pub const DEFAULT: SerializeFlags = SerializeFlags(0);
}

impl Flags for SerializeFlags {
    type Bits = u8;

    ghost exact = { ⊤ };

    ghost table = { (codes "NO_CLUSTERS", 1) ∷ (codes "NO_POSITIONS", 2) ∷ (codes "NO_GLYPH_NAMES", 4)
        ∷ (codes "GLYPH_EXTENTS", 8) ∷ (codes "GLYPH_FLAGS", 16) ∷ (codes "NO_ADVANCES", 32) ∷ [] };

    ghost set_of = { λ p. p.0 };

    fn flags<'a>() -> &'a [Flag<SerializeFlags>] {
        SerializeFlags::FLAGS
    }

    fn bits(&self) -> u8 {
        self.0
    }

    fn from_bits_retain(bits: u8) -> SerializeFlags {
        SerializeFlags(bits)
    }
}
