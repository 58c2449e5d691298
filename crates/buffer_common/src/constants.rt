//! The flags of buffers, and the modified combining classes (rustybuzz: hb/buffer.rs, hb/unicode.rs).
//!
//! Other lists of numbered names have the same form; each has its own type.
ghost use Rattle.std.specs.Prelude.{⊤, ◌≡◌, ◌^◌, ◌<◌, ◌≤◌, ◌+◌, ◌-◌, if◌then◌else◌, nat_lt, [], ◌∷◌, codes};
ghost use Rattle.buffer_common.specs.Constants.{CombiningClassesAreListed, ScratchFlagsAreListed};

use bitflags::{Flag, Flags, bitflag_items};

/// The requests for the shaping of a text (`hb_buffer_flags_t`).
#[derive(Clone, Copy, PartialEq, Eq, Debug, Default)]
pub struct BufferFlags(pub u32);

bitflag_items! {
    impl BufferFlags: u32 {
        const BEGINNING_OF_TEXT = 1;
        const END_OF_TEXT = 2;
        const PRESERVE_DEFAULT_IGNORABLES = 4;
        const REMOVE_DEFAULT_IGNORABLES = 8;
        const DO_NOT_INSERT_DOTTED_CIRCLE = 16;
        const PRODUCE_UNSAFE_TO_CONCAT = 64;
        const PRODUCE_SAFE_TO_INSERT_TATWEEL = 128;
        const PRODUCE_SAFE_BREAKS = 256;
    }
}

impl Flags for BufferFlags {
    type Bits = u32;

    ghost exact = { ⊤ };

    ghost table = { (codes "BEGINNING_OF_TEXT", 1) ∷ (codes "END_OF_TEXT", 2) ∷ (codes "PRESERVE_DEFAULT_IGNORABLES", 4)
        ∷ (codes "REMOVE_DEFAULT_IGNORABLES", 8) ∷ (codes "DO_NOT_INSERT_DOTTED_CIRCLE", 16)
        ∷ (codes "PRODUCE_UNSAFE_TO_CONCAT", 64) ∷ (codes "PRODUCE_SAFE_TO_INSERT_TATWEEL", 128)
        ∷ (codes "PRODUCE_SAFE_BREAKS", 256) ∷ [] };

    ghost set_of = { λ p. p.0 };

    fn flags<'a>() -> &'a [Flag<BufferFlags>] {
        BufferFlags::FLAGS
    }

    fn bits(&self) -> u32 {
        self.0
    }

    fn from_bits_retain(bits: u32) -> BufferFlags {
        BufferFlags(bits)
    }
}

/// The flags that the stages of shaping set for each other (`hb_buffer_scratch_flags_t`).
pub type hb_buffer_scratch_flags_t = u32;

pub const HB_BUFFER_SCRATCH_FLAG_DEFAULT: hb_buffer_scratch_flags_t = 0;

pub const HB_BUFFER_SCRATCH_FLAG_HAS_NON_ASCII: hb_buffer_scratch_flags_t = 1;

pub const HB_BUFFER_SCRATCH_FLAG_HAS_DEFAULT_IGNORABLES: hb_buffer_scratch_flags_t = 2;

pub const HB_BUFFER_SCRATCH_FLAG_HAS_SPACE_FALLBACK: hb_buffer_scratch_flags_t = 4;

pub const HB_BUFFER_SCRATCH_FLAG_HAS_GPOS_ATTACHMENT: hb_buffer_scratch_flags_t = 8;

pub const HB_BUFFER_SCRATCH_FLAG_HAS_CGJ: hb_buffer_scratch_flags_t = 16;

pub const HB_BUFFER_SCRATCH_FLAG_HAS_GLYPH_FLAGS: hb_buffer_scratch_flags_t = 32;

pub const HB_BUFFER_SCRATCH_FLAG_HAS_BROKEN_SYLLABLE: hb_buffer_scratch_flags_t = 64;

pub const HB_BUFFER_SCRATCH_FLAG_HAS_VARIATION_SELECTOR_FALLBACK: hb_buffer_scratch_flags_t = 128;

/// The first of the flags for a shaper's own use.
pub const HB_BUFFER_SCRATCH_FLAG_SHAPER0: hb_buffer_scratch_flags_t = 0x1000000;

/// The class by which sheva is ordered.
pub const CCC10: u8 = 22;

/// The class by which hataf segol is ordered.
pub const CCC11: u8 = 15;

/// The class by which hataf patah is ordered.
pub const CCC12: u8 = 16;

/// The class by which hataf qamats is ordered.
pub const CCC13: u8 = 17;

/// The class by which hiriq is ordered.
pub const CCC14: u8 = 23;

/// The class by which tsere is ordered.
pub const CCC15: u8 = 18;

/// The class by which segol is ordered.
pub const CCC16: u8 = 19;

/// The class by which patah is ordered.
pub const CCC17: u8 = 20;

/// The class by which qamats is ordered.
pub const CCC18: u8 = 21;

/// The class by which holam is ordered.
pub const CCC19: u8 = 14;

/// The class by which qubuts is ordered.
pub const CCC20: u8 = 24;

/// The class by which dagesh is ordered.
pub const CCC21: u8 = 12;

/// The class by which meteg is ordered.
pub const CCC22: u8 = 25;

/// The class by which rafe is ordered.
pub const CCC23: u8 = 13;

/// The class by which shin dot is ordered.
pub const CCC24: u8 = 10;

/// The class by which sin dot is ordered.
pub const CCC25: u8 = 11;

/// The class by which varika is ordered.
pub const CCC26: u8 = 26;

/// The class by which fathatan is ordered.
pub const CCC27: u8 = 28;

/// The class by which dammatan is ordered.
pub const CCC28: u8 = 29;

/// The class by which kasratan is ordered.
pub const CCC29: u8 = 30;

/// The class by which fatha is ordered.
pub const CCC30: u8 = 31;

/// The class by which damma is ordered.
pub const CCC31: u8 = 32;

/// The class by which kasra is ordered.
pub const CCC32: u8 = 33;

/// The class by which shadda is ordered.
pub const CCC33: u8 = 27;

/// The class by which sukun is ordered.
pub const CCC34: u8 = 34;

/// The class by which superscript alef is ordered.
pub const CCC35: u8 = 35;

/// The class by which superscript alaph is ordered.
pub const CCC36: u8 = 36;

/// The class by which Telugu length mark is ordered.
pub const CCC84: u8 = 0;

/// The class by which Telugu AI length mark is ordered.
pub const CCC91: u8 = 0;

/// The class by which Thai sara u and sara uu is ordered.
pub const CCC103: u8 = 3;

/// The class by which Thai mai is ordered.
pub const CCC107: u8 = 107;

/// The class by which Lao sign u and sign uu is ordered.
pub const CCC118: u8 = 118;

/// The class by which Lao mai is ordered.
pub const CCC122: u8 = 122;

/// The class by which Tibetan sign aa is ordered.
pub const CCC129: u8 = 129;

/// The class by which Tibetan sign i is ordered.
pub const CCC130: u8 = 132;

/// The class by which Tibetan sign u is ordered.
pub const CCC132: u8 = 131;

/// The number with the one bit.
pub const fn rb_flag(bit: u32) -> u32
    requires { bit < 32 }
    ensures { result ≡ 2 ^ bit }
{
    1u32 << bit
}

/// The number with the one bit, or 0 where 32 bits lack that bit.
pub const fn rb_flag_unsafe(bit: u32) -> u32
    ensures { result ≡ (if nat_lt bit 32 then 2 ^ bit else 0) }
{
    if bit < 32 { rb_flag(bit) } else { 0 }
}

/// The number with the bits from the first to the last.
pub const fn rb_flag_range(first: u32, last: u32) -> u32
    requires ordered { first ≤ last }
    requires within { last < 32 }
    ensures { result ≡ 2 ^ (last + 1) - 2 ^ first }
{
    (rb_flag64(last + 1) - rb_flag64(first)) as u32
}

/// The number with the one bit.
pub const fn rb_flag64(bit: u32) -> u64
    requires { bit < 64 }
    ensures { result ≡ 2 ^ bit }
{
    1u64 << bit
}

/// The number with the one bit, or 0 where 64 bits lack that bit.
pub const fn rb_flag64_unsafe(bit: u32) -> u64
    ensures { result ≡ (if nat_lt bit 64 then 2 ^ bit else 0) }
{
    if bit < 64 { rb_flag64(bit) } else { 0 }
}

/// Each class constant has its value.
#[tactic(auto, using(crate::proofs::Tables::combining_classes_are_listed))]
pub fn law_combining_classes()
    ensures { CombiningClassesAreListed }
{}

/// Each scratch flag has its bit.
#[tactic(auto, using(crate::proofs::Tables::scratch_flags_are_listed))]
pub fn law_scratch_flags()
    ensures { ScratchFlagsAreListed }
{}
