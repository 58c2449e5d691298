//! The types of spaces, by which a space that the font lacks gets its width (rustybuzz: hb/unicode.rs,
//! `hb_unicode_funcs_t::space_t`).
//!
//! Other lists of numbered names have the same form; each has its own type.
ghost use Rattle.buffer_unicode.specs.Spaces.{SpaceTypesAreListed};

/// The type of a space: for the types named `EM`, the fraction of an em.
pub type space_t = u8;

/// No space.
pub const NOT_SPACE: space_t = 0;

pub const SPACE_EM: space_t = 1;

pub const SPACE_EM_2: space_t = 2;

pub const SPACE_EM_3: space_t = 3;

pub const SPACE_EM_4: space_t = 4;

pub const SPACE_EM_5: space_t = 5;

pub const SPACE_EM_6: space_t = 6;

pub const SPACE_EM_16: space_t = 16;
/// Four eighteenths of an em.
pub const SPACE_4_EM_18: space_t = 17;
/// The width of U+0020.
pub const SPACE: space_t = 18;
/// The width of a digit.
pub const SPACE_FIGURE: space_t = 19;
/// The width of a full stop.
pub const SPACE_PUNCTUATION: space_t = 20;

pub const SPACE_NARROW: space_t = 21;

/// The types of spaces have their numbers: those of the fractions of an em are the denominators.
pub fn law_space_types_are_listed()
    ensures { SpaceTypesAreListed }
{}
