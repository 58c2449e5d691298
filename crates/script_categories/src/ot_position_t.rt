//! The positions of characters around the base of a syllable (rustybuzz: hb/ot_shaper_indic.rs).
//!
//! Other lists of numbered names have the same form; each has its own type.
ghost use Rattle.std.specs.Prelude.{◌≡◌};
ghost use Rattle.script_categories.specs.Indic.{ot_positions, PositionsAreNumbered};
ghost use Rattle.script_categories.specs.Names.{number_of};

use crate::names::number_of;

/// A position in a syllable.
pub type Position = u8;

/// At the start.
pub const POS_START: Position = 0;

/// A Ra that becomes a reph.
pub const POS_RA_TO_BECOME_REPH: Position = 1;

/// Left matra.
pub const POS_PRE_M: Position = 2;

/// Consonant before the base.
pub const POS_PRE_C: Position = 3;

/// The base consonant.
pub const POS_BASE_C: Position = 4;

/// After the base.
pub const POS_AFTER_MAIN: Position = 5;

/// Consonant above the base.
pub const POS_ABOVE_C: Position = 6;

/// Before the below-base consonants.
pub const POS_BEFORE_SUB: Position = 7;

/// Consonant below the base.
pub const POS_BELOW_C: Position = 8;

/// After the below-base consonants.
pub const POS_AFTER_SUB: Position = 9;

/// Before the post-base consonants.
pub const POS_BEFORE_POST: Position = 10;

/// Consonant after the base.
pub const POS_POST_C: Position = 11;

/// After the post-base consonants.
pub const POS_AFTER_POST: Position = 12;

/// Syllable modifier or Vedic sign.
pub const POS_SMVD: Position = 13;

/// At the end.
pub const POS_END: Position = 14;

/// The names of the positions.
const NAMES: [(&str, u8); 15] = [
    ("START", POS_START),
    ("RA_TO_BECOME_REPH", POS_RA_TO_BECOME_REPH),
    ("PRE_M", POS_PRE_M),
    ("PRE_C", POS_PRE_C),
    ("BASE_C", POS_BASE_C),
    ("AFTER_MAIN", POS_AFTER_MAIN),
    ("ABOVE_C", POS_ABOVE_C),
    ("BEFORE_SUB", POS_BEFORE_SUB),
    ("BELOW_C", POS_BELOW_C),
    ("AFTER_SUB", POS_AFTER_SUB),
    ("BEFORE_POST", POS_BEFORE_POST),
    ("POST_C", POS_POST_C),
    ("AFTER_POST", POS_AFTER_POST),
    ("SMVD", POS_SMVD),
    ("END", POS_END),
];

/// The position of a name.
pub fn indic_position_number(name: &str) -> Option<Position>
    ensures { result ≡ number_of ot_positions name.now }
{
    number_of(&NAMES, name)
}

/// The positions are numbered from 0 on, without gaps, and each has a name of its own.
#[tactic(auto, using(crate::proofs::Tables::positions_are_numbered))]
pub fn law_positions_are_numbered()
    ensures { PositionsAreNumbered }
{}
