//! The actions on Thai marks and consonants in fonts with private-use presentation forms (rustybuzz:
//! hb/ot_shaper_thai.rs).
ghost use Rattle.std.specs.Prelude.{◌≡◌};
ghost use Rattle.script_categories.specs.Thai.{thai_actions, ThaiActionsAreNumbered};
ghost use Rattle.script_categories.specs.Names.{number_of};

use crate::names::number_of;

/// Shift a mark down.
pub const SD: u8 = 0;
/// Shift a mark down and left.
pub const SDL: u8 = 1;
/// Shift a mark left.
pub const SL: u8 = 2;
/// Remove a consonant's descender.
pub const RD: u8 = 3;

/// The names of the actions.
const NAMES: [(&str, u8); 4] = [("SD", SD), ("SDL", SDL), ("SL", SL), ("RD", RD)];

/// The action of a name.
pub fn thai_action_number(name: &str) -> Option<u8>
    ensures { result ≡ number_of thai_actions name.now }
{
    number_of(&NAMES, name)
}

/// The actions are numbered from 0 on, without gaps, and each has a name of its own.
#[tactic(auto, using(crate::proofs::Tables::thai_actions_are_numbered))]
pub fn law_thai_actions_are_numbered()
    ensures { ThaiActionsAreNumbered }
{}
