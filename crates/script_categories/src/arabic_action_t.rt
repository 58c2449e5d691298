//! The actions of Arabic joining: a letter's form, and the two kinds of stretching tiles (rustybuzz:
//! hb/ot_shaper_arabic.rs).
ghost use Rattle.std.specs.Prelude.{◌≡◌, ◌==◌, ◌||◌};
ghost use Rattle.script_categories.specs.Arabic.{ActionsAreInOrder};

/// Isolated form.
pub const ISOL: u8 = 0;

/// Final form.
pub const FINA: u8 = 1;

/// Second final form, of Syriac Alaph.
pub const FIN2: u8 = 2;

/// Third final form, of Syriac Alaph.
pub const FIN3: u8 = 3;

/// Medial form.
pub const MEDI: u8 = 4;

/// Second medial form, of Syriac Alaph.
pub const MED2: u8 = 5;

/// Initial form.
pub const INIT: u8 = 6;

/// No form.
pub const NONE: u8 = 7;

/// A fixed stretching tile.
pub const STRETCHING_FIXED: u8 = 8;

/// A repeating stretching tile.
pub const STRETCHING_REPEATING: u8 = 9;

/// Whether an action is that of a stretching tile.
pub fn is_stch(action: u8) -> bool
    ensures { result ≡ (action == STRETCHING_FIXED || action == STRETCHING_REPEATING) }
{
    action == STRETCHING_FIXED || action == STRETCHING_REPEATING
}

/// The actions are numbered from 0 on, without gaps.
pub fn law_actions_are_in_order()
    ensures { ActionsAreInOrder }
{}
