//! Laws of `==`: it holds exactly between a value and itself.
ghost use Rattle.std.specs.Prelude.{◌≡◌, ◌≢◌, MatchBool};

use crate::joining_types::hb_arabic_joining_type_t;
use crate::shaper::hb_ot_script_shaper_t;

/// `==` of joining types holds exactly between equal ones.
pub fn law_joining_types_are_equal(
    left: hb_arabic_joining_type_t,
    right: hb_arabic_joining_type_t,
) -> bool
    ensures { MatchBool result (left ≡ right) (left ≢ right) }
{
    left == right
}

/// `==` of shapers holds exactly between equal ones.
pub fn law_shapers_are_equal(left: hb_ot_script_shaper_t, right: hb_ot_script_shaper_t) -> bool
    ensures { MatchBool result (left ≡ right) (left ≢ right) }
{
    left == right
}
