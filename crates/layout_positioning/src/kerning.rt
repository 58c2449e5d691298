//! Kerning by tables other than GPOS (rustybuzz: hb/ot_layout.rs): a parsed font has none.
ghost use Rattle.std.specs.Prelude.{◌≡◌, false};

use layout_face::Face;

/// Whether the font has kerning outside GPOS (always false here).
pub fn hb_ot_layout_has_kerning(_face: &Face) -> bool
    ensures { result ≡ false }
{
    false
}

/// Whether that kerning is by a state machine (always false here).
pub fn hb_ot_layout_has_machine_kerning(_face: &Face) -> bool
    ensures { result ≡ false }
{
    false
}

/// Whether the font has cross-stream kerning (always false here).
pub fn hb_ot_layout_has_cross_kerning(_face: &Face) -> bool
    ensures { result ≡ false }
{
    false
}
