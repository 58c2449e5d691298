//! The features of the Khmer shaper, by their indices in its list of masks (rustybuzz: hb/ot_shaper_khmer.rs).
ghost use Rattle.script_categories.specs.Indic.{KhmerFeaturesAreInOrder};

pub const PREF: usize = 0;

pub const BLWF: usize = 1;

pub const ABVF: usize = 2;

pub const PSTF: usize = 3;

pub const CFAR: usize = 4;

/// The features are numbered from 0 on, without gaps.
pub fn law_khmer_features_are_in_order()
    ensures { KhmerFeaturesAreInOrder }
{}
