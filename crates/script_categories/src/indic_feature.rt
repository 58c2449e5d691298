//! The features of the Indic shaper, by their indices in its list of masks (rustybuzz: hb/ot_shaper_indic.rs).
//!
//! Other lists of numbered names have the same form; each has its own type.
ghost use Rattle.script_categories.specs.Indic.{IndicFeaturesAreInOrder};

pub const NUKT: usize = 0;

pub const AKHN: usize = 1;

pub const RPHF: usize = 2;

pub const RKRF: usize = 3;

pub const PREF: usize = 4;

pub const BLWF: usize = 5;

pub const ABVF: usize = 6;

pub const HALF: usize = 7;

pub const PSTF: usize = 8;

pub const VATU: usize = 9;

pub const CJCT: usize = 10;

pub const INIT: usize = 11;

pub const PRES: usize = 12;

pub const ABVS: usize = 13;

pub const BLWS: usize = 14;

pub const PSTS: usize = 15;

pub const HALN: usize = 16;

/// The features are numbered from 0 on, without gaps.
pub fn law_indic_features_are_in_order()
    ensures { IndicFeaturesAreInOrder }
{}
