//! Which hooks each script's shaper has: those of rustybuzz's table of it (rustybuzz: hb/ot_shaper.rs). What a hook does
//! is in the impls of `hb_ot_shaper_t` and `PlannedShaper` for `hb_ot_any_shaper_t`.
//!
//! The tests of which hooks a shaper has (`has_collect_features` and its like) have clauses of one form, each by its
//! own definition.
ghost use Rattle.std.specs.Prelude.{◌≡◌, Bool};
ghost use Rattle.script_dispatch.specs.Present.{collects_features, composes, creates_data, decomposes, overrides_features, postprocesses_glyphs, preprocesses_text, reorders_marks, sets_masks};
ghost use Rattle.script_dispatch.specs.Present.{RequestsNothing, ComposesAsUnicode, LeavesGlyphs, LeavesMarks, LeavesMasks, LeavesText, OverridesNothing, SplitsAsUnicode};

use crate::plan_data::{hb_script_plan_data_t, indic_features, jamo_masks, khmer_masks};
use buffer_common::script::Script;
use buffer_common::tag::Tag;
use layout_map::map::hb_ot_map_t;
use script_arabic::masks::data_create_arabic;
use script_categories::hb_ot_script_shaper_t::{
    self, ARABIC_SHAPER, HANGUL_SHAPER, HEBREW_SHAPER, INDIC_SHAPER, KHMER_SHAPER, MYANMAR_SHAPER,
    THAI_SHAPER, UNIVERSAL_SHAPER,
};
use std::alloc::AllocError;

/// Which hooks a script's shaper has, and what it makes of a map. A missing hook changes nothing; an existing one may
/// change nothing in a given text.
pub trait ScriptHooks: Sized {
    ghost use Rattle.std.specs.Prelude.{◌≡◌, Bool, Ok, Option};
    ghost use Rattle.buffer_common.specs.declared.script.Script.{Script};
    ghost use Rattle.layout_map.specs.Compiled.{OtMapValue};
    ghost use Rattle.script_dispatch.specs.declared.plan_data.hb_script_plan_data_t.{hb_script_plan_data_t};

    ghost collects: { Self → Bool };

    ghost overrides: { Self → Bool };

    ghost creates: { Self → Bool };

    ghost preprocesses: { Self → Bool };

    ghost postprocesses: { Self → Bool };

    ghost splits: { Self → Bool };

    ghost recomposes: { Self → Bool };

    ghost masks: { Self → Bool };

    ghost reorders: { Self → Bool };

    ghost own_data: { Self → OtMapValue → Option Script → hb_script_plan_data_t };

    /// Whether it requests features, between the common ones and the user's.
    fn has_collect_features(self) -> bool
        ensures { result ≡ collects self };

    /// Whether it requests features after the user's.
    fn has_override_features(self) -> bool
        ensures { result ≡ overrides self };

    /// Whether it makes its own data of a plan, by the map's masks.
    fn has_create_data(self) -> bool
        ensures { result ≡ creates self };

    /// Whether it changes texts before they are normalized.
    fn has_preprocess_text(self) -> bool
        ensures { result ≡ preprocesses self };

    /// Whether it changes glyphs in visual order.
    fn has_postprocess_glyphs(self) -> bool
        ensures { result ≡ postprocesses self };

    /// Whether it has its own rule for decomposing characters.
    fn has_decompose(self) -> bool
        ensures { result ≡ splits self };

    /// Whether it has its own rule for composing characters.
    fn has_compose(self) -> bool
        ensures { result ≡ recomposes self };

    /// Whether it sets masks or categories.
    fn has_setup_masks(self) -> bool
        ensures { result ≡ masks self };

    /// Whether it has its own order of marks.
    fn has_reorder_marks(self) -> bool
        ensures { result ≡ reorders self };

    /// The shaper's own data of a compiled map, for texts of a script. It takes no memory, so it answers Ok.
    fn create_data(
        self,
        map: &hb_ot_map_t,
        script: Option<Script>,
    ) -> Result<hb_script_plan_data_t, AllocError>
        ensures { result ≡ Ok (own_data self map.now script) };
}

impl ScriptHooks for hb_ot_script_shaper_t {
    ghost use Rattle.script_dispatch.specs.PlanData.{script_data};

    ghost collects = { collects_features };

    ghost overrides = { overrides_features };

    ghost creates = { creates_data };

    ghost preprocesses = { preprocesses_text };

    ghost postprocesses = { postprocesses_glyphs };

    ghost splits = { decomposes };

    ghost recomposes = { composes };

    ghost masks = { sets_masks };

    ghost reorders = { reorders_marks };

    ghost own_data = { script_data };

    fn has_collect_features(self) -> bool
        ensures { result ≡ collects_features self }
    {
        matches!(
            self,
            ARABIC_SHAPER
                | HANGUL_SHAPER
                | INDIC_SHAPER
                | KHMER_SHAPER
                | MYANMAR_SHAPER
                | UNIVERSAL_SHAPER
        )
    }

    fn has_override_features(self) -> bool
        ensures { result ≡ overrides_features self }
    {
        matches!(self, HANGUL_SHAPER | INDIC_SHAPER | KHMER_SHAPER)
    }

    fn has_create_data(self) -> bool
        ensures { result ≡ creates_data self }
    {
        matches!(
            self,
            ARABIC_SHAPER | HANGUL_SHAPER | INDIC_SHAPER | KHMER_SHAPER | UNIVERSAL_SHAPER
        )
    }

    fn has_preprocess_text(self) -> bool
        ensures { result ≡ preprocesses_text self }
    {
        matches!(
            self,
            HANGUL_SHAPER | INDIC_SHAPER | THAI_SHAPER | UNIVERSAL_SHAPER
        )
    }

    fn has_postprocess_glyphs(self) -> bool
        ensures { result ≡ postprocesses_glyphs self }
    {
        matches!(self, ARABIC_SHAPER)
    }

    fn has_decompose(self) -> bool
        ensures { result ≡ decomposes self }
    {
        matches!(self, INDIC_SHAPER | KHMER_SHAPER)
    }

    fn has_compose(self) -> bool
        ensures { result ≡ composes self }
    {
        matches!(
            self,
            HEBREW_SHAPER | INDIC_SHAPER | KHMER_SHAPER | UNIVERSAL_SHAPER
        )
    }

    fn has_setup_masks(self) -> bool
        ensures { result ≡ sets_masks self }
    {
        matches!(
            self,
            ARABIC_SHAPER
                | HANGUL_SHAPER
                | INDIC_SHAPER
                | KHMER_SHAPER
                | MYANMAR_SHAPER
                | UNIVERSAL_SHAPER
        )
    }

    fn has_reorder_marks(self) -> bool
        ensures { result ≡ reorders_marks self }
    {
        matches!(self, ARABIC_SHAPER | HEBREW_SHAPER)
    }

    fn create_data(
        self,
        map: &hb_ot_map_t,
        script: Option<Script>,
    ) -> Result<hb_script_plan_data_t, AllocError> {
        Ok(match self {
            ARABIC_SHAPER => hb_script_plan_data_t::Arabic(data_create_arabic(map, script)),
            HANGUL_SHAPER => hb_script_plan_data_t::Hangul(jamo_masks(map)),
            INDIC_SHAPER => hb_script_plan_data_t::Indic(indic_features(map, script)),
            KHMER_SHAPER => hb_script_plan_data_t::Khmer(khmer_masks(map)),
            UNIVERSAL_SHAPER => {
                hb_script_plan_data_t::Universal(map.get_1_mask(Tag::from_bytes(b"rphf")))
            }
            _ => hb_script_plan_data_t::None,
        })
    }
}

/// A missing hook changes nothing: it requests no feature, leaves texts, masks, glyphs and the order of marks
/// unchanged, and characters decompose and compose as Unicode says.
#[tactic(auto, using(crate::proofs::Present::asks_nothing, crate::proofs::Present::overrides_nothing, crate::proofs::Present::leaves_text, crate::proofs::Present::leaves_masks, crate::proofs::Present::leaves_glyphs, crate::proofs::Present::splits_as_unicode, crate::proofs::Present::composes_as_unicode, crate::proofs::Present::leaves_marks))]
pub fn law_absent_hooks_change_nothing()
    ensures asks { RequestsNothing }
    ensures overrides { OverridesNothing }
    ensures text { LeavesText }
    ensures masks { LeavesMasks }
    ensures glyphs { LeavesGlyphs }
    ensures splits { SplitsAsUnicode }
    ensures composes { ComposesAsUnicode }
    ensures marks { LeavesMarks }
{}
