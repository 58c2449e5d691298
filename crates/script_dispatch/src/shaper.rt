//! The pipeline's hooks of the shapers of this stack: from a shaper to the crate of its script (rustybuzz:
//! hb/ot_shaper.rs).
use crate::any_shaper::hb_ot_any_shaper_t;
use buffer_core::buffer::hb_buffer_t;
use buffer_glyphs::cause::ShapeCause;
use buffer_unicode_tables::UnicodeTables;
use layout_face::Face;
use script_categories::SyllableSpans;
use script_categories::hb_ot_script_shaper_t::{
    ARABIC_SHAPER, HANGUL_SHAPER, HEBREW_SHAPER, INDIC_SHAPER, KHMER_SHAPER, MYANMAR_SHAPER,
    THAI_SHAPER, UNIVERSAL_SHAPER,
};
use script_categories::hb_script_pause_t::{
    self, ClearSubstitutionFlags, ClearSyllables, FinalReordering, InitialReordering, RecordPref,
    RecordRphf, RecordStch, ReorderKhmer, ReorderMyanmar, ReorderUse, SetupSyllables,
};
use script_plan::hb_ot_shaper_t;
use script_plan::plan::hb_script_plan_t;
use script_syllabic::pauses::setup_syllables;
use script_universal::pauses::setup_syllables as setup_use_syllables;
use std::alloc::Global;

/// The default and the dumber shaper have no hooks; each script's shaper has its own.
impl hb_ot_shaper_t for hb_ot_any_shaper_t {
    ghost use Rattle.script_dispatch.specs.Shapers.{keeps_order};
    ghost use Rattle.script_dispatch.specs.Rules.{rules_of};
    ghost use Rattle.script_dispatch.specs.Lemmas.Limits.{rules_depend_on_no_limit};
    ghost use Rattle.script_dispatch.specs.Lemmas.Orders.{keeps_count, rules_keep_parts};
    ghost use Rattle.script_dispatch.specs.Lemmas.Splits.{splits_end};

    ghost rules = { rules_of };

    ghost keeps_order = { keeps_order };

    ghost splits_end = { splits_end };

    ghost keeps_count = { keeps_count };

    ghost rules_keep_parts = { λ shaper plan _. rules_keep_parts shaper plan };

    ghost rules_depend_on_no_limit = { rules_depend_on_no_limit };

    #[tactic(auto, using(script_plan::specs::Lemmas::Unchanged::unchanged_followed))]
    fn preprocess_text(
        &self,
        plan: &hb_script_plan_t<()>,
        face: &Face,
        tables: &UnicodeTables,
        buffer: &mut hb_buffer_t,
    ) -> Result<(), ShapeCause> {
        match *self {
            hb_ot_any_shaper_t::Script(THAI_SHAPER) => {
                script_thai::text::preprocess_text(&plan.map, plan.script, face, tables, buffer)
            }
            hb_ot_any_shaper_t::Script(HANGUL_SHAPER) => {
                script_hangul::text::preprocess_text(face, buffer)
            }
            _ => Ok(()),
        }
    }

    fn decompose(
        &self,
        _plan: &hb_script_plan_t<()>,
        tables: &UnicodeTables,
        ab: char,
    ) -> Option<(char, char)> {
        match *self {
            hb_ot_any_shaper_t::Script(INDIC_SHAPER) => {
                script_indic::characters::decompose(tables, ab)
            }
            hb_ot_any_shaper_t::Script(KHMER_SHAPER) => script_khmer::khmer::decompose(tables, ab),
            _ => buffer_unicode_tables::decompose(tables, ab),
        }
    }

    fn compose(
        &self,
        plan: &hb_script_plan_t<()>,
        tables: &UnicodeTables,
        a: char,
        b: char,
    ) -> Option<char> {
        match *self {
            hb_ot_any_shaper_t::Script(HEBREW_SHAPER) => {
                script_hebrew::hebrew::compose(tables, plan.has_gpos_mark, a, b)
            }
            hb_ot_any_shaper_t::Script(INDIC_SHAPER) => {
                script_indic::characters::compose(tables, a, b)
            }
            hb_ot_any_shaper_t::Script(KHMER_SHAPER | UNIVERSAL_SHAPER) => {
                script_syllabic::characters::compose(tables, a, b)
            }
            _ => buffer_unicode_tables::compose(tables, a, b),
        }
    }

    #[tactic(auto, using(script_plan::specs::Lemmas::Unchanged::unchanged_run))]
    fn reorder_marks(
        &self,
        _plan: &hb_script_plan_t<()>,
        buffer: &mut hb_buffer_t,
        start: usize,
        end: usize,
    ) {
        match *self {
            hb_ot_any_shaper_t::Script(ARABIC_SHAPER) => {
                script_arabic::mark_order::reorder_marks(buffer, start, end)
            }
            hb_ot_any_shaper_t::Script(HEBREW_SHAPER) => {
                script_hebrew::mark_order::reorder_marks(buffer, start, end)
            }
            _ => {}
        }
    }

    /// Sets the masks of features that apply to some characters only, and the characters' categories. It takes no
    /// memory.
    #[tactic(auto, using(script_plan::specs::Lemmas::Unchanged::unchanged_followed))]
    fn setup_masks(
        &self,
        plan: &hb_script_plan_t<()>,
        _face: &Face,
        tables: &UnicodeTables,
        buffer: &mut hb_buffer_t,
    ) -> Result<(), ShapeCause> {
        match *self {
            hb_ot_any_shaper_t::Script(ARABIC_SHAPER) => {
                script_arabic::masks::setup_masks(&plan.map, plan.script, tables, buffer)
            }
            hb_ot_any_shaper_t::Script(HANGUL_SHAPER) => {
                script_hangul::map_masks::setup_masks(&plan.map, buffer)
            }
            hb_ot_any_shaper_t::Script(INDIC_SHAPER) => {
                script_indic::categories::setup_masks(tables, buffer)
            }
            hb_ot_any_shaper_t::Script(KHMER_SHAPER | MYANMAR_SHAPER) => {
                script_syllabic::categories::set_ot_categories(tables, buffer)
            }
            hb_ot_any_shaper_t::Script(UNIVERSAL_SHAPER) => {
                script_universal::masks::setup_masks(&plan.map, plan.script, tables, buffer)
            }
            _ => {}
        }
        Ok(())
    }

    #[tactic(auto, using(script_plan::specs::Lemmas::Unchanged::unchanged_done, script_plan::specs::Lemmas::Unchanged::brings_none))]
    fn run_pause<P: SyllableSpans>(
        &self,
        alloc: Global,
        pause: u8,
        plan: &hb_script_plan_t<()>,
        face: &Face,
        _tables: &UnicodeTables,
        spans: &P,
        buffer: &mut hb_buffer_t,
    ) -> Result<bool, ShapeCause> {
        let hb_ot_any_shaper_t::Script(shaper) = *self else {
            return Ok(false);
        };
        let Some(pause) = hb_script_pause_t::from_number(pause) else {
            return Ok(false);
        };
        let (map, script) = (&plan.map, plan.script);
        match pause {
            SetupSyllables => match shaper {
                UNIVERSAL_SHAPER => setup_use_syllables(alloc, spans, map, script, buffer),
                _ => setup_syllables(alloc, spans, shaper, buffer),
            },
            ReorderKhmer => script_khmer::pauses::reorder_khmer(map, face, buffer),
            ReorderMyanmar => script_myanmar::pauses::reorder_myanmar(alloc, face, buffer),
            ReorderUse => script_universal::pauses::reorder_use(face, buffer),
            RecordRphf => script_universal::pauses::record_rphf(map, buffer),
            RecordPref => script_universal::pauses::record_pref(buffer),
            RecordStch => script_arabic::pauses::record_stch(map, buffer),
            ClearSyllables => script_syllabic::pauses::clear_syllables(buffer),
            ClearSubstitutionFlags => script_syllabic::pauses::clear_substitution_flags(buffer),
            InitialReordering => {
                script_indic::reordering::initial_reordering(alloc, map, script, face, buffer)
            }
            FinalReordering => script_indic::reordering::final_reordering(map, script, buffer),
        }
    }

    #[tactic(auto, using(script_plan::specs::Lemmas::Unchanged::unchanged_done))]
    fn postprocess_glyphs(
        &self,
        alloc: Global,
        _plan: &hb_script_plan_t<()>,
        face: &Face,
        buffer: &mut hb_buffer_t,
    ) -> Result<(), ShapeCause> {
        match *self {
            hb_ot_any_shaper_t::Script(ARABIC_SHAPER) => {
                script_arabic::stretch::apply_stch(alloc, face, buffer)
            }
            _ => Ok(()),
        }
    }

    fn keeps_cluster_order(&self) -> bool {
        hb_ot_any_shaper_t::keeps_cluster_order(*self)
    }
}
