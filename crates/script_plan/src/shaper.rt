//! The trait of a shaper (rustybuzz: hb/ot_shaper.rs).

ghost use Rattle.buffer_stages.specs.Ready.{HoldsGlyphs};

use crate::plan::hb_script_plan_t;
use crate::planned::PlannedShaper;
use buffer_core::buffer::hb_buffer_t;
use buffer_glyphs::cause::ShapeCause;
use buffer_unicode_tables::UnicodeTables;
use layout_face::Face;
use script_categories::SyllableSpans;
use std::alloc::Global;

/// What a shaper does to a text at the hooks of the pipeline. Each hook's rule is a function of the items and
/// positions, the font, the tables, the plan and the text's settings; it doesn't depend on clusters, the cluster level
/// or requests for glyph flags. A rule gives the new items and, beside them, the events for clusters and flags; no law
/// ties the two to each other. A rule that reverses the characters and has no event meets the laws, and then what is
/// said of the parts of a text says nothing of its characters.
pub trait hb_ot_shaper_t: PlannedShaper {
    ghost use Rattle.std.specs.Prelude.{◌≡◌, ◌≤◌, Bool, true, false, List, Ok, length};
    ghost use Rattle.buffer_unicode_tables.specs.Expansion.{EndWithin};
    ghost use Rattle.buffer_unicode_tables.specs.Tables.{Tables, split_of};
    ghost use Rattle.buffer_glyphs.specs.Items.{Item};
    ghost use Rattle.buffer_core.specs.Sides.{all_glyphs, items_of};
    ghost use Rattle.buffer_stages.specs.Buffers.{are_glyphs};
    ghost use Rattle.buffer_stages.specs.Ready.{DoesGlyphStage, IsReady};
    ghost use Rattle.buffer_stages.specs.Settings.{text_settings};
    ghost use Rattle.buffer_stages.specs.Pauses.{BringsNoGlyph};
    ghost use Rattle.buffer_stages.specs.Rearranged.{Rearranges};
    ghost use Rattle.buffer_stages.specs.Stages.{DoesStage};
    ghost use Rattle.script_plan.specs.declared.plan.hb_script_plan_t.{hb_script_plan_t};
    ghost use Rattle.script_plan.specs.Rules.{RulesDependOnNoLimit, RulesKeepParts, ShaperRules};

    ghost rules: { Self → hb_script_plan_t Self.PlanData → ShaperRules };

    ghost keeps_order: { Self → Bool };

    /// Changes the text's characters before they are normalized; they are in their script's direction.
    fn preprocess_text(
        &self,
        plan: &hb_script_plan_t<Self::PlanData>,
        face: &Face,
        tables: &UnicodeTables,
        buffer: &mut hb_buffer_t,
    ) -> Result<(), ShapeCause>
        requires ready { IsReady buffer.old }
        ensures { DoesStage ((rules self.now plan.now).preprocesses face.now tables.now (text_settings buffer.old)) result buffer.old buffer.new };

    /// The two halves of a character's decomposition; the second is U+0000 where there is only one.
    fn decompose(
        &self,
        plan: &hb_script_plan_t<Self::PlanData>,
        tables: &UnicodeTables,
        ab: char,
    ) -> Option<(char, char)>
        ensures { result ≡ (rules self.now plan.now).splits tables.now ab };

    /// The composition of two characters.
    fn compose(
        &self,
        plan: &hb_script_plan_t<Self::PlanData>,
        tables: &UnicodeTables,
        a: char,
        b: char,
    ) -> Option<char>
        ensures { result ≡ (rules self.now plan.now).composes tables.now a b };

    /// Reorders the run of marks `start..end`, which is sorted by combining class, in the shaper's own order.
    fn reorder_marks(
        &self,
        plan: &hb_script_plan_t<Self::PlanData>,
        buffer: &mut hb_buffer_t,
        start: usize,
        end: usize,
    )
        requires ready { IsReady buffer.old }
        requires ordered { start ≤ end }
        requires within { end ≤ length (all_glyphs buffer.old) }
        ensures { Rearranges (rules self.now plan.now).reorders start end buffer.old buffer.new };

    /// Sets the masks of features that apply to some characters only. It changes no character.
    fn setup_masks(
        &self,
        plan: &hb_script_plan_t<Self::PlanData>,
        face: &Face,
        tables: &UnicodeTables,
        buffer: &mut hb_buffer_t,
    ) -> Result<(), ShapeCause>
        requires ready { IsReady buffer.old }
        ensures { DoesStage ((rules self.now plan.now).sets_masks face.now tables.now (text_settings buffer.old)) result buffer.old buffer.new };

    /// Performs the pause of a number between two GSUB stages, and returns true whenever a glyph number was inserted.
    fn run_pause<P: SyllableSpans>(
        &self,
        alloc: Global,
        pause: u8,
        plan: &hb_script_plan_t<Self::PlanData>,
        face: &Face,
        tables: &UnicodeTables,
        spans: &P,
        buffer: &mut hb_buffer_t,
    ) -> Result<bool, ShapeCause>
        requires glyphs { HoldsGlyphs buffer.old }
        ensures stage { DoesGlyphStage ((rules self.now plan.now).pauses face.now tables.now (P.span_of spans.now) (text_settings buffer.old) pause) result buffer.old buffer.new }
        ensures brings_none { result ≡ Ok false → BringsNoGlyph (items_of buffer.old) (items_of buffer.new) };

    /// Changes the glyphs, which are in visual order, and their positions.
    fn postprocess_glyphs(
        &self,
        alloc: Global,
        plan: &hb_script_plan_t<Self::PlanData>,
        face: &Face,
        buffer: &mut hb_buffer_t,
    ) -> Result<(), ShapeCause>
        requires ready { IsReady buffer.old }
        ensures { DoesGlyphStage ((rules self.now plan.now).postprocesses face.now (text_settings buffer.old)) result buffer.old buffer.new };

    /// Whether the order of clusters is kept at the monotone levels.
    fn keeps_cluster_order(&self) -> bool
        ensures { result ≡ keeps_order self.now };

    ghost splits_end: { (s : Self) (plan : hb_script_plan_t Self.PlanData) (t : Tables)
        → EndWithin (split_of t) 8 → EndWithin ((rules s plan).splits t) 9 };

    ghost keeps_count: { (s : Self) (plan : hb_script_plan_t Self.PlanData) (run : List Item)
        → length ((rules s plan).reorders run).items ≡ length run };

    ghost rules_keep_parts: { (s : Self) (plan : hb_script_plan_t Self.PlanData)
        → keeps_order s ≡ true → RulesKeepParts (rules s plan) };

    ghost rules_depend_on_no_limit: { (s : Self) (plan : hb_script_plan_t Self.PlanData)
        → RulesDependOnNoLimit (rules s plan) };
}
