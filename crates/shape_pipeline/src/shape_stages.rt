//! The pipeline stages of one text, in the order of its reading (rustybuzz: hb/ot_shape.rs, `shape_internal`,
//! `substitute_pre`, `position`).
ghost use Rattle.std.specs.Prelude.{◌≡◌, ◌≢◌, ◌∷◌, [], Err, IfErr, IfOk, Ok, OnOk, true, false, ◌==◌, ◌&&◌};
ghost use Rattle.buffer_common.specs.Direction.{is_forward};
ghost use Rattle.buffer_glyphs.specs.Items.{clusters};
ghost use Rattle.buffer_core.specs.Readings.{Follows, always};
ghost use Rattle.buffer_core.specs.Sides.{items_of, state_of, settings_of, all_glyphs};
ghost use Rattle.buffer_stages.specs.Buffers.{are_glyphs};
ghost use Rattle.buffer_stages.specs.Ready.{IsReady, DoesGlyphStage, IsDone, HoldsGlyphs};
ghost use Rattle.buffer_stages.specs.Settings.{text_settings};
ghost use Rattle.buffer_stages.specs.Stages.{DoesStage, IsFollowed};
ghost use Rattle.layout_positioning.specs.Positioning.{positioning_stages};
ghost use Rattle.shape_text.specs.Fractions.{with_fractions};
ghost use Rattle.shape_text.specs.Properties.{IsUnshaped};
ghost use Rattle.shape_normalize.specs.Rounds.{normalization};
ghost use Rattle.shape_fallback.specs.Classes.{with_fallback_classes};
ghost use Rattle.shape_glyphs.specs.Glyphs.{with_synthesized_classes};
ghost use Rattle.shape_glyphs.specs.Ignorables.{ignorables_hidden};
ghost use Rattle.shape_glyphs.specs.Widths.{zero_widths};
ghost use Rattle.shape_pipeline.specs.Budget.{budget_left, glyphs_hidden};
ghost use Rattle.shape_pipeline.specs.Chains.{in_order, only_if};
ghost use Rattle.shape_pipeline.specs.Characters.{characters_chosen, normalizer, text_begun, turned_to_line};
ghost use Rattle.shape_pipeline.specs.Endings.{text_ended};
ghost use Rattle.shape_pipeline.specs.Glyphs.{glyphs_substituted, glyphs_taken};
ghost use Rattle.shape_pipeline.specs.Limits.{final_view};
ghost use Rattle.shape_pipeline.specs.Masks.{fraction_masks, masks_set, ranges_set};
ghost use Rattle.shape_pipeline.specs.Positioning.{adjusts_marks, visual_order, marks_positioned, marks_zeroed, positions_adjusted, positions_begun, positions_ended, with_zero_positions, zeroes_marks};
ghost use Rattle.shape_pipeline.specs.Reading.{reading, positioning_stage};
ghost use Rattle.shape_pipeline.specs.Results.{IsLeft, IsResultOf};
ghost use Rattle.shape_pipeline.specs.Shaping.{preprocessing_stage, shaper_masks_set, pauses_of, postprocessing_stage};

use crate::classed_glyphs::map_classed_glyphs;
use crate::normalizing::PlanNormalizing;
use buffer_common::direction::Direction;
use buffer_core::buffer::hb_buffer_t;
use buffer_glyphs::cause::ShapeCause;
use buffer_stages::pause::Pause;
use buffer_unicode_tables::UnicodeTables;
use layout_face::Face;
use layout_offsets::finish::position_finish_offsets;
use layout_positioning::position;
use layout_substitution::substitute::substitute;
use script_categories::SyllableSpans;
use script_plan::hb_ot_shaper_t;
use script_plan::plan::{PlanChoices, hb_ot_shape_plan_t, hb_script_plan_t};
use script_plan::planned::{
    HB_OT_SHAPE_ZERO_WIDTH_MARKS_BY_GDEF_EARLY, HB_OT_SHAPE_ZERO_WIDTH_MARKS_BY_GDEF_LATE,
    hb_ot_shape_zero_width_marks_type_t,
};
use shape_fallback::classes::_hb_ot_shape_fallback_mark_position_recategorize_marks;
use shape_fallback::kerning::_hb_ot_shape_fallback_kern;
use shape_fallback::marks::{components_direction, position_marks};
use shape_fallback::spaces::_hb_ot_shape_fallback_spaces;
use shape_fallback::zeroing::zero_mark_widths_by_gdef;
use shape_glyphs::advances::position_default;
use shape_glyphs::flags::propagate_flags;
use shape_glyphs::glyphs::hb_synthesize_glyph_classes;
use shape_glyphs::ignorables::hide_default_ignorables;
use shape_glyphs::selectors::deal_with_variation_selectors;
use shape_glyphs::widths::zero_width_default_ignorables;
use shape_normalize::normalize::_hb_ot_shape_normalize;
use shape_text::circle::insert_dotted_circle;
use shape_text::clusters::form_clusters;
use shape_text::direction::ensure_native_direction;
use shape_text::fractions::{self, FractionMasks};
use shape_text::masks::initialize_masks;
use shape_text::properties::set_unicode_props;
use shape_text::ranges::set_ranged_masks;
use shape_text::rotation::{self, Rotation};
use std::alloc::Global;

/// A plan with its shaper, a font, tables of characters, and the machines that find syllables.
#[derive(Drop)]
pub(crate) struct ShapeStages<'a, S: hb_ot_shaper_t, P: SyllableSpans> {
    pub plan: &'a hb_ot_shape_plan_t<S>,
    pub face: &'a Face,
    pub tables: &'a UnicodeTables,
    pub spans: &'a P,
    pub alloc: Global,
}

/// What the text of a buffer is shaped by, as its reading has it.
pub(crate) trait Shaped {
    ghost use Rattle.buffer_core.specs.Sides.{Sides};
    ghost use Rattle.shape_pipeline.specs.Shaping.{Shaping};

    ghost shaping: { Self → Sides → Shaping };
}

impl<S: hb_ot_shaper_t, P: SyllableSpans> Shaped for ShapeStages<'_, S, P> {
    ghost use Rattle.buffer_stages.specs.Settings.{text_settings};
    ghost use Rattle.script_plan.specs.Fits.{script_or_unknown};

    ghost shaping = { λ c text. record {
      font = c.face.now;
      tables = c.tables.now;
      settings = text_settings text;
      direction = c.plan.now.script_plan.direction;
      script = script_or_unknown c.plan.now.script_plan.script;
      map = c.plan.now.script_plan.map;
      choices = c.plan.now.script_plan.choices;
      features = c.plan.now.user_features.items;
      traits = S.traits c.plan.now.shaper;
      rules = S.rules c.plan.now.shaper c.plan.now.script_plan;
      spans = P.span_of c.spans.now;
    } };
}

// ---- all stages

impl<S: hb_ot_shaper_t, P: SyllableSpans> ShapeStages<'_, S, P> {
    /// Shapes a text by the plan: all that the stages see of the buffer, and where its glyphs come from, follow the
    /// text's reading. Each glyph has a number that a glyph can have; what was set for the text stays, and the direction
    /// is the plan's. It refuses by the reading's own cause, or for want of memory.
    pub(crate) fn shape_internal(&self, buffer: &mut hb_buffer_t) -> Result<(), ShapeCause>
        requires unshaped { IsUnshaped buffer.old }
        ensures ok { OnOk result (Follows (reading (⟦<Self as Shaped>⟧.shaping self.now buffer.old) (state_of
            buffer.old)) (state_of buffer.old) (state_of buffer.new)) }
        ensures handed_on { OnOk result (IsResultOf buffer.old buffer.new) }
        ensures direction { OnOk result (buffer.new.direction ≡ self.now.plan.now.script_plan.direction) }
        ensures still_closed { OnOk result (buffer.new.is_open ≡ false) }
        ensures err { IfErr result (λ e. e ≢ ShapeCause.OutOfMemory → reading
            (⟦<Self as Shaped>⟧.shaping self.now buffer.old) (state_of buffer.old) ≡ Err e) }
    {
        self.begin_text(buffer)?;
        self.choose_characters(buffer)?;
        self.setup_masks(buffer)?;
        self.setup_ranges(buffer);
        self.substitute_pre(buffer)?;
        self.position(buffer)?;
        self.end_text(buffer)?;
        Ok(())
    }

    /// What shaping a text by the plan leaves of its budget of nested lookups, which `shape_internal` resets at its end.
    /// It refuses by the reading's own cause, or for want of memory. What is then in the buffer is of no use.
    pub(crate) fn budget_left(&self, buffer: &mut hb_buffer_t) -> Result<i32, ShapeCause>
        requires unshaped { IsUnshaped buffer.old }
        ensures ok { IfOk result (λ left. budget_left (⟦<Self as Shaped>⟧.shaping self.now buffer.old) (state_of
            buffer.old) ≡ Ok left) }
        ensures err { IfErr result (λ e. e ≢ ShapeCause.OutOfMemory → budget_left
            (⟦<Self as Shaped>⟧.shaping self.now buffer.old) (state_of buffer.old) ≡ Err e) }
    {
        self.begin_text(buffer)?;
        self.choose_characters(buffer)?;
        self.setup_masks(buffer)?;
        self.setup_ranges(buffer);
        self.substitute_pre(buffer)?;
        self.position(buffer)?;
        self.hide_glyphs(buffer)?;
        Ok(buffer.max_ops())
    }
}

// ---- characters, up to normalizing

/// Moves the cursor to the start of the text.
#[tactic(auto, using(crate::proofs::Whole::rewound_ready, crate::proofs::Whole::rewound_run))]
fn rewind(buffer: &mut hb_buffer_t)
    requires unshaped { IsUnshaped buffer.old }
    ensures ready { IsReady buffer.new }
    ensures run { state_of buffer.new ≡ state_of buffer.old }
    ensures settings { settings_of buffer.new ≡ settings_of buffer.old }
{
    // A buffer that is ready has as many positions as glyphs, by the clauses of both calls.
    let is_placed = buffer.pos_slice().len() == buffer.len();
    prove!(is_placed);
    // Without an output a move is never refused.
    let _moved = buffer.move_to(0);
}

impl<S: hb_ot_shaper_t, P: SyllableSpans> ShapeStages<'_, S, P> {
    /// Begins shaping: moves the cursor to the start, sets limits, masks and the characters' properties, inserts a
    /// dotted circle before a mark, forms clusters, and puts the text in its script's direction.
    fn begin_text(&self, buffer: &mut hb_buffer_t) -> Result<(), ShapeCause>
        requires unshaped { IsUnshaped buffer.old }
        ensures { DoesStage (text_begun (⟦<Self as Shaped>⟧.shaping self.now buffer.old)) result buffer.old buffer.new }
    {
        rewind(buffer);
        buffer.enter();
        initialize_masks(self.plan.script_plan.map.get_global_mask(), buffer);
        set_unicode_props(self.tables, buffer);
        insert_dotted_circle(self.face, self.tables, buffer)?;
        form_clusters(buffer);
        ensure_native_direction(buffer);
        Ok(())
    }

    /// Mirrors characters, or replaces them by vertical forms, by the text's direction.
    fn rotate_chars(&self, buffer: &mut hb_buffer_t)
        requires { IsReady buffer.old }
        ensures { IsFollowed (always (turned_to_line (⟦<Self as Shaped>⟧.shaping self.now buffer.old))) buffer.old
            buffer.new }
    {
        let plan = &self.plan.script_plan;
        let rotation = Rotation {
            target_direction: plan.direction,
            rtlm_mask: plan.rtlm_mask(),
            has_vert: plan.choices.has_vert,
        };
        rotation::rotate_chars(rotation, self.face, self.tables, buffer);
    }

    /// Normalizes the text as the font and the shaper require.
    pub(crate) fn normalize(&self, buffer: &mut hb_buffer_t) -> Result<(), ShapeCause>
        requires { IsReady buffer.old }
        ensures { DoesStage (normalization (normalizer (⟦<Self as Shaped>⟧.shaping self.now buffer.old))) result
            buffer.old buffer.new }
    {
        let by = PlanNormalizing {
            shaper: &self.plan.shaper,
            plan: &self.plan.script_plan,
            face: self.face,
            tables: self.tables,
            invisible: buffer.invisible(),
            unjoined_glyph: buffer.not_found_variation_selector(),
            not_found: buffer.not_found(),
        };
        _hb_ot_shape_normalize(&by, self.alloc, buffer)
    }

    fn preprocess_text(&self, buffer: &mut hb_buffer_t) -> Result<(), ShapeCause>
        requires ready { IsReady buffer.old }
        ensures { DoesStage (preprocessing_stage (⟦<Self as Shaped>⟧.shaping self.now buffer.old)) result buffer.old
            buffer.new }
    {
        let plan = self.plan;
        plan.shaper
            .preprocess_text(&plan.script_plan, self.face, self.tables, buffer)
    }

    /// Chooses each character's glyph: the shaper preprocesses the text, characters are mirrored or get vertical forms,
    /// and the text is normalized.
    fn choose_characters(&self, buffer: &mut hb_buffer_t) -> Result<(), ShapeCause>
        requires { IsReady buffer.old }
        ensures { DoesStage (characters_chosen (⟦<Self as Shaped>⟧.shaping self.now buffer.old)) result buffer.old
            buffer.new }
    {
        self.preprocess_text(buffer)?;
        self.rotate_chars(buffer);
        self.normalize(buffer)?;
        Ok(())
    }
}

// ---- masks

/// Sets the masks of numbers around a fraction slash, where the font has the features.
#[tactic(auto, using(crate::proofs::Lemmas::Chains::acts_followed, crate::proofs::Lemmas::Chains::rests_followed))]
fn setup_masks_fraction<D>(plan: &hb_script_plan_t<D>, buffer: &mut hb_buffer_t)
    requires { IsReady buffer.old }
    ensures { IsFollowed (only_if plan.now.choices.has_frac (always (with_fractions (fraction_masks plan.now.map))))
        buffer.old buffer.new }
{
    if !plan.choices.has_frac {
        return;
    }
    let masks = FractionMasks {
        frac: plan.frac_mask(),
        numr: plan.numr_mask(),
        dnom: plan.dnom_mask(),
    };
    fractions::setup_masks_fraction(masks, buffer);
}

impl<S: hb_ot_shaper_t, P: SyllableSpans> ShapeStages<'_, S, P> {
    fn setup_shaper_masks(&self, buffer: &mut hb_buffer_t) -> Result<(), ShapeCause>
        requires ready { IsReady buffer.old }
        ensures { DoesStage (shaper_masks_set (⟦<Self as Shaped>⟧.shaping self.now buffer.old)) result buffer.old
            buffer.new }
    {
        let plan = self.plan;
        plan.shaper
            .setup_masks(&plan.script_plan, self.face, self.tables, buffer)
    }

    /// Sets the masks of fractions, and those of the shaper's `setup_masks`.
    fn setup_masks(&self, buffer: &mut hb_buffer_t) -> Result<(), ShapeCause>
        requires { IsReady buffer.old }
        ensures { DoesStage (masks_set (⟦<Self as Shaped>⟧.shaping self.now buffer.old)) result buffer.old buffer.new }
    {
        setup_masks_fraction(&self.plan.script_plan, buffer);
        self.setup_shaper_masks(buffer)?;
        Ok(())
    }

    /// Sets the masks of features that are requested for a range of the text.
    fn setup_ranges(&self, buffer: &mut hb_buffer_t)
        requires { IsReady buffer.old }
        ensures { IsFollowed (ranges_set (⟦<Self as Shaped>⟧.shaping self.now buffer.old) (clusters (all_glyphs
            buffer.old))) buffer.old buffer.new }
    {
        set_ranged_masks(&self.plan.script_plan.map, &self.plan.user_features, buffer);
    }
}

// ---- glyphs and their substitution

/// Sets the marks' classes by which they are positioned, if fallback will position them.
#[tactic(auto, using(crate::proofs::Lemmas::Chains::acts_followed, crate::proofs::Lemmas::Chains::rests_followed))]
fn recategorize_marks(choices: PlanChoices, buffer: &mut hb_buffer_t)
    requires { IsReady buffer.old }
    ensures { IsFollowed (only_if choices.fallback_mark_positioning (always with_fallback_classes)) buffer.old buffer.new }
{
    if choices.fallback_mark_positioning {
        _hb_ot_shape_fallback_mark_position_recategorize_marks(buffer);
    }
}

/// Synthesizes glyph classes from the characters, for a font that has none.
#[tactic(auto, using(crate::proofs::Lemmas::Chains::acts_done, crate::proofs::Lemmas::Chains::rests_done))]
fn synthesize_classes(choices: PlanChoices, buffer: &mut hb_buffer_t)
    requires { IsReady buffer.old }
    ensures { IsDone (only_if choices.fallback_glyph_classes (always with_synthesized_classes)) buffer.old buffer.new }
{
    if choices.fallback_glyph_classes {
        hb_synthesize_glyph_classes(buffer);
    }
}

impl<S: hb_ot_shaper_t, P: SyllableSpans> ShapeStages<'_, S, P> {
    /// Replaces each character by its glyph, with its class, and applies the GSUB lookups with the shaper's pauses.
    fn substitute_pre(&self, buffer: &mut hb_buffer_t) -> Result<(), ShapeCause>
        requires { IsReady buffer.old }
        ensures stage { DoesStage (in_order (glyphs_taken (⟦<Self as Shaped>⟧.shaping self.now buffer.old) ∷
            glyphs_substituted (⟦<Self as Shaped>⟧.shaping self.now buffer.old) ∷ [])) result buffer.old buffer.new }
        ensures numbers { OnOk result (are_glyphs (items_of buffer.new) ≡ true) }
    {
        recategorize_marks(self.plan.script_plan.choices, buffer);
        map_classed_glyphs(self.face, buffer);
        synthesize_classes(self.plan.script_plan.choices, buffer);
        substitute(&self.plan.script_plan.map, self.face, buffer, self)?;
        Ok(())
    }
}

// ---- the shaper's pauses between two GSUB stages

impl<S: hb_ot_shaper_t, P: SyllableSpans> Pause for ShapeStages<'_, S, P> {
    ghost stage = { λ c settings n. (S.rules c.plan.now.shaper c.plan.now.script_plan).pauses c.face.now c.tables.now
        (P.span_of c.spans.now) settings n };

    fn run(&self, pause: u8, buffer: &mut hb_buffer_t) -> Result<bool, ShapeCause> {
        self.plan.shaper.run_pause(
            self.alloc,
            pause,
            &self.plan.script_plan,
            self.face,
            self.tables,
            self.spans,
            buffer,
        )
    }
}

// ---- positions

#[tactic(auto, using(crate::proofs::Placed::cleared_done))]
fn clear_positions(buffer: &mut hb_buffer_t)
    requires { IsReady buffer.old }
    ensures { IsDone (always with_zero_positions) buffer.old buffer.new }
{
    buffer.clear_positions();
}

#[tactic(auto, using(crate::proofs::Placed::widths_done))]
fn zero_ignorables(buffer: &mut hb_buffer_t)
    requires { IsReady buffer.old }
    ensures { IsDone (always (zero_widths (text_settings buffer.old).flags)) buffer.old buffer.new }
{
    zero_width_default_ignorables(buffer);
}

/// Reverses a backward text, so that the glyphs are in visual order.
#[tactic(auto, using(crate::proofs::Placed::turned_drawn, crate::proofs::Placed::stays_drawn))]
fn draw(buffer: &mut hb_buffer_t)
    requires { IsReady buffer.old }
    ensures { IsDone (always visual_order) buffer.old buffer.new }
{
    if buffer.direction().is_backward() {
        buffer.reverse();
    }
}

impl<S: hb_ot_shaper_t, P: SyllableSpans> ShapeStages<'_, S, P> {
    /// Sets the font's advances, and those of spaces that the font lacks.
    #[tactic(auto, using(crate::proofs::Unlinked::begun_done))]
    fn begin_positions(&self, buffer: &mut hb_buffer_t)
        requires { IsReady buffer.old }
        ensures { IsDone (positions_begun (⟦<Self as Shaped>⟧.shaping self.now buffer.old)) buffer.old buffer.new }
    {
        clear_positions(buffer);
        position_default(self.face, buffer);
        _hb_ot_shape_fallback_spaces(self.face, buffer);
        // No position has a link yet, so `position_start` would clear none.
        buffer.learn_order();
    }

    fn adjusts_marks(&self, direction: Direction) -> bool
        ensures { result ≡ (self.now.plan.now.script_plan.choices.adjust_mark_positioning_when_zeroing
            && is_forward direction) }
    {
        self.plan
            .script_plan
            .choices
            .adjust_mark_positioning_when_zeroing
            && direction.is_forward()
    }

    fn zeroes_marks(&self, time: hb_ot_shape_zero_width_marks_type_t) -> bool
        ensures { result ≡ (self.now.plan.now.script_plan.choices.zero_marks
            && (S.traits self.now.plan.now.shaper).zero_width_marks == time) }
    {
        self.plan.script_plan.choices.zero_marks && self.plan.shaper.zero_width_marks() == time
    }

    #[tactic(auto, using(crate::proofs::Placed::zeroed_done))]
    fn zero_all_marks(&self, buffer: &mut hb_buffer_t)
        requires { IsReady buffer.old }
        ensures { IsDone (always (marks_zeroed (⟦<Self as Shaped>⟧.shaping self.now buffer.old))) buffer.old
            buffer.new }
    {
        let adjusts = self.adjusts_marks(buffer.direction());
        zero_mark_widths_by_gdef(buffer, adjusts);
    }

    /// Zeroes the advances of marks, if now is the time.
    #[tactic(auto, using(crate::proofs::Lemmas::Chains::acts_done, crate::proofs::Lemmas::Chains::rests_done))]
    fn zero_marks(&self, time: hb_ot_shape_zero_width_marks_type_t, buffer: &mut hb_buffer_t)
        requires { IsReady buffer.old }
        ensures { IsDone (only_if (zeroes_marks time (⟦<Self as Shaped>⟧.shaping self.now buffer.old)) (always
            (marks_zeroed (⟦<Self as Shaped>⟧.shaping self.now buffer.old)))) buffer.old buffer.new }
    {
        if self.zeroes_marks(time) {
            self.zero_all_marks(buffer);
        }
    }

    /// Applies the GPOS lookups, if the plan uses them.
    #[tactic(auto, using(crate::proofs::Lemmas::Chains::acts_does, crate::proofs::Lemmas::Chains::rests_done))]
    fn position_by_lookups(&self, buffer: &mut hb_buffer_t) -> Result<(), ShapeCause>
        requires glyphs { HoldsGlyphs buffer.old }
        ensures { DoesGlyphStage (only_if self.now.plan.now.script_plan.choices.apply_gpos (positioning_stages
            self.now.face.now self.now.plan.now.script_plan.map (pauses_of
            (⟦<Self as Shaped>⟧.shaping self.now buffer.old)))) result buffer.old buffer.new }
    {
        if !self.plan.script_plan.choices.apply_gpos {
            return Ok(());
        }
        position::position(&self.plan.script_plan.map, self.face, buffer, self)
    }

    /// Applies fallback kerning, if the plan uses it.
    fn kern(&self, buffer: &mut hb_buffer_t)
        ensures { buffer.new ≡ buffer.old }
    {
        if self.plan.script_plan.choices.apply_fallback_kern {
            _hb_ot_shape_fallback_kern(buffer);
        }
    }

    /// Applies GPOS and fallback kerning, as the plan says.
    fn position_by_plan(&self, buffer: &mut hb_buffer_t) -> Result<(), ShapeCause>
        requires glyphs { HoldsGlyphs buffer.old }
        ensures { DoesGlyphStage (only_if self.now.plan.now.script_plan.choices.apply_gpos (positioning_stages
            self.now.face.now self.now.plan.now.script_plan.map (pauses_of
            (⟦<Self as Shaped>⟧.shaping self.now buffer.old)))) result buffer.old buffer.new }
    {
        self.position_by_lookups(buffer)?;
        self.kern(buffer);
        Ok(())
    }

    /// Applies GPOS, and zeroes the advances of marks before or after it.
    fn adjust_positions(&self, buffer: &mut hb_buffer_t) -> Result<(), ShapeCause>
        requires glyphs { HoldsGlyphs buffer.old }
        ensures { DoesGlyphStage (positions_adjusted (⟦<Self as Shaped>⟧.shaping self.now buffer.old)) result
            buffer.old buffer.new }
    {
        self.zero_marks(HB_OT_SHAPE_ZERO_WIDTH_MARKS_BY_GDEF_EARLY, buffer);
        self.position_by_plan(buffer)?;
        self.zero_marks(HB_OT_SHAPE_ZERO_WIDTH_MARKS_BY_GDEF_LATE, buffer);
        Ok(())
    }

    #[tactic(auto, using(crate::proofs::Placed::marks_done))]
    fn position_all_marks(&self, buffer: &mut hb_buffer_t)
        requires glyphs { HoldsGlyphs buffer.old }
        ensures { IsDone (always (marks_positioned (⟦<Self as Shaped>⟧.shaping self.now buffer.old))) buffer.old
            buffer.new }
    {
        let plan = &self.plan.script_plan;
        let components = components_direction(plan.direction, plan.script);
        let adjusts = self.adjusts_marks(buffer.direction());
        position_marks(self.face, components, adjusts, buffer);
    }

    /// Positions marks by the extents of their bases, if the plan says so.
    #[tactic(auto, using(crate::proofs::Lemmas::Chains::acts_done, crate::proofs::Lemmas::Chains::rests_done))]
    fn position_marks_by_plan(&self, buffer: &mut hb_buffer_t)
        requires glyphs { HoldsGlyphs buffer.old }
        ensures { IsDone (only_if self.now.plan.now.script_plan.choices.fallback_mark_positioning (always
            (marks_positioned (⟦<Self as Shaped>⟧.shaping self.now buffer.old)))) buffer.old buffer.new }
    {
        if self.plan.script_plan.choices.fallback_mark_positioning {
            self.position_all_marks(buffer);
        }
    }

    /// Adds the offsets of attached glyphs, positions marks by fallback, and puts the glyphs in visual order.
    fn end_positions(&self, buffer: &mut hb_buffer_t)
        requires glyphs { HoldsGlyphs buffer.old }
        ensures { IsDone (positions_ended (⟦<Self as Shaped>⟧.shaping self.now buffer.old)) buffer.old buffer.new }
    {
        zero_ignorables(buffer);
        position_finish_offsets(buffer);
        self.position_marks_by_plan(buffer);
        draw(buffer);
    }

    /// Positions the glyphs.
    fn position(&self, buffer: &mut hb_buffer_t) -> Result<(), ShapeCause>
        requires glyphs { HoldsGlyphs buffer.old }
        ensures { DoesGlyphStage (positioning_stage (⟦<Self as Shaped>⟧.shaping self.now buffer.old)) result
            buffer.old buffer.new }
    {
        self.begin_positions(buffer);
        self.adjust_positions(buffer)?;
        self.end_positions(buffer);
        Ok(())
    }
}

// ---- the end

#[tactic(auto, using(crate::proofs::Sets::hidden_as_asked))]
fn hide_ignorables(face: &Face, buffer: &mut hb_buffer_t)
    requires { IsReady buffer.old }
    ensures { IsDone (always (ignorables_hidden (text_settings buffer.old).flags (text_settings buffer.old).invisible face.now))
        buffer.old buffer.new }
{
    hide_default_ignorables(face, buffer);
}

/// Gives the buffer the direction of its line, and sets the limits as they were at first.
#[tactic(auto, using(crate::proofs::Ended::left_done, crate::proofs::Ended::left_so))]
fn leave(direction: Direction, buffer: &mut hb_buffer_t)
    requires { IsReady buffer.old }
    ensures stage { IsDone (always (final_view direction)) buffer.old buffer.new }
    ensures left { IsLeft direction buffer.new }
{
    buffer.set_direction(direction);
    buffer.leave();
}

impl<S: hb_ot_shaper_t, P: SyllableSpans> ShapeStages<'_, S, P> {
    fn postprocess_glyphs(&self, buffer: &mut hb_buffer_t) -> Result<(), ShapeCause>
        requires ready { IsReady buffer.old }
        ensures { DoesGlyphStage (postprocessing_stage (⟦<Self as Shaped>⟧.shaping self.now buffer.old)) result
            buffer.old buffer.new }
    {
        let plan = self.plan;
        plan.shaper
            .postprocess_glyphs(self.alloc, &plan.script_plan, self.face, buffer)
    }

    /// Ends shaping: variation selectors, default ignorables, the shaper's `postprocess_glyphs`, and the glyph flags of
    /// clusters.
    fn end_text(&self, buffer: &mut hb_buffer_t) -> Result<(), ShapeCause>
        requires { IsReady buffer.old }
        ensures stage { DoesGlyphStage (text_ended (⟦<Self as Shaped>⟧.shaping self.now buffer.old)) result buffer.old
            buffer.new }
        ensures left { OnOk result (IsLeft self.now.plan.now.script_plan.direction buffer.new) }
    {
        deal_with_variation_selectors(buffer);
        hide_ignorables(self.face, buffer);
        self.postprocess_glyphs(buffer)?;
        propagate_flags(buffer);
        leave(self.plan.script_plan.direction, buffer);
        Ok(())
    }

    /// Ends shaping, but for the reset of the limits.
    fn hide_glyphs(&self, buffer: &mut hb_buffer_t) -> Result<(), ShapeCause>
        requires { IsReady buffer.old }
        ensures { DoesGlyphStage (glyphs_hidden (⟦<Self as Shaped>⟧.shaping self.now buffer.old)) result buffer.old
            buffer.new }
    {
        deal_with_variation_selectors(buffer);
        hide_ignorables(self.face, buffer);
        self.postprocess_glyphs(buffer)?;
        propagate_flags(buffer);
        Ok(())
    }
}
