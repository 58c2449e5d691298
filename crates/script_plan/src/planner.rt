//! The planner, hb_ot_shape_planner_t (rustybuzz: hb/ot_shape.rs).
//!
//! `new` and `with_shaper` have the same clauses, but for the shaper, which `new` chooses.
ghost use Rattle.std.specs.Prelude.{◌≡◌, ◌&&◌, IfOk, codes, is_some};
ghost use Rattle.std.specs.Option.{option_copied};
ghost use Rattle.buffer_common.specs.ScriptTags.{wanted_language_tags};
ghost use Rattle.script_plan.specs.Plans.{IsPlanned, choices_of_planner, disables_gpos, gsub_script, has_fractions, nothing_asked, uses_gpos, zeroes_marks};
ghost use Rattle.script_plan.specs.Requests.{with_requests};
ghost use Rattle.layout_map.specs.Compiled.{compiled_map};
ghost use Rattle.layout_map.specs.Masks.{has_mask};
ghost use Rattle.std.specs.Prelude.{OnOk};

use crate::data::hb_shape_data_t;
use crate::plan::{PlanChoices, hb_ot_shape_plan_t, hb_script_plan_t};
use crate::planned::{CategorizedShaper, HB_OT_SHAPE_ZERO_WIDTH_MARKS_NONE, PlannedShaper};
use crate::{common, user};
use arrayvec::ArrayVec;
use buffer_common::direction::Direction;
use buffer_common::language::Language;
use buffer_common::language_tags::LanguageTags;
use buffer_common::script::Script;
use buffer_common::script_tags::tags_from_script_and_language;
use buffer_common::tag::Tag;
use buffer_tags::feature::Feature;
use layout_face::Face;
use layout_map::builder::hb_ot_map_builder_t;
use layout_map::map::hb_ot_map_t;
use layout_map_features::per_table::TableIndex;
use script_categories::SyllableSpans;
use std::alloc::{AllocError, Global};

/// Collects feature requests for a font, and compiles them into a plan.
#[derive(Drop)]
pub struct hb_ot_shape_planner_t<'a, S: PlannedShaper> {
    pub face: &'a Face,
    pub direction: Direction,
    pub script: Option<Script>,
    pub ot_map: hb_ot_map_builder_t<'a>,
    /// Whether the plan zeroes the advances of marks; a new planner has the shaper's choice.
    pub script_zero_marks: bool,
    /// Whether the plan positions marks by glyph extents where GPOS is not applied; a new planner has the shaper's
    /// choice.
    pub script_fallback_mark_positioning: bool,
    pub shaper: S,
    /// The OpenType tags of the texts' language, the first wanted first.
    pub language_tags: ArrayVec<Tag, 3>,
}

/// A builder for a font's tables, without requests, and the language's tags.
fn new_builder<'a, L: LanguageTags>(
    alloc: Global,
    face: &'a Face,
    languages: &L,
    script: Option<Script>,
    language: Option<&Language>,
) -> (hb_ot_map_builder_t<'a>, ArrayVec<Tag, 3>)
    ensures builder { result.0
        ≡ nothing_asked face.now script
        (wanted_language_tags (L.tags_of languages.now) (option_copied language.entry)) }
    ensures tags { result.1.items ≡ wanted_language_tags (L.tags_of languages.now) (option_copied language.entry) }
{
    let (scripts, languages) = tags_from_script_and_language(script, language, languages);
    let builder = hb_ot_map_builder_t::new(alloc, face, scripts.as_slice(), languages.as_slice());
    (builder, languages)
}

impl<'a, S: CategorizedShaper> hb_ot_shape_planner_t<'a, S> {
    /// A planner with the shaper that is chosen for the script and the font.
    pub fn new<P: SyllableSpans, L: LanguageTags>(
        alloc: Global,
        face: &'a Face,
        shape_data: hb_shape_data_t<'_, P, L>,
        direction: Direction,
        script: Option<Script>,
        language: Option<&Language>,
    ) -> hb_ot_shape_planner_t<'a, S>
        ensures face { result.face.now ≡ face.now }
        ensures direction { result.direction ≡ direction }
        ensures script { result.script ≡ script }
        ensures shaper { result.shaper ≡ S.shaper_of script direction (gsub_script face.now script
            (wanted_language_tags (L.tags_of shape_data.entry.languages.now) (option_copied language.entry))) }
        ensures zero_marks { result.script_zero_marks ≡ zeroes_marks (S.traits result.shaper) }
        ensures fallback { result.script_fallback_mark_positioning ≡ (S.traits result.shaper).fallback_position }
        ensures requests { result.ot_map
            ≡ nothing_asked face.now script (wanted_language_tags (L.tags_of shape_data.entry.languages.now)
            (option_copied language.entry)) }
        ensures languages { result.language_tags.items
            ≡ wanted_language_tags (L.tags_of shape_data.entry.languages.now) (option_copied language.entry) }
    {
        let (ot_map, language_tags) = new_builder(
            alloc,
            face,
            shape_data.languages,
            script,
            language,
        );
        let gsub_script = ot_map.chosen_script(TableIndex::GSUB);
        let shaper = S::categorize(script, direction, gsub_script);
        hb_ot_shape_planner_t {
            face,
            direction,
            script,
            ot_map,
            script_zero_marks: zeroes_marks(&shaper),
            script_fallback_mark_positioning: shaper.fallback_position(),
            shaper,
            language_tags,
        }
    }
}

impl<'a, S: PlannedShaper> hb_ot_shape_planner_t<'a, S> {
    /// A planner with the given shaper.
    pub fn with_shaper<P: SyllableSpans, L: LanguageTags>(
        alloc: Global,
        face: &'a Face,
        shape_data: hb_shape_data_t<'_, P, L>,
        direction: Direction,
        script: Option<Script>,
        language: Option<&Language>,
        shaper: S,
    ) -> hb_ot_shape_planner_t<'a, S>
        ensures face { result.face.now ≡ face.now }
        ensures direction { result.direction ≡ direction }
        ensures script { result.script ≡ script }
        ensures shaper { result.shaper ≡ shaper }
        ensures zero_marks { result.script_zero_marks ≡ zeroes_marks (S.traits shaper) }
        ensures fallback { result.script_fallback_mark_positioning ≡ (S.traits shaper).fallback_position }
        ensures requests { result.ot_map
            ≡ nothing_asked face.now script (wanted_language_tags (L.tags_of shape_data.entry.languages.now)
            (option_copied language.entry)) }
        ensures languages { result.language_tags.items
            ≡ wanted_language_tags (L.tags_of shape_data.entry.languages.now) (option_copied language.entry) }
    {
        let (ot_map, language_tags) = new_builder(
            alloc,
            face,
            shape_data.languages,
            script,
            language,
        );
        hb_ot_shape_planner_t {
            face,
            direction,
            script,
            ot_map,
            script_zero_marks: zeroes_marks(&shaper),
            script_fallback_mark_positioning: shaper.fallback_position(),
            shaper,
            language_tags,
        }
    }

    /// Requests the features of every text, of the shaper and of the user. After an error the planner can only be
    /// dropped.
    pub fn collect_features(&mut self, features: &[Feature]) -> Result<(), AllocError>
        ensures { OnOk result (self.new ≡ record self.old {
          ot_map = with_requests (record {
            collects = S.collects self.old.shaper;
            overrides = S.overrides
                self.old.shaper;
          })
              self.old.direction self.old.script features.now self.old.ot_map;
        }) }
    {
        common::request_first(&mut self.ot_map, self.direction)?;
        self.shaper.collect_features(&mut self.ot_map, self.script)?;
        common::request_after(&mut self.ot_map, self.direction)?;
        user::request_features(&mut self.ot_map, features)?;
        self.shaper.override_features(&mut self.ot_map, self.script)
    }

    /// Compiles the requests into a plan, with the shaper's own data; the plan keeps the user's features and the tags of
    /// the language. The planner's two fields decide whether marks' advances are zeroed and whether marks are positioned by glyph extents.
    pub fn compile(
        self,
        alloc: Global,
        features: &[Feature],
    ) -> Result<hb_ot_shape_plan_t<S>, AllocError>
        ensures direction { IfOk result (λ plan. plan.script_plan.direction ≡ self.entry.direction) }
        ensures script { IfOk result (λ plan. plan.script_plan.script ≡ self.entry.script) }
        ensures shaper { IfOk result (λ plan. plan.shaper ≡ self.entry.shaper) }
        ensures map { IfOk result (λ plan. plan.script_plan.map ≡ compiled_map self.entry.ot_map) }
        ensures mark { IfOk result (λ plan. plan.script_plan.has_gpos_mark
            ≡ has_mask (codes "mark") (compiled_map self.entry.ot_map)) }
        ensures choices { IfOk result (λ plan. plan.script_plan.choices
            ≡ choices_of_planner self.entry.script_zero_marks self.entry.script_fallback_mark_positioning
            (S.traits self.entry.shaper) self.entry.face.now (compiled_map self.entry.ot_map)) }
        ensures data { IfOk result (λ plan. plan.script_plan.plan_data
            ≡ S.data_of self.entry.shaper (compiled_map self.entry.ot_map) self.entry.script) }
        ensures features { IfOk result (λ plan. plan.user_features.items ≡ features.now) }
        ensures languages { IfOk result (λ plan. plan.language_tags.items ≡ self.entry.language_tags.items) }
    {
        let map = self.ot_map.compile(alloc)?;
        let marks = MarkChoices {
            zero_marks: self.script_zero_marks,
            fallback_position: self.script_fallback_mark_positioning,
        };
        let has_gpos_mark = has_mask(&map, b"mark");
        let choices = plan_choices(marks, &self.shaper, self.face, &map);
        let plan_data = self.shaper.create_data(alloc, &map, self.script)?;
        let mut user_features = Vec::new(alloc);
        user_features.extend_from_slice(features)?;
        Ok(hb_ot_shape_plan_t {
            shaper: self.shaper,
            script_plan: hb_script_plan_t {
                direction: self.direction,
                script: self.script,
                map,
                has_gpos_mark,
                choices,
                plan_data,
            },
            user_features,
            language_tags: self.language_tags,
        })
    }
}

impl<S: CategorizedShaper> hb_ot_shape_plan_t<S> {
    /// The plan for texts of a direction, a script and a language in a font, with the shaper chosen for the script and
    /// the font, and with the user's features. One plan serves all such texts. It takes memory for the map's features
    /// and the lookups of each stage.
    pub fn new<P: SyllableSpans, L: LanguageTags>(
        alloc: Global,
        face: &Face,
        shape_data: hb_shape_data_t<'_, P, L>,
        direction: Direction,
        script: Option<Script>,
        language: Option<&Language>,
        features: &[Feature],
    ) -> Result<hb_ot_shape_plan_t<S>, AllocError>
        ensures { IfOk result (IsPlanned (record {
          shaper_of = S.shaper_of;
          traits = S.traits;
          asking = λ shaper. record { collects = S.collects shaper; overrides = S.overrides shaper };
          data_of = S.data_of;
        }) face.now (wanted_language_tags (L.tags_of shape_data.entry.languages.now) (option_copied language.entry))
            direction script features.now) }
    {
        let mut planner = hb_ot_shape_planner_t::new(
            alloc, face, shape_data, direction, script, language,
        );
        planner.collect_features(features)?;
        let plan = planner.compile(alloc, features)?;
        Ok(plan)
    }
}

fn has_mask(map: &hb_ot_map_t, tag: &[u8; 4]) -> bool
    ensures { result ≡ has_mask tag.now map.now }
{
    map.get_1_mask(Tag::from_bytes(tag)) != 0
}

fn has_fractions(map: &hb_ot_map_t) -> bool
    ensures { result ≡ has_fractions map.now }
{
    has_mask(map, b"frac") || has_mask(map, b"numr") && has_mask(map, b"dnom")
}

/// Whether a shaper that is made for one GPOS script gets another.
fn disables_gpos(wanted: Option<Tag>, chosen: Option<Tag>) -> bool
    ensures { result ≡ disables_gpos wanted chosen }
{
    wanted.is_some() && wanted != chosen
}

fn uses_gpos<S: PlannedShaper>(shaper: &S, face: &Face, map: &hb_ot_map_t) -> bool
    ensures { result ≡ uses_gpos (S.traits shaper.now) face.now map.now }
{
    face.gpos().is_some() && !disables_gpos(shaper.gpos_tag(), map.chosen_script(TableIndex::GPOS))
}

/// Whether a shaper zeroes the advances of marks, before or after positioning.
fn zeroes_marks<S: PlannedShaper>(shaper: &S) -> bool
    ensures { result ≡ zeroes_marks (S.traits shaper.now) }
{
    shaper.zero_width_marks() != HB_OT_SHAPE_ZERO_WIDTH_MARKS_NONE
}

/// What a planner has decided of marks.
#[derive(Clone, Copy)]
struct MarkChoices {
    zero_marks: bool,
    fallback_position: bool,
}

fn plan_choices<S: PlannedShaper>(
    marks: MarkChoices,
    shaper: &S,
    face: &Face,
    map: &hb_ot_map_t,
) -> PlanChoices
    ensures { result
        ≡ choices_of_planner marks.zero_marks marks.fallback_position (S.traits shaper.now) face.now map.now }
{
    let apply_gpos = uses_gpos(shaper, face, map);
    PlanChoices {
        has_frac: has_fractions(map),
        has_vert: has_mask(map, b"vert"),
        zero_marks: marks.zero_marks,
        fallback_glyph_classes: !face.has_glyph_classes(),
        fallback_mark_positioning: !apply_gpos && marks.fallback_position,
        adjust_mark_positioning_when_zeroing: !apply_gpos,
        apply_gpos,
        apply_fallback_kern: !apply_gpos,
    }
}
