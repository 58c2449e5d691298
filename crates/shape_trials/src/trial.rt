//! A case: a text with settings in a font, shaped in several ways.
ghost use Rattle.std.specs.Prelude.{◌≡◌};
ghost use Rattle.std.specs.Int.RustNames.{bit_xor};
ghost use Rattle.shape_pipeline.specs.ReadingLaws.{have_no_ranges};

use crate::alike::{Answer, But, agree};
use crate::alone::{clusters_are_among, flags_are_even, numbers_are_below, slices_join};
use crate::breaks::try_breaks;
use crate::counts::Tested;
use crate::font::Font;
use crate::promise::Promise;
use buffer_common::constants::BufferFlags;
use buffer_common::language::Language;
use buffer_glyphs::cause::ShapeCause;
use buffer_glyphs::level::BufferClusterLevel;
use buffer_tags::feature::Feature;
use buffer_tags::language_table::LanguageTable;
use buffer_wrappers::glyphs::GlyphBuffer;
use buffer_wrappers::unicode_buffer::UnicodeBuffer;
use script_categories::SyllableTable;
use shape_pipeline::{
    ShapeFault, ShapePlan, hb_shape_data_t, nested_lookups_left, shape, shape_with_plan,
};
use shell_readers::fault::RunFault;
use shell_readers::options::Options;
use shell_readers::tables::TextTables;
use std::alloc::{AllocError, Global};

/// The cluster levels, and whether each is monotone.
const LEVELS: [(BufferClusterLevel, bool); 4] = [
    (BufferClusterLevel::MonotoneGraphemes, true),
    (BufferClusterLevel::MonotoneCharacters, true),
    (BufferClusterLevel::Characters, false),
    (BufferClusterLevel::Graphemes, false),
];

/// A text, and all that it is shaped by.
#[derive(Drop)]
pub(crate) struct Trial<'a> {
    pub(crate) alloc: Global,
    pub(crate) tables: &'a TextTables,
    pub(crate) font: &'a Font,
    pub(crate) options: &'a Options,
    pub(crate) text: &'a str,
}

impl<'a> Trial<'a> {
    /// The first promise that an answer breaks, and how many breaks were tried.
    pub(crate) fn tested(&self) -> Result<Tested, RunFault> {
        let plan = self.plan()?;
        self.tested_by(&plan)
    }

    fn tested_by(&self, plan: &ShapePlan) -> Result<Tested, RunFault> {
        let mut tested = Tested {
            broken: self.broken_promise(plan)?,
            breaks: 0,
            unsure: 0,
        };
        for (level, is_monotone) in LEVELS {
            if is_monotone {
                tested = tested.with_breaks(try_breaks(self, plan, level)?);
            }
        }
        Ok(tested)
    }

    /// The first promise that an answer breaks.
    fn broken_promise(&self, plan: &ShapePlan) -> Result<Option<Promise>, RunFault> {
        let (level, flags) = (self.options.cluster_level, self.options.buffer_flags);
        let first = self.planned(plan, level, flags)?;
        self.broken_beside(plan, &first)
    }

    /// The first promise that an answer breaks beside the first one.
    fn broken_beside(&self, plan: &ShapePlan, first: &Answer) -> Result<Option<Promise>, RunFault> {
        let (level, flags) = (self.options.cluster_level, self.options.buffer_flags);
        if let Some(promise) = self.broken_at_levels(plan, first)? {
            return Ok(Some(promise));
        }
        if !self.agrees(But::Nothing, first, self.shaped()?)? {
            return Ok(Some(Promise::Plan));
        }
        if !self.agrees(But::Flags, first, self.planned(plan, level, turned(flags))?)? {
            return Ok(Some(Promise::Requests));
        }
        if !self.agrees(But::Nothing, first, self.planned(plan, level, flags)?)? {
            return Ok(Some(Promise::Again));
        }
        Ok(None)
    }

    /// Whether another answer agrees with the first one, but for what they may differ in.
    fn agrees(&self, but: But, first: &Answer, other: Answer) -> Result<bool, AllocError> {
        agree(self.alloc, but, first, &other)
    }

    /// The first promise that the answer at some level breaks.
    fn broken_at_levels(
        &self,
        plan: &ShapePlan,
        first: &Answer,
    ) -> Result<Option<Promise>, RunFault> {
        for (level, is_monotone) in LEVELS {
            if let Some(promise) = self.broken_at(plan, level, is_monotone, first)? {
                return Ok(Some(promise));
            }
        }
        Ok(None)
    }

    /// The first promise that the answer at a level breaks.
    fn broken_at(
        &self,
        plan: &ShapePlan,
        level: BufferClusterLevel,
        is_monotone: bool,
        first: &Answer,
    ) -> Result<Option<Promise>, RunFault> {
        let answer = self.planned(plan, level, self.options.buffer_flags)?;
        self.broken_by(plan, is_monotone, first, &answer)
    }

    /// The first promise that the answer at a level breaks; all have the same glyphs where no feature has a range.
    fn broken_by(
        &self,
        plan: &ShapePlan,
        is_monotone: bool,
        first: &Answer,
        answer: &Answer,
    ) -> Result<Option<Promise>, RunFault> {
        if let Ok(glyphs) = answer {
            if let Some(promise) = self.broken_alone(plan, is_monotone, glyphs)? {
                return Ok(Some(promise));
            }
        }
        if have_no_ranges(&self.options.features)
            && !agree(self.alloc, But::ClustersAndFlags, first, answer)?
        {
            return Ok(Some(Promise::Levels));
        }
        Ok(None)
    }

    /// The first promise that an answer breaks by itself. Slices join at a monotone level, for a shaper that keeps the order
    /// of clusters, while a glyph is left.
    fn broken_alone(
        &self,
        plan: &ShapePlan,
        is_monotone: bool,
        glyphs: &GlyphBuffer,
    ) -> Result<Option<Promise>, RunFault> {
        let infos = glyphs.glyph_infos();
        if !numbers_are_below(infos, self.font.count) {
            return Ok(Some(Promise::Numbers));
        }
        if !clusters_are_among(infos, &self.starts()?) {
            return Ok(Some(Promise::Clusters));
        }
        if !flags_are_even(infos) {
            return Ok(Some(Promise::Flags));
        }
        let has_slices = is_monotone && plan.shaper.keeps_cluster_order() && !glyphs.is_empty();
        let is_backward = plan.script_plan.direction.is_backward();
        if has_slices && !slices_join(self.alloc, glyphs, self.text, is_backward)? {
            return Ok(Some(Promise::Slices));
        }
        Ok(None)
    }

    // ---- ways to shape the text

    fn data(&self) -> hb_shape_data_t<'a, SyllableTable, LanguageTable> {
        hb_shape_data_t {
            tables: &self.tables.characters,
            spans: &self.tables.syllables,
            languages: &self.tables.languages,
        }
    }

    /// The plan for the text.
    fn plan(&self) -> Result<ShapePlan, RunFault> {
        let text = self.buffer(self.options.cluster_level, self.options.buffer_flags)?;
        self.plan_for(&text)
    }

    fn plan_for(&self, text: &UnicodeBuffer) -> Result<ShapePlan, RunFault> {
        let plan = ShapePlan::new(
            self.alloc,
            &self.font.face,
            self.data(),
            text.guessed_direction(),
            text.guessed_script(),
            text.language(),
            &self.options.features,
        )?;
        Ok(plan)
    }

    /// What a plan gives at a level, with requests for flags.
    fn planned(
        &self,
        plan: &ShapePlan,
        level: BufferClusterLevel,
        flags: BufferFlags,
    ) -> Result<Answer, RunFault> {
        let text = self.buffer(level, flags)?;
        self.shaped_by(plan, text)
    }

    /// What a plan makes of a text.
    pub(crate) fn shaped_by(
        &self,
        plan: &ShapePlan,
        text: UnicodeBuffer,
    ) -> Result<Answer, RunFault> {
        answer(shape_with_plan(self.alloc, &self.font.face, self.data(), plan, text))
    }

    /// Whether some of the budget of nested lookups is left of a text.
    pub(crate) fn leaves_budget(&self, text: UnicodeBuffer) -> Result<bool, RunFault> {
        let left = nested_lookups_left(
            self.alloc,
            &self.font.face,
            self.data(),
            &self.options.features,
            text,
        );
        match left {
            Ok(left) => Ok(left > 0),
            Err(ShapeCause::OutOfMemory) => Err(RunFault::OutOfMemory),
            Err(_) => Ok(false),
        }
    }

    /// What no plan gives.
    fn shaped(&self) -> Result<Answer, RunFault> {
        let text = self.buffer(self.options.cluster_level, self.options.buffer_flags)?;
        answer(shape(
            self.alloc,
            &self.font.face,
            self.data(),
            &self.options.features,
            text,
        ))
    }

    /// The clusters of the text: the bytes at which its characters begin.
    fn starts(&self) -> Result<Vec<u32>, RunFault> {
        let text = self.buffer(self.options.cluster_level, self.options.buffer_flags)?;
        let text = text.into_buffer();
        Ok(
            text.info_slice()
                .iter()
                .map(|glyph| glyph.cluster)
                .collect(self.alloc)?,
        )
    }

    /// The text with its settings, at a level, and with requests for flags.
    fn buffer(
        &self,
        level: BufferClusterLevel,
        flags: BufferFlags,
    ) -> Result<UnicodeBuffer, RunFault> {
        let mut text = self.empty(level, flags)?;
        text.set_direction(self.options.direction);
        if let Some(script) = self.options.script {
            text.set_script(script);
        }
        if !text.push_str(self.text)? {
            return Err(RunFault::Shape(ShapeCause::TooLong));
        }
        Ok(text)
    }

    /// A text without characters in the language, at a level, and with requests for flags.
    pub(crate) fn empty(
        &self,
        level: BufferClusterLevel,
        flags: BufferFlags,
    ) -> Result<UnicodeBuffer, RunFault> {
        let mut text = UnicodeBuffer::new(self.alloc);
        text.set_cluster_level(level);
        text.set_flags(flags);
        if let Some(language) = &self.options.language {
            let language = Language::from_str(self.alloc, language.as_str());
            text.set_language(language.map_err(|_| RunFault::OutOfMemory)?);
        }
        Ok(text)
    }
}

fn have_no_ranges(features: &[Feature]) -> bool
    ensures { result ≡ have_no_ranges features.now }
{
    features.iter().all(|feature| feature.is_global())
}

/// The flags with the requests for UNSAFE_TO_CONCAT, SAFE_TO_INSERT_TATWEEL and safe breaks, each turned.
fn turned(flags: BufferFlags) -> BufferFlags
    ensures { result.0 ≡ bit_xor flags.0 448 }
{
    BufferFlags(flags.0 ^ 448)
}

/// The answer of a call.
fn answer(shaped: Result<GlyphBuffer, ShapeFault>) -> Result<Answer, RunFault> {
    match shaped {
        Ok(glyphs) => Ok(Ok(glyphs)),
        Err(fault) => match fault.cause {
            ShapeCause::OutOfMemory => Err(RunFault::OutOfMemory),
            cause => Ok(Err(cause)),
        },
    }
}
