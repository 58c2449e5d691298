//! A plan in a cache.
ghost use Rattle.std.specs.Prelude.{◌≡◌, ◌↔◌, IfOk, IsTrue};
ghost use Rattle.std.specs.Option.{option_copied, option_map};
ghost use Rattle.std.specs.String.{string_bytes};
ghost use Rattle.shape_pipeline.specs.Plans.{Serves};
ghost use Rattle.shape_pipeline.specs.buffer_common.Language.{language_text};
ghost use Rattle.shape_pipeline.specs.buffer_common.ScriptTags.{wanted_language_tags};
ghost use Rattle.shape_pipeline.specs.buffer_core.Segment.{after_guess_segment_properties};
ghost use Rattle.shape_pipeline.specs.script_plan.Fits.{Fits, script_or_unknown};
ghost use Rattle.plan_cache.specs.Cached.{HasTagsOf, IsCachedFor};

use shape_pipeline::laws::law_plans_serve_their_texts;
use shape_pipeline::{
    Face, Feature, Language, LanguageTags, Script, ShapePlan, SyllableSpans, Tag, UNKNOWN,
    hb_buffer_t, hb_shape_data_t,
};
use std::alloc::{AllocError, Global};

/// A plan, and the BCP 47 tag of the language for which it was made.
#[derive(Drop)]
pub struct CachedPlan {
    /// In a box, since a cache moves the plan that it uses.
    pub plan: Box<ShapePlan>,
    pub language: Option<String>,
}

impl CachedPlan {
    /// The plan for a text with features, whose direction and script are guessed.
    pub(crate) fn new<P: SyllableSpans, L: LanguageTags>(
        alloc: Global,
        face: &Face,
        shape_data: hb_shape_data_t<'_, P, L>,
        features: &[Feature],
        text: &hb_buffer_t,
    ) -> Result<CachedPlan, AllocError>
        requires { after_guess_segment_properties text.now ≡ text.now }
        ensures cached { IfOk result (IsCachedFor face.now (L.tags_of shape_data.entry.languages.now)) }
        ensures serves { IfOk result (λ k. Serves (L.tags_of shape_data.entry.languages.now) features.now text.now k.plan.value) }
    {
        law_plans_serve_their_texts();
        let language = text.language();
        let kept = owned_language(alloc, language)?;
        let plan = ShapePlan::new(
            alloc,
            face,
            shape_data,
            text.direction(),
            text.script(),
            language,
            features,
        )?;
        let boxed = Box::new(alloc, plan)?;
        Ok(CachedPlan {
            plan: boxed,
            language: kept,
        })
    }

    /// Whether the plan serves a text with features, whose direction and script are guessed.
    pub(crate) fn serves<L: LanguageTags>(
        &self,
        languages: &L,
        features: &[Feature],
        text: &hb_buffer_t,
    ) -> bool
        requires tags { HasTagsOf (L.tags_of languages.now) self.now }
        requires guessed { after_guess_segment_properties text.now ≡ text.now }
        ensures { IsTrue result ↔ Serves (L.tags_of languages.now) features.now text.now self.now.plan.value }
    {
        self.fits(text)
            && are_features(self.plan.user_features.as_slice(), features)
            && self.has_tags_of(languages, text.language())
    }

    /// Whether the plan was made for the direction and the script of a text, which are guessed. No script counts as
    /// `UNKNOWN`.
    fn fits(&self, text: &hb_buffer_t) -> bool
        requires { after_guess_segment_properties text.now ≡ text.now }
        ensures { IsTrue result ↔ Fits self.now.plan.value text.now }
    {
        let plan = &self.plan.script_plan;
        text.direction() == plan.direction
            && script_or_unknown(text.script()) == script_or_unknown(plan.script)
    }

    /// Whether the plan has the tags of a language. The tags are looked up only for another language than the plan's.
    #[tactic(auto, using(crate::proofs::Languages::tags_as_kept))]
    fn has_tags_of<L: LanguageTags>(&self, languages: &L, language: Option<&Language>) -> bool
        requires { HasTagsOf (L.tags_of languages.now) self.now }
        ensures { IsTrue result ↔ self.now.plan.value.language_tags.items
            ≡ wanted_language_tags (L.tags_of languages.now) (option_copied language.entry) }
    {
        is_language(&self.language, language)
            || are_tags_of(self.plan.language_tags.as_slice(), languages, language)
    }
}

fn script_or_unknown(script: Option<Script>) -> Script
    ensures { result ≡ script_or_unknown script }
{
    script.unwrap_or(UNKNOWN)
}

/// The BCP 47 tag of a language, where a text has one.
fn owned_language(alloc: Global, language: Option<&Language>) -> Result<Option<String>, AllocError>
    ensures { IfOk result (λ text. option_map string_bytes text ≡ option_map language_text (option_copied language.entry)) }
{
    match language {
        Some(language) => Ok(Some(String::from_str(alloc, language.as_str())?)),
        None => Ok(None),
    }
}

fn is_language(text: &Option<String>, language: Option<&Language>) -> bool
    ensures { IsTrue result ↔ option_map string_bytes text.now ≡ option_map language_text (option_copied language.entry) }
{
    match (text, language) {
        (Some(text), Some(language)) => text.as_str() == language.as_str(),
        (None, None) => true,
        _ => false,
    }
}

fn are_tags_of<L: LanguageTags>(tags: &[Tag], languages: &L, language: Option<&Language>) -> bool
    ensures { IsTrue result ↔ tags.now ≡ wanted_language_tags (L.tags_of languages.now) (option_copied language.entry) }
{
    match language {
        Some(language) => are_tags(tags, languages.tags(language.as_str()).as_slice()),
        None => tags.is_empty(),
    }
}

fn are_tags(tags: &[Tag], wanted: &[Tag]) -> bool
    ensures { IsTrue result ↔ tags.now ≡ wanted.now }
{
    tags == wanted
}

fn are_features(features: &[Feature], wanted: &[Feature]) -> bool
    ensures { IsTrue result ↔ features.now ≡ wanted.now }
{
    features == wanted
}
