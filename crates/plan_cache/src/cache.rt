//! Plans for texts in turn.
//!
//! The clauses of `shape` (`shape_pipeline`) stand here again, since a cache answers what that call answers.
ghost use Rattle.std.specs.Prelude.{◌≡◌, ◌≢◌, ◌≤◌, ◌<◌, ◌-◌, ◌+◌, ◌++◌, ◌⊎◌, IfErr, IfOk, IsErrAnd, MatchOption, Ok, OnErr, OnOk, [], drop, false, length, slice_index_or};
ghost use Rattle.std.specs.List.{All, remove, slice_range};
ghost use Rattle.shape_pipeline.specs.buffer_core.Segment.{after_guess_segment_properties};
ghost use Rattle.shape_pipeline.specs.buffer_core.Settings.{after_leave};
ghost use Rattle.shape_pipeline.specs.buffer_core.Sides.{all_glyphs, empty_buffer};
ghost use Rattle.shape_pipeline.specs.buffer_wrappers.Wrappers.{IsText};
ghost use Rattle.shape_pipeline.specs.Results.{IsRefusedFor, IsResultOf, IsShapedBy};
ghost use Rattle.shape_pipeline.specs.Shaped.{by_text};
ghost use Rattle.plan_cache.specs.Cache.{EndsServing, IsAfter, IsCacheOf, IsServing, ServeNot, with_plan_used, with_plan_added};
ghost use Rattle.plan_cache.specs.Cached.{HasTagsOf};

use crate::cached::CachedPlan;
use shape_pipeline::laws::law_serving_plans_give_the_texts_shaping;
use shape_pipeline::{
    Face, Feature, GlyphBuffer, LanguageTags, ShapeCause, ShapeFault, SyllableSpans, UnicodeBuffer,
    hb_buffer_t, hb_shape_data_t, shape_buffer,
};
use std::alloc::{AllocError, Global};
use std::marker::Model;

/// Plans of one font and one table of languages, the least recently used first, at most as many as its bound. They only
/// save time: a text has the glyphs that `shape` gives it without a cache.
#[derive(Drop)]
pub struct PlanCache {
    plans: Vec<CachedPlan>,
    bound: usize,
}

impl Model for PlanCache {
    ghost use Rattle.std.specs.Prelude.{◌≤◌, ◌<◌, length};
    ghost use Rattle.plan_cache.specs.Cache.{Cache};

    ghost Value = { Cache };

    ghost view = { λ c. record { plans = c.plans.items; bound = c.bound } };

    ghost invariant = { λ c. (0 < c.bound) × (length c.plans.items ≤ c.bound) };
}

impl PlanCache {
    /// A cache that keeps up to `bound` plans. It takes no memory yet.
    pub fn new(alloc: Global, bound: usize) -> PlanCache
        requires { 0 < bound }
        ensures { result ≡ record { plans = []; bound = bound } }
    {
        PlanCache {
            plans: Vec::new(alloc),
            bound,
        }
    }

    /// The plans, the least recently used first.
    pub fn plans(&self) -> &[CachedPlan]
        ensures plans { result.now ≡ self.now.plans }
        ensures within { length result.now ≤ self.now.bound }
    {
        self.plans.as_slice()
    }

    /// How many plans are kept at most.
    pub fn bound(&self) -> usize
        ensures { result ≡ self.now.bound }
    {
        self.bound
    }

    /// Shapes a text in a font to what `shape` gives, by a plan of the cache where one serves the text, else by a new one,
    /// which the cache then keeps. Where a plan of the cache serves the text, and where the text has no characters, it takes
    /// no memory beside that of the text's glyphs.
    pub fn shape<P: SyllableSpans, L: LanguageTags>(
        &mut self,
        alloc: Global,
        face: &Face,
        shape_data: hb_shape_data_t<'_, P, L>,
        features: &[Feature],
        buffer: UnicodeBuffer,
    ) -> Result<GlyphBuffer, ShapeFault>
        requires { IsCacheOf face.now (L.tags_of shape_data.languages.now) self.old }
        ensures cache { IsCacheOf face.now (L.tags_of shape_data.entry.languages.now) self.new }
        ensures unused { all_glyphs buffer ≡ [] → self.new ≡ self.old }
        ensures used { all_glyphs buffer ≢ []
            → IsAfter (L.tags_of shape_data.entry.languages.now) features.now buffer self.old self.new
            ⊎ (self.new ≡ self.old) × IsErrAnd result (λ e. e.cause ≡ ShapeCause.OutOfMemory) }
        ensures ok { IfOk result (IsShapedBy
            (by_text face.now shape_data.entry.tables.now (L.tags_of shape_data.entry.languages.now)
            (P.span_of shape_data.entry.spans.now) features.now (after_guess_segment_properties buffer))
            (after_guess_segment_properties buffer)) }
        ensures refused { IfErr result (λ e. IsRefusedFor
            (by_text face.now shape_data.entry.tables.now (L.tags_of shape_data.entry.languages.now)
            (P.span_of shape_data.entry.spans.now) features.now (after_guess_segment_properties buffer))
            (after_guess_segment_properties buffer) e.cause) }
        ensures cleared { IfErr result (λ e. e.buffer ≡ empty_buffer) }
        ensures empty { all_glyphs buffer ≡ [] → result ≡ Ok (after_leave (after_guess_segment_properties buffer)) }
        ensures handed_on { IfOk result (λ glyphs. IsResultOf (after_guess_segment_properties buffer) glyphs) }
        ensures direction { IfOk result (λ glyphs. glyphs.direction ≡ (after_guess_segment_properties buffer).direction) }
    {
        let mut buffer = buffer.into_buffer();
        match self.shape_buffer(alloc, face, shape_data, features, &mut buffer) {
            Ok(()) => Ok(GlyphBuffer::from_buffer(buffer)),
            Err(cause) => Err(ShapeFault {
                cause,
                buffer: UnicodeBuffer::from_buffer(buffer),
            }),
        }
    }

    /// Shapes a text in its buffer, which then has the glyphs that `shape` gives; where it refuses, the buffer is cleared.
    #[tactic(auto, using(crate::proofs::Order::some_last))]
    pub fn shape_buffer<P: SyllableSpans, L: LanguageTags>(
        &mut self,
        alloc: Global,
        face: &Face,
        shape_data: hb_shape_data_t<'_, P, L>,
        features: &[Feature],
        buffer: &mut hb_buffer_t,
    ) -> Result<(), ShapeCause>
        requires plans { IsCacheOf face.now (L.tags_of shape_data.languages.now) self.old }
        requires text { IsText buffer.old }
        ensures cache { IsCacheOf face.now (L.tags_of shape_data.entry.languages.now) self.new }
        ensures unused { all_glyphs buffer.old ≡ [] → self.new ≡ self.old }
        ensures used { all_glyphs buffer.old ≢ []
            → IsAfter (L.tags_of shape_data.entry.languages.now) features.now buffer.old self.old self.new
            ⊎ (self.new ≡ self.old) × IsErrAnd result (λ e. e ≡ ShapeCause.OutOfMemory) }
        ensures ok { OnOk result (IsShapedBy
            (by_text face.now shape_data.entry.tables.now (L.tags_of shape_data.entry.languages.now)
            (P.span_of shape_data.entry.spans.now) features.now (after_guess_segment_properties buffer.old))
            (after_guess_segment_properties buffer.old) buffer.new) }
        ensures refused { IfErr result (IsRefusedFor
            (by_text face.now shape_data.entry.tables.now (L.tags_of shape_data.entry.languages.now)
            (P.span_of shape_data.entry.spans.now) features.now (after_guess_segment_properties buffer.old))
            (after_guess_segment_properties buffer.old)) }
        ensures cleared { OnErr result (buffer.new ≡ empty_buffer) }
        ensures empty { all_glyphs buffer.old ≡ []
            → (result ≡ Ok tt) × (buffer.new ≡ after_leave (after_guess_segment_properties buffer.old)) }
        ensures handed_on { OnOk result (IsResultOf (after_guess_segment_properties buffer.old) buffer.new) }
        ensures direction { OnOk result (buffer.new.direction ≡ (after_guess_segment_properties buffer.old).direction) }
        ensures closed { buffer.new.is_open ≡ false }
    {
        buffer.guess_segment_properties();
        if buffer.is_empty() {
            leave_empty(buffer);
            return Ok(());
        }
        let Ok(()) = self.use_plan(alloc, face, shape_data, features, buffer) else {
            buffer.clear();
            return Err(ShapeCause::OutOfMemory);
        };
        law_serving_plans_give_the_texts_shaping();
        let cached = self.last_used();
        shape_buffer(alloc, face, shape_data, &cached.plan, buffer)
    }

    /// The plan that was used last.
    fn last_used(&self) -> &CachedPlan
        requires { 0 < length self.now.plans }
        ensures { result.now ≡ slice_index_or self.now.plans (length self.now.plans - 1) result.now }
    {
        let last = self.plans.len() - 1;
        &self.plans[last]
    }

    /// Makes the plan that serves a text with features the last one: one of the cache, or a new one. The text's direction
    /// and script are guessed.
    #[tactic(auto, using(crate::proofs::Order::after_hit, crate::proofs::Order::after_miss, crate::proofs::Order::ends_used, crate::proofs::Order::ends_with_plan_added))]
    fn use_plan<P: SyllableSpans, L: LanguageTags>(
        &mut self,
        alloc: Global,
        face: &Face,
        shape_data: hb_shape_data_t<'_, P, L>,
        features: &[Feature],
        text: &hb_buffer_t,
    ) -> Result<(), AllocError>
        requires plans { IsCacheOf face.now (L.tags_of shape_data.languages.now) self.old }
        requires guessed { after_guess_segment_properties text.now ≡ text.now }
        ensures cache { IsCacheOf face.now (L.tags_of shape_data.entry.languages.now) self.new }
        ensures used { OnOk result (IsAfter (L.tags_of shape_data.entry.languages.now) features.now text.now self.old self.new) }
        ensures last { OnOk result (EndsServing (L.tags_of shape_data.entry.languages.now) features.now text.now self.new.plans) }
        ensures err { OnErr result (self.new ≡ self.old) }
    {
        // That the bound is above 0 is known where the field is read.
        let _bound = self.bound;
        if let Some(i) = self.position(shape_data.languages, features, text) {
            self.use_again(i);
            return Ok(());
        }
        let cached = CachedPlan::new(alloc, face, shape_data, features, text)?;
        self.add(cached)?;
        Ok(())
    }

    /// The index of the most recently used plan that serves a text with features.
    fn position<L: LanguageTags>(
        &self,
        languages: &L,
        features: &[Feature],
        text: &hb_buffer_t,
    ) -> Option<usize>
        requires tags { All (HasTagsOf (L.tags_of languages.now)) self.now.plans }
        requires guessed { after_guess_segment_properties text.now ≡ text.now }
        ensures { MatchOption result (ServeNot (L.tags_of languages.now) features.now text.now self.now.plans)
            (IsServing (L.tags_of languages.now) features.now text.now self.now.plans) }
    {
        for i in (0..self.plans.len()).rev() {
            if self.plans[i].serves(languages, features, text) {
                return Some(i);
            }
        }
        None
    }

    /// Makes the plan at an index the last one.
    #[tactic(auto, using(crate::proofs::Order::last_used_again))]
    fn use_again(&mut self, i: usize)
        requires { i < length self.old.plans }
        ensures { self.new ≡ with_plan_used i self.old }
    {
        let last = self.plans.len() - 1;
        if i == last {
            return;
        }
        move_to_end(&mut self.plans, i);
    }

    /// Adds a plan as the last one, and drops the first one where there are more than the bound.
    #[tactic(auto, using(crate::proofs::Order::first_dropped, crate::proofs::Order::all_kept))]
    fn add(&mut self, cached: CachedPlan) -> Result<(), AllocError>
        ensures ok { OnOk result (self.new ≡ with_plan_added cached self.old) }
        ensures err { OnErr result (self.new ≡ self.old) }
    {
        self.plans.push(cached)?;
        if self.plans.len() > self.bound {
            drop_first(&mut self.plans);
        }
        Ok(())
    }
}

/// Moves the plan at an index to the end.
fn move_to_end(plans: &mut Vec<CachedPlan>, i: usize)
    requires { i < length plans.old.items }
    ensures { plans.new.items ≡ remove plans.old.items i ++ slice_range plans.old.items i (i + 1) }
{
    let cached = plans.remove(i);
    plans.push(cached).unwrap();
}

/// Drops the first plan.
fn drop_first(plans: &mut Vec<CachedPlan>)
    requires { 0 < length plans.old.items }
    ensures { plans.new.items ≡ drop 1 plans.old.items }
{
    let first = plans.remove(0);
    drop(first);
}

/// A text without characters needs no plan, and stays as it is, with the limits as at first.
fn leave_empty(buffer: &mut hb_buffer_t)
    requires text { IsText buffer.old }
    requires empty { all_glyphs buffer.old ≡ [] }
    ensures left { buffer.new ≡ after_leave buffer.old }
    ensures handed_on { IsResultOf buffer.old buffer.new }
{
    // The result has as many positions as glyphs, by the clauses of both calls.
    let is_placed = buffer.pos_slice().len() == buffer.len();
    prove!(is_placed);
    buffer.leave();
}
