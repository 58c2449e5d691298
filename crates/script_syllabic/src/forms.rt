//! The topographical forms of syllables by their neighbours, setup_topographical_masks (rustybuzz:
//! hb/ot_shaper_use.rs).
ghost use Rattle.std.specs.Prelude.{◌≡◌, ◌≤◌, ◌<◌, true, false, ◌++◌, length, map, take, drop, slice_range};
ghost use Rattle.buffer_glyphs.specs.Items.{strip};
ghost use Rattle.buffer_core.specs.Readings.{always};
ghost use Rattle.buffer_core.specs.Sides.{all_glyphs, items_of};
ghost use Rattle.buffer_stages.specs.Ready.{IsReady};
ghost use Rattle.buffer_stages.specs.Rewriting.{in_syllables};
ghost use Rattle.buffer_stages.specs.Stages.{Happens, IsFollowed};
ghost use Rattle.buffer_glyphs.specs.Rewriting.{eventless_arrangement};
ghost use Rattle.buffer_stages.specs.SyllableBuffers.{IsRewritten, with_rule};
ghost use Rattle.script_syllabic.specs.Features.{all_forms, form_bits, form_of, seam_event, seam_events, syllable_with_form, connects, topography, topography_events, with_form};
ghost use Rattle.script_syllabic.specs.Formed.{glyph_with_form};

use buffer_core::buffer::hb_buffer_t;
use buffer_glyphs::info::{DEFINED, hb_glyph_info_t, hb_mask_t};
use script_categories::syllable_kinds::SYLLABLE_KIND;
use script_categories::syllable_kinds::universal::{HIEROGLYPH_CLUSTER, NON_CLUSTER};

/// The mask bit that every glyph has.
const GLOBAL_BIT: hb_mask_t = 0x8000_0000;

/// The masks of the topographical forms, 0 where the font has none.
#[derive(Clone, Copy)]
pub struct FormMasks {
    pub isol: hb_mask_t,
    pub init: hb_mask_t,
    pub medi: hb_mask_t,
    pub fina: hb_mask_t,
}

impl FormMasks {
    /// The form of a syllable, by whether the previous and the next one join.
    fn form(&self, before: bool, behind: bool) -> hb_mask_t
        ensures { result ≡ form_of self.now before behind }
    {
        match (before, behind) {
            (true, true) => self.medi,
            (true, false) => self.fina,
            (false, true) => self.init,
            (false, false) => self.isol,
        }
    }

    fn all(&self) -> hb_mask_t
        ensures { result ≡ all_forms self.now }
    {
        (self.isol | self.init) | (self.medi | self.fina)
    }

    /// The bits that are cleared before a syllable gets its form.
    fn bits(&self) -> hb_mask_t
        ensures { result ≡ form_bits self.now }
    {
        let all = self.all();
        all - (all & (GLOBAL_BIT | DEFINED))
    }
}

/// Gives each joining syllable the mask of its form (`setup_topographical_masks`): isol where neither neighbour connects,
/// init where only the next does, fina where only the previous does, else medi. Syllables of kind hieroglyph or
/// non-cluster don't join. Where PRODUCE_SAFE_BREAKS is set, it is unsafe to break between two that connect, if the font
/// has one of the forms. It takes linear time and no memory.
pub fn setup_topographical_masks(masks: &FormMasks, buffer: &mut hb_buffer_t)
    requires ready { IsReady buffer.old }
    ensures { IsFollowed (always (with_rule (topography masks.now))) buffer.old buffer.new }
{
    flag_seams(masks, buffer);
    let count = buffer.len();
    let mut before = false;
    let mut start = 0;
    while start < count {
        let end = buffer.next_syllable(start);
        before = form_syllable(masks, buffer, start, end, before);
        start = end;
    }
}

/// Flags each seam between two syllables that connect as unsafe to break where PRODUCE_SAFE_BREAKS is set: they give each
/// other their forms, if the font has one.
#[tactic(auto, using(crate::proofs::Seams::no_forms, crate::proofs::Seams::some_forms))]
fn flag_seams(masks: &FormMasks, buffer: &mut hb_buffer_t)
    requires ready { IsReady buffer.old }
    ensures { Happens (topography_events masks.now (in_syllables (items_of buffer.old))) buffer.old buffer.new }
{
    if masks.all() == 0 {
        return;
    }
    flag_each_seam(buffer);
}

/// Flags each seam between two syllables that connect. It walks only where PRODUCE_SAFE_BREAKS is set.
fn flag_each_seam(buffer: &mut hb_buffer_t)
    requires ready { IsReady buffer.old }
    ensures { Happens (seam_events false 0 (in_syllables (items_of buffer.old))) buffer.old buffer.new }
{
    if !buffer.asks_breaks() {
        return;
    }
    let count = buffer.len();
    let mut before = false;
    let mut start = 0;
    while start < count {
        let end = buffer.next_syllable(start);
        let connects = connects_at(buffer, start);
        flag_seam(before && connects, start, buffer);
        before = connects;
        start = end;
    }
}

/// Flags the seam before an index where the syllables on both sides connect.
#[tactic(auto, using(crate::proofs::Seams::not_connected, crate::proofs::Strict::strict_break_happens, buffer_stages::proofs::Lemmas::Happened::end_of_input))]
fn flag_seam(connected: bool, at: usize, buffer: &mut hb_buffer_t)
    requires ready { IsReady buffer.old }
    requires begun { connected ≡ true → 0 < at }
    requires within { at < length (all_glyphs buffer.old) }
    ensures { Happens (seam_event connected at) buffer.old buffer.new }
{
    if !connected {
        return;
    }
    // The length says that the sum fits its type.
    let _len = buffer.len();
    buffer.unsafe_to_break_strictly(Some(at - 1), Some(at + 1));
}

/// Gives the syllable `start..end` its form, and returns whether it connects.
fn form_syllable(
    masks: &FormMasks,
    buffer: &mut hb_buffer_t,
    start: usize,
    end: usize,
    before: bool,
) -> bool
    requires ready { IsReady buffer.old }
    requires ordered { start < end }
    requires within { end ≤ length (all_glyphs buffer.old) }
    ensures rewritten { IsRewritten (eventless_arrangement (syllable_with_form masks.now before (slice_range (items_of buffer.old) start end)
        (connects (drop end (items_of buffer.old))))) start end buffer.old buffer.new }
    ensures connects { result ≡ connects (drop start (items_of buffer.old)) }
{
    if !connects_at(buffer, start) {
        return false;
    }
    let behind = connects_at(buffer, end);
    set_form(masks, buffer, start, end, masks.form(before, behind));
    true
}

/// Whether the syllable that begins at an index connects to its neighbours.
fn connects_at(buffer: &hb_buffer_t, at: usize) -> bool
    requires ready { IsReady buffer.now }
    requires within { at ≤ length (all_glyphs buffer.now) }
    ensures { result ≡ connects (drop at (items_of buffer.now)) }
{
    connects(&buffer.info_slice()[at..])
}

/// Whether the first syllable of these glyphs connects to its neighbours.
fn connects(glyphs: &[hb_glyph_info_t]) -> bool
    ensures { result ≡ connects (strip glyphs.now) }
{
    match glyphs.first() {
        Some(first) => !matches!(
            first.syllable & SYLLABLE_KIND,
            HIEROGLYPH_CLUSTER | NON_CLUSTER
        ),
        None => false,
    }
}

fn set_form(masks: &FormMasks, buffer: &mut hb_buffer_t, start: usize, end: usize, form: hb_mask_t)
    requires ready { IsReady buffer.old }
    requires ordered { start ≤ end }
    requires within { end ≤ length (all_glyphs buffer.old) }
    ensures { IsRewritten (eventless_arrangement (map (with_form masks.now form) (slice_range (items_of buffer.old) start end))) start
        end
        buffer.old buffer.new }
{
    form_within(buffer.info_slice_mut(), start, end, masks.bits(), form);
}

fn form_within(
    glyphs: &mut [hb_glyph_info_t],
    start: usize,
    end: usize,
    bits: hb_mask_t,
    form: hb_mask_t,
)
    requires ordered { start ≤ end }
    requires within { end ≤ length glyphs.old }
    ensures { glyphs.new ≡ take start glyphs.old ++ map (glyph_with_form bits form) (slice_range glyphs.old start end)
        ++ drop end glyphs.old }
{
    form_each(&mut glyphs[start..end], bits, form);
}

#[tactic(auto, using(buffer_glyphs::proofs::Lists::map_step))]
fn form_each(glyphs: &mut [hb_glyph_info_t], bits: hb_mask_t, form: hb_mask_t)
    ensures { glyphs.new ≡ map (glyph_with_form bits form) glyphs.old }
{
    for glyph in glyphs.iter_mut() {
        *glyph = with_form(*glyph, bits, form);
    }
}

fn with_form(glyph: hb_glyph_info_t, bits: hb_mask_t, form: hb_mask_t) -> hb_glyph_info_t
    ensures { result ≡ glyph_with_form bits form glyph }
{
    let features = form - (form & DEFINED);
    hb_glyph_info_t {
        mask: (glyph.mask - (glyph.mask & bits)) | features,
        ..glyph
    }
}
