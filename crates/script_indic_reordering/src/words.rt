//! Left matras that begin words, and get the feature init (rustybuzz: hb/ot_shaper_indic.rs).
ghost use Rattle.std.specs.Prelude.{◌≡◌, ◌<◌, ◌-◌, ◌==◌, ◌&&◌, not, if◌then◌else◌, length, take, drop, slice_get, option_map, None, Some, []};
ghost use Rattle.buffer_glyphs.specs.Items.{Item, item_of, strip};
ghost use Rattle.buffer_glyphs.specs.Origins.{origin_of};
ghost use Rattle.buffer_core.specs.Sides.{all_glyphs, items_of};
ghost use Rattle.script_categories.specs.declared.shaper.hb_ot_script_shaper_t.TheVariants.{INDIC_SHAPER};
ghost use Rattle.script_categories.specs.Shapers.{is_reordered};
ghost use Rattle.buffer_stages.specs.Ready.{IsReady};
ghost use Rattle.buffer_stages.specs.Parts.{item_with_features};
ghost use Rattle.buffer_stages.specs.Bytes.{kind_of_byte};
ghost use Rattle.buffer_stages.specs.Stages.{Happens};
ghost use Rattle.script_indic_reordering.specs.Glyphs.{is_left};
ghost use Rattle.buffer_stages.specs.SyllableBuffers.{IsRewritten};
ghost use Rattle.script_indic_reordering.specs.Final.{begins_word, continues_word, is_left_in_word, is_of_syllable, is_word_category, word_events, words_begun};

use crate::glyphs::is_left;
use buffer_core::buffer::hb_buffer_t;
use buffer_glyphs::info::{hb_glyph_info_t, hb_mask_t};
use buffer_stages::parts::with_mask;
use buffer_stages::rewriting::{PartRule, rewrite_part};
use script_categories::hb_ot_script_shaper_t::INDIC_SHAPER;
use script_categories::syllable_kinds::SYLLABLE_KIND;

/// Left matras that begin a syllable and a word get the features of a mask, which is 0 where the font lacks them.
#[tactic(auto, using(crate::proofs::Lemmas::Words::no_words, crate::proofs::Lemmas::Flagged::happened_count, crate::proofs::Lemmas::Flagged::words_masked))]
pub(crate) fn mask_words(mask: hb_mask_t, buffer: &mut hb_buffer_t)
    requires ready { IsReady buffer.old }
    ensures { IsRewritten (record {
      items = words_begun (is_reordered INDIC_SHAPER) mask None (items_of buffer.old);
      events = if mask == 0 then [] else word_events (is_reordered INDIC_SHAPER) None 0 (items_of buffer.old);
    }) 0 (length (all_glyphs buffer.old)) buffer.old buffer.new }
{
    if mask == 0 {
        return;
    }
    let count = buffer.len();
    flag_words(buffer);
    rewrite_part(&Words { mask }, buffer, 0, count);
}

/// Flags each left matra that begins a syllable, but no word for the glyph before it alone, as unsafe to break where
/// PRODUCE_SAFE_BREAKS is set.
#[tactic(auto, using(crate::proofs::Lemmas::Flagged::none_flagged, crate::proofs::Lemmas::Flagged::next_flagged, crate::proofs::Lemmas::Flagged::all_flagged, crate::proofs::Lemmas::Flagged::same_count))]
fn flag_words(buffer: &mut hb_buffer_t)
    requires ready { IsReady buffer.old }
    ensures { Happens (word_events (is_reordered INDIC_SHAPER) None 0 (items_of buffer.old)) buffer.old buffer.new }
{
    if !buffer.asks_breaks() {
        return;
    }
    let count = buffer.len();
    for at in 1..count {
        flag_word(at, buffer);
    }
}

/// Flags the glyph at an index, and the one before it, where it is such a left matra.
fn flag_word(at: usize, buffer: &mut hb_buffer_t)
    requires ready { IsReady buffer.old }
    requires follows { 0 < at }
    requires within { at < length (all_glyphs buffer.old) }
    ensures { Happens (word_events (is_reordered INDIC_SHAPER) (slice_get (items_of buffer.old) (at - 1)) at
        (take 1 (drop at (items_of buffer.old)))) buffer.old buffer.new }
{
    let (before, glyph) = (buffer.info_slice()[at - 1], buffer.info_slice()[at]);
    if is_left_in_word(before, &glyph) {
        buffer.unsafe_to_break_strictly(Some(at - 1), Some(at + 1));
    }
}

#[derive(Clone, Copy)]
struct Words {
    mask: hb_mask_t,
}

impl PartRule for Words {
    ghost use Rattle.std.specs.Prelude.{None};
    ghost use Rattle.script_categories.specs.declared.shaper.hb_ot_script_shaper_t.TheVariants.{INDIC_SHAPER};
    ghost use Rattle.script_categories.specs.Shapers.{is_reordered};
    ghost use Rattle.script_indic_reordering.specs.Final.{words_begun};

    ghost made = { λ w. words_begun (is_reordered INDIC_SHAPER) w.mask None };

    fn make(&self, glyphs: &mut [hb_glyph_info_t]) {
        let mut before = None;
        for i in 0..glyphs.len() {
            let glyph = glyphs[i];
            glyphs[i] = masked_at_word(self.mask, before, glyph);
            before = Some(glyph);
        }
    }
}

fn masked_at_word(
    mask: hb_mask_t,
    before: Option<hb_glyph_info_t>,
    glyph: hb_glyph_info_t,
) -> hb_glyph_info_t
    ensures item { item_of result
        ≡ (if begins_word (is_reordered INDIC_SHAPER) (option_map item_of before) (item_of glyph) then item_with_features mask (item_of glyph) else item_of glyph) }
    ensures origin { origin_of result ≡ origin_of glyph }
{
    if begins_word(before, &glyph) {
        return with_mask(glyph, mask);
    }
    glyph
}

/// Whether a glyph begins a syllable of a kind that is reordered with a left matra, and no word for the glyph before it
/// alone.
fn is_left_in_word(before: hb_glyph_info_t, glyph: &hb_glyph_info_t) -> bool
    ensures { result ≡ is_left_in_word (is_reordered INDIC_SHAPER) (Some (item_of before)) (item_of glyph.now) }
{
    begins_left(Some(before), glyph) && continues_word(Some(before))
}

/// Whether a glyph begins a syllable of a kind that is reordered with a left matra.
fn begins_left(before: Option<hb_glyph_info_t>, glyph: &hb_glyph_info_t) -> bool
    ensures { result ≡ (not (is_of_syllable glyph.now.syllable (option_map item_of before))
        && is_reordered INDIC_SHAPER (kind_of_byte glyph.now.syllable) && is_left (item_of glyph.now)) }
{
    !is_of_syllable(glyph.syllable, before)
        && INDIC_SHAPER.is_reordered(glyph.syllable & SYLLABLE_KIND)
        && is_left(glyph)
}

/// Whether a glyph begins a syllable of a kind that is reordered, and a word, with a left matra.
fn begins_word(before: Option<hb_glyph_info_t>, glyph: &hb_glyph_info_t) -> bool
    ensures { result ≡ begins_word (is_reordered INDIC_SHAPER) (option_map item_of before) (item_of glyph.now) }
{
    begins_left(before, glyph) && !continues_word(before)
}

fn is_of_syllable(byte: u8, glyph: Option<hb_glyph_info_t>) -> bool
    ensures { result ≡ is_of_syllable byte (option_map item_of glyph) }
{
    match glyph {
        Some(glyph) => glyph.syllable == byte,
        None => false,
    }
}

/// Whether a word continues after a glyph: it is a letter, a mark or a format character.
fn continues_word(glyph: Option<hb_glyph_info_t>) -> bool
    ensures { result ≡ continues_word (option_map item_of glyph) }
{
    match glyph {
        Some(glyph) => is_word_category(glyph.unicode_props.0 & 0x1F),
        None => false,
    }
}

fn is_word_category(category: u16) -> bool
    ensures { result ≡ is_word_category category }
{
    (1..=12).contains(&category)
}
