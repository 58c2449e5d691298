//! Syllable bytes: a serial number in the high four bits, a kind in the low four (rustybuzz: hb/ot_shaper_syllabic.rs).
ghost use Rattle.std.specs.Prelude.{◌≡◌, ◌≤◌, ◌<◌, ◌++◌, ℕ, Err, length, map, take, drop, slice_range, IfErr, IfOk, OnOk};
ghost use Rattle.buffer_core.specs.Readings.{reading_of};
ghost use Rattle.buffer_core.specs.Sides.{all_glyphs, items_of, state_of};
ghost use Rattle.buffer_stages.specs.Ready.{IsReady};
ghost use Rattle.script_categories.specs.Shapers.{kinds_of};
ghost use Rattle.buffer_stages.specs.Bytes.{syllable_byte};
ghost use Rattle.buffer_stages.specs.Cuts.{syllables};
ghost use Rattle.buffer_stages.specs.Stages.{DoesStage, IsFollowed};
ghost use Rattle.buffer_stages.specs.SyllableBuffers.{IsRewritten};
ghost use Rattle.script_syllabic.specs.Bytes.{bytes_of, one_syllable, syllables_set};
ghost use Rattle.script_syllabic.specs.Rules.{glyph_with_byte};

use buffer_core::buffer::hb_buffer_t;
use buffer_glyphs::cause::ShapeCause;
use buffer_glyphs::info::hb_glyph_info_t;
use script_categories::{SyllableSpans, hb_ot_script_shaper_t};
use std::alloc::{AllocError, Global};

/// The index in the buffer of the i-th glyph that counts for syllables.
pub trait SyllableIndices {
    ghost index_of: { Self → ℕ → ℕ };

    /// The index in the buffer; after the last counted glyph, the buffer's length.
    fn buffer_index(&self, index: usize) -> usize
        ensures { result ≡ index_of self.now index };
}

/// Every glyph counts.
#[derive(Clone, Copy)]
pub struct Each;

impl SyllableIndices for Each {
    ghost use Rattle.script_syllabic.specs.Bytes.{itself};

    ghost index_of = { λ _. itself };

    fn buffer_index(&self, index: usize) -> usize {
        index
    }
}

/// Sets the syllable byte of each glyph, a serial number and a kind, and flags each syllable as unsafe to break. The
/// spans find the ends of syllables by the glyphs' categories. It takes the time of the spans, and memory for the
/// categories.
///
/// # Errors
///
/// `UnknownSyllableKind` where the spans name a kind that the shaper does not have, or lack of memory.
pub fn setup_syllables<S: SyllableSpans>(
    alloc: Global,
    spans: &S,
    shaper: hb_ot_script_shaper_t,
    buffer: &mut hb_buffer_t,
) -> Result<(), ShapeCause>
    requires ready { IsReady buffer.old }
    ensures { DoesStage (syllables_set (S.span_of spans.now) shaper) result buffer.old buffer.new }
{
    let categories = categories_of(alloc, buffer.info_slice())?;
    set_bytes(spans, shaper, &categories, &Each, buffer)
}

/// The categories of all glyphs.
pub(crate) fn categories_of(
    alloc: Global,
    glyphs: &[hb_glyph_info_t],
) -> Result<Vec<u8>, AllocError>
    ensures { IfOk result (λ cs. cs.items ≡ map (λ g. g.category) glyphs.now) }
{
    // A collected list has its length from the first on, and isn't copied as it grows.
    glyphs.iter().map(|glyph| glyph.category).collect(alloc)
}

/// Sets the bytes of the syllables of a list of categories, whose indices in the buffer `P` gives.
///
/// # Errors
///
/// `UnknownSyllableKind` alone, where the spans name a kind that the shaper does not have.
#[tactic(auto, using(crate::proofs::Marking::marking_begun, crate::proofs::Marking::unknown_by))]
pub fn set_bytes<S: SyllableSpans, P: SyllableIndices>(
    spans: &S,
    shaper: hb_ot_script_shaper_t,
    categories: &[u8],
    buffer_indices: &P,
    buffer: &mut hb_buffer_t,
) -> Result<(), ShapeCause>
    requires ready { IsReady buffer.old }
    requires rising { (i j : ℕ) → i ≤ j → P.index_of buffer_indices.now i ≤ P.index_of buffer_indices.now j }
    requires within { P.index_of buffer_indices.now (length categories.now) ≤ length (all_glyphs buffer.old) }
    ensures ok { OnOk result (IsFollowed (bytes_of shaper (P.index_of buffer_indices.now)
        (syllables (S.span_of spans.now shaper categories.now) (length categories.now))) buffer.old buffer.new) }
    ensures err { IfErr result (λ e. reading_of (bytes_of shaper (P.index_of buffer_indices.now)
        (syllables (S.span_of spans.now shaper categories.now) (length categories.now))) (state_of buffer.old) ≡ Err e) }
{
    let mut index = 0;
    let mut start = 0;
    while start < categories.len() {
        let (end, kind) = spans.next(shaper, categories, start);
        if !shaper.has_kind(kind) {
            return Err(ShapeCause::UnknownSyllableKind);
        }
        let from = buffer_indices.buffer_index(start);
        let to = buffer_indices.buffer_index(end);
        set_byte(buffer, from, to, byte_of(shaper, index, kind));
        index += 1;
        start = end;
    }
    Ok(())
}

/// The syllable byte of the syllable with an index in the text: its serial number in the high four bits, its kind in
/// the low four.
fn byte_of(shaper: hb_ot_script_shaper_t, index: usize, kind: u8) -> u8
    requires { kind < length (kinds_of shaper) }
    ensures { result ≡ syllable_byte index kind }
{
    let serial = (index % 15 + 1) as u8;
    serial * 16 + kind
}

/// Sets the syllable byte of the glyphs `start..end`, and flags them as unsafe to break.
fn set_byte(buffer: &mut hb_buffer_t, start: usize, end: usize, byte: u8)
    requires ready { IsReady buffer.old }
    requires ordered { start ≤ end }
    requires within { end ≤ length (all_glyphs buffer.old) }
    ensures { IsRewritten (one_syllable byte (slice_range (items_of buffer.old) start end)) start end buffer.old
        buffer.new }
{
    byte_within(buffer.info_slice_mut(), start, end, byte);
    buffer.unsafe_to_break(Some(start), Some(end));
}

fn byte_within(glyphs: &mut [hb_glyph_info_t], start: usize, end: usize, byte: u8)
    requires ordered { start ≤ end }
    requires within { end ≤ length glyphs.old }
    ensures { glyphs.new ≡ take start glyphs.old ++ map (glyph_with_byte byte) (slice_range glyphs.old start end)
        ++ drop end glyphs.old }
{
    byte_each(&mut glyphs[start..end], byte);
}

#[tactic(auto, using(buffer_glyphs::proofs::Lists::map_step))]
fn byte_each(glyphs: &mut [hb_glyph_info_t], byte: u8)
    ensures { glyphs.new ≡ map (glyph_with_byte byte) glyphs.old }
{
    for glyph in glyphs.iter_mut() {
        glyph.syllable = byte;
    }
}
