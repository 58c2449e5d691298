//! The search for the glyphs of a rule (rustybuzz: hb/ot_layout_gsubgpos.rs, `matcher_t`).
ghost use Rattle.std.specs.Prelude.{◌≡◌};
ghost use Rattle.buffer_glyphs.specs.Items.{item_of};
ghost use Rattle.layout_match.specs.Searches.{answer, has_mask, is_in_syllable, is_left_out, is_other_mark, is_skippable, search_of, test_of};

use crate::sequence::MatchSequence;
use buffer_glyphs::flags::{GlyphPropsFlags, UnicodeProps};
use buffer_glyphs::info::{DEFINED, hb_glyph_info_t};
use buffer_glyphs::property_words::_hb_glyph_info_is_default_ignorable;
use layout_common::flags::{IGNORE_FLAGS, MARK_ATTACHMENT_TYPE_MASK, USE_MARK_FILTERING_SET};
use layout_face::Face;

/// A search's answer for a glyph.
#[derive(Clone, Copy)]
pub enum match_t {
    /// It matches.
    MATCH,
    /// It doesn't match, and ends the search.
    NOT_MATCH,
    /// It is skipped.
    SKIP,
}

/// The parameters of a search: the glyphs that are skipped, and the conditions on a match besides its test.
#[derive(Clone, Copy)]
pub struct GlyphSearch<'a> {
    pub face: &'a Face,
    /// The lookup flag, and above its 16 bits the index of its mark filtering set.
    pub lookup_props: u32,
    pub ignore_zwnj: bool,
    pub ignore_zwj: bool,
    pub ignore_hidden: bool,
    /// The feature bits of which a match needs one, where there is such a condition.
    pub mask: Option<u32>,
    /// The syllable byte that a match needs, where there is such a condition.
    pub syllable: Option<u8>,
}

// (Not inlined, so that the test of a glyph that is no mark is.)
#[inline(never)]
fn is_other_mark(face: &Face, lookup_props: u32, info: &hb_glyph_info_t) -> bool
    ensures { result ≡ is_other_mark lookup_props face.now.gdef.sets (item_of info.now) }
{
    if lookup_props & u32::from(USE_MARK_FILTERING_SET) != 0 {
        let set = (lookup_props / 0x1_0000) as u16;
        return !(info.glyph_id <= 65535 && face.is_in_mark_set(set, info.glyph_id as u16));
    }
    let attachment = lookup_props & u32::from(MARK_ATTACHMENT_TYPE_MASK);
    attachment != 0
        && attachment != u32::from(info.glyph_props.0) & u32::from(MARK_ATTACHMENT_TYPE_MASK)
}

/// Whether a lookup flag leaves out a glyph.
pub fn is_left_out(face: &Face, lookup_props: u32, info: &hb_glyph_info_t) -> bool
    ensures { result ≡ is_left_out lookup_props face.now.gdef.sets (item_of info.now) }
{
    let glyph_props = u32::from(info.glyph_props.0);
    glyph_props & (lookup_props & u32::from(IGNORE_FLAGS)) != 0
        || (info.glyph_props.0 & GlyphPropsFlags::MARK.0 != 0
            && is_other_mark(face, lookup_props, info))
}

impl<'a> GlyphSearch<'a> {
    pub(crate) fn is_skippable(&self, info: &hb_glyph_info_t) -> bool
        ensures { result ≡ is_skippable (search_of self.now) (item_of info.now) }
    {
        let props = info.unicode_props.0;
        _hb_glyph_info_is_default_ignorable(info)
            && (self.ignore_hidden || props & UnicodeProps::HIDDEN.0 == 0)
            && (self.ignore_zwnj || props & UnicodeProps::CF_ZWNJ.0 == 0)
            && (self.ignore_zwj || props & UnicodeProps::CF_ZWJ.0 == 0)
    }

    pub(crate) fn has_mask(&self, info: &hb_glyph_info_t) -> bool
        ensures { result ≡ has_mask (search_of self.now).mask (item_of info.now) }
    {
        // A mask of features has none of the glyph flags.
        let features = info.mask - (info.mask & DEFINED);
        match self.mask {
            None => true,
            Some(bits) => features & bits != 0,
        }
    }

    pub(crate) fn is_in_syllable(&self, info: &hb_glyph_info_t) -> bool
        ensures { result ≡ is_in_syllable (search_of self.now).syllable (item_of info.now) }
    {
        match self.syllable {
            None => true,
            Some(syllable) => info.syllable == syllable,
        }
    }

    fn fits(&self, sequence: Option<MatchSequence<'a>>, k: usize, info: &hb_glyph_info_t) -> bool
        ensures { result ≡ test_of (search_of self.now) sequence.entry k (item_of info.now) }
    {
        match sequence {
            None => !self.is_skippable(info),
            Some(sequence) => sequence.fits(k, info),
        }
    }

    /// The search's answer for a glyph as the k-th of a sequence; without a sequence it matches any glyph that it can't
    /// skip.
    pub fn match_(
        &self,
        sequence: Option<MatchSequence<'a>>,
        k: usize,
        info: &hb_glyph_info_t,
    ) -> match_t
        ensures { result
            ≡ answer (search_of self.now) (test_of (search_of self.now) sequence.entry k) (item_of info.now) }
    {
        // Where many such glyphs follow each other, this test alone decides.
        if sequence.is_none() && self.is_skippable(info) {
            return match_t::SKIP;
        }
        if is_left_out(self.face, self.lookup_props, info) {
            return match_t::SKIP;
        }
        if self.has_mask(info) && self.is_in_syllable(info) && self.fits(sequence, k, info) {
            return match_t::MATCH;
        }
        if self.is_skippable(info) {
            return match_t::SKIP;
        }
        match_t::NOT_MATCH
    }
}
