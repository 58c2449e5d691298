//! The parameters of applying one lookup (rustybuzz: hb/ot_layout_gsubgpos.rs, `hb_ot_apply_context_t`).
ghost use Rattle.std.specs.Prelude.{◌≡◌, ◌<◌, not, length, true, false};
ghost use Rattle.buffer_glyphs.specs.Items.{item_of, strip};
ghost use Rattle.layout_match.specs.Searches.{is_left_out, search_of};
ghost use Rattle.layout_match.specs.Applied.{apply_context_of, context_search, next_random, own_search, own_syllable, positions_glyphs};

use crate::search::{GlyphSearch, is_left_out};
use buffer_core::buffer::hb_buffer_t;
use buffer_glyphs::info::hb_glyph_info_t;
use layout_face::Face;
use layout_map_features::per_table::TableIndex;

/// The parameters of applying one lookup (hb_ot_apply_context_t).
#[derive(Clone, Copy)]
pub struct hb_ot_apply_context_t<'a> {
    pub table_index: TableIndex,
    pub face: &'a Face,
    lookup_mask: u32,
    /// The lookup flag, and above its 16 bits the index of its mark filtering set.
    pub lookup_props: u32,
    pub auto_zwnj: bool,
    pub auto_zwj: bool,
    /// Whether a match stays within a syllable.
    pub per_syllable: bool,
    /// Whether an alternate may be drawn at random (feature `rand`).
    pub random: bool,
    /// The last number drawn, 1 at first.
    pub random_state: u32,
}

fn positions_glyphs(table: TableIndex) -> bool
    ensures { result ≡ positions_glyphs table }
{
    match table {
        TableIndex::GSUB => false,
        TableIndex::GPOS => true,
    }
}

impl<'a> hb_ot_apply_context_t<'a> {
    /// The parameters for the lookups of a table: no flag, the lowest bit as mask, joiners skipped, no limit to
    /// syllables, and no number drawn.
    pub fn new(table_index: TableIndex, face: &'a Face) -> hb_ot_apply_context_t<'a>
        ensures applied { apply_context_of result ≡ record {
          table = table_index;
          font = face.entry.now;
          props = 0;
          mask = 1;
          auto_zwnj = true;
          auto_zwj = true;
          per_syllable = false;
          random = false;
        } }
        ensures state { result.random_state ≡ 1 }
    {
        hb_ot_apply_context_t {
            table_index,
            face,
            lookup_mask: 1,
            lookup_props: 0,
            auto_zwnj: true,
            auto_zwj: true,
            per_syllable: false,
            random: false,
            random_state: 1,
        }
    }

    /// The feature bits of the lookup: it applies to a glyph that has one of them.
    pub fn lookup_mask(&self) -> u32
        ensures { result ≡ self.now.lookup_mask }
    {
        self.lookup_mask
    }

    /// Sets the feature bits of the lookup.
    pub fn set_lookup_mask(&mut self, mask: u32)
        ensures { self.new ≡ record self.old { lookup_mask = mask } }
    {
        self.lookup_mask = mask;
    }

    /// Whether a lookup flag admits a glyph; above its 16 bits the flag has the index of a mark filtering set.
    pub fn check_glyph_property(&self, info: &hb_glyph_info_t, match_props: u32) -> bool
        ensures { result ≡ not (is_left_out match_props self.now.face.now.gdef.sets (item_of info.now)) }
    {
        !is_left_out(self.face, match_props, info)
    }

    /// Draws a number (HarfBuzz: `random_number`, the minimal standard generator).
    pub fn random_number(&mut self) -> u32
        ensures value { result ≡ next_random self.old.random_state }
        ensures state { self.new ≡ record self.old { random_state = result } }
    {
        self.random_state = (u64::from(self.random_state) * 48271 % 2147483647) as u32;
        self.random_state
    }

    fn own_syllable(&self, buffer: &hb_buffer_t) -> Option<u8>
        requires { 0 < length buffer.now.ahead }
        ensures { result ≡ own_syllable (apply_context_of self.now) (strip buffer.now.ahead) }
    {
        if self.per_syllable {
            return Some(buffer.cur(0).syllable);
        }
        None
    }

    /// The search for a rule's input at the buffer's cursor.
    pub fn own_search(&self, buffer: &hb_buffer_t) -> GlyphSearch<'a>
        requires { 0 < length buffer.now.ahead }
        ensures { search_of result ≡ own_search (apply_context_of self.now) (strip buffer.now.ahead) }
    {
        let positions = positions_glyphs(self.table_index);
        GlyphSearch {
            face: self.face,
            lookup_props: self.lookup_props,
            ignore_zwnj: positions,
            ignore_zwj: self.auto_zwj,
            ignore_hidden: positions,
            mask: Some(self.lookup_mask),
            syllable: self.own_syllable(buffer),
        }
    }

    /// The search for a rule's context around its input.
    pub fn context_search(&self, buffer: &hb_buffer_t) -> GlyphSearch<'a>
        requires { 0 < length buffer.now.ahead }
        ensures { search_of result ≡ context_search (apply_context_of self.now) (strip buffer.now.ahead) }
    {
        let positions = positions_glyphs(self.table_index);
        GlyphSearch {
            face: self.face,
            lookup_props: self.lookup_props,
            ignore_zwnj: positions || self.auto_zwnj,
            ignore_zwj: true,
            ignore_hidden: positions,
            mask: None,
            syllable: self.own_syllable(buffer),
        }
    }
}
