//! The iterator over the glyphs that a lookup does not skip (rustybuzz: hb/ot_layout_gsubgpos.rs,
//! `skipping_iterator_t`).
//!
//! The two directions are calls of one form, by the searches of the two sides.
ghost use Rattle.std.specs.Prelude.{◌≡◌, ◌<◌, ◌≤◌, length, reverse, IfOk, if◌then◌else◌};
ghost use Rattle.buffer_glyphs.specs.Items.{item_of, strip};
ghost use Rattle.layout_match.specs.Applied.{apply_context_of, context_search, own_search};
ghost use Rattle.layout_match.specs.Searches.{search_of};
ghost use Rattle.layout_match.specs.Matches.{nearest_from};
ghost use Rattle.layout_match.specs.Walks.{iterator_answer, after_found};

use crate::apply_context::hb_ot_apply_context_t;
use crate::matching::{nearest_ahead, nearest_behind};
use crate::search::{GlyphSearch, match_t};
use crate::sequence::MatchSequence;
use buffer_core::buffer::hb_buffer_t;
use buffer_glyphs::info::hb_glyph_info_t;

/// An iterator ahead or back from the cursor, over the glyphs that a lookup doesn't skip. It holds no buffer: each call
/// is given it.
#[derive(Clone, Copy)]
pub struct skipping_iterator_t<'a> {
    search: GlyphSearch<'a>,
    sequence: Option<MatchSequence<'a>>,
    glyph_data: usize,
    index: usize,
}

impl<'a> skipping_iterator_t<'a> {
    /// An iterator from an index on, without a sequence: it matches each glyph that it can't skip. `context_match` is
    /// set for the context around an input.
    pub fn new(
        ctx: &hb_ot_apply_context_t<'a>,
        buffer: &hb_buffer_t,
        start: usize,
        context_match: bool,
    ) -> skipping_iterator_t<'a>
        requires { 0 < length buffer.now.ahead }
        ensures search { search_of result.search
            ≡ (if context_match then context_search (apply_context_of ctx.now) (strip buffer.now.ahead)
            else own_search (apply_context_of ctx.now) (strip buffer.now.ahead)) }
        ensures start { (result.sequence ≡ None) × (result.glyph_data ≡ 0) × (result.index ≡ start) }
    {
        let search = if context_match {
            ctx.context_search(buffer)
        } else {
            ctx.own_search(buffer)
        };
        skipping_iterator_t {
            search,
            sequence: None,
            glyph_data: 0,
            index: start,
        }
    }

    /// Sets the sequence whose glyphs are matched from now on, its first glyph first.
    pub fn enable_matching(&mut self, sequence: MatchSequence<'a>)
        ensures { self.new ≡ record self.old { sequence = Some sequence.entry; glyph_data = 0 } }
    {
        self.sequence = Some(sequence);
        self.glyph_data = 0;
    }

    /// Sets the index in the sequence of the glyph to match next.
    pub fn set_glyph_data(&mut self, k: usize)
        ensures { self.new ≡ record self.old { glyph_data = k } }
    {
        self.glyph_data = k;
    }

    /// Sets another lookup flag.
    pub fn set_lookup_props(&mut self, lookup_props: u32)
        ensures { self.new ≡ record self.old { search = record self.old.search { lookup_props = lookup_props } } }
    {
        self.search.lookup_props = lookup_props;
    }

    /// The index from which the search continues.
    pub fn index(&self) -> usize
        ensures { result ≡ self.now.index }
    {
        self.index
    }

    /// The iterator's answer for a glyph.
    pub fn match_(&self, info: &hb_glyph_info_t) -> match_t
        ensures { result ≡ iterator_answer self.now (item_of info.now) }
    {
        self.search.match_(self.sequence, self.glyph_data, info)
    }

    /// The next match: Ok(index), and the iterator stands after it; else Err(where the search ended), and it stays.
    pub fn next(&mut self, buffer: &hb_buffer_t) -> Result<usize, usize>
        requires { self.old.index ≤ length buffer.now.ahead }
        ensures found { result ≡ nearest_from (iterator_answer self.old) self.old.index (strip buffer.now.ahead) }
        ensures moved { self.new ≡ after_found result self.old }
        ensures inside { IfOk result (λ at. at < length buffer.now.ahead) }
    {
        // The number of glyphs bounds `at + 1`.
        let _end = buffer.len();
        let at = nearest_ahead(
            &self.search,
            self.sequence,
            self.glyph_data,
            self.index,
            buffer,
        )?;
        self.index = at + 1;
        Ok(at)
    }

    /// The next match backward from the cursor: Ok(index), and the iterator stands after it; else Err(where the search
    /// ended), and it stays.
    pub fn prev(&mut self, buffer: &hb_buffer_t) -> Result<usize, usize>
        requires { self.old.index ≤ length buffer.now.behind }
        ensures found { result ≡ nearest_from (iterator_answer self.old) self.old.index (reverse (strip buffer.now.behind)) }
        ensures moved { self.new ≡ after_found result self.old }
        ensures inside { IfOk result (λ at. at < length buffer.now.behind) }
    {
        // The number of glyphs before the cursor bounds `at + 1`.
        let _end = buffer.out_len();
        let at = nearest_behind(
            &self.search,
            self.sequence,
            self.glyph_data,
            self.index,
            buffer,
        )?;
        self.index = at + 1;
        Ok(at)
    }
}
