//! The list of a buffer: its length, its characters, its slices (rustybuzz: hb/buffer.rs).
ghost use Rattle.std.specs.Prelude.{◌≡◌, ◌+◌, ◌≤◌, ◌<◌, ◌^◌, ◌==◌, ◌++◌, ◌∷◌, [], length, not, nat_le, false, true, Ok, OnOk, OnErr, IfOk, IsTrue, vec_len, vec_capacity};
ghost use Rattle.std.specs.Str.{chars};
ghost use Rattle.buffer_core.specs.Sides.{all_glyphs, items_of, with_added, has_room, after_refusal, zero_positions, origins_of};
ghost use Rattle.buffer_glyphs.specs.Items.{clusters, item_of, zero_position};
ghost use Rattle.buffer_lists.specs.Known.{HasOrder};
ghost use Rattle.buffer_core.specs.Text.{added_glyph, added_text, fits_text, offsets_fit, text_items, unflagged_origin, text_origins};
ghost use Rattle.buffer_core.specs.Moving.{of_length, with_len, zero_glyph};
ghost use Rattle.buffer_core.specs.Appended.{IsAppended};

use super::hb_buffer_t;
use buffer_glyphs::info::hb_glyph_info_t;
use buffer_glyphs::position::GlyphPosition;
use buffer_lists::order::{ClusterOrder, KnownOrder};
use std::alloc::AllocError;

impl hb_buffer_t {
    /// How many glyphs there are while no output is open; while one is, how many the input has, those already read
    /// included.
    pub fn len(&self) -> usize
        ensures input { result ≡ self.now.read + length self.now.ahead }
        ensures count { self.now.is_open ≡ false → result ≡ length (all_glyphs self.now) }
        ensures within { self.now.is_open ≡ false → result ≤ self.now.max_len }
    {
        self.info.len() - self.gap
    }

    /// Whether `len` is 0.
    pub fn is_empty(&self) -> bool
        ensures { result ≡ (length (all_glyphs self.now) == 0) }
    {
        self.out_len() == 0 && self.lookahead_len() == 0
    }

    /// Whether an output is open.
    pub fn have_output(&self) -> bool
        ensures { result ≡ self.now.is_open }
    {
        self.have_output
    }

    /// Whether no call was refused for length.
    pub fn successful(&self) -> bool
        ensures { result ≡ not self.now.has_refused }
    {
        self.successful
    }

    /// How many glyphs were read since the output was opened; with none open, how many the cursor has passed.
    pub fn idx(&self) -> usize
        ensures { result ≡ self.now.read }
    {
        self.idx - self.gap
    }

    /// All glyphs while no output is open.
    pub fn info_slice(&self) -> &[hb_glyph_info_t]
        requires { self.now.is_open ≡ false }
        ensures { result.now ≡ all_glyphs self.now }
    {
        &self.info
    }

    /// The glyphs' positions while no output is open.
    pub fn pos_slice(&self) -> &[GlyphPosition]
        requires { self.now.is_open ≡ false }
        ensures same { result.now ≡ self.now.positions }
        ensures len { length result.now ≡ length (all_glyphs self.now) }
    {
        &self.pos
    }

    #[tactic(auto, using(crate::proofs::Apart::added_items, crate::proofs::Apart::added_origins))]
    /// Adds a character; answers false, and adds nothing, where the list has as many as it may.
    pub fn add(&mut self, codepoint: char, cluster: u32) -> Result<bool, AllocError>
        requires { self.old.is_open ≡ false }
        ensures held { IfOk result (λ b. b ≡ has_room 1 self.old) }
        ensures added { result ≡ Ok true → self.new ≡ with_added (added_glyph codepoint cluster ∷ []) self.old }
        ensures items { result ≡ Ok true →
            items_of self.new ≡ items_of self.old ++ item_of (added_glyph codepoint 0) ∷ [] }
        ensures origins { result ≡ Ok true →
            origins_of self.new ≡ origins_of self.old ++ unflagged_origin cluster ∷ [] }
        ensures full { result ≡ Ok false → self.new ≡ self.old }
        ensures err { OnErr result (self.new ≡ self.old) }
    {
        if self.info.len() >= self.max_len {
            return Ok(false);
        }
        self.info.reserve(1)?;
        self.pos.push(GlyphPosition::default())?;
        self.order.settle(&self.info);
        self.order.known = self.order.known.with_last(&self.info, cluster);
        self.info.push(added(codepoint, cluster)).unwrap();
        Ok(true)
    }

    /// Frees memory that the lists have beyond their glyphs and positions. It changes nothing that is seen.
    pub fn shrink_to_fit(&mut self)
        ensures { self.new ≡ self.old }
    {
        self.info.shrink_to_fit();
        self.pos.shrink_to_fit();
    }

    /// Truncates the list to n glyphs, or fills it up with zero glyphs and positions; the cursor is at most at its end.
    /// It answers false, and changes nothing, where the list would have more than it may.
    pub fn set_len(&mut self, n: usize) -> Result<bool, AllocError>
        requires { self.old.is_open ≡ false }
        ensures held { IfOk result (λ b. b ≡ nat_le n self.old.max_len) }
        ensures set { result ≡ Ok true → self.new ≡ with_len n self.old }
        ensures items { result ≡ Ok true → items_of self.new ≡ of_length n (item_of zero_glyph) (items_of self.old) }
        ensures origins { result ≡ Ok true → origins_of self.new
            ≡ of_length n (unflagged_origin 0) (origins_of self.old) }
        ensures full { result ≡ Ok false → self.new ≡ after_refusal self.old }
        ensures err { OnErr result (self.new ≡ self.old) }
    {
        if n > self.max_len {
            self.successful = false;
            return Ok(false);
        }
        resize_lists(&mut self.info, &mut self.pos, n)?;
        self.is_placed = true;
        self.idx = self.idx.min(n);
        self.order = ClusterOrder::of(KnownOrder::Unknown);
        Ok(true)
    }

    #[tactic(auto, using(crate::proofs::Appended::appended_view, crate::proofs::Appended::appended_sound))]
    /// Appends the characters of a text, each with the index of its first byte as its cluster; answers false, and
    /// appends nothing, where the list would have more than it may or a character begins past byte `u32::MAX`.
    pub fn push_str(&mut self, text: &str) -> Result<bool, AllocError>
        requires { self.old.is_open ≡ false }
        ensures held { IfOk result (λ b. b ≡ fits_text text.now self.old) }
        ensures added { result ≡ Ok true → self.new ≡ with_added (added_text text.now) self.old }
        ensures items { result ≡ Ok true → items_of self.new ≡ items_of self.old ++ text_items text.now }
        ensures origins { result ≡ Ok true → origins_of self.new ≡ origins_of self.old ++ text_origins text.now }
        ensures full { result ≡ Ok false → self.new ≡ self.old }
        ensures err { OnErr result (self.new ≡ self.old) }
    {
        let count = count_chars(text);
        if self.max_len - self.info.len() < count || !offsets_fit(text) {
            return Ok(false);
        }
        let known = order_of_text(&self.info, text);
        append_text(&mut self.info, &mut self.pos, text, count)?;
        self.order = ClusterOrder::of(known);
        Ok(true)
    }
}

fn resize_lists(
    glyphs: &mut Vec<hb_glyph_info_t>,
    positions: &mut Vec<GlyphPosition>,
    n: usize,
) -> Result<(), AllocError>
    ensures glyphs_ok { OnOk result (glyphs.new.items ≡ of_length n zero_glyph glyphs.old.items) }
    ensures places_ok { OnOk result (positions.new.items ≡ of_length n zero_position positions.old.items) }
    ensures glyphs_err { OnErr result (glyphs.new.items ≡ glyphs.old.items) }
    ensures places_err { OnErr result (positions.new.items ≡ positions.old.items) }
{
    let missing = n.saturating_sub(glyphs.len());
    glyphs.reserve(missing)?;
    positions.resize(n, GlyphPosition::default())?;
    glyphs.resize(n, hb_glyph_info_t::default()).unwrap();
    Ok(())
}

fn added(codepoint: char, cluster: u32) -> hb_glyph_info_t
    ensures { result ≡ added_glyph codepoint cluster }
{
    hb_glyph_info_t {
        glyph_id: codepoint as u32,
        cluster,
        ..hb_glyph_info_t::default()
    }
}

#[tactic(auto, using(std::proofs::lemmas::Str::chars_from_encodes))]
fn count_chars(text: &str) -> usize
    ensures { result ≡ length (chars text.now) }
{
    text.chars().count()
}

// Whether each character begins at a byte whose index fits 32 bits: all of them do in a text of that many bytes.
#[tactic(auto, using(crate::proofs::Chars::short_text_fits))]
fn offsets_fit(text: &str) -> bool
    ensures { result ≡ offsets_fit 0 (chars text.now) }
{
    if text.len() <= u32::MAX as usize {
        return true;
    }
    each_offset_fits(text)
}

// (Not inlined: hardly any text is as long.)
#[inline(never)]
#[tactic(auto, using(crate::proofs::Chars::offsets_fit_none, crate::proofs::Chars::offsets_fit_step, crate::proofs::Chars::utf8_step))]
fn each_offset_fits(text: &str) -> bool
    ensures { result ≡ offsets_fit 0 (chars text.now) }
{
    for (at, _) in text.char_indices() {
        if at > u32::MAX as usize {
            return false;
        }
    }
    true
}

#[tactic(auto, using(crate::proofs::Chars::length_added))]
fn append_text(
    glyphs: &mut Vec<hb_glyph_info_t>,
    positions: &mut Vec<GlyphPosition>,
    text: &str,
    count: usize,
) -> Result<(), AllocError>
    requires counted { count ≡ length (chars text.now) }
    requires fit { IsTrue (offsets_fit 0 (chars text.now)) }
    requires even { vec_len positions.old ≡ vec_len glyphs.old }
    requires small { vec_len glyphs.old + count < 2 ^ 64 }
    ensures ok { OnOk result
        (IsAppended (added_text text.now) glyphs.old.items positions.old.items glyphs.new.items positions.new.items) }
    ensures glyphs_err { OnErr result (glyphs.new.items ≡ glyphs.old.items) }
    ensures places_err { OnErr result (positions.new.items ≡ positions.old.items) }
{
    glyphs.reserve(count)?;
    extend_positions(positions, count)?;
    push_chars(glyphs, text);
    Ok(())
}

fn extend_positions(positions: &mut Vec<GlyphPosition>, count: usize) -> Result<(), AllocError>
    requires { vec_len positions.old + count < 2 ^ 64 }
    ensures ok { OnOk result (positions.new.items ≡ positions.old.items ++ zero_positions count) }
    ensures err { OnErr result (positions.new.items ≡ positions.old.items) }
{
    positions.resize(positions.len() + count, GlyphPosition::default())
}

#[tactic(auto, using(crate::proofs::Chars::added_none, crate::proofs::Chars::added_step, crate::proofs::Chars::fit_step, crate::proofs::Chars::count_step, crate::proofs::Chars::utf8_step))]
fn push_chars(glyphs: &mut Vec<hb_glyph_info_t>, text: &str)
    requires room { vec_len glyphs.old + length (chars text.now) ≤ vec_capacity glyphs.old }
    requires fit { IsTrue (offsets_fit 0 (chars text.now)) }
    ensures { glyphs.new.items ≡ glyphs.old.items ++ added_text text.now }
{
    for (at, c) in text.char_indices() {
        glyphs.push(added(c, at as u32)).unwrap();
    }
}

/// What is known of the order of clusters once the characters of a text are appended.
#[tactic(auto, using(crate::proofs::Rising::text_rises))]
fn order_of_text(glyphs: &[hb_glyph_info_t], text: &str) -> KnownOrder
    ensures { HasOrder result (clusters glyphs.now ++ clusters (added_text text.now)) }
{
    if glyphs.is_empty() {
        KnownOrder::Rising
    } else {
        KnownOrder::Unknown
    }
}
