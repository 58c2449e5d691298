//! Inserts a dotted circle into each broken syllable, insert_dotted_circles (rustybuzz: hb/ot_shaper_syllabic.rs).
ghost use Rattle.std.specs.Prelude.{◌≡◌, ◌<◌, ◌≤◌, ◌+◌, ◌-◌, Err, Some, true, length, nat_lt, slice_get, IfOk, IfErr, OnOk};
ghost use Rattle.std.specs.List.{list_any, prefix_len};
ghost use Rattle.buffer_glyphs.specs.Items.{item_of, strip};
ghost use Rattle.buffer_glyphs.specs.Origins.{origin_of};
ghost use Rattle.buffer_core.specs.Sides.{all_glyphs, items_of, after_next_glyphs, origins_of, HasCurrent};
ghost use Rattle.buffer_stages.specs.Buffers.{are_glyphs};
ghost use Rattle.buffer_stages.specs.Ready.{IsReady};
ghost use Rattle.buffer_stages.specs.Stages.{DoesStage};
ghost use Rattle.script_syllabic.specs.Circles.{begins, circle_glyph, circle_item, circles_by, circles_put, is_broken, is_repha, puts_circles, with_circles};
ghost use Rattle.script_syllabic.specs.Rules.{circle_rule, IsCircled, IsTooLong};

use bitflags::Flags;
use buffer_common::constants::BufferFlags;
use buffer_core::buffer::hb_buffer_t;
use buffer_glyphs::cause::ShapeCause;
use buffer_glyphs::info::hb_glyph_info_t;
use layout_face::Face;
use script_categories::syllable_kinds::SYLLABLE_KIND;

/// U+25CC DOTTED CIRCLE.
pub const DOTTED_CIRCLE: char = '\u{25CC}';

/// Which syllables get a dotted circle, and the circle's glyph, category and position.
#[derive(Clone, Copy)]
pub struct CircleRule {
    /// The font's glyph of U+25CC.
    pub glyph: u16,
    /// The kind of a broken syllable.
    pub kind: u8,
    /// The circle's category.
    pub category: u8,
    /// The category of a repha, after which the circle is inserted.
    pub repha: Option<u8>,
    /// The circle's position in a syllable.
    pub position: u8,
}

/// Inserts a dotted circle into each syllable of kind `kind` (`insert_dotted_circles`): after the rephas that begin the
/// syllable, in the last one's cluster, else before its first glyph and in that one's cluster. The circle has the mask
/// and the syllable byte of the syllable's first glyph. A syllable with the byte of the previous broken one gets none.
/// Returns whether circles were inserted: none are where the buffer has DO_NOT_INSERT_DOTTED_CIRCLE, where the font has
/// no such glyph, and where no syllable is broken. It takes linear time.
///
/// # Errors
///
/// `TooLong` where the text would have more glyphs than the buffer may hold, or lack of memory.
#[tactic(auto, using(crate::proofs::Longer::not_longer))]
pub fn insert_dotted_circles(
    face: &Face,
    buffer: &mut hb_buffer_t,
    kind: u8,
    circle_category: u8,
    repha_category: Option<u8>,
    circle_position: Option<u8>,
) -> Result<bool, ShapeCause>
    requires ready { IsReady buffer.old }
    ensures glyphs { OnOk result (are_glyphs (items_of buffer.old) ≡ true → are_glyphs (items_of buffer.new) ≡ true) }
    ensures inserted { IfOk result (λ b. b ≡ puts_circles
        (circle_rule face.now buffer.old.flags kind circle_category repha_category circle_position)
        (items_of buffer.old)) }
    ensures longer { 0 < kind
        → IfOk result (λ inserted. inserted ≡ nat_lt (length (items_of buffer.old)) (length (items_of buffer.new))) }
    ensures stage { DoesStage
        (circles_by (circle_rule face.now buffer.old.flags kind circle_category repha_category circle_position)) result
        buffer.old buffer.new }
{
    let Some(glyph) = circle_glyph(face, buffer.flags()) else {
        return Ok(false);
    };
    let rule = CircleRule {
        glyph,
        kind,
        category: circle_category,
        repha: repha_category,
        position: circle_position.unwrap_or(0),
    };
    circles_by(&rule, buffer)
}

#[tactic(auto, using(crate::proofs::Glyphs::put_keeps_glyphs, crate::proofs::Longer::put_longer, crate::proofs::Longer::not_longer))]
fn circles_by(rule: &CircleRule, buffer: &mut hb_buffer_t) -> Result<bool, ShapeCause>
    requires ready { IsReady buffer.old }
    ensures glyphs { OnOk result (rule.now.glyph ≤ 65535 → are_glyphs (items_of buffer.old) ≡ true
        → are_glyphs (items_of buffer.new) ≡ true) }
    ensures inserted { IfOk result (λ b. b ≡ puts_circles (Some rule.now) (items_of buffer.old)) }
    ensures longer { 0 < rule.now.kind
        → IfOk result (λ inserted. inserted ≡ nat_lt (length (items_of buffer.old)) (length (items_of buffer.new))) }
    ensures stage { DoesStage (circles_by (Some rule.now)) result buffer.old buffer.new }
{
    if !has_broken(rule, buffer.info_slice()) {
        return Ok(false);
    }
    put_circles(rule, buffer)?;
    Ok(true)
}

fn circle_glyph(face: &Face, flags: BufferFlags) -> Option<u16>
    ensures { result ≡ circle_glyph flags face.now }
{
    if flags.contains(BufferFlags::DO_NOT_INSERT_DOTTED_CIRCLE) {
        return None;
    }
    face.get_nominal_glyph(DOTTED_CIRCLE)
}

#[tactic(auto, using(crate::proofs::Put::broken_here, crate::proofs::Put::broken_later, crate::proofs::Put::none_broken))]
fn has_broken(rule: &CircleRule, glyphs: &[hb_glyph_info_t]) -> bool
    ensures { result ≡ list_any (is_broken rule.now) (strip glyphs.now) }
{
    for glyph in glyphs {
        if is_broken(rule, glyph) {
            return true;
        }
    }
    false
}

fn is_broken(rule: &CircleRule, glyph: &hb_glyph_info_t) -> bool
    ensures { result ≡ is_broken rule.now (item_of glyph.now) }
{
    glyph.syllable & SYLLABLE_KIND == rule.kind
}

fn begins(rule: &CircleRule, last: u8, glyph: &hb_glyph_info_t) -> bool
    ensures { result ≡ begins rule.now last (item_of glyph.now) }
{
    glyph.syllable != last && is_broken(rule, glyph)
}

fn is_repha(rule: &CircleRule, byte: u8, glyph: &hb_glyph_info_t) -> bool
    ensures { result ≡ is_repha rule.now byte (item_of glyph.now) }
{
    match rule.repha {
        Some(category) => glyph.syllable == byte && glyph.category == category,
        None => false,
    }
}

#[tactic(auto, using(crate::proofs::Underway::glyph_refused, crate::proofs::Underway::rephas_refused))]
fn put_circles(rule: &CircleRule, buffer: &mut hb_buffer_t) -> Result<(), ShapeCause>
    requires ready { IsReady buffer.old }
    ensures { DoesStage (λ v. circles_put (with_circles rule.now v.items) v) result buffer.old buffer.new }
{
    buffer.clear_output()?;
    let mut last = 0;
    while buffer.lookahead_len() > 0 {
        let glyph = *buffer.cur(0);
        if begins(rule, last, &glyph) {
            last = glyph.syllable;
            let rephas = pass_rephas(rule, last, buffer)?;
            put_circle(rule, &glyph, rephas, buffer)?;
        } else {
            pass_glyph(buffer)?;
        }
    }
    if !buffer.sync()? {
        return Err(ShapeCause::TooLong);
    }
    Ok(())
}

/// Outputs the current glyph.
fn pass_glyph(buffer: &mut hb_buffer_t) -> Result<(), ShapeCause>
    requires current { HasCurrent buffer.old }
    ensures moved { OnOk result (buffer.new ≡ after_next_glyphs 1 buffer.old) }
    ensures err { IfErr result (λ e. IsTooLong (length buffer.old.behind + 1) buffer.old e) }
{
    if !buffer.next_glyph()? {
        return Err(ShapeCause::TooLong);
    }
    Ok(())
}

/// Outputs the rephas from the cursor on, and returns their number.
#[tactic(auto, using(crate::proofs::Underway::none_passed))]
fn pass_rephas(rule: &CircleRule, byte: u8, buffer: &mut hb_buffer_t) -> Result<usize, ShapeCause>
    requires open { buffer.old.is_open ≡ true }
    ensures count { IfOk result (λ n. n ≡ prefix_len (is_repha rule.now byte) (strip buffer.old.ahead)) }
    ensures moved { OnOk result
        (buffer.new ≡ after_next_glyphs (prefix_len (is_repha rule.now byte) (strip buffer.old.ahead)) buffer.old) }
    ensures err { IfErr result (λ e. IsTooLong (length (all_glyphs buffer.old)) buffer.old e) }
{
    let count = buffer.lookahead_len();
    let mut rephas = 0;
    while rephas < count && is_repha(rule, byte, buffer.cur(0)) {
        pass_glyph(buffer)?;
        rephas += 1;
    }
    Ok(rephas)
}

/// Inserts the circle of the syllable that `first` begins, after the output's last glyphs, which are that many rephas
/// of it.
fn put_circle(
    rule: &CircleRule,
    first: &hb_glyph_info_t,
    rephas: usize,
    buffer: &mut hb_buffer_t,
) -> Result<(), ShapeCause>
    requires open { buffer.old.is_open ≡ true }
    requires passed { rephas ≤ length buffer.old.behind }
    requires first { slice_get (all_glyphs buffer.old) (length buffer.old.behind - rephas) ≡ Some first.now }
    ensures ok { OnOk result
        (IsCircled (circle_item rule.now (item_of first.now)) rephas buffer.old buffer.new) }
    ensures err { IfErr result (λ e. IsTooLong (length buffer.old.behind + 1) buffer.old e) }
{
    let circle = circle_info(rule, first);
    if rephas == 0 {
        return put_before(circle, buffer);
    }
    put_behind(circle, rephas, buffer)
}

/// The circle of the syllable that begins with `first`, in that glyph's cluster.
fn circle_info(rule: &CircleRule, first: &hb_glyph_info_t) -> hb_glyph_info_t
    ensures item { item_of result ≡ circle_item rule.now (item_of first.now) }
    ensures origin { origin_of result ≡ origin_of first.now }
{
    hb_glyph_info_t {
        glyph_id: u32::from(rule.glyph),
        mask: first.mask,
        cluster: first.cluster,
        syllable: first.syllable,
        category: rule.category,
        auxiliary: rule.position,
        ..Default::default()
    }
}

/// Inserts a circle before the current glyph, with its cluster and glyph flags.
fn put_before(circle: hb_glyph_info_t, buffer: &mut hb_buffer_t) -> Result<(), ShapeCause>
    requires open { buffer.old.is_open ≡ true }
    requires first { slice_get (origins_of buffer.old) (length buffer.old.behind) ≡ Some (origin_of circle) }
    ensures ok { OnOk result (IsCircled (item_of circle) 0 buffer.old buffer.new) }
    ensures err { IfErr result (λ e. IsTooLong (length buffer.old.behind + 1) buffer.old e) }
{
    if !buffer.output_info(circle)? {
        return Err(ShapeCause::TooLong);
    }
    Ok(())
}

/// Appends a circle to the output, with the last output glyph's cluster and the glyph flags of the first of that many
/// rephas.
fn put_behind(
    circle: hb_glyph_info_t,
    rephas: usize,
    buffer: &mut hb_buffer_t,
) -> Result<(), ShapeCause>
    requires open { buffer.old.is_open ≡ true }
    requires some { 0 < rephas }
    requires passed { rephas ≤ length buffer.old.behind }
    requires first { slice_get (origins_of buffer.old) (length buffer.old.behind - rephas) ≡ Some (origin_of circle) }
    ensures ok { OnOk result (IsCircled (item_of circle) rephas buffer.old buffer.new) }
    ensures err { IfErr result (λ e. IsTooLong (length buffer.old.behind + 1) buffer.old e) }
{
    let cluster = buffer.prev().cluster;
    if !buffer.output_info(hb_glyph_info_t { cluster, ..circle })? {
        return Err(ShapeCause::TooLong);
    }
    Ok(())
}
