//! The order of Arabic marks, reorder_marks (rustybuzz: hb/ot_shaper_arabic.rs).
ghost use Rattle.std.specs.Prelude.{◌≡◌, ◌≤◌, ◌+◌, ◌<◌, ◌^◌, length, map, nat_lt, slice_range};
ghost use Rattle.std.specs.List.{prefix_len};
ghost use Rattle.buffer_glyphs.specs.Items.{item_of, strip};
ghost use Rattle.buffer_core.specs.Readings.{always};
ghost use Rattle.buffer_glyphs.specs.Origins.{with_range_changed};
ghost use Rattle.buffer_core.specs.Sides.{all_glyphs, items_of};
ghost use Rattle.buffer_stages.specs.Ready.{IsReady};
ghost use Rattle.buffer_properties.specs.Characters.{mark_class};
ghost use Rattle.script_arabic.specs.Marks.{count_below, count_leading, is_modifier_of, with_leading_marks, marks_reordered, with_leading};
ghost use Rattle.script_arabic.specs.Classed.{glyph_classed};
ghost use Rattle.buffer_stages.specs.Stages.{IsFollowed};

use buffer_core::buffer::hb_buffer_t;
use buffer_glyphs::info::hb_glyph_info_t;
use buffer_properties::categories::is_mark;
use buffer_stages::moves::move_back;

/// The combining class that modifier marks below get.
const CCC22: u8 = 25;
/// The combining class that modifier marks above get.
const CCC26: u8 = 26;

/// Moves the modifier combining marks that lead the marks below the letter (class 220) to the start of a run of marks
/// sorted by class, and then those that lead the marks above it (class 230) after these (`reorder_marks`; UTR 53). What
/// moves merges with what it passes. It takes linear time and no memory.
#[tactic(auto, using(crate::proofs::Reordered::both_led))]
pub fn reorder_marks(buffer: &mut hb_buffer_t, start: usize, end: usize)
    requires ready { IsReady buffer.old }
    requires ordered { start ≤ end }
    requires within { end ≤ length (all_glyphs buffer.old) }
    ensures { IsFollowed (always (marks_reordered start end)) buffer.old buffer.new }
{
    let below = lead(buffer, start, end, 220, CCC22);
    lead(buffer, start + below, end, 230, CCC26);
}

/// Moves the modifier marks that lead those of a class to the start of the run, and returns their number.
#[tactic(auto, using(crate::proofs::Reordered::part_seen, crate::proofs::Reordered::led_length))]
fn lead(buffer: &mut hb_buffer_t, start: usize, end: usize, class: u8, new_class: u8) -> usize
    requires ready { IsReady buffer.old }
    requires ordered { start ≤ end }
    requires within { end ≤ length (all_glyphs buffer.old) }
    ensures followed { IsFollowed (always (with_leading class new_class start end)) buffer.old buffer.new }
    ensures count { result ≡ count_leading class (slice_range (items_of buffer.old) start end) }
    ensures inside { start + result ≤ end }
    ensures same { length (all_glyphs buffer.new) ≡ length (all_glyphs buffer.old) }
{
    let (below, leading) = leading_in(&buffer.info_slice()[start..end], class);
    put_first(buffer, start, below, leading, new_class);
    leading
}

#[tactic(auto, using(crate::proofs::Reordered::below_seen, crate::proofs::Reordered::leading_seen))]
fn leading_in(run: &[hb_glyph_info_t], class: u8) -> (usize, usize)
    ensures below { result.0 ≡ count_below class (strip run.now) }
    ensures leading { result.1 ≡ count_leading class (strip run.now) }
    ensures inside { result.0 + result.1 ≤ length run.now }
{
    let below = count_below(run, class);
    let leading = count_modifiers(&run[below..], class);
    (below, leading)
}

fn count_below(run: &[hb_glyph_info_t], class: u8) -> usize
    ensures count { result ≡ prefix_len (λ g. nat_lt (mark_class (item_of g)) class) run.now }
    ensures within { result ≤ length run.now }
{
    run.iter()
        .take_while(|glyph| mark_class(glyph) < class)
        .count()
}

fn count_modifiers(run: &[hb_glyph_info_t], class: u8) -> usize
    ensures count { result ≡ prefix_len (λ g. is_modifier_of class (item_of g)) run.now }
    ensures within { result ≤ length run.now }
{
    run.iter()
        .take_while(|glyph| is_modifier_of(class, glyph))
        .count()
}

fn mark_class(glyph: &hb_glyph_info_t) -> u8
    ensures { result ≡ mark_class (item_of glyph.now) }
{
    if is_mark(glyph) {
        glyph.modified_combining_class
    } else {
        0
    }
}

/// Whether a mark has the class and is one of the modifier combining marks.
fn is_modifier_of(class: u8, glyph: &hb_glyph_info_t) -> bool
    ensures { result ≡ is_modifier_of class (item_of glyph.now) }
{
    mark_class(glyph) == class
        && matches!(
            glyph.glyph_id,
            0x0654
                | 0x0655
                | 0x0658
                | 0x06DC
                | 0x06E3
                | 0x06E7
                | 0x06E8
                | 0x08CA
                | 0x08CB
                | 0x08CD
                | 0x08CE
                | 0x08CF
                | 0x08D3
                | 0x08F3
        )
}

/// Moves that many modifier marks, which follow others, to `start`, and sets their class.
#[tactic(auto, using(crate::proofs::Reordered::none_led, crate::proofs::Reordered::led_followed))]
fn put_first(buffer: &mut hb_buffer_t, start: usize, below: usize, leading: usize, new_class: u8)
    requires ready { IsReady buffer.old }
    requires within { start + (below + leading) ≤ length (all_glyphs buffer.old) }
    requires fits { start + (below + leading) < 2 ^ 64 }
    ensures { IsFollowed (always (with_leading_marks new_class start below leading)) buffer.old buffer.new }
{
    if leading == 0 {
        return;
    }
    move_back(buffer, start, start + below, start + below + leading);
    let known = buffer.known_order();
    set_classes(buffer.info_slice_mut(), start, start + leading, new_class);
    buffer.keep_order(known);
}

#[tactic(auto, using(crate::proofs::Reordered::part_changed))]
fn set_classes(glyphs: &mut [hb_glyph_info_t], from: usize, to: usize, class: u8)
    requires ordered { from ≤ to }
    requires within { to ≤ length glyphs.old }
    ensures { glyphs.new ≡ with_range_changed (glyph_classed class) from to glyphs.old }
{
    set_class(&mut glyphs[from..to], class);
}

#[tactic(auto, using(buffer_glyphs::proofs::Lists::map_step))]
fn set_class(glyphs: &mut [hb_glyph_info_t], class: u8)
    ensures { glyphs.new ≡ map (glyph_classed class) glyphs.old }
{
    for glyph in glyphs.iter_mut() {
        *glyph = with_class(class, glyph);
    }
}

fn with_class(class: u8, glyph: &hb_glyph_info_t) -> hb_glyph_info_t
    ensures { result ≡ glyph_classed class glyph.now }
{
    hb_glyph_info_t {
        modified_combining_class: class,
        ..*glyph
    }
}
