//! One list that holds two: its first `front` glyphs, the output, and those from an index on, the input (rustybuzz:
//! hb/buffer.rs, `out_info` in the room of `info`, and `shift_forward`). What stands between has no meaning.
ghost use Rattle.std.specs.Prelude.{◌≡◌, ◌≤◌, ◌<◌, ◌+◌, ◌-◌, ◌++◌, ◌∷◌, [], ℕ, length, map, take, drop, slice_range, vec_len, OnOk, OnErr};
ghost use Rattle.buffer_glyphs.specs.Items.{clusters};
ghost use Rattle.buffer_glyphs.specs.Parts.{last_of, range_of};
ghost use Rattle.buffer_glyphs.specs.Levels.{InOutput, manner};
ghost use Rattle.buffer_glyphs.specs.Merges.{least_number};
ghost use Rattle.buffer_glyphs.specs.Glyphs.{beside_merged, beside_merged_as, glyph_flagged, glyphs_merged_as, glyphs_merged_at, has_several_numbers, is_marked_at, marked_outside};
ghost use Rattle.buffer_glyphs.specs.Deleting.{Deletes, glyphs_handed_after, glyphs_handed_before};
ghost use Rattle.buffer_lists.specs.Known.{HasOrder};

use crate::order::KnownOrder;
use crate::{deletion, handing, merges};
use buffer_glyphs::info::{hb_glyph_info_t, hb_mask_t};
use buffer_glyphs::level::BufferClusterLevel;
use buffer_glyphs::marks;
use std::alloc::AllocError;

/// Moves the first `count` glyphs of the input to the end of the output.
pub fn output_first(glyphs: &mut [hb_glyph_info_t], front: usize, from: usize, count: usize)
    requires ordered { front ≤ from }
    requires within { from + count ≤ length glyphs.old }
    ensures output { take (front + count) glyphs.new ≡ take front glyphs.old ++ take count (drop from glyphs.old) }
    ensures input { drop (from + count) glyphs.new ≡ drop (from + count) glyphs.old }
    ensures len { length glyphs.new ≡ length glyphs.old }
{
    if front < from {
        glyphs.copy_within(from..from + count, front);
    }
}

/// Moves the glyphs of the output from the i-th on to the front of the input.
pub fn pass_back(glyphs: &mut [hb_glyph_info_t], front: usize, from: usize, i: usize)
    requires there { i ≤ front }
    requires ordered { front ≤ from }
    requires within { from ≤ length glyphs.old }
    ensures output { take i glyphs.new ≡ take i glyphs.old }
    ensures input { drop (from - (front - i)) glyphs.new ≡ drop i (take front glyphs.old) ++ drop from glyphs.old }
    ensures len { length glyphs.new ≡ length glyphs.old }
{
    if front < from {
        glyphs.copy_within(i..front, from - (front - i));
    }
}

/// Appends a glyph to the output, over what was read before `from`.
#[tactic(auto, using(crate::proofs::Fronts::set_end))]
pub fn put(glyphs: &mut [hb_glyph_info_t], front: usize, from: usize, added: hb_glyph_info_t)
    requires ordered { front < from }
    requires within { from ≤ length glyphs.old }
    ensures output { take (front + 1) glyphs.new ≡ take front glyphs.old ++ added ∷ [] }
    ensures input { drop from glyphs.new ≡ drop from glyphs.old }
    ensures len { length glyphs.new ≡ length glyphs.old }
{
    glyphs[front] = added;
}

/// Makes one list of the output and the input.
pub fn join(glyphs: &mut Vec<hb_glyph_info_t>, front: usize, from: usize)
    requires ordered { front ≤ from }
    requires within { from ≤ vec_len glyphs.old }
    ensures { glyphs.new.items ≡ take front glyphs.old.items ++ drop from glyphs.old.items }
{
    let rest = glyphs.len() - from;
    if front < from {
        glyphs.copy_within(from.., front);
        glyphs.truncate(front + rest);
    }
}

/// Opens a gap of `count` elements between the output and the input, whose glyphs move on.
pub fn open_gap(
    glyphs: &mut Vec<hb_glyph_info_t>,
    front: usize,
    from: usize,
    count: usize,
) -> Result<(), AllocError>
    requires ordered { front ≤ from }
    requires within { from ≤ vec_len glyphs.old }
    ensures output { OnOk result (take front glyphs.new.items ≡ take front glyphs.old.items) }
    ensures input { OnOk result (drop (from + count) glyphs.new.items ≡ drop from glyphs.old.items) }
    ensures len { OnOk result (vec_len glyphs.new ≡ vec_len glyphs.old + count) }
    ensures err { OnErr result (glyphs.new.items ≡ glyphs.old.items) }
{
    let end = glyphs.len();
    if usize::MAX - end < count {
        return Err(AllocError);
    }
    glyphs.resize(end + count, hb_glyph_info_t::default())?;
    glyphs.copy_within(from..end, from + count);
    Ok(())
}

/// `merges::merge_input` of a range of the input.
pub fn merge_input(
    glyphs: &mut [hb_glyph_info_t],
    front: usize,
    from: usize,
    start: usize,
    end: usize,
    level: BufferClusterLevel,
    known: KnownOrder,
) -> (bool, KnownOrder)
    requires apart { front ≤ from }
    requires ordered { start ≤ end }
    requires within { from + end ≤ length glyphs.old }
    requires known { HasOrder known (clusters (take front glyphs.old) ++ clusters (drop from glyphs.old)) }
    ensures input { drop from glyphs.new ≡ glyphs_merged_at level start end (drop from glyphs.old) }
    ensures output { take front glyphs.new
        ≡ beside_merged level (range_of start end (clusters (drop from glyphs.old))) (take front glyphs.old) }
    ensures any { result.0 ≡ is_marked_at level start end (clusters (drop from glyphs.old)) }
    ensures order { HasOrder result.1 (clusters (take front glyphs.new) ++ clusters (drop from glyphs.new)) }
    ensures len { length glyphs.new ≡ length glyphs.old }
{
    let (before, rest) = glyphs.split_at_mut(from);
    merges::merge_input(&mut before[..front], rest, start, end, level, known)
}

/// `merges::merge_output` of a range of the output.
pub fn merge_output(
    glyphs: &mut [hb_glyph_info_t],
    front: usize,
    from: usize,
    start: usize,
    end: usize,
    level: BufferClusterLevel,
    known: KnownOrder,
) -> KnownOrder
    requires apart { front ≤ from }
    requires there { from ≤ length glyphs.old }
    requires ordered { start ≤ end }
    requires within { end ≤ front }
    requires known { HasOrder known (clusters (take front glyphs.old) ++ clusters (drop from glyphs.old)) }
    ensures output { take front glyphs.new ≡ glyphs_merged_as (manner InOutput level) start end (take front glyphs.old) }
    ensures input { drop from glyphs.new ≡ beside_merged_as (manner InOutput level)
        (range_of start end (clusters (take front glyphs.old))) (drop from glyphs.old) }
    ensures order { HasOrder result (clusters (take front glyphs.new) ++ clusters (drop from glyphs.new)) }
    ensures len { length glyphs.new ≡ length glyphs.old }
{
    let (before, rest) = glyphs.split_at_mut(from);
    merges::merge_output(&mut before[..front], rest, start, end, level, known)
}

/// `deletion::delete_first` of the input.
pub fn delete_first(
    glyphs: &mut [hb_glyph_info_t],
    front: usize,
    from: usize,
    level: BufferClusterLevel,
    known: KnownOrder,
) -> bool
    requires apart { front ≤ from }
    requires some { from < length glyphs.old }
    requires known { HasOrder known (clusters (take front glyphs.old) ++ clusters (drop from glyphs.old)) }
    ensures deleted { Deletes level (take front glyphs.old) (drop from glyphs.old) (take front glyphs.new)
        (drop (from + 1) glyphs.new) result }
    ensures order { HasOrder known (clusters (take front glyphs.new) ++ clusters (drop (from + 1) glyphs.new)) }
    ensures len { length glyphs.new ≡ length glyphs.old }
{
    let (before, rest) = glyphs.split_at_mut(from);
    deletion::delete_first(&mut before[..front], rest, level, known)
}

/// `handing::hand_on` of the output and the input.
pub fn hand_on(
    glyphs: &mut [hb_glyph_info_t],
    front: usize,
    from: usize,
    deleted: &[hb_glyph_info_t],
)
    requires apart { front ≤ from }
    requires there { from ≤ length glyphs.old }
    ensures output { take front glyphs.new ≡ glyphs_handed_before deleted.now (take front glyphs.old) }
    ensures input { drop from glyphs.new
        ≡ glyphs_handed_after deleted.now (last_of (clusters (take front glyphs.old))) (drop from glyphs.old) }
    ensures clusters { clusters glyphs.new ≡ clusters glyphs.old }
    ensures len { length glyphs.new ≡ length glyphs.old }
{
    let (before, rest) = glyphs.split_at_mut(from);
    handing::hand_on(&mut before[..front], rest, deleted);
}

/// Sets flags on the output's glyphs from `start` on and the input's first `count`, outside the least cluster among them;
/// answers whether there are such.
pub fn mark_across(
    glyphs: &mut [hb_glyph_info_t],
    front: usize,
    from: usize,
    start: usize,
    count: usize,
    flags: hb_mask_t,
) -> bool
    requires apart { front ≤ from }
    requires begins { start ≤ front }
    requires within { from + count ≤ length glyphs.old }
    ensures output { take front glyphs.new ≡ take start (take front glyphs.old) ++ map (marked_outside flags (least_number
        (clusters (drop start (take front glyphs.old)) ++ clusters (take count (drop from glyphs.old)))))
        (drop start (take front glyphs.old)) }
    ensures input { drop from glyphs.new ≡ map (marked_outside flags (least_number
        (clusters (drop start (take front glyphs.old)) ++ clusters (take count (drop from glyphs.old)))))
        (take count (drop from glyphs.old)) ++ drop count (drop from glyphs.old) }
    ensures any { result ≡ has_several_numbers
        (clusters (drop start (take front glyphs.old)) ++ clusters (take count (drop from glyphs.old))) }
    ensures len { length glyphs.new ≡ length glyphs.old }
{
    let (before, rest) = glyphs.split_at_mut(from);
    mark_two(&mut before[..front], rest, start, count, flags)
}

fn mark_two(
    output: &mut [hb_glyph_info_t],
    input: &mut [hb_glyph_info_t],
    start: usize,
    count: usize,
    flags: hb_mask_t,
) -> bool
    requires begins { start ≤ length output.old }
    requires within { count ≤ length input.old }
    ensures output { output.new ≡ take start output.old ++ map (marked_outside flags (least_number
        (clusters (drop start output.old) ++ clusters (take count input.old)))) (drop start output.old) }
    ensures input { input.new ≡ map (marked_outside flags (least_number
        (clusters (drop start output.old) ++ clusters (take count input.old)))) (take count input.old)
        ++ drop count input.old }
    ensures any { result ≡ has_several_numbers (clusters (drop start output.old) ++ clusters (take count input.old)) }
{
    marks::mark_across(&mut output[start..], &mut input[..count], flags)
}

/// Sets flags on the output's glyphs from `start` on and the input's first `count`.
pub fn flag_both(
    glyphs: &mut [hb_glyph_info_t],
    front: usize,
    from: usize,
    start: usize,
    count: usize,
    flags: hb_mask_t,
)
    requires apart { front ≤ from }
    requires begins { start ≤ front }
    requires within { from + count ≤ length glyphs.old }
    ensures output { take front glyphs.new
        ≡ take start (take front glyphs.old) ++ map (glyph_flagged flags) (drop start (take front glyphs.old)) }
    ensures input { drop from glyphs.new
        ≡ map (glyph_flagged flags) (take count (drop from glyphs.old)) ++ drop count (drop from glyphs.old) }
    ensures len { length glyphs.new ≡ length glyphs.old }
{
    let (before, rest) = glyphs.split_at_mut(from);
    flag_two(&mut before[..front], rest, start, count, flags);
}

fn flag_two(
    output: &mut [hb_glyph_info_t],
    input: &mut [hb_glyph_info_t],
    start: usize,
    count: usize,
    flags: hb_mask_t,
)
    requires begins { start ≤ length output.old }
    requires within { count ≤ length input.old }
    ensures output { output.new ≡ take start output.old ++ map (glyph_flagged flags) (drop start output.old) }
    ensures input { input.new ≡ map (glyph_flagged flags) (take count input.old) ++ drop count input.old }
{
    marks::flag_all(&mut output[start..], flags);
    marks::flag_all(&mut input[..count], flags);
}
