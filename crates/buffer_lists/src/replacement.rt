//! Replaces input glyphs by copies in the output, in one list that holds both (rustybuzz: hb/buffer.rs,
//! `replace_glyphs`).
ghost use Rattle.std.specs.Prelude.{◌≡◌, ◌≤◌, ◌+◌, ◌++◌, ℕ, length, map, take, drop};
ghost use Rattle.buffer_glyphs.specs.Items.{clusters};
ghost use Rattle.buffer_glyphs.specs.Parts.{first_of, last_of, or, range_of};
ghost use Rattle.buffer_glyphs.specs.Origins.{flags_for, origins, other_cluster, with_first_changed, with_last_changed};
ghost use Rattle.buffer_glyphs.specs.Glyphs.{beside_merged, glyph_flagged, glyphs_merged_at, is_marked_at};
ghost use Rattle.buffer_glyphs.specs.Replacements.{glyph_numbered};
ghost use Rattle.buffer_lists.specs.Copies.{sides_replaced, with_copies};
ghost use Rattle.buffer_lists.specs.Known.{HasOrder};

use crate::handing::{end_cluster, flag_first, flag_last, flags_for, front_cluster, other_cluster};
use crate::order::KnownOrder;
use crate::over::merge_input;
use buffer_glyphs::info::{hb_glyph_info_t, hb_mask_t};
use buffer_glyphs::level::BufferClusterLevel;

/// Appends a copy of the first input glyph (of the last output glyph where the input is empty) to the output for each
/// number, over what was read before `until`; answers where the output ends then. The copies keep the order of clusters,
/// also where input glyphs are deleted then.
pub fn put_copies(
    glyphs: &mut [hb_glyph_info_t],
    front: usize,
    from: usize,
    until: usize,
    numbers: &[u32],
) -> usize
    requires apart { front ≤ from }
    requires there { from ≤ length glyphs.old }
    requires room { front + length numbers.now ≤ until }
    requires within { until ≤ length glyphs.old }
    ensures output { take result glyphs.new ≡ with_copies numbers.now (drop from glyphs.old) (take front glyphs.old) }
    ensures input { drop until glyphs.new ≡ drop until glyphs.old }
    ensures end { result ≤ until }
    ensures len { length glyphs.new ≡ length glyphs.old }
{
    if let Some(model) = model_over(glyphs, front, from) {
        put_numbered(glyphs, front, model, numbers);
        return front + numbers.len();
    }
    front
}

fn model_over(glyphs: &[hb_glyph_info_t], front: usize, from: usize) -> Option<hb_glyph_info_t>
    requires apart { front ≤ from }
    requires there { from ≤ length glyphs.now }
    ensures { result ≡ or (first_of (drop from glyphs.now)) (last_of (take front glyphs.now)) }
{
    model_of(&glyphs[from..], &glyphs[..front])
}

fn model_of(input: &[hb_glyph_info_t], output: &[hb_glyph_info_t]) -> Option<hb_glyph_info_t>
    ensures { result ≡ or (first_of input.now) (last_of output.now) }
{
    match input {
        [first, ..] => Some(*first),
        [] => output.last().copied(),
    }
}

fn put_numbered(
    glyphs: &mut [hb_glyph_info_t],
    front: usize,
    model: hb_glyph_info_t,
    numbers: &[u32],
)
    requires within { front + length numbers.now ≤ length glyphs.old }
    ensures output { take (front + length numbers.now) glyphs.new
        ≡ take front glyphs.old ++ map (glyph_numbered model) numbers.now }
    ensures input { (until : ℕ) → front + length numbers.now ≤ until → drop until glyphs.new ≡ drop until glyphs.old }
    ensures len { length glyphs.new ≡ length glyphs.old }
{
    write_numbered(&mut glyphs[front..front + numbers.len()], model, numbers);
}

fn write_numbered(glyphs: &mut [hb_glyph_info_t], model: hb_glyph_info_t, numbers: &[u32])
    requires { length glyphs.old ≡ length numbers.now }
    ensures { glyphs.new ≡ map (glyph_numbered model) numbers.now }
{
    for index in 0..numbers.len() {
        glyphs[index] = hb_glyph_info_t {
            glyph_id: numbers[index],
            ..model
        };
    }
}

/// `put_copies` over the first `count` input glyphs, which hand on their flags to the neighbours where `breaks` is set.
fn put_handed(
    glyphs: &mut [hb_glyph_info_t],
    front: usize,
    from: usize,
    count: usize,
    numbers: &[u32],
    breaks: bool,
) -> usize
    requires apart { front ≤ from }
    requires within { from + count ≤ length glyphs.old }
    requires room { front + length numbers.now ≤ from + count }
    ensures output { take result glyphs.new
        ≡ (sides_replaced breaks count numbers.now (drop from glyphs.old) (take front glyphs.old)).front }
    ensures input { drop (from + count) glyphs.new
        ≡ (sides_replaced breaks count numbers.now (drop from glyphs.old) (take front glyphs.old)).back }
    ensures end { result ≤ from + count }
    ensures len { length glyphs.new ≡ length glyphs.old }
{
    if !breaks {
        return put_copies(glyphs, front, from, from + count, numbers);
    }
    // The copies overwrite the glyphs whose flags are handed on.
    let (before, after) = handed_flags(glyphs, front, from, count, numbers);
    let end = put_copies(glyphs, front, from, from + count, numbers);
    flag_neighbours(glyphs, end, from + count, before, after);
    end
}

/// The flags that the first `count` input glyphs hand on to the last of the copies, and to the glyph after them.
fn handed_flags(
    glyphs: &[hb_glyph_info_t],
    front: usize,
    from: usize,
    count: usize,
    numbers: &[u32],
) -> (hb_mask_t, hb_mask_t)
    requires apart { front ≤ from }
    requires within { from + count ≤ length glyphs.now }
    ensures before { result.0 ≡ flags_for
        (last_of (clusters (with_copies numbers.now (drop from glyphs.now) (take front glyphs.now))))
        (origins (take count (drop from glyphs.now))) }
    ensures after { result.1 ≡ flags_for (other_cluster
        (last_of (clusters (with_copies numbers.now (drop from glyphs.now) (take front glyphs.now))))
        (first_of (clusters (drop (from + count) glyphs.now)))) (origins (take count (drop from glyphs.now))) }
{
    let before = copied_cluster(&glyphs[from..], &glyphs[..front], numbers);
    let after = other_cluster(before, front_cluster(&glyphs[from + count..]));
    let taken = &glyphs[from..from + count];
    (flags_for(before, taken), flags_for(after, taken))
}

/// The cluster of the last glyph of the output with copies appended, if there is one.
#[tactic(auto, using(crate::proofs::HandedOn::copied_last, crate::proofs::HandedOn::uncopied_last, crate::proofs::HandedOn::no_copies_last))]
fn copied_cluster(
    input: &[hb_glyph_info_t],
    output: &[hb_glyph_info_t],
    numbers: &[u32],
) -> Option<u32>
    ensures { result ≡ last_of (clusters (with_copies numbers.now input.now output.now)) }
{
    if numbers.is_empty() {
        return end_cluster(output);
    }
    match model_of(input, output) {
        Some(model) => Some(model.cluster),
        None => end_cluster(output),
    }
}

/// Sets flags on the last glyph of the output, and others on the first of the input.
fn flag_neighbours(
    glyphs: &mut [hb_glyph_info_t],
    front: usize,
    from: usize,
    before: hb_mask_t,
    after: hb_mask_t,
)
    requires apart { front ≤ from }
    requires there { from ≤ length glyphs.old }
    ensures output { take front glyphs.new ≡ with_last_changed (glyph_flagged before) (take front glyphs.old) }
    ensures input { drop from glyphs.new ≡ with_first_changed (glyph_flagged after) (drop from glyphs.old) }
    ensures len { length glyphs.new ≡ length glyphs.old }
{
    let (output, input) = glyphs.split_at_mut(from);
    flag_last(&mut output[..front], before);
    flag_first(input, after);
}

/// Merges the first `count` input glyphs on both lists, and appends a copy of the first input glyph to the output for
/// each number, over what was read and the `count` glyphs, which hand on their flags where `breaks` is set; answers
/// whether a glyph was flagged by the merge, what is known of the order once the `count` glyphs are deleted, and where
/// the output ends then.
pub fn replace_first(
    glyphs: &mut [hb_glyph_info_t],
    front: usize,
    from: usize,
    count: usize,
    numbers: &[u32],
    level: BufferClusterLevel,
    known: KnownOrder,
    breaks: bool,
) -> (bool, KnownOrder, usize)
    requires apart { front ≤ from }
    requires within { from + count ≤ length glyphs.old }
    requires room { front + length numbers.now ≤ from + count }
    requires known { HasOrder known (clusters (take front glyphs.old) ++ clusters (drop from glyphs.old)) }
    ensures input { drop (from + count) glyphs.new ≡ (sides_replaced breaks count numbers.now
        (glyphs_merged_at level 0 count (drop from glyphs.old))
        (beside_merged level (range_of 0 count (clusters (drop from glyphs.old))) (take front glyphs.old))).back }
    ensures output { take result.2 glyphs.new ≡ (sides_replaced breaks count numbers.now
        (glyphs_merged_at level 0 count (drop from glyphs.old))
        (beside_merged level (range_of 0 count (clusters (drop from glyphs.old))) (take front glyphs.old))).front }
    ensures any { result.0 ≡ is_marked_at level 0 count (clusters (drop from glyphs.old)) }
    ensures order { HasOrder result.1
        (clusters (take result.2 glyphs.new) ++ clusters (drop (from + count) glyphs.new)) }
    ensures end { result.2 ≤ from + count }
    ensures len { length glyphs.new ≡ length glyphs.old }
{
    let (marked, known) = merge_input(glyphs, front, from, 0, count, level, known);
    let end = put_handed(glyphs, front, from, count, numbers, breaks);
    (marked, known, end)
}
