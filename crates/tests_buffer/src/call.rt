//! The calls of a buffer as values, so that rows can list them.
ghost use Rattle.std.specs.Prelude.{◌≡◌, false, true};
ghost use Rattle.tests_buffer.specs.Ranges.{Reaches};

use Call::*;
use buffer_common::constants::BufferFlags;
use buffer_core::buffer::hb_buffer_t;
use buffer_glyphs::info::hb_glyph_info_t;
use buffer_glyphs::level::BufferClusterLevel;
use std::alloc::{AllocError, Global};

/// A call, with its arguments.
#[derive(Clone, Copy)]
pub enum Call {
    Add(char, u32),
    Ask(BufferFlags),
    BreakAcross(Option<usize>, Option<usize>),
    Clear,
    Concat(Option<usize>, Option<usize>),
    ConcatAcross(Option<usize>, Option<usize>),
    Delete,
    /// Deletes the glyphs with this number.
    DeleteInPlace(u32),
    /// Keeps characters apart.
    KeepApart,
    Limit(usize),
    Level(BufferClusterLevel),
    Merge(usize, usize),
    MergeGrapheme(usize, usize),
    MergeOut(usize, usize),
    MergeOutGrapheme(usize, usize),
    MoveTo(usize),
    Next,
    NextMany(usize),
    Open,
    Output(u32),
    Push(&'static str),
    Put(u32),
    /// Sets the cluster of the first glyph of the list, with a mask if the cluster changes.
    Recast(u32, u32),
    Replace(u32),
    ReplaceMany(usize, &'static [u32]),
    ResetClusters,
    ResetMasks(u32),
    Reverse,
    ReverseClusters,
    /// Reverses groups of glyphs with one number, merged before.
    ReverseMerged,
    ReverseRange(usize, usize),
    /// Moves glyphs of the output after those that follow them.
    Rotate(usize, usize, usize),
    SetLen(usize),
    SetMasks(u32, u32, u32, u32),
    /// Gives back memory that is not needed.
    Shrink,
    Skip,
    /// Sorts a range by number.
    Sort(usize, usize),
    Spread,
    StrictBreak(Option<usize>, Option<usize>),
    Sync,
    Tatweel(Option<usize>, Option<usize>),
    UnsafeToBreak(Option<usize>, Option<usize>),
    /// Sets the cluster of the i-th glyph from the cursor on.
    WriteCluster(usize, u32),
    /// Sets the number of the current glyph.
    WriteCurrent(u32),
    /// Sets the mask of the current glyph.
    WriteCurrentMask(u32),
    /// Sets the number of the first output glyph.
    WriteFirst(u32),
    /// Sets the mask of the last output glyph.
    WriteLast(u32),
}

/// Makes a call, and returns its answer: true where it has none, and false where the call is not permitted.
pub fn make(buffer: &mut hb_buffer_t, alloc: Global, call: &Call) -> Result<bool, AllocError> {
    match *call {
        Ask(_) | KeepApart | Level(_) | Clear | ResetMasks(_) | SetMasks(..) | Shrink => {
            set(buffer, call);
            Ok(true)
        }
        Limit(n) => Ok(limit(buffer, n)),
        WriteCluster(..)
        | WriteCurrent(_)
        | WriteCurrentMask(_)
        | WriteFirst(_)
        | WriteLast(_)
        | Rotate(..) => Ok(write(buffer, call)),
        Next | NextMany(_) | MoveTo(_) => walk(buffer, call),
        Merge(..)
        | MergeGrapheme(..)
        | UnsafeToBreak(..)
        | StrictBreak(..)
        | Concat(..)
        | Tatweel(..) => Ok(mark(buffer, call)),
        _ if buffer.have_output() => make_in_output(buffer, call),
        _ => make_in_list(buffer, alloc, call),
    }
}

/// Calls that are always permitted.
fn set(buffer: &mut hb_buffer_t, call: &Call) {
    match *call {
        Ask(flags) => buffer.set_flags(flags),
        KeepApart => buffer.set_cluster_level(BufferClusterLevel::Characters),
        Level(level) => buffer.set_cluster_level(level),
        ResetMasks(mask) => buffer.reset_masks(mask),
        SetMasks(value, mask, start, end) => buffer.set_masks(value, mask, start, end),
        Shrink => buffer.shrink_to_fit(),
        _ => buffer.clear(),
    }
}

fn limit(buffer: &mut hb_buffer_t, n: usize) -> bool {
    let fits = buffer.len() <= n && buffer.out_len() <= n;
    if fits {
        buffer.set_max_len(n);
    }
    fits
}

/// Calls that write glyphs of the output or the input.
fn write(buffer: &mut hb_buffer_t, call: &Call) -> bool {
    let left = buffer.len() - buffer.idx();
    match *call {
        WriteCluster(i, cluster) if i < left => buffer.cur_mut(i).cluster = cluster,
        WriteCurrent(number) if left > 0 => buffer.cur_mut(0).glyph_id = number,
        WriteCurrentMask(mask) if left > 0 => buffer.cur_mut(0).mask = mask,
        WriteFirst(number) => number_first(buffer.out_info_mut(), number),
        Rotate(start, middle, end) if start <= middle && middle <= end && end <= buffer.out_len() =>
            { buffer.rotate_output(start, middle, end) }
        WriteLast(mask) if buffer.out_len() > 0 => buffer.prev_mut().mask = mask,
        _ => return false,
    }
    true
}

fn walk(buffer: &mut hb_buffer_t, call: &Call) -> Result<bool, AllocError> {
    let left = buffer.len() - buffer.idx();
    match *call {
        Next if left > 0 => buffer.next_glyph(),
        NextMany(count) if count <= left => buffer.next_glyphs(count),
        MoveTo(i) if i.saturating_sub(buffer.out_len()) <= left => buffer.move_to(i),
        _ => Ok(false),
    }
}

/// Calls on a range of the input.
fn mark(buffer: &mut hb_buffer_t, call: &Call) -> bool {
    let (start, end) = match *call {
        Merge(start, end) | MergeGrapheme(start, end) => (Some(start), Some(end)),
        UnsafeToBreak(start, end)
        | StrictBreak(start, end)
        | Concat(start, end)
        | Tatweel(start, end) => (start, end),
        _ => return false,
    };
    let (first, last) = (start.unwrap_or(0), end.unwrap_or(buffer.len()));
    if first < buffer.idx() || first > last || last > buffer.len() {
        return false;
    }
    match *call {
        Merge(..) => buffer.merge_clusters(first, last),
        MergeGrapheme(..) => buffer.merge_grapheme_clusters(first, last),
        UnsafeToBreak(..) => buffer.unsafe_to_break(start, end),
        StrictBreak(..) => buffer.unsafe_to_break_strictly(start, end),
        Concat(..) => buffer.unsafe_to_concat(start, end),
        _ => buffer.safe_to_insert_tatweel(start, end),
    }
    true
}

/// Calls with no output open.
fn make_in_list(buffer: &mut hb_buffer_t, alloc: Global, call: &Call) -> Result<bool, AllocError>
    requires { buffer.old.is_open ≡ false }
{
    match *call {
        Open => buffer.clear_output(),
        Add(character, cluster) => buffer.add(character, cluster),
        Push(text) => buffer.push_str(text),
        SetLen(n) => buffer.set_len(n),
        Sort(start, end) => sort(buffer, alloc, start, end),
        _ => Ok(rearrange(buffer, call)),
    }
}

fn sort(
    buffer: &mut hb_buffer_t,
    alloc: Global,
    start: usize,
    end: usize,
) -> Result<bool, AllocError>
    requires { buffer.old.is_open ≡ false }
{
    if start > end || end > buffer.len() {
        return Ok(false);
    }
    buffer.sort(alloc, start, end, |glyph| glyph.glyph_id)?;
    Ok(true)
}

fn rearrange(buffer: &mut hb_buffer_t, call: &Call) -> bool
    requires { buffer.old.is_open ≡ false }
{
    match *call {
        DeleteInPlace(number) => buffer.delete_glyphs_inplace(|glyph| glyph.glyph_id == number),
        Recast(cluster, mask) => recast_first(buffer.info_slice_mut(), cluster, mask),
        ResetClusters => buffer.reset_clusters(),
        Reverse => buffer.reverse(),
        ReverseClusters => buffer.reverse_clusters(),
        ReverseMerged => buffer.reverse_groups(|one, two| one.glyph_id == two.glyph_id, true),
        ReverseRange(start, end) if start <= end && end <= buffer.len() => {
            buffer.reverse_range(start, end);
        }
        Spread => buffer.propagate_flags(),
        _ => return false,
    }
    true
}

fn recast_first(glyphs: &mut [hb_glyph_info_t], cluster: u32, mask: u32) {
    if let Some(glyph) = glyphs.first_mut() {
        hb_buffer_t::set_cluster(glyph, cluster, mask);
    }
}

/// Calls with an output open.
fn make_in_output(buffer: &mut hb_buffer_t, call: &Call) -> Result<bool, AllocError>
    requires { buffer.old.is_open ≡ true }
{
    match *call {
        Sync => buffer.sync(),
        Output(number) => buffer.output_glyph(number),
        Put(number) => buffer.output_info(hb_glyph_info_t {
            glyph_id: number,
            ..hb_glyph_info_t::default()
        }),
        Replace(_) | ReplaceMany(..) | Skip | Delete => take(buffer, call),
        _ => Ok(change_output(buffer, call)),
    }
}

/// Calls on glyphs at the cursor.
fn take(buffer: &mut hb_buffer_t, call: &Call) -> Result<bool, AllocError>
    requires { buffer.old.is_open ≡ true }
{
    let left = buffer.len() - buffer.idx();
    match *call {
        ReplaceMany(taken, numbers) if taken <= left => {
            buffer.replace_glyphs(taken, numbers.len(), numbers)
        }
        Replace(number) if left > 0 => buffer.replace_glyph(number),
        Skip if left > 0 => {
            buffer.skip_glyph();
            Ok(true)
        }
        Delete if left > 0 => {
            buffer.delete_glyph();
            Ok(true)
        }
        _ => Ok(false),
    }
}

fn change_output(buffer: &mut hb_buffer_t, call: &Call) -> bool
    requires { buffer.old.is_open ≡ true }
{
    match *call {
        MergeOut(start, end) if start <= end && end <= buffer.out_len() => {
            buffer.merge_out_clusters(start, end);
        }
        MergeOutGrapheme(start, end) if start <= end && end <= buffer.out_len() => {
            buffer.merge_out_grapheme_clusters(start, end);
        }
        BreakAcross(start, end) if reaches_across(buffer, start, end) => {
            buffer.unsafe_to_break_from_outbuffer(start, end);
        }
        ConcatAcross(start, end) if reaches_across(buffer, start, end) => {
            buffer.unsafe_to_concat_from_outbuffer(start, end);
        }
        _ => return false,
    }
    true
}

fn reaches_across(buffer: &hb_buffer_t, start: Option<usize>, end: Option<usize>) -> bool
    ensures { result ≡ true → Reaches start end buffer.now }
{
    let last = end.unwrap_or(buffer.len());
    start.unwrap_or(0) <= buffer.out_len() && buffer.idx() <= last && last <= buffer.len()
}

fn number_first(glyphs: &mut [hb_glyph_info_t], number: u32) {
    if let Some(glyph) = glyphs.first_mut() {
        glyph.glyph_id = number;
    }
}
