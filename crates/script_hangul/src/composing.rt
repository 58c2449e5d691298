//! The composition of characters whose clusters no other glyph has, which needs no merge.
ghost use Rattle.std.specs.Prelude.{◌≡◌, ◌<◌, ◌≤◌, ◌-◌, ◌+◌, ◌++◌, ◌∷◌, [], drop, length, true, false, IfErr, OnOk};
ghost use Rattle.buffer_core.specs.Sides.{requests_breaks};
ghost use Rattle.buffer_glyphs.specs.Events.{Replace};
ghost use Rattle.buffer_glyphs.specs.Items.{strip};
ghost use Rattle.buffer_glyphs.specs.Levels.{InList, Unites, manner};
ghost use Rattle.buffer_stages.specs.Walks.{HasWalked, RefusesLength, renumbered_first};
ghost use Rattle.script_hangul.specs.Alone.{IsAlone, cluster_at, is_below};

use buffer_core::buffer::hb_buffer_t;
use buffer_glyphs::cause::ShapeCause;
use buffer_glyphs::level::BufferClusterLevel;
use buffer_lists::order::KnownOrder;
use buffer_stages::walks::replace_front;

/// Merges `count` glyphs at the cursor, and replaces them by the first of them under another number, which is output.
///
/// # Errors
///
/// `TooLong` where the output has as many glyphs as the buffer may hold, or lack of memory.
pub(crate) fn compose_front(
    count: usize,
    number: u32,
    buffer: &mut hb_buffer_t,
) -> Result<(), ShapeCause>
    requires open { buffer.old.is_open ≡ true }
    requires some { 0 < count }
    requires there { count ≤ length buffer.old.ahead }
    ensures ok { OnOk result (HasWalked (strip buffer.old.behind ++ renumbered_first number (strip buffer.old.ahead))
        (drop count (strip buffer.old.ahead)) (Replace (length buffer.old.behind) count 1 ∷ []) buffer.old buffer.new) }
    ensures err { IfErr result (λ e. RefusesLength (length buffer.old.behind + 1) e buffer.old) }
{
    if is_alone(count, buffer) {
        return replace_alone(count, number, buffer);
    }
    replace_front(count, number, buffer)
}

/// Whether clusters rise, no glyph but the next `count` is known to be of their clusters, and a merge changes nothing
/// else.
#[tactic(auto, using(crate::proofs::Alone::known_alone))]
fn is_alone(count: usize, buffer: &mut hb_buffer_t) -> bool
    requires some { 0 < count }
    requires there { count ≤ length buffer.old.ahead }
    ensures same { buffer.new ≡ buffer.old }
    ensures alone { result ≡ true → IsAlone count buffer.old }
{
    if buffer.asks_breaks() {
        return false;
    }
    if !unites(buffer.cluster_level()) {
        return false;
    }
    let known = buffer.known_order();
    if !rises(known) {
        return false;
    }
    is_apart(count, buffer)
}

/// Whether a merge at a level unites clusters.
fn unites(level: BufferClusterLevel) -> bool
    ensures { result ≡ true → manner InList level ≡ Unites }
{
    match level {
        BufferClusterLevel::MonotoneGraphemes | BufferClusterLevel::MonotoneCharacters => true,
        BufferClusterLevel::Characters | BufferClusterLevel::Graphemes => false,
    }
}

fn rises(known: KnownOrder) -> bool
    ensures { result ≡ true → known ≡ KnownOrder.Rising }
{
    match known {
        KnownOrder::Rising => true,
        KnownOrder::Falling | KnownOrder::Unknown => false,
    }
}

/// Whether the glyph before the next `count`, and the glyph after them, are of other clusters in rising order.
fn is_apart(count: usize, buffer: &hb_buffer_t) -> bool
    requires some { 0 < count }
    requires there { count ≤ length buffer.now.ahead }
    ensures before { result ≡ true
        → is_below (cluster_at (length buffer.now.behind - 1) buffer.now.behind) (cluster_at 0 buffer.now.ahead) ≡ true }
    ensures after { result ≡ true
        → is_below (cluster_at (count - 1) buffer.now.ahead) (cluster_at count buffer.now.ahead) ≡ true }
{
    is_below(cluster_behind(buffer), cluster_ahead(0, buffer))
        && is_below(
            cluster_ahead(count - 1, buffer),
            cluster_ahead(count, buffer),
        )
}

/// The cluster of the last glyph of the output, if there is one.
#[tactic(auto, using(crate::proofs::Alone::none_behind, crate::proofs::Alone::seen_behind))]
fn cluster_behind(buffer: &hb_buffer_t) -> Option<u32>
    ensures { result ≡ cluster_at (length buffer.now.behind - 1) buffer.now.behind }
{
    if buffer.out_len() == 0 {
        return None;
    }
    Some(buffer.prev().cluster)
}

/// The cluster of the i-th glyph from the cursor on, if there is one.
#[tactic(auto, using(crate::proofs::Alone::none_ahead, crate::proofs::Alone::seen_ahead))]
fn cluster_ahead(i: usize, buffer: &hb_buffer_t) -> Option<u32>
    ensures { result ≡ cluster_at i buffer.now.ahead }
{
    if buffer.lookahead_len() <= i {
        return None;
    }
    Some(buffer.cur(i).cluster)
}

fn is_below(low: Option<u32>, high: Option<u32>) -> bool
    ensures { result ≡ is_below low high }
{
    match (low, high) {
        (Some(low), Some(high)) => low < high,
        _ => true,
    }
}

/// Replaces the next `count` glyphs by the first of them under another number, which is output.
#[tactic(auto, using(crate::proofs::Alone::replaced_alone, crate::proofs::Alone::current_there, crate::proofs::Alone::rest_there, crate::proofs::Alone::rest_unasked))]
fn replace_alone(count: usize, number: u32, buffer: &mut hb_buffer_t) -> Result<(), ShapeCause>
    requires open { buffer.old.is_open ≡ true }
    requires some { 0 < count }
    requires there { count ≤ length buffer.old.ahead }
    requires alone { IsAlone count buffer.old }
    ensures ok { OnOk result (HasWalked (strip buffer.old.behind ++ renumbered_first number (strip buffer.old.ahead))
        (drop count (strip buffer.old.ahead)) (Replace (length buffer.old.behind) count 1 ∷ []) buffer.old buffer.new) }
    ensures err { IfErr result (λ e. RefusesLength (length buffer.old.behind + 1) e buffer.old) }
{
    if !buffer.replace_glyph(number)? {
        return Err(ShapeCause::TooLong);
    }
    skip_glyphs(count - 1, buffer);
    Ok(())
}

/// Deletes the next `count` glyphs, with no merge.
#[tactic(auto, using(crate::proofs::Alone::none_skipped, crate::proofs::Alone::one_more_skipped, crate::proofs::Alone::current_left))]
fn skip_glyphs(count: usize, buffer: &mut hb_buffer_t)
    requires open { buffer.old.is_open ≡ true }
    requires unasked { requests_breaks buffer.old ≡ false }
    requires there { count ≤ length buffer.old.ahead }
    ensures { buffer.new
        ≡ record buffer.old { ahead = drop count buffer.old.ahead; read = buffer.old.read + count } }
{
    for _ in 0..count {
        buffer.skip_glyph();
    }
}
