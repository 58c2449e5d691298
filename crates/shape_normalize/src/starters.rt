//! The walk of the third round: each mark is composed with the last starter where nothing blocks it and the font has
//! the result (rustybuzz: hb/ot_shape_normalize.rs).
ghost use Rattle.std.specs.Prelude.{◌≡◌, ◌<◌, List, [], length, IfErr, IfOk, OnOk};
ghost use Rattle.std.specs.Option.{option_and_then};
ghost use Rattle.buffer_glyphs.specs.Items.{Item, item_of, strip};
ghost use Rattle.buffer_core.specs.Sides.{all_glyphs};
ghost use Rattle.buffer_properties.specs.Composing.{becoming, composed_list, is_not_blocked};
ghost use Rattle.buffer_stages.specs.Appending.{AppendsArrangement};
ghost use Rattle.shape_normalize.specs.Composed.{HasRoom};
ghost use Rattle.shape_normalize.specs.Starters.{become, Composes, Composites, IsAt, IsUncomposed, Passes};

use crate::characters::mark_class;
use crate::composing::{compose_mark, out_at, pass_glyph, pass_glyphs};
use crate::normalizing::Normalizing;
use buffer_core::buffer::hb_buffer_t;
use buffer_glyphs::cause::ShapeCause;
use buffer_glyphs::info::hb_glyph_info_t;
use buffer_properties::categories::is_mark;

/// Whether nothing between the last starter and the current item blocks it: no item there has its combining class or a
/// greater one (UAX 15 D115).
fn is_reaching(starter: usize, buffer: &hb_buffer_t) -> bool
    requires there { 0 < length buffer.now.ahead }
    requires behind { starter < length buffer.now.behind }
    ensures { (done : List Item) (x : Item) (between : List Item) (y : Item) (ys : List Item)
        → IsAt starter done x between y ys buffer.now → result ≡ is_not_blocked between y }
{
    if buffer.out_len() == starter + 1 {
        return true;
    }
    mark_class(buffer.prev()) < mark_class(buffer.cur(0))
}

/// The composite of a starter and a mark, with the font's glyph.
pub(crate) fn composite_of<N: Normalizing>(
    by: &N,
    first: &hb_glyph_info_t,
    second: &hb_glyph_info_t,
) -> Option<(char, u32)>
    ensures { become (N.normalizer by.now) (item_of first.now) result
        ≡ option_and_then (becoming (N.normalizer by.now) (item_of first.now))
        ((N.normalizer by.now).composes first.now.glyph_id second.now.glyph_id) }
{
    let u = by.compose(first.glyph_id, second.glyph_id)?;
    let glyph = by.glyph(u32::from(u))?;
    Some((u, glyph))
}

/// The composite of the last starter and the current item, if that is a mark that isn't blocked.
fn find_composite<N: Normalizing>(
    by: &N,
    starter: usize,
    buffer: &hb_buffer_t,
) -> Option<(char, u32)>
    requires there { 0 < length buffer.now.ahead }
    requires behind { starter < length buffer.now.behind }
    ensures { Composites (N.normalizer by.now) starter result buffer.now }
{
    let mark = buffer.cur(0);
    if !is_mark(mark) {
        return None;
    }
    if !is_reaching(starter, buffer) {
        return None;
    }
    let first = out_at(starter, buffer);
    composite_of(by, &first, mark)
}

/// Outputs the current item, and returns the index of the last starter then.
fn pass_by(starter: usize, buffer: &mut hb_buffer_t) -> Result<usize, ShapeCause>
    requires room { HasRoom buffer.old }
    requires there { 0 < length buffer.old.ahead }
    ensures ok { IfOk result (λ m. Passes starter m buffer.old buffer.new) }
    ensures err { IfErr result (λ e. e ≡ ShapeCause.OutOfMemory) }
{
    let class = mark_class(buffer.cur(0));
    let at = buffer.out_len();
    pass_glyph(buffer)?;
    if class == 0 {
        return Ok(at);
    }
    Ok(starter)
}

/// Handles one item, and returns the index of the last starter then.
fn compose_next<N: Normalizing>(
    by: &N,
    starter: usize,
    buffer: &mut hb_buffer_t,
) -> Result<usize, ShapeCause>
    requires room { HasRoom buffer.old }
    requires there { 0 < length buffer.old.ahead }
    requires behind { starter < length buffer.old.behind }
    ensures ok { IfOk result (λ m. Composes (N.normalizer by.now) starter m buffer.old buffer.new) }
    ensures err { IfErr result (λ e. e ≡ ShapeCause.OutOfMemory) }
{
    match find_composite(by, starter, buffer) {
        Some((u, glyph)) => {
            compose_mark(by, starter, u, glyph, buffer)?;
            Ok(starter)
        }
        None => pass_by(starter, buffer),
    }
}

/// The third round, from the start of an open output with room for the list: marks from an index on are composed with
/// their base where the font has the result; no mark before it is, and the last starter before it is given. Afterwards
/// the whole list is output.
///
/// # Errors
///
/// Lack of memory.
pub(crate) fn compose_list<N: Normalizing>(
    by: &N,
    at: usize,
    starter: usize,
    count: usize,
    buffer: &mut hb_buffer_t,
) -> Result<(), ShapeCause>
    requires room { HasRoom buffer.old }
    requires front { buffer.old.behind ≡ [] }
    requires counted { count ≡ length buffer.old.ahead }
    requires within { at < count }
    requires uncomposed { IsUncomposed (N.normalizer by.now) at starter (strip buffer.old.ahead) }
    ensures ok { OnOk result (AppendsArrangement (composed_list (N.normalizer by.now) (strip buffer.old.ahead)) [] buffer.old
        buffer.new) }
    ensures room { OnOk result (HasRoom buffer.new) }
    ensures err { IfErr result (λ e. e ≡ ShapeCause.OutOfMemory) }
{
    pass_glyphs(at, buffer)?;
    let mut starter = starter;
    for _ in at..count {
        starter = compose_next(by, starter, buffer)?;
    }
    Ok(())
}
