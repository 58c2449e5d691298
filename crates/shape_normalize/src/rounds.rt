//! The first and the third round, each over its own output (rustybuzz: hb/ot_shape_normalize.rs).
ghost use Rattle.std.specs.Prelude.{◌≡◌, ◌≢◌, ◌≤◌, ◌<◌, length, IfErr, OnOk};
ghost use Rattle.buffer_core.specs.Sides.{all_glyphs, items_of, after_sync, zero_positions};
ghost use Rattle.buffer_stages.specs.Ready.{IsReady};
ghost use Rattle.buffer_properties.specs.Composing.{composed_list};
ghost use Rattle.buffer_properties.specs.Expanding.{expanded_list};
ghost use Rattle.shape_normalize.specs.Composed.{HasRoom};
ghost use Rattle.shape_normalize.specs.Rounds.{IsArranged};

use crate::fronts::{expand_after, take_front};
use crate::normalizing::Normalizing;
use crate::searching::first_composition;
use crate::starters::compose_list;
use buffer_core::buffer::hb_buffer_t;
use buffer_glyphs::cause::ShapeCause;

/// The first round: each character is decomposed as far as the shaper and the font require, a variation selector is
/// combined with the character before it where the font has the pair, and each character gets the font's glyph. It
/// takes linear time.
///
/// # Errors
///
/// `TooLong` where the list would have more characters than the buffer may hold, or lack of memory.
#[tactic(auto, using(crate::proofs::Taken::rest_overfills))]
pub(crate) fn expand_characters<N: Normalizing>(
    by: &N,
    buffer: &mut hb_buffer_t,
) -> Result<(), ShapeCause>
    requires ready { IsReady buffer.old }
    ensures ok { OnOk result (IsArranged (expanded_list (N.normalizer by.now) (items_of buffer.old)) buffer.old
        buffer.new) }
    ensures fits { OnOk result (length (expanded_list (N.normalizer by.now) (items_of buffer.old)).items
        ≤ buffer.old.max_len) }
    ensures err { IfErr result (λ e. e ≢ ShapeCause.OutOfMemory
        → (e ≡ ShapeCause.TooLong) × (buffer.old.max_len < length
        (expanded_list (N.normalizer by.now) (items_of buffer.old)).items)) }
{
    let front = take_front(by, buffer);
    // The length says that the text is within the limit.
    let _len = buffer.len();
    buffer.clear_output()?;
    expand_after(by, front, buffer)?;
    if !buffer.sync()? {
        return Err(ShapeCause::TooLong);
    }
    Ok(())
}

/// Makes the output, which has room for the whole list, the list (`sync`).
#[tactic(auto, using(crate::proofs::Room::fits_whole))]
fn join_output(buffer: &mut hb_buffer_t) -> Result<(), ShapeCause>
    requires room { HasRoom buffer.old }
    ensures ok { OnOk result (buffer.new ≡ after_sync buffer.old) }
    ensures err { IfErr result (λ e. e ≡ ShapeCause.OutOfMemory) }
{
    if !buffer.sync()? {
        return Err(ShapeCause::TooLong);
    }
    Ok(())
}

/// The third round: marks are composed with their base where the font has the result. It takes linear time, plus, for
/// each composed mark, time linear in the number of items between it and its base. A list in which none is composed is
/// only read.
///
/// # Errors
///
/// Lack of memory.
#[tactic(auto, using(crate::proofs::Whole::nothing_composed))]
pub(crate) fn compose_characters<N: Normalizing>(
    by: &N,
    buffer: &mut hb_buffer_t,
) -> Result<(), ShapeCause>
    requires ready { IsReady buffer.old }
    requires placed { buffer.old.positions ≡ zero_positions (length (all_glyphs buffer.old)) }
    ensures ok { OnOk result (IsArranged (composed_list (N.normalizer by.now) (items_of buffer.old)) buffer.old
        buffer.new) }
    ensures err { IfErr result (λ e. e ≡ ShapeCause.OutOfMemory) }
{
    let Some((at, starter)) = first_composition(by, buffer.info_slice()) else {
        return Ok(());
    };
    let count = buffer.len();
    buffer.clear_output()?;
    compose_list(by, at, starter, count, buffer)?;
    join_output(buffer)?;
    Ok(())
}
