//! The start and the end of positioning, on the buffer (rustybuzz: hb/ot_layout_gpos_table.rs, `position_start`,
//! `position_finish_advances`, `position_finish_offsets`).
ghost use Rattle.std.specs.Prelude.{◌≡◌, ◌<◌, length, map, set};
ghost use Rattle.buffer_core.specs.Readings.{always};
ghost use Rattle.buffer_stages.specs.Ready.{IsDone, IsReady};
ghost use Rattle.layout_offsets.specs.Finishing.{all_drawn, links_followed};
ghost use Rattle.layout_offsets.specs.Links.{position_at};
ghost use Rattle.layout_offsets.specs.Starting.{links_cleared, unattached_position};

use crate::followed_links::finish_offsets;
use buffer_common::constants::HB_BUFFER_SCRATCH_FLAG_HAS_GPOS_ATTACHMENT;
use buffer_core::buffer::hb_buffer_t;
use buffer_glyphs::position::GlyphPosition;

/// Clears all links before positioning. It takes linear time and no memory.
#[tactic(auto, using(crate::proofs::Ended::cleared_done))]
pub fn position_start(buffer: &mut hb_buffer_t)
    requires { IsReady buffer.old }
    ensures { IsDone (always links_cleared) buffer.old buffer.new }
{
    buffer.learn_order();
    clear_links(buffer.pos_slice_mut());
}

fn clear_links(positions: &mut [GlyphPosition])
    ensures { positions.new ≡ map unattached_position positions.old }
{
    for i in 0..positions.len() {
        clear_link(positions, i);
    }
}

/// Clears a glyph's link. Most glyphs have none, and their positions aren't written.
#[tactic(auto, using(crate::proofs::Ended::unattached_stays))]
fn clear_link(positions: &mut [GlyphPosition], at: usize)
    requires here { at < length positions.old }
    ensures { positions.new ≡ set positions.old at (unattached_position (position_at at positions.old)) }
{
    if positions[at].attach_chain != 0 || positions[at].attach_type != 0 {
        positions[at] = unattached_position(positions[at]);
    }
}

fn unattached_position(position: GlyphPosition) -> GlyphPosition
    ensures { result ≡ unattached_position position }
{
    GlyphPosition {
        attach_chain: 0,
        attach_type: 0,
        ..position
    }
}

/// No-op after positioning, as in rustybuzz.
pub fn position_finish_advances(buffer: &mut hb_buffer_t)
    ensures { buffer.new ≡ buffer.old }
{
    // The buffer is an argument because rustybuzz's call has it.
    let _none = buffer;
}

/// Draws all glyphs from where their links lead, after positioning, where glyphs were attached to others
/// (`HB_BUFFER_SCRATCH_FLAG_HAS_GPOS_ATTACHMENT`). A mark's offset counts from where its parent is drawn, a cursive
/// child's offset across the line too. Each link is cleared. It takes linear time and no memory.
#[tactic(auto, using(crate::proofs::Ended::attached_done, crate::proofs::Ended::unattached_done))]
pub fn position_finish_offsets(buffer: &mut hb_buffer_t)
    requires { IsReady buffer.old }
    ensures { IsDone (always links_followed) buffer.old buffer.new }
{
    if buffer.scratch_flags() & HB_BUFFER_SCRATCH_FLAG_HAS_GPOS_ATTACHMENT != 0 {
        follow_links(buffer);
    }
}

#[tactic(auto, using(crate::proofs::Ended::drawn_done))]
fn follow_links(buffer: &mut hb_buffer_t)
    requires { IsReady buffer.old }
    ensures { IsDone (always all_drawn) buffer.old buffer.new }
{
    let direction = buffer.direction();
    finish_offsets(buffer.pos_slice_mut(), direction);
}
