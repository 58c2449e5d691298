//! Texts on a buffer that is ready to be normalized.
ghost use Rattle.std.specs.Prelude.{◌≡◌, false, IfOk, OnOk};
ghost use Rattle.buffer_stages.specs.Ready.{IsReady};

use crate::buffers::write_glyph;
use buffer_core::buffer::hb_buffer_t;
use buffer_glyphs::cause::ShapeCause;
use buffer_glyphs::flags::UnicodeProps;
use buffer_glyphs::info::hb_glyph_info_t;
use buffer_glyphs::level::BufferClusterLevel;
use buffer_properties::character::{character_class, properties_of};
use buffer_unicode_tables::UnicodeTables;
use shape_normalize::normalize::_hb_ot_shape_normalize;
use shape_normalize::normalizing::Normalizing;
use std::alloc::Global;

/// Adds a character with its cluster, its properties and its class.
#[tactic(auto, using(crate::proofs::Ready::added_ready))]
fn add_character(
    tables: &UnicodeTables,
    u: char,
    cluster: u32,
    buffer: &mut hb_buffer_t,
) -> Result<(), ShapeCause>
    requires ready { IsReady buffer.old }
    ensures { OnOk result (IsReady buffer.new) }
{
    let at = buffer.lookahead_len();
    if !buffer.add(u, cluster)? {
        return Err(ShapeCause::TooLong);
    }
    if at >= buffer.lookahead_len() {
        return Err(ShapeCause::TooLong);
    }
    let info = hb_glyph_info_t {
        unicode_props: UnicodeProps(properties_of(u)),
        modified_combining_class: character_class(tables, u),
        ..*buffer.cur(at)
    };
    write_glyph(info, at, buffer);
    Ok(())
}

/// A buffer with characters and their clusters.
pub fn buffer_of(
    alloc: Global,
    tables: &UnicodeTables,
    level: BufferClusterLevel,
    text: &[(char, u32)],
) -> Result<hb_buffer_t, ShapeCause>
    ensures { IfOk result (λ b. IsReady b) }
{
    let mut buffer = hb_buffer_t::new(alloc);
    buffer.set_cluster_level(level);
    for (u, cluster) in text {
        add_character(tables, *u, *cluster, &mut buffer)?;
    }
    Ok(buffer)
}

/// The normalized text of characters with clusters.
pub fn normalized<N: Normalizing>(
    alloc: Global,
    by: &N,
    level: BufferClusterLevel,
    text: &[(char, u32)],
) -> Result<hb_buffer_t, ShapeCause>
    ensures { IfOk result (λ b. b.is_open ≡ false) }
{
    let mut buffer = buffer_of(alloc, by.tables(), level, text)?;
    _hb_ot_shape_normalize(by, alloc, &mut buffer)?;
    Ok(buffer)
}
