//! Applies a lookup of a map to a whole buffer (rustybuzz: hb/ot_layout.rs, `apply_string`).
ghost use Rattle.std.specs.Prelude.{◌≡◌, ◌&&◌, Ok, OnOk, true, false, slice_get};
ghost use Rattle.std.specs.List.{list_any};
ghost use Rattle.buffer_glyphs.specs.Items.{Item};
ghost use Rattle.buffer_core.specs.Sides.{items_of, with_cleared_positions};
ghost use Rattle.layout_face.specs.Lookups.{is_reverse, substitution_covers};
ghost use Rattle.layout_map_features.specs.declared.per_table.TableIndex.TheVariants.{GSUB};
ghost use Rattle.layout_match.specs.Applied.{apply_context_of};
ghost use Rattle.layout_match.specs.Skipping.{HoldsText};
ghost use Rattle.layout_match.specs.Trying.{meets};
ghost use Rattle.buffer_stages.specs.Ready.{DoesGlyphStageFrom, HoldsGlyphs};
ghost use Rattle.layout_substitution.specs.Steps.{HasZeroPositions};
ghost use Rattle.layout_substitution.specs.Lookups.{lookup_context, lookup_stage};

use crate::backward::apply_backward;
use crate::forward::apply_forward;
use buffer_core::buffer::hb_buffer_t;
use buffer_glyphs::cause::ShapeCause;
use layout_face::substitution::{SubstLookup, SubstitutionTable};
use layout_map_features::lookup::lookup_map_t;
use layout_match::lookup::idle_run;
use layout_match::{TextDigest, hb_ot_apply_context_t};

/// Leaves out a lookup that can act nowhere: from the left it clears all positions, as wherever it is applied, unless
/// they are known to be zero. It answers whether they are known to be zero now.
#[tactic(auto, using(crate::proofs::Skipped::already_cleared, crate::proofs::Skipped::cleared_now))]
fn skip_lookup(lookup: &SubstLookup, cleared: bool, buffer: &mut hb_buffer_t) -> bool
    requires { cleared ≡ true → HasZeroPositions buffer.old }
    ensures backward { is_reverse lookup.now.subtables ≡ true → buffer.new ≡ buffer.old }
    ensures forward { is_reverse lookup.now.subtables ≡ false → buffer.new ≡ with_cleared_positions buffer.old }
    ensures cleared { result ≡ true → HasZeroPositions buffer.new }
{
    if lookup.is_reverse() {
        return cleared;
    }
    if cleared {
        return true;
    }
    buffer.clear_positions();
    true
}

/// Whether a lookup is to be tried at no glyph of a text: then no output has to be opened for it.
#[tactic(auto, using(crate::proofs::Skipped::none_in_text))]
fn is_idle(lookup: &SubstLookup, ctx: &hb_ot_apply_context_t, buffer: &hb_buffer_t) -> bool
    requires glyphs { HoldsGlyphs buffer.now }
    ensures idle { result ≡ true → list_any (λ (x : Item). meets (apply_context_of ctx.now) x
        && substitution_covers lookup.now.subtables x.number) (items_of buffer.now) ≡ false }
{
    let count = buffer.len();
    idle_run(ctx, &lookup.subtables, buffer) == count
}

/// Sets the lookup to apply from now on: its own flag, and the parameters that the map gives it.
fn set_lookup(ctx: &mut hb_ot_apply_context_t, lookup: &SubstLookup, lookup_map: &lookup_map_t)
    requires { ctx.old.table_index ≡ GSUB }
    ensures applied { apply_context_of ctx.new ≡ lookup_context ctx.old.face.now lookup.now lookup_map.now }
    ensures state { ctx.new.random_state ≡ ctx.old.random_state }
{
    ctx.set_lookup_mask(lookup_map.mask);
    ctx.auto_zwnj = lookup_map.auto_zwnj;
    ctx.auto_zwj = lookup_map.auto_zwj;
    ctx.random = lookup_map.random;
    ctx.per_syllable = lookup_map.per_syllable;
    ctx.lookup_props = lookup.props();
}

/// Applies the lookup at an index of the table at each glyph: one of reverse chaining from the right, in place, any
/// other from the left. One that can act at no glyph of the text, or is to be tried at none, is left out; an index
/// without one does nothing. `cleared` says that all positions are zero, and so does the answer.
#[tactic(auto, using(crate::proofs::Skipped::skipped_held))]
pub(crate) fn apply_mapped<T: TextDigest>(
    table: &SubstitutionTable,
    lookup_map: &lookup_map_t,
    text: &mut T,
    cleared: bool,
    ctx: &mut hb_ot_apply_context_t,
    buffer: &mut hb_buffer_t,
) -> Result<bool, ShapeCause>
    requires substitution { ctx.old.table_index ≡ GSUB }
    requires glyphs { HoldsGlyphs buffer.old }
    requires held { HoldsText (T.sets text.old) (items_of buffer.old) }
    requires cleared { cleared ≡ true → HasZeroPositions buffer.old }
    ensures stage { DoesGlyphStageFrom ctx.old.random_state ctx.new.random_state (lookup_stage ctx.old.face.now
        table.now.lookups (slice_get table.now.lookups lookup_map.now.index) lookup_map.now) result buffer.old
        buffer.new }
    ensures table { ctx.new.table_index ≡ GSUB }
    ensures face { ctx.new.face.now ≡ ctx.old.face.now }
    ensures held { OnOk result (HoldsText (T.sets text.new) (items_of buffer.new)) }
    ensures cleared { result ≡ Ok true → HasZeroPositions buffer.new }
{
    let Some(lookup) = table.get_lookup(lookup_map.index) else {
        return Ok(cleared);
    };
    // A list without an output is within its limit, so what is skipped would not have been refused for length.
    let _count = buffer.len();
    if text.misses(lookup_map.mask, &lookup.subtables, buffer) {
        return Ok(skip_lookup(lookup, cleared, buffer));
    }
    set_lookup(ctx, lookup, lookup_map);
    if is_idle(lookup, ctx, buffer) {
        text.after_lookup(false);
        return Ok(skip_lookup(lookup, cleared, buffer));
    }
    if lookup.is_reverse() {
        let acted = apply_backward(lookup, ctx, buffer);
        text.after_lookup(acted);
        return Ok(false);
    }
    let acted = apply_forward(table, lookup, ctx, buffer)?;
    text.after_lookup(acted);
    Ok(true)
}
