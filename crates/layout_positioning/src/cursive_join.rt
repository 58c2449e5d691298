//! Cursive attachment (OpenType, GPOS lookup type 3; rustybuzz: hb/ot_layout_gpos_table.rs, `CursiveAdjustment`).
ghost use Rattle.std.specs.Prelude.{ℕ, ◌≡◌, ◌<◌, ◌≤◌, IfErr, IfOk, Ok, false, true, length};
ghost use Rattle.layout_match.specs.Applied.{apply_context_of};
ghost use Rattle.buffer_stages.specs.Performing.{IsPerformed, cut_with};
ghost use Rattle.buffer_stages.specs.Ready.{IsAtGlyphPosition, IsAtPosition};
ghost use Rattle.layout_positioning.specs.Joins.{cursive_subtable, entry_of, exit_of, join, join_if, on_exit};
ghost use Rattle.layout_offsets.specs.Cursive.{cursive_attachment};
ghost use Rattle.layout_gpos.specs.Marks.{with_found};

use buffer_core::buffer::hb_buffer_t;
use layout_gpos::apply::Apply;
use layout_gpos::bases::LastSearches;
use layout_gpos::mark::set_attachment_flag;
use layout_gpos::placing::pass;
use layout_gpos::search::{glyph_before, item_before};
use layout_match::hb_ot_apply_context_t;
use layout_match::marking::{mark_attempt, mark_match};
use layout_offsets::cursive_join::{Joint, attaches_earlier_glyph, join_both};
use layout_offsets::links::is_near;
use layout_tables::cursive::CursivePos;
use layout_tables::value::Anchor;

#[tactic(auto, using(crate::proofs::Joined::joined_back))]
fn join_at(buffer: &mut hb_buffer_t, earlier: bool, join: Joint)
    requires closed { buffer.old.is_open ≡ false }
    requires first { join.first < length buffer.old.positions }
    requires second { join.second < length buffer.old.positions }
    ensures { buffer.new ≡ record buffer.old {
      positions = cursive_attachment buffer.old.direction earlier join.first join.exit join.second join.entry buffer.old.positions;
    } }
{
    let direction = buffer.direction();
    join_both(buffer.pos_slice_mut(), earlier, join, direction);
}

/// Joins the glyph at the cursor to one before it, and moves the cursor on.
fn join(
    ctx: &hb_ot_apply_context_t,
    exit: Anchor,
    entry: Anchor,
    back: usize,
    buffer: &mut hb_buffer_t,
)
    requires at_position { IsAtPosition buffer.old }
    requires before { back < length buffer.old.behind }
    ensures { (random : ℕ) → IsPerformed (join buffer.old.direction (apply_context_of ctx.now) exit entry back (cut_with random
        buffer.old)) true random random buffer.old buffer.new }
{
    // The number of glyphs bounds `back + 1`.
    let _end = buffer.len();
    let second = buffer.out_len();
    let first = second - (back + 1);
    mark_match(back + 1, 1, buffer);
    let earlier = attaches_earlier_glyph(ctx.lookup_props);
    join_at(
        buffer,
        earlier,
        Joint {
            first,
            exit,
            second,
            entry,
        },
    );
    set_attachment_flag(buffer, is_near(second, first));
    pass(buffer, 1);
}

fn exit_of(subtable: &CursivePos, glyph: u16) -> Option<Anchor>
    ensures { result ≡ exit_of subtable.now.rows glyph }
{
    subtable.entry_exit(glyph)?.exit
}

fn entry_of(subtable: &CursivePos, glyph: u16) -> Option<Anchor>
    ensures { result ≡ entry_of subtable.now.rows glyph }
{
    subtable.entry_exit(glyph)?.entry
}

/// Joins the glyph at the cursor to one before it, where that has an exit.
#[tactic(auto, using(crate::proofs::Joined::not_joined, crate::proofs::Joined::both_joined, layout_gpos::proofs::Lemmas::Performed::attempt_performed))]
fn join_if(
    ctx: &hb_ot_apply_context_t,
    exit: Option<Anchor>,
    entry: Anchor,
    back: usize,
    buffer: &mut hb_buffer_t,
) -> bool
    requires at_position { IsAtPosition buffer.old }
    requires before { back < length buffer.old.behind }
    ensures { (random : ℕ) → IsPerformed (join_if buffer.old.direction (apply_context_of ctx.now) exit entry back
        (cut_with random
        buffer.old)) result random random buffer.old buffer.new }
{
    // The number of glyphs before the cursor bounds `back + 1`.
    let _end = buffer.out_len();
    let Some(exit) = exit else {
        mark_attempt(back + 1, 1, buffer);
        return false;
    };
    join(ctx, exit, entry, back, buffer);
    true
}

/// Joins the glyph at the cursor to the glyph that the search found before it.
#[tactic(auto, using(layout_gpos::proofs::Lemmas::Nearest::number_back, crate::proofs::Joined::found_joined, layout_gpos::proofs::Lemmas::Performed::attempt_performed))]
fn join_found(
    subtable: &CursivePos,
    ctx: &hb_ot_apply_context_t,
    entry: Anchor,
    found: Result<usize, usize>,
    buffer: &mut hb_buffer_t,
) -> bool
    requires at_glyph_position { IsAtGlyphPosition buffer.old }
    requires inside { IfOk found (λ at. at < length buffer.old.behind) }
    requires read { IfErr found (λ end. end ≤ length buffer.old.behind) }
    ensures { (random : ℕ) → IsPerformed (with_found (on_exit buffer.old.direction (apply_context_of ctx.now) subtable.now.rows
        entry) found (cut_with random buffer.old)) result random random buffer.old buffer.new }
{
    match found {
        Ok(back) => {
            let glyph = glyph_before(buffer, back).as_glyph().0;
            join_if(ctx, exit_of(subtable, glyph), entry, back, buffer)
        }
        Err(end) => {
            mark_attempt(end, 1, buffer);
            false
        }
    }
}

/// Cursive attachment (OpenType, GPOS lookup type 3): where the subtable has an entry for the glyph at the cursor, and
/// an exit for the nearest before it, the two are joined. With RIGHT_TO_LEFT in the lookup flag the earlier glyph is
/// attached to the later one.
pub struct CursiveAttachment;

impl Apply for CursiveAttachment {
    ghost use Rattle.layout_positioning.specs.Lemmas.Uncovered.{cursive_uncovered};

    type Subtable = CursivePos;

    ghost action = { λ s d a. cursive_subtable d a s.rows };

    #[tactic(auto, using(buffer_stages::proofs::Lemmas::Glyphs::number_ahead, crate::proofs::Joined::no_entry))]
    fn apply(
        subtable: &CursivePos,
        ctx: &hb_ot_apply_context_t,
        _last: &mut LastSearches,
        buffer: &mut hb_buffer_t,
    ) -> bool {
        let Some(entry) = entry_of(subtable, buffer.cur(0).as_glyph().0) else {
            return false;
        };
        let found = item_before(ctx, buffer);
        join_found(subtable, ctx, entry, found, buffer)
    }

    ghost uncovered = { λ s d a. cursive_uncovered d a s.rows };
}
