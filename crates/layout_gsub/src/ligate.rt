//! Makes a ligature of components (rustybuzz: hb/ot_layout_gsubgpos.rs, `ligate_input`).
ghost use Rattle.std.specs.Prelude.{ℕ, ◌≡◌, ◌≢◌, ◌<◌, ◌≤◌, ◌+◌, ◌^◌, ◌∷◌, ◌==◌, ◌&&◌, ◌||◌, not, true, false, Some, length, nat_le, slice_get, if◌then◌else◌, IfErr, OnOk};
ghost use Rattle.std.specs.List.{All};
ghost use Rattle.buffer_glyphs.specs.declared.info.hb_glyph_info_t.{hb_glyph_info_t as Glyph};
ghost use Rattle.buffer_glyphs.specs.Items.{Item, item_of, strip};
ghost use Rattle.buffer_glyphs.specs.Origins.{origin_of};
ghost use Rattle.buffer_core.specs.Lending.{with_glyph_ahead};
ghost use Rattle.buffer_core.specs.Settings.{next_lig_id};
ghost use Rattle.buffer_core.specs.Sides.{has_output_room, HasCurrent};
ghost use Rattle.buffer_glyphs.specs.LigatureWords.{lig_comp, lig_id, lig_num_comps, ligature_word};
ghost use Rattle.buffer_stages.specs.Actions.{Refuses};
ghost use Rattle.buffer_stages.specs.Performing.{IsPerformed, cut_with};
ghost use Rattle.layout_gsub.specs.Ligating.{component_now, following_items, ligature_substitution, ligature_category, ligature_props, passed_item, passed_items, with_component};
ghost use Rattle.layout_gsub.specs.Uniting.{ArePassedAs, AreRising, AreUnited, IsMerged, IsPassedAs, IsRenumbered, end_of};

use crate::components::LigatureComponents;
use crate::replacement::glyph_props;
use buffer_core::buffer::hb_buffer_t;
use buffer_glyphs::cause::ShapeCause;
use buffer_glyphs::flags::{GlyphPropsFlags, UnicodeProps};
use buffer_glyphs::info::hb_glyph_info_t;
use buffer_glyphs::ligature_words::{
    _hb_glyph_info_get_lig_comp, _hb_glyph_info_get_lig_id, _hb_glyph_info_get_lig_num_comps,
    _hb_glyph_info_set_lig_props_for_ligature, _hb_glyph_info_set_lig_props_for_mark,
};
use layout_face::Face;

/// The low bits of a property word hold a general category, one of 32.
const CATEGORIES: u16 = 32;

/// The general category Mn, by HarfBuzz's number.
const NON_SPACING_MARK: u16 = 12;

/// The general category Lo, by HarfBuzz's number.
const OTHER_LETTER: u16 = 7;

/// The properties of a ligature whose first component had `old`; `own_number` says whether it gets a ligature number.
fn ligature_props(
    face: &Face,
    glyph: u16,
    own_number: bool,
    old: GlyphPropsFlags,
) -> GlyphPropsFlags
    ensures { result.0 ≡ ligature_props face.now.gdef glyph own_number old.0 }
{
    let props = old.0 | (GlyphPropsFlags::SUBSTITUTED.0 | GlyphPropsFlags::LIGATED.0);
    let kept = GlyphPropsFlags::SUBSTITUTED.0 | GlyphPropsFlags::LIGATED.0;
    if face.has_glyph_classes() {
        return GlyphPropsFlags(props & kept | glyph_props(face, glyph).0);
    }
    if own_number {
        return GlyphPropsFlags(props & kept | GlyphPropsFlags::LIGATURE.0);
    }
    GlyphPropsFlags(props & !GlyphPropsFlags::MULTIPLIED.0)
}

/// The property word of such a ligature: where its first component is a non-spacing mark (Mn), its category is Letter
/// (Lo).
fn ligature_category(own_number: bool, old: UnicodeProps) -> UnicodeProps
    ensures { result.0 ≡ ligature_category own_number old.0 }
{
    let category = old.0 % CATEGORIES;
    if own_number && category == NON_SPACING_MARK {
        return UnicodeProps(old.0 - category + OTHER_LETTER);
    }
    old
}

/// The ligature that replaces components, the first of which is `info`; `lig_id` is its number where it gets one.
fn ligature_info(
    face: &Face,
    glyph: u16,
    components: &LigatureComponents,
    lig_id: u8,
    info: &hb_glyph_info_t,
) -> hb_glyph_info_t
    requires { lig_id < 8 }
    ensures item { item_of result ≡ record (item_of info.now) {
      number = glyph;
      unicode_props = ligature_category components.now.have_own_number info.now.unicode_props.0;
      glyph_props = ligature_props face.now.gdef glyph components.now.have_own_number info.now.glyph_props.0;
      lig_props = if components.now.have_own_number then ligature_word lig_id components.now.component_count
          else info.now.lig_props;
    } }
    ensures origin { origin_of result ≡ origin_of info.now }
{
    let mut ligature = hb_glyph_info_t {
        glyph_id: u32::from(glyph),
        unicode_props: ligature_category(components.have_own_number, info.unicode_props),
        glyph_props: ligature_props(face, glyph, components.have_own_number, info.glyph_props),
        ..*info
    };
    if components.have_own_number {
        _hb_glyph_info_set_lig_props_for_ligature(
            &mut ligature,
            lig_id,
            components.component_count,
        );
    }
    ligature
}

/// The ligature components that marks after a component of a new ligature belong to.
#[derive(Clone, Copy)]
struct ComponentNumbering {
    /// Whether marks between components are renumbered.
    renumbers: bool,
    lig_id: u8,
    /// How many components the new ligature has up to the glyph that these marks follow, that one's own included.
    ended: u64,
    /// How many of them are that glyph's own: several, where it was a ligature itself.
    own: u32,
}

impl ComponentNumbering {
    /// The component of the new ligature that a mark belongs to.
    fn component_now(&self, info: &hb_glyph_info_t) -> u64
        requires { self.now.ended < 2 ^ 60 }
        ensures { result ≡ component_now self.now.ended self.now.own (item_of info.now) }
    {
        let own = u64::from(self.own);
        let component = u64::from(_hb_glyph_info_get_lig_comp(info));
        let component = if component == 0 { own } else { component };
        self.ended.saturating_sub(own) + component.min(own)
    }

    /// The mark with its component of the new ligature.
    fn with_component(&self, info: &hb_glyph_info_t) -> hb_glyph_info_t
        requires number { self.now.lig_id < 8 }
        requires bound { self.now.ended < 2 ^ 60 }
        ensures item { item_of result ≡ with_component self.now.lig_id self.now.ended self.now.own (item_of info.now) }
        ensures origin { origin_of result ≡ origin_of info.now }
    {
        let mut mark = *info;
        _hb_glyph_info_set_lig_props_for_mark(&mut mark, self.lig_id, self.component_now(info));
        mark
    }

    /// A glyph between this component and the next, renumbered where it is to be.
    fn renumber(&self, info: &hb_glyph_info_t) -> hb_glyph_info_t
        requires number { self.now.lig_id < 8 }
        requires bound { self.now.ended < 2 ^ 60 }
        ensures item { item_of result
            ≡ passed_item self.now.renumbers self.now.lig_id self.now.ended self.now.own (item_of info.now) }
        ensures origin { origin_of result ≡ origin_of info.now }
    {
        if self.renumbers {
            return self.with_component(info);
        }
        *info
    }

    /// The numbering that applies after the next component.
    fn behind(&self, component: &hb_glyph_info_t) -> ComponentNumbering
        requires { self.now.ended < 2 ^ 60 }
        ensures numbering { result ≡ record self.now {
          ended = self.now.ended + lig_num_comps (item_of component.now);
          own = lig_num_comps (item_of component.now);
        } }
        ensures bound { result.ended ≤ self.now.ended + 2 ^ 28 }
    {
        let own = _hb_glyph_info_get_lig_num_comps(component);
        ComponentNumbering {
            ended: self.ended + u64::from(own),
            own,
            ..*self
        }
    }
}

/// Sets the glyph at an index from the cursor on.
fn set_glyph(at: usize, info: hb_glyph_info_t, buffer: &mut hb_buffer_t)
    requires { at < length buffer.old.ahead }
    ensures { buffer.new ≡ with_glyph_ahead at info buffer.old }
{
    *buffer.cur_mut(at) = info;
}

/// Replaces the glyph at the cursor by another of its origin, and outputs it.
fn pass_as(info: hb_glyph_info_t, buffer: &mut hb_buffer_t) -> Result<(), ShapeCause>
    requires current { HasCurrent buffer.old }
    requires origin { (g : Glyph) → slice_get buffer.old.ahead 0 ≡ Some g → origin_of info ≡ origin_of g }
    ensures passed { OnOk result (IsPassedAs (item_of info) buffer.old buffer.new) }
    ensures cause { IfErr result (λ e. e ≢ ShapeCause.OutOfMemory → e ≡ ShapeCause.TooLong) }
    ensures full { IfErr result (λ e. e ≢ ShapeCause.OutOfMemory → has_output_room 1 buffer.old ≡ false) }
{
    set_glyph(0, info, buffer);
    if !buffer.next_glyph()? {
        return Err(ShapeCause::TooLong);
    }
    Ok(())
}

/// Outputs `count` glyphs from the cursor on, which are between two components.
fn pass_between(
    numbering: &ComponentNumbering,
    count: usize,
    buffer: &mut hb_buffer_t,
) -> Result<(), ShapeCause>
    requires open { buffer.old.is_open ≡ true }
    requires there { count ≤ length buffer.old.ahead }
    requires number { numbering.now.lig_id < 8 }
    requires bound { numbering.now.ended < 2 ^ 60 }
    ensures passed { OnOk result (ArePassedAs (passed_item numbering.now.renumbers numbering.now.lig_id
        numbering.now.ended
        numbering.now.own) count buffer.old buffer.new) }
    ensures cause { IfErr result (λ e. e ≢ ShapeCause.OutOfMemory → e ≡ ShapeCause.TooLong) }
    ensures full { IfErr result (λ e. e ≢ ShapeCause.OutOfMemory → has_output_room count buffer.old ≡ false) }
{
    for _ in 0..count {
        let info = numbering.renumber(buffer.cur(0));
        pass_as(info, buffer)?;
    }
    Ok(())
}

#[tactic(auto, using(crate::proofs::United::unite_refused, crate::proofs::United::first_refused))]
/// Replaces the current glyph by the ligature, deletes the other components (at `others`), and outputs the glyphs
/// between them.
fn unite_components(
    first: hb_glyph_info_t,
    others: &[usize],
    first_numbering: ComponentNumbering,
    buffer: &mut hb_buffer_t,
) -> Result<(), ShapeCause>
    requires current { HasCurrent buffer.old }
    requires origin { (g : Glyph) → slice_get buffer.old.ahead 0 ≡ Some g → origin_of first ≡ origin_of g }
    requires ahead { All (λ q. q < length buffer.old.ahead) others.now }
    requires rising { AreRising 1 others.now }
    requires few { length others.now < 64 }
    requires number { first_numbering.lig_id < 8 }
    requires bound { first_numbering.ended ≤ 2 ^ 28 }
    ensures united { OnOk result (AreUnited (item_of first)
        (passed_items first_numbering.renumbers first_numbering.lig_id
        first_numbering.ended first_numbering.own 1 others.now (strip buffer.old.ahead)) others.now buffer.old
        buffer.new) }
    ensures cause { IfErr result (λ e. e ≢ ShapeCause.OutOfMemory → e ≡ ShapeCause.TooLong) }
    ensures full { IfErr result (λ e. e ≢ ShapeCause.OutOfMemory →
        nat_le (length buffer.old.behind + (1 + length (passed_items first_numbering.renumbers first_numbering.lig_id
        first_numbering.ended first_numbering.own 1 others.now (strip buffer.old.ahead)))) buffer.old.max_len ≡ false) }
{
    // The number of glyphs bounds `*at + 1`.
    let _end = buffer.len();
    pass_as(first, buffer)?;
    let mut numbering = first_numbering;
    let mut from = 1;
    for at in others {
        pass_between(&numbering, *at - from, buffer)?;
        numbering = numbering.behind(buffer.cur(0));
        buffer.skip_glyph();
        from = *at + 1;
    }
    Ok(())
}

/// Whether a glyph belongs to a component of a ligature.
fn is_mark_of(ligature: u8, info: &hb_glyph_info_t) -> bool
    ensures { result ≡ ((lig_id (item_of info.now) == ligature) && not (lig_comp (item_of info.now) == 0)) }
{
    _hb_glyph_info_get_lig_id(info) == ligature && _hb_glyph_info_get_lig_comp(info) != 0
}

/// Renumbers the marks from the cursor on that belong to the last component's ligature; the first glyph that doesn't
/// belong to it ends them.
fn renumber_following(numbering: &ComponentNumbering, last_lig_id: u8, buffer: &mut hb_buffer_t)
    requires number { numbering.now.lig_id < 8 }
    requires bound { numbering.now.ended < 2 ^ 60 }
    ensures { IsRenumbered (following_items numbering.now.lig_id last_lig_id numbering.now.ended numbering.now.own
        (strip buffer.old.ahead)) buffer.old buffer.new }
{
    let count = buffer.len() - buffer.idx();
    for at in 0..count {
        let info = buffer.cur(at);
        if !is_mark_of(last_lig_id, info) {
            return;
        }
        let mark = numbering.with_component(info);
        set_glyph(at, mark, buffer);
    }
}

/// Renumbers the marks after the last component, where that is of a ligature.
fn renumber_behind(components: &LigatureComponents, lig_id: u8, buffer: &mut hb_buffer_t)
    requires number { lig_id < 8 }
    requires bound { components.now.component_count < 2 ^ 60 }
    ensures { IsRenumbered (if components.now.are_marks || (components.now.last_lig_id == 0) then strip buffer.old.ahead
        else following_items lig_id components.now.last_lig_id components.now.component_count components.now.last_components
        (strip buffer.old.ahead)) buffer.old buffer.new }
{
    if components.are_marks || components.last_lig_id == 0 {
        return;
    }
    let numbering = ComponentNumbering {
        renumbers: true,
        lig_id,
        ended: components.component_count,
        own: components.last_components,
    };
    renumber_following(&numbering, components.last_lig_id, buffer);
}

/// Merges the first `end` glyphs from the cursor on; answers the number of the new ligature, 0 where it has none of its own.
fn merge_components(components: &LigatureComponents, end: usize, buffer: &mut hb_buffer_t) -> u8
    requires open { buffer.old.is_open ≡ true }
    requires within { end ≤ length buffer.old.ahead }
    ensures given { result ≡ (if components.now.have_own_number then next_lig_id buffer.old.lig_id else 0) }
    ensures number { result < 8 }
    ensures merged { IsMerged end (if components.now.have_own_number then next_lig_id buffer.old.lig_id
        else buffer.old.lig_id) buffer.old buffer.new }
    ensures apart { buffer.new.is_apart ≡ buffer.old.is_apart }
{
    // The number of glyphs bounds `start + end`.
    let _end = buffer.len();
    let start = buffer.idx();
    buffer.merge_clusters(start, start + end);
    if !components.have_own_number {
        return 0;
    }
    buffer.allocate_lig_id()
}

/// Makes a ligature of the glyph at the cursor and the other components at some indices ahead, which rise, count from
/// the cursor, and are fewer than 64; `end` is the index after the last of them, 1 where there is none. An output that is
/// in place stays there.
pub fn ligate_input(
    others: &[usize],
    end: usize,
    glyph: u16,
    face: &Face,
    buffer: &mut hb_buffer_t,
) -> Result<(), ShapeCause>
    requires current { HasCurrent buffer.old }
    requires ahead { All (λ q. q < length buffer.old.ahead) others.now }
    requires rising { AreRising 1 others.now }
    requires few { length others.now < 64 }
    requires end { end ≡ end_of 1 others.now }
    requires within { end ≤ length buffer.old.ahead }
    ensures made { OnOk result ((r : ℕ) → IsPerformed (ligature_substitution face.now.gdef glyph (0 ∷ others.now) end
        (cut_with r buffer.old)) true r r buffer.old buffer.new) }
    ensures apart { OnOk result (buffer.new.is_apart ≡ buffer.old.is_apart) }
    ensures refused { IfErr result (λ e. e ≢ ShapeCause.OutOfMemory → (r : ℕ) →
        ligature_substitution face.now.gdef glyph (0 ∷ others.now) end (cut_with r buffer.old) ≡ Refuses e) }
{
    let components = LigatureComponents::new(others, end, buffer);
    let lig_id = merge_components(&components, end, buffer);
    let first = ligature_info(face, glyph, &components, lig_id, buffer.cur(0));
    let numbering = ComponentNumbering {
        renumbers: components.have_own_number,
        lig_id,
        ended: u64::from(components.first_components),
        own: components.first_components,
    };
    unite_components(first, others, numbering, buffer)?;
    renumber_behind(&components, lig_id, buffer);
    Ok(())
}
