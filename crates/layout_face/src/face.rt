//! The font's data that shaping reads (rustybuzz: hb/face.rs).
ghost use Rattle.std.specs.Prelude.{◌≡◌, true, IsOk, None, OnErr, OnOk, is_some, neg_ℤ, pos, ◌/◌};
ghost use Rattle.std.specs.Option.{option_copied};
ghost use Rattle.layout_common.specs.Classes.{class_of};
ghost use Rattle.layout_common.specs.Rows.{value_of, with_value};
ghost use Rattle.layout_face.specs.CharacterMap.{with_nominal_glyph, with_variation_glyph};
ghost use Rattle.layout_face.specs.Indices.{indices_fit};
ghost use Rattle.layout_face.specs.Glyphs.{nominal_glyph, variation_glyph, width_of, height_of, origin_of, name_of, mark_set_has, glyph_class};

use crate::parts::{CharacterRow, FaceParts, GlyphDefinition, VariationRow};
use crate::positioning::PositioningTable;
use crate::substitution::SubstitutionTable;
use buffer_glyphs::names::hb_glyph_extents_t;
use layout_common::glyph_row::{find_value, set_value};
use std::alloc::{AllocError, Global};
use std::marker::Model;

/// A font. Lengths are in font units, y grows upward.
#[derive(Debug, Drop)]
pub struct Face {
    parts: FaceParts,
}

impl Model for Face {
    ghost use Rattle.std.specs.Prelude.{◌≡◌, true};
    ghost use Rattle.layout_face.specs.Indices.{indices_fit};
    ghost use Rattle.layout_face.specs.declared.parts.FaceParts.{FaceParts};

    ghost Value = { FaceParts };

    ghost view = { λ f. f.parts };

    ghost invariant = { λ f. indices_fit f.parts ≡ true };
}

/// Whether the font has glyph classes, even if they name no glyph.
pub fn hb_ot_layout_has_glyph_classes(face: &Face) -> bool
    ensures { result ≡ is_some face.now.gdef.classes }
{
    face.has_glyph_classes()
}

impl Face {
    /// A font whose indices and classes stay within their lists (`FaceParts::indices_fit`). The tables of rows
    /// themselves ensure that keys rise.
    pub fn new(parts: FaceParts) -> Face
        requires { indices_fit parts ≡ true }
        ensures { result ≡ parts }
    {
        Face { parts }
    }

    /// The font of a face, which is the face itself.
    pub fn from_face(face: Face) -> Face
        ensures { result ≡ face }
    {
        face
    }

    /// The font's data, field by field.
    pub fn parts(&self) -> &FaceParts
        ensures { result.now ≡ self.now }
    {
        &self.parts
    }

    /// Font units per em.
    pub fn units_per_em(&self) -> i32
        ensures { result ≡ pos self.now.upem }
    {
        i32::from(self.parts.upem)
    }

    /// The height of the ascender above the baseline, in font units; 0 where the font gives none.
    pub fn ascender(&self) -> i16
        ensures { result ≡ self.now.ascender }
    {
        self.parts.ascender
    }

    /// The glyph of a character, none where the font has none.
    pub fn get_nominal_glyph(&self, c: char) -> Option<u16>
        ensures { result ≡ nominal_glyph c self.now }
    {
        match self.parts.cmap.get(u32::from(c)) {
            Some(row) => Some(row.glyph),
            None => None,
        }
    }

    /// Whether the font has a glyph for a character.
    pub fn has_glyph(&self, c: char) -> bool
        ensures { result ≡ is_some (nominal_glyph c self.now) }
    {
        self.get_nominal_glyph(c).is_some()
    }

    /// The glyph of a character with a variation selector, none where the font has none for the two.
    #[tactic(auto, using(crate::proofs::VariationSearch::row_of_characters))]
    pub fn glyph_variation_index(&self, c: char, selector: char) -> Option<u16>
        ensures { result ≡ variation_glyph c selector self.now }
    {
        match self.parts.variants.get((c, selector)) {
            Some(row) => Some(row.glyph),
            None => None,
        }
    }

    /// Sets the glyph of a character, as a client's own character map gives it, or takes it away. The glyphs of variation
    /// sequences stay. Where the font gives the character no glyph yet, or loses it, characters are found by binary search
    /// until `index_characters` is called.
    #[tactic(auto, using(crate::proofs::CharacterMap::character_inserted, crate::proofs::CharacterMap::character_removed))]
    pub fn set_nominal_glyph(&mut self, c: char, glyph: Option<u16>) -> Result<(), AllocError>
        ensures set { OnOk result (self.new ≡ with_nominal_glyph c glyph self.old) }
        ensures kept { OnErr result (self.new ≡ self.old) }
        ensures removal { glyph ≡ None → IsOk result }
    {
        match glyph {
            Some(glyph) => self.parts.cmap.insert(CharacterRow {
                character: c,
                glyph,
            }),
            None => {
                self.parts.cmap.remove(u32::from(c));
                Ok(())
            }
        }
    }

    /// Sets the glyph of a character with a variation selector, as a client's own character map gives it, or takes it
    /// away.
    pub fn set_variation_glyph(
        &mut self,
        c: char,
        selector: char,
        glyph: Option<u16>,
    ) -> Result<(), AllocError>
        ensures set { OnOk result (self.new ≡ with_variation_glyph c selector glyph self.old) }
        ensures kept { OnErr result (self.new ≡ self.old) }
        ensures removal { glyph ≡ None → IsOk result }
    {
        match glyph {
            Some(glyph) => self.parts.variants.insert(VariationRow {
                character: c,
                selector,
                glyph,
            }),
            None => {
                self.parts.variants.remove((c, selector));
                Ok(())
            }
        }
    }

    /// Makes the index of the font's characters again, after some were added or taken away: each is then found at once. It
    /// takes at most 273 KB; for want of memory it stays as it was.
    pub fn index_characters(&mut self, alloc: Global) -> Result<(), AllocError>
        ensures { self.new ≡ self.old }
    {
        self.parts.cmap.index(alloc)
    }

    /// The advance of a glyph in a horizontal line, in font units: its width, 0 where the font gives none.
    pub fn glyph_h_advance(&self, glyph: u16) -> i32
        ensures { result ≡ pos (width_of glyph self.now) }
    {
        i32::from(self.width_of(glyph))
    }

    /// Sets the advance of a glyph in a horizontal line, in font units, as where a client measures it at a size; whether
    /// the font gives the glyph one.
    pub fn set_glyph_h_advance(&mut self, glyph: u16, advance: u16) -> bool
        ensures found { result ≡ is_some (value_of glyph self.old.h) }
        ensures set { self.new ≡ record self.old { h = with_value glyph advance self.old.h } }
    {
        set_value(&mut self.parts.h, glyph, advance)
    }

    fn width_of(&self, glyph: u16) -> u16
        ensures { result ≡ width_of glyph self.now }
    {
        find_value(&self.parts.h, glyph).unwrap_or(0)
    }

    /// The advance of a glyph in a vertical line, in font units: minus its height, minus the units of an em where the
    /// font gives none.
    pub fn glyph_v_advance(&self, glyph: u16) -> i32
        ensures { result ≡ neg_ℤ (pos (height_of glyph self.now)) }
    {
        -i32::from(self.height_of(glyph))
    }

    fn height_of(&self, glyph: u16) -> u16
        ensures { result ≡ height_of glyph self.now }
    {
        find_value(&self.parts.v, glyph).unwrap_or(self.parts.upem)
    }

    /// The x coordinate of a glyph's vertical origin: half its width.
    pub fn glyph_h_origin(&self, glyph: u16) -> i32
        ensures { result ≡ pos (width_of glyph self.now / 2) }
    {
        i32::from(self.width_of(glyph) / 2)
    }

    /// The y coordinate of a glyph's vertical origin, the ascender where the font gives none.
    pub fn glyph_v_origin(&self, glyph: u16) -> i32
        ensures { result ≡ origin_of glyph self.now }
    {
        i32::from(find_value(&self.parts.origins, glyph).unwrap_or(self.parts.ascender))
    }

    /// The box of a glyph's ink, none where the font gives none.
    pub fn glyph_extents(&self, glyph: u16) -> Option<hb_glyph_extents_t>
        ensures { result ≡ value_of glyph self.now.extents }
    {
        find_value(&self.parts.extents, glyph)
    }

    /// The name of a glyph, none where the font gives none.
    #[tactic(auto, using(buffer_rows::proofs::Searched::row_of_number))]
    pub fn glyph_name(&self, glyph: u16) -> Option<&str>
        ensures { option_copied result ≡ name_of glyph self.now }
    {
        match self.parts.names.get(glyph) {
            Some(row) => Some(row.name()),
            None => None,
        }
    }

    /// Whether the font has glyph classes, even if they name no glyph.
    pub fn has_glyph_classes(&self) -> bool
        ensures { result ≡ is_some self.now.gdef.classes }
    {
        self.parts.gdef.classes.is_some()
    }

    /// The GDEF class of a glyph: 1 a base, 2 a ligature, 3 a mark, another number none of these.
    pub fn glyph_class(&self, glyph: u16) -> u16
        ensures { result ≡ glyph_class glyph self.now.gdef.classes }
    {
        match &self.parts.gdef.classes {
            Some(classes) => classes.class_of(glyph),
            None => 0,
        }
    }

    /// The GDEF mark attachment class of a glyph, 0 where the font gives none.
    pub fn mark_attachment_class(&self, glyph: u16) -> u16
        ensures { result ≡ class_of glyph self.now.gdef.attach }
    {
        self.parts.gdef.attach.class_of(glyph)
    }

    /// Whether the mark glyph set at an index has a glyph; a missing set has none.
    pub fn is_in_mark_set(&self, set: u16, glyph: u16) -> bool
        ensures { result ≡ mark_set_has set glyph self.now.gdef.sets }
    {
        match self.parts.gdef.sets.get(usize::from(set)) {
            Some(marks) => marks.contains(glyph),
            None => false,
        }
    }

    /// The glyph definition table (GDEF): classes of glyphs, and mark glyph sets.
    pub fn gdef(&self) -> &GlyphDefinition
        ensures { result.now ≡ self.now.gdef }
    {
        &self.parts.gdef
    }

    /// The table of glyph substitution, where the font has one.
    pub fn gsub(&self) -> Option<&SubstitutionTable>
        ensures { option_copied result ≡ self.now.gsub }
    {
        self.parts.gsub.as_ref()
    }

    /// The table of glyph positioning, where the font has one.
    pub fn gpos(&self) -> Option<&PositioningTable>
        ensures { option_copied result ≡ self.now.gpos }
    {
        self.parts.gpos.as_ref()
    }
}
