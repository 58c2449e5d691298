//! The data of a font, a field for each key of its JSON format. Lengths are in font units.
ghost use Rattle.std.specs.Prelude.{◌≡◌, true, string_bytes};
ghost use Rattle.std.specs.Option.{option_map_or, option_copied};
ghost use Rattle.layout_face.specs.LookupIndices.{substitution_fits, positioning_fits};
ghost use Rattle.layout_face.specs.Indices.{indices_fit};

use crate::positioning::PositioningTable;
use crate::substitution::SubstitutionTable;
use buffer_glyphs::names::hb_glyph_extents_t;
use buffer_rows::{Keyed, Numbered, PagedRows, SortedRows};
use layout_common::array::Array;
use layout_common::class_definition::ClassDefinition;
use layout_common::coverage::Coverage;
use layout_common::glyph_row::GlyphRow;
use std::marker::Model;

/// A character and its glyph.
#[derive(Clone, Copy, Debug)]
pub struct CharacterRow {
    pub character: char,
    pub glyph: u16,
}

impl Keyed for CharacterRow {
    type Key = char;

    ghost key_of = { λ r. r.character };

    fn key(&self) -> char {
        self.character
    }
}

impl Numbered for CharacterRow {
    ghost number_of = { λ r. r.character };

    fn number(&self) -> u32 {
        u32::from(self.character)
    }
}

/// A character with a variation selector after it, and their glyph.
#[derive(Clone, Copy, Debug)]
pub struct VariationRow {
    pub character: char,
    pub selector: char,
    pub glyph: u16,
}

impl Keyed for VariationRow {
    type Key = (char, char);

    ghost key_of = { λ r. (r.character, r.selector) };

    fn key(&self) -> (char, char) {
        (self.character, self.selector)
    }
}

/// A glyph and its name.
#[derive(Debug, Drop)]
pub struct NameRow {
    glyph: u16,
    name: String,
}

impl Model for NameRow {
    ghost use Rattle.std.specs.Prelude.{string_bytes};
    ghost use Rattle.layout_face.specs.Names.{GlyphName};

    ghost Value = { GlyphName };

    ghost view = { λ r. record { glyph = r.glyph; name = string_bytes r.name } };
}

impl NameRow {
    /// Of a glyph and its name.
    pub fn new(glyph: u16, name: String) -> NameRow
        ensures { result ≡ record { glyph = glyph; name = string_bytes name } }
    {
        NameRow { glyph, name }
    }

    /// The name of the glyph.
    pub fn name(&self) -> &str
        ensures { result.now ≡ self.now.name }
    {
        self.name.as_str()
    }
}

impl Keyed for NameRow {
    type Key = u16;

    ghost key_of = { λ r. r.glyph };

    fn key(&self) -> u16 {
        self.glyph
    }
}

/// The glyph definition table (OpenType, GDEF).
#[derive(Debug, Drop)]
pub struct GlyphDefinition {
    /// The GDEF glyph classes: 1 a base, 2 a ligature, 3 a mark; none where the font gives no classes.
    pub classes: Option<ClassDefinition>,
    /// The mark attachment classes.
    pub attach: ClassDefinition,
    /// The mark glyph sets, in the order of their indices.
    pub sets: Array<Coverage>,
}

/// A font: a field for each key of its format.
#[derive(Debug, Drop)]
pub struct FaceParts {
    /// Font units per em.
    pub upem: u16,
    pub ascender: i16,
    /// The glyph of a character.
    pub cmap: PagedRows<CharacterRow>,
    /// The glyph of a character with a variation selector.
    pub variants: SortedRows<VariationRow>,
    /// Widths: the advances of a horizontal line, to the right.
    pub h: SortedRows<GlyphRow<u16>>,
    /// Heights: the advances of a vertical line, downward.
    pub v: SortedRows<GlyphRow<u16>>,
    /// The y coordinates of vertical origins.
    pub origins: SortedRows<GlyphRow<i16>>,
    pub extents: SortedRows<GlyphRow<hb_glyph_extents_t>>,
    pub names: SortedRows<NameRow>,
    pub gdef: GlyphDefinition,
    pub gsub: Option<SubstitutionTable>,
    pub gpos: Option<PositioningTable>,
}

impl FaceParts {
    /// Whether each index and each class is below the length of its list: features, lookups, nested ones too, mark glyph
    /// sets, records of pairs and anchors; and whether there are at most 65,535 sets, since 65535 names none.
    pub fn indices_fit(&self) -> bool
        ensures { result ≡ indices_fit self.now }
    {
        let set_count = self.gdef.sets.len();
        set_count <= usize::from(u16::MAX)
            && substitution_fits(set_count, self.gsub.as_ref())
            && positioning_fits(set_count, self.gpos.as_ref())
    }
}

fn substitution_fits(set_count: usize, table: Option<&SubstitutionTable>) -> bool
    ensures { result ≡ option_map_or (λ t. substitution_fits set_count t) (option_copied table.entry) true }
{
    match table {
        Some(table) => table.indices_fit(set_count),
        None => true,
    }
}

fn positioning_fits(set_count: usize, table: Option<&PositioningTable>) -> bool
    ensures { result ≡ option_map_or (λ t. positioning_fits set_count t) (option_copied table.entry) true }
{
    match table {
        Some(table) => table.indices_fit(set_count),
        None => true,
    }
}
