//! Worked rows of normalizing with the Indic shaper's decompositions and compositions (rustybuzz:
//! hb/ot_shaper_indic.rs).
ghost use Rattle.std.specs.Prelude.{◌≡◌};

use super::lists::{list_agrees, numbered, tables_of};
use crate::rows::{part, value};
use buffer_core::buffer::hb_buffer_t;
use buffer_properties::NormalizationMode;
use buffer_unicode_tables::UnicodeTables;
use script_indic::characters;
use shape_normalize::normalizing::Normalizing;
use std::alloc::Global;
use std::test::Fail;

/// Tables and the glyphs of characters, with the Indic shaper's preference and hooks.
#[derive(Drop)]
pub struct IndicNormalizer<'a> {
    pub tables: &'a UnicodeTables,
    /// Characters with their glyphs.
    pub glyphs: &'a [(char, u32)],
}

impl Normalizing for IndicNormalizer<'_> {
    ghost use Rattle.std.specs.Prelude.{◌&&◌, None, if◌then◌else◌, refl};
    ghost use lib.Utf8.{scalar};
    ghost use Rattle.buffer_glyphs.specs.Rewriting.{eventless_arrangement};
    ghost use Rattle.buffer_properties.specs.declared.normal_mode.NormalizationMode.TheVariants.{ComposedDiacriticsNoShortCircuit};
    ghost use Rattle.script_indic.specs.Characters.{indic_pair, indic_split};
    ghost use Rattle.tests_stages.specs.Rows.{glyph_in};

    ghost normalizer = { λ n. record {
      tables = n.tables.now;
      mode = ComposedDiacriticsNoShortCircuit;
      glyph_of = glyph_in n.glyphs.now;
      variant_of = λ u s. None;
      invisible = None;
      unjoined_glyph = None;
      not_found = 0;
      splits = λ u. if scalar u then indic_split n.tables.now u else None;
      composes = λ a b. if scalar a && scalar b then indic_pair n.tables.now a b else None;
      reorders = λ run. eventless_arrangement run;
    } };

    ghost keeps_count = { λ n run. refl };

    fn mode(&self) -> NormalizationMode {
        NormalizationMode::ComposedDiacriticsNoShortCircuit
    }

    fn tables(&self) -> &UnicodeTables {
        self.tables
    }

    fn glyph(&self, u: u32) -> Option<u32> {
        let (_, glyph) = self.glyphs.iter().find(|row| u32::from(row.0) == u)?;
        Some(*glyph)
    }

    fn variant(&self, _u: u32, _selector: u32) -> Option<u32> {
        None
    }

    fn invisible(&self) -> Option<u32> {
        None
    }

    fn unjoined_glyph(&self) -> Option<u32> {
        None
    }

    fn not_found(&self) -> u32 {
        0
    }

    fn decompose(&self, ab: u32) -> Option<(char, char)> {
        match char::from_u32(ab) {
            Some(ab) => characters::decompose(self.tables, ab),
            None => None,
        }
    }

    fn compose(&self, a: u32, b: u32) -> Option<char> {
        match (char::from_u32(a), char::from_u32(b)) {
            (Some(a), Some(b)) => characters::compose(self.tables, a, b),
            _ => None,
        }
    }

    #[tactic(auto, using(crate::proofs::Ready::unchanged))]
    fn reorder_marks(&self, _buffer: &mut hb_buffer_t, _start: usize, _end: usize) {}
}

fn agrees_with(alloc: Global, tables: &UnicodeTables, row: &str) -> Result<bool, Fail> {
    let glyphs = numbered(alloc, part(row, 5), '=')?;
    let by = IndicNormalizer {
        tables,
        glyphs: &glyphs,
    };
    let level = value(part(row, 1), "level");
    list_agrees(alloc, &by, level, "ni@pk", part(row, 6), part(row, 7))
}

pub(crate) fn agrees(alloc: Global, row: &str) -> Result<bool, Fail> {
    let tables = tables_of(alloc, part(row, 2), part(row, 3), part(row, 4))?;
    agrees_with(alloc, &tables, row)
}

// A name has the names of the characters.
pub(crate) static ROWS: &str = r#"
# name; options; decompositions; compositions; classes; glyphs; text; normalized text
rha; level=1; ; ; ; ; U+9DD@0; U+9DD@0 p=7
dda; ; ; ; ; ; U+9A1@0; U+9A1@0 p=7
ra; ; ; ; ; ; U+930@0; U+930@0 p=7
dda; ; ; ; ; 9A1=1; U+9A1@0; U+9A1@0 i=1 p=7
rha; ; ; ; ; 9DD=1; U+9DD@0; U+9DD@0 i=1 p=7
rra; ; ; ; ; 931=1; U+931@0; U+931@0 i=1 p=7
au; level=1; ; ; ; B94=1; U+B94@0; U+B94@0 i=1 p=7
au length mark; level=1; ; ; ; BD7=1; U+BD7@0; U+BD7@0 i=1 p=10
yya; level=1; 9DF=9AF+9BC; ; 9BC=7; 9AF=1, 9DF=2; U+9DF@0; U+9DF@0 i=2 p=7
yya; ; 9DF=9AF+9BC; ; 9BC=7; 9BC=1, 9DF=2; U+9DF@0; U+9DF@0 i=2 p=7
nnna; ; 929=928+93C; ; 93C=7; 929=1, 93C=2; U+929@0; U+929@0 i=1 p=7
o; ; 9CB=9C7+9BE; 9C7+9BE=9CB; ; 9C7=1, 9CB=2; U+9CB@0; U+9CB@0 i=2 p=10
yya; level=1; 9DF=9AF+9BC; ; 9BC=7; 9AF=1, 9BC=2, 9DF=3; U+9DF@0; U+9AF@0 i=1 p=7, U+9BC@0 i=2 p=12 k=7
yya; ; 9DF=9AF+9BC; ; 9BC=7; 9AF=1, 9BC=2, 9DF=3; U+9DF@0; U+9AF@0 i=1 p=7, U+9BC@0 i=2 p=12 k=7
rra; level=1; 9DC=9A1+9BC; ; 9BC=7; 9A1=1, 9BC=2, 9DC=3; U+9DC@0; U+9DC@0 i=3 p=7
ra, ya; ; ; ; ; ; U+930@0, U+9AF@2; U+930@0 p=7, U+9AF@2 p=7
nnna; ; 929=928+93C; 928+93C=929; 93C=7; 929=1, 93C=2; U+929@0; U+929@0 i=1 p=7
nnna; ; 929=928+93C; 928+93C=929; 93C=7; 928=1, 929=2; U+929@0; U+929@0 i=2 p=7
o; level=1; 9CB=9C7+9BE; 9C7+9BE=9CB; ; 9BE=1, 9C7=2, 9CB=3; U+9CB@0; U+9C7@0 i=2 p=10, U+9BE@0 i=1 p=10
ya, grapheme joiner; level=1; ; ; ; 34F=1; U+9AF@0, U+34F@2; U+9AF@0 p=7, U+34F@2 i=1 p=108
2 e; level=1; ; ; ; 9C7=1; U+9C7@0, U+9C7@1; U+9C7@0 i=1 p=10, U+9C7@1 i=1 p=10
2 e; ; ; ; ; 9C7=1; U+9C7@0, U+9C7@0; U+9C7@0 i=1 p=10, U+9C7@0 i=1 p=10
e, aa; ; ; ; ; 9BE=1; U+9C7@0, U+9BE@0; U+9C7@0 p=10, U+9BE@0 i=1 p=10
ra, acute accent; ; ; ; 301=230; ; U+930@0, U+301@0; U+930@0 p=7, U+301@0 p=12 k=230
nnna; level=1; 929=928+93C; 928+93C=929; 93C=7; 928=1, 929=2, 93C=3; U+929@0; U+928@0 i=1 p=7, U+93C@0 i=3 p=12 k=7
2 nukta; ; ; ; 9BC=7; 9BC=1; U+9BC@0, U+9BC@0; U+9BC@0 i=1 p=12 k=7, U+9BC@0 i=1 p=12 k=7
o, nnna; ; ; ; ; 929=1, B92=2; U+B92@0, U+929@1; U+B92@0 i=2 p=7, U+929@1 i=1 p=7
o, acute accent; ; ; ; 301=230; B92=1; U+B92@0, U+301@0; U+B92@0 i=1 p=7, U+301@0 p=12 k=230
ya, nukta; ; ; ; 9BC=7; 9AF=1, 9BC=2; U+9AF@3, U+9BC@0; U+9AF@3 i=1 p=7, U+9BC@0 i=2 p=12 k=7
ya, nukta; ; ; ; 9BC=7; 9AF=1, 9BC=2; U+9AF@2, U+9BC@0; U+9AF@2 i=1 p=7, U+9BC@0 i=2 p=12 k=7
ra, nukta; ; ; ; 9BC=7; 930=1, 9BC=2; U+930@0, U+9BC@0; U+930@0 i=1 p=7, U+9BC@0 i=2 p=12 k=7
nukta, acute accent; ; ; ; 301=230, 9BC=7; 301=1; U+9BC@0, U+301@0; U+9BC@0 p=12 k=7, U+301@0 i=1 p=12 k=230
ya, nukta; ; ; ; 9BC=7; 9AF=1, 9BC=2, 9DF=3; U+9AF@0, U+9BC@0; U+9DF@0 i=3 p=7
yya, nukta; ; 9DF=9AF+9BC; ; 9BC=7; 9AF=1, 9BC=2; U+9DF@0, U+9BC@0;
  U+9AF@0 i=1 p=7, U+9BC@0 i=2 p=12 k=7, U+9BC@0 i=2 p=12 k=7
dda, nukta; ; ; 9A1+9BC=927; 9BC=7; 927=1, 9BC=2; U+9A1@2, U+9BC@0; U+927@0 i=1 p=7
yya, nukta; level=1; 9DF=9AF+9BC; ; 9BC=7; 9BC=1, 9DF=2; U+9DF@0, U+9BC@1; U+9DF@0 i=2 p=7, U+9BC@1 i=1 p=12 k=7
ya, grapheme joiner; level=1; ; 9AF+34F=1794; ; 9AF=1, 9DF=2, 1794=3; U+9AF@1, U+34F@0; U+1794@0 i=3 p=7
2 yya; level=1; 9DF=9AF+9BC; ; 9BC=7; 9AF=1, 9BC=2, 9DF=3; U+9DF@0, U+9DF@0;
  U+9AF@0 i=1 p=7, U+9BC@0 i=2 p=12 k=7, U+9AF@0 i=1 p=7, U+9BC@0 i=2 p=12 k=7
ka, nukta; level=1; ; 915+93C=5D2; 93C=7; 5D2=1, 915=2, 93C=3; U+915@1, U+93C@0; U+5D2@0 i=1 p=7
rra, nukta; ; 9DC=9A1+9BC; ; 9BC=7; 9A1=1, 9BC=2, 9DC=3; U+9DC@0, U+9BC@0; U+9DC@0 i=3 p=7, U+9BC@0 i=2 p=12 k=7
o, ra; ; 9CB=9C7+9BE; 9C7+9BE=9CB; ; 930=1, 9C7=2, 9CB=3; U+9CB@0, U+930@2; U+9CB@0 i=3 p=10, U+930@2 i=1 p=7
e, rra; ; 9DC=9A1+9BC; ; 9BC=7; 9A1=1, 9BC=2, 9C7=3, 9DC=4; U+9C7@0, U+9DC@2; U+9C7@0 i=3 p=10, U+9DC@2 i=4 p=7
nnna, au length mark, na; ; ; ; ; 929=1; U+929@4, U+BD7@3, U+928@0; U+929@4 i=1 p=7, U+BD7@3 p=10, U+928@0 p=7
nnna, rra; level=1; 931=930+93C; 930+93C=931; 93C=7; 929=1, 931=2, 93C=3; U+929@3, U+931@0;
  U+929@3 i=1 p=7, U+931@0 i=2 p=7
yya, nukta; ; 9DF=9AF+9BC; ; 93C=7, 9BC=7; 93C=1, 9AF=2, 9BC=3, 9DF=4; U+9DF@0, U+93C@0;
  U+9DF@0 i=4 p=7, U+93C@0 i=1 p=12 k=7
ra, 2 nukta; level=1; ; ; 93C=7; 93C=1; U+930@0, U+93C@2, U+93C@4;
  U+930@0 p=7, U+93C@2 i=1 p=12 k=7, U+93C@4 i=1 p=12 k=7
3 nukta; ; ; ; 93C=7; 93C=1; U+93C@0, U+93C@0, U+93C@0; U+93C@0 i=1 p=12 k=7, U+93C@0 i=1 p=12 k=7, U+93C@0 i=1 p=12 k=7
3 nukta; ; ; ; 9BC=7; 9BC=1; U+9BC@0, U+9BC@0, U+9BC@0; U+9BC@0 i=1 p=12 k=7, U+9BC@0 i=1 p=12 k=7, U+9BC@0 i=1 p=12 k=7
au, nukta; ; B94=B92+BD7; B92+BD7=B94; 9BC=7; 9BC=1, B92=2, B94=3, BD7=4; U+B94@0, U+9BC@0;
  U+B94@0 i=3 p=7, U+9BC@0 i=1 p=12 k=7
acute accent, 2 ra; level=1; ; ; 301=230; 301=1, 930=2; U+301@0, U+930@1, U+930@3;
  U+301@0 i=1 p=12 k=230, U+930@1 i=2 p=7, U+930@3 i=2 p=7
acute accent, 2 e; level=1; ; ; 301=230; 301=1, 9C7=2; U+301@0, U+9C7@2, U+9C7@3;
  U+301@0 i=1 p=12 k=230, U+9C7@2 i=2 p=10, U+9C7@3 i=2 p=10
na, 2 nukta; ; ; ; 93C=7, 9BC=7; 928=1, 9BC=2; U+928@0, U+9BC@0, U+93C@0;
  U+928@0 i=1 p=7, U+9BC@0 i=2 p=12 k=7, U+93C@0 p=12 k=7
o, nukta, acute accent; ; ; ; 301=230, 93C=7; 301=1, 93C=2; U+B92@0, U+93C@0, U+301@0;
  U+B92@0 p=7, U+93C@0 i=2 p=12 k=7, U+301@0 i=1 p=12 k=230
ka, acute accent, nukta; ; ; ; 301=230, 93C=7; 915=1, 93C=2; U+915@0, U+301@0, U+93C@0;
  U+915@0 i=1 p=7, U+93C@0 i=2 p=12 k=7, U+301@0 p=12 k=230
na, acute accent, nukta; ; ; ; 301=230, 93C=7; 928=1, 93C=2; U+928@0, U+301@0, U+93C@0;
  U+928@0 i=1 p=7, U+93C@0 i=2 p=12 k=7, U+301@0 p=12 k=230
nukta, 2 acute accent; ; ; ; 301=230, 93C=7; 301=1, 93C=2; U+93C@0, U+301@0, U+301@0;
  U+93C@0 i=2 p=12 k=7, U+301@0 i=1 p=12 k=230, U+301@0 i=1 p=12 k=230
dda, acute accent, nukta; level=1; ; ; 301=230, 9BC=7; 301=1, 9A1=2, 9BC=3; U+9A1@2, U+301@1, U+9BC@0;
  U+9A1@2 i=2 p=7, U+9BC@0 i=3 p=12 k=7, U+301@0 i=1 p=12 k=230
ra, acute accent, nukta; level=1; ; ; 301=230, 93C=7; 301=1, 930=2, 93C=3; U+930@0, U+301@2, U+93C@4;
  U+930@0 i=2 p=7, U+93C@2 i=3 p=12 k=7, U+301@2 i=1 p=12 k=230
na, nukta, acute accent; ; ; ; 301=230, 93C=7; 301=1, 928=2, 93C=3; U+928@0, U+93C@0, U+301@0;
  U+928@0 i=2 p=7, U+93C@0 i=3 p=12 k=7, U+301@0 i=1 p=12 k=230
rha, 2 nukta; ; 9DD=9A2+9BC; ; 9BC=7; 9A2=1, 9BC=2, 9DD=3; U+9DD@0, U+9BC@0, U+9BC@0;
  U+9DD@0 i=3 p=7, U+9BC@0 i=2 p=12 k=7, U+9BC@0 i=2 p=12 k=7
aa, o, aa; ; 9CB=9C7+9BE; 9C7+9BE=9CB; ; 9BE=1, 9C7=2, 9CB=3; U+9BE@4, U+9CB@1, U+9BE@0;
  U+9BE@4 i=1 p=10, U+9C7@1 i=2 p=10, U+9BE@1 i=1 p=10, U+9BE@0 i=1 p=10
rra, dda, rra; level=1; 931=930+93C; 930+93C=931; 93C=7; 930=1, 931=2, 93C=3; U+931@0, U+9A1@3, U+931@6;
  U+931@0 i=2 p=7, U+9A1@3 p=7, U+931@6 i=2 p=7
au, acute accent, grapheme joiner; level=1; B94=B92+BD7; B92+BD7=B94; 301=230; 301=1, B94=2, BD7=3;
  U+B94@3, U+301@2, U+34F@0; U+B94@3 i=2 p=7, U+301@2 i=1 p=12 k=230, U+34F@0 p=108
rha, acute accent, nukta; ; 9DD=9A2+9BC; ; 301=230, 9BC=7; 301=1, 9A2=2, 9BC=3, 9DD=4; U+9DD@0, U+301@0, U+9BC@0;
  U+9DD@0 i=4 p=7, U+9BC@0 i=3 p=12 k=7, U+301@0 i=1 p=12 k=230
na, e, nnna; ; 929=928+93C; 928+93C=929; 93C=7; 928=1, 929=2, 93C=3, 9C7=4; U+928@0, U+9C7@0, U+929@4;
  U+928@0 i=1 p=7, U+9C7@0 i=4 p=10, U+929@4 i=2 p=7
ka, ya, ka, ya; level=1; ; ; ; 915=1, 9AF=2, 9DF=3; U+915@0, U+9AF@3, U+915@4, U+9AF@5;
  U+915@0 i=1 p=7, U+9AF@3 i=2 p=7, U+915@4 i=1 p=7, U+9AF@5 i=2 p=7
nnna, 2 nukta; level=1; 929=928+93C; 928+93C=929, 929+93C=1010; 93C=7; 929=1, 93C=2, 1010=3; U+929@0, U+93C@3, U+93C@5;
  U+1010@0 i=3 p=7, U+93C@5 i=2 p=12 k=7
rha, nukta, ya; level=1; 9DD=9A2+9BC; ; 93C=7, 9BC=7; 93C=1, 9A2=2, 9AF=3, 9BC=4, 9DD=5, 9DF=6;
  U+9DD@0, U+93C@1, U+9AF@2; U+9DD@0 i=5 p=7, U+93C@1 i=1 p=12 k=7, U+9AF@2 i=3 p=7
rra, nukta, grapheme joiner; ; 931=930+93C; 930+93C=931; 93C=7, 9BC=7; 34F=1, 930=2, 931=3, 93C=4, 9BC=5;
  U+931@0, U+9BC@0, U+34F@0; U+931@0 i=3 p=7, U+9BC@0 i=5 p=12 k=7, U+34F@0 i=1 p=108
ra, 3 nukta; level=1; ; ; 93C=7, 9BC=7; 930=1, 93C=2, 9BC=3; U+930@0, U+93C@1, U+9BC@3, U+9BC@5;
  U+930@0 i=1 p=7, U+93C@1 i=2 p=12 k=7, U+9BC@3 i=3 p=12 k=7, U+9BC@5 i=3 p=12 k=7
2 o, nukta; ; 9CB=9C7+9BE; 9C7+9BE=9CB, 9CB+93C=1010; 93C=7; 93C=1, 9BE=2, 9C7=3, 9CB=4, 1010=5;
  U+9CB@0, U+9CB@0, U+93C@0;
  U+9C7@0 i=3 p=10, U+9BE@0 i=2 p=10, U+9C7@0 i=3 p=10, U+9BE@0 i=2 p=10, U+93C@0 i=1 p=12 k=7
na, acute accent, grapheme joiner, ya; ; ; ; 301=230; 301=1, 34F=2, 928=3, 9AF=4, 9DF=5;
  U+928@0, U+301@0, U+34F@0, U+9AF@4; U+928@0 i=3 p=7, U+301@0 i=1 p=12 k=230, U+34F@0 i=2 p=44, U+9AF@4 i=4 p=7
ya, acute accent, 2 nukta; ; ; ; 301=230, 9BC=7; 301=1, 9AF=2, 9BC=3, 9DF=4; U+9AF@0, U+301@0, U+9BC@0, U+9BC@0;
  U+9DF@0 i=4 p=7, U+9BC@0 i=3 p=12 k=7, U+301@0 i=1 p=12 k=230
o, grapheme joiner, o, acute accent; ; ; B92+34F=927; 301=230; 301=1, 34F=2, 927=3, B92=4;
  U+B92@0, U+34F@0, U+B92@2, U+301@2; U+927@0 i=3 p=7, U+B92@2 i=4 p=7, U+301@2 i=1 p=12 k=230
ra, yya, 2 au length mark; ; 9DF=9AF+9BC; ; 9BC=7; 930=1, 9BC=2, 9DF=3, BD7=4; U+930@0, U+9DF@0, U+BD7@0, U+BD7@0;
  U+930@0 i=1 p=7, U+9DF@0 i=3 p=7, U+BD7@0 i=4 p=10, U+BD7@0 i=4 p=10
rra, ya, acute accent; level=1; 931=930+93C; 930+93C=931, 9AF+301=1B1E; 301=230, 93C=7;
  301=1, 931=2, 93C=3, 9AF=4, 9DF=5, 1B1E=6; U+931@0, U+9AF@2, U+301@3; U+931@0 i=2 p=7, U+1B1E@2 i=6 p=7
rha, nukta, 2 acute accent; ; 9DD=9A2+9BC; ; 301=230, 9BC=7; 301=1, 9A2=2, 9BC=3, 9DD=4;
  U+9DD@0, U+9BC@0, U+301@0, U+301@0;
  U+9DD@0 i=4 p=7, U+9BC@0 i=3 p=12 k=7, U+301@0 i=1 p=12 k=230, U+301@0 i=1 p=12 k=230
aa, au, ka, au; ; B94=B92+BD7; B92+BD7=B94; ; 915=1, 9BE=2, B92=3, B94=4, BD7=5; U+9BE@0, U+B94@2, U+915@5, U+B94@7;
  U+9BE@0 i=2 p=10, U+B94@2 i=4 p=7, U+915@5 i=1 p=7, U+B94@7 i=4 p=7
o, e, 2 ka, e; level=1; ; ; ; 915=1, 9C7=2, B92=3; U+B92@0, U+9C7@1, U+915@4, U+915@5, U+9C7@6;
  U+B92@0 i=3 p=7, U+9C7@1 i=2 p=10, U+915@4 i=1 p=7, U+915@5 i=1 p=7, U+9C7@6 i=2 p=10
rra, 2 acute accent, nukta; level=1; 931=930+93C; 930+93C=931; 301=230, 93C=7; 301=1, 930=2, 931=3, 93C=4;
  U+931@0, U+301@2, U+301@3, U+93C@5;
  U+931@0 i=3 p=7, U+93C@2 i=4 p=12 k=7, U+301@2 i=1 p=12 k=230, U+301@2 i=1 p=12 k=230
ra, grapheme joiner, dda, nukta, dda; ; ; ; 93C=7; 34F=1, 930=2, 9A1=3; U+930@9, U+34F@6, U+9A1@3, U+93C@0, U+9A1@0;
  U+930@9 i=2 p=7, U+34F@6 i=1 p=44, U+9A1@3 i=3 p=7, U+93C@0 p=12 k=7, U+9A1@0 i=3 p=7
rra, grapheme joiner, yya, nukta, grapheme joiner; level=1; ; ; 9BC=7; 34F=1, 931=2, 9BC=3;
  U+931@0, U+34F@2, U+9DF@3, U+9BC@5, U+34F@5;
  U+931@0 i=2 p=7, U+34F@2 i=1 p=44, U+9DF@3 p=7, U+9BC@5 i=3 p=12 k=7, U+34F@5 i=1 p=108
acute accent, ka, rra, ra; ; 931=930+93C; 930+93C=931; 301=230, 93C=7; 301=1, 915=2, 930=3, 931=4, 93C=5;
  U+301@0, U+915@2, U+931@3, U+930@4; U+301@0 i=1 p=12 k=230, U+915@2 i=2 p=7, U+931@3 i=4 p=7, U+930@4 i=3 p=7
o, nukta, dda, na, nukta; level=1; ; ; 9BC=7; 928=1, 9A1=2, 9BC=3, B92=4; U+B92@0, U+9BC@1, U+9A1@2, U+928@4, U+9BC@4;
  U+B92@0 i=4 p=7, U+9BC@1 i=3 p=12 k=7, U+9A1@2 i=2 p=7, U+928@4 i=1 p=7, U+9BC@4 i=3 p=12 k=7
nnna, 2 nukta, acute accent; ; 929=928+93C; 928+93C=929; 301=230, 93C=7, 9BC=7; 301=1, 928=2, 929=3, 93C=4, 9BC=5;
  U+929@0, U+93C@0, U+9BC@0, U+301@0;
  U+929@0 i=3 p=7, U+93C@0 i=4 p=12 k=7, U+9BC@0 i=5 p=12 k=7, U+301@0 i=1 p=12 k=230
rha, nukta, acute accent, nukta; ; 9DD=9A2+9BC; 9BC+301=1010, 9DD+9BC=1010; 301=230, 9BC=7;
  301=1, 9A2=2, 9BC=3, 9DD=4, 1010=5; U+9DD@0, U+9BC@0, U+301@0, U+9BC@0;
  U+1010@0 i=5 p=7, U+9BC@0 i=3 p=12 k=7, U+301@0 i=1 p=12 k=230
ra, nnna, rha, aa; level=1; 929=928+93C, 9DD=9A2+9BC; 928+93C=929; 93C=7, 9BC=7;
  928=1, 929=2, 930=3, 93C=4, 9BE=5, 9DD=6; U+930@0, U+929@2, U+9DD@3, U+9BE@4;
  U+930@0 i=3 p=7, U+929@2 i=2 p=7, U+9DD@3 i=6 p=7, U+9BE@4 i=5 p=10
nnna, yya, 2 nukta; level=1; 929=928+93C, 9DF=9AF+9BC; 928+93C=929, 93C+93C=5D2; 93C=7, 9BC=7;
  5D2=1, 929=2, 93C=3, 9AF=4, 9BC=5; U+929@0, U+9DF@1, U+93C@2, U+93C@3;
  U+929@0 i=2 p=7, U+9AF@1 i=4 p=7, U+9BC@1 i=5 p=12 k=7, U+93C@2 i=3 p=12 k=7, U+93C@3 i=3 p=12 k=7
ya, nukta, acute accent, grapheme joiner, ya; level=1; ; 9BC+301=1794; 301=230, 9BC=7;
  301=1, 34F=2, 9AF=3, 9BC=4, 1794=5; U+9AF@0, U+9BC@2, U+301@3, U+34F@3, U+9AF@6;
  U+9AF@0 i=3 p=7, U+9BC@2 i=4 p=12 k=7, U+301@3 i=1 p=12 k=230, U+34F@3 i=2 p=44, U+9AF@6 i=3 p=7
rha, nukta, 2 acute accent; ; 9DD=9A2+9BC; 93C+301=927, 9DD+93C=1010; 301=230, 93C=7, 9BC=7;
  301=1, 927=2, 93C=3, 9A2=4, 9BC=5, 9DD=6, 1010=7; U+9DD@0, U+93C@0, U+301@0, U+301@0;
  U+1010@0 i=7 p=7, U+301@0 i=1 p=12 k=230, U+301@0 i=1 p=12 k=230
rra, acute accent, ka, 2 nukta; ; 9DC=9A1+9BC; ; 301=230, 93C=7, 9BC=7; 301=1, 915=2, 93C=3, 9A1=4, 9BC=5, 9DC=6;
  U+9DC@0, U+301@0, U+915@3, U+9BC@3, U+93C@3;
  U+9DC@0 i=6 p=7, U+301@0 i=1 p=12 k=230, U+915@3 i=2 p=7, U+9BC@3 i=5 p=12 k=7, U+93C@3 i=3 p=12 k=7
nnna, nukta, grapheme joiner, ya, grapheme joiner; ; 929=928+93C; 928+93C=929, 9AF+34F=927; 93C=7;
  34F=1, 927=2, 928=3, 929=4, 93C=5, 9AF=6; U+929@0, U+93C@0, U+34F@0, U+9AF@7, U+34F@7;
  U+929@0 i=4 p=7, U+93C@0 i=5 p=12 k=7, U+34F@0 i=1 p=44, U+927@7 i=2 p=7
rra, o, acute accent, rra, au length mark; level=1; 931=930+93C, 9DC=9A1+9BC; ; 301=230, 93C=7, 9BC=7;
  301=1, 930=2, 931=3, 9A1=4, 9BC=5, 9DC=6, B92=7; U+9DC@0, U+B92@0, U+301@1, U+931@2, U+BD7@3;
  U+9DC@0 i=6 p=7, U+B92@0 i=7 p=7, U+301@1 i=1 p=12 k=230, U+931@2 i=3 p=7, U+BD7@3 p=10
rra, acute accent, o, e, ka; ; 9CB=9C7+9BE, 9DC=9A1+9BC; 9C7+9BE=9CB; 301=230, 9BC=7;
  301=1, 915=2, 9A1=3, 9BE=4, 9C7=5, 9CB=6, 9DC=7; U+9DC@7, U+301@4, U+9CB@2, U+9C7@1, U+915@0;
  U+9DC@7 i=7 p=7, U+301@4 i=1 p=12 k=230, U+9C7@2 i=5 p=10, U+9BE@2 i=4 p=10, U+9C7@1 i=5 p=10, U+915@0 i=2 p=7
o, nukta, ka, ya, o, 2 ya; ; ; ; 9BC=7; 915=1, 9AF=2, 9BC=3;
  U+B92@3, U+9BC@2, U+915@1, U+9AF@0, U+B92@0, U+9AF@0, U+9AF@0;
  U+B92@3 p=7, U+9BC@2 i=3 p=12 k=7, U+915@1 i=1 p=7, U+9AF@0 i=2 p=7, U+B92@0 p=7, U+9AF@0 i=2 p=7, U+9AF@0 i=2 p=7
yya, au length mark, aa, yya, aa; level=1; 9DF=9AF+9BC; 9DF+9BE=1794, 9DF+BD7=1010, BD7+9BE=1B1E; 9BC=7;
  9AF=1, 9BC=2, 9BE=3, 9DF=4, BD7=5, 1010=6, 1794=7, 1B1E=8; U+9DF@10, U+BD7@7, U+9BE@4, U+9DF@3, U+9BE@0;
  U+1010@7 i=6 p=7, U+9BE@4 i=3 p=10, U+1794@0 i=7 p=7
ka, nukta, 3 ka, 2 nukta; ; ; 915+93C=927; 93C=7; 915=1, 927=2, 93C=3;
  U+915@0, U+93C@0, U+915@3, U+915@4, U+915@4, U+93C@4, U+93C@4;
  U+927@0 i=2 p=7, U+915@3 i=1 p=7, U+915@4 i=1 p=7, U+927@4 i=2 p=7, U+93C@4 i=3 p=12 k=7
2 rra, 2 nnna, rra; ; 929=928+93C, 931=930+93C, 9DC=9A1+9BC; 928+93C=929, 930+93C=931; 93C=7, 9BC=7;
  928=1, 929=2, 930=3, 931=4, 93C=5, 9A1=6, 9BC=7, 9DC=8; U+9DC@0, U+9DC@2, U+929@4, U+929@6, U+931@6;
  U+9DC@0 i=8 p=7, U+9DC@2 i=8 p=7, U+928@4 i=1 p=7, U+93C@4 i=5 p=12 k=7, U+928@6 i=1 p=7, U+93C@6 i=5 p=12 k=7,
  U+931@6 i=4 p=7
rra, 2 nukta, yya, acute accent, nukta; ; 9DC=9A1+9BC, 9DF=9AF+9BC; ; 301=230, 93C=7, 9BC=7;
  301=1, 93C=2, 9A1=3, 9AF=4, 9BC=5, 9DC=6, 9DF=7; U+9DC@0, U+9BC@0, U+9BC@0, U+9DF@3, U+301@3, U+93C@3;
  U+9DC@0 i=6 p=7, U+9BC@0 i=5 p=12 k=7, U+9BC@0 i=5 p=12 k=7, U+9DF@3 i=7 p=7, U+93C@3 i=2 p=12 k=7,
  U+301@3 i=1 p=12 k=230
2 acute accent, 2 aa, ka, acute accent, aa; ; ; 301+301=5D2, 301+9BE=927; 301=230; 301=1, 5D2=2, 927=3, 9BE=4;
  U+301@0, U+301@0, U+9BE@0, U+9BE@0, U+915@6, U+301@6, U+9BE@6;
  U+301@0 i=1 p=12 k=230, U+301@0 i=1 p=12 k=230, U+9BE@0 i=4 p=10, U+9BE@0 i=4 p=10, U+915@6 p=7,
  U+301@6 i=1 p=12 k=230, U+9BE@6 i=4 p=10"#;
