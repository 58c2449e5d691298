//! The keys of a font.
ghost use Rattle.std.specs.Prelude.{◌≡◌, codes};
ghost use Rattle.shell_face_json.specs.Glyphs.{glyph_limit};

use crate::glyphs::GLYPH_LIMIT;
use crate::lookups::Lookup;
use crate::text::definition::DefinitionTaker;
use crate::text::rows::RowTaker;
use crate::text::table::TableTaker;
use crate::value::FromJson;
use buffer_glyphs::names::hb_glyph_extents_t;
use buffer_rows::Keyed;
use layout_common::glyph_row::GlyphRow;
use layout_face::parts::{CharacterRow, NameRow, VariationRow};
use layout_face::positioning::PositioningLookup;
use layout_face::substitution::SubstLookup;
use shell_json::key_takers::{Key, Whole};

/// A limit that no index of a mark glyph set reaches.
const ANY_SET: usize = 0x1_0000;

type TwoKeys<A, B> = (Key<RowTaker<A>>, Key<RowTaker<B>>);

type MetricKeys = (Key<Whole>, Key<Whole>);

type CharacterKeys = TwoKeys<CharacterRow, VariationRow>;

type AdvanceKeys = TwoKeys<GlyphRow<u16>, GlyphRow<u16>>;

type DrawingKeys = (
    TwoKeys<GlyphRow<i16>, GlyphRow<hb_glyph_extents_t>>,
    Key<RowTaker<NameRow>>,
);

type TableKeys = (
    Key<TableTaker<SubstLookup>>,
    Key<TableTaker<PositioningLookup>>,
);

/// The keys of a font.
pub type FontKeys = (
    (MetricKeys, CharacterKeys),
    (
        AdvanceKeys,
        (DrawingKeys, (Key<DefinitionTaker>, TableKeys)),
    ),
);

/// The keys of a font. Lookups are read with any index of a mark glyph set, since `gdef` may follow them.
pub fn font_keys() -> FontKeys
    ensures metrics { (result.0.0.0.name.now ≡ codes "upem") × (result.0.0.1.name.now ≡ codes "ascender") }
    ensures characters { (result.0.1.0.name.now ≡ codes "cmap") × (result.0.1.1.name.now ≡ codes "variants")
        × (result.0.1.0.taker.limit ≡ glyph_limit) × (result.0.1.1.taker.limit ≡ glyph_limit) }
    ensures advances { (result.1.0.0.name.now ≡ codes "h") × (result.1.0.1.name.now ≡ codes "v")
        × (result.1.0.0.taker.limit ≡ glyph_limit) × (result.1.0.1.taker.limit ≡ glyph_limit) }
    ensures drawing { (result.1.1.0.0.0.name.now ≡ codes "origins") × (result.1.1.0.0.1.name.now ≡ codes "extents")
        × (result.1.1.0.0.0.taker.limit ≡ glyph_limit) × (result.1.1.0.0.1.taker.limit ≡ glyph_limit) }
    ensures names { (result.1.1.0.1.name.now ≡ codes "names") × (result.1.1.0.1.taker.limit ≡ glyph_limit) }
    ensures definitions { result.1.1.1.0.name.now ≡ codes "gdef" }
    ensures tables { (result.1.1.1.1.0.name.now ≡ codes "gsub") × (result.1.1.1.1.1.name.now ≡ codes "gpos") }
{
    let metrics = (whole("upem"), whole("ascender"));
    let characters = (rows_key("cmap"), rows_key("variants"));
    let advances = (rows_key("h"), rows_key("v"));
    let drawing = (
        (rows_key("origins"), rows_key("extents")),
        rows_key("names"),
    );
    let definitions = Key {
        name: "gdef",
        taker: DefinitionTaker,
    };
    let layouts = (definitions, (table_key("gsub"), table_key("gpos")));
    ((metrics, characters), (advances, (drawing, layouts)))
}

fn whole(name: &'static str) -> Key<Whole>
    ensures { result.name.now ≡ name.now }
{
    Key { name, taker: Whole }
}

fn rows_key<R: FromJson + Keyed>(name: &'static str) -> Key<RowTaker<R>>
    ensures { (result.name.now ≡ name.now) × (result.taker.limit ≡ glyph_limit) }
{
    Key {
        name,
        taker: RowTaker::new(GLYPH_LIMIT),
    }
}

fn table_key<L: Lookup>(name: &'static str) -> Key<TableTaker<L>>
    ensures { result.name.now ≡ name.now }
{
    Key {
        name,
        taker: TableTaker::new(ANY_SET),
    }
}
