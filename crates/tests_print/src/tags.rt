//! Tags that are no printable characters of ASCII, which no text of JSON can name.
use buffer_common::tag::Tag;
use buffer_rows::{PagedRows, SortedRows};
use layout_common::array::Array;
use layout_common::class_definition::ClassDefinition;
use layout_face::Face;
use layout_face::parts::{FaceParts, GlyphDefinition};
use layout_face::substitution::SubstitutionTable;
use layout_tables::is_rising;
use layout_tables::script::{LangSys, LangSysRecord, ScriptRecord};
use layout_tables::table::{FeatureRecord, ScriptsAndFeatures};
use shell_face_print::print_face;
use std::alloc::{AllocError, Global};
use std::test::Fail;

/// What is printed of a font with the scripts `ABC` and U+0000, and `latn`, whose language systems are U+0000 to U+0003
/// and `TRK `, and with a feature `li` and the bytes 7F and FF.
static PRINTED: &str = concat!(
    r#"{"format":"kuspveli-font","upem":1,"ascender":0,"cmap":[],"variants":[],"h":[],"v":[],"origins":[],"extents":[],"#,
    r#""names":[],"gdef":{"attach":[],"sets":[]},"gsub":{"scripts":[["latn",null,[["TRK ",{"features":[]}]]]],"#,
    r#""features":[["li??",[]]],"lookups":[]}}"#
);

/// Language systems without features.
fn systems(alloc: Global, tags: &[u32]) -> Result<Vec<LangSysRecord>, AllocError> {
    let mut systems = Vec::new(alloc);
    for tag in tags {
        let system = LangSys::new(None, Vec::new(alloc));
        systems.push(LangSysRecord::new(Tag(*tag), system))?;
    }
    Ok(systems)
}

/// A script of language systems whose tags rise.
fn script(alloc: Global, tag: u32, tags: &[u32]) -> Result<Option<ScriptRecord>, AllocError> {
    let systems = systems(alloc, tags)?;
    if is_rising(&systems) {
        return Ok(Some(ScriptRecord::new(Tag(tag), None, systems)));
    }
    Ok(None)
}

/// The scripts of the font, those of them that rise by themselves.
fn scripts(alloc: Global) -> Result<Vec<ScriptRecord>, AllocError> {
    let mut scripts = Vec::new(alloc);
    if let Some(script) = script(alloc, 0x41424300, &[])? {
        scripts.push(script)?;
    }
    if let Some(script) = script(alloc, 0x6C61746E, &[0x00010203, 0x54524B20])? {
        scripts.push(script)?;
    }
    Ok(scripts)
}

/// GSUB of the scripts and a feature, none where the scripts don't rise.
fn table(alloc: Global) -> Result<Option<SubstitutionTable>, AllocError> {
    let mut features = Vec::new(alloc);
    features.push(FeatureRecord::new(Tag(0x6C697FFF), Vec::new(alloc)))?;
    let scripts = scripts(alloc)?;
    if !is_rising(&scripts) {
        return Ok(None);
    }
    let inner = ScriptsAndFeatures::new(scripts, features);
    Ok(Some(SubstitutionTable::new(inner, Array::new(Vec::new(alloc)))))
}

/// A font with a GSUB and nothing else.
fn parts(alloc: Global, gsub: Option<SubstitutionTable>) -> Result<FaceParts, AllocError> {
    let cmap = PagedRows::new(alloc, Vec::new(alloc))?;
    Ok(FaceParts {
        upem: 1,
        ascender: 0,
        cmap,
        variants: SortedRows::new(Vec::new(alloc)),
        h: SortedRows::new(Vec::new(alloc)),
        v: SortedRows::new(Vec::new(alloc)),
        origins: SortedRows::new(Vec::new(alloc)),
        extents: SortedRows::new(Vec::new(alloc)),
        names: SortedRows::new(Vec::new(alloc)),
        gdef: GlyphDefinition {
            classes: None,
            attach: ClassDefinition::empty(alloc),
            sets: Array::new(Vec::new(alloc)),
        },
        gsub,
        gpos: None,
    })
}

/// The printed text of the font, none where an index of it doesn't fit.
fn printed(alloc: Global) -> Result<Vec<u8>, AllocError> {
    let gsub = table(alloc)?;
    let parts = parts(alloc, gsub)?;
    if !parts.indices_fit() {
        return Ok(Vec::new(alloc));
    }
    print_face(alloc, &Face::new(parts))
}

#[test]
fn unprintable_tags_are_left_out_or_marked(rt: HostRuntime) -> Result<(), Fail> {
    let printed = printed(rt.alloc())?;
    assert_eq!(rt; str::from_utf8(&printed), Ok(PRINTED));
    Ok(())
}
