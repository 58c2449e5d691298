//! The font of a stream, from JSON or from a font file's bytes.

use base64::DecodeAllocError;
use base64::engine::general_purpose::STANDARD;
use font_file::{FontFault, FontParts, read_font as read_font_file};
use layout_face::Face;
use layout_face::substitution::{SubstLookup, SubstitutionSubtables};
use shell_readers::fault::RunFault;
use shell_readers::input::read_font;
use std::alloc::Global;

/// A font, and what is known of its glyphs.
#[derive(Drop)]
pub(crate) struct Font {
    pub(crate) face: Face,
    /// Glyph numbers are below it.
    pub(crate) count: u32,
    /// Whether the font may make ligatures.
    pub(crate) has_ligatures: bool,
}

impl Font {
    fn new(face: Face, count: u32) -> Font {
        let has_ligatures = has_ligatures(&face);
        Font {
            face,
            count,
            has_ligatures,
        }
    }
}

/// Whether GSUB has a lookup of ligatures.
fn has_ligatures(face: &Face) -> bool {
    match face.gsub() {
        Some(gsub) => gsub.lookups.as_slice().iter().any(is_of_ligatures),
        None => false,
    }
}

fn is_of_ligatures(lookup: &SubstLookup) -> bool {
    matches!(lookup.subtables.inner(), SubstitutionSubtables::Ligature(_))
}

/// The number before the first space, and what follows it.
fn number_before(line: &str) -> Result<(u32, &str), RunFault> {
    let Some((number, rest)) = line.split_once(' ') else {
        return Err(RunFault::Words);
    };
    match number.parse() {
        Ok(number) => Ok((number, rest)),
        Err(_) => Err(RunFault::Words),
    }
}

/// The font of a line: its number of glyphs, and FONT.
pub(crate) fn font_of_json(alloc: Global, line: &str) -> Result<Box<Font>, RunFault> {
    let (count, json) = number_before(line)?;
    let face = read_font(alloc, json.as_bytes())?;
    boxed(alloc, face, count)
}

fn boxed(alloc: Global, face: Face, count: u32) -> Result<Box<Font>, RunFault> {
    Ok(Box::new(alloc, Font::new(face, count))?)
}

/// The font of a line: a number above its glyphs, its index in the font file, and the file's bytes in base64; or why it
/// isn't read.
pub(crate) fn font_of_bytes(
    alloc: Global,
    line: &str,
) -> Result<Result<Box<Font>, FontFault>, RunFault> {
    let (count, rest) = number_before(line)?;
    let (index, text) = number_before(rest)?;
    let bytes = decoded(alloc, text)?;
    font_of_file(alloc, &bytes, index, count)
}

fn font_of_file(
    alloc: Global,
    bytes: &[u8],
    index: u32,
    count: u32,
) -> Result<Result<Box<Font>, FontFault>, RunFault> {
    match read_font_file(alloc, bytes, index as usize, FontParts::all()) {
        Ok(face) => Ok(Ok(boxed(alloc, face, count)?)),
        Err(fault) => Ok(Err(fault)),
    }
}

fn decoded(alloc: Global, text: &str) -> Result<Vec<u8>, RunFault> {
    match STANDARD.decode(alloc, text.as_bytes()) {
        Ok(bytes) => Ok(bytes),
        Err(DecodeAllocError::OutOfMemory) => Err(RunFault::OutOfMemory),
        Err(DecodeAllocError::DecodeError(_)) => Err(RunFault::Words),
    }
}
