//! Prints a font as JSON.
ghost use Rattle.std.specs.Prelude.{◌≡◌, ◌++◌, IfOk, OnOk};
ghost use Rattle.shell_print_json.specs.Tokens.{members_tokens, value_tokens};
ghost use Rattle.shell_face_print.specs.Face.{advance_members, character_members, drawing_members, font_json, font_text, layout_members};

use crate::objects::{write_last, write_member, write_optional, write_text};
use layout_face::{Face, FaceParts};
use shell_print_json::JsonText;
use std::alloc::{AllocError, Global};

/// Appends the keys from `gdef` on, and ends the object.
#[tactic(auto, using(crate::proofs::Appending::member_and_optional))]
fn write_layouts(font: &FaceParts, text: &mut JsonText) -> Result<(), AllocError>
    ensures { OnOk result (text.new ≡ text.old ++ members_tokens (layout_members font.now)) }
{
    write_member("gdef", &font.gdef, text)?;
    write_optional("gsub", &font.gsub, text)?;
    write_last("gpos", &font.gpos, text)
}

/// Appends the keys from `origins` on, and ends the object.
#[tactic(auto, using(crate::proofs::Appending::member_four))]
fn write_drawing(font: &FaceParts, text: &mut JsonText) -> Result<(), AllocError>
    ensures { OnOk result (text.new ≡ text.old ++ members_tokens (drawing_members font.now)) }
{
    write_member("origins", &font.origins, text)?;
    write_member("extents", &font.extents, text)?;
    write_member("names", &font.names, text)?;
    write_layouts(font, text)
}

/// Appends the keys from `h` on, and ends the object.
#[tactic(auto, using(crate::proofs::Appending::member_three))]
fn write_advances(font: &FaceParts, text: &mut JsonText) -> Result<(), AllocError>
    ensures { OnOk result (text.new ≡ text.old ++ members_tokens (advance_members font.now)) }
{
    write_member("h", &font.h, text)?;
    write_member("v", &font.v, text)?;
    write_drawing(font, text)
}

/// Appends the keys from `cmap` on, and ends the object.
#[tactic(auto, using(crate::proofs::Appending::member_three))]
fn write_characters(font: &FaceParts, text: &mut JsonText) -> Result<(), AllocError>
    ensures { OnOk result (text.new ≡ text.old ++ members_tokens (character_members font.now)) }
{
    write_member("cmap", &font.cmap, text)?;
    write_member("variants", &font.variants, text)?;
    write_advances(font, text)
}

/// Appends a font.
#[tactic(auto, using(crate::proofs::Appending::object_four))]
fn write_font(font: &FaceParts, text: &mut JsonText) -> Result<(), AllocError>
    ensures { OnOk result (text.new ≡ text.old ++ value_tokens (font_json font.now)) }
{
    text.begin_object()?;
    write_text("format", "kuspveli-font", text)?;
    write_member("upem", &font.upem, text)?;
    write_member("ascender", &font.ascender, text)?;
    write_characters(font, text)?;
    // A plain return, whose goal has an answer.
    Ok(())
}

/// The JSON text of a font: an object with the key `format`, whose value is `kuspveli-font`, and with each key that the
/// reader of fonts knows (`shell_face_json`), without spaces. Reading it gives the font again, but for tags that are no
/// printable characters of ASCII, which a text of JSON can't name: a script or a language system with such a tag is left
/// out, and in a feature's tag each such byte is a question mark.
///
/// The only error is want of memory for the text.
#[tactic(auto, using(crate::proofs::Texts::text_of_value))]
pub fn print_face(alloc: Global, face: &Face) -> Result<Vec<u8>, AllocError>
    ensures { IfOk result (λ text. text.items ≡ font_text face.now) }
{
    let mut text = JsonText::new(alloc);
    write_font(face.parts(), &mut text)?;
    Ok(text.into_bytes())
}
