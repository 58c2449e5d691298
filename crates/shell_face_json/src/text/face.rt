//! Reads a font from a JSON text.
ghost use Rattle.std.specs.Prelude.{◌≡◌, ◌≢◌, IfOk, IfErr, Ok, Err, Some};
ghost use Rattle.serde_json.specs.Data.{Data};
ghost use Rattle.serde_json.specs.Read.{read};
ghost use Rattle.shell_face_json.specs.Lists.{is_object};
ghost use Rattle.shell_face_json.specs.Face.{face_keys};
ghost use Rattle.shell_face_json.specs.Text.Face.{face_in};

use crate::face::face_parts;
use crate::read_face;
use crate::text::found::groups_of;
use crate::text::keys::{FontKeys, font_keys};
use json::Scratch;
use layout_face::Face;
use layout_face::parts::FaceParts;
use serde_json::Value;
use shell_json::fault::JsonFault;
use shell_json::members::{MemberTaker, take_text};
use shell_json::unread::Unread;
use std::alloc::Global;

/// Reads a font from a text. A text that is no JSON is the first fault; the others are ordered as in `read_face`. A
/// font without a fault is read value by value: beside the font, and some two bytes for each byte of text, only a
/// lookup, a row of another list or the value of an unknown key is held in memory. For a font with a fault its whole
/// JSON value is.
pub fn read_face_text(alloc: Global, text: &str) -> Result<Face, JsonFault>
    ensures ok { IfOk result (λ f. face_in text.now ≡ Ok f) }
    ensures refused { IfErr result (λ e. e ≢ JsonFault.OutOfMemory → face_in text.now ≡ Err e) }
{
    match read_by_keys(alloc, text) {
        Ok(face) => Ok(face),
        Err(_) => read_whole(alloc, text),
    }
}

fn read_whole(alloc: Global, text: &str) -> Result<Face, JsonFault>
    ensures ok { IfOk result (λ f. face_in text.now ≡ Ok f) }
    ensures refused { IfErr result (λ e. e ≢ JsonFault.OutOfMemory → face_in text.now ≡ Err e) }
{
    match Value::from_str(alloc, text) {
        Ok(value) => read_face(alloc, &value),
        Err(error) if error.is_memory() => Err(JsonFault::OutOfMemory),
        Err(_) => Err(JsonFault::NotJson),
    }
}

/// Reads a font from a text value by value, in one walk. An error doesn't say which: the text has a fault, or a number
/// that is no integer of 64 bits, or memory was lacking.
pub fn read_by_keys(alloc: Global, text: &str) -> Result<Face, Unread>
    ensures { IfOk result (λ f. face_in text.now ≡ Ok f) }
{
    Ok(Face::new(take_parts(alloc, text)?))
}

fn take_parts(alloc: Global, text: &str) -> Result<FaceParts, Unread>
    ensures { IfOk result (λ p. (d : Data) × (read text.now ≡ Some d) × (is_object d ≡ Ok tt)
        × (face_keys d ≡ Ok p)) }
{
    let mut scratch = Scratch::new(alloc);
    let mut found: <FontKeys as MemberTaker>::Found = (
        ((None, None), (None, None)),
        ((None, None), (((None, None), None), (None, (None, None)))),
    );
    take_text(alloc, text, &mut scratch, &font_keys(), &mut found)?;
    let groups = groups_of(alloc, found)?;
    let (metrics, characters, advances, drawing, layouts) = groups;
    Ok(face_parts(metrics, characters, advances, drawing, layouts))
}
