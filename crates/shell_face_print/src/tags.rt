//! Tags as texts.
ghost use Rattle.std.specs.Prelude.{◌≡◌};
ghost use Rattle.shell_json.specs.Items.{is_printable};
ghost use Rattle.shell_face_print.specs.Tags.{is_printable_tag, printable_byte, tag_json, tag_text};

use crate::value::ToJson;
use buffer_common::tag::Tag;
use shell_print_json::JsonText;
use std::alloc::AllocError;

fn is_printable(byte: u8) -> bool
    ensures { result ≡ is_printable byte }
{
    (0x20..=0x7E).contains(&byte)
}

/// Whether the four bytes of a tag are printable characters of ASCII.
pub(crate) fn is_printable_tag(tag: Tag) -> bool
    ensures { result ≡ is_printable_tag tag }
{
    tag.to_bytes().iter().all(|byte| is_printable(*byte))
}

fn printable_byte(byte: u8) -> u8
    ensures { result ≡ printable_byte byte }
{
    if is_printable(byte) { byte } else { b'?' }
}

/// The bytes of a tag, with a question mark for each that is not printable.
fn tag_text(tag: Tag) -> [u8; 4]
    ensures { result ≡ tag_text tag }
{
    let [first, second, third, fourth] = tag.to_bytes();
    [
        printable_byte(first),
        printable_byte(second),
        printable_byte(third),
        printable_byte(fourth),
    ]
}

impl ToJson for Tag {
    ghost json = { tag_json };

    #[tactic(auto, using(crate::proofs::Printable::tag_text_is_text))]
    fn write(&self, text: &mut JsonText) -> Result<(), AllocError> {
        let bytes = tag_text(*self);
        match str::from_utf8(&bytes) {
            Ok(name) => text.string(name),
            // Printable characters are a text.
            Err(_) => Ok(()),
        }
    }
}
