//! Writes a lookup.
ghost use Rattle.std.specs.Prelude.{◌≡◌, ◌++◌, OnOk};
ghost use Rattle.shell_print_json.specs.Tokens.{value_tokens};
ghost use Rattle.shell_face_print.specs.Lookups.{lookup_json};

use crate::objects::write_object_last3;
use crate::value::{Named, ToJson};
use shell_print_json::JsonText;
use std::alloc::AllocError;

/// Appends a lookup: the name of its type, its flag, its subtables and its mark glyph set.
pub(crate) fn write_lookup<S: ToJson>(
    type_name: &str,
    flags: u16,
    subtables: &S,
    set: Option<u16>,
    text: &mut JsonText,
) -> Result<(), AllocError>
    ensures { OnOk result (text.new ≡ text.old
        ++ value_tokens (lookup_json type_name.now flags (S.json subtables.now) set)) }
{
    write_object_last3(
        ("type", &Named { text: type_name }),
        ("flags", &flags),
        ("subtables", subtables),
        ("set", &set),
        text,
    )
}
