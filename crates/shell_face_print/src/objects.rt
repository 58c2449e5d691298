//! Objects of a fixed number of keys.
ghost use Rattle.std.specs.Prelude.{◌≡◌, ◌++◌, OnOk, option_map};
ghost use Rattle.serde_json.specs.Data.{member, no_members, object, string};
ghost use Rattle.shell_print_json.specs.Tokens.{member_tokens, members_tokens, optional_tokens, value_tokens};
ghost use Rattle.shell_print_json.specs.Values.{member_if};

use crate::value::ToJson;
use shell_print_json::JsonText;
use std::alloc::AllocError;

/// Appends a key and its value.
#[tactic(auto, using(crate::proofs::Appending::key_value))]
pub(crate) fn write_member<P: ToJson>(
    name: &str,
    value: &P,
    text: &mut JsonText,
) -> Result<(), AllocError>
    ensures { OnOk result (text.new ≡ text.old ++ member_tokens name.now (P.json value.now)) }
{
    text.key(name)?;
    value.write(text)
}

/// Appends a key whose value is a text.
#[tactic(auto, using(crate::proofs::Appending::key_value))]
pub(crate) fn write_text(name: &str, value: &str, text: &mut JsonText) -> Result<(), AllocError>
    ensures { OnOk result (text.new ≡ text.old ++ member_tokens name.now (string value.now)) }
{
    text.key(name)?;
    text.string(value)
}

/// Appends a key and its value, nothing where it has none.
pub(crate) fn write_optional<P: ToJson>(
    name: &str,
    value: &Option<P>,
    text: &mut JsonText,
) -> Result<(), AllocError>
    ensures { OnOk result (text.new ≡ text.old ++ optional_tokens name.now (option_map P.json value.now)) }
{
    match value {
        Some(value) => write_member(name, value, text),
        None => Ok(()),
    }
}

/// Appends a key and its value, nothing where it has none, and ends the object.
#[tactic(auto, using(crate::proofs::Appending::last_member))]
pub(crate) fn write_last<P: ToJson>(
    name: &str,
    value: &Option<P>,
    text: &mut JsonText,
) -> Result<(), AllocError>
    ensures { OnOk result (text.new ≡ text.old
        ++ members_tokens (member_if name.now (option_map P.json value.now) no_members)) }
{
    write_optional(name, value, text)?;
    text.end_object()
}

/// Appends an object of two keys.
#[tactic(auto, using(crate::proofs::Appending::object_three))]
pub(crate) fn write_object2<A: ToJson, B: ToJson>(
    first: (&str, &A),
    second: (&str, &B),
    text: &mut JsonText,
) -> Result<(), AllocError>
    ensures { OnOk result (text.new ≡ text.old ++ value_tokens (object (member first.entry.0.now (A.json first.entry.1.now)
        (member second.entry.0.now (B.json second.entry.1.now) no_members)))) }
{
    text.begin_object()?;
    write_member(first.0, first.1, text)?;
    write_member(second.0, second.1, text)?;
    text.end_object()
}

/// Appends an object of three keys.
#[tactic(auto, using(crate::proofs::Appending::object_four))]
pub(crate) fn write_object3<A: ToJson, B: ToJson, C: ToJson>(
    first: (&str, &A),
    second: (&str, &B),
    third: (&str, &C),
    text: &mut JsonText,
) -> Result<(), AllocError>
    ensures { OnOk result (text.new ≡ text.old ++ value_tokens (object (member first.entry.0.now (A.json first.entry.1.now)
        (member second.entry.0.now (B.json second.entry.1.now)
        (member third.entry.0.now (C.json third.entry.1.now) no_members))))) }
{
    text.begin_object()?;
    write_member(first.0, first.1, text)?;
    write_member(second.0, second.1, text)?;
    write_member(third.0, third.1, text)?;
    text.end_object()
}

/// Appends an object of four keys.
#[tactic(auto, using(crate::proofs::Appending::object_five))]
pub(crate) fn write_object4<A: ToJson, B: ToJson, C: ToJson, D: ToJson>(
    first: (&str, &A),
    second: (&str, &B),
    third: (&str, &C),
    fourth: (&str, &D),
    text: &mut JsonText,
) -> Result<(), AllocError>
    ensures { OnOk result (text.new ≡ text.old ++ value_tokens (object (member first.entry.0.now (A.json first.entry.1.now)
        (member second.entry.0.now (B.json second.entry.1.now)
        (member third.entry.0.now (C.json third.entry.1.now)
        (member fourth.entry.0.now (D.json fourth.entry.1.now) no_members)))))) }
{
    text.begin_object()?;
    write_member(first.0, first.1, text)?;
    write_member(second.0, second.1, text)?;
    write_member(third.0, third.1, text)?;
    write_member(fourth.0, fourth.1, text)?;
    text.end_object()
}

/// Appends an object of a key, and of one that may have no value.
#[tactic(auto, using(crate::proofs::Appending::object_two))]
pub(crate) fn write_object_last1<A: ToJson, B: ToJson>(
    first: (&str, &A),
    last: (&str, &Option<B>),
    text: &mut JsonText,
) -> Result<(), AllocError>
    ensures { OnOk result (text.new ≡ text.old ++ value_tokens (object (member first.entry.0.now (A.json first.entry.1.now)
        (member_if last.entry.0.now (option_map B.json last.entry.1.now) no_members)))) }
{
    text.begin_object()?;
    write_member(first.0, first.1, text)?;
    write_last(last.0, last.1, text)
}

/// Appends an object of three keys, and of one that may have no value.
#[tactic(auto, using(crate::proofs::Appending::object_four))]
pub(crate) fn write_object_last3<A: ToJson, B: ToJson, C: ToJson, D: ToJson>(
    first: (&str, &A),
    second: (&str, &B),
    third: (&str, &C),
    last: (&str, &Option<D>),
    text: &mut JsonText,
) -> Result<(), AllocError>
    ensures { OnOk result (text.new ≡ text.old ++ value_tokens (object (member first.entry.0.now (A.json first.entry.1.now)
        (member second.entry.0.now (B.json second.entry.1.now)
        (member third.entry.0.now (C.json third.entry.1.now)
        (member_if last.entry.0.now (option_map D.json last.entry.1.now) no_members)))))) }
{
    text.begin_object()?;
    write_member(first.0, first.1, text)?;
    write_member(second.0, second.1, text)?;
    write_member(third.0, third.1, text)?;
    write_last(last.0, last.1, text)
}
