//! Reads the members of an object one after another.
ghost use Rattle.std.specs.Prelude.{◌≡◌, ◌<◌, length, false, Some, OnOk};
ghost use Rattle.json.specs.Json.{value, members};
ghost use Rattle.serde_json.specs.Data.{Data, Members, no_members, object, put};
ghost use Rattle.serde_json.specs.Read.{of_members, converted, read};
ghost use Rattle.shell_json.specs.TextValues.{BeginsWith};

use crate::unread::Unread;
use crate::value::read_value;
use json::{Reader, Scratch, Token};
use std::alloc::Global;

/// The greatest depth of nested arrays and objects, as in `serde_json`.
pub(crate) const MAX_DEPTH: usize = 127;

/// The reader of an object's members.
pub trait MemberTaker: Drop {
    /// What is found of them.
    type Found: Drop;

    /// The relation between the members read so far and what is found.
    ghost holds: { Self → Members → Self.Found → Type 0 };

    /// Whether the member of a name is read.
    fn wants(&self, name: &str) -> bool
        ensures { result ≡ false → (d : Data) → (ms : Members) → (found : Self.Found)
            → holds self.now ms found → holds self.now (put name.now d ms) found };

    /// Reads the value of a member.
    fn take(
        &self,
        alloc: Global,
        name: &str,
        reader: &mut Reader<'_>,
        depth: usize,
        found: &mut Self::Found,
    ) -> Result<(), Unread>
        ensures ok { OnOk result ((d : Data) × BeginsWith depth reader.old d reader.new
            × ((ms : Members) → holds self.now ms found.old → holds self.now (put name.now d ms) found.new)) }
        ensures shorter { OnOk result (length reader.new < length reader.old) };
}

/// Reads the members of the object that a text is, in one walk: numbers that are no integers of 64 bits are refused,
/// also where no member that is read has them.
pub fn take_text<T: MemberTaker>(
    alloc: Global,
    text: &str,
    scratch: &mut Scratch,
    taker: &T,
    found: &mut T::Found,
) -> Result<(), Unread>
    ensures ok { OnOk result (T.holds taker.now no_members found.old
        → (ms : Members) × (read text.now ≡ Some (object ms)) × T.holds taker.now ms found.new) }
{
    let mut reader = Reader::new(text, scratch)?;
    take_object(alloc, &mut reader, MAX_DEPTH, taker, found)?;
    match reader.next() {
        Some(_) => Err(Unread),
        None => Ok(()),
    }
}

/// Reads the members of the object that is the next value.
pub fn take_object<T: MemberTaker>(
    alloc: Global,
    reader: &mut Reader<'_>,
    depth: usize,
    taker: &T,
    found: &mut T::Found,
) -> Result<(), Unread>
    ensures ok { OnOk result (T.holds taker.now no_members found.old
        → (ms : Members) × BeginsWith depth reader.old (object ms) reader.new × T.holds taker.now ms found.new) }
    ensures shorter { OnOk result (length reader.new < length reader.old) }
{
    let token = reader.next().ok_or(Unread)?;
    match token {
        Token::BeginObject => {
            if depth == 0 {
                return Err(Unread);
            }
            take_members(alloc, reader, depth - 1, taker, found)
        }
        _ => Err(Unread),
    }
}

fn take_members<T: MemberTaker>(
    alloc: Global,
    reader: &mut Reader<'_>,
    depth: usize,
    taker: &T,
    found: &mut T::Found,
) -> Result<(), Unread>
    ensures ok { OnOk result (T.holds taker.now no_members found.old
        → (ms : Members)
        × (converted (λ js. of_members js no_members) (members (value depth) (length reader.old) reader.old)
        ≡ Some (ms, reader.new))
        × T.holds taker.now ms found.new) }
    ensures shorter { OnOk result (length reader.new < length reader.old) }
{
    'members: while let Some(name) = reader.next_key()? {
        take_member(alloc, name, reader, depth, taker, found)?;
    }
    Ok(())
}

fn take_member<T: MemberTaker>(
    alloc: Global,
    name: &str,
    reader: &mut Reader<'_>,
    depth: usize,
    taker: &T,
    found: &mut T::Found,
) -> Result<(), Unread>
    ensures ok { OnOk result ((d : Data) × BeginsWith depth reader.old d reader.new
        × ((ms : Members) → T.holds taker.now ms found.old → T.holds taker.now (put name.now d ms) found.new)) }
    ensures shorter { OnOk result (length reader.new < length reader.old) }
{
    if taker.wants(name) {
        return taker.take(alloc, name, reader, depth, found);
    }
    pass(alloc, reader, depth)
}

/// Passes a value. It is read, since a number that is no integer must be refused.
fn pass(alloc: Global, reader: &mut Reader<'_>, depth: usize) -> Result<(), Unread>
    ensures ok { OnOk result ((d : Data) × BeginsWith depth reader.old d reader.new) }
    ensures shorter { OnOk result (length reader.new < length reader.old) }
{
    drop(read_value(alloc, reader, depth)?);
    Ok(())
}
