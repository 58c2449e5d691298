//! The takers of the values of an object's keys.
ghost use Rattle.std.specs.Prelude.{◌≡◌, ◌≢◌, ◌<◌, length, true, false, None, IfOk, OnOk};
ghost use Rattle.serde_json.specs.Data.{Data};
ghost use Rattle.serde_json.specs.View.{view};
ghost use Rattle.shell_json.specs.TextValues.{BeginsWith, HasMember};

use crate::members::MemberTaker;
use crate::unread::Unread;
use crate::value::read_value;
use json::Reader;
use serde_json::Value;
use std::alloc::Global;

/// The reader of one value.
pub trait ValueTaker: Drop {
    type Output: Drop;

    /// The relation between the value and what is read from it.
    ghost means: { Self → Data → Self.Output → Type 0 };

    /// Reads the next value, in which arrays and objects nest at most `depth` deep.
    fn take_value(
        &self,
        alloc: Global,
        reader: &mut Reader<'_>,
        depth: usize,
    ) -> Result<Self::Output, Unread>
        ensures ok { IfOk result (λ o. (d : Data) × BeginsWith depth reader.old d reader.new × means self.now d o) }
        ensures shorter { OnOk result (length reader.new < length reader.old) };
}

/// Reads the value of a key, the last one where the key occurs twice.
#[derive(Drop)]
pub struct Key<T> {
    pub name: &'static str,
    pub taker: T,
}

impl<T: ValueTaker> MemberTaker for Key<T> {
    type Found = Option<T::Output>;

    ghost holds = { λ key ms found. HasMember (T.means key.taker) key.name.now ms found };

    fn wants(&self, name: &str) -> bool {
        same_name(name, self.name)
    }

    fn take(
        &self,
        alloc: Global,
        name: &str,
        reader: &mut Reader<'_>,
        depth: usize,
        found: &mut Option<T::Output>,
    ) -> Result<(), Unread> {
        if !same_name(name, self.name) {
            return Err(Unread);
        }
        *found = Some(self.taker.take_value(alloc, reader, depth)?);
        Ok(())
    }
}

/// Whether two names are equal.
pub fn same_name(name: &str, other: &str) -> bool
    ensures yes { result ≡ true → name.now ≡ other.now }
    ensures no { result ≡ false → name.now ≢ other.now }
{
    name == other
}

/// Reads the values of several keys, no two of which are equal.
impl<A: MemberTaker, B: MemberTaker> MemberTaker for (A, B) {
    type Found = (A::Found, B::Found);

    ghost holds = { λ both ms found. A.holds both.0 ms found.0 × B.holds both.1 ms found.1 };

    fn wants(&self, name: &str) -> bool {
        self.0.wants(name) || self.1.wants(name)
    }

    fn take(
        &self,
        alloc: Global,
        name: &str,
        reader: &mut Reader<'_>,
        depth: usize,
        found: &mut (A::Found, B::Found),
    ) -> Result<(), Unread> {
        if !self.1.wants(name) {
            return self.0.take(alloc, name, reader, depth, &mut found.0);
        }
        if self.0.wants(name) {
            return Err(Unread);
        }
        self.1.take(alloc, name, reader, depth, &mut found.1)
    }
}

/// Reads a value whole.
#[derive(Clone, Copy)]
pub struct Whole;

impl ValueTaker for Whole {
    type Output = Value;

    ghost means = { λ _ d v. view v ≡ d };

    fn take_value(
        &self,
        alloc: Global,
        reader: &mut Reader<'_>,
        depth: usize,
    ) -> Result<Value, Unread> {
        read_value(alloc, reader, depth)
    }
}
