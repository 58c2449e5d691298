//! Values that have a JSON form.
ghost use Rattle.std.specs.Prelude.{◌≡◌, ◌++◌, ℕ, OnOk, [], ◌∷◌};
ghost use Rattle.serde_json.specs.Data.{Data};
ghost use Rattle.shell_print_json.specs.Tokens.{value_tokens};

use layout_common::digested::{Covers, Digested};
use shell_print_json::JsonText;
use std::alloc::AllocError;

/// What a font has that is a value of its JSON: a number, a text, a row, a list, a table.
pub(crate) trait ToJson {
    ghost json: { Self → Data };

    /// Appends the value. The only error is want of memory for the text.
    fn write(&self, text: &mut JsonText) -> Result<(), AllocError>
        ensures { OnOk result (text.new ≡ text.old ++ value_tokens (json self.now)) };
}

/// A glyph, an index, a class, an advance or a flag.
impl ToJson for u16 {
    ghost use Rattle.shell_print_json.specs.Values.{natural};

    ghost json = { natural };

    fn write(&self, text: &mut JsonText) -> Result<(), AllocError> {
        text.natural(u32::from(*self))
    }
}

/// A character, as the number of its code point.
impl ToJson for char {
    ghost use Rattle.shell_print_json.specs.Values.{natural};

    ghost json = { natural };

    fn write(&self, text: &mut JsonText) -> Result<(), AllocError> {
        text.natural(u32::from(*self))
    }
}

/// A distance in font units.
impl ToJson for i16 {
    ghost use Rattle.shell_print_json.specs.Values.{integer};

    ghost json = { integer };

    #[tactic(auto, using(crate::proofs::Appending::integer_text))]
    fn write(&self, text: &mut JsonText) -> Result<(), AllocError> {
        text.integer(i32::from(*self))
    }
}

/// A distance in font units.
impl ToJson for i32 {
    ghost use Rattle.shell_print_json.specs.Values.{integer};

    ghost json = { integer };

    #[tactic(auto, using(crate::proofs::Appending::integer_text))]
    fn write(&self, text: &mut JsonText) -> Result<(), AllocError> {
        text.integer(*self)
    }
}

/// A value, or null without one.
impl<P: ToJson> ToJson for Option<P> {
    ghost use Rattle.shell_print_json.specs.Values.{or_null};

    ghost json = { or_null P.json };

    fn write(&self, text: &mut JsonText) -> Result<(), AllocError> {
        match self {
            Some(value) => value.write(text),
            None => text.null(),
        }
    }
}

/// A value without the set of the glyphs at which it can act.
impl<S: ToJson + Covers> ToJson for Digested<S> {
    ghost json = { S.json };

    fn write(&self, text: &mut JsonText) -> Result<(), AllocError> {
        self.inner().write(text)
    }
}

/// What a reference points to.
impl<'a, P: ToJson> ToJson for &'a P {
    ghost json = { λ value. P.json value.now };

    fn write(&self, text: &mut JsonText) -> Result<(), AllocError> {
        P::write(*self, text)
    }
}

/// A text, as a value.
#[derive(Drop)]
pub(crate) struct Named<'a> {
    pub(crate) text: &'a str,
}

impl<'a> ToJson for Named<'a> {
    ghost use Rattle.serde_json.specs.Data.{string};

    ghost json = { λ name. string name.text.now };

    fn write(&self, text: &mut JsonText) -> Result<(), AllocError> {
        text.string(self.text)
    }
}
