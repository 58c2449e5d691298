//! Rows, whose items differ in kind.
ghost use Rattle.std.specs.Prelude.{◌≡◌, ◌++◌, ◌∷◌, [], List, OnOk};
ghost use Rattle.serde_json.specs.Data.{Data};
ghost use Rattle.shell_face_print.specs.Rows.{glyph_row_json};
ghost use Rattle.shell_print_json.specs.Tokens.{items_tokens, value_tokens};
ghost use Rattle.shell_print_json.specs.Values.{integer, natural, row};

use crate::value::ToJson;
use layout_common::glyph_row::GlyphRow;
use shell_print_json::JsonText;
use std::alloc::AllocError;

/// What stands in a row after its glyph.
pub(crate) trait WriteFields {
    ghost fields: { Self → List Data };

    /// Appends the fields, and ends the row.
    fn write_fields(&self, text: &mut JsonText) -> Result<(), AllocError>
        ensures { OnOk result (text.new ≡ text.old ++ items_tokens (fields self.now)) };
}

/// Appends the last item of a row, and ends the row.
#[tactic(auto, using(crate::proofs::Appending::two))]
pub(crate) fn write_only<P: ToJson>(item: &P, text: &mut JsonText) -> Result<(), AllocError>
    ensures { OnOk result (text.new ≡ text.old ++ items_tokens (P.json item.now ∷ [])) }
{
    item.write(text)?;
    text.end_array()
}

impl WriteFields for u16 {
    ghost fields = { λ value. natural value ∷ [] };

    fn write_fields(&self, text: &mut JsonText) -> Result<(), AllocError> {
        write_only(self, text)
    }
}

impl WriteFields for i16 {
    ghost fields = { λ value. integer value ∷ [] };

    fn write_fields(&self, text: &mut JsonText) -> Result<(), AllocError> {
        write_only(self, text)
    }
}

impl<V: WriteFields> ToJson for GlyphRow<V> {
    ghost json = { glyph_row_json V.fields };

    #[tactic(auto, using(crate::proofs::Appending::row_two))]
    fn write(&self, text: &mut JsonText) -> Result<(), AllocError> {
        text.begin_array()?;
        self.glyph.write(text)?;
        self.value.write_fields(text)
    }
}

/// Appends a row of two items.
#[tactic(auto, using(crate::proofs::Appending::row_two))]
pub(crate) fn write_row2<A: ToJson, B: ToJson>(
    first: &A,
    second: &B,
    text: &mut JsonText,
) -> Result<(), AllocError>
    ensures { OnOk result (text.new ≡ text.old ++ value_tokens (row (A.json first.now ∷ B.json second.now ∷ []))) }
{
    text.begin_array()?;
    first.write(text)?;
    write_only(second, text)
}

/// Appends a row of three items.
#[tactic(auto, using(crate::proofs::Appending::row_three))]
pub(crate) fn write_row3<A: ToJson, B: ToJson, C: ToJson>(
    first: &A,
    second: &B,
    third: &C,
    text: &mut JsonText,
) -> Result<(), AllocError>
    ensures { OnOk result (text.new ≡ text.old
        ++ value_tokens (row (A.json first.now ∷ B.json second.now ∷ C.json third.now ∷ []))) }
{
    text.begin_array()?;
    first.write(text)?;
    second.write(text)?;
    write_only(third, text)
}

/// Appends a row of four items.
#[tactic(auto, using(crate::proofs::Appending::row_four))]
pub(crate) fn write_row4<A: ToJson, B: ToJson, C: ToJson, D: ToJson>(
    first: &A,
    second: &B,
    third: &C,
    fourth: &D,
    text: &mut JsonText,
) -> Result<(), AllocError>
    ensures { OnOk result (text.new ≡ text.old
        ++ value_tokens (row (A.json first.now ∷ B.json second.now ∷ C.json third.now ∷ D.json fourth.now ∷ []))) }
{
    text.begin_array()?;
    first.write(text)?;
    second.write(text)?;
    third.write(text)?;
    write_only(fourth, text)
}
