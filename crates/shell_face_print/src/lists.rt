//! Lists of values of one kind.
ghost use Rattle.std.specs.Prelude.{◌≡◌, ◌++◌, OnOk};
ghost use Rattle.shell_face_print.specs.Tags.{printable_records};
ghost use Rattle.shell_print_json.specs.Tokens.{value_tokens};
ghost use Rattle.shell_print_json.specs.Values.{list_of, natural};

use crate::tags::is_printable_tag;
use crate::value::ToJson;
use buffer_common::tag::Tag;
use buffer_rows::{Keyed, Numbered, PagedRows, SortedRows};
use layout_common::array::Array;
use layout_common::class_definition::ClassDefinition;
use layout_common::coverage::Coverage;
use layout_common::digested::Covers;
use layout_common::subtables::Subtables;
use shell_print_json::JsonText;
use std::alloc::AllocError;

/// Appends a list.
#[tactic(auto, using(crate::proofs::Appending::list_ends, crate::proofs::Steps::list_step))]
pub(crate) fn write_list<P: ToJson>(items: &[P], text: &mut JsonText) -> Result<(), AllocError>
    ensures { OnOk result (text.new ≡ text.old ++ value_tokens (list_of P.json items.now)) }
{
    text.begin_array()?;
    for item in items {
        item.write(text)?;
    }
    text.end_array()
}

/// Appends a list of the records whose tags are printable.
#[tactic(auto, using(crate::proofs::Appending::list_ends, crate::proofs::Steps::printable_step, crate::proofs::Steps::unprintable_step))]
fn write_printable<P: ToJson + Keyed<Key = u32>>(
    records: &[P],
    text: &mut JsonText,
) -> Result<(), AllocError>
    ensures { OnOk result (text.new ≡ text.old ++ value_tokens (list_of P.json (printable_records P.key_of records.now))) }
{
    text.begin_array()?;
    for record in records {
        if !is_printable_tag(Tag(record.key())) {
            continue;
        }
        record.write(text)?;
    }
    text.end_array()
}

/// A list, as a value.
#[derive(Drop)]
pub(crate) struct Listed<'a, P> {
    pub(crate) items: &'a [P],
}

impl<'a, P: ToJson> ToJson for Listed<'a, P> {
    ghost json = { λ l. list_of P.json l.items.now };

    fn write(&self, text: &mut JsonText) -> Result<(), AllocError> {
        write_list(self.items, text)
    }
}

/// The records of a list whose tags are printable, as a value.
#[derive(Drop)]
pub(crate) struct PrintableRecords<'a, P> {
    pub(crate) records: &'a [P],
}

impl<'a, P: ToJson + Keyed<Key = u32>> ToJson for PrintableRecords<'a, P> {
    ghost json = { λ l. list_of P.json (printable_records P.key_of l.records.now) };

    fn write(&self, text: &mut JsonText) -> Result<(), AllocError> {
        write_printable(self.records, text)
    }
}

impl<P: ToJson> ToJson for Array<P> {
    ghost json = { list_of P.json };

    fn write(&self, text: &mut JsonText) -> Result<(), AllocError> {
        write_list(self.as_slice(), text)
    }
}

impl<R: ToJson + Keyed> ToJson for SortedRows<R> {
    ghost json = { list_of R.json };

    fn write(&self, text: &mut JsonText) -> Result<(), AllocError> {
        write_list(self.as_slice(), text)
    }
}

impl<R: ToJson + Numbered> ToJson for PagedRows<R> {
    ghost json = { list_of R.json };

    fn write(&self, text: &mut JsonText) -> Result<(), AllocError> {
        write_list(self.as_slice(), text)
    }
}

impl<S: ToJson + Covers> ToJson for Subtables<S> {
    ghost json = { list_of S.json };

    fn write(&self, text: &mut JsonText) -> Result<(), AllocError> {
        write_list(self.as_slice(), text)
    }
}

/// The glyphs of a coverage.
impl ToJson for Coverage {
    ghost json = { list_of natural };

    fn write(&self, text: &mut JsonText) -> Result<(), AllocError> {
        write_list(self.as_slice(), text)
    }
}

/// Rows of a glyph and its class.
impl ToJson for ClassDefinition {
    ghost use Rattle.shell_face_print.specs.Rows.{class_definition_json};

    ghost json = { class_definition_json };

    fn write(&self, text: &mut JsonText) -> Result<(), AllocError> {
        write_list(self.rows.as_slice(), text)
    }
}
