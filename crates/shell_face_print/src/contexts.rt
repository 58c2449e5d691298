//! Writes context and chained context subtables.
ghost use Rattle.std.specs.Prelude.{◌≡◌, ◌++◌, OnOk};
ghost use Rattle.layout_tables.specs.declared.context.ContextSubtable.TheVariants as Rules;
ghost use Rattle.shell_print_json.specs.Tokens.{value_tokens};
ghost use Rattle.shell_print_json.specs.Values.{natural};
ghost use Rattle.shell_face_print.specs.Contexts.{classes_json, context_json, lookup_record_json, rule_json, rules_json};

use crate::lists::{Listed, write_list};
use crate::objects::{write_object2, write_object4};
use crate::rows::{write_row2, write_row3, write_row4};
use crate::value::{Named, ToJson};
use layout_tables::context::{ClassRules, ContextSubtable, SequenceLookupRecord, SequenceRule};
use layout_tables::item_rule::ItemRule;
use layout_tables::rules::SequenceRules;
use shell_print_json::JsonText;
use std::alloc::AllocError;

impl ToJson for SequenceLookupRecord {
    ghost json = { lookup_record_json };

    fn write(&self, text: &mut JsonText) -> Result<(), AllocError> {
        write_row2(&self.sequence_index, &self.lookup_index, text)
    }
}

impl<I: ToJson> ToJson for SequenceRule<I> {
    ghost json = { rule_json I.json };

    fn write(&self, text: &mut JsonText) -> Result<(), AllocError> {
        write_row4(
            &self.backtrack,
            &self.input,
            &self.lookahead,
            &self.records,
            text,
        )
    }
}

impl ToJson for ItemRule {
    ghost json = { rule_json natural };

    fn write(&self, text: &mut JsonText) -> Result<(), AllocError> {
        write_row4(
            &Listed {
                items: self.backtrack(),
            },
            &Listed {
                items: self.input(),
            },
            &Listed {
                items: self.lookahead(),
            },
            &Listed {
                items: self.records(),
            },
            text,
        )
    }
}

impl ToJson for SequenceRules {
    ghost json = { rules_json };

    fn write(&self, text: &mut JsonText) -> Result<(), AllocError> {
        write_list(self.as_slice(), text)
    }
}

/// The class definitions of rules by classes.
#[derive(Drop)]
struct ClassMaps<'a> {
    rules: &'a ClassRules,
}

impl<'a> ToJson for ClassMaps<'a> {
    ghost json = { λ m. classes_json m.rules.now };

    fn write(&self, text: &mut JsonText) -> Result<(), AllocError> {
        let rules = self.rules;
        write_row3(&rules.backtrack, &rules.input, &rules.lookahead, text)
    }
}

/// Appends rules by classes.
fn write_class_rules(rules: &ClassRules, text: &mut JsonText) -> Result<(), AllocError>
    ensures { OnOk result (text.new ≡ text.old ++ value_tokens (context_json (Rules.Classes rules.now))) }
{
    write_object4(
        ("format", &Named { text: "classes" }),
        ("classes", &ClassMaps { rules }),
        ("first", &rules.first),
        ("rules", &rules.rules),
        text,
    )
}

impl ToJson for ContextSubtable {
    ghost json = { context_json };

    fn write(&self, text: &mut JsonText) -> Result<(), AllocError> {
        match self {
            ContextSubtable::Glyphs(rules) => write_object2(
                ("format", &Named { text: "glyphs" }),
                ("rules", rules),
                text,
            ),
            ContextSubtable::Classes(rules) => write_class_rules(rules, text),
            ContextSubtable::Coverage(rules) => write_object2(
                ("format", &Named { text: "coverage" }),
                ("rules", rules),
                text,
            ),
        }
    }
}
