//! Reads a row of each character table.
//!
//! Each kind of row has its reader, by its own definition; all have this form.
ghost use Rattle.std.specs.Prelude.{◌≡◌};
ghost use Rattle.serde_json.specs.View.{view};
ghost use Rattle.shell_json.specs.Cell.{both, character};
ghost use Rattle.script_categories.specs.Thai.{thai_actions};
ghost use Rattle.shell_tables_json.specs.Rows.{number_of_name};
ghost use Rattle.shell_tables_json.specs.Characters.{split_row, pair, character_class, counterpart, character_range, joining_row, indic_row, universal_row, thai_row};

use crate::names::{
    indic_category_of_name, indic_position_of_name, joining_type_of_name, thai_action_of_name,
    universal_category_of_name,
};
use crate::rows::RowReader;
use buffer_unicode::{
    CharacterClass, CharacterRange, Counterpart, IndicRow, JoiningRow, Pair, Split, ThaiRow,
    UniversalRow,
};
use serde_json::Value;
use shell_json::cell::{Cell, pair};
use shell_json::fault::JsonFault;
use shell_json::items::{four_items, three_items, two_items};

/// Reads a character and the two halves of its decomposition.
#[derive(Clone, Copy)]
pub struct Splits;

impl RowReader for Splits {
    type Row = Split;

    ghost means = { λ _. split_row };

    fn read_row(self, value: &Value) -> Result<Split, JsonFault> {
        let (whole, first, second) = three_items(value)?;
        let parts = pair(char::read(first), char::read(second));
        let (whole, (first, second)) = pair(char::read(whole), parts)?;
        Ok(Split {
            whole,
            first,
            second,
        })
    }
}

/// Reads two characters and their composition.
#[derive(Clone, Copy)]
pub struct Pairs;

impl RowReader for Pairs {
    type Row = Pair;

    ghost means = { λ _. pair };

    fn read_row(self, value: &Value) -> Result<Pair, JsonFault> {
        let (first, second, whole) = three_items(value)?;
        let rest = pair(char::read(second), char::read(whole));
        let (first, (second, whole)) = pair(char::read(first), rest)?;
        Ok(Pair {
            first,
            second,
            whole,
        })
    }
}

/// Reads a character and its combining class.
#[derive(Clone, Copy)]
pub struct Classes;

impl RowReader for Classes {
    type Row = CharacterClass;

    ghost means = { λ _. character_class };

    fn read_row(self, value: &Value) -> Result<CharacterClass, JsonFault> {
        let (character, class) = two_items(value)?;
        let (character, class) = pair(char::read(character), u8::read(class))?;
        Ok(CharacterClass { character, class })
    }
}

/// Reads a character and its counterpart in another direction.
#[derive(Clone, Copy)]
pub struct Counterparts;

impl RowReader for Counterparts {
    type Row = Counterpart;

    ghost means = { λ _. counterpart };

    fn read_row(self, value: &Value) -> Result<Counterpart, JsonFault> {
        let (character, counterpart) = two_items(value)?;
        let (character, counterpart) = pair(char::read(character), char::read(counterpart))?;
        Ok(Counterpart {
            character,
            counterpart,
        })
    }
}

/// Reads a range of characters.
#[derive(Clone, Copy)]
pub struct Ranges;

impl RowReader for Ranges {
    type Row = CharacterRange;

    ghost means = { λ _. character_range };

    fn read_row(self, value: &Value) -> Result<CharacterRange, JsonFault> {
        let (first, last) = two_items(value)?;
        let (first, last) = pair(char::read(first), char::read(last))?;
        Ok(CharacterRange { first, last })
    }
}

/// Reads a character and its joining type.
#[derive(Clone, Copy)]
pub struct JoiningRows;

impl RowReader for JoiningRows {
    type Row = JoiningRow;

    ghost means = { λ _. joining_row };

    fn read_row(self, value: &Value) -> Result<JoiningRow, JsonFault> {
        let (character, name) = two_items(value)?;
        let (character, joining_type) = pair(char::read(character), joining_type_of_name(name))?;
        Ok(JoiningRow {
            character,
            joining_type,
        })
    }
}

/// Reads a character, its Indic syllabic category and its position.
#[derive(Clone, Copy)]
pub struct IndicRows;

impl RowReader for IndicRows {
    type Row = IndicRow;

    ghost means = { λ _. indic_row };

    fn read_row(self, value: &Value) -> Result<IndicRow, JsonFault> {
        let (character, category, position) = three_items(value)?;
        let names = pair(
            indic_category_of_name(category),
            indic_position_of_name(position),
        );
        let (character, (category, position)) = pair(char::read(character), names)?;
        Ok(IndicRow {
            character,
            category,
            position,
        })
    }
}

/// Reads a character and its category for the universal shaper.
#[derive(Clone, Copy)]
pub struct UniversalRows;

impl RowReader for UniversalRows {
    type Row = UniversalRow;

    ghost means = { λ _. universal_row };

    fn read_row(self, value: &Value) -> Result<UniversalRow, JsonFault> {
        let (character, name) = two_items(value)?;
        let (character, category) = pair(char::read(character), universal_category_of_name(name))?;
        Ok(UniversalRow {
            character,
            category,
        })
    }
}

/// Reads a character, an action and the two private-use characters that may replace it by that action.
#[derive(Clone, Copy)]
pub struct ThaiRows;

impl RowReader for ThaiRows {
    type Row = ThaiRow;

    ghost means = { λ _. thai_row };

    fn read_row(self, value: &Value) -> Result<ThaiRow, JsonFault> {
        let (character, action, first, second) = four_items(value)?;
        let rest = action_and_forms(action, first, second);
        let (character, (action, (first, second))) = pair(char::read(character), rest)?;
        Ok(ThaiRow {
            character,
            action,
            first,
            second,
        })
    }
}

fn action_and_forms(
    action: &Value,
    first: &Value,
    second: &Value,
) -> Result<(u8, (char, char)), JsonFault>
    ensures { result ≡ both (number_of_name thai_actions (view action.now))
        (both (character (view first.now)) (character (view second.now))) }
{
    let forms = pair(char::read(first), char::read(second));
    pair(thai_action_of_name(action), forms)
}
