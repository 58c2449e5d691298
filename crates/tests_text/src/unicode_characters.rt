//! Properties of characters by tables, and their property words in glyph records.
ghost use Rattle.std.specs.Char.{IsScalar};

use crate::rows::{asked, character, hexadecimal, prints};
use buffer_common::constants::{
    HB_BUFFER_SCRATCH_FLAG_HAS_CGJ, HB_BUFFER_SCRATCH_FLAG_HAS_DEFAULT_IGNORABLES,
    HB_BUFFER_SCRATCH_FLAG_HAS_NON_ASCII,
};
use buffer_glyphs::info::hb_glyph_info_t;
use buffer_properties::info::{clear_continuation, init_unicode_props};
use buffer_unicode_tables::{
    CharTablesExt, UnicodeTables, compose, compose_hangul, decompose, decompose_hangul,
};
use serde_json::Value;
use shell_tables_json::read_tables;
use std::alloc::{AllocError, Global};
use std::test::Fail;

static TABLES: &str = r#"{"splits":[[225,97,769],[6918,6917,6965],[8491,197,0]],
    "pairs":[[97,769,225],[6917,6965,6918]],
    "classes":[[769,230],[803,220],[847,0]],
    "mirrored":[[40,41],[41,40]],
    "vertical":[[12289,65041]],
    "pictographic":[[169,4351],[174,174]],
    "joining":[[1576,"D"]],
    "indic":[[2325,"ML","END"]],
    "universal":[[6917,"HR"]],
    "thai":[[3640,"SD",63256,63257],[3640,"RD",63258,63259]]}"#;

/// What is known of characters, by hexadecimal numbers. `properties` are the property word, that with the
/// continuation bit cleared, the class, and which scratch flags are set. The categories are those of
/// UnicodeData.txt, as numbers in the order Cc Cf Cn Co Cs Ll Lm Lo Lt Lu Mc Me Mn and so on. U+0301 is a mark with
/// its class, U+0903 a spacing mark without a class in the tables; the soft hyphen is a default ignorable and
/// nothing else; the grapheme joiner, Mongolian selectors and tags are hidden.
pub(crate) static ROWS: &str = "\
decompose e1: 61 301
decompose 212b: c5 0
decompose ac00: 1100 1161
decompose 61: none
compose 1b05 1b35: 1b06
compose ac00 11a8: ac01
compose 61 323: none
class 301: 230
class 61: 0
mirrored 28: 29
vertical 3001: fe11
pictographic 1000: true
pictographic 1100: false
joining 628: Some(3)
joining 61: None
universal 1b05: Some(44)
indic 915: Some((34, 14))
thai e38 3: f71a f71b
thai e38 2: none
compose-hangul 1112 1175: d788
compose-hangul d788 11c2: d7a3
compose-hangul ac00 11a7: none
compose-hangul ac01 11a8: none
decompose-hangul d7a3: d788 11c2
decompose-hangul d788: 1112 1175
decompose-hangul d7a4: none
properties 61: 5 5 0 ascii
properties 7f: 0 0 0 ascii
properties 80: 0 0 0 plain
properties e9: 5 5 0 plain
properties 301: 8c c 230 plain
properties 903: 8a a 0 plain
properties ad: 21 21 0 ignorable
properties 200b: 21 21 0 ignorable
properties 200c: 221 221 0 ignorable
properties 200d: 121 121 0 ignorable
properties 34f: ec 6c 0 joiner
properties 180b: ec 6c 0 ignorable
properties 180e: 21 21 0 ignorable
properties 180f: ec 6c 0 ignorable
properties e0020: 61 61 0 ignorable
properties e001f: 22 22 0 ignorable
properties fe00: ac 2c 0 ignorable";

/// The tables of a text, in a box, which is freed by one call.
pub(crate) fn tables_of(alloc: Global, text: &str) -> Result<Box<UnicodeTables>, Fail> {
    let value = Value::from_str(alloc, text)?;
    let tables = read_tables(alloc, &value)?;
    Ok(Box::new(alloc, tables).map_err(AllocError::from)?)
}

/// Whether a character is that of an answer.
fn is_character(found: Option<char>, answer: &str) -> bool {
    match found {
        Some(c) => hexadecimal(answer) == Some(u32::from(c)),
        None => answer == "none",
    }
}

/// Whether two characters are those of an answer.
fn are_characters(found: Option<(char, char)>, answer: &str) -> bool {
    match (found, answer.split_once(' ')) {
        (Some((a, b)), Some((first, second))) => {
            is_character(Some(a), first) && is_character(Some(b), second)
        }
        (None, None) => answer == "none",
        _ => false,
    }
}

fn standing_for(u: char) -> hb_glyph_info_t
    ensures { IsScalar result.glyph_id }
{
    hb_glyph_info_t {
        glyph_id: u32::from(u),
        cluster: 7,
        modified_combining_class: 1,
        ..hb_glyph_info_t::default()
    }
}

/// The scratch flags of a character, by a name.
fn flags_of(name: &str) -> u32 {
    match name {
        "ascii" => 0,
        "plain" => HB_BUFFER_SCRATCH_FLAG_HAS_NON_ASCII,
        "ignorable" => {
            HB_BUFFER_SCRATCH_FLAG_HAS_NON_ASCII | HB_BUFFER_SCRATCH_FLAG_HAS_DEFAULT_IGNORABLES
        }
        _ => {
            HB_BUFFER_SCRATCH_FLAG_HAS_NON_ASCII
                | HB_BUFFER_SCRATCH_FLAG_HAS_DEFAULT_IGNORABLES
                | HB_BUFFER_SCRATCH_FLAG_HAS_CGJ
        }
    }
}

/// Whether a character's record gets the words of an answer, and keeps its number and its cluster.
fn has_words(tables: &UnicodeTables, u: char, answer: &str) -> bool {
    let mut info = standing_for(u);
    let mut scratch_flags = 0x1000000;
    init_unicode_props(&mut info, tables, &mut scratch_flags);
    let props = u32::from(info.unicode_props.0);
    clear_continuation(&mut info);
    let mut words = answer.split(' ');
    hexadecimal(words.next().unwrap_or("")) == Some(props)
        && hexadecimal(words.next().unwrap_or("")) == Some(u32::from(info.unicode_props.0))
        && words.next().unwrap_or("").parse::<u8>() == Ok(info.modified_combining_class)
        && scratch_flags == 0x1000000 | flags_of(words.next().unwrap_or(""))
        && (info.glyph_id, info.cluster) == (u32::from(u), 7)
}

/// Whether a character, or two, are as the tables have them.
fn is_known(
    alloc: Global,
    tables: &UnicodeTables,
    question: &str,
    (a, second): (char, &str),
    answer: &str,
) -> Result<bool, Fail> {
    let b = character(second).unwrap_or('\0');
    match question {
        "decompose" => Ok(are_characters(decompose(tables, a), answer)),
        "compose" => Ok(is_character(compose(tables, a, b), answer)),
        "decompose-hangul" => Ok(are_characters(decompose_hangul(a), answer)),
        "compose-hangul" => Ok(is_character(compose_hangul(a, b), answer)),
        "mirrored" => Ok(is_character(a.mirrored(tables), answer)),
        "vertical" => Ok(is_character(a.vertical(tables), answer)),
        "thai" => Ok(are_characters(tables.thai(a, second.parse::<u8>()?), answer)),
        "properties" => Ok(has_words(tables, a, answer)),
        "class" => prints(alloc, &a.modified_combining_class(tables), answer),
        "pictographic" => prints(alloc, &a.is_emoji_extended_pictographic(tables), answer),
        "joining" => prints(alloc, &tables.joining(a), answer),
        "universal" => prints(alloc, &tables.universal(a), answer),
        _ => prints(alloc, &tables.indic(a), answer),
    }
}

/// Whether characters are as a row says.
pub(crate) fn is_so(alloc: Global, row: &str) -> Result<bool, Fail> {
    let Some((question, words, answer)) = asked(row) else {
        return Ok(false);
    };
    let (first, second) = words.split_once(' ').unwrap_or((words, ""));
    let Some(first) = character(first) else {
        return Ok(false);
    };
    let tables = tables_of(alloc, TABLES)?;
    is_known(alloc, &tables, question, (first, second), answer)
}
