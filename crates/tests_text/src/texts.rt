//! Tags, scripts, directions, flags and languages.
use crate::rows::{part, prints};
use arrayvec::ArrayVec;
use bitflags::Flags;
use buffer_common::constants::*;
use buffer_common::direction::{Direction, InvalidDirection};
use buffer_common::language::{Language, LanguageFault};
use buffer_common::language_tags::LanguageTags;
use buffer_common::script::*;
use buffer_common::script_tags::tags_from_script_and_language;
use buffer_common::tag::{Tag, TagExt};
use buffer_tags::language_table::{LanguageRow, LanguageTable};
use std::alloc::{AllocError, Global};
use std::test::Fail;

/// A text and what it is: the tag of its script, none where it is refused; the number of the tag; its direction,
/// and that of a script; a language; its first tag by a table; the tags of a script, one after the other, beside
/// the language `de-AT`, and that of a language beside a script; what a direction is reversed, and whether it is
/// vertical, horizontal, forward and backward; and hexadecimal constants.
pub(crate) static ROWS: &str = "\
script;Arab;Arab
script;aran;Arab
script;QAAI;Zinh
script;Qaac;Copt
script;Cyrs;Cyrl
script;Hant;Hani
script;jamo;Hang
script;Latg;Latn
script;Syrn;Syrc
script;Latin;Lati
script;Lat;Zzzz
script;La-n;Zzzz
script;;
script;\0\0\0\0;
tag;;0
tag;yi;79692020
tag;liga;6c696761
tag;kern;6b65726e
tag;kern1;6b65726e
direction;ltr;Some(LeftToRight)
direction;Right;Some(RightToLeft)
direction;TTB;Some(TopToBottom)
direction;b;Some(BottomToTop)
direction;;None
direction; ltr;None
direction of script;Latn;Some(LeftToRight)
direction of script;Arab;Some(RightToLeft)
direction of script;Hebr;Some(RightToLeft)
direction of script;Hung;None
direction of script;Runr;None
direction of script;Zzzz;Some(LeftToRight)
first tag;de;DEU 
first tag;de-ch;DEU 
first tag;zh-hant;ZHT 
first tag;zh-hant-hk;ZHS 
first tag;d;
language;EN-us;en-us
language;;
script tags;Beng;bng3bng2beng
script tags;Mymr;mym2mymr
script tags;Hira;kana
script tags;Laoo;lao 
script tags;Zmth;math
script tags;Latn;latn
script tags;Zyyy;
script tags;;
language tag;de-AT;DEU 
language tag;;
kinds;ttb;(BottomToTop, [true, false, true, false])
default direction;;Invalid
constant;liga;6c696761
constant;deu in capitals;44455520
constant;default script;44464c54
constant;default language;64666c74
constant;Arabic;41726162
constant;no script;1
constant;all flags;1df
constant;unsafe to concat;40
constant;bit 31;80000000
constant;bit 32;0
constant;bits 2 to 4;1c
constant;bit 40 of 64;10000000000
constant;bit 64 of 64;0";

/// The script of a text; none where it is refused.
fn script_in(text: &str) -> Option<Script> {
    match text.parse::<Script>() {
        Ok(script) => Some(script),
        Err(InvalidScript) => None,
    }
}

fn direction_in(text: &str) -> Option<Direction> {
    match text.parse::<Direction>() {
        Ok(direction) => Some(direction),
        Err(InvalidDirection) => None,
    }
}

/// Whether a text is a language as it is wanted, or no language where none is wanted.
fn is_language(alloc: Global, text: &str, wanted: &str) -> Result<bool, AllocError> {
    match Language::from_str(alloc, text) {
        Ok(language) => Ok(language.as_str() == wanted),
        Err(LanguageFault::Invalid) => Ok(wanted.is_empty()),
        Err(LanguageFault::OutOfMemory) => Err(AllocError),
    }
}

fn row(alloc: Global, text: &str, tag: Tag) -> Result<LanguageRow, Fail> {
    let text = String::from_str(alloc, text)?;
    let mut tags = ArrayVec::new();
    tags.push(tag);
    Ok(LanguageRow { text, tags })
}

const GERMAN: Tag = Tag(0x44455520);

const CHINESE_SIMPLIFIED: Tag = Tag(0x5A485320);

const CHINESE_TRADITIONAL: Tag = Tag(0x5A485420);

fn german_and_chinese(alloc: Global) -> Result<LanguageTable, Fail> {
    let mut rows = Vec::new(alloc);
    for (text, tag) in [
        ("de", GERMAN),
        ("zh", CHINESE_SIMPLIFIED),
        ("zh-hant", CHINESE_TRADITIONAL),
    ] {
        rows.push(row(alloc, text, tag)?)?;
    }
    if !LanguageTable::are_rising(&rows) {
        return Err("the texts do not rise".into());
    }
    Ok(LanguageTable::new(rows))
}

/// The script of a tag; none of no tag.
fn script_of(tag: &str) -> Option<Script> {
    Script::from_iso15924_tag(Tag::from_bytes_lossy(tag.as_bytes()))
}

/// The language of a text; none of no text.
fn language_of(alloc: Global, text: &str) -> Result<Option<Language>, Fail> {
    if text.is_empty() {
        return Ok(None);
    }
    Ok(Some(Language::from_str(alloc, text)?))
}

/// The first tag of a text, the tags of a script, or those of a language.
fn tags_of(
    question: &str,
    text: &str,
    language: Option<&Language>,
    table: &LanguageTable,
) -> ArrayVec<Tag, 3> {
    if question == "first tag" {
        return table.tags(text);
    }
    if question == "script tags" {
        let (scripts, _) = tags_from_script_and_language(script_of(text), language, table);
        return scripts;
    }
    let (_, languages) = tags_from_script_and_language(Some(BENGALI), language, table);
    languages
}

fn text_of(alloc: Global, tags: &[Tag]) -> Result<String, AllocError> {
    let mut text = String::new(alloc);
    for tag in tags {
        for byte in tag.to_bytes() {
            text.push(char::from(byte))?;
        }
    }
    Ok(text)
}

/// Whether the tags that a table of languages gives are those of an answer, one after the other.
fn are_tags(alloc: Global, question: &str, text: &str, answer: &str) -> Result<bool, Fail> {
    let table = german_and_chinese(alloc)?;
    let language = language_of(
        alloc,
        if question == "script tags" {
            "de-AT"
        } else {
            text
        },
    )?;
    let tags = tags_of(question, text, language.as_ref(), &table);
    let wanted = if question == "first tag" {
        1
    } else {
        tags.len()
    };
    let tags = tags.get(..wanted).unwrap_or(&[]);
    Ok(text_of(alloc, tags)?.as_str() == answer)
}

/// Whether a direction is vertical, horizontal, forward, backward.
fn kinds(direction: Direction) -> [bool; 4] {
    [
        direction.is_vertical(),
        direction.is_horizontal(),
        direction.is_forward(),
        direction.is_backward(),
    ]
}

fn constant(name: &str) -> u64 {
    let number = match name {
        "liga" => Tag::from_bytes(b"liga").0,
        "deu in capitals" => Tag::from_bytes(b"deu ").to_uppercase().0,
        "default script" => <Tag as TagExt>::default_script().0,
        "default language" => <Tag as TagExt>::default_language().0,
        "Arabic" => ARABIC.tag().0,
        "no script" => u32::from(Script::from_iso15924_tag(Tag(0)).is_none()),
        "all flags" => BufferFlags::all().bits(),
        "unsafe to concat" => BufferFlags::PRODUCE_UNSAFE_TO_CONCAT.bits(),
        "bit 31" => rb_flag(31),
        "bit 32" => rb_flag_unsafe(32),
        "bits 2 to 4" => rb_flag_range(2, 4),
        "bit 40 of 64" => return rb_flag64(40),
        _ => return rb_flag64_unsafe(64),
    };
    u64::from(number)
}

fn is_number(alloc: Global, number: u64, answer: &str) -> Result<bool, Fail> {
    Ok(format!(in alloc; "{number:x}")?.as_str() == answer)
}

fn is_script(script: Option<Script>, tag: &str) -> bool {
    match script {
        Some(script) => script.tag().to_bytes().as_slice() == tag.as_bytes(),
        None => tag.is_empty(),
    }
}

/// Whether a text is what a row says.
pub(crate) fn is_so(alloc: Global, row: &str) -> Result<bool, Fail> {
    let (question, text, answer) = (part(row, 0), part(row, 1), part(row, 2));
    match question {
        "script" => Ok(is_script(script_in(text), answer)),
        "tag" => is_number(
            alloc,
            u64::from(Tag::from_bytes_lossy(text.as_bytes()).0),
            answer,
        ),
        "direction" => prints(alloc, &direction_in(text), answer),
        "direction of script" => prints(
            alloc,
            &Direction::from_script(script_of(text).unwrap_or(UNKNOWN)),
            answer,
        ),
        "language" => Ok(is_language(alloc, text, answer)?),
        "kinds" => {
            let direction = direction_in(text).unwrap_or_default();
            prints(alloc, &(direction.reverse(), kinds(direction)), answer)
        }
        "default direction" => prints(alloc, &Direction::default(), answer),
        "constant" => is_number(alloc, constant(text), answer),
        _ => are_tags(alloc, question, text, answer),
    }
}
