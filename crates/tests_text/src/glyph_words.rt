//! The property word and the class of a glyph record, read and written.
use crate::rows::{hexadecimal, prints};
use buffer_glyphs::flags::{GlyphPropsFlags, UnicodeProps};
use buffer_glyphs::info::hb_glyph_info_t;
use buffer_properties::glyph_words::{
    _hb_glyph_info_clear_default_ignorable, _hb_glyph_info_get_general_category,
    _hb_glyph_info_get_modified_combining_class, _hb_glyph_info_get_unicode_space_fallback_type,
    _hb_glyph_info_is_continuation, _hb_glyph_info_is_default_ignorable,
    _hb_glyph_info_is_unicode_mark, _hb_glyph_info_is_unicode_space,
    _hb_glyph_info_is_variation_selector, _hb_glyph_info_is_zwj, _hb_glyph_info_is_zwnj,
    _hb_glyph_info_set_continuation, _hb_glyph_info_set_general_category,
    _hb_glyph_info_set_modified_combining_class, _hb_glyph_info_set_unicode_space_fallback_type,
    _hb_glyph_info_set_variation_selector,
};
use buffer_unicode::category::GeneralCategoryExt;
use std::alloc::Global;
use std::test::Fail;
use unicode::properties::GeneralCategory;

/// A property word and a class with what they say: mark and its class, space and its type, and bits: joiner, non-
/// joiner, continuation, variation selector; the bits of format characters say nothing of a mark. The categories
/// are 5 Ll, 1 Cf, 12 Mn, 29 Zs, and 30 is none. What a word becomes with another category, which leaves the bits
/// of ignorables, hidden characters and continuations; as that of a variation selector that isn't joined, or no
/// longer so; with the continuation bit, and without that of default ignorables. What the class field 7 becomes
/// after a class, and after a type of space, is written to it. Whether a glyph is a default ignorable, also where
/// it was substituted.
pub(crate) static ROWS: &str = "\
word 5 7: (false, 0, false, 0, [false, false, false, false])
word 8c 230: (true, 230, false, 0, [false, false, true, false])
word 1d 18: (false, 0, true, 18, [false, false, false, false])
word 121 9: (false, 0, false, 0, [true, false, false, false])
word 221 9: (false, 0, false, 0, [false, true, false, false])
word 421 9: (false, 0, false, 0, [false, false, false, true])
word 4a1 9: (false, 0, false, 0, [false, false, true, true])
word 72c 9: (true, 9, false, 0, [false, false, false, false])
category 5: Some(5)
category 8c: Some(12)
category 421: Some(1)
category 1d: Some(29)
category 1e: None
upper-case 7ec: e9
nonspacing 5: c
selector ac: 4a1
no-selector 4a1: ac
continued 2c: ac
shown 2c: c
continued 85: 85
shown 85: 85
classes c: (230, 7)
classes 1d: (7, 18)
classes 5: (7, 7)
ignorable 21: true
ignorable 5: false
substituted 21: false";

fn record(word: u16, class: u8) -> hb_glyph_info_t {
    hb_glyph_info_t {
        unicode_props: UnicodeProps(word),
        modified_combining_class: class,
        ..hb_glyph_info_t::default()
    }
}

/// What a record says of bits: joiner, non-joiner, continuation, variation selector.
fn bits_of(info: &hb_glyph_info_t) -> [bool; 4] {
    [
        _hb_glyph_info_is_zwj(info),
        _hb_glyph_info_is_zwnj(info),
        _hb_glyph_info_is_continuation(info),
        _hb_glyph_info_is_variation_selector(info),
    ]
}

/// Mark and its class, space and its type, and bits.
fn said(info: &hb_glyph_info_t) -> (bool, u8, bool, u8, [bool; 4]) {
    (
        _hb_glyph_info_is_unicode_mark(info),
        _hb_glyph_info_get_modified_combining_class(info),
        _hb_glyph_info_is_unicode_space(info),
        _hb_glyph_info_get_unicode_space_fallback_type(info),
        bits_of(info),
    )
}

/// The number of a word's category, where it is one.
fn category_of(info: &hb_glyph_info_t) -> Option<u32> {
    if u32::from(info.unicode_props.0 & 0x1F) < 30 {
        return Some(_hb_glyph_info_get_general_category(info).to_rb());
    }
    None
}

/// A record whose word is changed.
fn written(info: hb_glyph_info_t, change: &str) -> hb_glyph_info_t {
    let mut info = info;
    match change {
        "upper-case" => _hb_glyph_info_set_general_category(
            &mut info,
            GeneralCategory::UppercaseLetter,
        ),
        "nonspacing" => _hb_glyph_info_set_general_category(
            &mut info,
            GeneralCategory::NonspacingMark,
        ),
        "selector" => _hb_glyph_info_set_variation_selector(&mut info, true),
        "no-selector" => _hb_glyph_info_set_variation_selector(&mut info, false),
        "continued" => _hb_glyph_info_set_continuation(&mut info),
        _ => _hb_glyph_info_clear_default_ignorable(&mut info),
    }
    info
}

/// The class field after a class, and after a type of space, is written to it.
fn classes_after(info: hb_glyph_info_t) -> (u8, u8) {
    let mut mark = info;
    _hb_glyph_info_set_modified_combining_class(&mut mark, 230);
    let mut space = info;
    _hb_glyph_info_set_unicode_space_fallback_type(&mut space, 18);
    (
        mark.modified_combining_class,
        space.modified_combining_class,
    )
}

fn substituted(info: hb_glyph_info_t) -> hb_glyph_info_t {
    hb_glyph_info_t {
        glyph_props: GlyphPropsFlags::SUBSTITUTED,
        ..info
    }
}

/// What is asked, and a glyph with the word and the class that follow; the class is 7 where it isn't given.
fn asked(text: &str) -> Option<(&str, hb_glyph_info_t)> {
    let (question, words) = text.split_once(' ')?;
    let (word, class) = words.split_once(' ').unwrap_or((words, "7"));
    let word = u16::try_from(hexadecimal(word)?).ok()?;
    Some((question, record(word, class.parse::<u8>().ok()?)))
}

/// Whether a glyph with a word and a class is as a row says.
pub(crate) fn is_so(alloc: Global, row: &str) -> Result<bool, Fail> {
    let (question, answer) = row.split_once(": ").unwrap_or((row, ""));
    let Some((question, info)) = asked(question) else {
        return Ok(false);
    };
    match question {
        "word" => prints(alloc, &said(&info), answer),
        "category" => prints(alloc, &category_of(&info), answer),
        "classes" => prints(alloc, &classes_after(info), answer),
        "ignorable" => prints(alloc, &_hb_glyph_info_is_default_ignorable(&info), answer),
        "substituted" => prints(
            alloc,
            &_hb_glyph_info_is_default_ignorable(&substituted(info)),
            answer,
        ),
        change => Ok(hexadecimal(answer) == Some(u32::from(written(info, change).unicode_props.0))),
    }
}
