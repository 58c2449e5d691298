//! Numbers of names.
use crate::rows::{asked, prints};
use script_categories::hb_ot_script_shaper_t::{
    self, HEBREW_SHAPER, INDIC_SHAPER, KHMER_SHAPER, MYANMAR_SHAPER, UNIVERSAL_SHAPER,
};
use script_categories::*;
use std::alloc::Global;
use std::test::Fail;

/// Of a shaper: the number of a kind of syllables and of a category by its name, and whether it has a kind or
/// reorders one; the kind of what is no cluster. The shaper of a machine; the numbers of names; the joining type of
/// a number, and whether one is of a stretching glyph.
pub(crate) static ROWS: &str = "\
kind indic consonant: Some(0)
kind indic non: Some(5)
kind indic virama: None
kind khmer broken: Some(1)
kind khmer vowel: None
kind myanmar non: Some(2)
kind myanmar non : None
kind universal number_joiner: Some(4)
kind universal broken: Some(8)
kind universal : None
kind universal Broken: None
kind hebrew non: None
has universal 9: true
has universal 15: false
has hebrew 0: false
category indic Repha: Some(15)
category universal Repha: None
reordered universal 6: true
reordered indic 3: false
non-cluster universal: 9
non-cluster hebrew: 0
machine myanmar: Some(MYANMAR_SHAPER)
machine thai: None
number indic ML: Some(34)
number indic QQ: None
number position END: Some(14)
number universal HR: Some(44)
number joining DALATH_RISH: Some(5)
number joining X: None
number thai RD: Some(3)
joining 6: Some(T)
joining 8: None
stretching 9: true";

fn shaper_of(name: &str) -> hb_ot_script_shaper_t {
    match name {
        "indic" => INDIC_SHAPER,
        "khmer" => KHMER_SHAPER,
        "myanmar" => MYANMAR_SHAPER,
        "universal" => UNIVERSAL_SHAPER,
        _ => HEBREW_SHAPER,
    }
}

fn number_of(list: &str, name: &str) -> Option<u8> {
    match list {
        "indic" => indic_category_number(name),
        "position" => indic_position_number(name),
        "universal" => universal_category_number(name),
        "joining" => joining_type_number(name),
        _ => thai_action_number(name),
    }
}

/// Whether a number is of a joining type, or of a stretching glyph, as an answer says.
fn is_of_number(alloc: Global, question: &str, number: u8, answer: &str) -> Result<bool, Fail> {
    match question {
        "joining" => prints(alloc, &joining_type_of_number(number), answer),
        _ => prints(alloc, &arabic_action_t::is_stch(number), answer),
    }
}

/// Whether a name has a number, or a shaper a kind, as a row says.
pub(crate) fn is_so(alloc: Global, row: &str) -> Result<bool, Fail> {
    let Some((question, words, answer)) = asked(row) else {
        return Ok(false);
    };
    let (word, name) = words.split_once(' ').unwrap_or((words, ""));
    let shaper = shaper_of(word);
    let number = name.parse::<u8>().unwrap_or(0);
    match question {
        "kind" => prints(alloc, &shaper.kind_number(name), answer),
        "has" => prints(alloc, &shaper.has_kind(number), answer),
        "category" => prints(alloc, &shaper.category_number(name), answer),
        "reordered" => prints(alloc, &shaper.is_reordered(number), answer),
        "non-cluster" => prints(alloc, &shaper.non_cluster_kind(), answer),
        "machine" => prints(alloc, &machine_shaper(word), answer),
        "number" => prints(alloc, &number_of(word, name), answer),
        _ => is_of_number(alloc, question, word.parse::<u8>()?, answer),
    }
}
