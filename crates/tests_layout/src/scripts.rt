//! Scripts, language systems and features of a layout table, and those of a text that are chosen.
use crate::rows::prints;
use buffer_common::tag::Tag;
use layout_face::Face;
use layout_tables::choice::LayoutTableExt;
use layout_tables::is_rising;
use layout_tables::script::{LangSys, LangSysRecord, ScriptRecord};
use layout_tables::table::ScriptsAndFeatures;
use std::alloc::{AllocError, Global};

pub(crate) fn tag(text: &str) -> Tag {
    Tag::from_bytes_lossy(text.as_bytes())
}

/// The tags of a text, separated by commas.
pub(crate) fn tags_of(alloc: Global, text: &str) -> Result<Vec<Tag>, AllocError> {
    let mut tags = Vec::new(alloc);
    for word in text.split_terminator(',') {
        tags.push(tag(word))?;
    }
    Ok(tags)
}

fn script(lists: &ScriptsAndFeatures, tag: Tag) -> Option<bool> {
    Some(lists.script(tag)?.tag() == tag)
}

fn latin(lists: &ScriptsAndFeatures) -> Option<&ScriptRecord> {
    lists.script(tag("latn"))
}

fn default_of(lists: &ScriptsAndFeatures) -> Option<&[u16]> {
    Some(latin(lists)?.default_lang_sys()?.features())
}

fn system_of(lists: &ScriptsAndFeatures, language: Tag) -> Option<(bool, &[u16], Option<u16>)> {
    let found = latin(lists)?.lang_sys(language)?;
    let system = found.lang_sys();
    Some((
        found.tag() == language,
        system.features(),
        system.required_feature(),
    ))
}

/// Whether language systems of the tags are in order.
fn are_rising(alloc: Global, tags: &[Tag]) -> Result<bool, AllocError> {
    let mut systems = Vec::new(alloc);
    for tag in tags {
        systems.push(LangSysRecord::new(*tag, LangSys::new(None, Vec::new(alloc))))?;
    }
    Ok(is_rising(&systems))
}

/// Whether the selected script, and whether it was requested, are as an answer says.
fn is_selected(lists: &ScriptsAndFeatures, wanted: &[Tag], answer: &str) -> bool {
    match (
        LayoutTableExt::select_script(lists, wanted),
        answer.split_once(' '),
    ) {
        (Some(selected), Some((way, script))) => {
            selected.found == (way == "requested") && selected.script.tag() == tag(script)
        }
        (None, None) => answer == "none",
        _ => false,
    }
}

fn first_feature(lists: &ScriptsAndFeatures, wanted: &[Tag]) -> Option<u16> {
    let system = lists.select_script_language(latin(lists)?, wanted)?;
    system.features().first().copied()
}

fn feature(lists: &ScriptsAndFeatures, index: u16) -> Option<(bool, &[u16])> {
    let feature = lists.feature(index)?;
    Some((feature.tag() == tag("liga"), feature.lookups()))
}

fn found_feature(
    alloc: Global,
    lists: &ScriptsAndFeatures,
    text: &str,
) -> Result<Option<u16>, AllocError> {
    let system = LangSys::new(Some(3), [9, 2, 1, 0].to_vec(alloc)?);
    Ok(LayoutTableExt::find_language_feature(lists, &system, tag(text)))
}

/// The required feature, and whether it is `ccmp`.
fn required_feature(
    alloc: Global,
    lists: &ScriptsAndFeatures,
    index: Option<u16>,
) -> Option<(u16, bool)> {
    let system = LangSys::new(index, Vec::new(alloc));
    let (index, found) = LayoutTableExt::get_required_language_feature(lists, &system)?;
    Some((index, found == tag("ccmp")))
}

fn lists_answer(
    alloc: Global,
    lists: &ScriptsAndFeatures,
    question: &str,
    words: &str,
    answer: &str,
) -> Result<bool, AllocError> {
    let tags = tags_of(alloc, words)?;
    match question {
        "script" => prints(alloc, &script(lists, tag(words)), answer),
        "default" => prints(alloc, &default_of(lists), answer),
        "system" => prints(alloc, &system_of(lists, tag(words)), answer),
        "rising" => prints(alloc, &are_rising(alloc, &tags)?, answer),
        "select" => Ok(is_selected(lists, &tags, answer)),
        "language" => prints(alloc, &first_feature(lists, &tags), answer),
        "feature" => prints(
            alloc,
            &feature(lists, words.parse::<u16>().unwrap_or(0)),
            answer,
        ),
        "find" => prints(alloc, &found_feature(alloc, lists, words)?, answer),
        "required" => prints(
            alloc,
            &required_feature(alloc, lists, words.parse::<u16>().ok()),
            answer,
        ),
        _ => Ok(false),
    }
}

/// Whether the answer of a font's GSUB table is that of a row.
pub(crate) fn answers(
    alloc: Global,
    font: &Face,
    question: &str,
    answer: &str,
) -> Result<bool, AllocError> {
    let (question, words) = question.split_once(' ').unwrap_or((question, ""));
    match font.gsub() {
        Some(table) => lists_answer(alloc, &table.inner, question, words, answer),
        None => Ok(false),
    }
}
