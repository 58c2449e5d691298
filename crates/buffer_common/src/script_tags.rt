//! The OpenType tags of a script and a language (rustybuzz: hb/tag.rs, `tags_from_script_and_language`).
ghost use Rattle.std.specs.Prelude.{◌≡◌, ◌<◌, ◌++◌, option_to_list};
ghost use Rattle.std.specs.Option.{option_copied};
ghost use Rattle.arrayvec.specs.ArrayVec.{array_vec_len};
ghost use Rattle.buffer_common.specs.ScriptTags.{tag_of_row, newest_tag, new_tag, old_tag, wanted_tags, wanted_language_tags};

use crate::language::Language;
use crate::language_tags::LanguageTags;
use crate::script::*;
use crate::tag::{Tag, tag};
use arrayvec::ArrayVec;

/// The OpenType tags by which a script and a language are looked up, those wanted most first.
pub fn tags_from_script_and_language<L: LanguageTags>(
    script: Option<Script>,
    language: Option<&Language>,
    languages: &L,
) -> (ArrayVec<Tag, 3>, ArrayVec<Tag, 3>)
    ensures scripts { result.0.items ≡ wanted_tags script }
    ensures languages { result.1.items ≡ wanted_language_tags (L.tags_of languages.now) (option_copied language.entry) }
{
    let language_tags = match language {
        Some(language) => languages.tags(language.as_str()),
        None => ArrayVec::new(),
    };
    (script_tags(script), language_tags)
}

/// The OpenType tags of a script, those of newer shaping models first; none where the text has no script.
pub fn script_tags(script: Option<Script>) -> ArrayVec<Tag, 3>
    ensures { result.items ≡ wanted_tags script }
{
    let mut tags = ArrayVec::new();
    let Some(script) = script else {
        return tags;
    };
    push_some(&mut tags, newest_tag(script));
    push_some(&mut tags, new_tag(script));
    push_some(&mut tags, old_tag(script));
    tags
}

fn push_some(tags: &mut ArrayVec<Tag, 3>, tag: Option<Tag>)
    requires { array_vec_len tags.old < 3 }
    ensures { tags.new.items ≡ tags.old.items ++ option_to_list tag }
{
    if let Some(tag) = tag {
        tags.push(tag);
    }
}

/// The tag of a third shaping model, which ends in 3.
fn newest_tag(script: Script) -> Option<Tag>
    ensures { result ≡ newest_tag script }
{
    if script == MYANMAR {
        return None;
    }
    let [first, second, third, _] = new_tag(script)?.to_bytes();
    Some(Tag::from_bytes(&[first, second, third, b'3']))
}

fn new_tag(script: Script) -> Option<Tag>
    ensures { result ≡ new_tag script }
{
    tag_of_row(&NEW_TAGS, script)
}

fn old_tag(script: Script) -> Option<Tag>
    ensures { result ≡ old_tag script }
{
    if WITHOUT_TAG.contains(&script) {
        return None;
    }
    let [first, second, third, fourth] = script.tag().to_bytes();
    let small = Tag::from_bytes(&[first.to_ascii_lowercase(), second, third, fourth]);
    Some(tag_of_row(&OLD_TAGS, script).unwrap_or(small))
}

fn tag_of_row(rows: &[(Script, Tag)], script: Script) -> Option<Tag>
    ensures { result ≡ tag_of_row rows.now script }
{
    let row = rows.iter().find(|row| row.0 == script)?;
    Some(row.1)
}

const NEW_TAGS: [(Script, Tag); 10] = [
    (BENGALI, tag!(b"bng2")),
    (DEVANAGARI, tag!(b"dev2")),
    (GUJARATI, tag!(b"gjr2")),
    (GURMUKHI, tag!(b"gur2")),
    (KANNADA, tag!(b"knd2")),
    (MALAYALAM, tag!(b"mlm2")),
    (ORIYA, tag!(b"ory2")),
    (TAMIL, tag!(b"tml2")),
    (TELUGU, tag!(b"tel2")),
    (MYANMAR, tag!(b"mym2")),
];

/// OpenType's older tags of the scripts for which they are not the script's own tag in small letters.
const OLD_TAGS: [(Script, Tag); 6] = [
    (HIRAGANA, tag!(b"kana")),
    (LAO, tag!(b"lao ")),
    (YI, tag!(b"yi  ")),
    (NKO, tag!(b"nko ")),
    (VAI, tag!(b"vai ")),
    (SCRIPT_MATH, tag!(b"math")),
];

const WITHOUT_TAG: [Script; 3] = [COMMON, INHERITED, UNKNOWN];
