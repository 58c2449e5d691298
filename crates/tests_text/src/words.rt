//! Command-line words.
use crate::rows::{part, prints};
use buffer_common::direction::Direction;
use buffer_common::direction::Direction::{Invalid, LeftToRight, RightToLeft};
use buffer_common::script::{GREEK, INHERITED, LATIN, Script, UNKNOWN};
use buffer_common::tag::Tag;
use buffer_tags::feature::Feature;
use shell_readers::fault::RunFault;
use shell_readers::options::Options;
use shell_words::{CommandLine, parse_options};
use std::alloc::{AllocError, Global};
use std::test::Fail;

/// Command-line words, separated by bars, and what they set, or that they are refused. `options` has the direction, the
/// script, the serialize flags, the language and the name of the text's file: a language is any text but the empty one,
/// in lower case, and names may be anywhere among the options. `switches` are whether slices, lines and going on are
/// requested. Each of the features has a tag, a value, a start and an end.
pub(crate) static ROWS: &str = "\
hb_shape|--language=|a|b|c;refused
hb_shape|--language=en|--language=en|a|b|c;refused
hb_shape|--cluster-level=4|a|b|c;refused
hb_shape|--cluster-level=0|--cluster-level=0|a|b|c;refused
hb_shape|--eot|--eot|a|b|c;refused
hb_shape|--safe-breaks|--safe-breaks|a|b|c;refused
hb_shape|--safe-breaks=1|a|b|c;refused
hb_shape|--safe-break|a|b|c;refused
hb_shape|--no-clusters|--no-clusters|a|b|c;refused
hb_shape|--show-flags=1|a|b|c;refused
hb_shape|--slices|--slices|a|b|c;refused
hb_shape|--slices=1|a|b|c;refused
hb_shape|--lines|--slices|a|b|c;refused
hb_shape|--slices|--lines|--keep-going|a|b|c;refused
hb_shape|--keep-going|a|b|c;refused
hb_shape|--keep-going|--slices|a|b|c;refused
hb_shape|--lines|--lines|a|b|c;refused
hb_shape|--lines=1|a|b|c;refused
hb_shape|--keep-going=no|--lines|a|b|c;refused
hb_shape|--line|a|b|c;refused
hb_shape|--foo|a|b|c;refused
hb_shape|-x|a|b|c;refused
hb_shape|--direction=x|a|b|c;refused
hb_shape|--direction=|a|b|c;refused
hb_shape|--direction|a|b|c;refused
hb_shape|--script=|a|b|c;refused
hb_shape|--direction=1|a|b|c;refused
hb_shape|--direction= ltr|a|b|c;refused
hb_shape|--no-glyph-names|--no-glyph-names|a|b|c;refused
hb_shape|--script=Latn|--script=Latn|a|b|c;refused
hb_shape|--direction=l|--direction=r|a|b|c;refused
hb_shape|--no-glyph-names=1|a|b|c;refused
hb_shape|--no-glyph-names=|a|b|c;refused
hb_shape|--dir=l|a|b|c;refused
hb_shape|--scr=Latn|a|b|c;refused
hb_shape|--no-glyph|a|b|c;refused
hb_shape|--direction|-l|a|b|c;refused
hb_shape|--script|--direction=l|a|b|c;refused
hb_shape|--Direction=l|a|b|c;refused
hb_shape|more|a|b|c;refused
hb_shape|more|words|a|b|c;refused
hb_shape|--help|a|b|c;refused
hb_shape|-h|a|b|c;refused
hb_shape|--direction=l|--foo|a|b|c;refused
hb_shape|--foo=bar|a|b|c;refused
hb_shape|--features|a|b|c;refused
hb_shape|--features=|a|b|c;refused
hb_shape|--features=,|a|b|c;refused
hb_shape|--features=liga,|a|b|c;refused
hb_shape|--features=,liga|a|b|c;refused
hb_shape|--features=liga,,kern|a|b|c;refused
hb_shape|--features|-liga|a|b|c;refused
hb_shape|--features=liga,ligatures|a|b|c;refused
hb_shape|--features=-liga|--features=|a|b|c;refused
hb_shape|--features=liga|--features=kern1|a|b|c;refused
hb_shape|--features='liga|a|b|c;refused
hb_shape;refused
hb_shape|a|b;refused
hb_shape|--no-clusters|a|b|c;options;;;1;;c
hb_shape|--no-positions|a|b|c;options;;;2;;c
hb_shape|--show-extents|a|b|c;options;;;8;;c
hb_shape|--show-flags|a|b|c;options;;;16;;c
hb_shape|--no-advances|a|b|c;options;;;32;;c
hb_shape|--show-flags|--no-advances|--no-glyph-names|--show-extents|--no-positions|--no-clusters|a|b|c;options;;;63;;c
hb_shape|a|b|c;options;;;0;;c
hb_shape|--no-glyph-names|a|b|c;options;;;4;;c
hb_shape|--direction=rtl|a|b|c;options;rtl;;0;;c
hb_shape|--direction=Rtl|a|b|c;options;rtl;;0;;c
hb_shape|--direction|left|a|b|c;options;ltr;;0;;c
hb_shape|--direction=LTR|--no-glyph-names|a|b|c;options;ltr;;4;;c
hb_shape|--script=Grek|a|b|c;options;;Grek;0;;c
hb_shape|--script|Grek|--direction|r|a|b|c;options;rtl;Grek;0;;c
hb_shape|--script=lAtN|a|b|c;options;;Latn;0;;c
hb_shape|--script=Latnfoo|a|b|c;options;;Latn;0;;c
hb_shape|--script=qaai|a|b|c;options;;Zinh;0;;c
hb_shape|--script=La n|a|b|c;options;;Zzzz;0;;c
hb_shape|--script=?|a|b|c;options;;Zzzz;0;;c
hb_shape|--script=é|a|b|c;options;;Zzzz;0;;c
hb_shape|--language=en|a|b|c;options;;;0;en;c
hb_shape|--language|de-CH|a|b|c;options;;;0;de-ch;c
hb_shape|a|--language=X-HBOT|b|c;options;;;0;x-hbot;c
hb_shape|a|b|-;options;;;0;;-
hb_shape|--lines|a|b|-;options;;;0;;-
hb_shape|a|b|--|-c;options;;;0;;-c
hb_shape|a|--direction=l|b|--|-c;options;ltr;;0;;-c
x|--|a|b|-c;options;;;0;;-c
hb_shape|a|b|c;switches;[false, false, false]
hb_shape|--show-flags|--no-advances|a|b|c;switches;[false, false, false]
hb_shape|--slices|a|b|c;switches;[true, false, false]
hb_shape|a|b|--slices|c;switches;[true, false, false]
hb_shape|--show-flags|--slices|--direction=r|a|b|c;switches;[true, false, false]
hb_shape|--lines|a|b|c;switches;[false, true, false]
hb_shape|--keep-going|a|b|--lines|c;switches;[false, true, true]
hb_shape|a|b|c;buffer flags;0
hb_shape|--bot|a|b|c;buffer flags;1
hb_shape|--eot|a|b|c;buffer flags;2
hb_shape|--preserve-default-ignorables|a|b|c;buffer flags;4
hb_shape|--remove-default-ignorables|a|b|c;buffer flags;8
hb_shape|--no-dotted-circle|a|b|c;buffer flags;16
hb_shape|--unsafe-to-concat|a|b|c;buffer flags;64
hb_shape|--safe-to-insert-tatweel|a|b|c;buffer flags;128
hb_shape|--safe-breaks|a|b|c;buffer flags;256
hb_shape|a|b|--unsafe-to-concat|c|--safe-breaks;buffer flags;320
hb_shape|--safe-breaks|--safe-to-insert-tatweel|--unsafe-to-concat|--no-dotted-circle\
    |--remove-default-ignorables|--preserve-default-ignorables|--eot|--bot|a|b|c;buffer flags;479
hb_shape|a|b|c;features;
hb_shape|--features=-liga|a|b|c;features;liga 0 0 4294967295,
hb_shape|--features|liga|a|b|c;features;liga 1 0 4294967295,
hb_shape|--features= +liga ,kern=2,liga off|a|b\
    |c;features;liga 1 0 4294967295,kern 2 0 4294967295,liga 0 0 4294967295,
hb_shape|--features=-liga[3:5]|a|b|c;features;liga 0 3 5,
hb_shape|--features=kern=2|--features=liga|a|b|c;features;kern 2 0 4294967295,liga 1 0 4294967295,
hb_shape|--features=liga,-liga|--direction=l|--features|kern 2|a|b\
    |c;features;liga 1 0 4294967295,liga 0 0 4294967295,kern 2 0 4294967295,";

fn command_line(alloc: Global, line: &str) -> Result<Result<CommandLine, RunFault>, AllocError> {
    let words: Vec<&str> = line.split('|').collect(alloc)?;
    Ok(parse_options(alloc, &words))
}

fn is_refused(fault: RunFault) -> Result<bool, AllocError> {
    match fault {
        RunFault::OutOfMemory => Err(AllocError),
        fault => Ok(fault == RunFault::Words),
    }
}

fn direction_of(name: &str) -> Direction {
    match name {
        "ltr" => LeftToRight,
        "rtl" => RightToLeft,
        _ => Invalid,
    }
}

fn script_of(tag: &str) -> Option<Script> {
    match tag {
        "Grek" => Some(GREEK),
        "Latn" => Some(LATIN),
        "Zinh" => Some(INHERITED),
        "Zzzz" => Some(UNKNOWN),
        _ => None,
    }
}

fn language_of(options: &Options) -> &str {
    match &options.language {
        Some(language) => language.as_str(),
        None => "",
    }
}

fn are_set(options: &Options, row: &str) -> [bool; 4] {
    [
        options.direction == direction_of(part(row, 2)),
        options.script == script_of(part(row, 3)),
        part(row, 4).parse::<u8>() == Ok(options.flags.0),
        language_of(options) == part(row, 5),
    ]
}

fn are_named(found: &CommandLine, text: &str) -> [bool; 3] {
    [
        found.tables.as_str() == "a",
        found.font.as_str() == "b",
        found.text.as_str() == text,
    ]
}

fn features_text(alloc: Global, features: &[Feature]) -> Result<String, AllocError> {
    let mut text = String::new(alloc);
    for feature in features {
        for byte in feature.tag.to_bytes() {
            text.push(char::from(byte))?;
        }
        let Feature {
            value,
            start,
            end,
            ..
        } = *feature;
        text.push_str(&format!(in alloc; " {value} {start} {end},")?)?;
    }
    Ok(text)
}

fn is_set(alloc: Global, found: &CommandLine, row: &str) -> Result<bool, Fail> {
    let options = &found.options;
    let answer = part(row, 2);
    match part(row, 1) {
        "options" => {
            Ok(are_set(options, row) == [true; 4] && are_named(found, part(row, 6)) == [true; 3])
        }
        "switches" => prints(
            alloc,
            &[options.slices, options.lines, options.keep_going],
            answer,
        ),
        "buffer flags" => prints(alloc, &options.buffer_flags.0, answer),
        "features" => Ok(features_text(alloc, options.features.as_slice())?.as_str() == answer),
        _ => Ok(false),
    }
}

/// Whether words are read as a row says.
pub(crate) fn is_so(alloc: Global, row: &str) -> Result<bool, Fail> {
    match command_line(alloc, part(row, 0))? {
        Ok(found) => is_set(alloc, &found, row),
        Err(fault) => Ok(is_refused(fault)? && part(row, 1) == "refused"),
    }
}

fn long_line(alloc: Global) -> Result<String, AllocError> {
    let mut line = String::from_str(alloc, "hb_shape|--features=kern=2")?;
    for _ in 1..70_000u32 {
        line.push_str(",liga")?;
    }
    line.push_str("|a|b|c")?;
    Ok(line)
}

const fn request(text: &[u8; 4], value: u32) -> Feature {
    Feature {
        tag: Tag::from_bytes(text),
        value,
        start: 0,
        end: u32::MAX,
    }
}

fn are_many(features: &[Feature]) -> bool {
    features.len() == 70_000
        && features.first() == Some(&request(b"kern", 2))
        && features.last() == Some(&request(b"liga", 1))
}

fn has_many_features(alloc: Global, line: &str) -> Result<bool, Fail> {
    let found = command_line(alloc, line)??;
    Ok(are_many(found.options.features.as_slice()))
}

// A value of more than 65,536 features.
#[test]
fn many_features_are_read(rt: HostRuntime) -> Result<(), Fail> {
    let line = long_line(rt.alloc())?;
    let are_read = has_many_features(rt.alloc(), &line)?;
    assert!(rt; are_read);
    Ok(())
}
