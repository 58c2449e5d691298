//! Parses the options among the command-line words.

ghost use Rattle.std.specs.Prelude.{◌≡◌, ◌≢◌, ◌≤◌, IfOk, IfErr, OnOk, Ok, Err, map, string_bytes};
ghost use Rattle.buffer_tags.specs.FeatureText.{feature_of_text};
ghost use Rattle.clap.specs.Words.{found_of, first_value};
ghost use Rattle.shell_words.specs.Words.{options_of, refusal_of, settings_of, settings_in, option_values, values_of, file_in, direction_in, script_in, flag_of, flags_in, feature_values, features_in, features_of, pieces_of, after, or_words, language_in, language_of_text, level_in, level_of_text, buffer_flags_in, consistent, is_given, printing_in};
ghost use Rattle.std.specs.Option.{option_map};
ghost use Rattle.buffer_common.specs.Language.{language_text};

use crate::command::hb_shape;
use buffer_common::constants::BufferFlags;
use buffer_common::direction::Direction;
use buffer_common::language::{Language, LanguageFault};
use buffer_common::script::Script;
use buffer_glyphs::flags::SerializeFlags;
use buffer_glyphs::level::BufferClusterLevel;
use buffer_tags::feature::Feature;
use clap::ArgMatches;
use clap::error::ErrorKind;
use shell_readers::fault::RunFault;
use shell_readers::options::Options;
use std::alloc::{AllocError, Global};
use std::convert::AsStr;
use std::str::FromStr;

/// The options and the file names among the command-line words.
#[derive(Drop)]
pub struct CommandLine {
    /// The name of the file of the tables.
    pub tables: String,
    /// The name of the file of the font.
    pub font: String,
    /// The name of the file of the text.
    pub text: String,
    pub options: Options,
}

/// Parses the command-line words `hb_shape [options] TABLES FONT TEXT`, the first of which is the program's name. The
/// options may be anywhere among the names of the files, each at most once: `--direction D`, `--script S`, `--language
/// L`, `--cluster-level 0` to `3`; for the text `--bot`, `--eot`, `--preserve-default-ignorables`,
/// `--remove-default-ignorables`, `--no-dotted-circle`, `--unsafe-to-concat`, `--safe-to-insert-tatweel` and
/// `--safe-breaks`; for the
/// output `--no-clusters`, `--no-positions`, `--no-glyph-names`, `--show-extents`, `--show-flags`, `--no-advances` and
/// `--slices`, or `--lines` and with it `--keep-going`. Only `--features F` may be repeated; each F is features separated by
/// commas. All other words, `--help` among them, are refused, and so are `--slices` with `--lines` and `--keep-going`
/// without it.
pub fn parse_options<'a, S: AsStr>(alloc: Global, words: &'a [S]) -> Result<CommandLine, RunFault>
    ensures ok { IfOk result (λ o. options_of (map S.text words.entry.now) ≡ Ok (settings_in o)) }
    ensures refused { IfErr result (λ e. e ≢ RunFault.OutOfMemory
        → options_of (map S.text words.entry.now) ≡ Err e) }
    ensures faults { IfErr result (λ e. e ≢ RunFault.OutOfMemory → e ≡ RunFault.Words) }
{
    match hb_shape(alloc)?.try_get_matches_from(words) {
        Ok(matches) => read_options(alloc, &matches),
        Err(error) => Err(refusal(error.kind())),
    }
}

pub(crate) fn refusal(kind: ErrorKind) -> RunFault
    ensures { result ≡ refusal_of kind }
{
    match kind {
        ErrorKind::OutOfMemory => RunFault::OutOfMemory,
        _ => RunFault::Words,
    }
}

fn read_options(alloc: Global, matches: &ArgMatches<'_>) -> Result<CommandLine, RunFault>
    ensures ok { IfOk result
        (λ o. settings_of (first_value (found_of matches.now)) (feature_values (found_of matches.now))
        ≡ Ok (settings_in o)) }
    ensures refused { IfErr result (λ e. e ≢ RunFault.OutOfMemory
        → settings_of (first_value (found_of matches.now)) (feature_values (found_of matches.now)) ≡ Err e) }
{
    let tables = read_name(alloc, matches, "tables")?;
    let font = read_name(alloc, matches, "font")?;
    let text = read_name(alloc, matches, "text")?;
    let options = read_values_of(alloc, matches)?;
    Ok(CommandLine {
        tables,
        font,
        text,
        options,
    })
}

/// Reads the options, without the names beside them.
pub(crate) fn read_values_of(alloc: Global, matches: &ArgMatches<'_>) -> Result<Options, RunFault>
    ensures ok { IfOk result
        (λ o. option_values (first_value (found_of matches.now)) (feature_values (found_of matches.now))
        ≡ Ok (values_of o)) }
    ensures refused { IfErr result (λ e. e ≢ RunFault.OutOfMemory
        → option_values (first_value (found_of matches.now)) (feature_values (found_of matches.now)) ≡ Err e) }
{
    let direction = read_direction(matches)?;
    let script = read_script(matches)?;
    let language = read_language(alloc, matches)?;
    let features = read_features(alloc, matches)?;
    let cluster_level = read_level(matches)?;
    let printing = read_printing(matches)?;
    Ok(Options {
        direction,
        script,
        language,
        features,
        cluster_level,
        buffer_flags: read_buffer_flags(matches),
        flags: read_flags(matches),
        slices: printing.slices,
        lines: printing.lines,
        keep_going: printing.keep_going,
    })
}

pub(crate) fn read_name(
    alloc: Global,
    matches: &ArgMatches<'_>,
    id: &str,
) -> Result<String, RunFault>
    ensures ok { IfOk result (λ s. file_in id.now (first_value (found_of matches.now)) ≡ Ok (string_bytes s)) }
    ensures refused { IfErr result (λ e. e ≢ RunFault.OutOfMemory
        → file_in id.now (first_value (found_of matches.now)) ≡ Err e) }
{
    match matches.get_str(id) {
        Some(name) => Ok(String::from_str(alloc, name)?),
        None => Err(RunFault::Words),
    }
}

fn read_direction(matches: &ArgMatches<'_>) -> Result<Direction, RunFault>
    ensures { result ≡ direction_in (first_value (found_of matches.now)) }
{
    let Some(text) = matches.get_str("direction") else {
        return Ok(Direction::Invalid);
    };
    Direction::from_str(text).map_err(|_| RunFault::Words)
}

fn read_script(matches: &ArgMatches<'_>) -> Result<Option<Script>, RunFault>
    ensures { result ≡ script_in (first_value (found_of matches.now)) }
{
    let Some(text) = matches.get_str("script") else {
        return Ok(None);
    };
    match Script::from_str(text) {
        Ok(script) => Ok(Some(script)),
        Err(_) => Err(RunFault::Words),
    }
}

fn read_language(alloc: Global, matches: &ArgMatches<'_>) -> Result<Option<Language>, RunFault>
    ensures ok { IfOk result (λ l.
        language_in (first_value (found_of matches.now)) ≡ Ok (option_map language_text l)) }
    ensures refused { IfErr result (λ e. e ≢ RunFault.OutOfMemory
        → language_in (first_value (found_of matches.now)) ≡ Err e) }
{
    match matches.get_str("language") {
        Some(text) => Ok(Some(language(alloc, text)?)),
        None => Ok(None),
    }
}

fn language(alloc: Global, text: &str) -> Result<Language, RunFault>
    ensures ok { IfOk result (λ l. language_of_text text.now ≡ Ok (Some (language_text l))) }
    ensures refused { IfErr result (λ e. e ≢ RunFault.OutOfMemory → language_of_text text.now ≡ Err e) }
{
    match Language::from_str(alloc, text) {
        Ok(language) => Ok(language),
        Err(LanguageFault::Invalid) => Err(RunFault::Words),
        Err(LanguageFault::OutOfMemory) => Err(RunFault::OutOfMemory),
    }
}

fn read_level(matches: &ArgMatches<'_>) -> Result<BufferClusterLevel, RunFault>
    ensures { result ≡ level_in (first_value (found_of matches.now)) }
{
    match matches.get_str("cluster-level") {
        Some(text) => level(text),
        None => Ok(BufferClusterLevel::MonotoneGraphemes),
    }
}

fn level(text: &str) -> Result<BufferClusterLevel, RunFault>
    ensures { result ≡ level_of_text text.now }
{
    if text == "0" {
        Ok(BufferClusterLevel::MonotoneGraphemes)
    } else if text == "1" {
        Ok(BufferClusterLevel::MonotoneCharacters)
    } else if text == "2" {
        Ok(BufferClusterLevel::Characters)
    } else if text == "3" {
        Ok(BufferClusterLevel::Graphemes)
    } else {
        Err(RunFault::Words)
    }
}

fn read_features(alloc: Global, matches: &ArgMatches<'_>) -> Result<Vec<Feature>, RunFault>
    ensures ok { IfOk result (λ v. features_in (feature_values (found_of matches.now)) ≡ Ok v.items) }
    ensures refused { IfErr result
        (λ e. e ≢ RunFault.OutOfMemory → features_in (feature_values (found_of matches.now)) ≡ Err e) }
{
    match matches.get_strs("features") {
        Some(values) => read_values(alloc, values),
        None => Ok(Vec::new(alloc)),
    }
}

fn read_values(alloc: Global, values: &[&str]) -> Result<Vec<Feature>, RunFault>
    ensures ok { IfOk result (λ v. features_in (map (λ t. t.now) values.now) ≡ Ok v.items) }
    ensures refused { IfErr result (λ e. e ≢ RunFault.OutOfMemory
        → features_in (map (λ t. t.now) values.now) ≡ Err e) }
{
    let mut features = Vec::new(alloc);
    for value in values {
        add_features(alloc, &mut features, value)?;
    }
    Ok(features)
}

/// Adds the features of a value, separated by commas.
fn add_features(alloc: Global, features: &mut Vec<Feature>, value: &str) -> Result<(), RunFault>
    ensures ok { OnOk result (after features.old.items (features_of (pieces_of value.now)) ≡ Ok features.new.items) }
    ensures refused { IfErr result (λ e. e ≢ RunFault.OutOfMemory
        → after features.old.items (features_of (pieces_of value.now)) ≡ Err e) }
{
    let parts = split_at_commas(alloc, value)?;
    for part in &parts {
        features.push(read_feature(part)?)?;
    }
    Ok(())
}

fn split_at_commas<'a>(alloc: Global, text: &'a str) -> Result<Vec<&'a str>, AllocError>
    ensures { IfOk result (λ v. map (λ t. t.now) v.items ≡ pieces_of text.entry.now) }
{
    text.split(',').collect(alloc)
}

fn read_feature(text: &str) -> Result<Feature, RunFault>
    ensures { result ≡ or_words (feature_of_text text.now) }
{
    Feature::from_str(text).map_err(|_| RunFault::Words)
}

fn read_flags(matches: &ArgMatches<'_>) -> SerializeFlags
    ensures { result ≡ flags_in (first_value (found_of matches.now)) }
{
    SerializeFlags(
        flag_of(matches, "no-clusters", SerializeFlags::NO_CLUSTERS)
            + (flag_of(matches, "no-positions", SerializeFlags::NO_POSITIONS)
                + (flag_of(matches, "no-glyph-names", SerializeFlags::NO_GLYPH_NAMES)
                    + (flag_of(matches, "show-extents", SerializeFlags::GLYPH_EXTENTS)
                        + (flag_of(matches, "show-flags", SerializeFlags::GLYPH_FLAGS)
                            + flag_of(matches, "no-advances", SerializeFlags::NO_ADVANCES))))),
    )
}

/// Which of the switches are given that say what is printed of a text.
#[derive(Clone, Copy)]
pub(crate) struct Printing {
    /// Its slices too.
    slices: bool,
    /// Each of its lines by itself.
    lines: bool,
    /// Lines that are refused by name, and the others.
    keep_going: bool,
}

fn read_printing(matches: &ArgMatches<'_>) -> Result<Printing, RunFault>
    ensures { result ≡ printing_in (first_value (found_of matches.now)) }
{
    consistent(Printing {
        slices: is_given(matches, "slices"),
        lines: is_given(matches, "lines"),
        keep_going: is_given(matches, "keep-going"),
    })
}

/// The switches, unless they contradict each other: slices are those of a whole text, and only
/// a run over lines keeps going.
fn consistent(printing: Printing) -> Result<Printing, RunFault>
    ensures { result ≡ consistent printing }
{
    let is_consistent = if printing.lines {
        !printing.slices
    } else {
        !printing.keep_going
    };
    if is_consistent {
        Ok(printing)
    } else {
        Err(RunFault::Words)
    }
}

/// Whether a switch is given.
pub(crate) fn is_given(matches: &ArgMatches<'_>, id: &str) -> bool
    ensures { result ≡ is_given id.now (first_value (found_of matches.now)) }
{
    matches.get_str(id) == Some("true")
}

fn read_buffer_flags(matches: &ArgMatches<'_>) -> BufferFlags
    ensures { result ≡ buffer_flags_in (first_value (found_of matches.now)) }
{
    BufferFlags(
        buffer_flag_of(matches, "bot", BufferFlags::BEGINNING_OF_TEXT)
            + (buffer_flag_of(matches, "eot", BufferFlags::END_OF_TEXT)
                + (buffer_flag_of(
                    matches,
                    "preserve-default-ignorables",
                    BufferFlags::PRESERVE_DEFAULT_IGNORABLES,
                ) + (buffer_flag_of(
                    matches,
                    "remove-default-ignorables",
                    BufferFlags::REMOVE_DEFAULT_IGNORABLES,
                ) + (buffer_flag_of(
                    matches,
                    "no-dotted-circle",
                    BufferFlags::DO_NOT_INSERT_DOTTED_CIRCLE,
                ) + (buffer_flag_of(
                    matches,
                    "unsafe-to-concat",
                    BufferFlags::PRODUCE_UNSAFE_TO_CONCAT,
                ) + (buffer_flag_of(
                    matches,
                    "safe-to-insert-tatweel",
                    BufferFlags::PRODUCE_SAFE_TO_INSERT_TATWEEL,
                ) + buffer_flag_of(matches, "safe-breaks", BufferFlags::PRODUCE_SAFE_BREAKS))))))),
    )
}

/// The buffer flag where its switch is given, else none.
fn buffer_flag_of(matches: &ArgMatches<'_>, id: &str, flag: BufferFlags) -> u32
    ensures value { result ≡ flag_of id.now flag.0 (first_value (found_of matches.now)) }
    ensures below { result ≤ flag.0 }
{
    if is_given(matches, id) { flag.0 } else { 0 }
}

/// The serialize flag where its switch is given, else none.
fn flag_of(matches: &ArgMatches<'_>, id: &str, flag: SerializeFlags) -> u8
    ensures value { result ≡ flag_of id.now flag.0 (first_value (found_of matches.now)) }
    ensures below { result ≤ flag.0 }
{
    if is_given(matches, id) { flag.0 } else { 0 }
}
