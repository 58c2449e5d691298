//! Parses the options and names among the command-line words of `kuspveli`.
ghost use Rattle.std.specs.Prelude.{◌≡◌, ◌≢◌, IfOk, IfErr, Ok, Err, codes, map, string_bytes};
ghost use Rattle.std.specs.Option.{option_map};
ghost use Rattle.clap.specs.Words.{found_of, first_value};
ghost use Rattle.shell_words.specs.Words.{digits_after, face_in, face_of_text, feature_values, font_request_of, font_settings_in, font_settings_of, no_text, printing_of, request_in, request_of};

use crate::command::kuspveli;
use crate::options::{is_given, read_name, read_values_of, refusal};
use clap::ArgMatches;
use shell_readers::fault::RunFault;
use shell_readers::options::Options;
use std::alloc::{AllocError, Global};
use std::convert::AsStr;

/// The options and the names among the command-line words of `kuspveli`.
#[derive(Drop)]
pub struct FontLine {
    /// The name of the font file.
    pub font: String,
    /// The index of the font in its file, 0 unless it is a collection.
    pub face: usize,
    /// The text; where there is none it is read from standard input.
    pub text: Option<String>,
    pub options: Options,
}

/// What the command-line words of `kuspveli` request.
#[derive(Drop)]
pub enum FontCommand {
    /// To shape a text in a font file.
    Shaping(FontLine),
    /// To print a font: the name of the font file, and the index of the font.
    Printing(String, usize),
    /// To say what the words are.
    Usage,
    /// To say which version it is.
    Version,
}

/// Parses the command-line words `kuspveli [options] FONT [TEXT]`, the first of which is the program's name. The options
/// are those of `hb_shape`, `--face N`, the index of a font in a collection, `--json`, `--help` and `--version`.
pub fn parse_font_options<'a, S: AsStr>(
    alloc: Global,
    words: &'a [S],
) -> Result<FontCommand, RunFault>
    ensures ok { IfOk result (λ c. font_request_of (map S.text words.entry.now) ≡ Ok (request_in c)) }
    ensures refused { IfErr result (λ e. e ≢ RunFault.OutOfMemory
        → font_request_of (map S.text words.entry.now) ≡ Err e) }
    ensures faults { IfErr result (λ e. e ≢ RunFault.OutOfMemory → e ≡ RunFault.Words) }
{
    match kuspveli(alloc)?.try_get_matches_from(words) {
        Ok(matches) => read_request(alloc, &matches),
        Err(error) => Err(refusal(error.kind())),
    }
}

fn read_request(alloc: Global, matches: &ArgMatches<'_>) -> Result<FontCommand, RunFault>
    ensures ok { IfOk result
        (λ c. request_of (first_value (found_of matches.now)) (feature_values (found_of matches.now))
        ≡ Ok (request_in c)) }
    ensures refused { IfErr result (λ e. e ≢ RunFault.OutOfMemory
        → request_of (first_value (found_of matches.now)) (feature_values (found_of matches.now)) ≡ Err e) }
{
    if is_given(matches, "help") {
        return Ok(FontCommand::Usage);
    }
    if is_given(matches, "version") {
        return Ok(FontCommand::Version);
    }
    if is_given(matches, "json") {
        return read_printing(alloc, matches);
    }
    Ok(FontCommand::Shaping(read_font_line(alloc, matches)?))
}

fn read_printing(alloc: Global, matches: &ArgMatches<'_>) -> Result<FontCommand, RunFault>
    ensures ok { IfOk result (λ c. printing_of (first_value (found_of matches.now)) ≡ Ok (request_in c)) }
    ensures refused { IfErr result (λ e. e ≢ RunFault.OutOfMemory
        → printing_of (first_value (found_of matches.now)) ≡ Err e) }
{
    let font = read_name(alloc, matches, "font")?;
    let face = read_face(matches)?;
    check_no_text(matches)?;
    Ok(FontCommand::Printing(font, face))
}

/// Refuses a text beside a font that is to be printed.
fn check_no_text(matches: &ArgMatches<'_>) -> Result<(), RunFault>
    ensures { result ≡ no_text (first_value (found_of matches.now)) }
{
    match matches.get_str("text") {
        Some(_) => Err(RunFault::Words),
        None => Ok(()),
    }
}

fn read_font_line(alloc: Global, matches: &ArgMatches<'_>) -> Result<FontLine, RunFault>
    ensures ok { IfOk result
        (λ o. font_settings_of (first_value (found_of matches.now)) (feature_values (found_of matches.now))
        ≡ Ok (font_settings_in o)) }
    ensures refused { IfErr result (λ e. e ≢ RunFault.OutOfMemory
        → font_settings_of (first_value (found_of matches.now)) (feature_values (found_of matches.now)) ≡ Err e) }
{
    let font = read_name(alloc, matches, "font")?;
    let face = read_face(matches)?;
    let options = read_values_of(alloc, matches)?;
    let text = read_text(alloc, matches)?;
    Ok(FontLine {
        font,
        face,
        text,
        options,
    })
}

/// The text among the words, if there is one.
fn read_text(alloc: Global, matches: &ArgMatches<'_>) -> Result<Option<String>, AllocError>
    ensures { IfOk result (λ t.
        option_map string_bytes t ≡ first_value (found_of matches.now) (codes "text")) }
{
    match matches.get_str("text") {
        Some(text) => Ok(Some(String::from_str(alloc, text)?)),
        None => Ok(None),
    }
}

fn read_face(matches: &ArgMatches<'_>) -> Result<usize, RunFault>
    ensures { result ≡ face_in (first_value (found_of matches.now)) }
{
    match matches.get_str("face") {
        Some(text) => face_of_text(text),
        None => Ok(0),
    }
}

/// The index of a font by a text of decimal digits.
fn face_of_text(text: &str) -> Result<usize, RunFault>
    ensures { result ≡ face_of_text text.now }
{
    if text.is_empty() {
        return Err(RunFault::Words);
    }
    digits(text.as_bytes())
}

/// The number that decimal digits write.
fn digits(digits: &[u8]) -> Result<usize, RunFault>
    ensures { result ≡ digits_after 0 digits.now }
{
    let mut number = 0;
    for digit in digits {
        if !digit.is_ascii_digit() || number > 6553 {
            return Err(RunFault::Words);
        }
        number = 10 * number + usize::from(digit - b'0');
    }
    Ok(number)
}
