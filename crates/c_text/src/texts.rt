//! The text that C passes becomes a buffer to be shaped.
ghost use Rattle.std.specs.Prelude.{⊤, ◌≡◌, ◌≢◌, IfOk, IfErr, MatchOption, None, Ok, OnOk, Some, reverse, take, true, false};
ghost use Rattle.std.specs.Str.{chars};
ghost use Rattle.buffer_core.specs.Sides.{empty_buffer, with_added};
ghost use Rattle.buffer_core.specs.Text.{added_text, fits_text};
ghost use Rattle.buffer_wrappers.specs.Wrappers.{IsText};
ghost use Rattle.c_text.specs.Texts.{IsLanguage, IsTextIn, IsTextOf, are_utf8, buffer_between, fault_in, feature_of, features_of, set_buffer, text_fault};

use crate::numbers::{
    direction_numbered, encoding_numbered, level_numbered, requests_numbered, script_numbered,
};
use crate::types::{kus_feature_t, kus_text_t};
use buffer_common::language::Language;
use buffer_common::tag::Tag;
use buffer_core::buffer::hb_buffer_t;
use buffer_glyphs::cause::ShapeCause;
use buffer_tags::feature::Feature;
use c_characters::characters::Encoding;
use c_characters::contexts::{first_characters, last_characters};
use c_characters::push::push_characters;
use shell_readers::fault::RunFault;
use shell_readers::values::utf8;
use std::alloc::{AllocError, Global};

/// The bytes of a text, of the texts around it and of its language, as texts.
#[derive(Clone, Copy)]
struct Strings<'a> {
    text: &'a str,
    before: &'a str,
    after: &'a str,
    language: &'a str,
}

fn feature_of(feature: &kus_feature_t) -> Feature
    ensures { result ≡ feature_of feature.now }
{
    Feature {
        tag: Tag(feature.tag),
        value: feature.value,
        start: feature.start,
        end: feature.end,
    }
}

/// The requests for features of a text.
pub fn features_of(alloc: Global, text: &kus_text_t<'_>) -> Result<Vec<Feature>, AllocError>
    ensures { IfOk result (λ features. features.items ≡ features_of text.now) }
{
    text.features.iter().map(feature_of).collect(alloc)
}

fn utf8_strings<'a>(text: &kus_text_t<'a>) -> Option<Strings<'a>>
    ensures some { MatchOption result (are_utf8 text.now ≡ false) (λ s. are_utf8 text.now ≡ true) }
    ensures text { MatchOption result ⊤ (λ s. s.text.now ≡ text.now.text.now) }
    ensures before { MatchOption result ⊤ (λ s. s.before.now ≡ text.now.before.now) }
    ensures after { MatchOption result ⊤ (λ s. s.after.now ≡ text.now.after.now) }
    ensures language { MatchOption result ⊤ (λ s. s.language.now ≡ text.now.language.now) }
{
    let language = utf8(text.language)?;
    let before = utf8(text.before)?;
    let after = utf8(text.after)?;
    let text = utf8(text.text)?;
    Some(Strings {
        text,
        before,
        after,
        language,
    })
}

fn language_of(alloc: Global, tag: &str) -> Result<Option<Language>, RunFault>
    ensures ok { IfOk result (IsLanguage tag.now) }
    ensures refused { IfErr result (λ e. e ≡ RunFault.OutOfMemory) }
{
    if tag.is_empty() {
        return Ok(None);
    }
    match Language::from_str(alloc, tag) {
        Ok(language) => Ok(Some(language)),
        Err(_) => Err(RunFault::OutOfMemory),
    }
}

/// Sets in an empty buffer what a text sets, and the characters around it.
#[tactic(auto, using(crate::proofs::Putting::between_is_text))]
fn put_settings(
    text: &kus_text_t<'_>,
    before: &str,
    after: &str,
    language: Option<Language>,
    buffer: &mut hb_buffer_t,
)
    requires { buffer.old ≡ empty_buffer }
    ensures set { buffer.new
        ≡ buffer_between text.now (take 5 (reverse (chars before.now))) (take 5 (chars after.now)) language }
    ensures text { IsText buffer.new }
{
    buffer.set_cluster_level(level_numbered(text.cluster_level));
    buffer.set_flags(requests_numbered(text.flags));
    buffer.set_direction(direction_numbered(text.direction));
    buffer.set_script(script_numbered(text.script));
    buffer.set_language(language);
    buffer.set_pre_context(before);
    buffer.set_post_context(after);
}

/// Appends characters to a buffer that holds characters alone; answers false, and appends none, where there are too many.
#[tactic(auto, using(buffer_wrappers::proofs::Characters::text_characters, buffer_wrappers::proofs::Characters::text_grown))]
fn push_text(buffer: &mut hb_buffer_t, text: &str) -> Result<bool, AllocError>
    requires { IsText buffer.old }
    ensures held { IfOk result (λ b. b ≡ fits_text text.now buffer.old) }
    ensures added { result ≡ Ok true → buffer.new ≡ with_added (added_text text.now) buffer.old }
    ensures text { IsText buffer.new }
{
    buffer.push_str(text)
}

/// Puts a text of UTF-8 into an empty buffer.
fn put_utf8(alloc: Global, text: &kus_text_t<'_>, buffer: &mut hb_buffer_t) -> Result<(), RunFault>
    requires { buffer.old ≡ empty_buffer }
    ensures ok { OnOk result (IsTextIn None text.now buffer.new) }
    ensures characters { OnOk result (IsText buffer.new) }
    ensures refused { IfErr result (λ e. e ≢ RunFault.OutOfMemory → fault_in None text.now ≡ Some e) }
{
    let Some(strings) = utf8_strings(text) else {
        return Err(RunFault::NotUtf8);
    };
    let language = language_of(alloc, strings.language)?;
    put_settings(text, strings.before, strings.after, language, buffer);
    if !push_text(buffer, strings.text)? {
        return Err(RunFault::Shape(ShapeCause::TooLong));
    }
    Ok(())
}

/// Sets in an empty buffer what a text in an encoding sets.
#[tactic(auto, using(crate::proofs::Putting::between_encoded))]
fn put_encoded_settings(
    alloc: Global,
    encoding: Encoding,
    text: &kus_text_t<'_>,
    language: Option<Language>,
    buffer: &mut hb_buffer_t,
) -> Result<(), AllocError>
    requires { buffer.old ≡ empty_buffer }
    ensures set { OnOk result (buffer.new ≡ set_buffer (Some encoding) text.now language) }
    ensures text { OnOk result (IsText buffer.new) }
{
    let before = last_characters(alloc, encoding.around(), text.before)?;
    let after = first_characters(alloc, encoding.around(), text.after)?;
    put_settings(text, &before, &after, language, buffer);
    Ok(())
}

/// Puts a text in an encoding into an empty buffer.
fn put_encoded(
    alloc: Global,
    encoding: Encoding,
    text: &kus_text_t<'_>,
    buffer: &mut hb_buffer_t,
) -> Result<(), RunFault>
    requires { buffer.old ≡ empty_buffer }
    ensures ok { OnOk result (IsTextIn (Some encoding) text.now buffer.new) }
    ensures characters { OnOk result (IsText buffer.new) }
    ensures refused { IfErr result (λ e. e ≢ RunFault.OutOfMemory → fault_in (Some encoding) text.now ≡ Some e) }
{
    let Some(tag) = utf8(text.language) else {
        return Err(RunFault::NotUtf8);
    };
    let language = language_of(alloc, tag)?;
    put_encoded_settings(alloc, encoding, text, language, buffer)?;
    if !push_characters(buffer, encoding, text.text)? {
        return Err(RunFault::Shape(ShapeCause::TooLong));
    }
    Ok(())
}

/// Puts a text into an empty buffer. Where it is refused, the buffer can only be cleared.
#[tactic(auto, using(crate::proofs::Putting::text_in_encoding, crate::proofs::Putting::fault_in_encoding))]
pub fn put_text(
    alloc: Global,
    text: &kus_text_t<'_>,
    buffer: &mut hb_buffer_t,
) -> Result<(), RunFault>
    requires { buffer.old ≡ empty_buffer }
    ensures ok { OnOk result (IsTextOf text.now buffer.new) }
    ensures characters { OnOk result (IsText buffer.new) }
    ensures refused { IfErr result (λ e. e ≢ RunFault.OutOfMemory → text_fault text.now ≡ Some e) }
{
    match encoding_numbered(text.flags) {
        None => put_utf8(alloc, text, buffer),
        Some(encoding) => put_encoded(alloc, encoding, text, buffer),
    }
}
