//! A request for a feature (rustybuzz: hb/common.rs, `Feature`).
ghost use Rattle.std.specs.Prelude.{◌≡◌, Some, None, IfSome, IfNone};
ghost use Rattle.buffer_tags.specs.Feature.{bounded_index, start_of, end_of, is_global};
ghost use Rattle.buffer_tags.specs.FeatureText.{sign_in, quoted_tag_in, range_maybe_end, range_after_start, range_without_start, range_in, setting_in, value_in, feature_of};

use crate::text_parser::TextParser;
use buffer_common::tag::Tag;
use std::ops::Bound;
use std::str::FromStr;
use thiserror::Error;

/// The first cluster of a request for every glyph.
pub const HB_FEATURE_GLOBAL_START: u32 = 0;

/// The end of a request for every glyph.
pub const HB_FEATURE_GLOBAL_END: u32 = u32::MAX;

/// A request to give a feature a value, for the glyphs whose cluster is at least `start` and below `end`.
#[derive(Clone, Copy, PartialEq, Eq, Debug, Hash)]
pub struct Feature {
    pub tag: Tag,
    pub value: u32,
    pub start: u32,
    pub end: u32,
}

/// The error of a text that is no request for a feature.
#[derive(Clone, Copy, PartialEq, Eq, Debug, Error)]
#[error("invalid feature")]
pub struct InvalidFeature;

impl Feature {
    /// A request for a range of clusters. The end is kept as it is given, so an included end is not reached, as in
    /// rustybuzz.
    pub fn new(tag: Tag, value: u32, start: Bound<usize>, end: Bound<usize>) -> Feature
        ensures tag { result.tag ≡ tag }
        ensures value { result.value ≡ value }
        ensures start { result.start ≡ start_of start }
        ensures end { result.end ≡ end_of end }
    {
        let start = match start {
            Bound::Included(index) => bounded_index(index),
            Bound::Excluded(index) => bounded_index(index.saturating_add(1)),
            Bound::Unbounded => HB_FEATURE_GLOBAL_START,
        };
        let end = match end {
            Bound::Included(index) => bounded_index(index),
            Bound::Excluded(index) => bounded_index(index.saturating_sub(1)),
            Bound::Unbounded => HB_FEATURE_GLOBAL_END,
        };
        Feature {
            tag,
            value,
            start,
            end,
        }
    }

    /// Whether the request is for every glyph.
    pub fn is_global(&self) -> bool
        ensures { result ≡ is_global self.now }
    {
        self.start == HB_FEATURE_GLOBAL_START && self.end == HB_FEATURE_GLOBAL_END
    }
}

fn bounded_index(index: usize) -> u32
    ensures { result ≡ bounded_index index }
{
    u32::try_from(index).unwrap_or(u32::MAX)
}

impl FromStr for Feature {
    ghost use Rattle.buffer_tags.specs.FeatureGrammar.{AnswersRequest};

    type Err = InvalidFeature;

    ghost from_str_gives = { AnswersRequest };

    #[tactic(auto, using(crate::proofs::Grammar::answers_request))]
    fn from_str(text: &str) -> Result<Feature, InvalidFeature> {
        read_feature(TextParser::new(text)).ok_or(InvalidFeature)
    }
}

fn read_feature(mut parser: TextParser) -> Option<Feature>
    ensures { result ≡ feature_of parser.entry }
{
    parser.skip_spaces();
    let default = consume_sign(&mut parser);
    parser.skip_spaces();
    let tag = consume_quoted_tag(&mut parser)?;
    parser.skip_spaces();
    let (start, end) = consume_range(&mut parser)?;
    parser.skip_spaces();
    let value = consume_value(&mut parser, default)?;
    parser.skip_spaces();
    if !parser.at_end() {
        return None;
    }
    Some(Feature {
        tag,
        value,
        start,
        end,
    })
}

fn consume_sign(parser: &mut TextParser) -> u32
    ensures { sign_in parser.old ≡ (result, parser.new) }
{
    match parser.curr_byte() {
        Some(b'-') => {
            parser.advance(1);
            0
        }
        Some(b'+') => {
            parser.advance(1);
            1
        }
        _ => 1,
    }
}

fn consume_quoted_tag(parser: &mut TextParser) -> Option<Tag>
    ensures found { IfSome result (λ tag. quoted_tag_in parser.old ≡ Some (tag, parser.new)) }
    ensures absent { IfNone result (quoted_tag_in parser.old ≡ None) }
{
    let Some(quote) = parser.consume_quote() else {
        return parser.consume_tag();
    };
    let tag = parser.consume_tag()?;
    parser.consume_byte(quote)?;
    Some(tag)
}

fn consume_range(parser: &mut TextParser) -> Option<(u32, u32)>
    ensures found { IfSome result (λ range. range_in parser.old ≡ Some (range, parser.new)) }
    ensures absent { IfNone result (range_in parser.old ≡ None) }
{
    if parser.consume_byte(b'[').is_none() {
        return Some((HB_FEATURE_GLOBAL_START, HB_FEATURE_GLOBAL_END));
    }
    match parser.consume_i32() {
        Some(start) => consume_started(parser, start.cast_unsigned()),
        None => consume_unstarted(parser),
    }
}

fn consume_started(parser: &mut TextParser, start: u32) -> Option<(u32, u32)>
    ensures found { IfSome result (λ range. range_after_start start parser.old ≡ Some (range, parser.new)) }
    ensures absent { IfNone result (range_after_start start parser.old ≡ None) }
{
    let separator = parser.curr_byte()?;
    parser.advance(1);
    match separator {
        b']' => Some((start, start.saturating_add(1))),
        b':' => consume_end(parser, start),
        b';' => {
            let end = parser.consume_i32()?;
            parser.consume_byte(b']')?;
            Some((start, end.cast_unsigned()))
        }
        _ => None,
    }
}

fn consume_unstarted(parser: &mut TextParser) -> Option<(u32, u32)>
    ensures found { IfSome result (λ range. range_without_start parser.old ≡ Some (range, parser.new)) }
    ensures absent { IfNone result (range_without_start parser.old ≡ None) }
{
    let separator = parser.curr_byte()?;
    parser.advance(1);
    match separator {
        b']' => Some((HB_FEATURE_GLOBAL_START, HB_FEATURE_GLOBAL_END)),
        b':' => consume_end(parser, HB_FEATURE_GLOBAL_START),
        _ => None,
    }
}

fn consume_end(parser: &mut TextParser, start: u32) -> Option<(u32, u32)>
    ensures found { IfSome result (λ range. range_maybe_end start parser.old ≡ Some (range, parser.new)) }
    ensures absent { IfNone result (range_maybe_end start parser.old ≡ None) }
{
    let Some(end) = parser.consume_i32() else {
        parser.consume_byte(b']')?;
        return Some((start, HB_FEATURE_GLOBAL_END));
    };
    parser.consume_byte(b']')?;
    Some((start, end.cast_unsigned()))
}

fn consume_value(parser: &mut TextParser, default: u32) -> Option<u32>
    ensures found { IfSome result (λ value. value_in default parser.old ≡ Some (value, parser.new)) }
    ensures absent { IfNone result (value_in default parser.old ≡ None) }
{
    if parser.consume_byte(b'=').is_some() {
        parser.skip_spaces();
        return consume_setting(parser);
    }
    let Some(value) = consume_setting(parser) else {
        return Some(default);
    };
    Some(value)
}

fn consume_setting(parser: &mut TextParser) -> Option<u32>
    ensures found { IfSome result (λ value. setting_in parser.old ≡ Some (value, parser.new)) }
    ensures absent { IfNone result (setting_in parser.old ≡ None) }
    ensures kept { IfNone result (parser.new ≡ parser.old) }
{
    if let Some(value) = parser.consume_u32() {
        return Some(value);
    }
    let is_on = parser.consume_bool()?;
    Some(u32::from(is_on))
}
