//! Feature requests as they are written.
use crate::rows::prints;
use buffer_common::tag::Tag;
use buffer_tags::feature::{Feature, InvalidFeature};
use buffer_tags::text_parser::TextParser;
use std::alloc::Global;
use std::ops::Bound;
use std::test::Fail;

/// Texts of feature requests, with their tags, values, starts and ends, and texts that are refused, of which the
/// first is empty, and the second a space. Bounds of a range, `[` for an included one and `(` for an excluded one,
/// with the start, the end, and whether they are of all the text. Parts of a text that are taken in turn: a tag
/// between quotes, a signed number, an unsigned one, a word for true or false, and the number of characters left.
pub(crate) static ROWS: &str = "\
request|kern|kern|1|0|4294967295
request|-kern|kern|0|0|4294967295
request| + kern |kern|1|0|4294967295
request|kern[3;5]=2|kern|2|3|5
request|kern=oFf|kern|0|0|4294967295
request|aalt on|aalt|1|0|4294967295
request|-aalt = 4294967295|aalt|4294967295|0|4294967295
request|'ss'2|ss  |2|0|4294967295
request|\"c_2\" [] = 07|c_2 |7|0|4294967295
request|kern[]|kern|1|0|4294967295
request|kern[:]|kern|1|0|4294967295
request|kern[5:]|kern|1|5|4294967295
request|kern[:5]|kern|1|0|5
request|kern[+3:5]|kern|1|3|5
request|kern[3]|kern|1|3|4
request|kern[-1]|kern|1|4294967295|4294967295
request|kern[-2:2147483647]|kern|1|4294967294|2147483647
refused|
refused|\u{20}
refused|-
refused|kern1
refused|ke-n
refused|'kern
refused|'kern\"
refused|' kern'
refused|--kern
refused|kern=
refused|kern= x
refused|kern=-1
refused|kern=4294967296
refused|kern=1 2
refused|kern 1x
refused|kern==1
refused|kern[
refused|kern[3
refused|kern[;]
refused|kern[3;]
refused|kern[;5]
refused|kern[+:5]
refused|kern[ 3]
refused|kern[3:5:7]
refused|kern[2147483648]
refused|kern[]]
refused|kern onx
refused|kern,liga
range|none none|0 4294967295 true
range|[3 [5|3 5 false
range|(3 (5|4 4 false
range|(18446744073709551615 (0|4294967295 0 false
range|[4294967296 [1099511627776|4294967295 4294967295 false
parts| 'liga'-12 007 oN!|liga Some(-12) Some(7) Some(true) 1
parts|liga!!|liga None None None 1
parts|'|none None None None 0";

fn part(row: &str, at: usize) -> &str {
    row.split('|').nth(at).unwrap_or("")
}

fn number(row: &str, at: usize) -> Option<u32> {
    part(row, at).parse().ok()
}

fn wanted_feature(row: &str) -> Option<Feature> {
    Some(Feature {
        tag: Tag::from_bytes_lossy(part(row, 2).as_bytes()),
        value: number(row, 3)?,
        start: number(row, 4)?,
        end: number(row, 5)?,
    })
}

fn is_request(row: &str) -> bool {
    match (part(row, 1).parse::<Feature>(), wanted_feature(row)) {
        (Ok(found), Some(wanted)) => found == wanted,
        _ => false,
    }
}

fn bound(word: &str) -> Bound<usize> {
    if let Some(number) = word.strip_prefix('[') {
        return Bound::Included(number.parse::<usize>().unwrap_or(0));
    }
    match word.strip_prefix('(') {
        Some(number) => Bound::Excluded(number.parse::<usize>().unwrap_or(0)),
        None => Bound::Unbounded,
    }
}

fn range_text(alloc: Global, words: &str) -> Result<String, Fail> {
    let (start, end) = words.split_once(' ').ok_or("one bound")?;
    let request = Feature::new(Tag::from_bytes(b"liga"), 1, bound(start), bound(end));
    let is_global = request.is_global();
    Ok(format!(in alloc; "{} {} {is_global}", request.start, request.end)?)
}

/// A tag between quotes, a signed number, an unsigned one, a text for true or false, and the number of characters left.
type Parts = (Option<Tag>, Option<i32>, Option<u32>, Option<bool>, usize);

fn parts_of(text: &'static str) -> Parts {
    let mut parser = TextParser::new(text);
    parser.skip_spaces();
    let _quote = parser.consume_quote();
    let tag = parser.consume_tag();
    let _closed = parser.consume_byte(b'\'');
    let signed = parser.consume_i32();
    parser.advance(1);
    let number = parser.consume_u32();
    let word = parser.consume_bool();
    (
        tag,
        signed,
        number,
        word,
        parser.consume_bytes(|byte| byte == b'!').len(),
    )
}

fn parts_text(alloc: Global, text: &'static str) -> Result<String, Fail> {
    let (tag, signed, number, word, left) = parts_of(text);
    let name = if tag == Some(Tag::from_bytes(b"liga")) {
        "liga"
    } else {
        "none"
    };
    Ok(format!(in alloc; "{name} {signed:?} {number:?} {word:?} {left}")?)
}

/// Whether a text is read as a row says.
pub(crate) fn is_so(alloc: Global, row: &'static str) -> Result<bool, Fail> {
    match part(row, 0) {
        "request" => Ok(is_request(row)),
        "range" => Ok(range_text(alloc, part(row, 1))?.as_str() == part(row, 2)),
        "parts" => Ok(parts_text(alloc, part(row, 1))?.as_str() == part(row, 2)),
        _ => Ok(part(row, 1).parse::<Feature>() == Err(InvalidFeature)),
    }
}
