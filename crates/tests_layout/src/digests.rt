//! Sets of glyphs by buckets: what was added is there, and what shares all its buckets.
use layout_common::coverage::{Coverage, CoverageExt};
use layout_common::digest::{hb_set_digest_bits_pattern_t, hb_set_digest_ext, hb_set_digest_t};
use layout_common::low_bits::LowBits;
use std::alloc::{AllocError, Global};

fn number(word: &str) -> Option<u16> {
    word.parse::<u16>().ok()
}

/// Adds a glyph, two or a range; answers whether the set lacks a glyph after a range.
fn add<D: hb_set_digest_ext>(set: &mut D, word: &str) -> Option<bool> {
    if let Some((first, last)) = word.split_once('-') {
        return Some(set.add_range(number(first)?, number(last)?));
    }
    match word.split_once('+') {
        Some((first, second)) => set.add_array(&[number(first)?, number(second)?]),
        None => set.add(number(word)?),
    }
    Some(true)
}

/// Does what a word says; answers whether what it says is so.
fn is_so<D: hb_set_digest_ext>(set: &mut D, word: &str) -> bool {
    if let Some(word) = word.strip_prefix('+') {
        return add(set, word) == Some(true);
    }
    if let Some(word) = word.strip_prefix('!') {
        return add(set, word) == Some(false);
    }
    if word == "all" {
        *set = D::full();
        return true;
    }
    match word.strip_prefix('-') {
        Some(word) => number(word).is_some_and(|glyph| !set.may_have_glyph(glyph)),
        None => number(word).is_some_and(|glyph| set.may_have_glyph(glyph)),
    }
}

fn are_so<D: hb_set_digest_ext>(set: &mut D, words: &str) -> bool {
    for word in words.split_whitespace() {
        if !is_so(set, word) {
            return false;
        }
    }
    true
}

/// Whether a set, and another one, are as the words say, and have a glyph in common or not.
fn agree<D: hb_set_digest_ext>(begun: D, words: &str, answer: &str) -> bool {
    let Some((words, others)) = words.split_once(',') else {
        return false;
    };
    let mut set = begun;
    let mut other = D::new();
    are_so(&mut set, words)
        && are_so(&mut other, others)
        && set.may_have(&other) == (answer == "common")
}

fn covered(alloc: Global) -> Result<hb_set_digest_t, AllocError> {
    let coverage = Coverage::new(alloc, [40, 20].to_vec(alloc)?)?;
    let mut covered = hb_set_digest_t::new();
    CoverageExt::collect(&coverage, &mut covered);
    Ok(covered)
}

/// Whether sets of a kind are as a row says.
pub(crate) fn answers(alloc: Global, question: &str, answer: &str) -> Result<bool, AllocError> {
    let (kind, words) = question.split_once(' ').unwrap_or((question, ""));
    match kind {
        "digest" => Ok(agree(hb_set_digest_t::new(), words, answer)),
        "covered" => Ok(agree(covered(alloc)?, words, answer)),
        "bits" => Ok(agree(hb_set_digest_bits_pattern_t::<9>::new(), words, answer)),
        "low" => Ok(agree(LowBits::new(), words, answer)),
        _ => Ok(false),
    }
}
