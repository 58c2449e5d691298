//! The ranges of characters that a subtable maps, and the glyph of each character of a range.
ghost use Rattle.std.specs.Prelude.{◌≡◌, ◌≤◌, ◌<◌, ◌+◌, ◌*◌, ◌^◌, length};
ghost use Rattle.font_cmap.specs.Ranges.{byte_glyph, listed_glyph, low_glyph, high_byte_glyph, sequence_glyph, glyph_in, IsWithin, range_at, form_width, segment_rule, bytes_needed};

use font_bytes::words::{byte, fits, long, word, word_at};

/// How the characters of a range have their glyphs.
#[derive(Clone, Copy, PartialEq, Eq, Debug)]
pub enum GlyphRule {
    /// Format 0: a byte for each character, from an offset on.
    Bytes(usize),
    /// Format 2: by the subheader of the high byte; subHeaderKeys are at an offset.
    HighBytes(usize),
    /// Format 4 with an idRangeOffset of 0: idDelta is added to the character.
    Delta(u16),
    /// A number for each character, from an offset on; 0 is no glyph, and idDelta is added to the others (format 4; 0 in
    /// formats 6 and 10).
    Listed(usize, u16),
    /// Format 12: glyphs that follow one another from this one on.
    Sequence(u32),
    /// Format 13: one glyph for all.
    Same(u32),
}

/// Characters from a first one up to one before an end.
#[derive(Clone, Copy, PartialEq, Eq, Debug)]
pub struct CharacterRange {
    pub first: usize,
    pub end: usize,
    pub rule: GlyphRule,
}

/// The form of a subtable's ranges.
#[derive(Clone, Copy, PartialEq, Eq, Debug)]
pub enum RangeForm {
    /// Format 0: glyphIdArray.
    ByteArray,
    /// Format 2: subHeaderKeys.
    HighByteTable,
    /// Format 4: segCount segments, whose end codes come first.
    Segments(usize),
    /// Format 6: firstCode, entryCount, glyphIdArray.
    Trimmed,
    /// Format 10: startCharCode, numChars, glyphIdArray.
    LongTrimmed,
    /// Format 12: sequential map groups.
    Groups,
    /// Format 13: constant map groups.
    SameGroups,
}

/// The ranges of a subtable: how many there are, and the offset of the first one.
#[derive(Clone, Copy, PartialEq, Eq, Debug)]
pub struct RangeArray {
    pub form: RangeForm,
    pub at: usize,
    pub count: usize,
}

/// The byte at an offset, 0 past the end.
fn byte_glyph(table: &[u8], at: usize) -> u16
    ensures { result ≡ byte_glyph table.now at }
{
    if fits(table, at, 1) {
        u16::from(byte(table, at))
    } else {
        0
    }
}

/// The glyph of a number at an offset: none where it is 0 or past the end, else a delta is added.
fn listed_glyph(table: &[u8], at: usize, delta: u16) -> u16
    ensures { result ≡ listed_glyph table.now at delta }
{
    match word_at(table, at) {
        None => 0,
        Some(glyph) => {
            if glyph == 0 {
                0
            } else {
                glyph.wrapping_add(delta)
            }
        }
    }
}

/// Format 2: the glyph of a low byte by the subheader at an offset.
#[tactic(auto, unfolding(crate::specs::Ranges::low_glyph))]
fn low_glyph(table: &[u8], at: usize, low: u16) -> u16
    requires { at ≤ length table.now + 65536 }
    ensures { result ≡ low_glyph table.now at low }
{
    if !fits(table, at, 8) {
        return 0;
    }
    let first = word(table, at);
    let count = word(table, at + 2);
    if low < first || low - first >= count {
        return 0;
    }
    let offset = usize::from(word(table, at + 6)) + 2 * usize::from(low - first);
    listed_glyph(table, at + 6 + offset, word(table, at + 4))
}

/// Format 2: the glyph of a character. A character below 256 has no subheader but the first one, the others have
/// the one of their high byte.
#[tactic(auto, unfolding(crate::specs::Ranges::high_byte_glyph))]
fn high_byte_glyph(table: &[u8], at: usize, character: u16) -> u16
    requires { at + 512 ≤ length table.now }
    ensures { result ≡ high_byte_glyph table.now at character }
{
    let high = character / 256;
    let low = character % 256;
    if high == 0 {
        let key = word(table, at + 2 * usize::from(low)) / 8 * 8;
        return if key == 0 {
            low_glyph(table, at + 512, low)
        } else {
            0
        };
    }
    let key = word(table, at + 2 * usize::from(high)) / 8 * 8;
    if key == 0 {
        0
    } else {
        low_glyph(table, at + 512 + usize::from(key), low)
    }
}

/// Format 12: the glyph that stands so far after a first one, none past 65535.
fn sequence_glyph(glyph: u32, offset: usize) -> u16
    requires { offset < 2 ^ 62 }
    ensures { result ≡ sequence_glyph glyph offset }
{
    let number = glyph as usize + offset;
    if number <= 65535 { number as u16 } else { 0 }
}

/// The glyph of a character of a range, 0 for none.
#[tactic(auto, unfolding(crate::specs::Ranges::glyph_in))]
pub fn glyph_in(table: &[u8], range: CharacterRange, character: usize) -> u16
    requires order { range.first ≤ character }
    requires limit { character < 0x110000 }
    requires within { IsWithin (length table.now) range.rule }
    ensures { result ≡ glyph_in table.now range character }
{
    match range.rule {
        GlyphRule::Bytes(at) => byte_glyph(table, at + (character - range.first)),
        GlyphRule::HighBytes(at) => high_byte_glyph(table, at, (character % 65536) as u16),
        GlyphRule::Delta(delta) => ((character % 65536) as u16).wrapping_add(delta),
        GlyphRule::Listed(at, delta) => {
            listed_glyph(table, at + 2 * (character - range.first), delta)
        }
        GlyphRule::Sequence(glyph) => sequence_glyph(glyph, character - range.first),
        GlyphRule::Same(glyph) => sequence_glyph(glyph, 0),
    }
}

/// The rule of a segment whose idRangeOffset is at an offset.
fn segment_rule(table: &[u8], delta: u16, at: usize) -> GlyphRule
    requires { at + 2 ≤ length table.now }
    ensures value { result ≡ segment_rule table.now delta at }
    ensures within { IsWithin (length table.now) result }
{
    let offset = word(table, at);
    if offset == 0 {
        GlyphRule::Delta(delta)
    } else {
        GlyphRule::Listed(at + usize::from(offset) / 2 * 2, delta)
    }
}

/// Format 4: the segment, of n of them, whose end code is at an offset.
#[tactic(auto, unfolding(crate::specs::Ranges::range_at))]
fn segment_at(table: &[u8], count: usize, at: usize) -> CharacterRange
    requires { at + 4 + 6 * count ≤ length table.now }
    ensures value { result ≡ range_at table.now (RangeForm.Segments count) at }
    ensures within { IsWithin (length table.now) result.rule }
{
    CharacterRange {
        first: usize::from(word(table, at + 2 + 2 * count)),
        end: usize::from(word(table, at)) + 1,
        rule: segment_rule(table, word(table, at + 2 + 4 * count), at + 2 + 6 * count),
    }
}

/// The range of a form at an offset.
#[tactic(auto, unfolding(crate::specs::Ranges::range_at))]
pub fn range_at(table: &[u8], form: RangeForm, at: usize) -> CharacterRange
    requires { at + bytes_needed form ≤ length table.now }
    ensures value { result ≡ range_at table.now form at }
    ensures within { IsWithin (length table.now) result.rule }
{
    match form {
        RangeForm::ByteArray => CharacterRange {
            first: 0,
            end: 256,
            rule: GlyphRule::Bytes(at),
        },
        RangeForm::HighByteTable => CharacterRange {
            first: 0,
            end: 65536,
            rule: GlyphRule::HighBytes(at),
        },
        RangeForm::Segments(count) => segment_at(table, count, at),
        RangeForm::Trimmed => CharacterRange {
            first: usize::from(word(table, at)),
            end: usize::from(word(table, at)) + usize::from(word(table, at + 2)),
            rule: GlyphRule::Listed(at + 4, 0),
        },
        RangeForm::LongTrimmed => CharacterRange {
            first: long(table, at) as usize,
            end: long(table, at) as usize + long(table, at + 4) as usize,
            rule: GlyphRule::Listed(at + 8, 0),
        },
        RangeForm::Groups => CharacterRange {
            first: long(table, at) as usize,
            end: long(table, at + 4) as usize + 1,
            rule: GlyphRule::Sequence(long(table, at + 8)),
        },
        RangeForm::SameGroups => CharacterRange {
            first: long(table, at) as usize,
            end: long(table, at + 4) as usize + 1,
            rule: GlyphRule::Same(long(table, at + 8)),
        },
    }
}

/// How many bytes apart the ranges of a form are.
pub fn form_width(form: RangeForm) -> usize
    ensures { result ≡ form_width form }
{
    match form {
        RangeForm::Segments(_) => 2,
        RangeForm::Groups | RangeForm::SameGroups => 12,
        _ => 0,
    }
}
