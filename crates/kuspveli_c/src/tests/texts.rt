//! With ample memory a text of C becomes its buffer, and its features become requests; and some tags of scripts.
use crate::names::{kus_feature_from_string, kus_script_from_iso15924_tag};
use buffer_common::constants::BufferFlags;
use buffer_common::direction::Direction;
use buffer_common::script::{ARABIC, DEVANAGARI, Script, UNKNOWN};
use buffer_common::tag::Tag;
use buffer_core::buffer::hb_buffer_t;
use c_text::numbers::{script_number, script_numbered};
use c_text::texts::{features_of, put_text};
use c_text::types::{kus_feature_t, kus_text_t};
use shell_readers::fault::RunFault;
use std::alloc::Global;
use std::test::Fail;

const KERN: kus_feature_t = kus_feature_t {
    tag: 0x6B65726E,
    value: 2,
    start: 0,
    end: 3,
};

fn text_of<'a>(text: &'a [u8], features: &'a [kus_feature_t]) -> kus_text_t<'a> {
    kus_text_t {
        text,
        before: b"xyz",
        after: b"",
        language: b"de-CH",
        features,
        direction: 5,
        script: 0x48656272,
        flags: 0,
        cluster_level: 1,
    }
}

fn fault_of(alloc: Global, text: &[u8]) -> Option<RunFault> {
    match put_text(alloc, &text_of(text, &[]), &mut hb_buffer_t::new(alloc)) {
        Ok(()) => None,
        Err(fault) => Some(fault),
    }
}

#[test]
fn texts_become_buffers(rt: HostRuntime) -> Result<(), Fail> {
    let text = text_of(b"a\xC3\xA4b", &[]);
    let mut buffer = hb_buffer_t::new(rt.alloc());
    put_text(rt.alloc(), &text, &mut buffer)?;
    assert_eq!(rt; buffer.len(), 3);
    assert!(rt; buffer.direction() == Direction::RightToLeft);
    assert!(rt; buffer.language().is_some());
    Ok(())
}

/// Whether a text that is passed by flags has characters, each with its cluster, between two others.
fn has_characters<'a>(
    alloc: Global,
    flags: u32,
    bytes: &'a [u8],
    around: &'a [u8],
    want: &[(u32, u32)],
) -> Result<bool, RunFault> {
    let mut text = text_of(bytes, &[]);
    text.before = around;
    text.after = around;
    text.flags = flags;
    let mut buffer = hb_buffer_t::new(alloc);
    put_text(alloc, &text, &mut buffer)?;
    let glyphs = buffer.info_slice();
    let mut are_same = glyphs.len() == want.len();
    for (glyph, (character, cluster)) in glyphs.iter().zip(want.iter()) {
        are_same = are_same && glyph.glyph_id == *character && glyph.cluster == *cluster;
    }
    let is_between = buffer.pre_context() == ['f', 'e', 'd', 'c', 'b'].as_slice()
        && buffer.post_context() == ['a', 'b', 'c', 'd', 'e'].as_slice();
    Ok(are_same && is_between && buffer.flags() == BufferFlags(flags & 3))
}

/// By Unicode, 3.9 D91: U+1F600 is D83D DE00, and a surrogate without a partner is U+FFFD.
#[test]
fn texts_are_in_utf16_or_utf32(rt: HostRuntime) -> Result<(), Fail> {
    let utf16 = b"a\0\x3D\xD8\0\xDEb\0\0\xDC\x3D\xD8c";
    let around = b"a\0b\0c\0d\0e\0f\0";
    let want = [(97, 0), (0x1F600, 1), (98, 3), (0xFFFD, 4), (0xFFFD, 5)];
    assert!(rt; has_characters(rt.alloc(), 0x70001, utf16, around, &want)?);
    let utf32 = b"a\0\0\0\0\xF6\x01\0\0\xD8\0\0\0\0\x11\0b\0\0";
    let around = b"a\0\0\0b\0\0\0c\0\0\0d\0\0\0e\0\0\0f\0\0\0";
    let want = [(97, 0), (0x1F600, 1), (0xFFFD, 2), (0xFFFD, 3)];
    assert!(rt; has_characters(rt.alloc(), 0x20002, utf32, around, &want)?);
    let pairs = b"a\0\0\0\x07\0\0\0\0\xD8\0\0\xFF\xFF\xFF\xFFb\0\0\0";
    let want = [(97, 7), (0xFFFD, 0xFFFFFFFF)];
    assert!(rt; has_characters(rt.alloc(), 0x40000, pairs, around, &want)?);
    Ok(())
}

#[test]
fn texts_write_requests_for_features(rt: HostRuntime) -> Result<(), Fail> {
    let mut feature = KERN;
    assert!(rt; !kus_feature_from_string(b"ligature", &mut feature));
    assert_eq!(rt; feature.value, 2);
    assert!(rt; kus_feature_from_string(b"aalt[3:5]=4", &mut feature));
    assert!(rt; (feature.value, feature.start, feature.end) == (4, 3, 5));
    assert_eq!(rt; kus_script_from_iso15924_tag(0x4172616E), 0x41726162);
    Ok(())
}

#[test]
fn bytes_that_are_no_text_are_refused(rt: HostRuntime) -> Result<(), Fail> {
    assert!(rt; fault_of(rt.alloc(), b"a\xC3") == Some(RunFault::NotUtf8));
    Ok(())
}

#[test]
fn features_become_requests(rt: HostRuntime) -> Result<(), Fail> {
    let features = features_of(rt.alloc(), &text_of(b"", &[KERN]))?;
    assert_eq!(rt; features.len(), 1);
    assert!(rt; features[0].tag == Tag::from_bytes(b"kern"));
    Ok(())
}

#[test]
fn scripts_have_the_tags_of_iso_15924(rt: HostRuntime) -> Result<(), Fail> {
    // Aran is Arab in the Nastaliq form; small letters name the same script; four characters that are no letters name none.
    let rows: [(u32, Option<Script>, u32); 5] = [
        (0x4172616E, Some(ARABIC), 0x41726162),
        (0x64657661, Some(DEVANAGARI), 0x44657661),
        (0x44657661, Some(DEVANAGARI), 0x44657661),
        (0x31323334, Some(UNKNOWN), 0x5A7A7A7A),
        (0, None, 0),
    ];
    for (number, script, tag) in rows {
        assert!(rt; script_numbered(number) == script);
        assert_eq!(rt; script_number(script), tag);
    }
    Ok(())
}
