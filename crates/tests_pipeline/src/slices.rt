//! The slices of a few texts by hand: clusters of glyphs, and each run with its bytes.
use buffer_wrappers::glyphs::GlyphBuffer;
use buffer_wrappers::unicode_buffer::UnicodeBuffer;
use shape_slices::fitting::slices_fit;
use shape_slices::slices::{SourceSlice, source_slices};
use std::alloc::{AllocError, Global};
use std::test::Fail;

/// Glyphs of these clusters.
fn glyphs_of(alloc: Global, clusters: &[u32]) -> Result<GlyphBuffer, AllocError> {
    let mut text = UnicodeBuffer::new(alloc);
    for cluster in clusters {
        // So few characters always have room.
        let _added = text.add('x', *cluster)?;
    }
    Ok(GlyphBuffer::from_buffer(text.into_buffer()))
}

fn run(first_glyph: usize, end_glyph: usize, start: usize, end: usize) -> SourceSlice {
    SourceSlice {
        first_glyph,
        end_glyph,
        start,
        end,
    }
}

/// A text's glyphs of these clusters have these runs with these bytes.
fn are(
    alloc: Global,
    text: &str,
    clusters: &[u32],
    want: &[SourceSlice],
) -> Result<bool, AllocError> {
    let glyphs = glyphs_of(alloc, clusters)?;
    if !slices_fit(&glyphs, text) {
        return Ok(false);
    }
    let slices = source_slices(alloc, &glyphs, text)?;
    Ok(slices.iter().copied().eq(want.iter().copied()))
}

/// Whether the clusters fit no slices of the text.
fn fit_nothing(alloc: Global, text: &str, clusters: &[u32]) -> Result<bool, AllocError> {
    let glyphs = glyphs_of(alloc, clusters)?;
    Ok(!slices_fit(&glyphs, text))
}

#[test]
fn texts_have_slices(rt: HostRuntime) -> Result<(), Fail> {
    let alloc = rt.alloc();
    // "ab" from right to left; a ligature of "fi"; a deleted soft hyphen; two characters of three bytes, in two orders
    assert!(rt; are(alloc, "ab", &[1, 0], &[run(0, 1, 1, 2), run(1, 2, 0, 1)])?);
    assert!(rt; are(alloc, "afi", &[0, 1], &[run(0, 1, 0, 1), run(1, 2, 1, 3)])?);
    assert!(rt;
        are(
            alloc,
            "a\u{AD}b",
            &[0, 3],
            &[run(0, 1, 0, 3), run(1, 2, 3, 4)]
        )?
    );
    assert!(rt;
        are(
            alloc,
            "\u{1B06}\u{1B36}",
            &[3, 0],
            &[run(0, 1, 3, 6), run(1, 2, 0, 3)]
        )?
    );
    // two glyphs of one character, and one character of all glyphs
    assert!(rt;
        are(
            alloc,
            "\u{E1}b",
            &[0, 0, 2],
            &[run(0, 2, 0, 2), run(2, 3, 2, 3)]
        )?
    );
    assert!(rt;
        are(
            alloc,
            "\u{E1}b",
            &[2, 0, 0],
            &[run(0, 1, 2, 3), run(1, 3, 0, 2)]
        )?
    );
    assert!(rt; are(alloc, "\u{E1}b", &[0, 0, 0], &[run(0, 3, 0, 3)])?);
    Ok(())
}

#[test]
fn other_clusters_fit_nothing(rt: HostRuntime) -> Result<(), Fail> {
    let alloc = rt.alloc();
    assert!(rt; fit_nothing(alloc, "", &[])?);
    assert!(rt; fit_nothing(alloc, "ab", &[])?);
    assert!(rt; fit_nothing(alloc, "ab", &[1])?);
    assert!(rt; fit_nothing(alloc, "ab", &[0, 2])?);
    assert!(rt; fit_nothing(alloc, "abc", &[0, 2, 1])?);
    assert!(rt; fit_nothing(alloc, "\u{E1}b", &[0, 1])?);
    Ok(())
}
