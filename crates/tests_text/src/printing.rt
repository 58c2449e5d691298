//! The printed text of runs of glyphs.
ghost use Rattle.std.specs.Prelude.{Option, None, Some, codes, pos, negsuc, if◌then◌else◌, ◌==◌};

use crate::rows::{hexadecimal, part};
use buffer_glyphs::flags::SerializeFlags;
use buffer_glyphs::info::hb_glyph_info_t;
use buffer_glyphs::names::{GlyphId, GlyphNames, hb_glyph_extents_t};
use buffer_glyphs::position::GlyphPosition;
use buffer_wrappers::serialize;
use std::alloc::{AllocError, Global};
use std::test::Fail;

/// Serialize flags, a run of glyphs, and what is printed of it. A glyph has its number, its cluster, its mask, its
/// advances and its offsets. Sums of advances can be beyond their type.
pub(crate) static ROWS: &str = "\
4; 1 0 0 500 0 0 0, 2 1 0 600 0 0 0; 1=0+500|2=1+600
4; ; 
4; 1 0 0 0 -1000 -250 -800; 1=0@-250,-800+0,-1000
0; 7 3 fffffff8 500 0 0 20, 2 3 d -600 1 -500 0; gid7=3@0,20+500|two=3@-500,0+-600,1
1; 7 3 fffffff8 500 0 0 20, 2 3 d -600 1 -500 0; gid7@0,20+500|two@-500,0+-600,1
2; 7 3 fffffff8 500 0 0 20, 2 3 d -600 1 -500 0; gid7=3|two=3
4; 7 3 fffffff8 500 0 0 20, 2 3 d -600 1 -500 0; 7=3@0,20+500|2=3@-500,0+-600,1
8; 7 3 fffffff8 500 0 0 20, 2 3 d -600 1 -500 0; gid7=3@0,20+500<0,0,0,0>|two=3@-500,0+-600,1<10,700,480,-710>
16; 7 3 fffffff8 500 0 0 20, 2 3 d -600 1 -500 0; gid7=3@0,20+500|two=3@-500,0+-600,1#5
32; 7 3 fffffff8 500 0 0 20, 2 3 d -600 1 -500 0; gid7=3@0,20|two=3
34; 7 3 fffffff8 500 0 0 20, 2 3 d -600 1 -500 0; gid7=3|two=3
63; 7 3 fffffff8 500 0 0 20, 2 3 d -600 1 -500 0; 7<0,0,0,0>|2#5<10,700,480,-710>
36; 1 0 0 2147483647 -2147483648 0 0, 1 0 0 2147483647 -2147483648 0 0, 1 0 0 2147483647 -2147483648 0 0;\
    1=0|1=0@2147483647,-2147483648|1=0@4294967294,-4294967296";

/// A font whose glyph 2 has a name and extents.
struct TwoGlyphs;

impl GlyphNames for TwoGlyphs {
    ghost name_of = { λ _ number. if number == 2 then Some (codes "two") else None };

    ghost extents_of = { λ _ number. if number == 2 then Some
        (record { x_bearing = pos 10; y_bearing = pos 700; width = pos 480; height = negsuc 709 }) else None };

    fn glyph_name(&self, glyph: GlyphId) -> Option<&str> {
        if glyph.0 == 2 { Some("two") } else { None }
    }

    fn glyph_extents(&self, glyph: GlyphId) -> Option<hb_glyph_extents_t> {
        if glyph.0 != 2 {
            return None;
        }
        Some(hb_glyph_extents_t {
            x_bearing: 10,
            y_bearing: 700,
            width: 480,
            height: -710,
        })
    }
}

fn number(word: Option<&str>) -> i32 {
    word.unwrap_or("").parse::<i32>().unwrap_or(0)
}

/// A glyph and its position.
fn glyph(text: &str) -> (hb_glyph_info_t, GlyphPosition) {
    let mut words = text.split_whitespace();
    let info = hb_glyph_info_t {
        glyph_id: number(words.next()).unsigned_abs(),
        cluster: number(words.next()).unsigned_abs(),
        mask: hexadecimal(words.next().unwrap_or("")).unwrap_or(0),
        ..hb_glyph_info_t::default()
    };
    let position = GlyphPosition {
        x_advance: number(words.next()),
        y_advance: number(words.next()),
        x_offset: number(words.next()),
        y_offset: number(words.next()),
        ..GlyphPosition::default()
    };
    (info, position)
}

fn is_printed(
    alloc: Global,
    glyphs: &[hb_glyph_info_t],
    positions: &[GlyphPosition],
    flags: u8,
    want: &str,
) -> Result<bool, AllocError> {
    if glyphs.len() != positions.len() {
        return Ok(false);
    }
    let text = serialize(alloc, glyphs, positions, &TwoGlyphs, SerializeFlags(flags))?;
    Ok(text.as_str() == want)
}

/// Whether a run is printed as a row says.
pub(crate) fn is_so(alloc: Global, row: &str) -> Result<bool, Fail> {
    let (mut glyphs, mut positions) = (Vec::new(alloc), Vec::new(alloc));
    for text in part(row, 1).trim().split_terminator(',') {
        let (info, position) = glyph(text);
        glyphs.push(info)?;
        positions.push(position)?;
    }
    let flags = part(row, 0).parse::<u8>()?;
    Ok(is_printed(alloc, &glyphs, &positions, flags, part(row, 2).trim())?)
}

/// A run of one glyph at more than 65,536 clusters.
fn is_long_run_printed(alloc: Global, want: &str) -> Result<bool, AllocError> {
    let (mut glyphs, mut positions) = (Vec::new(alloc), Vec::new(alloc));
    let (info, position) = glyph("1 0 0 500 0 0 0");
    for cluster in 0..70_000u32 {
        glyphs.push(hb_glyph_info_t { cluster, ..info })?;
        positions.push(position)?;
    }
    is_printed(alloc, &glyphs, &positions, 6, want)
}

fn text_of_long_run(alloc: Global) -> Result<String, Fail> {
    let mut text = String::new(alloc);
    text.push_str("1=0")?;
    for cluster in 1..70_000u32 {
        text.push_str(&format!(in alloc; "|1={cluster}")?)?;
    }
    Ok(text)
}

// A text of more than 65,536 glyphs, with names and clusters only.
#[test]
fn prints_a_long_run(rt: HostRuntime) -> Result<(), Fail> {
    let want = text_of_long_run(rt.alloc())?;
    let as_wanted = is_long_run_printed(rt.alloc(), &want)?;
    assert!(rt; as_wanted);
    Ok(())
}
