//! Groups of neighbours (rustybuzz: hb/buffer.rs, `group_end`, `next_syllable`, `next_cluster`, `next_grapheme`).
ghost use Rattle.std.specs.Prelude.{◌≡◌, ◌+◌, ◌<◌, ◌≤◌, ◌==◌, Bool, length, drop};
ghost use Rattle.std.specs.List.{prefix_len};
ghost use Rattle.buffer_glyphs.specs.declared.info.hb_glyph_info_t.{hb_glyph_info_t as Glyph};
ghost use Rattle.buffer_lists.specs.Groups.{Decides, group_length};
ghost use Rattle.buffer_lists.specs.Runs.{run_length, continues, grapheme_length};

use buffer_glyphs::flags::UnicodeProps;
use buffer_glyphs::info::hb_glyph_info_t;

/// The end of the group that begins at `start`: the first index after it at which the test of two neighbours fails, or
/// the length.
pub fn group_end<F: Fn(&hb_glyph_info_t, &hb_glyph_info_t) -> bool>(
    glyphs: &[hb_glyph_info_t],
    start: usize,
    group: F,
) -> usize
    requires callable { F.IsAlwaysCallable group }
    requires within { start < length glyphs.now }
    ensures { (joins : Glyph → Glyph → Bool) → Decides F.Fn group joins →
        result ≡ start + group_length joins (drop start glyphs.now) }
{
    end_of_group(glyphs, start, &group)
}

pub(crate) fn end_of_group<F: Fn(&hb_glyph_info_t, &hb_glyph_info_t) -> bool>(
    glyphs: &[hb_glyph_info_t],
    start: usize,
    group: &F,
) -> usize
    requires callable { F.IsAlwaysCallable group.now }
    requires within { start < length glyphs.now }
    ensures end { (joins : Glyph → Glyph → Bool) → Decides F.Fn group.now joins →
        result ≡ start + group_length joins (drop start glyphs.now) }
    ensures some { start < result }
    ensures within { result ≤ length glyphs.now }
{
    let mut end = start + 1;
    while end < glyphs.len() && group(&glyphs[end - 1], &glyphs[end]) {
        end += 1;
    }
    end
}

/// The end of the run of glyphs of one syllable that begins at `start`; at or past the end of the glyphs, `start`.
pub fn next_syllable(glyphs: &[hb_glyph_info_t], start: usize) -> usize
    ensures { result ≡ start + run_length (λ g. g.syllable) (drop start glyphs.now) }
{
    if glyphs.len() <= start {
        return start;
    }
    start + 1 + front_of_syllable(&glyphs[start + 1..], glyphs[start].syllable)
}

/// The end of the run of glyphs of one cluster that begins at `start`; at or past the end of the glyphs, `start`.
pub fn next_cluster(glyphs: &[hb_glyph_info_t], start: usize) -> usize
    ensures { result ≡ start + run_length (λ g. g.cluster) (drop start glyphs.now) }
{
    if glyphs.len() <= start {
        return start;
    }
    start + 1 + front_of_cluster(&glyphs[start + 1..], glyphs[start].cluster)
}

/// The end of the grapheme that begins at `start`: the glyphs after the first that continue it belong to it; at or past
/// the end of the glyphs, `start`.
pub fn next_grapheme(glyphs: &[hb_glyph_info_t], start: usize) -> usize
    ensures { result ≡ start + grapheme_length (drop start glyphs.now) }
{
    if glyphs.len() <= start {
        return start;
    }
    start + 1 + front_of_grapheme(&glyphs[start + 1..])
}

/// How many glyphs from the front on are of the syllable.
#[tactic(auto, using(crate::proofs::Lemmas::Neighbours::front_within))]
fn front_of_syllable(glyphs: &[hb_glyph_info_t], syllable: u8) -> usize
    ensures front { result ≡ prefix_len (λ g. g.syllable == syllable) glyphs.now }
    ensures within { result ≤ length glyphs.now }
{
    glyphs
        .iter()
        .take_while(|glyph| glyph.syllable == syllable)
        .count()
}

/// How many glyphs from the front on are of the cluster.
#[tactic(auto, using(crate::proofs::Lemmas::Neighbours::front_within))]
fn front_of_cluster(glyphs: &[hb_glyph_info_t], cluster: u32) -> usize
    ensures front { result ≡ prefix_len (λ g. g.cluster == cluster) glyphs.now }
    ensures within { result ≤ length glyphs.now }
{
    glyphs
        .iter()
        .take_while(|glyph| glyph.cluster == cluster)
        .count()
}

/// How many glyphs from the front on continue a grapheme.
#[tactic(auto, using(crate::proofs::Lemmas::Neighbours::front_within))]
fn front_of_grapheme(glyphs: &[hb_glyph_info_t]) -> usize
    ensures front { result ≡ prefix_len continues glyphs.now }
    ensures within { result ≤ length glyphs.now }
{
    glyphs
        .iter()
        .take_while(|glyph| continues_grapheme(glyph))
        .count()
}

fn continues_grapheme(glyph: &hb_glyph_info_t) -> bool
    ensures { result ≡ continues glyph.now }
{
    glyph.unicode_props.0 & UnicodeProps::CONTINUATION.0 != 0
}
