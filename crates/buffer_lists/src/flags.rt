//! Glyph flags by cluster (rustybuzz: hb/ot_shape.rs, `propagate_flags`).
ghost use Rattle.std.specs.Prelude.{◌≡◌, ◌<◌, length, map};
ghost use Rattle.std.specs.Int.RustNames.{bit_and};
ghost use Rattle.buffer_glyphs.specs.declared.info.TheConstants.{DEFINED};
ghost use Rattle.buffer_glyphs.specs.Items.{glyph_masked, item_masked, strip};
ghost use Rattle.buffer_glyphs.specs.Origins.{concat_settled, origins, origins_spread, settled_flags, tatweel_settled};
ghost use Rattle.buffer_lists.specs.Flags.{flag_requests_of, cluster_flags};

use buffer_glyphs::info::{
    DEFINED, SAFE_TO_INSERT_TATWEEL, UNSAFE_TO_BREAK, UNSAFE_TO_CONCAT, hb_glyph_info_t, hb_mask_t,
};
use buffer_glyphs::run_flags::flags_of_run;

/// The requests for glyph flags (`hb_buffer_flags_t`).
#[derive(Clone, Copy)]
pub struct AskedFlags {
    /// PRODUCE_UNSAFE_TO_CONCAT: where texts may not be concatenated.
    pub concat: bool,
    /// PRODUCE_SAFE_TO_INSERT_TATWEEL: where a tatweel may be inserted.
    pub tatweel: bool,
    /// PRODUCE_SAFE_BREAKS: where a text may be broken, and its pieces shaped alone.
    pub breaks: bool,
}

/// Gives all glyphs of a run of one cluster the same glyph flags: those that one of them has. Where tatweels are
/// requested, UNSAFE_TO_BREAK clears SAFE_TO_INSERT_TATWEEL; where that stays, UNSAFE_TO_BREAK and UNSAFE_TO_CONCAT are
/// added. UNSAFE_TO_CONCAT stays only where it is requested. All other bits of a mask, those of features, are cleared,
/// and no other field changes. It takes linear time.
pub fn spread_glyph_flags(glyphs: &mut [hb_glyph_info_t], asked: AskedFlags)
    ensures items { strip glyphs.new ≡ map (item_masked 0) (strip glyphs.old) }
    ensures origins { origins glyphs.new ≡ origins_spread (flag_requests_of asked) (origins glyphs.old) }
{
    let mut before = None;
    for at in 0..glyphs.len() {
        let flags = flags_of_cluster(&glyphs[at..], before, asked);
        let glyph = with_flags(glyphs[at], flags);
        glyphs[at] = glyph;
        before = Some(glyph);
    }
}

/// The flags of the first glyph's cluster: those of the glyph before it where that is of the cluster.
fn flags_of_cluster(
    glyphs: &[hb_glyph_info_t],
    before: Option<hb_glyph_info_t>,
    asked: AskedFlags,
) -> hb_mask_t
    requires { 0 < length glyphs.now }
    ensures { result ≡ cluster_flags (flag_requests_of asked) before glyphs.now }
{
    let cluster = glyphs[0].cluster;
    match before {
        Some(glyph) if glyph.cluster == cluster => glyph.mask & DEFINED,
        _ => settled(flags_of_run(glyphs, cluster), asked),
    }
}

fn settled(flags: hb_mask_t, asked: AskedFlags) -> hb_mask_t
    ensures { result ≡ settled_flags (flag_requests_of asked) flags }
{
    concat_settled(tatweel_settled(flags, asked.tatweel), asked.concat)
}

/// UNSAFE_TO_BREAK clears SAFE_TO_INSERT_TATWEEL; where that stays, UNSAFE_TO_BREAK and UNSAFE_TO_CONCAT are added.
fn tatweel_settled(flags: hb_mask_t, asked: bool) -> hb_mask_t
    ensures { result ≡ tatweel_settled asked flags }
{
    if !asked {
        return flags;
    }
    if flags & UNSAFE_TO_BREAK == UNSAFE_TO_BREAK {
        return flags & (UNSAFE_TO_BREAK | UNSAFE_TO_CONCAT);
    }
    if flags & SAFE_TO_INSERT_TATWEEL == SAFE_TO_INSERT_TATWEEL {
        return flags | (UNSAFE_TO_BREAK | UNSAFE_TO_CONCAT);
    }
    flags
}

fn concat_settled(flags: hb_mask_t, asked: bool) -> hb_mask_t
    ensures { result ≡ concat_settled asked flags }
{
    if asked {
        flags
    } else {
        flags & (UNSAFE_TO_BREAK | SAFE_TO_INSERT_TATWEEL)
    }
}

/// The glyph with glyph flags as its whole mask.
fn with_flags(glyph: hb_glyph_info_t, flags: hb_mask_t) -> hb_glyph_info_t
    ensures { result ≡ glyph_masked (bit_and flags DEFINED) glyph }
{
    hb_glyph_info_t {
        mask: flags & DEFINED,
        ..glyph
    }
}
