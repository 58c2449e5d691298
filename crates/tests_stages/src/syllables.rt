//! Syllables and tiles: what a rule does to glyphs.
ghost use Rattle.std.specs.Prelude.{OnOk};
ghost use Rattle.buffer_stages.specs.Ready.{IsReady};

use crate::buffers::{buffer_of, has_glyphs, limit};
use crate::rows::{hexadecimal, part, value};
use buffer_core::buffer::hb_buffer_t;
use buffer_glyphs::cause::ShapeCause;
use buffer_stages::layout_stages::_hb_clear_substitution_flags;
use script_arabic::tiles::record_stch;
use script_categories::hb_ot_script_shaper_t;
use script_categories::hb_ot_script_shaper_t::{
    ARABIC_SHAPER, KHMER_SHAPER, MYANMAR_SHAPER, UNIVERSAL_SHAPER,
};
use script_khmer::khmer::{KhmerMasks, reorder_khmer};
use script_myanmar::myanmar::reorder_myanmar;
use script_syllabic::forms::{FormMasks, setup_topographical_masks};
use script_syllabic::recording::{record_pref, record_rphf};
use script_syllabic::rphf::setup_rphf_mask;
use script_universal::reorder::reorder_use;
use std::alloc::Global;
use std::test::Fail;

/// The longest text that a run shapes.
const MAX_LEN: usize = 16_384;

/// The shaper of a rule.
fn shaper_of(rule: &str) -> hb_ot_script_shaper_t {
    match rule {
        "khmer" => KHMER_SHAPER,
        "myanmar" => MYANMAR_SHAPER,
        "record" => ARABIC_SHAPER,
        _ => UNIVERSAL_SHAPER,
    }
}

pub(crate) fn agrees(alloc: Global, row: &str) -> Result<bool, Fail> {
    let words = part(row, 1);
    let shaper = shaper_of(value(words, "rule"));
    let mut buffer = buffer_of(alloc, shaper, words, part(row, 2))?;
    limit(MAX_LEN, &mut buffer);
    apply(alloc, words, &mut buffer)?;
    Ok(has_glyphs(shaper, "n@mfgscxao", part(row, 3), &buffer))
}

fn apply(alloc: Global, words: &str, buffer: &mut hb_buffer_t) -> Result<(), ShapeCause>
    requires { IsReady buffer.old }
    ensures { OnOk result (IsReady buffer.new) }
{
    match value(words, "rule") {
        "khmer" => order_khmer(words, buffer),
        "myanmar" => order_myanmar(alloc, buffer),
        "universal" => order_universal(buffer),
        "forms" => set_forms(words, buffer),
        "rphf" => take_rphf(words, buffer),
        "pref" => take_pref(buffer),
        "clear" => clear(buffer),
        _ => record(words, buffer),
    }
}

fn order_khmer(words: &str, buffer: &mut hb_buffer_t) -> Result<(), ShapeCause>
    requires { IsReady buffer.old }
    ensures { OnOk result (IsReady buffer.new) }
{
    let masks = KhmerMasks {
        pref: hexadecimal(words, "pref"),
        post_base: hexadecimal(words, "post_base"),
        cfar: hexadecimal(words, "cfar"),
    };
    reorder_khmer(&masks, buffer)?;
    Ok(())
}

fn order_myanmar(alloc: Global, buffer: &mut hb_buffer_t) -> Result<(), ShapeCause>
    requires { IsReady buffer.old }
    ensures { OnOk result (IsReady buffer.new) }
{
    reorder_myanmar(alloc, buffer)?;
    Ok(())
}

fn order_universal(buffer: &mut hb_buffer_t) -> Result<(), ShapeCause>
    requires { IsReady buffer.old }
    ensures { OnOk result (IsReady buffer.new) }
{
    reorder_use(buffer)?;
    Ok(())
}

fn set_forms(words: &str, buffer: &mut hb_buffer_t) -> Result<(), ShapeCause>
    requires { IsReady buffer.old }
    ensures { OnOk result (IsReady buffer.new) }
{
    setup_rphf_mask(hexadecimal(words, "rphf"), buffer)?;
    if value(words, "forms").is_empty() {
        return Ok(());
    }
    let masks = FormMasks {
        isol: hexadecimal(words, "isol"),
        init: hexadecimal(words, "init"),
        medi: hexadecimal(words, "medi"),
        fina: hexadecimal(words, "fina"),
    };
    setup_topographical_masks(&masks, buffer);
    Ok(())
}

fn take_rphf(words: &str, buffer: &mut hb_buffer_t) -> Result<(), ShapeCause>
    requires { IsReady buffer.old }
    ensures { OnOk result (IsReady buffer.new) }
{
    record_rphf(hexadecimal(words, "rphf"), buffer)?;
    Ok(())
}

fn take_pref(buffer: &mut hb_buffer_t) -> Result<(), ShapeCause>
    requires { IsReady buffer.old }
    ensures { OnOk result (IsReady buffer.new) }
{
    record_pref(buffer)?;
    Ok(())
}

fn clear(buffer: &mut hb_buffer_t) -> Result<(), ShapeCause>
    requires { IsReady buffer.old }
    ensures { OnOk result (IsReady buffer.new) }
{
    _hb_clear_substitution_flags(buffer);
    Ok(())
}

fn record(words: &str, buffer: &mut hb_buffer_t) -> Result<(), ShapeCause>
    requires { IsReady buffer.old }
    ensures { OnOk result (IsReady buffer.new) }
{
    record_stch(value(words, "stch") == "1", buffer);
    Ok(())
}

// A name has the categories of the glyphs, or their syllables, or how many there are.
pub(crate) static ROWS: &str = "
# name; options; glyphs; glyphs afterwards
Khmer: C H Ra; rule=khmer level=1; 97@0 s=1.consonant c=C, 98@3 s=1.consonant c=H, 99@6 s=1.consonant c=Ra;
  98@0 s=1.consonant c=H, 99@0 s=1.consonant c=Ra, 97@0 s=1.consonant c=C
Khmer: C H Ra; rule=khmer level=1; 97@0 s=1.non c=C, 98@3 s=1.non c=H, 99@6 s=1.non c=Ra;
  97@0 s=1.non c=C, 98@3 s=1.non c=H, 99@6 s=1.non c=Ra
Khmer: V; rule=khmer pref=10 cfar=20; 1@0 s=1.broken c=V m=80000000; 1@0 s=1.broken c=V m=80000000
Khmer: V V; rule=khmer pref=10 post_base=E0 cfar=100 level=1;
  1@0 s=1.broken c=V m=80000000, 2@1 s=1.broken c=V m=80000000;
  1@0 s=1.broken c=V m=80000000, 2@1 s=1.broken c=V m=800000E0
Khmer: C Ra; rule=khmer pref=10 post_base=E0 cfar=100;
  1@0 s=1.consonant c=C m=80000000, 2@0 s=1.consonant c=Ra m=80000000;
  1@0 s=1.consonant c=C m=80000000, 2@0 s=1.consonant c=Ra m=800000E0
Khmer: Ra VPre; rule=khmer pref=80000000 post_base=70 cfar=80;
  1@0 s=1.broken c=Ra m=80000000, 2@1 s=1.broken c=VPre m=80000000;
  2@0 s=1.broken c=VPre m=80000070, 1@0 s=1.broken c=Ra m=80000000
Khmer: H H V; rule=khmer pref=10 post_base=60 cfar=80;
  1@0 s=1.broken c=H m=80000000, 2@3 s=1.broken c=H m=80000000, 3@5 s=1.broken c=V m=80000000;
  1@0 s=1.broken c=H m=80000000, 2@3 s=1.broken c=H m=80000060, 3@5 s=1.broken c=V m=80000060
Khmer: H CS H; rule=khmer pref=10 post_base=E0 cfar=100 level=1;
  1@0 s=1.consonant c=H m=80000000, 2@1 s=1.consonant c=CS m=80000000, 3@4 s=1.consonant c=H m=80000000;
  1@0 s=1.consonant c=H m=80000000, 2@1 s=1.consonant c=CS m=800000E0, 3@4 s=1.consonant c=H m=800000E0
Khmer: CS Ra Ra; rule=khmer pref=10 post_base=E0 cfar=100 level=1;
  1@0 s=1.broken c=CS m=80000000, 2@0 s=1.broken c=Ra m=80000000, 3@3 s=1.broken c=Ra m=80000000;
  1@0 s=1.broken c=CS m=80000000, 2@0 s=1.broken c=Ra m=800000E0, 3@3 s=1.broken c=Ra m=800000E0
Khmer: Ra H Xgroup; rule=khmer pref=10 post_base=E0 cfar=100;
  1@0 s=1.consonant c=Ra m=80000000, 2@3 s=1.consonant c=H m=80000000, 3@5 s=1.consonant c=Xgroup m=80000000;
  1@0 s=1.consonant c=Ra m=80000000, 2@3 s=1.consonant c=H m=800000E0, 3@5 s=1.consonant c=Xgroup m=800000E0
Khmer: C H Xgroup; rule=khmer pref=10 post_base=80000060 cfar=80 level=1;
  1@0 s=1.broken c=C m=80000000, 2@1 s=1.broken c=H m=80000000, 3@2 s=1.broken c=Xgroup m=80000000;
  1@0 s=1.broken c=C m=80000000, 2@1 s=1.broken c=H m=80000060, 3@2 s=1.broken c=Xgroup m=80000060
Khmer: C C Ra H; rule=khmer pref=10 post_base=E0 cfar=100 level=1;
  1@0 s=1.consonant c=C m=80000000, 2@2 s=1.consonant c=C m=80000000, 3@3 s=1.consonant c=Ra m=80000000,
  4@6 s=1.consonant c=H m=80000000;
  1@0 s=1.consonant c=C m=80000000, 2@2 s=1.consonant c=C m=800000E0, 3@3 s=1.consonant c=Ra m=800000E0,
  4@6 s=1.consonant c=H m=800000E0
Khmer: C H Xgroup H; rule=khmer pref=10 post_base=E0 cfar=100 level=1;
  1@0 s=1.consonant c=C m=80000000, 2@0 s=1.consonant c=H m=80000000, 3@3 s=1.consonant c=Xgroup m=80000000,
  4@4 s=1.consonant c=H m=80000000;
  1@0 s=1.consonant c=C m=80000000, 2@0 s=1.consonant c=H m=800000E0, 3@3 s=1.consonant c=Xgroup m=800000E0,
  4@4 s=1.consonant c=H m=800000E0
Khmer: C Xgroup Xgroup H; rule=khmer pref=10 post_base=E0 cfar=100 level=1;
  1@0 s=1.consonant c=C m=80000000, 2@1 s=1.consonant c=Xgroup m=80000000, 3@2 s=1.consonant c=Xgroup m=80000000,
  4@2 s=1.consonant c=H m=80000000;
  1@0 s=1.consonant c=C m=80000000, 2@1 s=1.consonant c=Xgroup m=800000E0, 3@2 s=1.consonant c=Xgroup m=800000E0,
  4@2 s=1.consonant c=H m=800000E0
Khmer: H H Ra Ra H; rule=khmer pref=10 post_base=E0 cfar=100;
  1@0 s=1.broken c=H m=80000000, 2@0 s=1.broken c=H m=80000000, 3@2 s=1.broken c=Ra m=80000000,
  4@4 s=2.broken c=Ra m=80000000, 5@7 s=2.broken c=H m=80000000;
  2@0 s=1.broken c=H m=800000F0, 3@0 s=1.broken c=Ra m=800000F0, 1@0 s=1.broken c=H m=80000000,
  4@4 s=2.broken c=Ra m=80000000, 5@7 s=2.broken c=H m=800000E0
Khmer: H Ra H Xgroup H; rule=khmer pref=10 post_base=E0 cfar=100;
  1@0 s=1.non c=H m=80000000, 2@2 s=1.non c=Ra m=80000000, 3@3 s=1.non c=H m=80000000,
  4@4 s=2.consonant c=Xgroup m=80000000, 5@7 s=2.consonant c=H m=80000000;
  1@0 s=1.non c=H m=80000000, 2@2 s=1.non c=Ra m=80000000, 3@3 s=1.non c=H m=80000000,
  4@4 s=2.consonant c=Xgroup m=80000000, 5@7 s=2.consonant c=H m=800000E0
Khmer: Xgroup Xgroup VAbv CS Ra; rule=khmer pref=10 post_base=E0 cfar=100 level=1;
  1@0 s=1.consonant c=Xgroup m=80000000, 2@2 s=2.consonant c=Xgroup m=80000000, 3@4 s=3.consonant c=VAbv m=80000000,
  4@6 s=4.consonant c=CS m=80000000, 5@7 s=4.consonant c=Ra m=80000000;
  1@0 s=1.consonant c=Xgroup m=80000000, 2@2 s=2.consonant c=Xgroup m=80000000, 3@4 s=3.consonant c=VAbv m=80000000,
  4@6 s=4.consonant c=CS m=80000000, 5@7 s=4.consonant c=Ra m=800000E0
Khmer: CS VAbv H C CS CS; rule=khmer pref=10 post_base=60 cfar=80 level=1;
  1@0 s=1.consonant c=CS m=80000000, 2@1 s=1.consonant c=VAbv m=80000000, 3@3 s=2.consonant c=H m=80000000,
  4@3 s=2.consonant c=C m=80000000, 5@3 s=3.consonant c=CS m=80000000, 6@5 s=3.consonant c=CS m=80000000;
  1@0 s=1.consonant c=CS m=80000000, 2@1 s=1.consonant c=VAbv m=80000060, 3@3 s=2.consonant c=H m=80000000,
  4@3 s=2.consonant c=C m=80000060, 5@3 s=3.consonant c=CS m=80000000, 6@5 s=3.consonant c=CS m=80000060
Myanmar: C MR VPre; rule=myanmar level=1; 97@0 s=1.consonant c=C, 98@3 s=1.consonant c=MR, 99@6 s=1.consonant c=VPre;
  99@0 s=1.consonant c=VPre x=2, 98@0 s=1.consonant c=MR x=3, 97@0 s=1.consonant c=C x=4
Myanmar: VPre VPre; rule=myanmar level=1; 98@0 s=1.consonant c=VPre, 99@3 s=1.consonant c=VPre;
  99@0 s=1.consonant c=VPre x=2, 98@0 s=1.consonant c=VPre x=4
Myanmar: C VPre VPre; rule=myanmar level=1;
  97@0 s=1.consonant c=C, 98@2 s=1.consonant c=VPre, 99@5 s=1.consonant c=VPre;
  99@0 s=1.consonant c=VPre x=2, 98@0 s=1.consonant c=VPre x=2, 97@0 s=1.consonant c=C x=4
Myanmar: C; rule=myanmar level=1; 1@0 s=1.consonant c=C; 1@0 s=1.consonant c=C x=4
Myanmar: PLACEHOLDER; rule=myanmar; 1@0 s=1.consonant c=PLACEHOLDER; 1@0 s=1.consonant c=PLACEHOLDER x=4
Myanmar: C MR; rule=myanmar level=1; 1@0 s=1.consonant c=C, 2@2 s=1.consonant c=MR;
  2@0 s=1.consonant c=MR x=3, 1@0 s=1.consonant c=C x=4
Myanmar: C VBlw; rule=myanmar; 1@0 s=1.consonant c=C, 2@2 s=1.consonant c=VBlw;
  1@0 s=1.consonant c=C x=4, 2@2 s=1.consonant c=VBlw x=8
Myanmar: C A C; rule=myanmar level=1; 1@0 s=1.consonant c=C, 2@3 s=1.consonant c=A, 3@4 s=1.consonant c=C;
  1@0 s=1.consonant c=C x=4, 2@3 s=1.consonant c=A x=5, 3@4 s=1.consonant c=C x=5
Myanmar: A VBlw A; rule=myanmar; 1@0 s=1.consonant c=A, 2@2 s=1.consonant c=VBlw, 3@5 s=1.consonant c=A;
  1@0 s=1.consonant c=A x=4, 3@2 s=1.consonant c=A x=7, 2@2 s=1.consonant c=VBlw x=8
Myanmar: MH VBlw V; rule=myanmar level=1; 1@0 s=1.broken c=MH, 2@1 s=1.broken c=VBlw, 3@3 s=2.consonant c=V;
  1@0 s=1.broken c=MH x=4, 2@1 s=1.broken c=VBlw x=8, 3@3 s=2.consonant c=V x=4
Myanmar: VPre C VPre; rule=myanmar; 1@0 s=1.consonant c=VPre, 2@1 s=1.consonant c=C, 3@3 s=2.non c=VPre;
  1@0 s=1.consonant c=VPre x=3, 2@1 s=1.consonant c=C x=4, 3@3 s=2.non c=VPre
Myanmar: H H H A; rule=myanmar;
  1@2 s=1.consonant c=H, 2@1 s=1.consonant c=H, 3@0 s=1.consonant c=H, 4@0 s=1.consonant c=A;
  1@2 s=1.consonant c=H x=4, 2@1 s=1.consonant c=H x=5, 3@0 s=1.consonant c=H x=5, 4@0 s=1.consonant c=A x=5
Myanmar: A C VPre Ra; rule=myanmar;
  1@0 s=1.consonant c=A, 2@1 s=1.consonant c=C, 3@4 s=1.consonant c=VPre, 4@5 s=1.consonant c=Ra;
  3@0 s=1.consonant c=VPre x=2, 1@0 s=1.consonant c=A x=3, 2@0 s=1.consonant c=C x=4, 4@5 s=1.consonant c=Ra x=5
Myanmar: A VBlw VBlw VBlw; rule=myanmar;
  1@0 s=1.broken c=A, 2@1 s=1.broken c=VBlw, 3@2 s=1.broken c=VBlw, 4@3 s=2.consonant c=VBlw;
  1@0 s=1.broken c=A x=4, 2@1 s=1.broken c=VBlw x=8, 3@2 s=1.broken c=VBlw x=8, 4@3 s=2.consonant c=VBlw x=4
Myanmar: SM H SM C SM; rule=myanmar level=1;
  1@0 s=1.broken c=SM, 2@3 s=2.consonant c=H, 3@3 s=3.broken c=SM, 4@4 s=3.broken c=C, 5@7 s=3.broken c=SM;
  1@0 s=1.broken c=SM x=4, 2@3 s=2.consonant c=H x=4, 3@3 s=3.broken c=SM x=3, 4@4 s=3.broken c=C x=4,
  5@7 s=3.broken c=SM x=5
Myanmar: Ra As H VAbv SM; rule=myanmar;
  1@0 s=1.broken c=Ra, 2@3 s=1.broken c=As, 3@5 s=1.broken c=H, 4@6 s=1.broken c=VAbv, 5@7 s=1.broken c=SM;
  4@0 s=1.broken c=VAbv x=4, 1@0 s=1.broken c=Ra x=5, 2@0 s=1.broken c=As x=5, 3@0 s=1.broken c=H x=5,
  5@7 s=1.broken c=SM x=5
Myanmar: VPre VPre VPre C VPre; rule=myanmar;
  1@5 s=1.consonant c=VPre, 2@5 s=1.consonant c=VPre, 3@4 s=1.consonant c=VPre, 4@1 s=1.consonant c=C,
  5@0 s=1.consonant c=VPre;
  5@0 s=1.consonant c=VPre x=2, 1@0 s=1.consonant c=VPre x=3, 2@0 s=1.consonant c=VPre x=3,
  3@0 s=1.consonant c=VPre x=3, 4@0 s=1.consonant c=C x=4
Myanmar: C CS C VBlw C H; rule=myanmar;
  1@0 s=1.consonant c=C, 2@2 s=1.consonant c=CS, 3@4 s=1.consonant c=C, 4@4 s=1.consonant c=VBlw,
  5@5 s=1.consonant c=C, 6@8 s=1.consonant c=H;
  1@0 s=1.consonant c=C x=4, 2@2 s=1.consonant c=CS x=5, 3@4 s=1.consonant c=C x=5, 4@4 s=1.consonant c=VBlw x=8,
  5@5 s=1.consonant c=C x=9, 6@8 s=1.consonant c=H x=9
Myanmar: VPst VPst C A VPst C; rule=myanmar level=1;
  1@0 s=1.non c=VPst, 2@3 s=2.consonant c=VPst, 3@4 s=3.non c=C, 4@6 s=3.non c=A, 5@9 s=3.non c=VPst, 6@12 s=3.non c=C;
  1@0 s=1.non c=VPst, 2@3 s=2.consonant c=VPst x=4, 3@4 s=3.non c=C, 4@6 s=3.non c=A, 5@9 s=3.non c=VPst,
  6@12 s=3.non c=C
Universal: B VPre; rule=universal level=1; 97@0 s=1.standard c=B, 98@1 s=1.standard c=VPre;
  98@0 s=1.standard c=VPre, 97@0 s=1.standard c=B
Universal: B H B VPre; rule=universal level=1;
  97@0 s=1.standard c=B, 98@1 s=1.standard c=H, 99@2 s=1.standard c=B, 100@3 s=1.standard c=VPre;
  97@0 s=1.standard c=B, 98@1 s=1.standard c=H, 100@2 s=1.standard c=VPre, 99@2 s=1.standard c=B
Universal: R; rule=universal level=1; 1@0 s=1.sakot c=R g=2 l=70000002; 1@0 s=1.sakot c=R g=2
Universal: VPre; rule=universal; 1@0 s=1.standard c=VPre g=2 l=70000002; 1@0 s=1.standard c=VPre g=2
Universal: R R; rule=universal; 1@0 s=1.standard c=R g=2 l=1, 2@3 s=1.standard c=R g=50 l=60000001;
  2@0 s=1.standard c=R g=50, 1@0 s=1.standard c=R g=2
Universal: R VPre; rule=universal level=1; 1@0 s=1.standard c=R g=2 l=1, 2@1 s=1.standard c=VPre g=2;
  2@0 s=1.standard c=VPre g=2, 1@0 s=1.standard c=R g=2
Universal: VPre VPre; rule=universal; 1@0 s=1.standard c=VPre g=2, 2@2 s=1.standard c=VPre g=50;
  2@0 s=1.standard c=VPre g=50, 1@0 s=1.standard c=VPre g=2
Universal: R R VPre; rule=universal;
  1@0 s=1.standard c=R g=2, 2@1 s=2.standard c=R g=2 l=60000001, 3@3 s=2.standard c=VPre g=2 l=70000002;
  1@0 s=1.standard c=R g=2, 3@1 s=2.standard c=VPre g=2, 2@1 s=2.standard c=R g=2
Universal: CS VPre H; rule=universal;
  1@3 s=1.standard c=CS g=50, 2@1 s=1.standard c=VPre g=2 l=70000002, 3@0 s=1.standard c=H g=2 l=70000002;
  2@1 s=1.standard c=VPre g=2, 1@1 s=1.standard c=CS g=50, 3@0 s=1.standard c=H g=2
Universal: H VPre VPre; rule=universal; 1@0 s=1.sakot c=H g=2, 2@2 s=1.sakot c=VPre g=2, 3@3 s=1.sakot c=VPre g=2;
  1@0 s=1.sakot c=H g=2, 3@2 s=1.sakot c=VPre g=2, 2@2 s=1.sakot c=VPre g=2
Universal: H VPre FAbv; rule=universal level=1;
  1@4 s=1.sakot c=H g=50, 2@2 s=1.sakot c=VPre g=2, 3@0 s=1.sakot c=FAbv g=2;
  2@2 s=1.sakot c=VPre g=2, 1@2 s=1.sakot c=H g=50, 3@0 s=1.sakot c=FAbv g=2
Universal: H VPre SMAbv; rule=universal;
  1@0 s=1.standard c=H g=50 l=60000001, 2@2 s=1.standard c=VPre g=50, 3@3 s=1.standard c=SMAbv g=2 l=60000001;
  2@0 s=1.standard c=VPre g=50, 1@0 s=1.standard c=H g=50, 3@3 s=1.standard c=SMAbv g=2
Universal: R H H R; rule=universal;
  1@0 s=1.virama c=R g=50, 2@0 s=1.virama c=H g=50 l=60000001, 3@1 s=1.virama c=H g=50 l=1,
  4@3 s=2.number_joiner c=R g=2 l=1;
  2@0 s=1.virama c=H g=50, 3@0 s=1.virama c=H g=50, 1@0 s=1.virama c=R g=50, 4@3 s=2.number_joiner c=R g=2
Universal: R VPre MPre H; rule=universal level=1;
  1@0 s=1.virama c=R g=2 l=60000001, 2@2 s=1.virama c=VPre g=2, 3@3 s=1.virama c=MPre g=50,
  4@4 s=1.virama c=H g=2 l=70000002;
  2@0 s=1.virama c=VPre g=2, 1@0 s=1.virama c=R g=2, 3@3 s=1.virama c=MPre g=50, 4@4 s=1.virama c=H g=2
Universal: R MPre CMAbv VPre; rule=universal level=1;
  1@0 s=1.standard c=R g=2, 2@0 s=1.standard c=MPre g=2 l=60000001, 3@2 s=1.standard c=CMAbv g=50 l=1,
  4@3 s=1.standard c=VPre g=2;
  4@0 s=1.standard c=VPre g=2, 1@0 s=1.standard c=R g=2, 2@0 s=1.standard c=MPre g=2, 3@0 s=1.standard c=CMAbv g=50
Universal: CMAbv VPre CMAbv VAbv; rule=universal level=1;
  1@0 s=1.standard c=CMAbv g=2, 2@1 s=1.standard c=VPre g=2, 3@4 s=1.standard c=CMAbv g=50 l=60000001,
  4@7 s=1.standard c=VAbv g=2;
  2@0 s=1.standard c=VPre g=2, 1@0 s=1.standard c=CMAbv g=2, 3@4 s=1.standard c=CMAbv g=50, 4@7 s=1.standard c=VAbv g=2
Universal: CS H CS VPre H; rule=universal level=1;
  1@0 s=1.symbol c=CS g=50, 2@1 s=1.symbol c=H g=2 l=60000001, 3@1 s=1.symbol c=CS g=2, 4@3 s=1.symbol c=VPre g=2,
  5@3 s=2.symbol c=H g=2;
  1@0 s=1.symbol c=CS g=50, 2@1 s=1.symbol c=H g=2, 4@1 s=1.symbol c=VPre g=2, 3@1 s=1.symbol c=CS g=2,
  5@1 s=2.symbol c=H g=2
Universal: R SMAbv VPre VPre H; rule=universal;
  1@0 s=1.virama c=R g=2, 2@3 s=1.virama c=SMAbv g=2, 3@6 s=1.virama c=VPre g=2, 4@9 s=1.virama c=VPre g=2 l=70000002,
  5@10 s=1.virama c=H g=2 l=1;
  4@0 s=1.virama c=VPre g=2, 3@0 s=1.virama c=VPre g=2, 2@0 s=1.virama c=SMAbv g=2, 1@0 s=1.virama c=R g=2,
  5@10 s=1.virama c=H g=2
Universal: VPre VPre R FMPst VPre; rule=universal;
  1@3 s=1.virama c=VPre g=2 l=1, 2@3 s=1.virama c=VPre g=2 l=70000002, 3@2 s=1.virama c=R g=50,
  4@1 s=1.virama c=FMPst g=2 l=70000002, 5@0 s=1.virama c=VPre g=50 l=70000002;
  5@0 s=1.virama c=VPre g=50, 2@0 s=1.virama c=VPre g=2, 1@0 s=1.virama c=VPre g=2, 3@0 s=1.virama c=R g=50,
  4@0 s=1.virama c=FMPst g=2
Universal: R R R R VPre R; rule=universal;
  1@0 s=1.symbol c=R g=2, 2@3 s=1.symbol c=R g=2 l=70000002, 3@4 s=2.independent c=R g=2,
  4@4 s=3.broken c=R g=2 l=70000002, 5@6 s=3.broken c=VPre g=2 l=70000002, 6@9 s=3.broken c=R g=2;
  2@0 s=1.symbol c=R g=2, 1@0 s=1.symbol c=R g=2, 3@4 s=2.independent c=R g=2, 5@4 s=3.broken c=VPre g=2,
  4@4 s=3.broken c=R g=2, 6@9 s=3.broken c=R g=2
Universal: R SMAbv VPre R MBlw H; rule=universal;
  1@0 s=1.sakot c=R g=50 l=70000002, 2@1 s=1.sakot c=SMAbv g=2 l=60000001, 3@2 s=1.sakot c=VPre g=2,
  4@3 s=2.independent c=R g=2 l=60000001, 5@5 s=2.independent c=MBlw g=2 l=1, 6@6 s=2.independent c=H g=50 l=60000001;
  3@0 s=1.sakot c=VPre g=2, 2@0 s=1.sakot c=SMAbv g=2, 1@0 s=1.sakot c=R g=50, 4@3 s=2.independent c=R g=2,
  5@5 s=2.independent c=MBlw g=2, 6@6 s=2.independent c=H g=50
Universal: IS VPre VPre VPre IS VPre; rule=universal;
  1@0 s=1.sakot c=IS g=2, 2@2 s=2.broken c=VPre g=2, 3@4 s=2.broken c=VPre g=2, 4@4 s=2.broken c=VPre g=2,
  5@5 s=3.standard c=IS g=2, 6@6 s=3.standard c=VPre g=2;
  1@0 s=1.sakot c=IS g=2, 4@2 s=2.broken c=VPre g=2, 3@2 s=2.broken c=VPre g=2, 2@2 s=2.broken c=VPre g=2,
  5@5 s=3.standard c=IS g=2, 6@6 s=3.standard c=VPre g=2
forms: 1.non; rule=forms forms=1; 1@0 s=1.non c=H m=80000000; 1@0 s=1.non c=H m=80000000
forms: 1.standard; rule=forms forms=1 isol=10; 1@0 s=1.standard c=H m=80000000; 1@0 s=1.standard c=H m=80000010
forms: 1.numeral; rule=forms forms=1 isol=10 init=20 medi=40; 1@0 s=1.numeral c=B m=80000000;
  1@0 s=1.numeral c=B m=80000010
forms: 1.non; rule=forms rphf=10 forms=1; 1@0 s=1.non c=R m=80000000; 1@0 s=1.non c=R m=80000010
forms: 1.standard 1.standard; rule=forms forms=1 isol=10 init=20;
  1@0 s=1.standard c=H m=80000000, 2@1 s=1.standard c=R m=80000000;
  1@0 s=1.standard c=H m=80000010, 2@1 s=1.standard c=R m=80000010
forms: 1.hieroglyph 2.symbol; rule=forms rphf=10 forms=1 isol=20 init=40 medi=80 fina=100;
  1@0 s=1.hieroglyph c=R m=80000000, 2@1 s=2.symbol c=R m=80000000;
  1@0 s=1.hieroglyph c=R m=80000010, 2@1 s=2.symbol c=R m=80000030
forms: 1.hieroglyph 1.hieroglyph; rule=forms rphf=10 forms=1 init=20;
  1@0 s=1.hieroglyph c=VAbv m=80000000, 2@1 s=1.hieroglyph c=B m=80000000;
  1@0 s=1.hieroglyph c=VAbv m=80000010, 2@1 s=1.hieroglyph c=B m=80000010
forms: 1.non 2.non 2.non; rule=forms rphf=10 forms=1 init=20 medi=40;
  1@0 s=1.non c=VAbv m=80000000, 2@1 s=2.non c=H m=80000000, 3@2 s=2.non c=B m=80000000;
  1@0 s=1.non c=VAbv m=80000010, 2@1 s=2.non c=H m=80000010, 3@2 s=2.non c=B m=80000010
forms: 1.broken 1.broken 1.broken; rule=forms rphf=10 forms=1 init=20 medi=40 fina=80;
  1@0 s=1.broken c=R m=80000000, 2@1 s=1.broken c=B m=80000000, 3@2 s=1.broken c=B m=80000040;
  1@0 s=1.broken c=R m=80000010, 2@1 s=1.broken c=B m=80000000, 3@2 s=1.broken c=B m=80000000
forms: 1.broken 1.broken 1.broken 2.virama; rule=forms forms=1 isol=10 init=20 medi=40 fina=80;
  1@0 s=1.broken c=H m=80000010, 2@1 s=1.broken c=B m=80000010, 3@2 s=1.broken c=R m=80000040,
  4@3 s=2.virama c=B m=80000000;
  1@0 s=1.broken c=H m=80000020, 2@1 s=1.broken c=B m=80000020, 3@2 s=1.broken c=R m=80000020,
  4@3 s=2.virama c=B m=80000080
forms: 1.broken 1.broken 2.virama 3.broken; rule=forms forms=1 isol=10 init=20 fina=40;
  1@0 s=1.broken c=R m=80000010, 2@1 s=1.broken c=H m=80000010, 3@2 s=2.virama c=H m=80000010,
  4@3 s=3.broken c=R m=80000000;
  1@0 s=1.broken c=R m=80000020, 2@1 s=1.broken c=H m=80000020, 3@2 s=2.virama c=H m=80000000,
  4@3 s=3.broken c=R m=80000040
forms: 1.standard 2.broken 3.broken 4.standard 5.symbol; rule=forms rphf=10 forms=1 isol=20 init=40 medi=80 fina=100;
  1@0 s=1.standard c=B m=80000000, 2@1 s=2.broken c=B m=80000000, 3@2 s=3.broken c=R m=80000000,
  4@3 s=4.standard c=B m=80000000, 5@4 s=5.symbol c=B m=80000000;
  1@0 s=1.standard c=B m=80000050, 2@1 s=2.broken c=B m=80000090, 3@2 s=3.broken c=R m=80000090,
  4@3 s=4.standard c=B m=80000090, 5@4 s=5.symbol c=B m=80000110
forms: 1.symbol 2.standard 2.standard 3.symbol 4.symbol; rule=forms rphf=10 forms=1 isol=20 init=40 medi=80 fina=100;
  1@0 s=1.symbol c=B m=80000010, 2@1 s=2.standard c=VAbv m=80000030, 3@2 s=2.standard c=B m=80000090,
  4@3 s=3.symbol c=VAbv m=80000030, 5@4 s=4.symbol c=R m=80000030;
  1@0 s=1.symbol c=B m=80000050, 2@1 s=2.standard c=VAbv m=80000090, 3@2 s=2.standard c=B m=80000090,
  4@3 s=3.symbol c=VAbv m=80000090, 5@4 s=4.symbol c=R m=80000110
forms: 1.broken 2.symbol 3.numeral 4.symbol 5.broken 6.numeral 7.numeral; rule=forms forms=1 isol=10 init=20 medi=40;
  1@0 s=1.broken c=R m=80000040, 2@1 s=2.symbol c=R m=80000040, 3@2 s=3.numeral c=H m=80000000,
  4@3 s=4.symbol c=R m=80000040, 5@4 s=5.broken c=B m=80000040, 6@5 s=6.numeral c=B m=80000010,
  7@6 s=7.numeral c=B m=80000010;
  1@0 s=1.broken c=R m=80000020, 2@1 s=2.symbol c=R m=80000040, 3@2 s=3.numeral c=H m=80000040,
  4@3 s=4.symbol c=R m=80000040, 5@4 s=5.broken c=B m=80000040, 6@5 s=6.numeral c=B m=80000040,
  7@6 s=7.numeral c=B m=80000000
reph: 1.standard; rule=rphf; 1@0 s=1.standard c=B m=80000010 g=2; 1@0 s=1.standard c=B m=80000010 g=2
reph: 1.standard; rule=rphf rphf=10; 1@0 s=1.standard c=B m=80000000 g=2; 1@0 s=1.standard c=B m=80000000 g=2
reph: 1.virama 2.virama; rule=rphf rphf=10; 1@0 s=1.virama c=B m=80000010 g=18, 2@1 s=2.virama c=H m=80000000 g=18;
  1@0 s=1.virama c=R m=80000010 g=18, 2@1 s=2.virama c=H m=80000000 g=18
reph: 1.standard 1.standard; rule=rphf rphf=10;
  1@0 s=1.standard c=VBlw m=80000010 g=18, 2@1 s=1.standard c=H m=80000000 g=18;
  1@0 s=1.standard c=R m=80000010 g=18, 2@1 s=1.standard c=H m=80000000 g=18
reph: 1.standard 2.broken 2.broken 3.standard; rule=rphf rphf=10;
  1@0 s=1.standard c=H m=80000010 g=50, 2@1 s=2.broken c=B m=80000010 g=18, 3@2 s=2.broken c=R m=80000010 g=18,
  4@3 s=3.standard c=B m=80000000 g=2;
  1@0 s=1.standard c=R m=80000010 g=50, 2@1 s=2.broken c=R m=80000010 g=18, 3@2 s=2.broken c=R m=80000010 g=18,
  4@3 s=3.standard c=B m=80000000 g=2
reph: 1.broken 2.virama 2.virama 3.virama; rule=rphf rphf=10;
  1@0 s=1.broken c=R m=80000000 g=2, 2@1 s=2.virama c=H m=80000010 g=18, 3@2 s=2.virama c=R m=80000010 g=18,
  4@3 s=3.virama c=VBlw m=80000000 g=50;
  1@0 s=1.broken c=R m=80000000 g=2, 2@1 s=2.virama c=R m=80000010 g=18, 3@2 s=2.virama c=R m=80000010 g=18,
  4@3 s=3.virama c=VBlw m=80000000 g=50
pref: 1.standard; rule=pref; 1@0 s=1.standard c=H m=80000000 g=50; 1@0 s=1.standard c=VPre m=80000000 g=50
pref: 1.virama; rule=pref; 1@0 s=1.virama c=VBlw m=80000010 g=18; 1@0 s=1.virama c=VPre m=80000010 g=18
pref: 1.standard 2.broken; rule=pref; 1@0 s=1.standard c=B m=80000010 g=18, 2@1 s=2.broken c=R m=80000010 g=2;
  1@0 s=1.standard c=VPre m=80000010 g=18, 2@1 s=2.broken c=R m=80000010 g=2
pref: 1.virama 2.virama; rule=pref; 1@0 s=1.virama c=R m=80000010 g=2, 2@1 s=2.virama c=B m=80000010 g=18;
  1@0 s=1.virama c=R m=80000010 g=2, 2@1 s=2.virama c=VPre m=80000010 g=18
pref: 1.virama 1.virama; rule=pref; 1@0 s=1.virama c=H m=80000010 g=18, 2@1 s=1.virama c=R m=80000000 g=18;
  1@0 s=1.virama c=VPre m=80000010 g=18, 2@1 s=1.virama c=R m=80000000 g=18
pref: 1.broken 1.broken 1.broken 2.standard; rule=pref;
  1@0 s=1.broken c=VBlw m=80000000 g=18, 2@1 s=1.broken c=B m=80000000 g=50, 3@2 s=1.broken c=R m=80000000 g=18,
  4@3 s=2.standard c=R m=80000010 g=18;
  1@0 s=1.broken c=VPre m=80000000 g=18, 2@1 s=1.broken c=B m=80000000 g=50, 3@2 s=1.broken c=R m=80000000 g=18,
  4@3 s=2.standard c=VPre m=80000010 g=18
cleared: 1.standard; rule=clear; 1@0 s=1.standard c=R m=80000010 g=50; 1@0 s=1.standard c=R m=80000010 g=34
cleared: 1.virama 1.virama; rule=clear; 1@0 s=1.virama c=R m=80000010 g=18, 2@1 s=1.virama c=R m=80000010 g=2;
  1@0 s=1.virama c=R m=80000010 g=2, 2@1 s=1.virama c=R m=80000010 g=2
cleared: 1.standard 1.standard 1.standard; rule=clear;
  1@0 s=1.standard c=H m=80000010 g=2, 2@1 s=1.standard c=H m=80000010 g=2, 3@2 s=1.standard c=H m=80000000 g=18;
  1@0 s=1.standard c=H m=80000010 g=2, 2@1 s=1.standard c=H m=80000010 g=2, 3@2 s=1.standard c=H m=80000000 g=2
cleared: 1.broken 1.broken 1.broken; rule=clear;
  1@0 s=1.broken c=H m=80000010 g=18, 2@1 s=1.broken c=B m=80000010 g=18, 3@2 s=1.broken c=VBlw m=80000010 g=2;
  1@0 s=1.broken c=H m=80000010 g=2, 2@1 s=1.broken c=B m=80000010 g=2, 3@2 s=1.broken c=VBlw m=80000010 g=2
cleared: 1.standard 2.broken 3.broken; rule=clear;
  1@0 s=1.standard c=B m=80000000 g=2, 2@1 s=2.broken c=H m=80000010 g=18, 3@2 s=3.broken c=H m=80000010 g=2;
  1@0 s=1.standard c=B m=80000000 g=2, 2@1 s=2.broken c=H m=80000010 g=2, 3@2 s=3.broken c=H m=80000010 g=2
tiles: a glyph; rule=record; 1@0 x=6 g=66 l=50000000; 1@0 x=6 g=66
tiles: a glyph; rule=record stch=1; 1@0 x=5 g=82 l=10000000; 1@0 x=8 g=82
tiles: 2 glyphs; rule=record stch=1; 1@0 x=2 g=64, 2@1 x=2 g=82 l=1; 1@0 x=8 g=64, 2@1 x=9 g=82
tiles: 2 glyphs; rule=record stch=1; 1@0 x=3 g=82, 2@1 x=7 g=66 l=1; 1@0 x=8 g=82, 2@1 x=9 g=66
tiles: 3 glyphs; rule=record stch=1; 1@0 x=5 g=66 l=40000000, 2@1 x=5 g=66 l=40000001, 3@2 x=2 g=64 l=2;
  1@0 x=8 g=66, 2@1 x=9 g=66, 3@2 x=8 g=64
tiles: 4 glyphs; rule=record stch=1; 1@0 x=2 g=66 l=10000000, 2@1 x=5, 3@2 x=3 g=18 l=10000000, 4@3 x=5;
  1@0 x=8 g=66, 2@1 x=5, 3@2 x=3 g=18, 4@3 x=5
tiles: 4 glyphs; rule=record stch=1; 1@0 x=1 g=64 l=10000000, 2@1 x=3 g=66 l=1, 3@2 x=6 g=82 l=2, 4@3 x=6 g=82 l=3;
  1@0 x=8 g=64, 2@1 x=9 g=66, 3@2 x=8 g=82, 4@3 x=9 g=82
tiles: 4 glyphs; rule=record stch=1; 1@0 x=4 g=82, 2@1 x=5 g=64 l=1, 3@2 x=4 g=82 l=2, 4@3 x=2 g=64 l=3;
  1@0 x=8 g=82, 2@1 x=9 g=64, 3@2 x=8 g=82, 4@3 x=9 g=64
tiles: 5 glyphs; rule=record stch=1; 1@0 x=3, 2@1 x=7, 3@2 x=1, 4@3 g=18 l=10000000, 5@4 x=1 g=66 l=40000000;
  1@0 x=3, 2@1 x=7, 3@2 x=1, 4@3 g=18, 5@4 x=8 g=66
tiles: 5 glyphs; rule=record stch=1;
  1@0 x=3 g=82, 2@1 x=4 g=64, 3@2 x=6 g=82 l=40000001, 4@3 x=3 g=66 l=40000002, 5@4 x=6 g=82 l=3;
  1@0 x=8 g=82, 2@1 x=8 g=64, 3@2 x=9 g=82, 4@3 x=8 g=66, 5@4 x=9 g=82";
