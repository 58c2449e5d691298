//! The shaper that a text has, by its script and the script that GSUB has for it.
use crate::rows::part;
use buffer_common::direction::Direction;
use buffer_common::script::Script;
use buffer_common::tag::Tag;
use script_categories::hb_ot_script_shaper_t::{INDIC_SHAPER, UNIVERSAL_SHAPER};
use script_dispatch::{hb_ot_any_shaper_t, hb_ot_shape_complex_categorize};
use std::process::Abort;
use std::test::Fail;

// Each row has a script, the chosen script of GSUB, if there is one, and the shaper. By the tags of their scripts the nine
// scripts of India have the Indic shaper, but by those that end in 3 the universal one.
static ROWS: &str = "Deva;dev3;universal
Deva;dev2;indic
Deva;deva;indic
Deva;DFLT;default
Deva;latn;default
Deva;;indic
Beng;bng3;universal
Beng;bng2;indic
Beng;beng;indic
Beng;DFLT;default
Beng;latn;default
Beng;;indic
Guru;gur3;universal
Guru;gur2;indic
Guru;guru;indic
Guru;DFLT;default
Guru;latn;default
Guru;;indic
Gujr;gjr3;universal
Gujr;gjr2;indic
Gujr;gujr;indic
Gujr;DFLT;default
Gujr;latn;default
Gujr;;indic
Orya;ory3;universal
Orya;ory2;indic
Orya;orya;indic
Orya;DFLT;default
Orya;latn;default
Orya;;indic
Taml;tml3;universal
Taml;tml2;indic
Taml;taml;indic
Taml;DFLT;default
Taml;latn;default
Taml;;indic
Telu;tel3;universal
Telu;tel2;indic
Telu;telu;indic
Telu;DFLT;default
Telu;latn;default
Telu;;indic
Knda;knd3;universal
Knda;knd2;indic
Knda;knda;indic
Knda;DFLT;default
Knda;latn;default
Knda;;indic
Mlym;mlm3;universal
Mlym;mlm2;indic
Mlym;mlym;indic
Mlym;DFLT;default
Mlym;latn;default
Mlym;;indic
Latn;latn;default
Bali;bali;universal
Bali;DFLT;default";

fn shaper_name(shaper: hb_ot_any_shaper_t) -> &'static str {
    match shaper {
        hb_ot_any_shaper_t::Default => "default",
        hb_ot_any_shaper_t::Script(INDIC_SHAPER) => "indic",
        hb_ot_any_shaper_t::Script(UNIVERSAL_SHAPER) => "universal",
        _ => "another",
    }
}

fn chosen_script(text: &str) -> Option<Tag> {
    if text.is_empty() {
        None
    } else {
        Some(Tag::from_bytes_lossy(text.as_bytes()))
    }
}

fn has_shaper(row: &str) -> Result<bool, Fail> {
    let script: Script = part(row, 0).parse()?;
    let chosen = chosen_script(part(row, 1));
    let shaper = hb_ot_shape_complex_categorize(script, Direction::LeftToRight, chosen);
    Ok(shaper_name(shaper) == part(row, 2))
}

#[test]
fn scripts_have_their_shapers(rt: HostRuntime) -> Result<(), Fail> {
    for row in ROWS.lines() {
        let has_shaper = has_shaper(row)?;
        assert!(rt; has_shaper, "{row}");
    }
    Ok(())
}
