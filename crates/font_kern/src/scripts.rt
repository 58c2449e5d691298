//! Scripts that are written from right to left.
ghost use Rattle.std.specs.Prelude.{◌≡◌, ◌++◌, ◌==◌, IfOk, OnOk};
ghost use Rattle.std.specs.List.{list_any};
ghost use Rattle.buffer_common.specs.Direction.{is_among};
ghost use Rattle.buffer_rows.specs.KeyOrder.{key_order};
ghost use Rattle.font_kern.specs.Scripts.{hebrew_tag, is_backward_tag, script_row, rows_among, backward_rows, is_in_backward_block, scripts_of};

use buffer_common::script::{self, Script};
use buffer_common::tag::Tag;
use buffer_rows::Keyed;
use buffer_unicode::character::CharExt;
use layout_face::parts::CharacterRow;
use std::alloc::{AllocError, Global};

/// A script that is written from right to left, with its tag in OpenType's registry.
#[derive(Clone, Copy, PartialEq, Eq, Debug)]
pub struct BackwardScript {
    pub script: Script,
    pub tag: Tag,
}

/// A script of a layout table by its tag, and whether its texts run from right to left.
#[derive(Clone, Copy, PartialEq, Eq, Debug, Drop)]
pub struct ScriptRow {
    pub tag: Tag,
    pub is_backward: bool,
}

impl Keyed for ScriptRow {
    type Key = u32;

    ghost key_of = { λ r. r.tag.0 };

    fn key(&self) -> u32 {
        self.tag.0
    }
}

/// The scripts that are written from right to left but Hebrew, by rising tags.
pub const BACKWARD: [BackwardScript; 34] = [
    BackwardScript {
        script: script::ADLAM,
        // adlm
        tag: Tag(0x61646c6d),
    },
    BackwardScript {
        script: script::ARABIC,
        // arab
        tag: Tag(0x61726162),
    },
    BackwardScript {
        script: script::IMPERIAL_ARAMAIC,
        // armi
        tag: Tag(0x61726d69),
    },
    BackwardScript {
        script: script::AVESTAN,
        // avst
        tag: Tag(0x61767374),
    },
    BackwardScript {
        script: script::CHORASMIAN,
        // chrs
        tag: Tag(0x63687273),
    },
    BackwardScript {
        script: script::CYPRIOT,
        // cprt
        tag: Tag(0x63707274),
    },
    BackwardScript {
        script: script::ELYMAIC,
        // elym
        tag: Tag(0x656c796d),
    },
    BackwardScript {
        script: script::GARAY,
        // gara
        tag: Tag(0x67617261),
    },
    BackwardScript {
        script: script::HATRAN,
        // hatr
        tag: Tag(0x68617472),
    },
    BackwardScript {
        script: script::KHAROSHTHI,
        // khar
        tag: Tag(0x6b686172),
    },
    BackwardScript {
        script: script::LYDIAN,
        // lydi
        tag: Tag(0x6c796469),
    },
    BackwardScript {
        script: script::MANDAIC,
        // mand
        tag: Tag(0x6d616e64),
    },
    BackwardScript {
        script: script::MANICHAEAN,
        // mani
        tag: Tag(0x6d616e69),
    },
    BackwardScript {
        script: script::MENDE_KIKAKUI,
        // mend
        tag: Tag(0x6d656e64),
    },
    BackwardScript {
        script: script::MEROITIC_CURSIVE,
        // merc
        tag: Tag(0x6d657263),
    },
    BackwardScript {
        script: script::MEROITIC_HIEROGLYPHS,
        // mero
        tag: Tag(0x6d65726f),
    },
    BackwardScript {
        script: script::OLD_NORTH_ARABIAN,
        // narb
        tag: Tag(0x6e617262),
    },
    BackwardScript {
        script: script::NABATAEAN,
        // nbat
        tag: Tag(0x6e626174),
    },
    BackwardScript {
        script: script::NKO,
        // nko
        tag: Tag(0x6e6b6f20),
    },
    BackwardScript {
        script: script::OLD_TURKIC,
        // orkh
        tag: Tag(0x6f726b68),
    },
    BackwardScript {
        script: script::OLD_UYGHUR,
        // ougr
        tag: Tag(0x6f756772),
    },
    BackwardScript {
        script: script::PALMYRENE,
        // palm
        tag: Tag(0x70616c6d),
    },
    BackwardScript {
        script: script::INSCRIPTIONAL_PAHLAVI,
        // phli
        tag: Tag(0x70686c69),
    },
    BackwardScript {
        script: script::PSALTER_PAHLAVI,
        // phlp
        tag: Tag(0x70686c70),
    },
    BackwardScript {
        script: script::PHOENICIAN,
        // phnx
        tag: Tag(0x70686e78),
    },
    BackwardScript {
        script: script::INSCRIPTIONAL_PARTHIAN,
        // prti
        tag: Tag(0x70727469),
    },
    BackwardScript {
        script: script::HANIFI_ROHINGYA,
        // rohg
        tag: Tag(0x726f6867),
    },
    BackwardScript {
        script: script::SAMARITAN,
        // samr
        tag: Tag(0x73616d72),
    },
    BackwardScript {
        script: script::OLD_SOUTH_ARABIAN,
        // sarb
        tag: Tag(0x73617262),
    },
    BackwardScript {
        script: script::SOGDIAN,
        // sogd
        tag: Tag(0x736f6764),
    },
    BackwardScript {
        script: script::OLD_SOGDIAN,
        // sogo
        tag: Tag(0x736f676f),
    },
    BackwardScript {
        script: script::SYRIAC,
        // syrc
        tag: Tag(0x73797263),
    },
    BackwardScript {
        script: script::THAANA,
        // thaa
        tag: Tag(0x74686161),
    },
    BackwardScript {
        script: script::YEZIDI,
        // yezi
        tag: Tag(0x79657a69),
    },
];

/// `hebr`
const HEBREW: Tag = Tag(0x68656272);

/// Whether texts of a script, by its tag, run from right to left.
pub fn is_backward_tag(tag: Tag) -> bool
    ensures { result ≡ is_backward_tag tag }
{
    tag == HEBREW || has_tag(&BACKWARD, tag)
}

fn has_tag(known: &[BackwardScript], tag: Tag) -> bool
    ensures { result ≡ list_any (λ b. b.tag.0 == tag.0) known.now }
{
    known.iter().any(|row| row.tag == tag)
}

/// Whether a script is among some.
fn is_among(scripts: &[Script], script: Script) -> bool
    ensures { result ≡ is_among scripts.now script }
{
    scripts.contains(&script)
}

/// A script by its tag, with its direction.
pub fn script_row(tag: Tag) -> ScriptRow
    ensures { result ≡ script_row tag }
{
    ScriptRow {
        tag,
        is_backward: is_backward_tag(tag),
    }
}

/// Sorts rows by their tags; those of one tag keep their order.
pub fn sort_rows(rows: &mut Vec<ScriptRow>) -> Result<(), AllocError>
    ensures { OnOk result (rows.new.items ≡ key_order (λ r. r.tag.0) rows.old.items) }
{
    rows.sort_by_key(|row| row.tag.0)?;
    Ok(())
}

/// Whether a character is of the blocks that Unicode keeps for scripts from right to left.
fn is_in_backward_block(c: char) -> bool
    ensures { result ≡ is_in_backward_block c }
{
    matches!(c, '\u{590}'..='\u{8FF}' | '\u{FB1D}'..='\u{FEFF}' | '\u{10800}'..='\u{10FFF}' | '\u{1E800}'..='\u{1EFFF}')
}

/// The scripts of a font's characters in those blocks, a script for each character.
#[tactic(auto, using(crate::proofs::Picked::of_block, crate::proofs::Picked::of_no_block))]
pub fn scripts_of(alloc: Global, characters: &[CharacterRow]) -> Result<Vec<Script>, AllocError>
    ensures { IfOk result (λ v. v.items ≡ scripts_of characters.now) }
{
    let mut scripts = Vec::new(alloc);
    for row in characters {
        if is_in_backward_block(row.character) {
            scripts.push(row.character.script())?;
        }
    }
    Ok(scripts)
}

/// Appends a row for each of the known scripts that is among some.
#[tactic(auto, using(crate::proofs::Picked::script_met, crate::proofs::Picked::script_not_met))]
fn append_rows(
    scripts: &[Script],
    known: &[BackwardScript],
    rows: &mut Vec<ScriptRow>,
) -> Result<(), AllocError>
    ensures { OnOk result (rows.new.items ≡ rows.old.items ++ rows_among scripts.now known.now) }
{
    for row in known {
        if is_among(scripts, row.script) {
            rows.push(script_row(row.tag))?;
        }
    }
    Ok(())
}

/// Appends a row for each script from right to left, but Hebrew, that a font has characters of.
pub fn append_backward_rows(
    alloc: Global,
    characters: &[CharacterRow],
    rows: &mut Vec<ScriptRow>,
) -> Result<(), AllocError>
    ensures { OnOk result (rows.new.items ≡ rows.old.items ++ backward_rows characters.now) }
{
    let scripts = scripts_of(alloc, characters)?;
    append_rows(&scripts, &BACKWARD, rows)?;
    Ok(())
}
