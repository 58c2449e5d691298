//! Texts of tables that are refused, each with the fault that comes first.
use crate::unicode_characters::tables_of;
use buffer_unicode_tables::{LawFault, UnicodeTables};
use serde_json::Value;
use shell_json::fault::JsonFault;
use shell_tables_json::{read_languages, read_syllables, read_tables};
use std::alloc::{AllocError, Global};
use std::test::Fail;

/// What is read of a text, the fault, and the text. For tables: each key, its row's items one by one; then several
/// faults: keys come before rows, rows before the items of one row, and these are in the order of their kinds.
/// Last, chains of decompositions: each character decomposes to the one before, eight decompositions in a chain are
/// allowed, nine are too many, and a syllable with a trailing consonant decomposes twice before its leading
/// consonant does. Syllables are the value of `syllables`; in the last two, states come before steps, steps before
/// accepting states, and Indic before Khmer. Languages are the value of `languages`. Last, tables that are not
/// lawful: U+1EA1 U+0301 is U+00E1 U+0323 in another order, as long as their classes differ.
pub(crate) static ROWS: &str = r#"tables none: {}
tables none: {"unicode":"15.0","languages":3}
tables J2 WrongShape: []
tables J2 WrongShape: {"splits":{}}
tables J2 WrongShape: {"splits":[3]}
tables J2 WrongShape: {"splits":[[98,97]]}
tables J2 WrongShape: {"splits":[[98,97,0,0]]}
tables J3 FloatNumber: {"splits":[[98,97,0.0]]}
tables U2 OutOfRange: {"splits":[[98,-97,0]]}
tables U2 OutOfRange: {"splits":[[55296,97,0]]}
tables U1 OutOfOrder: {"splits":[[98,97,0],[97,98,0]]}
tables U3 SplitDepth: {"splits":[[97,97,98]]}
tables U1 OutOfOrder: {"pairs":[[97,769,225],[97,769,226]]}
tables none: {"pairs":[[97,769,225],[97,776,228],[98,0,9]]}
tables U2 OutOfRange: {"pairs":[[97,769,1114112]]}
tables J2 WrongShape: {"classes":[[769,false]]}
tables J3 FloatNumber: {"classes":[[769,230.0]]}
tables none: {"classes":[[769,255]]}
tables U2 OutOfRange: {"classes":[[769,256]]}
tables U2 OutOfRange: {"mirrored":[[40,1114112]]}
tables U1 OutOfOrder: {"mirrored":[[40,41],[40,41]]}
tables U2 OutOfRange: {"vertical":[[40,57343]]}
tables U1 OutOfOrder: {"vertical":[[41,40],[40,41]]}
tables none: {"pictographic":[[9,3],[10,4]]}
tables U1 OutOfOrder: {"pictographic":[[9,12],[9,13]]}
tables J2 WrongShape: {"pictographic":[[9,"x"]]}
tables J4 UnknownName: {"joining":[[1576,"D"],[1577,"X"]]}
tables J2 WrongShape: {"joining":[[1576,3]]}
tables U1 OutOfOrder: {"joining":[[1576,"D"],[1575,"R"]]}
tables J4 UnknownName: {"indic":[[2309,"QQ","END"]]}
tables J4 UnknownName: {"indic":[[2309,"V","QQ"]]}
tables U1 OutOfOrder: {"indic":[[2309,"V","END"],[9,"V","END"]]}
tables J4 UnknownName: {"universal":[[6917,"Repha"]]}
tables U1 OutOfOrder: {"universal":[[6917,"B"],[6917,"B"]]}
tables U1 OutOfOrder: {"thai":[[3640,"SD",63256,63257],[3640,"SD",1,1]]}
tables none: {"thai":[[3640,"SD",63256,63257],[3640,"RD",1,1]]}
tables J4 UnknownName: {"thai":[[3640,"DR",63256,63257]]}
tables J2 WrongShape: {"thai":[[3640,"SD",63256]]}
tables U2 OutOfRange: {"thai":[[3640,"SD",63256,-1]]}
tables J3 FloatNumber: {"classes":[[769,18446744073709551616]]}
tables J3 FloatNumber: {"pairs":[[2,1,1],[1,1,1]],"splits":[[1,2,1.5]]}
tables J4 UnknownName: {"splits":[[1,1,1]],"thai":[[1,"QQ",1,1]]}
tables J4 UnknownName: {"thai":3,"universal":[[6917,"QQ"]]}
tables U1 OutOfOrder: {"classes":[[770,1],[769,1],[771,"x"]]}
tables U2 OutOfRange: {"classes":[[770,1],[769,256]]}
tables J3 FloatNumber: {"classes":[[770,1],[769,1.5]]}
tables J2 WrongShape: {"classes":[[1.5,"x"]]}
tables J3 FloatNumber: {"indic":[[1.5,"QQ","QQ"]]}
tables J4 UnknownName: {"indic":[[55296,"QQ","END"]]}
tables J2 WrongShape: {"indic":[[55296,"QQ",3]]}
tables U2 OutOfRange: {"splits":[[97,97,98],[98,1114112,0]]}
tables U1 OutOfOrder: {"splits":[[97,97,98]],"classes":[[1,1],[1,1]]}
tables none: {"splits":[[4097,4096,768],[4098,4097,768],[4099,4098,768],[4100,4099,0],[4101,4100,768],[4102,4101,768],[4103,4102,768],[4104,4103,768]]}
tables U3 SplitDepth: {"splits":[[4097,4096,768],[4098,4097,768],[4099,4098,768],[4100,4099,0],[4101,4100,768],[4102,4101,768],[4103,4102,768],[4104,4103,768],[4105,4104,768]]}
tables none: {"splits":[[4097,4096,768],[4098,4097,768],[4099,4098,768],[4100,4099,0],[4101,4100,768],[4352,4101,0]]}
tables U3 SplitDepth: {"splits":[[4097,4096,768],[4098,4097,768],[4099,4098,768],[4100,4099,0],[4101,4100,768],[4102,4101,0],[4352,4102,0]]}
syllables J2 WrongShape: []
syllables none: {"splits":3}
syllables J2 WrongShape: {"syllables":[]}
syllables none: {"syllables":{"thai":3}}
syllables J2 WrongShape: {"syllables":{"khmer":3}}
syllables J2 WrongShape: {"syllables":{"khmer":{"states":"x"}}}
syllables J3 FloatNumber: {"syllables":{"khmer":{"states":1.0}}}
syllables U2 OutOfRange: {"syllables":{"khmer":{"states":4294967296}}}
syllables U2 OutOfRange: {"syllables":{"khmer":{"states":-1}}}
syllables U2 OutOfRange: {"syllables":{"khmer":{"next":[[0,"C",0]]}}}
syllables U2 OutOfRange: {"syllables":{"khmer":{"states":1,"next":[[0,"C",1]]}}}
syllables J4 UnknownName: {"syllables":{"khmer":{"states":1,"next":[[0,"B",0]]}}}
syllables none: {"syllables":{"universal":{"states":1,"next":[[0,"B",0]]}}}
syllables U1 OutOfOrder: {"syllables":{"khmer":{"states":1,"next":[[0,"C",0],[0,"C",0]]}}}
syllables J4 UnknownName: {"syllables":{"khmer":{"states":1,"accept":[[0,"virama"]]}}}
syllables U2 OutOfRange: {"syllables":{"khmer":{"states":1,"accept":[[1,"non"]]}}}
syllables J2 WrongShape: {"syllables":{"indic":{"accept":3,"next":[[0]]},"khmer":{"states":1.5}}}
syllables J4 UnknownName: {"syllables":{"khmer":{"accept":3,"next":[[0,"QQ",9]]}}}
languages J2 WrongShape: 3
languages none: {"syllables":3}
languages J2 WrongShape: {"languages":{}}
languages J2 WrongShape: {"languages":[["en",["ENG"],3]]}
languages J2 WrongShape: {"languages":[[1.5,["ENG"]]]}
languages none: {"languages":[["en",[]],["en-GB",["ENG ","E","EN"]]]}
languages J2 WrongShape: {"languages":[["en",["A","B","C","D"]]]}
languages J2 WrongShape: {"languages":[["en",["ENGLI"]]]}
languages J2 WrongShape: {"languages":[["en",[""]]]}
languages J2 WrongShape: {"languages":[["en",["\u007f"]]]}
languages U1 OutOfOrder: {"languages":[["en",[]],["de",[]]]}
languages U1 OutOfOrder: {"languages":[["en",[]],["en",[]],["fr",3]]}
laws ClassOnNonMark: {"classes":[[97,230]]}
laws none: {"splits":[[225,97,769]],"classes":[[769,230]]}
laws SplitLosesClass: {"splits":[[836,776,769]],"classes":[[769,230],[836,230]]}
laws SecondPartSplits: {"splits":[[836,776,769],[901,168,836]]}
laws SecondPartSplits: {"splits":[[4520,97,0]]}
laws none: {"splits":[[225,97,769],[7841,97,803],[983040,225,803]],"pairs":[[7841,769,983040]],"classes":[[769,230],[803,220]]}
laws PairNotEquivalent: {"splits":[[225,97,769],[7841,97,803],[983040,225,803]],"pairs":[[7841,769,983040]],"classes":[[769,230],[803,230]]}
laws PairNotEquivalent: {"splits":[[225,97,769]],"pairs":[[97,769,226]]}"#;

/// A fault's name, where it isn't want of memory.
fn name_of(fault: Option<JsonFault>) -> Result<&'static str, Fail> {
    match fault {
        Some(JsonFault::OutOfMemory) => Err(AllocError)?,
        Some(fault) => Ok(fault.name()),
        None => Ok("none"),
    }
}

fn tables_fault(alloc: Global, text: &str) -> Result<&'static str, Fail> {
    let value = Value::from_str(alloc, text)?;
    name_of(read_tables(alloc, &value).err())
}

fn syllables_fault(alloc: Global, text: &str) -> Result<&'static str, Fail> {
    let value = Value::from_str(alloc, text)?;
    name_of(read_syllables(alloc, &value).err())
}

fn languages_fault(alloc: Global, text: &str) -> Result<&'static str, Fail> {
    let value = Value::from_str(alloc, text)?;
    name_of(read_languages(alloc, &value).err())
}

fn law_name(fault: Option<LawFault>) -> &'static str {
    match fault {
        Some(LawFault::SecondPartSplits) => "SecondPartSplits",
        Some(LawFault::PairNotEquivalent) => "PairNotEquivalent",
        Some(LawFault::ClassOnNonMark) => "ClassOnNonMark",
        Some(LawFault::SplitLosesClass) => "SplitLosesClass",
        Some(LawFault::AsciiMark) => "AsciiMark",
        None => "none",
    }
}

fn broken_law(tables: &UnicodeTables) -> &'static str {
    law_name(tables.law_fault())
}

fn law_fault(alloc: Global, text: &str) -> Result<&'static str, Fail> {
    let tables = tables_of(alloc, text)?;
    Ok(broken_law(&tables))
}

fn fault_of(alloc: Global, kind: &str, text: &str) -> Result<&'static str, Fail> {
    match kind {
        "tables" => tables_fault(alloc, text),
        "syllables" => syllables_fault(alloc, text),
        "languages" => languages_fault(alloc, text),
        _ => law_fault(alloc, text),
    }
}

/// Whether the first fault of a text is that of a row.
pub(crate) fn is_so(alloc: Global, row: &str) -> Result<bool, Fail> {
    let (kind, row) = row.split_once(' ').ok_or("no kind")?;
    let (fault, text) = row.split_once(": ").ok_or("no case")?;
    Ok(fault_of(alloc, kind, text)? == fault)
}
