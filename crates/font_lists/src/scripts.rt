//! Scripts and language systems (OpenType, chapter 2, script list, script and language system tables).
ghost use Rattle.std.specs.Prelude.{◌≡◌, ◌≢◌, ◌≤◌, ◌+◌, ◌*◌, ◌++◌, [], ◌∷◌, IfOk, IfErr, OnOk, Ok, Err, None, true, length};
ghost use Rattle.font_bytes.specs.declared.fault.TableFault.{TableFault};
ghost use Rattle.layout_tables.specs.Keyed.{is_rising};
ghost use Rattle.font_lists.specs.Scripts.{default_lang_sys_at, known_index, known_indices, lang_sys_at, lang_sys_of, lang_systems_at, script_at, script_list_at, script_of, scripts_of};
ghost use Rattle.font_common.specs.Words.{words_at};

use crate::tagged::{TagRecord, TaggedReader, read_by_tag, read_tagged_tables, table_offset};
use font_bytes::fault::TableFault;
use font_bytes::room::Room;
use font_bytes::words::{need, word};
use layout_tables::script::{LangSys, LangSysRecord, ScriptRecord};
use std::alloc::Global;

/// An index of a list of n elements, none where the list has no such element.
fn known_index(count: usize, index: u16) -> Option<u16>
    ensures { result ≡ known_index count index }
{
    if usize::from(index) < count {
        Some(index)
    } else {
        None
    }
}

/// Appends an index that a list of n elements has.
fn push_known(indices: &mut Vec<u16>, count: usize, index: u16) -> Result<(), TableFault>
    ensures ok { OnOk result (indices.new.items ≡ indices.old.items ++ known_indices count (index ∷ [])) }
    ensures refused { IfErr result (λ e. e ≡ TableFault.OutOfMemory) }
{
    if usize::from(index) < count {
        indices.push(index)?;
    }
    Ok(())
}

/// Reads the indices of an array that a list of n elements has.
#[tactic(auto, using(font_bytes::proofs::Recorded::records_more, font_bytes::proofs::Recorded::records_end))]
pub fn read_known_indices(
    alloc: Global,
    list_count: usize,
    table: &[u8],
    at: usize,
    count: usize,
) -> Result<Vec<u16>, TableFault>
    requires { at + 2 * count ≤ length table.now }
    ensures ok { IfOk result (λ v. v.items ≡ known_indices list_count (words_at table.now at count)) }
    ensures refused { IfErr result (λ e. e ≡ TableFault.OutOfMemory) }
{
    let mut indices = Vec::with_capacity(alloc, count)?;
    for position in 0..count {
        push_known(&mut indices, list_count, word(table, at + 2 * position))?;
    }
    Ok(indices)
}

/// Reads a language system table.
fn read_lang_sys(
    alloc: Global,
    feature_count: usize,
    table: &[u8],
    at: usize,
    room: &mut Room,
) -> Result<LangSys, TableFault>
    ensures ok { IfOk result (λ s. lang_sys_at feature_count room.old.left table.now at ≡ Ok (s, room.new.left)) }
    ensures refused { IfErr result (λ e. e ≢ TableFault.OutOfMemory
        → lang_sys_at feature_count room.old.left table.now at ≡ Err e) }
{
    need(table, at, 6)?;
    let required = known_index(feature_count, word(table, at + 2));
    let count = usize::from(word(table, at + 4));
    need(table, at + 6, 2 * count)?;
    room.take(count)?;
    let features = read_known_indices(alloc, feature_count, table, at + 6, count)?;
    Ok(LangSys::new(required, features))
}

/// Language systems of a table of n features.
#[derive(Clone, Copy)]
pub struct LangSysReader {
    pub feature_count: usize,
}

impl TaggedReader for LangSysReader {
    type Value = LangSysRecord;

    ghost value_of = { λ r. lang_sys_of r.feature_count };

    ghost tag_of = { λ s. s.tag.0 };

    fn read_tagged(
        &self,
        alloc: Global,
        table: &[u8],
        tagged: TagRecord,
        room: &mut Room,
    ) -> Result<LangSysRecord, TableFault> {
        if tagged.at == 0 {
            return Ok(LangSysRecord::new(tagged.tag, LangSys::new(None, Vec::new(alloc))));
        }
        let system = read_lang_sys(alloc, self.feature_count, table, tagged.at, room)?;
        Ok(LangSysRecord::new(tagged.tag, system))
    }
}

/// Reads the default language system, none where its offset is null.
fn read_default(
    alloc: Global,
    feature_count: usize,
    table: &[u8],
    at: usize,
    room: &mut Room,
) -> Result<Option<LangSys>, TableFault>
    ensures ok { IfOk result (λ s. default_lang_sys_at feature_count room.old.left table.now at ≡ Ok (s, room.new.left)) }
    ensures refused { IfErr result (λ e. e ≢ TableFault.OutOfMemory
        → default_lang_sys_at feature_count room.old.left table.now at ≡ Err e) }
{
    if at == 0 {
        return Ok(None);
    }
    let system = read_lang_sys(alloc, feature_count, table, at, room)?;
    Ok(Some(system))
}

/// Reads the language systems of n records of a script table.
#[tactic(auto, using(crate::proofs::Kept::rising_by_keys))]
fn read_lang_systems(
    alloc: Global,
    feature_count: usize,
    table: &[u8],
    base: usize,
    count: usize,
    room: &mut Room,
) -> Result<Vec<LangSysRecord>, TableFault>
    requires base_within { base + 4 ≤ length table.now }
    requires count_is_word { count ≤ 65535 }
    ensures ok { IfOk result (λ v. lang_systems_at feature_count room.old.left table.now base count ≡ Ok (v.items, room.new.left)) }
    ensures rising { IfOk result (λ v. is_rising (λ s. s.tag.0) None v.items ≡ true) }
    ensures refused { IfErr result (λ e. e ≢ TableFault.OutOfMemory
        → lang_systems_at feature_count room.old.left table.now base count ≡ Err e) }
{
    need(table, base + 4, 6 * count)?;
    room.take(count)?;
    let tagged = read_by_tag(alloc, table, base, base + 4, count)?;
    let reader = LangSysReader { feature_count };
    read_tagged_tables(&reader, alloc, table, tagged.rising_rows(), room)
}

/// Reads a script table.
fn read_script(
    alloc: Global,
    feature_count: usize,
    table: &[u8],
    tagged: TagRecord,
    room: &mut Room,
) -> Result<ScriptRecord, TableFault>
    ensures ok { IfOk result (λ s. script_at feature_count room.old.left table.now tagged ≡ Ok (s, room.new.left)) }
    ensures tag { IfOk result (λ s. s.tag.0 ≡ tagged.tag.0) }
    ensures refused { IfErr result (λ e. e ≢ TableFault.OutOfMemory
        → script_at feature_count room.old.left table.now tagged ≡ Err e) }
{
    let at = tagged.at;
    need(table, at, 4)?;
    let default = table_offset(table, at, u32::from(word(table, at)));
    let system = read_default(alloc, feature_count, table, default, room)?;
    let count = usize::from(word(table, at + 2));
    match read_lang_systems(alloc, feature_count, table, at, count, room) {
        Ok(systems) => Ok(ScriptRecord::new(tagged.tag, system, systems)),
        Err(fault) => {
            drop(system);
            Err(fault)
        }
    }
}

/// Scripts of a table of n features.
#[derive(Clone, Copy)]
pub struct ScriptReader {
    pub feature_count: usize,
}

impl TaggedReader for ScriptReader {
    type Value = ScriptRecord;

    ghost value_of = { λ r. script_of r.feature_count };

    ghost tag_of = { λ s. s.tag.0 };

    fn read_tagged(
        &self,
        alloc: Global,
        table: &[u8],
        tagged: TagRecord,
        room: &mut Room,
    ) -> Result<ScriptRecord, TableFault> {
        if tagged.at == 0 {
            return Ok(ScriptRecord::new(tagged.tag, None, Vec::new(alloc)));
        }
        read_script(alloc, self.feature_count, table, tagged, room)
    }
}

/// Reads a script list.
#[tactic(auto, using(crate::proofs::Kept::rising_by_keys))]
fn read_script_list(
    alloc: Global,
    feature_count: usize,
    table: &[u8],
    at: usize,
    room: &mut Room,
) -> Result<Vec<ScriptRecord>, TableFault>
    ensures ok { IfOk result (λ v. script_list_at feature_count room.old.left table.now at ≡ Ok (v.items, room.new.left)) }
    ensures rising { IfOk result (λ v. is_rising (λ s. s.tag.0) None v.items ≡ true) }
    ensures refused { IfErr result (λ e. e ≢ TableFault.OutOfMemory
        → script_list_at feature_count room.old.left table.now at ≡ Err e) }
{
    need(table, at, 2)?;
    let count = usize::from(word(table, at));
    need(table, at + 2, 6 * count)?;
    room.take(count)?;
    let tagged = read_by_tag(alloc, table, at, at + 2, count)?;
    let reader = ScriptReader { feature_count };
    read_tagged_tables(&reader, alloc, table, tagged.rising_rows(), room)
}

/// Reads the scripts of a list, none where its offset is null, in a table of n features.
pub fn read_scripts(
    alloc: Global,
    feature_count: usize,
    table: &[u8],
    at: usize,
    room: &mut Room,
) -> Result<Vec<ScriptRecord>, TableFault>
    ensures ok { IfOk result (λ v. scripts_of feature_count room.old.left table.now at ≡ Ok (v.items, room.new.left)) }
    ensures rising { IfOk result (λ v. is_rising (λ s. s.tag.0) None v.items ≡ true) }
    ensures refused { IfErr result (λ e. e ≢ TableFault.OutOfMemory
        → scripts_of feature_count room.old.left table.now at ≡ Err e) }
{
    if at == 0 {
        return Ok(Vec::new(alloc));
    }
    read_script_list(alloc, feature_count, table, at, room)
}
