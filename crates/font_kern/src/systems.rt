//! The scripts of GPOS whose language systems get the feature `kern`.
ghost use Rattle.std.specs.Prelude.{◌≡◌, ◌<◌, ◌≤◌, ◌+◌, ◌++◌, ◌∷◌, [], IfOk, OnOk, length, map, true, false, is_some, None, Some};
ghost use Rattle.std.specs.List.{list_all, list_any};
ghost use Rattle.std.specs.Option.{option_copied, option_map_or, option_or};
ghost use Rattle.buffer_rows.specs.Keys.{numbers_rise};
ghost use Rattle.layout_tables.specs.Keyed.{is_rising};
ghost use Rattle.layout_tables.specs.Choice.{first_script, default_scripts};
ghost use Rattle.layout_tables.specs.Layout.{script_with};
ghost use Rattle.font_kern.specs.Scripts.{has_kern, lacks_kern, needs_kern, plain_script, usual_script, script_row, served_rows, offered_rows, script_rows, source_script, lacks_direction, same_direction, kerned_system, kerned_default, kerned_entry, kerned_entries, kerned_script, kerned_scripts, index_of_direction};

use crate::order::rising_only;
use crate::scripts::{ScriptRow, append_backward_rows, script_row, sort_rows};
use buffer_common::tag::{Tag, TagExt};
use layout_face::parts::CharacterRow;
use layout_tables::script::{LangSys, LangSysRecord, ScriptRecord};
use layout_tables::table::ScriptsAndFeatures;
use std::alloc::{AllocError, Global};

/// `kern`
const KERN: Tag = Tag(0x6b65726e);

// ---- systems that lack the feature

fn has_kern(table: &ScriptsAndFeatures, system: &LangSys) -> bool
    ensures { result ≡ has_kern table.now.features system.now }
{
    table.find_language_feature(system, KERN).is_some()
}

fn default_has_kern(table: &ScriptsAndFeatures, script: &ScriptRecord) -> bool
    ensures { result ≡ option_map_or (has_kern table.now.features) script.now.default_lang_sys false }
{
    match script.default_lang_sys() {
        Some(system) => has_kern(table, system),
        None => false,
    }
}

fn systems_have_kern(table: &ScriptsAndFeatures, systems: &[LangSysRecord]) -> bool
    ensures { result ≡ list_all (λ r. has_kern table.now.features r.lang_sys) systems.now }
{
    systems.iter().all(|row| has_kern(table, row.lang_sys()))
}

/// Whether one of a script's systems lacks the feature; a default system that isn't there does.
pub fn lacks_kern(table: &ScriptsAndFeatures, script: &ScriptRecord) -> bool
    ensures { result ≡ lacks_kern table.now.features script.now }
{
    !(default_has_kern(table, script) && systems_have_kern(table, script.lang_systems()))
}

/// The script that serves texts whose own script the table lacks, if it has one.
fn usual_script(table: &ScriptsAndFeatures) -> Option<&ScriptRecord>
    ensures { option_copied result ≡ first_script default_scripts table.now.scripts }
{
    match table.select_script(&[]) {
        Some(selected) => Some(selected.script),
        None => None,
    }
}

/// Whether a script lacks the feature, or texts of other scripts have no script that serves them.
pub fn needs_kern(table: &ScriptsAndFeatures) -> bool
    ensures { result ≡ needs_kern table.now }
{
    some_lacks(table) || !has_usual(table)
}

fn some_lacks(table: &ScriptsAndFeatures) -> bool
    ensures { result ≡ list_any (lacks_kern table.now.features) table.now.scripts }
{
    table
        .scripts()
        .iter()
        .any(|script| lacks_kern(table, script))
}

fn has_usual(table: &ScriptsAndFeatures) -> bool
    ensures { result ≡ is_some (first_script default_scripts table.now.scripts) }
{
    match usual_script(table) {
        Some(_script) => true,
        None => false,
    }
}

// ---- scripts

/// Whether the script that serves other texts lacks the feature.
fn usual_lacks(table: &ScriptsAndFeatures) -> bool
    ensures { result ≡ lacks_kern table.now.features (usual_script table.now.scripts) }
{
    match usual_script(table) {
        Some(script) => lacks_kern(table, script),
        None => true,
    }
}

fn usual_tag(table: &ScriptsAndFeatures) -> Tag
    ensures { result ≡ (usual_script table.now.scripts).tag }
{
    match usual_script(table) {
        Some(script) => script.tag(),
        None => Tag::default_script(),
    }
}

/// The rows of scripts.
fn push_scripts(alloc: Global, scripts: &[ScriptRecord]) -> Result<Vec<ScriptRow>, AllocError>
    ensures { IfOk result (λ v. v.items ≡ map (λ s. script_row s.tag) scripts.now) }
{
    let mut rows = Vec::new(alloc);
    for script in scripts {
        rows.push(script_row(script.tag()))?;
    }
    Ok(rows)
}

/// Where the usual script lacks the feature, appends rows of those that it serves from right to left.
fn push_served(
    alloc: Global,
    table: &ScriptsAndFeatures,
    characters: &[CharacterRow],
    rows: &mut Vec<ScriptRow>,
) -> Result<(), AllocError>
    ensures { OnOk result (rows.new.items
        ≡ rows.old.items ++ served_rows table.now.features table.now.scripts characters.now) }
{
    if !usual_lacks(table) {
        return Ok(());
    }
    append_backward_rows(alloc, characters, rows)
}

/// The scripts of a table, the usual one, and where that lacks the feature those that it serves from right to left.
fn offered_rows(
    alloc: Global,
    table: &ScriptsAndFeatures,
    characters: &[CharacterRow],
) -> Result<Vec<ScriptRow>, AllocError>
    ensures { IfOk result (λ v. v.items ≡ offered_rows table.now.features table.now.scripts characters.now) }
{
    let mut rows = push_scripts(alloc, table.scripts())?;
    rows.push(script_row(usual_tag(table)))?;
    push_served(alloc, table, characters, &mut rows)?;
    Ok(rows)
}

/// The same by rising tags, each once.
pub fn script_rows(
    alloc: Global,
    table: &ScriptsAndFeatures,
    characters: &[CharacterRow],
) -> Result<Vec<ScriptRow>, AllocError>
    ensures rows { IfOk result (λ v. v.items ≡ script_rows table.now.features table.now.scripts characters.now) }
    ensures rising { IfOk result (λ v. numbers_rise (λ r. r.tag.0) v.items ≡ true) }
{
    let mut offered = offered_rows(alloc, table, characters)?;
    sort_rows(&mut offered)?;
    let rows = rising_only(alloc, offered)?;
    Ok(rows)
}

/// The script of a tag, else the usual one, if there is one.
fn source_script(table: &ScriptsAndFeatures, tag: Tag) -> Option<&ScriptRecord>
    ensures { option_copied result ≡ option_or (script_with tag table.now.scripts) (first_script default_scripts table.now.scripts) }
{
    match table.script(tag) {
        Some(script) => Some(script),
        None => usual_script(table),
    }
}

/// Whether the script of a tag, else the usual one, lacks the feature.
fn source_lacks(table: &ScriptsAndFeatures, tag: Tag) -> bool
    ensures { result ≡ lacks_kern table.now.features (source_script table.now.scripts tag) }
{
    match source_script(table, tag) {
        Some(script) => lacks_kern(table, script),
        None => true,
    }
}

/// Whether a script of a direction lacks the feature.
pub fn lacks_direction(is_backward: bool, table: &ScriptsAndFeatures, rows: &[ScriptRow]) -> bool
    ensures { result ≡ lacks_direction is_backward table.now.features table.now.scripts rows.now }
{
    rows.iter().any(|row| row.is_backward == is_backward && source_lacks(table, row.tag))
}

// ---- scripts with the feature

/// A language system with the feature of an index, unless it has one.
fn kerned_system(
    alloc: Global,
    table: &ScriptsAndFeatures,
    index: u16,
    system: &LangSys,
) -> Result<LangSys, AllocError>
    ensures { IfOk result (λ s. s ≡ kerned_system table.now.features index system.now) }
{
    let mut features = system.features().to_vec(alloc)?;
    if !has_kern(table, system) {
        features.push(index)?;
    }
    Ok(LangSys::new(system.required_feature(), features))
}

fn kerned_default(
    alloc: Global,
    table: &ScriptsAndFeatures,
    index: u16,
    system: Option<&LangSys>,
) -> Result<LangSys, AllocError>
    ensures { IfOk result (λ s. s ≡ kerned_default table.now.features index (option_copied system.entry)) }
{
    match system {
        Some(system) => kerned_system(alloc, table, index, system),
        None => {
            let mut features = Vec::new(alloc);
            features.push(index)?;
            Ok(LangSys::new(None, features))
        }
    }
}

fn kerned_entry(
    alloc: Global,
    table: &ScriptsAndFeatures,
    index: u16,
    row: &LangSysRecord,
) -> Result<LangSysRecord, AllocError>
    ensures { IfOk result (λ r. r ≡ kerned_entry table.now.features index row.now) }
{
    let system = kerned_system(alloc, table, index, row.lang_sys())?;
    Ok(LangSysRecord::new(row.tag(), system))
}

fn entries_of(
    alloc: Global,
    table: &ScriptsAndFeatures,
    index: u16,
    systems: &[LangSysRecord],
) -> Result<Vec<LangSysRecord>, AllocError>
    ensures { IfOk result (λ v. v.items ≡ map (kerned_entry table.now.features index) systems.now) }
{
    let mut rows = Vec::with_capacity(alloc, systems.len())?;
    for row in systems {
        rows.push(kerned_entry(alloc, table, index, row)?)?;
    }
    Ok(rows)
}

fn kerned_entries(
    alloc: Global,
    table: &ScriptsAndFeatures,
    index: u16,
    systems: &[LangSysRecord],
) -> Result<Vec<LangSysRecord>, AllocError>
    ensures entries { IfOk result (λ v. v.items ≡ kerned_entries table.now.features index systems.now) }
    ensures rising { IfOk result (λ v. is_rising (λ r. r.tag.0) None v.items ≡ true) }
{
    let rows = entries_of(alloc, table, index, systems)?;
    rising_only(alloc, rows)
}

/// A script of a tag with the systems of another, and the feature of an index in those that lack it.
fn kerned_script(
    alloc: Global,
    table: &ScriptsAndFeatures,
    index: u16,
    tag: Tag,
    script: &ScriptRecord,
) -> Result<ScriptRecord, AllocError>
    ensures { IfOk result (λ s. s ≡ kerned_script table.now.features index tag script.now) }
{
    let default = kerned_default(alloc, table, index, script.default_lang_sys())?;
    let systems = kerned_entries(alloc, table, index, script.lang_systems())?;
    Ok(ScriptRecord::new(tag, Some(default), systems))
}

/// The same of a script without systems.
fn kerned_plain(
    alloc: Global,
    table: &ScriptsAndFeatures,
    index: u16,
    tag: Tag,
) -> Result<ScriptRecord, AllocError>
    ensures { IfOk result (λ s. s ≡ kerned_script table.now.features index tag plain_script) }
{
    let default = kerned_default(alloc, table, index, None)?;
    Ok(ScriptRecord::new(tag, Some(default), Vec::new(alloc)))
}

fn kerned_source(
    alloc: Global,
    table: &ScriptsAndFeatures,
    index: u16,
    tag: Tag,
) -> Result<ScriptRecord, AllocError>
    ensures { IfOk result (λ s. s ≡ kerned_script table.now.features index tag (source_script table.now.scripts tag)) }
{
    match source_script(table, tag) {
        Some(script) => kerned_script(alloc, table, index, tag, script),
        None => kerned_plain(alloc, table, index, tag),
    }
}

/// The index of a direction's feature: after those of the table, first that of texts from left to right, where there is
/// one.
fn index_of_direction(count: usize, lacks_forward: bool, is_backward: bool) -> u16
    requires { count < 65535 }
    ensures { result ≡ index_of_direction count lacks_forward is_backward }
{
    if is_backward && lacks_forward {
        (count + 1) as u16
    } else {
        count as u16
    }
}

/// The scripts with the feature of their direction.
pub fn kerned_scripts(
    alloc: Global,
    table: &ScriptsAndFeatures,
    lacks_forward: bool,
    rows: &[ScriptRow],
) -> Result<Vec<ScriptRecord>, AllocError>
    requires { length table.now.features < 65535 }
    ensures { IfOk result (λ v. v.items ≡ kerned_scripts table.now.features table.now.scripts lacks_forward rows.now) }
{
    let count = table.features().len();
    let mut scripts = Vec::with_capacity(alloc, rows.len())?;
    for row in rows {
        let index = index_of_direction(count, lacks_forward, row.is_backward);
        scripts.push(kerned_source(alloc, table, index, row.tag)?)?;
    }
    Ok(scripts)
}
