//! The table `kern` as lookups and features of GPOS.
ghost use Rattle.std.specs.Prelude.{◌≡◌, ◌≢◌, ◌≤◌, ◌<◌, ◌+◌, ◌*◌, ◌++◌, [], true, false, IfOk, IfErr, OnOk, Ok, Err, length};
ghost use Rattle.std.specs.Option.{option_copied};
ghost use Rattle.buffer_rows.specs.Keys.{numbers_rise};
ghost use Rattle.font_kern.specs.Kern.{with_feature, with_direction, has_indices, with_lists, kerned_lists, with_rows, with_subtables, empty_table, kern_alone, kern_beside, with_table, gpos_with_kern};

use crate::features::copied_features;
use crate::lookups::{append_lookups, kern_feature};
use crate::marks::loses_marks;
use crate::scripts::ScriptRow;
use crate::subtables::{Subtable, read_subtables};
use crate::systems::{kerned_scripts, lacks_direction, needs_kern, script_rows};
use font_bytes::fault::TableFault;
use font_bytes::room::Room;
use layout_common::array::Array;
use layout_face::parts::CharacterRow;
use layout_face::positioning::{PositioningLookup, PositioningTable};
use layout_tables::table::{FeatureRecord, ScriptsAndFeatures};
use std::alloc::{AllocError, Global};

/// How many features and lookups there are at most.
const INDICES: usize = 65536;

/// Appends the feature of a direction, and the lookups of the subtables.
#[tactic(auto, using(crate::proofs::Appended::refused_after))]
fn push_feature(
    alloc: Global,
    is_backward: bool,
    table: &[u8],
    subtables: &[Subtable],
    features: &mut Vec<FeatureRecord>,
    lookups: &mut Vec<PositioningLookup>,
    room: &mut Room,
) -> Result<(), TableFault>
    requires { length lookups.old.items + 2 * length subtables.now ≤ 65536 }
    ensures ok { OnOk result (with_feature is_backward table.now subtables.now
        (record { features = features.old.items; lookups = lookups.old.items }, room.old.left)
        ≡ Ok (record { features = features.new.items; lookups = lookups.new.items }, room.new.left)) }
    ensures refused { IfErr result (λ e. e ≢ TableFault.OutOfMemory → with_feature is_backward table.now subtables.now
        (record { features = features.old.items; lookups = lookups.old.items }, room.old.left) ≡ Err e) }
    ensures grown { OnOk result (length lookups.new.items ≡ length lookups.old.items + 2 * length subtables.now) }
{
    let first = lookups.len();
    append_lookups(alloc, is_backward, table, subtables, lookups, room)?;
    features.push(kern_feature(alloc, first, subtables.len())?)?;
    Ok(())
}

/// The same where a script of the direction lacks the feature.
fn push_direction(
    alloc: Global,
    lacks: bool,
    is_backward: bool,
    table: &[u8],
    subtables: &[Subtable],
    features: &mut Vec<FeatureRecord>,
    lookups: &mut Vec<PositioningLookup>,
    room: &mut Room,
) -> Result<(), TableFault>
    requires { length lookups.old.items + 2 * length subtables.now ≤ 65536 }
    ensures ok { OnOk result (with_direction lacks is_backward table.now subtables.now
        (record { features = features.old.items; lookups = lookups.old.items }, room.old.left)
        ≡ Ok (record { features = features.new.items; lookups = lookups.new.items }, room.new.left)) }
    ensures refused { IfErr result (λ e. e ≢ TableFault.OutOfMemory → with_direction lacks is_backward table.now subtables.now
        (record { features = features.old.items; lookups = lookups.old.items }, room.old.left) ≡ Err e) }
    ensures grown { OnOk result (length lookups.new.items ≤ length lookups.old.items + 2 * length subtables.now) }
{
    if !lacks {
        return Ok(());
    }
    push_feature(
        alloc,
        is_backward,
        table,
        subtables,
        features,
        lookups,
        room,
    )
}

/// Appends features and lookups for the directions of those of the scripts that lack the feature.
fn push_lists(
    alloc: Global,
    table: &[u8],
    subtables: &[Subtable],
    inner: &ScriptsAndFeatures,
    rows: &[ScriptRow],
    features: &mut Vec<FeatureRecord>,
    lookups: &mut Vec<PositioningLookup>,
    room: &mut Room,
) -> Result<(), TableFault>
    requires { length lookups.old.items + 4 * length subtables.now ≤ 65536 }
    ensures ok { OnOk result (with_lists room.old.left table.now subtables.now inner.now
        (record { features = features.old.items; lookups = lookups.old.items }) rows.now
        ≡ Ok (record { features = features.new.items; lookups = lookups.new.items }, room.new.left)) }
    ensures refused { IfErr result (λ e. e ≢ TableFault.OutOfMemory → with_lists room.old.left table.now subtables.now inner.now
        (record { features = features.old.items; lookups = lookups.old.items }) rows.now ≡ Err e) }
{
    let forward = lacks_direction(false, inner, rows);
    push_direction(
        alloc, forward, false, table, subtables, features, lookups, room,
    )?;
    let backward = lacks_direction(true, inner, rows);
    push_direction(
        alloc, backward, true, table, subtables, features, lookups, room,
    )
}

/// The scripts with the feature of their direction, and features.
#[tactic(auto, using(crate::proofs::Served::kerned_rise))]
fn kerned_lists(
    alloc: Global,
    inner: &ScriptsAndFeatures,
    rows: &[ScriptRow],
    features: Vec<FeatureRecord>,
) -> Result<ScriptsAndFeatures, AllocError>
    requires few { length inner.now.features < 65535 }
    requires rising { numbers_rise (λ r. r.tag.0) rows.now ≡ true }
    ensures { IfOk result (λ t. t ≡ kerned_lists inner.now rows.now features.items) }
{
    let forward = lacks_direction(false, inner, rows);
    let scripts = kerned_scripts(alloc, inner, forward, rows)?;
    Ok(ScriptsAndFeatures::new(scripts, features))
}

/// Whether the indices of all that is added are below 65536.
fn has_indices(
    inner: &ScriptsAndFeatures,
    lookups: &[PositioningLookup],
    subtables: &[Subtable],
) -> bool
    ensures value { result ≡ has_indices inner.now lookups.now subtables.now }
    ensures features { result ≡ true → length inner.now.features < 65535 }
    ensures lookups { result ≡ true → length lookups.now + 4 * length subtables.now ≤ 65536 }
{
    inner.features().len() <= INDICES - 2
        && subtables.len() <= INDICES / 4
        && lookups.len() <= INDICES - 4 * subtables.len()
}

/// A table with its scripts.
fn with_rows(
    alloc: Global,
    table: &[u8],
    subtables: &[Subtable],
    inner: &ScriptsAndFeatures,
    rows: &[ScriptRow],
    lookups: &mut Vec<PositioningLookup>,
    room: &mut Room,
) -> Result<ScriptsAndFeatures, TableFault>
    requires features { length inner.now.features < 65535 }
    requires lookups { length lookups.old.items + 4 * length subtables.now ≤ 65536 }
    requires rising { numbers_rise (λ r. r.tag.0) rows.now ≡ true }
    ensures ok { IfOk result (λ t. with_rows room.old.left table.now subtables.now inner.now lookups.old.items rows.now
        ≡ Ok (record { inner = t; lookups = lookups.new.items }, room.new.left)) }
    ensures refused { IfErr result (λ e. e ≢ TableFault.OutOfMemory
        → with_rows room.old.left table.now subtables.now inner.now lookups.old.items rows.now ≡ Err e) }
{
    let mut features = copied_features(alloc, inner.features())?;
    push_lists(
        alloc,
        table,
        subtables,
        inner,
        rows,
        &mut features,
        lookups,
        room,
    )?;
    let kerned = kerned_lists(alloc, inner, rows, features)?;
    Ok(kerned)
}

/// A table with some subtables of `kern`.
fn with_subtables(
    alloc: Global,
    table: &[u8],
    subtables: &[Subtable],
    characters: &[CharacterRow],
    inner: &ScriptsAndFeatures,
    lookups: &mut Vec<PositioningLookup>,
    room: &mut Room,
) -> Result<ScriptsAndFeatures, TableFault>
    ensures ok { IfOk result (λ t. with_subtables room.old.left table.now subtables.now characters.now inner.now lookups.old.items
        ≡ Ok (record { inner = t; lookups = lookups.new.items }, room.new.left)) }
    ensures refused { IfErr result (λ e. e ≢ TableFault.OutOfMemory
        → with_subtables room.old.left table.now subtables.now characters.now inner.now lookups.old.items ≡ Err e) }
{
    if !has_indices(inner, lookups.as_slice(), subtables) {
        return Err(TableFault::TooLarge);
    }
    let rows = script_rows(alloc, inner, characters)?;
    let kerned = with_rows(alloc, table, subtables, inner, &rows, lookups, room)?;
    Ok(kerned)
}

/// A table of lists and lookups with some subtables of `kern`.
fn kerned_table(
    alloc: Global,
    table: &[u8],
    subtables: &[Subtable],
    characters: &[CharacterRow],
    gpos: PositioningTable,
    room: &mut Room,
) -> Result<PositioningTable, TableFault>
    ensures ok { IfOk result (λ t. with_table room.old.left table.now subtables.now characters.now gpos ≡ Ok (t, room.new.left)) }
    ensures refused { IfErr result (λ e. e ≢ TableFault.OutOfMemory
        → with_table room.old.left table.now subtables.now characters.now gpos ≡ Err e) }
{
    if subtables.is_empty() {
        return Ok(gpos);
    }
    let PositioningTable { inner, lookups } = gpos;
    let mut lookups = lookups.into_vec();
    let kerned = with_subtables(
        alloc,
        table,
        subtables,
        characters,
        &inner,
        &mut lookups,
        room,
    )?;
    Ok(PositioningTable::new(kerned, Array::new(lookups)))
}

/// A table without scripts, features and lookups.
fn empty_table(alloc: Global) -> PositioningTable
    ensures { result ≡ empty_table }
{
    PositioningTable::new(
        ScriptsAndFeatures::new(Vec::new(alloc), Vec::new(alloc)),
        Array::new(Vec::new(alloc)),
    )
}

/// A table of `kern` alone, none where no subtable is taken or marks would lose their positions.
fn kern_alone(
    alloc: Global,
    table: &[u8],
    characters: &[CharacterRow],
    room: &mut Room,
) -> Result<Option<PositioningTable>, TableFault>
    ensures ok { IfOk result (λ t. kern_alone room.old.left table.now characters.now ≡ Ok (t, room.new.left)) }
    ensures refused { IfErr result (λ e. e ≢ TableFault.OutOfMemory
        → kern_alone room.old.left table.now characters.now ≡ Err e) }
{
    let subtables = read_subtables(alloc, table, room)?;
    if subtables.is_empty() || loses_marks(characters) {
        return Ok(None);
    }
    let kerned = kerned_table(
        alloc,
        table,
        &subtables,
        characters,
        empty_table(alloc),
        room,
    )?;
    Ok(Some(kerned))
}

/// GPOS with the table `kern` for the language systems that lack the feature.
fn kern_beside(
    alloc: Global,
    table: &[u8],
    characters: &[CharacterRow],
    gpos: PositioningTable,
    room: &mut Room,
) -> Result<PositioningTable, TableFault>
    ensures ok { IfOk result (λ t. kern_beside room.old.left table.now characters.now gpos ≡ Ok (t, room.new.left)) }
    ensures refused { IfErr result (λ e. e ≢ TableFault.OutOfMemory
        → kern_beside room.old.left table.now characters.now gpos ≡ Err e) }
{
    if !needs_kern(&gpos.inner) {
        return Ok(gpos);
    }
    let subtables = read_subtables(alloc, table, room)?;
    kerned_table(alloc, table, &subtables, characters, gpos, room)
}

/// A font's GPOS with its table `kern` for those language systems that lack the feature `kern`, as HarfBuzz kerns their
/// texts (`hb_ot_layout_kern`): GPOS as it is where each has the feature or no subtable kerns horizontal lines by pairs or
/// classes. A font without GPOS gets one, unless it has marks that a shaper then no longer positions by their boxes.
///
/// `table` is the table's bytes (OpenType, chapter kern, version 0; Apple's version 1.0), `characters` are the font's.
/// Each subtable takes 64 rows of room, and what it holds a row for each pair, glyph and distance.
///
/// Errors: `Short` where a subtable ends past the table's end, `TooLarge` where there is no room, or there would be more
/// than 65,536 features or lookups.
pub fn with_kerning(
    alloc: Global,
    table: &[u8],
    characters: &[CharacterRow],
    gpos: Option<PositioningTable>,
    room: &mut Room,
) -> Result<Option<PositioningTable>, TableFault>
    ensures ok { IfOk result (λ t. gpos_with_kern room.old.left table.now characters.now gpos ≡ Ok (t, room.new.left)) }
    ensures refused { IfErr result (λ e. e ≢ TableFault.OutOfMemory
        → gpos_with_kern room.old.left table.now characters.now gpos ≡ Err e) }
{
    match gpos {
        None => kern_alone(alloc, table, characters, room),
        Some(gpos) => {
            let kerned = kern_beside(alloc, table, characters, gpos, room)?;
            Ok(Some(kerned))
        }
    }
}
