//! The scripts and features of a layout table (OpenType, chapter 2).
ghost use Rattle.std.specs.Prelude.{◌≡◌, ◌≢◌, IfOk, IfErr, Ok, Err};
ghost use Rattle.font_bytes.specs.declared.fault.TableFault.{TableFault};
ghost use Rattle.font_lists.specs.Header.{lists_at};

use crate::features::read_features;
use crate::header::LayoutHeader;
use crate::scripts::read_scripts;
use crate::variations::read_variations;
use font_bytes::fault::TableFault;
use font_bytes::room::Room;
use layout_tables::table::ScriptsAndFeatures;
use std::alloc::Global;

/// Reads scripts, and features at the default instance.
pub fn read_lists(
    alloc: Global,
    table: &[u8],
    header: LayoutHeader,
    room: &mut Room,
) -> Result<ScriptsAndFeatures, TableFault>
    ensures ok { IfOk result (λ t. lists_at room.old.left table.now header ≡ Ok (t, room.new.left)) }
    ensures refused { IfErr result (λ e. e ≢ TableFault.OutOfMemory → lists_at room.old.left table.now header ≡ Err e) }
{
    let alternates = read_variations(alloc, table, header.variations, room)?;
    let features = read_features(
        alloc,
        header.lookup_count,
        &alternates,
        table,
        header.features,
        room,
    )?;
    match read_scripts(alloc, header.feature_count, table, header.scripts, room) {
        Ok(scripts) => Ok(ScriptsAndFeatures::new(scripts, features)),
        Err(fault) => {
            drop(features);
            Err(fault)
        }
    }
}
