//! Contexts by classes (OpenType, chapter 2, format 2).
ghost use Rattle.std.specs.Prelude.{◌≡◌, ◌≢◌, ◌≤◌, ◌+◌, IfOk, IfErr, Ok, Err, length, if◌then◌else◌};
ghost use Rattle.font_bytes.specs.declared.fault.TableFault.{TableFault};
ghost use Rattle.font_contexts.specs.Contexts.{by_classes, chained_maps, class_context_at, class_maps_at, classes_of, first_coverage, plain_maps, sets_offset};

use crate::sets::read_class_rules;
use font_bytes::fault::TableFault;
use font_bytes::room::Room;
use font_bytes::words::{need, word};
use font_common::class_definition::ClassReader;
use font_common::offsets::{CoverageReader, read_at_offset};
use layout_common::array::Array;
use layout_common::class_definition::ClassDefinition;
use layout_common::coverage::Coverage;
use layout_tables::context::{ClassRules, ContextSubtable};
use layout_tables::rules::SequenceRules;
use std::alloc::Global;

/// The classes of the sequences of a context by classes.
#[derive(Drop)]
pub struct ClassMaps {
    pub backtrack: ClassDefinition,
    pub input: ClassDefinition,
    pub lookahead: ClassDefinition,
}

/// Reads the class definition table whose offset stands at an offset, and counts from a base.
fn read_classes(
    alloc: Global,
    table: &[u8],
    base: usize,
    at: usize,
    room: &mut Room,
) -> Result<ClassDefinition, TableFault>
    requires base_within { base ≤ length table.now }
    requires offset_within { at + 2 ≤ length table.now }
    ensures ok { IfOk result (λ v. classes_of room.old.left table.now base at ≡ Ok (v, room.new.left)) }
    ensures refused { IfErr result (λ e. e ≢ TableFault.OutOfMemory → classes_of room.old.left table.now base at ≡ Err e) }
{
    read_at_offset(
        &ClassReader,
        alloc,
        table,
        base,
        u32::from(word(table, at)),
        room,
    )
}

/// Reads the classes of a context's input.
fn read_plain_maps(
    alloc: Global,
    table: &[u8],
    at: usize,
    room: &mut Room,
) -> Result<ClassMaps, TableFault>
    requires { at + 6 ≤ length table.now }
    ensures ok { IfOk result (λ m. plain_maps room.old.left table.now at ≡ Ok (m, room.new.left)) }
    ensures refused { IfErr result (λ e. e ≢ TableFault.OutOfMemory → plain_maps room.old.left table.now at ≡ Err e) }
{
    let input = read_classes(alloc, table, at, at + 4, room)?;
    Ok(ClassMaps {
        backtrack: ClassDefinition::empty(alloc),
        input,
        lookahead: ClassDefinition::empty(alloc),
    })
}

/// Reads the classes of a chained context's sequences.
fn read_chained_maps(
    alloc: Global,
    table: &[u8],
    at: usize,
    room: &mut Room,
) -> Result<ClassMaps, TableFault>
    requires { at + 10 ≤ length table.now }
    ensures ok { IfOk result (λ m. chained_maps room.old.left table.now at ≡ Ok (m, room.new.left)) }
    ensures refused { IfErr result (λ e. e ≢ TableFault.OutOfMemory → chained_maps room.old.left table.now at ≡ Err e) }
{
    let backtrack = read_classes(alloc, table, at, at + 4, room)?;
    let input = read_classes(alloc, table, at, at + 6, room)?;
    let lookahead = read_classes(alloc, table, at, at + 8, room)?;
    Ok(ClassMaps {
        backtrack,
        input,
        lookahead,
    })
}

/// Reads the classes of the sequences.
fn read_maps(
    alloc: Global,
    chained: bool,
    table: &[u8],
    at: usize,
    room: &mut Room,
) -> Result<ClassMaps, TableFault>
    requires { at + (if chained then 10 else 6) ≤ length table.now }
    ensures ok { IfOk result (λ m. class_maps_at chained room.old.left table.now at ≡ Ok (m, room.new.left)) }
    ensures refused { IfErr result (λ e. e ≢ TableFault.OutOfMemory → class_maps_at chained room.old.left table.now at ≡ Err e) }
{
    if chained {
        read_chained_maps(alloc, table, at, room)
    } else {
        read_plain_maps(alloc, table, at, room)
    }
}

/// Reads a context by classes.
pub fn read_class_context(
    alloc: Global,
    chained: bool,
    lookup_count: usize,
    table: &[u8],
    at: usize,
    room: &mut Room,
) -> Result<ContextSubtable, TableFault>
    ensures ok { IfOk result (λ s. class_context_at chained lookup_count room.old.left table.now at ≡ Ok (s, room.new.left)) }
    ensures refused { IfErr result (λ e. e ≢ TableFault.OutOfMemory
        → class_context_at chained lookup_count room.old.left table.now at ≡ Err e) }
{
    need(table, at, if chained { 10 } else { 6 })?;
    let maps = read_maps(alloc, chained, table, at, room)?;
    let first = match read_first(alloc, table, at, room) {
        Ok(first) => first,
        Err(fault) => {
            drop(maps);
            return Err(fault);
        }
    };
    let sets = if chained { at + 10 } else { at + 6 };
    match read_class_rules(alloc, chained, lookup_count, table, at, sets, room) {
        Ok(rules) => Ok(by_classes(first, maps, SequenceRules::new(Array::new(rules)))),
        Err(fault) => Err(fault),
    }
}

/// Reads the coverage of the first glyphs.
fn read_first(
    alloc: Global,
    table: &[u8],
    at: usize,
    room: &mut Room,
) -> Result<Coverage, TableFault>
    requires { at + 4 ≤ length table.now }
    ensures ok { IfOk result (λ c. first_coverage room.old.left table.now at ≡ Ok (c, room.new.left)) }
    ensures refused { IfErr result (λ e. e ≢ TableFault.OutOfMemory → first_coverage room.old.left table.now at ≡ Err e) }
{
    read_at_offset(
        &CoverageReader,
        alloc,
        table,
        at,
        u32::from(word(table, at + 2)),
        room,
    )
}

/// A context of its parts.
fn by_classes(first: Coverage, maps: ClassMaps, rules: SequenceRules) -> ContextSubtable
    ensures { result ≡ by_classes first maps rules }
{
    ContextSubtable::Classes(ClassRules {
        first,
        backtrack: maps.backtrack,
        input: maps.input,
        lookahead: maps.lookahead,
        rules,
    })
}
