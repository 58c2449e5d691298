//! Arrays of uint16.
ghost use Rattle.std.specs.Prelude.{◌≡◌, ◌≤◌, ◌+◌, ◌*◌, ◌++◌, length, IfOk, IfErr, OnOk};
ghost use Rattle.font_bytes.specs.declared.fault.TableFault.{TableFault};
ghost use Rattle.font_common.specs.Rows.{covered_rows, word_row};
ghost use Rattle.font_common.specs.Words.{words_at};

use font_bytes::fault::TableFault;
use font_bytes::words::word;
use layout_common::glyph_row::GlyphRow;
use std::alloc::Global;

/// Appends the numbers of an array.
#[tactic(auto, using(font_bytes::proofs::Recorded::records_more, font_bytes::proofs::Recorded::records_end))]
pub fn push_words(
    words: &mut Vec<u16>,
    table: &[u8],
    at: usize,
    count: usize,
) -> Result<(), TableFault>
    requires { at + 2 * count ≤ length table.now }
    ensures ok { OnOk result (words.new.items ≡ words.old.items ++ words_at table.now at count) }
    ensures refused { IfErr result (λ e. e ≡ TableFault.OutOfMemory) }
{
    for index in 0..count {
        words.push(word(table, at + 2 * index))?;
    }
    Ok(())
}

/// Reads the numbers of an array.
pub fn read_words(
    alloc: Global,
    table: &[u8],
    at: usize,
    count: usize,
) -> Result<Vec<u16>, TableFault>
    requires { at + 2 * count ≤ length table.now }
    ensures ok { IfOk result (λ v. v.items ≡ words_at table.now at count) }
    ensures refused { IfErr result (λ e. e ≡ TableFault.OutOfMemory) }
{
    let mut words = Vec::with_capacity(alloc, count)?;
    push_words(&mut words, table, at, count)?;
    Ok(words)
}

/// Reads the rows of glyphs with the numbers of an array, in the order of their coverage indices.
#[tactic(auto, using(font_bytes::proofs::Recorded::records_more, font_bytes::proofs::Recorded::records_end))]
pub fn read_word_rows(
    alloc: Global,
    table: &[u8],
    at: usize,
    count: usize,
    glyphs: &[u16],
) -> Result<Vec<GlyphRow<u16>>, TableFault>
    requires { at + 2 * count ≤ length table.now }
    ensures ok { IfOk result (λ v. v.items ≡ covered_rows word_row glyphs.now (words_at table.now at count)) }
    ensures refused { IfErr result (λ e. e ≡ TableFault.OutOfMemory) }
{
    let fewer = count.min(glyphs.len());
    let mut rows = Vec::with_capacity(alloc, fewer)?;
    for index in 0..fewer {
        rows.push(GlyphRow {
            glyph: glyphs[index],
            value: word(table, at + 2 * index),
        })?;
    }
    Ok(rows)
}
