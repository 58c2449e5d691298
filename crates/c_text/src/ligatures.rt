//! The ligatures for which a font file gives carets.
ghost use Rattle.std.specs.Prelude.{◌≡◌, [], IfOk};
ghost use Rattle.font_carets.specs.File.{ligature_carets};

use font_carets::{LigatureCarets, SortedRows, ligature_carets, no_ligatures};
use std::alloc::{AllocError, Global};
use std::marker::Model;
use std::sync::Arc;

/// Ligatures with their carets, which the handles of a font share.
#[derive(Drop)]
pub struct Ligatures {
    rows: Arc<SortedRows<LigatureCarets>, Global>,
}

impl Model for Ligatures {
    ghost use Rattle.std.specs.Arc.{arc_value};
    ghost use Rattle.std.specs.Prelude.{List};
    ghost use Rattle.font_carets.specs.declared.rows.LigatureCarets.{LigatureCarets};

    ghost Value = { List LigatureCarets };

    ghost view = { λ l. arc_value l.rows };
}

impl Ligatures {
    /// Those of no font file.
    pub fn none(alloc: Global) -> Result<Ligatures, AllocError>
        ensures { IfOk result (λ l. l ≡ []) }
    {
        let rows = Arc::new(alloc, no_ligatures(alloc))?;
        Ok(Ligatures { rows })
    }

    /// Those of a font of a font file.
    pub fn read(alloc: Global, bytes: &[u8], index: usize) -> Result<Ligatures, AllocError>
        ensures { IfOk result (λ l. l ≡ ligature_carets bytes.now index) }
    {
        let rows = ligature_carets(alloc, bytes, index)?;
        let rows = Arc::new(alloc, rows)?;
        Ok(Ligatures { rows })
    }

    /// The same ones once more.
    pub fn another(&self) -> Result<Ligatures, AllocError>
        ensures { IfOk result (λ l. l ≡ self.now) }
    {
        let rows = Arc::try_clone(&self.rows)?;
        Ok(Ligatures { rows })
    }

    /// The rows themselves.
    pub fn rows(&self) -> &SortedRows<LigatureCarets>
        ensures { result.now ≡ self.now }
    {
        &self.rows
    }
}
