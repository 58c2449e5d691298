//! Carets of a font's last text.
ghost use Rattle.std.specs.Prelude.{◌≡◌, ◌≢◌, IfErr, IfOk, OnOk};
ghost use Rattle.caret_model.specs.Stops.{AreStops};
ghost use Rattle.c_lines.specs.Carets.{AreCaretsOf, IsCaretsRefusal, caret_of, carets_along};

use crate::numbers::caret_fault_number;
use crate::rows::{Row, write_rows};
use crate::types::kus_caret_t;
use buffer_common::direction::Direction;
use buffer_wrappers::glyphs::GlyphBuffer;
use c_text::font::Font;
use c_text::numbers::OK;
use caret_model::{Caret, CaretFault, CaretModel};
use font_carets::{LigatureCarets, SortedRows};
use std::alloc::Global;

impl Row for Caret {
    type Form = kus_caret_t;

    ghost form_of = { caret_of };

    fn form(&self) -> kus_caret_t {
        kus_caret_t {
            index: self.byte,
            position: self.position,
        }
    }
}

/// The carets of a line along a direction and its glyphs, with those at stops.
fn carets_along(
    alloc: Global,
    model: &CaretModel,
    direction: Direction,
    ligatures: &SortedRows<LigatureCarets>,
    glyphs: &GlyphBuffer,
    stops: &[usize],
) -> Result<Vec<Caret>, CaretFault>
    ensures carets { IfOk result
        (λ found. found.items ≡ carets_along direction ligatures.now glyphs.now model.now stops.now) }
    ensures may { OnOk result (AreStops model.now.end 0 stops.now) }
    ensures fault { IfErr result (λ e. e ≢ CaretFault.OutOfMemory
        → (e ≡ CaretFault.InvalidStops) × (¬ AreStops model.now.end 0 stops.now)) }
{
    if direction.is_horizontal() {
        return model.carets_by_font(alloc, ligatures, glyphs, stops);
    }
    model.carets_at_stops(alloc, stops)
}

/// The carets of glyphs along a direction, of a text of `end` units, as many as there is room for, and how many there are;
/// answers a status.
#[tactic(auto, using(crate::proofs::Standing::carets_found, crate::proofs::Standing::line_refused, crate::proofs::Standing::stops_refused))]
fn write_found(
    alloc: Global,
    glyphs: &GlyphBuffer,
    direction: Direction,
    ligatures: &SortedRows<LigatureCarets>,
    end: usize,
    stops: &[usize],
    carets: &mut [kus_caret_t],
    count: &mut usize,
) -> u32
    requires { count.old ≡ 0 }
    ensures carets { result ≡ 0 → AreCaretsOf direction ligatures.now glyphs.now end stops.now carets.old carets.new count.new }
    ensures refused { result ≢ 0 → result ≢ 1 → IsCaretsRefusal direction glyphs.now end stops.now result }
    ensures none { result ≢ 0 → (count.new ≡ 0) × (carets.new ≡ carets.old) }
{
    let model = match CaretModel::of_units(alloc, glyphs, end, direction) {
        Ok(model) => model,
        Err(fault) => return caret_fault_number(fault),
    };
    let found = match carets_along(alloc, &model, direction, ligatures, glyphs, stops) {
        Ok(found) => found,
        Err(fault) => return caret_fault_number(fault),
    };
    *count = found.len();
    write_rows(found.as_slice(), carets);
    OK
}

/// The carets of a font's last text, of `end` units, as many as there is room for, and how many there are; answers a
/// status.
#[tactic(auto, using(c_text::proofs::Slices::glyphs_put_back, crate::proofs::Standing::carets_of_taken, crate::proofs::Standing::taken_refuse_carets))]
pub fn write_carets(
    alloc: Global,
    font: &mut Font,
    end: usize,
    stops: &[usize],
    carets: &mut [kus_caret_t],
    count: &mut usize,
) -> u32
    requires { count.old ≡ 0 }
    ensures same { font.new ≡ font.old }
    ensures carets { result ≡ 0
        → AreCaretsOf font.old.segment.direction font.old.ligatures font.old.glyphs end stops.now carets.old
        carets.new count.new }
    ensures refused { result ≢ 0 → result ≢ 1
        → IsCaretsRefusal font.old.segment.direction font.old.glyphs end stops.now result }
    ensures none { result ≢ 0 → (count.new ≡ 0) × (carets.new ≡ carets.old) }
{
    let direction = font.segment().direction;
    let glyphs = font.take_glyphs(alloc);
    let status = write_found(
        alloc,
        &glyphs,
        direction,
        font.ligatures(),
        end,
        stops,
        carets,
        count,
    );
    font.put_glyphs(glyphs);
    status
}
