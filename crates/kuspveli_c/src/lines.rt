//! The calls for the lines and the carets of a font's last text, as `include/kuspveli.h` declares them. Each leaves the font as
//! it was.
ghost use Rattle.std.specs.Prelude.{◌≡◌, ◌≢◌, IfNone, IfSome, Some};
ghost use Rattle.c_lines.specs.Carets.{AreCaretsOf, IsCaretsFault};
ghost use Rattle.c_lines.specs.Checked.{AreChecked, premises_numbered};
ghost use Rattle.c_lines.specs.Lines.{AreLinesOf, IsLinesFault};
ghost use Rattle.c_text.specs.Fonts.{IsNumberOf, glyphs_of, ligatures_of, segment_in};
ghost use Rattle.c_text.specs.Texts.{text_fault};
ghost use Rattle.shape_breaks.specs.Cuts.{AreTested};

use c_lines::carets::write_carets;
use c_lines::checked::{check_lines, tested_premises};
use c_lines::lines::{Cutting, write_lines};
use c_lines::types::{kus_caret_t, kus_line_t};
use c_text::handle::Handle;
use c_text::numbers::{NO_FONT, OK, fault_number};
use c_text::types::kus_text_t;
use line_pieces::Widths;
use std::alloc::Global;

/// The lines of the font's last text, which has `end` units: they may end at `breaks`, the first is to fit `first_width` and
/// the others `width`, in font units. As many as there is room for are written, and all are counted.
#[tactic(auto, using(crate::proofs::LinesAndCarets::lines_of_font, crate::proofs::LinesAndCarets::font_refuses_lines))]
#[unsafe(no_mangle)]
pub extern "C" fn kus_cut_lines(
    alloc: Global,
    font: &mut Handle,
    end: usize,
    breaks: &[usize],
    first_width: i64,
    width: i64,
    lines: &mut [kus_line_t],
    count: &mut usize,
) -> u32
    ensures same { font.new.value ≡ font.old.value }
    ensures lines { result ≡ 0 → AreLinesOf (segment_in font.old.value).direction (glyphs_of font.old.value) end breaks.now
        (record { first = first_width; rest = width }) lines.old lines.new count.new }
    ensures refused { result ≢ 0 → result ≢ 1 → IsLinesFault font.old.value end breaks.now result }
    ensures none { result ≢ 0 → (count.new ≡ 0) × (lines.new ≡ lines.old) }
{
    *count = 0;
    let Some(mut shown) = font.take(alloc) else {
        return NO_FONT;
    };
    let cutting = Cutting {
        end,
        breaks,
        widths: Widths {
            first: first_width,
            rest: width,
        },
    };
    let status = write_lines(alloc, &mut *shown, &cutting, lines, count);
    font.put(alloc, shown);
    status
}

/// The premises of safe breaks that the font and its tables keep, for `kus_check_lines`: a bit for each. It tests all
/// characters of Unicode. A bit that this call didn't answer promises nothing.
#[tactic(auto, using(crate::proofs::LinesAndCarets::premises_of_font))]
#[unsafe(no_mangle)]
pub extern "C" fn kus_font_get_break_premises(alloc: Global, font: &mut Handle) -> u32
    ensures same { font.new.value ≡ font.old.value }
    ensures tested { IfSome font.old.value
        (λ f. AreTested f.input.tables.characters f.input.face (premises_numbered result)) }
    ensures none { IfNone font.old.value (result ≡ 0) }
{
    let Some(shown) = font.take(alloc) else {
        return 0;
    };
    let premises = tested_premises(&shown);
    font.put(alloc, shown);
    premises
}

/// Leaves `is_own` only to those lines of a text whose two cuts the law of safe breaks speaks of, under premises.
#[tactic(auto, using(crate::proofs::LinesAndCarets::checked_of_font, crate::proofs::LinesAndCarets::check_refused))]
#[unsafe(no_mangle)]
pub extern "C" fn kus_check_lines(
    alloc: Global,
    font: &mut Handle,
    premises: u32,
    text: &kus_text_t<'_>,
    lines: &mut [kus_line_t],
) -> u32
    ensures no_font { IfNone font.old.value (result ≡ 16) }
    ensures same { font.new.value ≡ font.old.value }
    ensures checked { result ≡ 0 → IfSome font.old.value
        (λ f. AreChecked f.input (premises_numbered premises) text.now lines.old lines.new) }
    ensures refused { result ≢ 0 → result ≢ 1
        → IfSome font.old.value (λ _. IsNumberOf (λ e. text_fault text.now ≡ Some e) result) }
    ensures kept { result ≢ 0 → lines.new ≡ lines.old }
{
    let Some(shown) = font.take(alloc) else {
        return NO_FONT;
    };
    let checked = check_lines(alloc, &shown, premises, text, lines);
    font.put(alloc, shown);
    match checked {
        Ok(()) => OK,
        Err(fault) => fault_number(fault),
    }
}

/// The carets of the font's last text, which has `end` units, in the order of the text, also those at `stops` inside of
/// clusters. As many as there is room for are written, and all are counted.
#[tactic(auto, using(crate::proofs::LinesAndCarets::carets_of_font, crate::proofs::LinesAndCarets::font_refuses_carets))]
#[unsafe(no_mangle)]
pub extern "C" fn kus_get_carets(
    alloc: Global,
    font: &mut Handle,
    end: usize,
    stops: &[usize],
    carets: &mut [kus_caret_t],
    count: &mut usize,
) -> u32
    ensures same { font.new.value ≡ font.old.value }
    ensures carets { result ≡ 0 → AreCaretsOf (segment_in font.old.value).direction (ligatures_of font.old.value)
        (glyphs_of font.old.value) end stops.now carets.old carets.new count.new }
    ensures refused { result ≢ 0 → result ≢ 1 → IsCaretsFault font.old.value end stops.now result }
    ensures none { result ≢ 0 → (count.new ≡ 0) × (carets.new ≡ carets.old) }
{
    *count = 0;
    let Some(mut shown) = font.take(alloc) else {
        return NO_FONT;
    };
    let status = write_carets(alloc, &mut *shown, end, stops, carets, count);
    font.put(alloc, shown);
    status
}
