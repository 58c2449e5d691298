//! Positions in a client's scale. An advance is rounded by itself, and within a cluster the point where each glyph is drawn is rounded once,
//! so that a mark stays where it is attached, whatever the advances before it were rounded to.
ghost use Rattle.std.specs.Prelude.{◌≡◌, ◌<◌, length, pos};
ghost use Rattle.std.specs.Int.RustNames.{int_div};
ghost use Rattle.c_text.specs.Scale.{is_set, multiplier, multipliers, pen_after, pens_after, pens_at, scaled_advance, scaled_offset, scaled_position, scaled_positions, scaled_units, within_32};
ghost use Rattle.c_text.specs.Written.{with_front};

use crate::types::kus_glyph_position_t;
use buffer_glyphs::info::hb_glyph_info_t;
use buffer_glyphs::position::GlyphPosition;

/// What an em is on each axis in a client's units, from -2^31 to 2^31 - 1 (`hb_font_set_scale`); 0 on both axes for font
/// units.
#[derive(Clone, Copy)]
pub struct Scale {
    pub x: i32,
    pub y: i32,
}

pub const NO_SCALE: Scale = Scale { x: 0, y: 0 };

/// 65536 times what a font unit is on each axis.
#[derive(Clone, Copy)]
pub struct Multipliers {
    pub x: i64,
    pub y: i64,
}

/// A pen on one axis, from the first pen of its cluster: in font units, and by the advances that are handed out.
#[derive(Clone, Copy)]
pub struct Pen {
    pub units: i64,
    pub scaled: i64,
}

#[derive(Clone, Copy)]
pub struct Pens {
    pub x: Pen,
    pub y: Pen,
}

/// The first pens of a cluster.
pub const NO_PENS: Pens = Pens {
    x: Pen {
        units: 0,
        scaled: 0,
    },
    y: Pen {
        units: 0,
        scaled: 0,
    },
};

impl Scale {
    /// Whether it stands for another unit than the font's.
    pub fn is_set(self) -> bool
        ensures { result ≡ is_set self }
    {
        self.x != 0 || self.y != 0
    }

    /// The multipliers of an em of some units.
    pub fn multipliers(self, upem: u16) -> Multipliers
        ensures { result ≡ multipliers upem self }
    {
        Multipliers {
            x: multiplier(upem, self.x),
            y: multiplier(upem, self.y),
        }
    }
}

/// 65536 times what a font unit is on an axis.
fn multiplier(upem: u16, scale: i32) -> i64
    ensures { result ≡ multiplier upem scale }
{
    quotient(i64::from(scale) * 65536, upem.max(1))
}

/// A quotient, rounded toward zero.
fn quotient(number: i64, count: u16) -> i64
    requires { 0 < count }
    ensures { result ≡ int_div number (pos count) }
{
    number / i64::from(count)
}

/// The number of 32 bits that is nearest to one.
fn within_32(number: i64) -> i32
    ensures { result ≡ within_32 number }
{
    if number > 2147483647 {
        2147483647
    } else if number < -2147483648 {
        -2147483648
    } else {
        number as i32
    }
}

/// Font units by a multiplier.
fn scaled_units(by: i64, units: i64) -> i64
    ensures { result ≡ scaled_units by units }
{
    units.saturating_mul(by).saturating_add(32768) >> 16
}

fn scaled_advance(by: i64, advance: i32) -> i32
    ensures { result ≡ scaled_advance by advance }
{
    within_32(scaled_units(by, i64::from(advance)))
}

fn scaled_offset(by: i64, pen: Pen, offset: i32) -> i32
    ensures { result ≡ scaled_offset by pen offset }
{
    let point = pen.units.saturating_add(i64::from(offset));
    within_32(scaled_units(by, point).saturating_sub(pen.scaled))
}

fn pen_after(by: i64, pen: Pen, advance: i32) -> Pen
    ensures { result ≡ pen_after by pen advance }
{
    Pen {
        units: pen.units.saturating_add(i64::from(advance)),
        scaled: pen
            .scaled
            .saturating_add(i64::from(scaled_advance(by, advance))),
    }
}

/// A glyph's position in the scale.
fn scaled_position(by: Multipliers, pens: Pens, position: &GlyphPosition) -> kus_glyph_position_t
    ensures { result ≡ scaled_position by pens position.now }
{
    kus_glyph_position_t {
        x_advance: scaled_advance(by.x, position.x_advance),
        y_advance: scaled_advance(by.y, position.y_advance),
        x_offset: scaled_offset(by.x, pens.x, position.x_offset),
        y_offset: scaled_offset(by.y, pens.y, position.y_offset),
        var: 0,
    }
}

/// The pens after a glyph.
fn pens_after(by: Multipliers, pens: Pens, position: &GlyphPosition) -> Pens
    ensures { result ≡ pens_after by pens position.now }
{
    Pens {
        x: pen_after(by.x, pens.x, position.x_advance),
        y: pen_after(by.y, pens.y, position.y_advance),
    }
}

/// The pens at a glyph of a cluster after one of another.
fn pens_at(before: u32, cluster: u32, pens: Pens) -> Pens
    ensures { result ≡ pens_at before cluster pens }
{
    if before == cluster { pens } else { NO_PENS }
}

/// Writes the positions of glyphs in the scale, as many as there is room for.
#[tactic(auto, using(crate::proofs::Scaling::none_written, crate::proofs::Scaling::all_written))]
pub fn write_scaled(
    by: Multipliers,
    infos: &[hb_glyph_info_t],
    positions: &[GlyphPosition],
    room: &mut [kus_glyph_position_t],
)
    requires { length infos.now ≡ length positions.now }
    ensures { room.new ≡ with_front (scaled_positions by infos.now positions.now) room.old }
{
    let count = positions.len().min(room.len());
    let (mut before, mut pens) = (0, NO_PENS);
    for k in 0..count {
        let cluster = infos[k].cluster;
        let position = &positions[k];
        let at = pens_at(before, cluster, pens);
        room[k] = scaled_position(by, at, position);
        pens = pens_after(by, at, position);
        before = cluster;
    }
}
