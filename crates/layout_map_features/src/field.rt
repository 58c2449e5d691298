//! The bits of a feature in glyph masks (rustybuzz: hb/ot_map.rs, `compile`).
ghost use Rattle.std.specs.Prelude.{◌≡◌, ◌≤◌, ◌<◌, ◌+◌};
ghost use Rattle.layout_map_features.specs.Fields.{bits_needed, bit_after, field_of, own_field, uses_global_bit};

use crate::request::MergedRequest;

/// The greatest number of bits that a feature gets (HarfBuzz: `MAX_BITS`).
pub const MAX_BITS: u32 = 8;

/// The greatest value of a feature, which requests a random alternate (HarfBuzz: `HB_OT_MAP_MAX_VALUE`).
pub const MAX_VALUE: u32 = 255;

/// The index of the bit that every glyph has, for features that are on for all glyphs.
pub const GLOBAL_SHIFT: u32 = 31;

pub const GLOBAL_BIT: u32 = 1 << GLOBAL_SHIFT;

/// The lowest bit that is no glyph flag.
pub const FIRST_FEATURE_BIT: u32 = 4;

/// The bits of a feature in the masks of glyphs.
#[derive(Clone, Copy)]
pub struct FeatureField {
    /// The index of the lowest of the bits.
    pub shift: u32,
    pub mask: u32,
    /// The mask of a glyph whose value is 1.
    pub one_mask: u32,
    /// The mask of a glyph outside the ranges.
    pub default_mask: u32,
}

const GLOBAL_FIELD: FeatureField = FeatureField {
    shift: GLOBAL_SHIFT,
    mask: GLOBAL_BIT,
    one_mask: GLOBAL_BIT,
    default_mask: GLOBAL_BIT,
};

fn bits_needed(value: u32) -> u32
    ensures same { result ≡ bits_needed value }
    ensures few { result ≤ 8 }
{
    (u32::BITS - value.leading_zeros()).min(MAX_BITS)
}

fn own_field(next: u32, count: u32, value: u32) -> FeatureField
    requires few { count ≤ 8 }
    requires within { next + count < 31 }
    ensures { result ≡ own_field next count value }
{
    let one_more = 1 << count;
    FeatureField {
        shift: next,
        mask: (one_more - 1) << next,
        one_mask: 1 << next,
        default_mask: (value % one_more) << next,
    }
}

impl MergedRequest {
    /// Whether every glyph has the feature with value 1.
    pub fn uses_global_bit(&self) -> bool
        ensures { result ≡ uses_global_bit self.now }
    {
        self.is_global && self.max_value == 1
    }

    /// The field of the feature where `next` is the lowest free bit; none where the feature is off, or where its bits
    /// would reach the last bit.
    pub fn field(&self, next: u32) -> Option<FeatureField>
        requires { next ≤ 31 }
        ensures { result ≡ field_of next self.now }
    {
        if self.max_value == 0 {
            return None;
        }
        if self.uses_global_bit() {
            return Some(GLOBAL_FIELD);
        }
        let count = bits_needed(self.max_value);
        if next + count >= GLOBAL_SHIFT {
            return None;
        }
        Some(own_field(next, count, self.default_value))
    }
}

/// The lowest free bit after the field of a request.
pub fn bit_after(next: u32, request: &MergedRequest) -> u32
    requires { next ≤ 31 }
    ensures same { result ≡ bit_after next request.now }
    ensures within { result ≤ 31 }
{
    if request.max_value == 0 || request.uses_global_bit() {
        return next;
    }
    let count = bits_needed(request.max_value);
    if GLOBAL_SHIFT <= next + count {
        return next;
    }
    next + count
}
