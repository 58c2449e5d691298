//! The buffer's type, and its making (rustybuzz: hb/buffer.rs, `hb_buffer_t`).
ghost use Rattle.std.specs.Prelude.{◌≡◌};
ghost use Rattle.buffer_core.specs.Sides.{empty_buffer};

mod across;
mod context;
mod cursor;
mod deletion;
mod flags;
mod grapheme_merges;
mod graphemes;
mod groups;
mod known;
mod lending;
mod limits;
mod marks;
mod masks;
mod merges;
mod moves;
mod numbering;
mod output;
mod replacement;
mod reversal;
mod room;
mod rotation;
pub mod segment;
mod settings;
mod sorting;
mod storage;

use arrayvec::ArrayVec;
use buffer_common::constants::{
    BufferFlags, HB_BUFFER_SCRATCH_FLAG_DEFAULT, hb_buffer_scratch_flags_t,
};
use buffer_common::direction::Direction;
use buffer_common::language::Language;
use buffer_common::script::Script;
use buffer_glyphs::info::hb_glyph_info_t;
use buffer_glyphs::level::BufferClusterLevel;
use buffer_glyphs::names::GlyphId;
use buffer_glyphs::position::GlyphPosition;
use buffer_lists::order::{ClusterOrder, KnownOrder};
use std::alloc::Global;
use std::marker::Model;

/// A buffer of characters, later of glyphs: one list with a cursor, or while an output is open an output and an input:
/// calls take glyphs from the input and append others to the output.
#[derive(Drop)]
pub struct hb_buffer_t {
    // All glyphs. While an output is open it is the first `out_len` glyphs here, the input begins at the cursor, and what
    // is between them has no meaning.
    info: Vec<hb_glyph_info_t>,
    pos: Vec<GlyphPosition>,
    // Whether a position may be other than zero. It only saves time: while none is, they need not be cleared.
    is_placed: bool,
    idx: usize,
    have_output: bool,
    out_len: usize,
    // Whether the output has had more glyphs than were read, so that the input has moved on.
    is_apart: bool,
    // How far the input has moved on: the last `gap` elements before the cursor were not read.
    gap: usize,
    successful: bool,
    max_len: usize,
    max_ops: i32,
    // The last ligature number given out, 0 for none.
    lig_id: u8,
    cluster_level: BufferClusterLevel,
    direction: Direction,
    script: Option<Script>,
    language: Option<Language>,
    pre_context: ArrayVec<char, 5>,
    post_context: ArrayVec<char, 5>,
    invisible: Option<GlyphId>,
    not_found_variation_selector: Option<GlyphId>,
    not_found: GlyphId,
    scratch_flags: hb_buffer_scratch_flags_t,
    flags: BufferFlags,
    // What is known of the order of clusters, so that a merge need not walk the whole list.
    order: ClusterOrder,
}

impl Model for hb_buffer_t {
    ghost use Rattle.buffer_core.specs.Sides.{Sides};

    ghost Value = { Sides };

    ghost use Rattle.buffer_core.specs.Inside.{sides_of, IsSound};

    ghost view = { sides_of };

    ghost invariant = { IsSound };
}

impl hb_buffer_t {
    /// How many glyphs a list may have where no other limit was set.
    pub const MAX_LEN_DEFAULT: usize = 0x3FFF_FFFF;

    /// How many glyphs a list may have for each glyph at the start of shaping.
    pub const MAX_LEN_FACTOR: usize = 64;

    /// The least limit of a list's length while it is shaped.
    pub const MAX_LEN_MIN: usize = 16384;

    /// How many steps may be taken where no other limit was set.
    pub const MAX_OPS_DEFAULT: i32 = 0x1FFF_FFFF;

    /// How many steps may be taken for each glyph at the start of shaping.
    pub const MAX_OPS_FACTOR: i32 = 1024;

    /// The least limit of the steps while a list is shaped.
    pub const MAX_OPS_MIN: i32 = 16384;

    /// An empty buffer with no direction and no script.
    pub fn new(alloc: Global) -> hb_buffer_t
        ensures { result ≡ empty_buffer }
    {
        hb_buffer_t {
            info: Vec::new(alloc),
            pos: Vec::new(alloc),
            is_placed: false,
            idx: 0,
            have_output: false,
            out_len: 0,
            is_apart: false,
            gap: 0,
            successful: true,
            max_len: Self::MAX_LEN_DEFAULT,
            max_ops: Self::MAX_OPS_DEFAULT,
            lig_id: 0,
            cluster_level: BufferClusterLevel::MonotoneGraphemes,
            direction: Direction::Invalid,
            script: None,
            language: None,
            pre_context: ArrayVec::new(),
            post_context: ArrayVec::new(),
            invisible: None,
            not_found_variation_selector: None,
            not_found: GlyphId(0),
            scratch_flags: HB_BUFFER_SCRATCH_FLAG_DEFAULT,
            flags: BufferFlags::default(),
            order: ClusterOrder::of(KnownOrder::Rising),
        }
    }

    /// Resets the buffer to what `new` makes.
    pub fn clear(&mut self)
        ensures { self.new ≡ empty_buffer }
    {
        self.info.clear();
        self.pos.clear();
        self.is_placed = false;
        self.idx = 0;
        self.have_output = false;
        self.out_len = 0;
        self.is_apart = false;
        self.gap = 0;
        self.successful = true;
        self.max_len = Self::MAX_LEN_DEFAULT;
        self.max_ops = Self::MAX_OPS_DEFAULT;
        self.lig_id = 0;
        self.cluster_level = BufferClusterLevel::MonotoneGraphemes;
        self.direction = Direction::Invalid;
        self.script = None;
        self.language = None;
        self.pre_context.clear();
        self.post_context.clear();
        self.invisible = None;
        self.not_found_variation_selector = None;
        self.not_found = GlyphId(0);
        self.scratch_flags = HB_BUFFER_SCRATCH_FLAG_DEFAULT;
        self.flags = BufferFlags::default();
        self.order = ClusterOrder::of(KnownOrder::Rising);
    }
}
