//! The cluster levels of a buffer (HarfBuzz: `hb_buffer_cluster_level_t`; rustybuzz: hb/buffer.rs,
//! `hb_buffer_cluster_level_t`).
/// How finely cluster numbers are kept apart, and whether they stay in order.
#[derive(Clone, Copy, PartialEq, Eq, Debug, Default)]
pub enum BufferClusterLevel {
    /// The characters of a grapheme have one number, and numbers stay in order.
    #[default]
    MonotoneGraphemes,
    /// Each character begins with its own number, and numbers stay in order.
    MonotoneCharacters,
    /// Each character begins with its own number, and merges flag the range instead of renumbering it.
    Characters,
    /// The characters of a grapheme have one number, and later merges flag the range instead of renumbering it.
    Graphemes,
}

/// HarfBuzz's name of a cluster level, as a number.
pub type hb_buffer_cluster_level_t = u32;

pub const HB_BUFFER_CLUSTER_LEVEL_MONOTONE_GRAPHEMES: hb_buffer_cluster_level_t = 0;

pub const HB_BUFFER_CLUSTER_LEVEL_MONOTONE_CHARACTERS: hb_buffer_cluster_level_t = 1;

pub const HB_BUFFER_CLUSTER_LEVEL_CHARACTERS: hb_buffer_cluster_level_t = 2;

pub const HB_BUFFER_CLUSTER_LEVEL_GRAPHEMES: hb_buffer_cluster_level_t = 3;

pub const HB_BUFFER_CLUSTER_LEVEL_DEFAULT: hb_buffer_cluster_level_t = 0;
