//! The options of a run.

use buffer_common::constants::BufferFlags;
use buffer_common::direction::Direction;
use buffer_common::language::Language;
use buffer_common::script::Script;
use buffer_glyphs::flags::SerializeFlags;
use buffer_glyphs::level::BufferClusterLevel;
use buffer_tags::feature::Feature;

/// The options of a run of the program.
#[derive(Debug, Drop)]
pub struct Options {
    /// The direction of the text; `Invalid` where it must be guessed.
    pub direction: Direction,
    /// The script of the text; `None` where it must be guessed.
    pub script: Option<Script>,
    /// The language of the text; `None` where it is not given.
    pub language: Option<Language>,
    /// The requested features, in the order of the command-line words.
    pub features: Vec<Feature>,
    /// The cluster level.
    pub cluster_level: BufferClusterLevel,
    /// The buffer's flags.
    pub buffer_flags: BufferFlags,
    /// What is printed of each glyph.
    pub flags: SerializeFlags,
    /// Whether the slices of the text are printed after its glyphs.
    pub slices: bool,
    /// Whether each line of the text is a text of its own.
    pub lines: bool,
    /// Whether lines that are refused are named in their places and the others printed. Without `lines` it has no
    /// effect.
    pub keep_going: bool,
}
