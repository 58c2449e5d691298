//! What holds of all results, by the layers' crates of laws. A law is a function without a body, whose contract is the law.
//! Each of these modules, or the crate that it is of, begins with a list of what a caller can test of the laws' premises.

/// Plans, results, clusters and requests for flags (`shape_pipeline`).
pub mod shaping {
    pub use shape_pipeline::{laws, reading_laws};
}

/// Clusters of results: the parts of the text, its line, its graphemes (`shape_parts`).
pub mod clusters {
    pub use shape_parts::{
        character_laws, glyph_laws, grapheme_laws, line_laws, position_laws, reading_laws,
        source_laws, text_laws, written_merges,
    };
}

/// Slices of the text (`shape_slices`).
pub mod slices {
    pub use shape_slices::laws;
}

/// Plain texts, and canonically equivalent ones (`shape_laws`, `shape_premises`).
pub mod texts {
    pub use shape_laws::{equivalent_texts, plain_texts};
    pub use shape_premises::laws as premises;
}

/// Lookups (`layout_laws`).
pub mod lookups {
    pub use opentype_layout::laws;
}

/// Breaks: where a text may be cut, and its pieces give the glyphs of the whole (`shape_laws`).
pub mod breaks {
    pub use shape_laws::breaks::{
        break_laws, chain_laws, glyph_laws, laws, pause_laws, seam_plan_laws,
    };
}
