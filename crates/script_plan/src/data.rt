//! The tables that shaping depends on beside the font and the text.

use buffer_common::language_tags::LanguageTags;
use buffer_unicode_tables::UnicodeTables;
use script_categories::SyllableSpans;
use std::alloc::AllocError;

/// The tables of characters, the machines that find syllables, and the tags of languages.
#[derive(Drop)]
pub struct hb_shape_data_t<'a, P: SyllableSpans, L: LanguageTags> {
    pub tables: &'a UnicodeTables,
    pub spans: &'a P,
    pub languages: &'a L,
}

// Not derived, since it is copied whatever types its references are to.
impl<'a, P: SyllableSpans, L: LanguageTags> Clone for hb_shape_data_t<'a, P, L> {
    fn clone(&self) -> Result<hb_shape_data_t<'a, P, L>, AllocError> {
        Ok(*self)
    }
}

impl<'a, P: SyllableSpans, L: LanguageTags> Copy for hb_shape_data_t<'a, P, L> {}
