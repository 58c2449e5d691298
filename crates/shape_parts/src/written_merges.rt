//! Thai, Lao and Hangul: the merges of graphemes before a text is preprocessed leave what HarfBuzz's leave, each of which
//! stands where its vowel or syllable is written.
//!
//! What a caller can test of their premises:
//! - A text has as many clusters as characters: each `UnicodeBuffer` has.
//! - Its clusters are in order: those of a text that was pushed once rise (`text_laws::law_starts_rise`).
//! - PRODUCE_SAFE_BREAKS is not requested: `UnicodeBuffer::flags`.
ghost use Rattle.shape_parts.specs.WrittenMerges.{SyllablesMergeWhereWritten, VowelsMergeWhereWritten};

/// At every level a text of Thai or Lao has the same clusters, and the same flags where PRODUCE_SAFE_BREAKS is not requested.
pub fn law_vowels_merge_where_written()
    ensures { VowelsMergeWhereWritten }
{}

/// At every level a text of Hangul has the same clusters, and where PRODUCE_SAFE_BREAKS is not requested the same flags, but
/// at the level Graphemes of clusters in no order.
pub fn law_syllables_merge_where_written()
    ensures { SyllablesMergeWhereWritten }
{}
