//! Laws of digests.
ghost use Rattle.std.specs.Prelude.{ℕ, List, ◌&&◌, ◌≡◌};
ghost use Rattle.layout_common.specs.Buckets.{shares_bucket};

use crate::digest::{hb_set_digest_ext, hb_set_digest_t};

/// The set by three kinds of buckets to which some glyphs were added, and no others, may have a glyph exactly where it
/// is in one bucket with one of them in each of the three kinds: 16 neighbours share a bucket of the first, no
/// neighbours one of the second, and 512 neighbours one of the third, modulo 64 buckets each.
pub fn law_digests_are_exact(digest: &hb_set_digest_t)
    ensures { (glyphs : List ℕ) (g : ℕ) → ⟦<hb_set_digest_t as hb_set_digest_ext>⟧.IsDigestOf digest.now glyphs
        → ⟦<hb_set_digest_t as hb_set_digest_ext>⟧.may_contain digest.now g
        ≡ (shares_bucket 4 glyphs g && (shares_bucket 0 glyphs g && shares_bucket 9 glyphs g)) }
{}
