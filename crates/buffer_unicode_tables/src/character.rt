//! Properties of a character by tables (rustybuzz: hb/unicode.rs, `CharExt`).
ghost use Rattle.std.specs.Prelude.{◌≡◌, ℕ, Bool, Option};
ghost use Rattle.buffer_unicode_tables.specs.Tables.{Tables, class_of, counterpart_in, is_pictographic};

use crate::tables::UnicodeTables;

/// The properties of a character by tables.
pub trait CharTablesExt: Sized {
    ghost class_gives: { Tables → Self → ℕ };

    ghost mirror_gives: { Tables → Self → Option Self };

    ghost vertical_gives: { Tables → Self → Option Self };

    ghost pictographic: { Tables → Self → Bool };

    /// Its modified combining class, 0 where no row gives one.
    fn modified_combining_class(self, tables: &UnicodeTables) -> u8
        ensures { result ≡ class_gives tables.now self };

    /// Its mirror image (UAX 9, `Bidi_Mirroring_Glyph`).
    fn mirrored(self, tables: &UnicodeTables) -> Option<Self>
        ensures { result ≡ mirror_gives tables.now self };

    /// Its form in vertical text.
    fn vertical(self, tables: &UnicodeTables) -> Option<Self>
        ensures { result ≡ vertical_gives tables.now self };

    /// Whether it is extended pictographic (UTS 51).
    fn is_emoji_extended_pictographic(self, tables: &UnicodeTables) -> bool
        ensures { result ≡ pictographic tables.now self };
}

impl CharTablesExt for char {
    ghost class_gives = { class_of };

    ghost mirror_gives = { λ t c. counterpart_in t.mirrored c };

    ghost vertical_gives = { λ t c. counterpart_in t.vertical c };

    ghost pictographic = { is_pictographic };

    fn modified_combining_class(self, tables: &UnicodeTables) -> u8
        ensures { result ≡ class_of tables.now self }
    {
        tables.class(self)
    }

    fn mirrored(self, tables: &UnicodeTables) -> Option<char>
        ensures { result ≡ counterpart_in tables.now.mirrored self }
    {
        tables.mirrored(self)
    }

    fn vertical(self, tables: &UnicodeTables) -> Option<char>
        ensures { result ≡ counterpart_in tables.now.vertical self }
    {
        tables.vertical(self)
    }

    fn is_emoji_extended_pictographic(self, tables: &UnicodeTables) -> bool
        ensures { result ≡ is_pictographic tables.now self }
    {
        tables.is_pictographic(self)
    }
}
