//! General categories, as Unicode's `UnicodeData.txt` gives them (UAX 44), and their numbers (rustybuzz:
//! hb/unicode.rs).
ghost use Rattle.std.specs.Prelude.{◌≡◌, ◌<◌, ℕ, Bool};
ghost use Rattle.buffer_unicode.specs.Category.{category_number, category_of_number, is_mark_category, is_letter_category, NumberLeadsBack};

use unicode::properties::GeneralCategory;

/// The general category of a character.
pub type hb_unicode_general_category_t = GeneralCategory;

pub const RB_UNICODE_GENERAL_CATEGORY_CONTROL: u32 = 0;

pub const RB_UNICODE_GENERAL_CATEGORY_FORMAT: u32 = 1;

pub const RB_UNICODE_GENERAL_CATEGORY_UNASSIGNED: u32 = 2;

pub const RB_UNICODE_GENERAL_CATEGORY_PRIVATE_USE: u32 = 3;

pub const RB_UNICODE_GENERAL_CATEGORY_SURROGATE: u32 = 4;

pub const RB_UNICODE_GENERAL_CATEGORY_LOWERCASE_LETTER: u32 = 5;

pub const RB_UNICODE_GENERAL_CATEGORY_MODIFIER_LETTER: u32 = 6;

pub const RB_UNICODE_GENERAL_CATEGORY_OTHER_LETTER: u32 = 7;

pub const RB_UNICODE_GENERAL_CATEGORY_TITLECASE_LETTER: u32 = 8;

pub const RB_UNICODE_GENERAL_CATEGORY_UPPERCASE_LETTER: u32 = 9;

pub const RB_UNICODE_GENERAL_CATEGORY_SPACING_MARK: u32 = 10;

pub const RB_UNICODE_GENERAL_CATEGORY_ENCLOSING_MARK: u32 = 11;

pub const RB_UNICODE_GENERAL_CATEGORY_NON_SPACING_MARK: u32 = 12;

pub const RB_UNICODE_GENERAL_CATEGORY_DECIMAL_NUMBER: u32 = 13;

pub const RB_UNICODE_GENERAL_CATEGORY_LETTER_NUMBER: u32 = 14;

pub const RB_UNICODE_GENERAL_CATEGORY_OTHER_NUMBER: u32 = 15;

pub const RB_UNICODE_GENERAL_CATEGORY_CONNECT_PUNCTUATION: u32 = 16;

pub const RB_UNICODE_GENERAL_CATEGORY_DASH_PUNCTUATION: u32 = 17;

pub const RB_UNICODE_GENERAL_CATEGORY_CLOSE_PUNCTUATION: u32 = 18;

pub const RB_UNICODE_GENERAL_CATEGORY_FINAL_PUNCTUATION: u32 = 19;

pub const RB_UNICODE_GENERAL_CATEGORY_INITIAL_PUNCTUATION: u32 = 20;

pub const RB_UNICODE_GENERAL_CATEGORY_OTHER_PUNCTUATION: u32 = 21;

pub const RB_UNICODE_GENERAL_CATEGORY_OPEN_PUNCTUATION: u32 = 22;

pub const RB_UNICODE_GENERAL_CATEGORY_CURRENCY_SYMBOL: u32 = 23;

pub const RB_UNICODE_GENERAL_CATEGORY_MODIFIER_SYMBOL: u32 = 24;

pub const RB_UNICODE_GENERAL_CATEGORY_MATH_SYMBOL: u32 = 25;

pub const RB_UNICODE_GENERAL_CATEGORY_OTHER_SYMBOL: u32 = 26;

pub const RB_UNICODE_GENERAL_CATEGORY_LINE_SEPARATOR: u32 = 27;

pub const RB_UNICODE_GENERAL_CATEGORY_PARAGRAPH_SEPARATOR: u32 = 28;

pub const RB_UNICODE_GENERAL_CATEGORY_SPACE_SEPARATOR: u32 = 29;

/// A general category as a number, and its two groups that shaping tests.
pub trait GeneralCategoryExt {
    ghost number: { Self → ℕ };

    ghost of_number: { ℕ → Self };

    ghost mark: { Self → Bool };

    ghost letter: { Self → Bool };

    /// The number of the category, 0 to 29, one of the constants above.
    fn to_rb(&self) -> u32
        ensures number { result ≡ number self.now }
        ensures in_range { result < 30 };

    /// The category of a number.
    fn from_rb(gc: u32) -> Self
        requires { gc < 30 }
        ensures { result ≡ of_number gc };

    /// Whether it is a mark: nonspacing, spacing or enclosing.
    fn is_mark(&self) -> bool
        ensures { result ≡ mark self.now };

    /// Whether it is a letter: upper case, lower case, title case, modifier or other.
    fn is_letter(&self) -> bool
        ensures { result ≡ letter self.now };
}

impl GeneralCategoryExt for GeneralCategory {
    ghost number = { category_number };

    ghost of_number = { category_of_number };

    ghost mark = { is_mark_category };

    ghost letter = { is_letter_category };

    fn to_rb(&self) -> u32
        ensures number { result ≡ category_number self.now }
        ensures in_range { result < 30 }
    {
        match *self {
            GeneralCategory::Control => RB_UNICODE_GENERAL_CATEGORY_CONTROL,
            GeneralCategory::Format => RB_UNICODE_GENERAL_CATEGORY_FORMAT,
            GeneralCategory::Unassigned => RB_UNICODE_GENERAL_CATEGORY_UNASSIGNED,
            GeneralCategory::PrivateUse => RB_UNICODE_GENERAL_CATEGORY_PRIVATE_USE,
            GeneralCategory::Surrogate => RB_UNICODE_GENERAL_CATEGORY_SURROGATE,
            GeneralCategory::LowercaseLetter => RB_UNICODE_GENERAL_CATEGORY_LOWERCASE_LETTER,
            GeneralCategory::ModifierLetter => RB_UNICODE_GENERAL_CATEGORY_MODIFIER_LETTER,
            GeneralCategory::OtherLetter => RB_UNICODE_GENERAL_CATEGORY_OTHER_LETTER,
            GeneralCategory::TitlecaseLetter => RB_UNICODE_GENERAL_CATEGORY_TITLECASE_LETTER,
            GeneralCategory::UppercaseLetter => RB_UNICODE_GENERAL_CATEGORY_UPPERCASE_LETTER,
            GeneralCategory::SpacingMark => RB_UNICODE_GENERAL_CATEGORY_SPACING_MARK,
            GeneralCategory::EnclosingMark => RB_UNICODE_GENERAL_CATEGORY_ENCLOSING_MARK,
            GeneralCategory::NonspacingMark => RB_UNICODE_GENERAL_CATEGORY_NON_SPACING_MARK,
            GeneralCategory::DecimalNumber => RB_UNICODE_GENERAL_CATEGORY_DECIMAL_NUMBER,
            GeneralCategory::LetterNumber => RB_UNICODE_GENERAL_CATEGORY_LETTER_NUMBER,
            GeneralCategory::OtherNumber => RB_UNICODE_GENERAL_CATEGORY_OTHER_NUMBER,
            GeneralCategory::ConnectorPunctuation => {
                RB_UNICODE_GENERAL_CATEGORY_CONNECT_PUNCTUATION
            }
            GeneralCategory::DashPunctuation => RB_UNICODE_GENERAL_CATEGORY_DASH_PUNCTUATION,
            GeneralCategory::ClosePunctuation => RB_UNICODE_GENERAL_CATEGORY_CLOSE_PUNCTUATION,
            GeneralCategory::FinalPunctuation => RB_UNICODE_GENERAL_CATEGORY_FINAL_PUNCTUATION,
            GeneralCategory::InitialPunctuation => RB_UNICODE_GENERAL_CATEGORY_INITIAL_PUNCTUATION,
            GeneralCategory::OtherPunctuation => RB_UNICODE_GENERAL_CATEGORY_OTHER_PUNCTUATION,
            GeneralCategory::OpenPunctuation => RB_UNICODE_GENERAL_CATEGORY_OPEN_PUNCTUATION,
            GeneralCategory::CurrencySymbol => RB_UNICODE_GENERAL_CATEGORY_CURRENCY_SYMBOL,
            GeneralCategory::ModifierSymbol => RB_UNICODE_GENERAL_CATEGORY_MODIFIER_SYMBOL,
            GeneralCategory::MathSymbol => RB_UNICODE_GENERAL_CATEGORY_MATH_SYMBOL,
            GeneralCategory::OtherSymbol => RB_UNICODE_GENERAL_CATEGORY_OTHER_SYMBOL,
            GeneralCategory::LineSeparator => RB_UNICODE_GENERAL_CATEGORY_LINE_SEPARATOR,
            GeneralCategory::ParagraphSeparator => RB_UNICODE_GENERAL_CATEGORY_PARAGRAPH_SEPARATOR,
            GeneralCategory::SpaceSeparator => RB_UNICODE_GENERAL_CATEGORY_SPACE_SEPARATOR,
        }
    }

    fn from_rb(gc: u32) -> GeneralCategory
        requires { gc < 30 }
        ensures { result ≡ category_of_number gc }
    {
        match gc {
            RB_UNICODE_GENERAL_CATEGORY_CONTROL => GeneralCategory::Control,
            RB_UNICODE_GENERAL_CATEGORY_FORMAT => GeneralCategory::Format,
            RB_UNICODE_GENERAL_CATEGORY_UNASSIGNED => GeneralCategory::Unassigned,
            RB_UNICODE_GENERAL_CATEGORY_PRIVATE_USE => GeneralCategory::PrivateUse,
            RB_UNICODE_GENERAL_CATEGORY_SURROGATE => GeneralCategory::Surrogate,
            RB_UNICODE_GENERAL_CATEGORY_LOWERCASE_LETTER => GeneralCategory::LowercaseLetter,
            RB_UNICODE_GENERAL_CATEGORY_MODIFIER_LETTER => GeneralCategory::ModifierLetter,
            RB_UNICODE_GENERAL_CATEGORY_OTHER_LETTER => GeneralCategory::OtherLetter,
            RB_UNICODE_GENERAL_CATEGORY_TITLECASE_LETTER => GeneralCategory::TitlecaseLetter,
            RB_UNICODE_GENERAL_CATEGORY_UPPERCASE_LETTER => GeneralCategory::UppercaseLetter,
            RB_UNICODE_GENERAL_CATEGORY_SPACING_MARK => GeneralCategory::SpacingMark,
            RB_UNICODE_GENERAL_CATEGORY_ENCLOSING_MARK => GeneralCategory::EnclosingMark,
            RB_UNICODE_GENERAL_CATEGORY_NON_SPACING_MARK => GeneralCategory::NonspacingMark,
            RB_UNICODE_GENERAL_CATEGORY_DECIMAL_NUMBER => GeneralCategory::DecimalNumber,
            RB_UNICODE_GENERAL_CATEGORY_LETTER_NUMBER => GeneralCategory::LetterNumber,
            RB_UNICODE_GENERAL_CATEGORY_OTHER_NUMBER => GeneralCategory::OtherNumber,
            RB_UNICODE_GENERAL_CATEGORY_CONNECT_PUNCTUATION => {
                GeneralCategory::ConnectorPunctuation
            }
            RB_UNICODE_GENERAL_CATEGORY_DASH_PUNCTUATION => GeneralCategory::DashPunctuation,
            RB_UNICODE_GENERAL_CATEGORY_CLOSE_PUNCTUATION => GeneralCategory::ClosePunctuation,
            RB_UNICODE_GENERAL_CATEGORY_FINAL_PUNCTUATION => GeneralCategory::FinalPunctuation,
            RB_UNICODE_GENERAL_CATEGORY_INITIAL_PUNCTUATION => GeneralCategory::InitialPunctuation,
            RB_UNICODE_GENERAL_CATEGORY_OTHER_PUNCTUATION => GeneralCategory::OtherPunctuation,
            RB_UNICODE_GENERAL_CATEGORY_OPEN_PUNCTUATION => GeneralCategory::OpenPunctuation,
            RB_UNICODE_GENERAL_CATEGORY_CURRENCY_SYMBOL => GeneralCategory::CurrencySymbol,
            RB_UNICODE_GENERAL_CATEGORY_MODIFIER_SYMBOL => GeneralCategory::ModifierSymbol,
            RB_UNICODE_GENERAL_CATEGORY_MATH_SYMBOL => GeneralCategory::MathSymbol,
            RB_UNICODE_GENERAL_CATEGORY_OTHER_SYMBOL => GeneralCategory::OtherSymbol,
            RB_UNICODE_GENERAL_CATEGORY_LINE_SEPARATOR => GeneralCategory::LineSeparator,
            RB_UNICODE_GENERAL_CATEGORY_PARAGRAPH_SEPARATOR => GeneralCategory::ParagraphSeparator,
            _ => GeneralCategory::SpaceSeparator,
        }
    }

    fn is_mark(&self) -> bool
        ensures { result ≡ is_mark_category self.now }
    {
        matches!(
            *self,
            GeneralCategory::SpacingMark
                | GeneralCategory::EnclosingMark
                | GeneralCategory::NonspacingMark
        )
    }

    fn is_letter(&self) -> bool
        ensures { result ≡ is_letter_category self.now }
    {
        matches!(
            *self,
            GeneralCategory::LowercaseLetter
                | GeneralCategory::ModifierLetter
                | GeneralCategory::OtherLetter
                | GeneralCategory::TitlecaseLetter
                | GeneralCategory::UppercaseLetter
        )
    }
}

/// The number of a category leads back to it.
pub fn law_from_rb_inverts_to_rb()
    ensures { NumberLeadsBack }
{}
