//! What is known of characters without tables.
use crate::rows::{asked, character, prints};
use buffer_unicode::{CharExt, GeneralCategoryExt};
use std::alloc::Global;
use std::test::Fail;
use unicode::properties::GeneralCategory;

/// Of a character by its hexadecimal number: the number of its general category, in the order Cc Cf Cn Co Cs Ll Lm
/// Lo Lt Lu Mc Me Mn Nd Nl No Pc Pd Pe Pf Pi Po Ps Sc Sk Sm So Zl Zp Zs, where no character is a surrogate, Cs; its
/// script; its type as a space; whether it is a default ignorable, and whether it is a variation selector.
pub(crate) static ROWS: &str = "\
category 9: Some(0)
category ad: Some(1)
category 378: Some(2)
category e000: Some(3)
category 61: Some(5)
category 2b0: Some(6)
category 5d0: Some(7)
category 1c5: Some(8)
category 41: Some(9)
category 903: Some(10)
category 488: Some(11)
category 301: Some(12)
category 30: Some(13)
category 2160: Some(14)
category b2: Some(15)
category 5f: Some(16)
category 2d: Some(17)
category 29: Some(18)
category bb: Some(19)
category ab: Some(20)
category 21: Some(21)
category 28: Some(22)
category 24: Some(23)
category 5e: Some(24)
category 2b: Some(25)
category a9: Some(26)
category 2028: Some(27)
category 2029: Some(28)
category 20: Some(29)
script 61: Latn
script 20: Zyyy
script 301: Zinh
script 628: Arab
script e81: Laoo
script 1401: Cans
script 1b05: Bali
script 1d800: Sgnw
script 378: Zzzz
space 20: 18
space a0: 18
space 2000: 2
space 2003: 1
space 2004: 3
space 2005: 4
space 2006: 6
space 2007: 19
space 2008: 20
space 2009: 5
space 200a: 16
space 202f: 21
space 205f: 17
space 3000: 1
space 61: 0
ignorable ad: (true, false)
ignorable ae: (false, false)
ignorable 180f: (true, false)
ignorable fe0f: (true, true)
ignorable fe10: (false, false)
ignorable fff8: (true, false)
ignorable fff9: (false, false)
ignorable e01ef: (true, true)
ignorable e0fff: (true, false)";

/// The number of the category of a character; none where the category of that number is another one, or where it isn't
/// one of marks or of letters as that number is.
fn category_number(c: char) -> Option<u32> {
    let category = GeneralCategory::for_char(c);
    let number = category.to_rb();
    let is_known = GeneralCategory::from_rb(number) == category
        && category.is_mark() == (10..=12).contains(&number)
        && category.is_letter() == (5..=9).contains(&number);
    if is_known { Some(number) } else { None }
}

/// Whether a character is as a row says.
pub(crate) fn is_so(alloc: Global, row: &str) -> Result<bool, Fail> {
    let Some((question, digits, answer)) = asked(row) else {
        return Ok(false);
    };
    let Some(c) = character(digits) else {
        return Ok(false);
    };
    match question {
        "category" => prints(alloc, &category_number(c), answer),
        "script" => Ok(c.script().tag().to_bytes().as_slice() == answer.as_bytes()),
        "space" => prints(alloc, &c.space_fallback(), answer),
        _ => prints(
            alloc,
            &(c.is_default_ignorable(), c.is_variation_selector()),
            answer,
        ),
    }
}
