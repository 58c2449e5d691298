//! Arabic letters that connect: the form and the mask of each character.
use crate::buffers::{buffer_of, has_glyphs};
use crate::rows::{characters, mask, part, value};
use buffer_common::script::{ARABIC, MONGOLIAN};
use buffer_unicode_tables::{UnicodeRows, UnicodeTables};
use script_categories::hb_ot_script_shaper_t::ARABIC_SHAPER;
use script_categories::joining_type_number;
use script_joining::setup_masks_inner;
use std::alloc::Global;
use std::test::Fail;

/// A character's row: its number and its joining type.
fn joining_row(text: &str) -> Result<[u32; 2], Fail> {
    let (number, name) = text.trim().split_once(' ').ok_or("no joining type")?;
    let joining_type = joining_type_number(name).ok_or("no joining type of that name")?;
    Ok([u32::from_str_radix(number, 16)?, u32::from(joining_type)])
}

fn tables(alloc: Global, letters: &str) -> Result<UnicodeTables, Fail> {
    let mut rows = UnicodeRows::new(alloc);
    for letter in letters.split_terminator(',') {
        rows.joining.push(joining_row(letter)?)?;
    }
    Ok(UnicodeTables::new(alloc, &rows)?)
}

fn agrees_with(alloc: Global, tables: &UnicodeTables, row: &str) -> Result<bool, Fail> {
    let words = part(row, 1);
    let script = if value(words, "script") == "mongolian" {
        MONGOLIAN
    } else {
        ARABIC
    };
    let masks = [
        mask(words, "isol"),
        mask(words, "fina"),
        mask(words, "fin2"),
        mask(words, "fin3"),
        mask(words, "medi"),
        mask(words, "med2"),
        mask(words, "init"),
    ];
    let pre = characters(alloc, part(row, 3))?;
    let post = characters(alloc, part(row, 4))?;
    let mut buffer = buffer_of(alloc, ARABIC_SHAPER, words, part(row, 5))?;
    buffer.set_pre_context(&pre);
    buffer.set_post_context(&post);
    setup_masks_inner(tables, Some(script), &masks, &mut buffer);
    Ok(has_glyphs(ARABIC_SHAPER, "xm", part(row, 6), &buffer))
}

pub(crate) fn agrees(alloc: Global, row: &str) -> Result<bool, Fail> {
    let tables = tables(alloc, part(row, 2))?;
    agrees_with(alloc, &tables, row)
}

// A name has the names of the characters.
pub(crate) static ROWS: &str = "
# name; options; joining types; characters before the text, and after it; the text; forms and masks
alef; isol=10 fina=20 fin2=40 medi=80 init=100; ; ; ; U+627@0 m=80000000 p=7; * x=7 m=80000000
beh; isol=80000000 fina=10 fin2=20 fin3=40 medi=80 med2=100 init=200; 628 D; ; ; U+628@0 m=80000000 p=7; * m=80000000
a; script=mongolian isol=10 fina=20 fin2=40 fin3=80 medi=100 med2=200 init=400; 1820 ALAPH, 1822 D; ; ;
  U+1820@0 m=80000000 p=7; * m=80000010
enclosing keycap; isol=10 fina=20 fin2=40 fin3=80 medi=100 med2=200 init=400; 200C D; 200C 20E3; ;
  U+20E3@0 m=80000000 p=11; * x=7 m=80000000
reh; isol=10 fina=20 fin2=40 fin3=80 medi=100 med2=200 init=400; ; 640 640 64B 64B 64B; ; U+631@0 m=80000000 p=7;
  * x=7 m=80000000
dalath; isol=10 fina=20 fin2=40 fin3=80 medi=100 med2=200 init=400; 64B D, 715 ALAPH; ; 715 715; U+715@0 m=80000000 p=7;
  * m=80000010
a, e; script=mongolian isol=10 fina=20 fin3=40 medi=80 med2=100 init=200; 1820 D; ; ;
  U+1820@0 m=80000000 p=7, U+1821@0 m=80000000 p=7; * m=80000010, * x=7 m=80000000
reh; isol=10 fina=20 fin2=40 fin3=80 medi=100 med2=200 init=400; 627 ALAPH, 631 ALAPH, 20E3 D; ; 627;
  U+631@0 m=80000000 p=7; * m=80000010
alef; fina=10 fin2=20 fin3=40 medi=80 med2=100 init=80000000; 627 U, 200D R; 200D; 200D; U+627@0 m=80000000 p=7;
  * x=7 m=80000000
2 mongolian free variation selector two; script=mongolian isol=10 fina=20 fin2=40 fin3=80 medi=100 init=200;
  180C D, 1822 R; ; ; U+180C@0 m=80000000 p=108, U+180C@0 m=80000000 p=108; * x=6 m=80000200, * x=6 m=80000200
2 zero width joiner; fina=10 fin2=20 fin3=40 medi=80 med2=100 init=200; 61 D, 200D ALAPH; ; ;
  U+200D@0 m=80000000 p=289, U+200D@0 m=80000000 p=289; * m=80000000, * x=2 m=80000020
fathatan, dal; isol=10 fina=20 fin2=40 fin3=80 medi=100 med2=200 init=400; 61 D, 64B D, 200D R; ; ;
  U+64B@0 m=80000000 p=12, U+62F@0 m=80000000 p=7; * m=80000010, * x=7 m=80000000
dalath, a; isol=80000000 fina=10 fin2=20 fin3=40 medi=80 med2=100 init=200; 61 ALAPH, 715 U, 200D L; ; ;
  U+715@0 m=80000000 p=7, U+61@0 m=80000000 p=5; * x=7 m=80000000, * m=80000000
dal, fathatan; isol=10 fina=20 fin2=40 fin3=80 medi=100 med2=200 init=400; 62F R, 64B R; 62F; ;
  U+62F@0 m=80000000 p=7, U+64B@0 m=80000000 p=12; * m=80000010, * m=80000010
space, enclosing keycap; isol=10 fina=20 fin2=40 fin3=80 medi=100 med2=200; 61 R, 627 D, 70F D, 710 D, 20E3 D; ; ;
  U+20@0 m=80000000 p=29, U+20E3@0 m=80000000 p=11; * x=7 m=80000000, * m=80000010
dal, tatweel; isol=10 fina=20 fin2=40 fin3=80 medi=100 init=200; 627 ALAPH, 62F ALAPH, 640 R; 62F; ;
  U+62F@0 m=80000000 p=7, U+640@0 m=80000000 p=6; * m=80000010, * m=80000010
reh; isol=10 fina=20 fin2=40 fin3=80 medi=100 med2=200; 631 R, 200D R, 20E3 R; 20E3 631 200D 631 20E3;
  631 20E3 20E3 200D 631; U+631@0 m=80000000 p=7; * m=80000010
dalath, enclosing keycap, reh; isol=10 fina=20 fin2=40 fin3=80 medi=100 med2=200 init=400; 631 D, 20E3 R; ; ;
  U+715@0 m=80000000 p=7, U+20E3@0 m=80000000 p=11, U+631@0 m=80000000 p=7; * x=7 m=80000000, * m=80000010, * m=80000010
mongolian free variation selector three;
  script=mongolian isol=10 fina=20 fin2=40 fin3=80 medi=100 med2=200 init=80000000; 180D ALAPH, 1820 R, 1822 D;
  1822 180D 180D 180D 1820; 64B 64B 64B 180D 180D; U+180D@0 m=80000000 p=108; * m=80000010
2 reh, alaph; isol=10 fina=20 fin2=40 fin3=80000000 medi=80000000 med2=80 init=100; 631 R, 710 R; ; ;
  U+631@0 m=80000000 p=7, U+631@0 m=80000000 p=7, U+710@0 m=80000000 p=7; * m=80000010, * m=80000010, * m=80000010
e, mongolian vowel separator; script=mongolian isol=10 fina=20 fin2=40 fin3=80 medi=100 med2=200 init=400;
  180B U, 1821 ALAPH; 180E; 180E 180B 180B 1821 180E; U+1821@0 m=80000000 p=7, U+180E@0 m=80000000 p=33;
  * m=80000010, * x=7 m=80000000
mongolian free variation selector two, 2 e;
  script=mongolian isol=10 fina=20 fin2=40 fin3=80 medi=100 med2=200 init=80000000; 1821 R; 1821 180C; ;
  U+180C@0 m=80000000 p=108, U+1821@0 m=80000000 p=7, U+1821@0 m=80000000 p=7;
  * x=7 m=80000000, * m=80000010, * m=80000010
a, enclosing keycap, beh; isol=10 fina=20 medi=40 init=80; 61 R, 628 DALATH_RISH, 710 D, 20E3 ALAPH; ; ;
  U+61@0 m=80000000 p=5, U+20E3@0 m=80000000 p=11, U+628@0 m=80000000 p=7; * m=80000010, * m=80000010, * m=80000010
reh, arabic-indic digit nine, enclosing keycap; isol=10 fina=20 fin2=40 fin3=80 medi=100 med2=200 init=400;
  20 DALATH_RISH, 631 T, 669 D, 20E3 U; ; ; U+631@0 m=80000000 p=7, U+669@0 m=80000000 p=13, U+20E3@0 m=80000000 p=11;
  * x=7 m=80000000, * m=80000010, * x=7 m=80000000
enclosing keycap, beh; isol=10 fin2=20 fin3=80000000 med2=40 init=80; 61 ALAPH, 628 DALATH_RISH, 715 D, 20E3 T;
  628 628 64B 64B 64B 64B 64B; ; U+20E3@0 m=80000000 p=11, U+628@0 m=80000000 p=7; * x=7 m=80000000, * m=80000010
reh, dalath, alaph; isol=10 fina=20 fin2=40 fin3=80 medi=100 med2=200 init=400;
  631 R, 640 D, 70F R, 710 D, 715 R, 200D D; ; ; U+631@0 m=80000000 p=7, U+715@0 m=80000000 p=7, U+710@0 m=80000000 p=7;
  * m=80000010, * m=80000010, * m=80000010
2 e, i; script=mongolian isol=10 fin2=20 fin3=40 medi=80 med2=100 init=200; 180D R, 1821 D, 1822 D; ;
  1821 180D 1822 1822 1822; U+1821@0 m=80000000 p=7, U+1821@0 m=80000000 p=7, U+1822@0 m=80000000 p=7;
  * x=6 m=80000200, * x=4 m=80000080, * x=4 m=80000080
dalath, 2 dal; isol=10 fina=20 fin2=40 fin3=80 medi=100 med2=200 init=400; 62F D, 70F ALAPH, 715 R; 62F 715 715 715 70F;
  ; U+715@0 m=80000000 p=7, U+62F@0 m=80000000 p=7, U+62F@0 m=80000000 p=7;
  * m=80000010, * x=6 m=80000400, * x=1 m=80000020
beh, syriac abbreviation mark, beh, alaph; isol=10 fina=20 fin3=40 medi=80 med2=100 init=200; 628 D, 70F R, 710 ALAPH; ;
  ; U+628@0 m=80000000 p=7, U+70F@0 m=80000000 p=1, U+628@0 m=80000000 p=7, U+710@0 m=80000000 p=7;
  * x=6 m=80000200, * x=1 m=80000020, * x=6 m=80000200, * x=1 m=80000020
a, 2 mongolian free variation selector four;
  script=mongolian isol=10 fina=20 fin2=80000000 fin3=40 medi=80 med2=100 init=200; 180F D, 1820 D, 1821 DALATH_RISH; ;
  1821 1821 1820 1820 180F; U+1820@0 m=80000000 p=7, U+180F@0 m=80000000 p=108, U+180F@0 m=80000000 p=108;
  * x=6 m=80000200, * x=6 m=80000200, * x=6 m=80000200
mongolian free variation selector one, e and more, 4 in all;
  script=mongolian isol=10 fina=20 fin2=40 fin3=80 medi=100 med2=200 init=400; 180B L, 180C D, 1820 D, 1821 U; ; ;
  U+180B@0 m=80000000 p=108, U+1821@0 m=80000000 p=7, U+180B@0 m=80000000 p=108, U+180C@0 m=80000000 p=108;
  * m=80000010, * x=7 m=80000000, * x=7 m=80000000, * x=7 m=80000000
arabic-indic digit nine, 3 dalath; fina=10 fin3=20 medi=40 med2=80 init=100; 61 R, 669 T, 715 ALAPH, 200D D; ; 61;
  U+669@0 m=80000000 p=13, U+715@0 m=80000000 p=7, U+715@0 m=80000000 p=7, U+715@0 m=80000000 p=7;
  * x=7 m=80000000, * m=80000000, * m=80000000, * m=80000000
arabic-indic digit nine, enclosing keycap and more, 5 in all; isol=10 fina=20 fin2=40 fin3=80 medi=100 med2=200;
  61 D, 669 D; ; ;
  U+669@0 m=80000000 p=13, U+20E3@0 m=80000000 p=11, U+669@0 m=80000000 p=13, U+20E3@0 m=80000000 p=11,
  U+20E3@0 m=80000000 p=11;
  * x=6 m=80000000, * x=7 m=80000000, * x=1 m=80000020, * x=7 m=80000000, * x=7 m=80000000
3 alef, 2 beh; isol=80000000 fina=10 fin2=20 medi=80000000 med2=40; 627 L, 20E3 L; ; ;
  U+627@0 m=80000000 p=7, U+627@0 m=80000000 p=7, U+627@0 m=80000000 p=7, U+628@0 m=80000000 p=7,
  U+628@0 m=80000000 p=7;
  * m=80000000, * m=80000000, * m=80000000, * x=7 m=80000000, * x=7 m=80000000
enclosing keycap, dal, 3 alaph; isol=10 fina=80000000 fin2=20 fin3=40 medi=80 med2=80000000 init=100;
  62F ALAPH, 710 ALAPH; ; ;
  U+20E3@0 m=80000000 p=11, U+62F@0 m=80000000 p=7, U+710@0 m=80000000 p=7, U+710@0 m=80000000 p=7,
  U+710@0 m=80000000 p=7;
  * x=7 m=80000000, * m=80000010, * m=80000010, * m=80000010, * x=2 m=80000020
a, zero width joiner, i, a; script=mongolian fina=10 fin2=80000000 fin3=20 medi=40 med2=80 init=100;
  1820 DALATH_RISH, 1822 ALAPH, 200D ALAPH; 1820 1820 64B 64B 64B 64B; ;
  U+1820@0 m=80000000 p=7, U+200D@0 m=80000000 p=289, U+1822@0 m=80000000 p=7, U+1820@0 m=80000000 p=7;
  * m=80000000, * m=80000000, * m=80000000, * m=80000000";
