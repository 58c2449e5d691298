//! The order of marks on a range of a text.
ghost use Rattle.buffer_stages.specs.Ready.{IsReady};

use crate::buffers::{buffer_of, has_glyphs};
use crate::rows::{natural, part};
use buffer_core::buffer::hb_buffer_t;
use script_categories::hb_ot_script_shaper_t;
use script_categories::hb_ot_script_shaper_t::HEBREW_SHAPER;
use std::alloc::Global;
use std::test::Fail;

/// Orders the marks from the option `start` to the option `end`.
fn reorder(shaper: hb_ot_script_shaper_t, words: &str, buffer: &mut hb_buffer_t)
    requires { IsReady buffer.old }
    ensures { IsReady buffer.new }
{
    let start = natural(words, "start") as usize;
    let end = natural(words, "end") as usize;
    if start > end || end > buffer.len() {
        return;
    }
    if shaper == HEBREW_SHAPER {
        script_hebrew::hebrew::reorder_marks(buffer, start, end);
        return;
    }
    script_arabic::marks::reorder_marks(buffer, start, end);
}

pub(crate) fn agrees(
    alloc: Global,
    shaper: hb_ot_script_shaper_t,
    row: &str,
) -> Result<bool, Fail> {
    let mut buffer = buffer_of(alloc, shaper, part(row, 1), part(row, 2))?;
    reorder(shaper, part(row, 1), &mut buffer);
    Ok(has_glyphs(shaper, "n@k", part(row, 3), &buffer))
}

// A name has the names of the characters.
pub(crate) static ARABIC: &str = "
# name; options; characters; characters afterwards
acute accent; end=1; U+301@0 p=12 k=234; U+301@0 k=234
waw; end=1; U+8D3@0 p=12 k=220; U+8D3@0 k=25
zah, teh marbuta; level=1 end=1; U+8CD@1 p=12 k=220, U+629@0 p=7; U+8CD@1 k=25, U+629@0
word sah, yeh; end=2; U+8CC@0 p=12 k=27, U+6E7@3 p=12 k=230; U+6E7@0 k=26, U+8CC@0 k=27
fathatan, hamza above; level=1 end=2; U+64B@2 p=12 k=220, U+654@0 p=12 k=230; U+654@0 k=26, U+64B@0 k=220
beh, noon, teh marbuta; start=1 end=2; U+628@0 p=7, U+6E8@1 p=12 k=230, U+629@4 p=7; U+628@0, U+6E8@1 k=26, U+629@4
beh, noon, farsi yeh; start=1 end=3; U+628@0 p=7, U+6E8@3 p=12 k=230, U+8CA@5 p=12 k=230;
  U+628@0, U+6E8@3 k=26, U+8CA@3 k=26
waw, farsi yeh, zah; end=3; U+8D3@0 p=12 k=27, U+8CA@1 p=12 k=27, U+8CD@1 p=12 k=230;
  U+8CD@0 k=26, U+8D3@0 k=27, U+8CA@0 k=27
waw, seen, waw; end=3; U+8D3@0 p=12 k=220, U+6DC@0 p=12 k=230, U+8D3@0 p=12 k=230;
  U+8D3@0 k=25, U+6DC@0 k=26, U+8D3@0 k=26
beh, 2 waw, teh marbuta; level=1 start=1 end=3; U+628@0 p=7, U+8D3@3 p=12 k=230, U+8D3@5 p=12 k=234, U+629@6 p=7;
  U+628@0, U+8D3@3 k=26, U+8D3@5 k=234, U+629@6
beh, zah, word sah, hamza below; level=1 start=1 end=4;
  U+628@0 p=7, U+8CD@0 p=12 k=27, U+8CC@3 p=12 k=220, U+655@4 p=12 k=230;
  U+628@0, U+655@0 k=26, U+8CD@0 k=27, U+8CC@0 k=220
beh, hamza below, 2 large round dot below; start=1 end=4;
  U+628@0 p=7, U+655@1 p=12 k=27, U+8CF@2 p=12 k=220, U+8CF@3 p=12 k=220;
  U+628@0, U+8CF@1 k=25, U+8CF@1 k=25, U+655@1 k=27
beh, large round dot below, shadda, seen; level=1 start=1 end=4;
  U+628@0 p=7, U+8CF@0 p=12 k=230, U+651@0 p=12 k=230, U+6E3@2 p=12 k=234;
  U+628@0, U+8CF@0 k=26, U+651@0 k=230, U+6E3@2 k=234
beh, 2 hamza below, seen; level=1 start=1 end=4;
  U+628@0 p=7, U+655@0 p=12 k=220, U+655@0 p=12 k=220, U+6DC@1 p=12 k=230;
  U+628@0, U+655@0 k=25, U+655@0 k=25, U+6DC@1 k=26
yeh, farsi yeh, noon, seen; end=4; U+6E7@6 p=12 k=230, U+8CA@3 p=12 k=230, U+6E8@1 p=12 k=230, U+6DC@0 p=12 k=234;
  U+6E7@1 k=26, U+8CA@1 k=26, U+6E8@1 k=26, U+6DC@0 k=234
beh, hamza below, seen, zah, teh marbuta; start=1 end=4;
  U+628@0 p=7, U+655@1 p=12 k=230, U+6DC@4 p=12 k=230, U+8CD@6 p=12 k=234, U+629@7 p=7;
  U+628@0, U+655@1 k=26, U+6DC@1 k=26, U+8CD@6 k=234, U+629@7
beh, zah, large round dot below, 2 waw; level=1 start=1 end=5;
  U+628@7 p=7, U+8CD@4 p=12 k=27, U+8CF@1 p=12 k=27, U+8F3@1 p=12 k=220, U+8F3@0 p=12 k=220;
  U+628@7, U+8F3@0 k=25, U+8F3@0 k=25, U+8CD@0 k=27, U+8CF@0 k=27
beh, 2 hamza below, fathatan, hamza above; start=1 end=5;
  U+628@0 p=7, U+655@0 p=12 k=220, U+655@3 p=12 k=220, U+64B@4 p=12 k=220, U+654@7 p=12 k=234;
  U+628@0, U+655@0 k=25, U+655@0 k=25, U+64B@4 k=220, U+654@7 k=234
hamza above, shadda, fathatan, acute accent, mark noon ghunna; end=5;
  U+654@0 p=12 k=220, U+651@2 p=12 k=220, U+64B@3 p=12 k=220, U+301@3 p=12 k=230, U+658@3 p=12 k=234;
  U+654@0 k=25, U+651@2 k=220, U+64B@3 k=220, U+301@3 k=230, U+658@3 k=234
beh, shadda, fatha, farsi yeh, waw, teh marbuta; start=1 end=5;
  U+628@4 p=7, U+651@3 p=12 k=27, U+64E@2 p=12 k=220, U+8CA@1 p=12 k=230, U+8F3@1 p=12 k=230, U+629@0 p=7;
  U+628@4, U+8CA@1 k=26, U+8F3@1 k=26, U+651@1 k=27, U+64E@1 k=220, U+629@0
beh, waw, kasra, hamza below, 2 seen; start=1 end=6;
  U+628@0 p=7, U+8F3@2 p=12 k=27, U+650@5 p=12 k=33, U+655@7 p=12 k=230, U+6E3@8 p=12 k=230, U+6E3@10 p=12 k=234;
  U+628@0, U+655@2 k=26, U+6E3@2 k=26, U+8F3@2 k=27, U+650@2 k=33, U+6E3@10 k=234
beh, farsi yeh, noon, fatha, large round dot below, zah; start=1 end=6;
  U+628@0 p=7, U+8CA@3 p=12 k=27, U+6E8@4 p=12 k=230, U+64E@6 p=12 k=230, U+8CF@8 p=12 k=230, U+8CD@11 p=12 k=234;
  U+628@0, U+6E8@3 k=26, U+8CA@3 k=27, U+64E@6 k=230, U+8CF@8 k=230, U+8CD@11 k=234
word sah, acute accent, hamza above, hamza below, zah, waw; level=1 end=6;
  U+8CC@0 p=12 k=220, U+301@0 p=12 k=220, U+654@0 p=12 k=220, U+655@0 p=12 k=230, U+8CD@0 p=12 k=230,
  U+8F3@2 p=12 k=230;
  U+655@0 k=26, U+8CD@0 k=26, U+8F3@0 k=26, U+8CC@0 k=220, U+301@0 k=220, U+654@0 k=220
beh, waw, noon, hamza below, seen, waw, teh marbuta; level=1 start=1 end=6;
  U+628@0 p=7, U+8F3@1 p=12 k=220, U+6E8@1 p=12 k=220, U+655@1 p=12 k=220, U+6DC@1 p=12 k=230, U+8D3@1 p=12 k=230,
  U+629@3 p=7;
  U+628@0, U+8F3@1 k=25, U+6E8@1 k=25, U+655@1 k=25, U+6DC@1 k=26, U+8D3@1 k=26, U+629@3
beh, word sah and more, 7 in all; start=1 end=7;
  U+628@0 p=7, U+8CC@3 p=12 k=27, U+8CF@4 p=12 k=220, U+301@5 p=12 k=230, U+8D3@6 p=12 k=230, U+8CA@9 p=12 k=234,
  U+8CC@10 p=12 k=234;
  U+628@0, U+8CF@3 k=25, U+8CC@3 k=27, U+301@5 k=230, U+8D3@6 k=230, U+8CA@9 k=234, U+8CC@10 k=234
beh, large round dot below and more, 7 in all; start=1 end=7;
  U+628@2 p=7, U+8CF@2 p=12 k=220, U+655@1 p=12 k=220, U+6DC@1 p=12 k=230, U+8CA@1 p=12 k=230, U+6E8@0 p=12 k=230,
  U+64E@0 p=12 k=234;
  U+628@0, U+8CF@0 k=25, U+655@0 k=25, U+6DC@0 k=26, U+8CA@0 k=26, U+6E8@0 k=26, U+64E@0 k=234";

pub(crate) static HEBREW: &str = "
# name; options; characters; characters afterwards
sin dot; end=1; U+5C2@0 p=12 k=25; U+5C2@0 k=25
meteg, sin dot, hiriq; level=1 end=3; U+5BD@0 p=12 k=21, U+5C2@2 p=12 k=22, U+5B4@4 p=12 k=25;
  U+5BD@0 k=21, U+5B4@2 k=25, U+5C2@2 k=22
2 patah, meteg; level=1 end=3; U+5B7@2 p=12 k=20, U+5B7@1 p=12 k=23, U+5BD@0 p=12 k=25;
  U+5B7@2 k=20, U+5BD@0 k=25, U+5B7@0 k=23
meteg, 2 patah; level=1 end=3; U+5BD@0 p=12 k=21, U+5B7@1 p=12 k=22, U+5B7@3 p=12 k=220;
  U+5BD@0 k=21, U+5B7@1 k=220, U+5B7@1 k=22
beh, etnahta, sheva, qamats; level=1 start=1 end=4;
  U+628@0 p=7, U+591@0 p=12 k=21, U+5B0@0 p=12 k=23, U+5B8@0 p=12 k=25;
  U+628@0, U+591@0 k=21, U+5B8@0 k=25, U+5B0@0 k=23
beh, 2 dagesh or mapiq, qamats; level=1 start=1 end=4;
  U+628@0 p=7, U+5BC@1 p=12 k=21, U+5BC@2 p=12 k=23, U+5B8@5 p=12 k=25;
  U+628@0, U+5BC@1 k=21, U+5B8@2 k=25, U+5BC@2 k=23
beh, etnahta, sheva, meteg; level=1 start=1 end=4; U+628@7 p=7, U+591@5 p=12 k=20, U+5B0@3 p=12 k=22, U+5BD@0 p=12 k=25;
  U+628@7, U+591@5 k=20, U+5BD@0 k=25, U+5B0@0 k=22
beh, sin dot, sheva, tipeha; start=1 end=4; U+628@0 p=7, U+5C2@1 p=12 k=21, U+5B0@2 p=12 k=23, U+596@3 p=12 k=25;
  U+628@0, U+5C2@1 k=21, U+596@2 k=25, U+5B0@2 k=23
beh, hiriq, 2 qamats; start=1 end=4; U+628@0 p=7, U+5B4@0 p=12 k=21, U+5B8@1 p=12 k=23, U+5B8@1 p=12 k=220;
  U+628@0, U+5B4@0 k=21, U+5B8@1 k=220, U+5B8@1 k=23
beh, patah, 2 qamats; level=1 start=1 end=4; U+628@0 p=7, U+5B7@3 p=12 k=20, U+5B8@3 p=12 k=23, U+5B8@3 p=12 k=220;
  U+628@0, U+5B7@3 k=20, U+5B8@3 k=220, U+5B8@3 k=23
2 sheva, meteg, qamats; end=4; U+5B0@4 p=12 k=21, U+5B0@4 p=12 k=23, U+5BD@1 p=12 k=25, U+5B8@0 p=12 k=220;
  U+5B0@1 k=21, U+5BD@1 k=25, U+5B0@1 k=23, U+5B8@0 k=220
beh, hiriq, meteg, hiriq, teh marbuta; level=1 start=1 end=4;
  U+628@0 p=7, U+5B4@0 p=12 k=21, U+5BD@0 p=12 k=23, U+5B4@0 p=12 k=220, U+629@1 p=7;
  U+628@0, U+5B4@0 k=21, U+5B4@0 k=220, U+5BD@0 k=23, U+629@1
beh, qamats, tipeha, patah, qamats; start=1 end=5;
  U+628@3 p=7, U+5B8@3 p=12 k=21, U+596@3 p=12 k=23, U+5B7@1 p=12 k=25, U+5B8@0 p=12 k=21;
  U+628@1, U+5B8@1 k=21, U+5B7@1 k=25, U+596@1 k=23, U+5B8@0 k=21
beh, sheva, tipeha, dagesh or mapiq, tipeha; start=1 end=5;
  U+628@0 p=7, U+5B0@0 p=12 k=20, U+596@0 p=12 k=21, U+5BC@0 p=12 k=22, U+596@0 p=12 k=25;
  U+628@0, U+5B0@0 k=20, U+596@0 k=21, U+596@0 k=25, U+5BC@0 k=22
beh, dagesh or mapiq, qamats, tipeha, hiriq; level=1 start=1 end=5;
  U+628@0 p=7, U+5BC@2 p=12 k=20, U+5B8@2 p=12 k=21, U+596@5 p=12 k=23, U+5B4@8 p=12 k=220;
  U+628@0, U+5BC@2 k=20, U+5B8@2 k=21, U+5B4@5 k=220, U+596@5 k=23
beh, sheva, meteg, tipeha, hiriq; start=1 end=5;
  U+628@1 p=7, U+5B0@1 p=12 k=21, U+5BD@1 p=12 k=21, U+596@1 p=12 k=22, U+5B4@0 p=12 k=220;
  U+628@0, U+5B0@0 k=21, U+5BD@0 k=21, U+5B4@0 k=220, U+596@0 k=22
2 qamats, dagesh or mapiq, etnahta, hiriq; level=1 end=5;
  U+5B8@0 p=12 k=21, U+5B8@0 p=12 k=22, U+5BC@0 p=12 k=25, U+591@1 p=12 k=20, U+5B4@1 p=12 k=22;
  U+5B8@0 k=21, U+5BC@0 k=25, U+5B8@0 k=22, U+591@1 k=20, U+5B4@1 k=22
beh, qamats, sin dot, 2 etnahta, teh marbuta; start=1 end=5;
  U+628@0 p=7, U+5B8@0 p=12 k=21, U+5C2@1 p=12 k=22, U+591@1 p=12 k=25, U+591@1 p=12 k=220, U+629@1 p=7;
  U+628@0, U+5B8@0 k=21, U+591@1 k=25, U+5C2@1 k=22, U+591@1 k=220, U+629@1
beh, hiriq, qamats, hiriq, tipeha, teh marbuta; start=1 end=5;
  U+628@0 p=7, U+5B4@1 p=12 k=21, U+5B8@4 p=12 k=21, U+5B4@5 p=12 k=22, U+596@8 p=12 k=220, U+629@10 p=7;
  U+628@0, U+5B4@1 k=21, U+5B8@4 k=21, U+596@5 k=220, U+5B4@5 k=22, U+629@10
beh, tipeha, etnahta, patah, etnahta, teh marbuta; level=1 start=1 end=5;
  U+628@0 p=7, U+596@0 p=12 k=20, U+591@0 p=12 k=22, U+5B7@1 p=12 k=220, U+591@4 p=12 k=220, U+629@6 p=7;
  U+628@0, U+596@0 k=20, U+5B7@0 k=220, U+591@0 k=22, U+591@4 k=220, U+629@6
beh, hiriq, 2 sin dot, sheva, sin dot; level=1 start=1 end=6;
  U+628@0 p=7, U+5B4@1 p=12 k=20, U+5C2@1 p=12 k=23, U+5C2@1 p=12 k=25, U+5B0@1 p=12 k=22, U+5C2@1 p=12 k=220;
  U+628@0, U+5B4@1 k=20, U+5C2@1 k=25, U+5C2@1 k=23, U+5B0@1 k=22, U+5C2@1 k=220
beh, tipeha, meteg, sheva, etnahta, tipeha; start=1 end=6;
  U+628@3 p=7, U+596@3 p=12 k=20, U+5BD@3 p=12 k=20, U+5B0@0 p=12 k=22, U+591@0 p=12 k=25, U+596@0 p=12 k=220;
  U+628@3, U+596@3 k=20, U+5BD@3 k=20, U+591@0 k=25, U+5B0@0 k=22, U+596@0 k=220
dagesh or mapiq, sin dot, sheva, hiriq, patah, tipeha; level=1 end=6;
  U+5BC@0 p=12 k=12, U+5C2@0 p=12 k=21, U+5B0@2 p=12 k=21, U+5B4@2 p=12 k=23, U+5B7@2 p=12 k=25, U+596@2 p=12 k=25;
  U+5BC@0 k=12, U+5C2@0 k=21, U+5B0@2 k=21, U+5B7@2 k=25, U+5B4@2 k=23, U+596@2 k=25
beh, hiriq, patah, hiriq, meteg, qamats; start=1 end=6;
  U+628@10 p=7, U+5B4@7 p=12 k=20, U+5B7@5 p=12 k=21, U+5B4@4 p=12 k=23, U+5BD@2 p=12 k=220, U+5B8@0 p=12 k=220;
  U+628@10, U+5B4@7 k=20, U+5B7@5 k=21, U+5BD@2 k=220, U+5B4@2 k=23, U+5B8@0 k=220
2 dagesh or mapiq, etnahta, dagesh or mapiq, etnahta, patah; end=6;
  U+5BC@0 p=12 k=20, U+5BC@2 p=12 k=22, U+591@5 p=12 k=220, U+5BC@5 p=12 k=220, U+591@7 p=12 k=20, U+5B7@7 p=12 k=25;
  U+5BC@0 k=20, U+591@2 k=220, U+5BC@2 k=22, U+5BC@2 k=220, U+591@7 k=20, U+5B7@7 k=25
beh, sin dot and more, 7 in all; start=1 end=7;
  U+628@0 p=7, U+5C2@1 p=12 k=20, U+5B7@1 p=12 k=23, U+5BC@2 p=12 k=21, U+5B4@4 p=12 k=20, U+5BC@7 p=12 k=22,
  U+591@10 p=12 k=25;
  U+628@0, U+5C2@1 k=20, U+5B7@1 k=23, U+5BC@2 k=21, U+5B4@4 k=20, U+591@7 k=25, U+5BC@7 k=22";
