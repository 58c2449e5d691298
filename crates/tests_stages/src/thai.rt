//! The Thai and Lao vowels that are decomposed.
use crate::buffers::{buffer_of, has_glyphs};
use crate::rows::part;
use script_categories::hb_ot_script_shaper_t::THAI_SHAPER;
use script_thai::thai_vowel::preprocess_text;
use std::alloc::Global;
use std::test::Fail;

pub(crate) fn agrees(alloc: Global, row: &str) -> Result<bool, Fail> {
    let mut buffer = buffer_of(alloc, THAI_SHAPER, part(row, 1), part(row, 2))?;
    preprocess_text(&mut buffer)?;
    Ok(has_glyphs(THAI_SHAPER, "n@u", part(row, 3), &buffer))
}

// A name has the names of the characters.
pub(crate) static ROWS: &str = "
# name; options; characters; characters afterwards
am; level=1; U+EB3@0 p=7; U+ECD@0 p=12, U+EB2@0 p=7
mai ek; level=1; U+EC8@0 p=12; U+EC8@0 p=12
sara am; level=1; U+E33@0 p=7; U+E4D@0 p=12, U+E32@0 p=7
sara am; ; U+E33@0 p=7; U+E4D@0 p=12, U+E32@0 p=7
ho nokhuk, sara am; level=1; U+E2E@0 p=7, U+E33@1 p=7; U+E2E@0 p=7, U+E4D@1 p=12, U+E32@1 p=7
yo ying, sara am; ; U+E0D@0 p=7, U+E33@1 p=7; U+E0D@0 p=7, U+E4D@0 p=12, U+E32@0 p=7
maitaikhu, sara am; level=1; U+E47@0 p=12, U+E33@1 p=7; U+E4D@0 p=12, U+E47@0 p=12, U+E32@0 p=7
mai ek, sara am; ; U+E48@0 p=12, U+E33@3 p=7; U+E4D@0 p=12, U+E48@0 p=12, U+E32@0 p=7
fo fa, sara am; ; U+E1D@0 p=7, U+E33@0 p=7; U+E1D@0 p=7, U+E4D@0 p=12, U+E32@0 p=7
mai han-akat, sara am; ; U+E31@0 p=12, U+E33@2 p=7; U+E4D@0 p=12, U+E31@0 p=12, U+E32@0 p=7
sara i, sara u, sara am; level=1; U+E34@0 p=12, U+E38@0 p=12, U+E33@0 p=7;
  U+E34@0 p=12, U+E38@0 p=12, U+E4D@0 p=12, U+E32@0 p=7
sara u, mai han-akat, sara am; level=1; U+E38@0 p=12, U+E31@3 p=12, U+E33@3 p=7;
  U+E38@0 p=12, U+E4D@3 p=12, U+E31@3 p=12, U+E32@3 p=7
kho sung, u, am; level=1; U+E82@0 p=7, U+EB8@3 p=12, U+EB3@4 p=7; U+E82@0 p=7, U+EB8@3 p=12, U+ECD@4 p=12, U+EB2@4 p=7
ko, mai ek, am; ; U+E81@0 p=7, U+EC8@0 p=12, U+EB3@2 p=7; U+E81@0 p=7, U+ECD@0 p=12, U+EC8@0 p=12, U+EB2@0 p=7
ho nokhuk, thanthakhat, sara uee, sara am; ; U+E2E@0 p=7, U+E4C@1 p=12, U+E37@2 p=12, U+E33@3 p=7;
  U+E2E@0 p=7, U+E4D@1 p=12, U+E4C@1 p=12, U+E37@1 p=12, U+E32@1 p=7
fo fan, mai ek, maitaikhu, sara am; level=1; U+E1F@0 p=7, U+E48@1 p=12, U+E47@3 p=12, U+E33@6 p=7;
  U+E1F@0 p=7, U+E4D@1 p=12, U+E48@1 p=12, U+E47@1 p=12, U+E32@1 p=7
yo ying, U+E3B, maitaikhu, sara am; ; U+E0D@0 p=7, U+E3B@1 p=2, U+E47@1 p=12, U+E33@3 p=7;
  U+E0D@0 p=7, U+E4D@1 p=12, U+E3B@1 p=2, U+E47@1 p=12, U+E32@1 p=7
kho sung, am, ko, i, am; ; U+E82@0 p=7, U+EB3@3 p=7, U+E81@4 p=7, U+EB4@7 p=12, U+EB3@10 p=7;
  U+E82@0 p=7, U+ECD@0 p=12, U+EB2@0 p=7, U+E81@4 p=7, U+ECD@7 p=12, U+EB4@7 p=12, U+EB2@7 p=7
sara i, kho khai, 2 thanthakhat, sara am; level=1; U+E34@0 p=12, U+E02@1 p=7, U+E4C@2 p=12, U+E4C@2 p=12, U+E33@5 p=7;
  U+E34@0 p=12, U+E02@1 p=7, U+E4D@2 p=12, U+E4C@2 p=12, U+E4C@2 p=12, U+E32@2 p=7
ko kai, sara i, U+E3B, mai han-akat, sara am; level=1;
  U+E01@0 p=7, U+E34@2 p=12, U+E3B@3 p=2, U+E31@6 p=12, U+E33@7 p=7;
  U+E01@0 p=7, U+E4D@2 p=12, U+E34@2 p=12, U+E3B@2 p=2, U+E31@2 p=12, U+E32@2 p=7
kho khai, sara uee, sara u, sara uee, sara am; level=1;
  U+E02@0 p=7, U+E37@0 p=12, U+E38@3 p=12, U+E37@4 p=12, U+E33@7 p=7;
  U+E02@0 p=7, U+E37@0 p=12, U+E38@3 p=12, U+E4D@4 p=12, U+E37@4 p=12, U+E32@4 p=7
mai ek, sara am, sara e, mai han-akat, sara am; level=1;
  U+E48@0 p=12, U+E33@1 p=7, U+E40@4 p=7, U+E31@7 p=12, U+E33@8 p=7;
  U+E4D@0 p=12, U+E48@0 p=12, U+E32@0 p=7, U+E40@4 p=7, U+E4D@7 p=12, U+E31@7 p=12, U+E32@7 p=7
yo ying, maitaikhu, sara am, po pla, U+E3B, sara am; ;
  U+E0D@0 p=7, U+E47@1 p=12, U+E33@2 p=7, U+E1B@3 p=7, U+E3B@4 p=2, U+E33@6 p=7;
  U+E0D@0 p=7, U+E4D@1 p=12, U+E47@1 p=12, U+E32@1 p=7, U+E1B@3 p=7, U+E4D@4 p=12, U+E3B@4 p=2, U+E32@4 p=7
do chada, kho khai, yamakkan, 2 sara uee, sara am; ;
  U+E0E@0 p=7, U+E02@0 p=7, U+E4E@1 p=12, U+E37@2 p=12, U+E37@3 p=12, U+E33@4 p=7;
  U+E0E@0 p=7, U+E02@0 p=7, U+E4D@1 p=12, U+E4E@1 p=12, U+E37@1 p=12, U+E37@1 p=12, U+E32@1 p=7
ho nokhuk, nikhahit and more, 6 in all; ;
  U+E2E@0 p=7, U+E4D@3 p=12, U+E4C@3 p=12, U+E31@3 p=12, U+E0E@3 p=7, U+E33@3 p=7;
  U+E2E@0 p=7, U+E4D@3 p=12, U+E4C@3 p=12, U+E31@3 p=12, U+E0E@3 p=7, U+E4D@3 p=12, U+E32@3 p=7
2 sara u, sara am, mai chattawa, U+E3B, mai han-akat; ;
  U+E38@0 p=12, U+E38@1 p=12, U+E33@3 p=7, U+E4B@4 p=12, U+E3B@4 p=2, U+E31@4 p=12;
  U+E38@0 p=12, U+E38@1 p=12, U+E4D@1 p=12, U+E32@1 p=7, U+E4B@4 p=12, U+E3B@4 p=2, U+E31@4 p=12
ko, mai kan, am; level=1; U+E81@0 p=7, U+EB1@2 p=12, U+EB3@3 p=7; U+E81@0 p=7, U+ECD@2 p=12, U+EB1@2 p=12, U+EB2@2 p=7
sara u, sara am and more, 7 in all; ;
  U+E38@0 p=12, U+E33@3 p=7, U+E2F@4 p=7, U+E33@7 p=7, U+E1D@9 p=7, U+E4B@10 p=12, U+E33@11 p=7;
  U+E38@0 p=12, U+E4D@0 p=12, U+E32@0 p=7, U+E2F@4 p=7, U+E4D@4 p=12, U+E32@4 p=7, U+E1D@9 p=7, U+E4D@10 p=12,
  U+E4B@10 p=12, U+E32@10 p=7
do chada, mai ek and more, 7 in all; ;
  U+E0E@0 p=7, U+E48@1 p=12, U+E0F@1 p=7, U+E33@2 p=7, U+E37@3 p=12, U+E31@4 p=12, U+E33@6 p=7;
  U+E0E@0 p=7, U+E48@1 p=12, U+E0F@1 p=7, U+E4D@1 p=12, U+E32@1 p=7, U+E4D@3 p=12, U+E37@3 p=12, U+E31@3 p=12,
  U+E32@3 p=7
tho than, maitaikhu and more, 8 in all; level=1;
  U+E10@0 p=7, U+E47@0 p=12, U+E0F@3 p=7, U+E37@4 p=12, U+E33@7 p=7, U+E10@7 p=7, U+E47@8 p=12, U+E33@8 p=7;
  U+E10@0 p=7, U+E47@0 p=12, U+E0F@3 p=7, U+E4D@4 p=12, U+E37@4 p=12, U+E32@4 p=7, U+E10@4 p=7, U+E4D@8 p=12,
  U+E47@8 p=12, U+E32@8 p=7
fo fan, thanthakhat and more, 9 in all; level=1;
  U+E1F@0 p=7, U+E4C@0 p=12, U+E38@1 p=12, U+E4E@3 p=12, U+E33@4 p=7, U+E02@5 p=7, U+E3A@6 p=12, U+E47@8 p=12,
  U+E33@9 p=7;
  U+E1F@0 p=7, U+E4C@0 p=12, U+E38@1 p=12, U+E4D@3 p=12, U+E4E@3 p=12, U+E32@3 p=7, U+E02@5 p=7, U+E3A@6 p=12,
  U+E4D@8 p=12, U+E47@8 p=12, U+E32@8 p=7
yo ying, sara i and more, 9 in all; level=1;
  U+E0D@0 p=7, U+E34@3 p=12, U+E33@6 p=7, U+E2F@7 p=7, U+E47@8 p=12, U+E4E@11 p=12, U+E3A@11 p=12, U+E2F@14 p=7,
  U+E3B@16 p=2;
  U+E0D@0 p=7, U+E4D@3 p=12, U+E34@3 p=12, U+E32@3 p=7, U+E2F@7 p=7, U+E47@8 p=12, U+E4E@11 p=12, U+E3A@11 p=12,
  U+E2F@14 p=7, U+E3B@16 p=2
fo fa, mai chattawa and more, 9 in all; level=1;
  U+E1D@0 p=7, U+E4B@3 p=12, U+E3B@6 p=2, U+E4B@9 p=12, U+E33@10 p=7, U+E0F@11 p=7, U+E31@11 p=12, U+E1D@14 p=7,
  U+E4E@14 p=12;
  U+E1D@0 p=7, U+E4D@3 p=12, U+E4B@3 p=12, U+E3B@3 p=2, U+E4B@3 p=12, U+E32@3 p=7, U+E0F@11 p=7, U+E31@11 p=12,
  U+E1D@14 p=7, U+E4E@14 p=12
ko, niggahita, am, ko, niggahita, am; level=1;
  U+E81@0 p=7, U+ECD@1 p=12, U+EB3@1 p=7, U+E81@4 p=7, U+ECD@7 p=12, U+EB3@10 p=7;
  U+E81@0 p=7, U+ECD@1 p=12, U+ECD@1 p=12, U+EB2@1 p=7, U+E81@4 p=7, U+ECD@7 p=12, U+ECD@7 p=12, U+EB2@7 p=7
u, mai ek, niggahita, am, i, am; ; U+EB8@0 p=12, U+EC8@1 p=12, U+ECD@2 p=12, U+EB3@2 p=7, U+EB4@4 p=12, U+EB3@4 p=7;
  U+EB8@0 p=12, U+ECD@1 p=12, U+EC8@1 p=12, U+ECD@1 p=12, U+EB2@1 p=7, U+ECD@4 p=12, U+EB4@4 p=12, U+EB2@4 p=7
kho sung, mai kon, 2 mai ek, am; ; U+E82@0 p=7, U+EBB@1 p=12, U+EC8@1 p=12, U+EC8@2 p=12, U+EB3@5 p=7;
  U+E82@0 p=7, U+ECD@1 p=12, U+EBB@1 p=12, U+EC8@1 p=12, U+EC8@1 p=12, U+EB2@1 p=7
do dek, mai chattawa, sara am; ; U+E14@0 p=7, U+E4B@0 p=12, U+E33@6 p=7;
  U+E14@0 p=7, U+E4D@0 p=12, U+E4B@0 p=12, U+E32@0 p=7
do dek, sara am; ; U+E14@0 p=7, U+E33@3 p=7; U+E14@0 p=7, U+E4D@0 p=12, U+E32@0 p=7
do dek, mai chattawa, sara am; level=2; U+E14@0 p=7, U+E4B@0 p=12, U+E33@6 p=7;
  U+E14@0 p=7, U+E4D@6 p=12, U+E4B@0 p=12, U+E32@6 p=7
do dek, mai chattawa, sara am; level=3; U+E14@0 p=7, U+E4B@0 p=12, U+E33@6 p=7;
  U+E14@0 p=7, U+E4D@6 p=12, U+E4B@0 p=12, U+E32@6 p=7
do dek, sara am; level=3; U+E14@0 p=7, U+E33@3 p=7; U+E14@0 p=7, U+E4D@0 p=12, U+E32@0 p=7
2 do dek, sara am; level=3; U+E14@6 p=7, U+E14@0 p=7, U+E33@6 p=7; U+E14@0 p=7, U+E14@0 p=7, U+E4D@0 p=12, U+E32@0 p=7";
