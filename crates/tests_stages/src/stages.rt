//! Rows of pipeline stages.
ghost use Rattle.std.specs.Prelude.{◌≡◌, false};
ghost use Rattle.buffer_stages.specs.Ready.{IsReady};

use crate::buffers::{are_characters, buffer_of, has_glyphs};
use crate::rows::{direction_of, mask, named, part, rows_of, script_of, value};
use buffer_common::constants::BufferFlags;
use buffer_core::buffer::hb_buffer_t;
use buffer_stages::glyphs::are_glyphs;
use buffer_stages::layout_stages::_hb_ot_layout_reverse_graphemes;
use buffer_unicode_tables::UnicodeTables;
use layout_face::Face;
use script_categories::hb_ot_script_shaper_t::ARABIC_SHAPER;
use shape_fallback::classes::_hb_ot_shape_fallback_mark_position_recategorize_marks;
use shape_fallback::marks::{components_direction, position_marks};
use shape_fallback::spaces::_hb_ot_shape_fallback_spaces;
use shape_text::circle::insert_dotted_circle;
use shape_text::clusters::form_clusters;
use shape_text::direction::ensure_native_direction;
use shape_text::fractions::{FractionMasks, setup_masks_fraction};
use shape_text::properties::set_unicode_props;
use shell_face_json::read_face_text;
use shell_readers::tables::{TextTables, tables_in};
use std::alloc::{AllocError, Global};
use std::test::Fail;

static FONTS: &str = r#"
empty {}
# Units of 1000; glyphs of U+31.
spaces_1 {"upem":1000,"cmap":[[49,1]],"h":[[1,101]]}
# Units of 0; glyphs of U+2C, U+34.
spaces_2 {"upem":0,"cmap":[[44,1],[52,2]],"h":[[1,101],[2,102]],"v":[[1,901],[2,902]]}
# Units of 1001; glyphs of U+34, U+36, U+38.
spaces_3 {"upem":1001,"cmap":[[52,1],[54,2],[56,3]],"h":[[1,101],[2,102],[3,103]],"v":[[2,902],[3,903]]}
# Units of 7.
spaces_4 {"upem":7}
# Units of 1001; glyphs of U+30, U+35, U+37.
spaces_5 {"upem":1001,"cmap":[[48,1],[53,2],[55,3]],"h":[[1,101],[3,103]],"v":[[3,903]]}
# Units of 1000; glyphs of U+2C, U+2E, U+30, U+37.
spaces_6 {"upem":1000,"cmap":[[44,1],[46,2],[48,3],[55,4]],"h":[[1,101],[2,102],[3,103],[4,104]],
  "v":[[2,902],[3,903],[4,904]]}
# Units of 1000; glyphs of U+30, U+38, U+39.
spaces_7 {"upem":1000,"cmap":[[48,1],[56,2],[57,3]],"h":[[1,101],[2,102],[3,103]],"v":[[1,901],[3,903]]}
# Units of 2048; glyphs of U+2C, U+2E, U+30, U+33, U+36, U+38.
spaces_8 {"upem":2048,"cmap":[[44,1],[46,2],[48,3],[51,4],[54,5],[56,6]],
  "h":[[2,102],[3,103],[4,104],[5,105],[6,106]],"v":[[1,901],[3,903],[5,905]]}
# Units of 10; boxes of 4, 5, 6.
marks_1 {"upem":10,"h":[[1,333],[2,500],[3,333],[4,500],[5,0],[6,333],[7,501]],
  "extents":[[4,0,460,213,-154],[5,-7,691,284,-195],[6,-26,53,301,-417]]}
# Units of 10; boxes of 2, 3, 4, 5.
marks_2 {"upem":10,"h":[[1,333],[2,0],[3,0],[4,500],[5,0],[6,501],[7,333]],
  "extents":[[2,83,26,355,-574],[3,54,776,421,-806],[4,-19,764,323,-205],[5,30,720,427,-242]]}
# Units of 10; boxes of 1, 3, 4, 6, 7.
marks_3 {"upem":10,"h":[[1,0],[2,0],[3,501],[4,500],[5,0],[6,0],[7,501]],
  "extents":[[1,45,-71,293,-636],[3,48,830,270,-470],[4,10,782,341,-541],[6,25,406,4,-732],[7,-49,283,71,-484]]}
# Units of 10; boxes of 1, 2, 4, 6, 7.
marks_4 {"upem":10,"h":[[1,333],[2,501],[3,500],[4,500],[5,333],[6,0],[7,333]],
  "extents":[[1,-23,-12,350,-319],[2,-40,827,362,-589],[4,5,662,14,-754],[6,5,421,189,-19],[7,43,320,220,-750]]}
# Units of 1000; boxes of 1, 2, 4, 5, 6.
marks_5 {"upem":1000,"h":[[1,333],[2,333],[3,333],[4,0],[5,501],[6,500],[7,500]],
  "extents":[[1,-8,355,141,-354],[2,44,102,343,-632],[4,-47,626,446,-850],[5,45,706,441,-502],[6,66,-75,485,-666]]}
# Units of 10; boxes of 1, 3, 4, 5, 6, 7.
marks_6 {"upem":10,"h":[[1,0],[2,0],[3,500],[4,500],[5,500],[6,333],[7,0]],"extents":[[1,-27,431,193,-836],
  [3,-19,109,348,-752],[4,-26,59,117,-101],[5,28,-16,422,-886],[6,72,191,12,-422],[7,73,839,426,-503]]}
# Units of 10; boxes of 1, 2, 3, 4, 5, 6, 7.
marks_7 {"upem":10,"h":[[1,501],[2,333],[3,333],[4,501],[5,500],[6,500],[7,501]],"extents":[[1,58,865,370,13],
  [2,95,650,4,13],[3,76,398,92,-625],[4,16,235,445,-599],[5,-15,350,72,-509],[6,-9,479,3,-41],[7,-16,844,282,-170]]}
# Units of 10; boxes of 1, 3, 6, 7.
marks_8 {"upem":10,"h":[[1,0],[2,0],[3,501],[4,0],[5,500],[6,501],[7,0]],
  "extents":[[1,56,103,464,-288],[3,74,539,329,-339],[6,-48,845,323,-589],[7,6,478,207,-451]]}
# Units of 1000; boxes of 1, 2, 3, 4, 5.
marks_9 {"upem":1000,"h":[[1,0],[2,501],[3,333],[4,333],[5,0],[6,0],[7,333]],
  "extents":[[1,-4,518,332,-887],[2,69,342,419,-709],[3,66,533,331,-144],[4,-20,399,126,-359],[5,-2,314,198,-859]]}
# Units of 2048; boxes of 1, 2, 3, 4, 5, 6.
marks_10 {"upem":2048,"h":[[1,501],[2,333],[3,333],[4,501],[5,333],[6,500],[7,501]],"extents":[[1,69,897,114,-707],
  [2,96,830,223,-562],[3,-46,491,435,-201],[4,47,295,40,-588],[5,34,-17,377,-485],[6,25,398,59,-69]]}
# Units of 10; boxes of 1, 2, 3, 4, 5, 6, 7.
marks_11 {"upem":10,"h":[[1,0],[2,501],[3,0],[4,333],[5,500],[6,0],[7,501]],"extents":[[1,24,683,195,-80],
  [2,24,717,77,-95],[3,16,623,289,-807],[4,69,-91,140,-160],[5,-33,468,488,-267],[6,-16,45,258,8],[7,37,-57,9,-306]]}
# Units of 1000; boxes of 1, 2, 3, 4, 5, 6, 7.
marks_12 {"upem":1000,"h":[[1,501],[2,501],[3,501],[4,501],[5,501],[6,501],[7,501]],"extents":[[1,-6,547,460,-707],
  [2,36,753,342,-692],[3,-27,626,117,-250],[4,23,22,217,-215],[5,59,700,118,-637],[6,61,249,135,-672],
  [7,-49,595,74,-493]]}
# The dotted circle.
circle {"cmap":[[9676,5]]}"#;

// Only the fields are compared that the stage sets.
pub(crate) static ROWS: &str = r#"
# name; options; glyphs; glyphs afterwards; font; tables
fraction: digit one; stage=fraction-masks frac=10 numr=20; U+31 p=13; U+31; empty; {}
fraction: digit one, fraction slash, digit one; stage=fraction-masks direction=rtl frac=10 numr=20 dnom=40;
  U+31 m=80000000 p=13, U+2044 m=80000000 p=25, U+31 p=13; U+31 m=80000050, U+2044 m=80000010, U+31 m=30; empty; {}
fraction: fraction slash, digit two, fraction slash, digit one;
  stage=fraction-masks direction=ttb frac=10 numr=20 dnom=40;
  U+2044 p=25, U+32 m=80000000 p=13, U+2044 p=25, U+31 m=80000000 p=13;
  U+2044, U+32 m=80000030, U+2044 m=10, U+31 m=80000050; empty; {}
fraction: digit one, fraction slash, digit two, digit one; stage=fraction-masks direction=ttb frac=10 numr=20 dnom=40;
  U+31 m=80000000 p=13, U+2044 m=80000000 p=25, U+32 m=80000000 p=13, U+31 m=80000000 p=13;
  U+31 m=80000030, U+2044 m=80000010, U+32 m=80000050, U+31 m=80000050; empty; {}
fraction: digit one, fraction slash, digit two, digit one, fraction slash;
  stage=fraction-masks direction=ttb frac=10 dnom=20;
  U+31 m=80000000 p=13, U+2044 p=25, U+32 m=80000100 p=13, U+31 p=13, U+2044 m=80000000 p=25;
  U+31 m=80000010, U+2044 m=10, U+32 m=80000130, U+31 m=30, U+2044 m=80000000; empty; {}
fraction: digit one, fraction slash, 2 digit two, fraction slash; stage=fraction-masks frac=10 numr=20 dnom=40;
  U+31 m=80000000 p=13, U+2044 m=80000000 p=25, U+32 p=13, U+32 m=80000100 p=13, U+2044 m=80000000 p=25;
  U+31 m=80000030, U+2044 m=80000010, U+32 m=50, U+32 m=80000150, U+2044 m=80000000; empty; {}
fraction: digit one, fraction slash, digit two, digit one, fraction slash;
  stage=fraction-masks direction=ttb frac=10 numr=20 dnom=40;
  U+31 m=80000000 p=13, U+2044 m=80000000 p=25, U+32 m=80000100 p=13, U+31 m=80000000 p=13, U+2044 m=80000100 p=25;
  U+31 m=80000030, U+2044 m=80000010, U+32 m=80000150, U+31 m=80000050, U+2044 m=80000100; empty; {}
fraction: 2 digit one, fraction slash, digit two, space, fraction slash;
  stage=fraction-masks direction=rtl frac=10 numr=20 dnom=40;
  U+31 m=80000000 p=13, U+31 m=80000000 p=13, U+2044 p=25, U+32 m=80000100 p=13, U+20 m=80000000 p=29, U+2044 p=25;
  U+31 m=80000050, U+31 m=80000050, U+2044 m=10, U+32 m=80000130, U+20 m=80000000, U+2044; empty; {}
native order: a; stage=native-order direction=btt native=ttb; U+61@0 p=5; U+61@0 p=5; empty; {}
native order: fatha; stage=native-order direction=ttb script=Adlm native=ttb; U+64E@0 p=140; U+64E@0 p=12; empty; {}
native order: acute accent, alef; stage=native-order direction=rtl script=Runr level=1 native=rtl;
  U+301@0 p=140, U+5D0@2 p=7; U+301@0 p=12, U+5D0@2 p=7; empty; {}
native order: 2 regional indicator symbol letter a; stage=native-order script=Adlm native=ltr;
  U+1F1E6@0 p=26, U+1F1E6@0 p=154; U+1F1E6@0 p=26, U+1F1E6@0 p=26; empty; {}
native order: modifier letter small h, digit one, visarga;
  stage=native-order direction=ttb script=Mong level=1 native=ttb; U+2B0@0 p=6, U+31@3 p=13, U+903@4 p=138;
  U+2B0@0 p=6, U+31@3 p=13, U+903@4 p=10; empty; {}
native order: visarga, digit one, visarga; stage=native-order direction=rtl script=Runr level=1 native=rtl;
  U+903@0 p=138, U+31@1 p=13, U+903@2 p=138; U+903@0 p=10, U+31@1 p=13, U+903@2 p=10; empty; {}
native order: 4 full stop; stage=native-order script=Hebr level=1 native=rtl;
  U+2E@0 p=21, U+2E@1 p=21, U+2E@3 p=21, U+2E@6 p=21; U+2E@6 p=21, U+2E@3 p=21, U+2E@1 p=21, U+2E@0 p=21; empty; {}
native order: fatha, zero width joiner, fatha, hiragana letter a;
  stage=native-order direction=rtl script=Arab level=1 native=rtl;
  U+64E@0 p=140, U+200D@3 p=417, U+64E@6 p=140, U+3042@7 p=7; U+64E@0 p=12, U+200D@3 p=289, U+64E@6 p=12, U+3042@7 p=7;
  empty; {}
graphemes reversed: a, acute accent, b; stage=reversed-graphemes; U+61@0 p=5, U+301@1 p=140, U+62@2 p=5;
  U+62@2 p=5, U+61@0 p=5, U+301@1 p=140; empty; {}
graphemes reversed: a, acute accent, b; stage=reversed-graphemes level=1; U+61@0 p=5, U+301@1 p=140, U+62@2 p=5;
  U+62@2 p=5, U+61@0 p=5, U+301@0 p=140; empty; {}
class: acute accent; stage=recategorised-classes; U+301 p=7 k=9; U+301 k=9; empty; {}
class: semivowel sign lo; stage=recategorised-classes; U+EBC p=12; U+EBC k=220; empty; {}
class: i; stage=recategorised-classes; U+EB4 p=12; U+EB4 k=230; empty; {}
class: sheva; stage=recategorised-classes; U+5B0 p=12 k=10; U+5B0 k=232; empty; {}
class: mai kon, acute accent; stage=recategorised-classes; U+EBB p=12 k=3, U+301 p=12; U+EBB k=222, U+301; empty; {}
class: acute accent, phinthu; stage=recategorised-classes; U+301 p=12 k=24, U+E3A p=12 k=3; U+301 k=220, U+E3A k=222;
  empty; {}
class: mai kon, cancellation mark; stage=recategorised-classes; U+EBB p=12, U+ECC p=12 k=107; U+EBB k=230, U+ECC k=232;
  empty; {}
class: 2 sheva, sara i; stage=recategorised-classes; U+5B0 p=10 k=132, U+5B0 p=12 k=30, U+E34 p=12;
  U+5B0 k=132, U+5B0 k=220, U+E34 k=232; empty; {}
spaces rtl, one; stage=fallback-spaces direction=rtl; * p=12 k=20 g=2; *; spaces_1; {}
spaces ttb, one; stage=fallback-spaces direction=ttb; * p=29 k=21 g=2 b=-1000; * b=-500; spaces_2; {}
spaces ltr, one; stage=fallback-spaces; * p=29 k=17 g=2; * a=222; spaces_3; {}
spaces ltr, 2 glyphs; stage=fallback-spaces; * p=29 k=21 g=2 a=-7, * p=7 g=2 o=-125; * a=-3, * o=-125; spaces_4; {}
spaces btt, 2 glyphs; stage=fallback-spaces direction=btt; * p=29 k=16 g=18 b=-999, * p=29 k=19 g=2 b=-1000 o=-125;
  * b=-63, * b=-1001 o=-125; spaces_5; {}
spaces ttb, 2 glyphs; stage=fallback-spaces direction=ttb; * p=29 k=20 g=2 b=-999, * p=29 k=20 g=2 b=-1000 o=-125;
  * b=-902, * b=-902 o=-125; spaces_6; {}
spaces rtl, 3 glyphs; stage=fallback-spaces direction=rtl; * p=29 g=50 a=251, * p=29 g=2 a=251, * p=29 k=2 g=2 a=251;
  * a=251, * a=251, * a=500; spaces_7; {}
spaces ttb, 3 glyphs; stage=fallback-spaces direction=ttb;
  * p=29 k=16 g=18 b=-1000 o=-125, * p=29 k=6 g=2 b=-999 o=-125, * p=29 k=16 g=2 b=-1000 o=-125;
  * b=-128 o=-125, * b=-341 o=-125, * b=-128 o=-125; spaces_8; {}
marks ttb, Hebr: ligature; stage=fallback-marks direction=ttb components=ttb script=Hebr;
  1 p=7 g=4 l=50000003 a=100 b=-1000 o=-7 q=20; * a=100 b=-1000 o=-7 q=20; marks_1; {}
marks rtl, Hebr: ligature mark; stage=fallback-marks direction=rtl components=rtl script=Hebr;
  1 p=7 g=4 l=50000003 a=333 o=10, 7 p=12 k=226 g=8 l=40000002 b=-1000 q=20; * a=333 o=10, * q=20; marks_2; {}
marks ltr, for rtl, Hebr: base mark; stage=fallback-marks components=rtl script=Hebr adjust=1;
  3 p=29 g=2 a=100 o=10 q=20, 6 p=12 k=10 g=8 a=500 q=-9; * a=100 o=10 q=20, * o=123; marks_3; {}
marks btt, Latn: base mark; stage=fallback-marks direction=btt components=btt script=Latn;
  2 p=5 g=2 a=333 o=10, 4 p=12 k=202 g=8 a=333; * a=333 o=10, * o=238; marks_4; {}
marks ltr, no script: base mark; stage=fallback-marks components=ltr adjust=1;
  3 p=29 g=2 o=10, 6 p=10 k=226 g=8 b=-900 o=10 q=20; * o=10, * b=-900 o=10 q=20; marks_5; {}
marks ltr, for rtl, Hebr: base mark; stage=fallback-marks components=rtl script=Hebr;
  2 p=29 g=2 a=333, 4 p=12 k=218 g=8 b=-900 o=10 q=20; * a=333, * o=10 q=20; marks_6; {}
marks ttb, Hebr: base mark; stage=fallback-marks direction=ttb components=ttb script=Hebr adjust=1;
  2 p=5 g=2 a=500 b=-1000 o=10, 7 p=12 k=218 g=8 l=1 a=500 o=-7; * a=500 b=-1000 o=10, * o=-484 q=1000; marks_7; {}
marks rtl, no script: base mark base; stage=fallback-marks direction=rtl components=rtl;
  1 p=7 g=2 a=100 o=10 q=-9, 7 p=12 k=232 g=8 a=333 o=10, 3 p=29 g=2 a=100 b=-900 o=-7;
  * a=100 o=10 q=-9, * o=-213 q=34, * a=100 b=-900 o=-7; marks_8; {}
marks ttb, Runr: mark ligature mark; stage=fallback-marks direction=ttb components=ttb script=Runr;
  4 p=12 k=230 g=8 o=-7 q=20, 3 p=29 g=4 l=30000002 a=333 o=-7, 5 p=12 k=220 g=8 l=20000001 a=333;
  * o=-7 q=20, * a=333 o=-7, * o=-347; marks_9; {}
marks btt, Runr: base ligature mark; stage=fallback-marks direction=btt components=btt script=Runr adjust=1;
  1 p=7 g=2 o=-7, 3 p=7 g=4 l=50000003 o=10 q=20, 6 p=10 k=214 g=8 l=40000000 a=100; * o=-7, * o=10 q=20, * o=112 q=182;
  marks_10; {}
marks ltr, for rtl, Runr: ligature mark mark; stage=fallback-marks components=rtl script=Runr;
  3 p=5 g=4 l=30000002 o=-7 q=-9, 4 p=10 g=8 l=20000001 a=100 b=-900 o=10, 5 p=12 k=202 g=8 l=20000000 o=-7 q=20;
  * o=-7 q=-9, * a=100 b=-900 o=10, * o=-311 q=900; marks_11; {}
marks ltr, for rtl, Latn: ligature mark mark; stage=fallback-marks components=rtl script=Latn;
  3 p=5 g=4 l=50000003 a=500 o=10 q=-9, 5 p=12 k=200 g=8 l=40000001 a=500 o=10, 4 p=12 k=200 g=8 l=40000004 a=100
   b=-900 q=20;
  * a=500 o=10 q=-9, * o=-225 q=-333, * o=-523; marks_12; {}
prepared: digit one; stage=prepared-text level=1 mask=80000000 no_circle=1; U+31@0; U+31@0 m=80000000 p=13; empty; {}
prepared: mongolian free variation selector four; stage=prepared-text mask=80000000; U+180F@0;
  U+180F@0 m=80000000 p=236; empty; {}
prepared: acute accent; stage=prepared-text mask=80000030 beginning=1; U+301@0; U+301@0 m=80000030 p=140 k=230; empty;
  {"classes":[[769,230]]}
prepared: language tag; stage=prepared-text mask=80000000 beginning=1 no_circle=1; U+E0001@0; U+E0001@0 m=80000000 p=33;
  circle; {"pictographic":[[97,97]]}
prepared: digit one; stage=prepared-text mask=80000030; U+31@0; U+31@0 m=80000030 p=13; circle;
  {"pictographic":[[169,169],[127744,128511]]}
prepared: halfwidth hangul filler; stage=prepared-text mask=80000000; U+FFA0@0; U+FFA0@0 m=80000000 p=7; circle;
  {"pictographic":[[169,169],[127744,128511]]}
prepared: 2 regional indicator symbol letter b; stage=prepared-text mask=80000030; U+1F1E7@0, U+1F1E7@1;
  U+1F1E7@0 m=80000030 p=26, U+1F1E7@0 m=80000030 p=154; empty; {"pictographic":[[97,97]]}
prepared: 2 regional indicator symbol letter z; stage=prepared-text mask=80000030 beginning=1; U+1F1FF@0, U+1F1FF@3;
  U+1F1FF@0 m=80000030 p=26, U+1F1FF@0 m=80000030 p=154; circle; {"pictographic":[[97,97]]}
prepared: cyclone, 2 zero width joiner; stage=prepared-text level=1 mask=80000030; U+1F300@0, U+200D@1, U+200D@3;
  U+1F300@0 m=80000030 p=26, U+200D@1 m=80000030 p=417, U+200D@3 m=80000030 p=417; empty; {}
prepared: 2 digit one, a; stage=prepared-text level=1 mask=80000030; U+31@0, U+31@1, U+61@4;
  U+31@0 m=80000030 p=13, U+31@1 m=80000030 p=13, U+61@4 m=80000030 p=5; circle; {"pictographic":[[97,97]]}
prepared: em space, dotted circle, tag space; stage=prepared-text mask=80000030; U+2003@0, U+25CC@3, U+E0020@5;
  U+2003@0 m=80000030 p=29, U+25CC@3 m=80000030 p=26, U+E0020@3 m=80000030 p=225; circle; {"pictographic":[[97,97]]}
prepared: acute accent, regional indicator symbol letter b, acute accent; stage=prepared-text mask=80000030;
  U+301@0, U+1F1E7@2, U+301@3;
  U+301@0 m=80000030 p=140 k=230, U+1F1E7@2 m=80000030 p=26, U+301@2 m=80000030 p=140 k=230; empty;
  {"classes":[[769,230]],"pictographic":[[169,169],[127744,128511]]}
prepared: regional indicator symbol letter b, 2 U+E001F, acute accent; stage=prepared-text level=1 mask=80000000;
  U+1F1E7@0, U+E001F@1, U+E001F@3, U+301@4;
  U+1F1E7@0 m=80000000 p=26, U+E001F@1 m=80000000 p=34, U+E001F@3 m=80000000 p=34, U+301@4 m=80000000 p=140 k=230;
  circle; {"classes":[[769,230]]}
prepared: arabic-indic digit one, 2 cyclone, 2 arabic-indic digit one; stage=prepared-text mask=80000000;
  U+661@0, U+1F300@3, U+1F300@5, U+661@8, U+661@9;
  U+661@0 m=80000000 p=13, U+1F300@3 m=80000000 p=26, U+1F300@5 m=80000000 p=26, U+661@8 m=80000000 p=13,
  U+661@9 m=80000000 p=13;
  empty; {"pictographic":[[97,97]]}"#;

fn set_fractions(words: &str, buffer: &mut hb_buffer_t)
    requires { IsReady buffer.old }
{
    let fractions = FractionMasks {
        frac: mask(words, "frac"),
        numr: mask(words, "numr"),
        dnom: mask(words, "dnom"),
    };
    setup_masks_fraction(fractions, buffer);
}

/// Prepares a text with the option `mask` for all glyphs; `beginning` sets BEGINNING_OF_TEXT, and `no_circle`
/// DO_NOT_INSERT_DOTTED_CIRCLE.
fn prepare(
    words: &str,
    face: &Face,
    tables: &UnicodeTables,
    buffer: &mut hb_buffer_t,
) -> Result<(), Fail>
    requires { IsReady buffer.old }
{
    let mut flags = BufferFlags::default();
    if value(words, "beginning") == "1" {
        flags |= BufferFlags::BEGINNING_OF_TEXT;
    }
    if value(words, "no_circle") == "1" {
        flags |= BufferFlags::DO_NOT_INSERT_DOTTED_CIRCLE;
    }
    buffer.set_flags(flags);
    buffer.reset_masks(mask(words, "mask"));
    if are_characters(buffer) {
        set_unicode_props(tables, buffer);
        insert_dotted_circle(face, tables, buffer)?;
        form_clusters(buffer);
    }
    Ok(())
}

fn position(words: &str, face: &Face, buffer: &mut hb_buffer_t)
    requires { IsReady buffer.old }
{
    if are_glyphs(buffer) {
        let direction = direction_of(value(words, "components"));
        let components = components_direction(direction, script_of(value(words, "script")));
        position_marks(face, components, value(words, "adjust") == "1", buffer);
    }
}

fn do_stage(
    words: &str,
    face: &Face,
    tables: &UnicodeTables,
    buffer: &mut hb_buffer_t,
) -> Result<(), Fail>
    requires { IsReady buffer.old }
{
    match value(words, "stage") {
        "fraction-masks" => set_fractions(words, buffer),
        "native-order" => ensure_native_direction(buffer),
        "reversed-graphemes" => _hb_ot_layout_reverse_graphemes(buffer),
        "recategorised-classes" => {
            _hb_ot_shape_fallback_mark_position_recategorize_marks(buffer)
        }
        "fallback-spaces" => _hb_ot_shape_fallback_spaces(face, buffer),
        "fallback-marks" => position(words, face, buffer),
        _ => prepare(words, face, tables, buffer)?,
    }
    Ok(())
}

/// Which fields of a glyph a stage sets.
fn letters_of(stage: &str) -> &str {
    match stage {
        "fraction-masks" => "nm",
        "native-order" | "reversed-graphemes" => "n@p",
        "recategorised-classes" => "nk",
        "fallback-spaces" | "fallback-marks" => "aboq",
        _ => "n@mpk",
    }
}

/// Whether no output is open, and the direction and the glyphs are those of a row.
fn is_as_said(row: &str, buffer: &hb_buffer_t) -> bool {
    if buffer.have_output() {
        return false;
    }
    let words = part(row, 1);
    let letters = letters_of(value(words, "stage"));
    let agree = has_glyphs(ARABIC_SHAPER, letters, part(row, 3), buffer);
    match value(words, "stage") {
        "native-order" => agree && buffer.direction() == direction_of(value(words, "native")),
        _ => agree,
    }
}

fn stage_agrees(
    alloc: Global,
    row: &str,
    face: &Face,
    tables: &UnicodeTables,
) -> Result<bool, Fail> {
    let mut buffer = buffer_of(alloc, ARABIC_SHAPER, part(row, 1), part(row, 2))?;
    do_stage(part(row, 1), face, tables, &mut buffer)?;
    Ok(is_as_said(row, &buffer))
}

/// The font of a text. It is in a box, as tables are, so that a function that owns it frees one value on each way out,
/// and not each of its lists.
pub(crate) fn face_of(alloc: Global, text: &str) -> Result<Box<Face>, Fail> {
    let face = read_face_text(alloc, text)?;
    Ok(Box::new(alloc, face).map_err(AllocError::from)?)
}

/// The font of a name, from fonts that have a line each.
pub(crate) fn named_face(alloc: Global, fonts: &str, name: &str) -> Result<Box<Face>, Fail> {
    face_of(alloc, named(fonts, name)?)
}

/// The tables of characters of a text.
pub(crate) fn tables_of(alloc: Global, text: &str) -> Result<Box<UnicodeTables>, Fail> {
    let TextTables { characters, .. } = tables_in(alloc, text.as_bytes())?;
    Ok(Box::new(alloc, characters).map_err(AllocError::from)?)
}

fn agrees_with_tables(
    alloc: Global,
    fonts: &str,
    row: &str,
    tables: &UnicodeTables,
) -> Result<bool, Fail> {
    let face = named_face(alloc, fonts, part(row, 4))?;
    stage_agrees(alloc, row, &face, tables)
}

pub(crate) fn agrees(alloc: Global, row: &str) -> Result<bool, Fail> {
    let fonts = rows_of(alloc, FONTS)?;
    agrees_in(alloc, &fonts, row)
}

fn agrees_in(alloc: Global, fonts: &str, row: &str) -> Result<bool, Fail> {
    let tables = tables_of(alloc, part(row, 5))?;
    agrees_with_tables(alloc, fonts, row, &tables)
}
