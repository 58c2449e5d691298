//! A font that is printed as JSON.
use shell_face_json::read_face_text;
use shell_face_print::print_face;
use shell_json::fault::JsonFault;
use std::alloc::Global;
use std::test::Fail;

/// A font in the form in which fonts are printed, each line break of it left out: it has each key of the format, and
/// each type of lookup with each form of subtable.
static FONT: &str = r#"{"format":"kuspveli-font","upem":1000,"ascender":-800,
"cmap":[[97,1],[128512,2]],"variants":[[97,65024,7]],
"h":[[1,501],[2,0]],"v":[[1,900]],
"origins":[[1,-880]],"extents":[[1,10,700,480,-710]],"names":[[1,"a\"b\\c\n\u0001é"]],
"gdef":{"attach":[[9,2]],"sets":[[4,9],[]],"classes":[[1,1],[9,3]]},
"gsub":{"scripts":[["DFLT",null,[]],["latn",{"features":[0,1],"required":2},
[["AZE ",{"features":[2]}],["TRK ",{"features":[],"required":0}]]]],
"features":[["liga",[0,3]],["rlig",[]],["ss01",[7]]],
"lookups":[{"type":"single","flags":0,"subtables":[[[1,2],[3,4]],[]]},
{"type":"multiple","flags":8,"subtables":[[[1,[2,3]],[4,[]]]]},
{"type":"alternate","flags":0,"subtables":[[[1,[2,3]]]]},
{"type":"ligature","flags":16,"subtables":[[[1,[[[2,3],9],[[2],8]]],[5,[]]]],"set":1},
{"type":"context","flags":0,"subtables":[{"format":"glyphs","rules":[[[],[1,2],[],[[0,1],[1,0]]]]}]},
{"type":"chain","flags":0,"subtables":[{"format":"classes","classes":[[[3,1]],[[1,1],[2,2]],[]],"first":[1,2],
"rules":[[[1],[1,2],[0],[]]]},{"format":"coverage","rules":[[[[1]],[[2,3],[]],[[4]],[[1,5]]]]}]},
{"type":"reverse","flags":0,"subtables":[[[[1],[2,3]],[[4]],[[5,6],[7,8]]]]},
{"type":"chain","flags":65280,"subtables":[]}]},
"gpos":{"scripts":[],"features":[["kern",[1]]],
"lookups":[{"type":"single","flags":0,"subtables":[[[1,[1,-2,3,-4]]]]},
{"type":"pair","flags":0,"subtables":[[[1,2,[0,0,-50,0],null],[1,3,[0,0,1,0],[0,0,2,0]]],
{"first":[1,2],"class1":[[2,1]],"class2":[[3,1]],
"records":[[[[0,0,0,0],null],[[0,0,-9,0],[1,1,1,1]]],[[[0,0,0,0],null],[[0,0,32767,-32768],null]]]}]},
{"type":"cursive","flags":1,"subtables":[[[1,[10,20],null],[2,null,[-1,-2]]]]},
{"type":"markbase","flags":0,"subtables":[{"marks":[[9,0,[1,2]],[10,1,null]],"bases":[[1,[[3,4],null]]]}]},
{"type":"marklig","flags":0,"subtables":[{"marks":[[9,0,[1,2]]],"bases":[[2,[[[3,4]],[null]]]]}]},
{"type":"markmark","flags":0,"subtables":[{"marks":[[9,0,[1,2]]],"bases":[[10,[[5,6]]]]}]},
{"type":"context","flags":0,"subtables":[{"format":"coverage","rules":[[[],[[1],[2]],[],[[0,1]]]]}]},
{"type":"chain","flags":0,"subtables":[{"format":"glyphs","rules":[[[3],[1],[4],[[0,0]]]]}]}]}}"#;

/// The printed text of a font that is read.
fn printed(alloc: Global, text: &str) -> Result<Vec<u8>, JsonFault> {
    let face = read_face_text(alloc, text)?;
    Ok(print_face(alloc, &face)?)
}

#[test]
fn font_is_printed_as_it_was_read(rt: HostRuntime) -> Result<(), Fail> {
    let text = FONT.replace(rt.alloc(), "\n", "")?;
    let printed = printed(rt.alloc(), &text)?;
    assert_eq!(rt; str::from_utf8(&printed), Ok(text.as_str()));
    Ok(())
}
