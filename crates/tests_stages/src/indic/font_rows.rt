//! The two orders of syllables, by the forms of fonts.

/// Fonts, each after the glyphs that its features form; a glyph before a bar is one that has to precede them.
pub(crate) static FONTS: &str = r#"
# abvf 6; blwf 3 4; half 2 4; pref 4 1; pstf 4 2; rphf 2 | 1 4; vatu 2 4.
beng_1 {"cmap":[[2509,4]],"gsub":{"scripts":[["bng2",{"features":[0,1,2,3,4,5,6]},[]]],
  "features":[["abvf",[0]],["blwf",[1]],["half",[2]],["pref",[3]],["pstf",[4]],["rphf",[5]],["vatu",[6]]],
  "lookups":[{"type":"ligature","subtables":[[[6,[[[],20]]]]]},{"type":"ligature",
  "subtables":[[[3,[[[4],21]]]]]},{"type":"ligature","subtables":[[[2,[[[4],22]]]]]},{"type":"ligature",
  "subtables":[[[4,[[[1],23]]]]]},{"type":"chain","subtables":[{"format":"glyphs",
  "rules":[[[],[4,2],[],[]]]}]},{"type":"chain","subtables":[{"format":"glyphs",
  "rules":[[[2],[1,4],[],[]]]}]},{"type":"ligature","subtables":[[[2,[[[4],26]]]]]}]}}
# abvf 6; blwf 4 3; half 2 | 2 4; pref 4 1; pstf 4 3; rphf 1 4.
beng_2 {"cmap":[[2509,4]],"gsub":{"scripts":[["bng2",{"features":[0,1,2,3,4,5]},[]]],
  "features":[["abvf",[0]],["blwf",[1]],["half",[2]],["pref",[3]],["pstf",[4]],["rphf",[5]]],
  "lookups":[{"type":"ligature","subtables":[[[6,[[[],20]]]]]},{"type":"ligature",
  "subtables":[[[4,[[[3],21]]]]]},{"type":"chain","subtables":[{"format":"glyphs",
  "rules":[[[2],[2,4],[],[]]]}]},{"type":"ligature","subtables":[[[4,[[[1],23]]]]]},{"type":"ligature",
  "subtables":[[[4,[[[3],24]]]]]},{"type":"chain","subtables":[{"format":"glyphs","rules":[[[],[1,4],[],[]]]}]}]}}
# abvf 2 | 6; init 5; pstf 4 3; rphf 1 4.
beng_3 {"cmap":[[2509,4]],"gsub":{"scripts":[["bng2",{"features":[0,1,2,3]},[]]],
  "features":[["abvf",[0]],["init",[1]],["pstf",[2]],["rphf",[3]]],"lookups":[{"type":"chain",
  "subtables":[{"format":"glyphs","rules":[[[2],[6],[],[]]]}]},{"type":"ligature",
  "subtables":[[[5,[[[],21]]]]]},{"type":"ligature","subtables":[[[4,[[[3],22]]]]]},{"type":"ligature",
  "subtables":[[[1,[[[4],23]]]]]}]}}
# blwf 4 2, 4 3; half 2 4; init 5; rphf 1 4.
deva_1 {"cmap":[[2381,4]],"gsub":{"scripts":[["dev2",{"features":[0,1,2,3]},[]]],
  "features":[["blwf",[0]],["half",[1]],["init",[2]],["rphf",[3]]],"lookups":[{"type":"ligature",
  "subtables":[[[4,[[[2],20],[[3],20]]]]]},{"type":"ligature","subtables":[[[2,[[[4],21]]]]]},{"type":"ligature",
  "subtables":[[[5,[[[],22]]]]]},{"type":"ligature","subtables":[[[1,[[[4],23]]]]]}]}}
# abvf 2 | 6; blwf 3 4; pref 4 1; pstf 4 2; rphf 1 4, 1 4 10.
deva_2 {"cmap":[[2381,4]],"gsub":{"scripts":[["dev2",{"features":[0,1,2,3,4]},[]]],
  "features":[["abvf",[0]],["blwf",[1]],["pref",[2]],["pstf",[3]],["rphf",[4]]],"lookups":[{"type":"chain",
  "subtables":[{"format":"glyphs","rules":[[[2],[6],[],[]]]}]},{"type":"ligature",
  "subtables":[[[3,[[[4],21]]]]]},{"type":"ligature","subtables":[[[4,[[[1],22]]]]]},{"type":"chain",
  "subtables":[{"format":"glyphs","rules":[[[],[4,2],[],[]]]}]},{"type":"ligature",
  "subtables":[[[1,[[[4],24],[[4,10],24]]]]]}]}}
# abvf 6; blwf 4 3; init 5; pref 4 1; rphf 1 4.
deva_3 {"cmap":[[2381,4]],"gsub":{"scripts":[["dev2",{"features":[0,1,2,3,4]},[]]],
  "features":[["abvf",[0]],["blwf",[1]],["init",[2]],["pref",[3]],["rphf",[4]]],"lookups":[{"type":"ligature",
  "subtables":[[[6,[[[],20]]]]]},{"type":"ligature","subtables":[[[4,[[[3],21]]]]]},{"type":"chain",
  "subtables":[{"format":"glyphs","rules":[[[],[5],[],[]]]}]},{"type":"ligature",
  "subtables":[[[4,[[[1],23]]]]]},{"type":"ligature","subtables":[[[1,[[[4],24]]]]]}]}}
# abvf 6; blwf 4 2, 4 3; half 2 4; pref 4 1; pstf 3 4; rphf 1 4, 1 4 10; vatu 2 4.
gujr_1 {"cmap":[[2765,4]],"gsub":{"scripts":[["gjr2",{"features":[0,1,2,3,4,5,6]},[]]],
  "features":[["abvf",[0]],["blwf",[1]],["half",[2]],["pref",[3]],["pstf",[4]],["rphf",[5]],["vatu",[6]]],
  "lookups":[{"type":"ligature","subtables":[[[6,[[[],20]]]]]},{"type":"ligature",
  "subtables":[[[4,[[[2],21],[[3],21]]]]]},{"type":"ligature","subtables":[[[2,[[[4],22]]]]]},{"type":"ligature",
  "subtables":[[[4,[[[1],23]]]]]},{"type":"chain","subtables":[{"format":"glyphs",
  "rules":[[[],[3,4],[],[]]]}]},{"type":"ligature","subtables":[[[1,[[[4],25],[[4,10],25]]]]]},{"type":"ligature",
  "subtables":[[[2,[[[4],26]]]]]}]}}
# half 2 4; pref 4 1; pstf 4 2; rphf 1 4.
gujr_2 {"cmap":[[2765,4]],"gsub":{"scripts":[["gjr2",{"features":[0,1,2,3]},[]]],
  "features":[["half",[0]],["pref",[1]],["pstf",[2]],["rphf",[3]]],"lookups":[{"type":"ligature",
  "subtables":[[[2,[[[4],20]]]]]},{"type":"ligature","subtables":[[[4,[[[1],21]]]]]},{"type":"ligature",
  "subtables":[[[4,[[[2],22]]]]]},{"type":"ligature","subtables":[[[1,[[[4],23]]]]]}]}}
# abvf 2 | 6; blwf 4 3; init 5; pref 4 1; rphf 1 4.
gujr_3 {"cmap":[[2765,4]],"gsub":{"scripts":[["gjr2",{"features":[0,1,2,3,4]},[]]],
  "features":[["abvf",[0]],["blwf",[1]],["init",[2]],["pref",[3]],["rphf",[4]]],"lookups":[{"type":"chain",
  "subtables":[{"format":"glyphs","rules":[[[2],[6],[],[]]]}]},{"type":"ligature",
  "subtables":[[[4,[[[3],21]]]]]},{"type":"chain","subtables":[{"format":"glyphs",
  "rules":[[[],[5],[],[]]]}]},{"type":"ligature","subtables":[[[4,[[[1],23]]]]]},{"type":"ligature",
  "subtables":[[[1,[[[4],24]]]]]}]}}
# blwf 4 2; half 2 4; init 5; pref 4 1; vatu 2 4.
guru_1 {"gsub":{"scripts":[["gur2",{"features":[0,1,2,3,4]},[]]],
  "features":[["blwf",[0]],["half",[1]],["init",[2]],["pref",[3]],["vatu",[4]]],"lookups":[{"type":"ligature",
  "subtables":[[[4,[[[2],20]]]]]},{"type":"ligature","subtables":[[[2,[[[4],21]]]]]},{"type":"chain",
  "subtables":[{"format":"glyphs","rules":[[[],[5],[],[]]]}]},{"type":"ligature",
  "subtables":[[[4,[[[1],23]]]]]},{"type":"ligature","subtables":[[[2,[[[4],24]]]]]}]}}
# abvf 2 | 6; half 2 4; pstf 3 4; rphf 2 | 1 4; vatu 2 4.
guru_2 {"cmap":[[2637,4]],"gsub":{"scripts":[["gur2",{"features":[0,1,2,3,4]},[]]],
  "features":[["abvf",[0]],["half",[1]],["pstf",[2]],["rphf",[3]],["vatu",[4]]],"lookups":[{"type":"chain",
  "subtables":[{"format":"glyphs","rules":[[[2],[6],[],[]]]}]},{"type":"ligature",
  "subtables":[[[2,[[[4],21]]]]]},{"type":"ligature","subtables":[[[3,[[[4],22]]]]]},{"type":"chain",
  "subtables":[{"format":"glyphs","rules":[[[2],[1,4],[],[]]]}]},{"type":"ligature","subtables":[[[2,[[[4],24]]]]]}]}}
# abvf 6; blwf 4 2; pref 4 1; pstf 4 3; rphf 1 4; vatu 4 1.
guru_3 {"cmap":[[2637,4]],"gsub":{"scripts":[["gur2",{"features":[0,1,2,3,4,5]},[]]],
  "features":[["abvf",[0]],["blwf",[1]],["pref",[2]],["pstf",[3]],["rphf",[4]],["vatu",[5]]],
  "lookups":[{"type":"ligature","subtables":[[[6,[[[],20]]]]]},{"type":"ligature",
  "subtables":[[[4,[[[2],21]]]]]},{"type":"ligature","subtables":[[[4,[[[1],22]]]]]},{"type":"ligature",
  "subtables":[[[4,[[[3],23]]]]]},{"type":"chain","subtables":[{"format":"glyphs",
  "rules":[[[],[1,4],[],[]]]}]},{"type":"ligature","subtables":[[[4,[[[1],25]]]]]}]}}
# abvf 6; blwf 4 2, 4 3; init 5; pref 4 3; pstf 4 2; rphf 1 4.
knda_1 {"cmap":[[3277,4]],"gsub":{"scripts":[["knd2",{"features":[0,1,2,3,4,5]},[]]],
  "features":[["abvf",[0]],["blwf",[1]],["init",[2]],["pref",[3]],["pstf",[4]],["rphf",[5]]],
  "lookups":[{"type":"ligature","subtables":[[[6,[[[],20]]]]]},{"type":"ligature",
  "subtables":[[[4,[[[2],21],[[3],21]]]]]},{"type":"ligature","subtables":[[[5,[[[],22]]]]]},{"type":"ligature",
  "subtables":[[[4,[[[3],23]]]]]},{"type":"ligature","subtables":[[[4,[[[2],24]]]]]},{"type":"chain",
  "subtables":[{"format":"glyphs","rules":[[[],[1,4],[],[]]]}]}]}}
# blwf 4 3; init 5.
knda_2 {"cmap":[[3277,4]],"gsub":{"scripts":[["knd2",{"features":[0,1]},[]]],"features":[["blwf",[0]],["init",[1]]],
  "lookups":[{"type":"ligature","subtables":[[[4,[[[3],20]]]]]},{"type":"ligature","subtables":[[[5,[[[],21]]]]]}]}}
# blwf 3 4; half 2 4; pref 4 1.
knda_3 {"cmap":[[3277,4]],"gsub":{"scripts":[["knd2",{"features":[0,1,2]},[]]],
  "features":[["blwf",[0]],["half",[1]],["pref",[2]]],"lookups":[{"type":"ligature",
  "subtables":[[[3,[[[4],20]]]]]},{"type":"ligature","subtables":[[[2,[[[4],21]]]]]},{"type":"ligature",
  "subtables":[[[4,[[[1],22]]]]]}]}}
# abvf 6; blwf 4 2, 4 3; half 2 | 2 4; init 5; rphf 1 4; vatu 2 4.
mlym_1 {"cmap":[[3405,4]],"gsub":{"scripts":[["mlm2",{"features":[0,1,2,3,4,5]},[]]],
  "features":[["abvf",[0]],["blwf",[1]],["half",[2]],["init",[3]],["rphf",[4]],["vatu",[5]]],
  "lookups":[{"type":"ligature","subtables":[[[6,[[[],20]]]]]},{"type":"ligature",
  "subtables":[[[4,[[[2],21],[[3],21]]]]]},{"type":"chain","subtables":[{"format":"glyphs",
  "rules":[[[2],[2,4],[],[]]]}]},{"type":"ligature","subtables":[[[5,[[[],23]]]]]},{"type":"ligature",
  "subtables":[[[1,[[[4],24]]]]]},{"type":"ligature","subtables":[[[2,[[[4],25]]]]]}]}}
# abvf 6; init 5; pstf 3 4; rphf 1 4, 1 4 10; vatu 2 4.
mlym_2 {"cmap":[[3405,4]],"gsub":{"scripts":[["mlm2",{"features":[0,1,2,3,4]},[]]],
  "features":[["abvf",[0]],["init",[1]],["pstf",[2]],["rphf",[3]],["vatu",[4]]],"lookups":[{"type":"ligature",
  "subtables":[[[6,[[[],20]]]]]},{"type":"ligature","subtables":[[[5,[[[],21]]]]]},{"type":"ligature",
  "subtables":[[[3,[[[4],22]]]]]},{"type":"ligature","subtables":[[[1,[[[4],23],[[4,10],23]]]]]},{"type":"ligature",
  "subtables":[[[2,[[[4],24]]]]]}]}}
# blwf 4 2, 4 3; half 2 4; init 5; pstf 3 4; rphf 1 4, 1 4 10; vatu 2 4.
mlym_3 {"cmap":[[3405,4]],"gsub":{"scripts":[["mlm2",{"features":[0,1,2,3,4,5]},[]]],
  "features":[["blwf",[0]],["half",[1]],["init",[2]],["pstf",[3]],["rphf",[4]],["vatu",[5]]],
  "lookups":[{"type":"ligature","subtables":[[[4,[[[2],20],[[3],20]]]]]},{"type":"ligature",
  "subtables":[[[2,[[[4],21]]]]]},{"type":"ligature","subtables":[[[5,[[[],22]]]]]},{"type":"ligature",
  "subtables":[[[3,[[[4],23]]]]]},{"type":"ligature","subtables":[[[1,[[[4],24],[[4,10],24]]]]]},{"type":"ligature",
  "subtables":[[[2,[[[4],25]]]]]}]}}
# abvf 6; pstf 4 3; rphf 1 4, 1 4 10; vatu 4 1.
orya_1 {"cmap":[[2893,4]],"gsub":{"scripts":[["ory2",{"features":[0,1,2,3]},[]]],
  "features":[["abvf",[0]],["pstf",[1]],["rphf",[2]],["vatu",[3]]],"lookups":[{"type":"chain",
  "subtables":[{"format":"glyphs","rules":[[[],[6],[],[]]]}]},{"type":"ligature",
  "subtables":[[[4,[[[3],21]]]]]},{"type":"ligature","subtables":[[[1,[[[4],22],[[4,10],22]]]]]},{"type":"ligature",
  "subtables":[[[4,[[[1],23]]]]]}]}}
# half 2 4; pref 4 1; rphf 1 4, 1 4 10; vatu 2 | 2 4.
orya_2 {"gsub":{"scripts":[["ory2",{"features":[0,1,2,3]},[]]],
  "features":[["half",[0]],["pref",[1]],["rphf",[2]],["vatu",[3]]],"lookups":[{"type":"ligature",
  "subtables":[[[2,[[[4],20]]]]]},{"type":"ligature","subtables":[[[4,[[[1],21]]]]]},{"type":"ligature",
  "subtables":[[[1,[[[4],22],[[4,10],22]]]]]},{"type":"chain","subtables":[{"format":"glyphs",
  "rules":[[[2],[2,4],[],[]]]}]}]}}
# abvf 6; blwf 4 2, 4 3; init 5; rphf 1 4.
orya_3 {"cmap":[[2893,4]],"gsub":{"scripts":[["ory2",{"features":[0,1,2,3]},[]]],
  "features":[["abvf",[0]],["blwf",[1]],["init",[2]],["rphf",[3]]],"lookups":[{"type":"ligature",
  "subtables":[[[6,[[[],20]]]]]},{"type":"ligature","subtables":[[[4,[[[2],21],[[3],21]]]]]},{"type":"ligature",
  "subtables":[[[5,[[[],22]]]]]},{"type":"ligature","subtables":[[[1,[[[4],23]]]]]}]}}
# abvf 6; blwf 4 2; pref 4 3; pstf 2 | 4 3; rphf 1 4; vatu 2 | 2 4.
taml_1 {"cmap":[[3021,4]],"gsub":{"scripts":[["tml2",{"features":[0,1,2,3,4,5]},[]]],
  "features":[["abvf",[0]],["blwf",[1]],["pref",[2]],["pstf",[3]],["rphf",[4]],["vatu",[5]]],
  "lookups":[{"type":"ligature","subtables":[[[6,[[[],20]]]]]},{"type":"chain","subtables":[{"format":"glyphs",
  "rules":[[[],[4,2],[],[]]]}]},{"type":"ligature","subtables":[[[4,[[[3],22]]]]]},{"type":"chain",
  "subtables":[{"format":"glyphs","rules":[[[2],[4,3],[],[]]]}]},{"type":"chain","subtables":[{"format":"glyphs",
  "rules":[[[],[1,4],[],[]]]}]},{"type":"chain","subtables":[{"format":"glyphs","rules":[[[2],[2,4],[],[]]]}]}]}}
# abvf 6; blwf 4 2, 4 3; half 2 4; init 5; pref 4 3; rphf 1 4, 1 4 10.
taml_2 {"cmap":[[3021,4]],"gsub":{"scripts":[["tml2",{"features":[0,1,2,3,4,5]},[]]],
  "features":[["abvf",[0]],["blwf",[1]],["half",[2]],["init",[3]],["pref",[4]],["rphf",[5]]],
  "lookups":[{"type":"ligature","subtables":[[[6,[[[],20]]]]]},{"type":"ligature",
  "subtables":[[[4,[[[2],21],[[3],21]]]]]},{"type":"ligature","subtables":[[[2,[[[4],22]]]]]},{"type":"ligature",
  "subtables":[[[5,[[[],23]]]]]},{"type":"ligature","subtables":[[[4,[[[3],24]]]]]},{"type":"ligature",
  "subtables":[[[1,[[[4],25],[[4,10],25]]]]]}]}}
# blwf 3 4; half 2 4; rphf 1 4; vatu 4 1.
taml_3 {"cmap":[[3021,4]],"gsub":{"scripts":[["tml2",{"features":[0,1,2,3]},[]]],
  "features":[["blwf",[0]],["half",[1]],["rphf",[2]],["vatu",[3]]],"lookups":[{"type":"ligature",
  "subtables":[[[3,[[[4],20]]]]]},{"type":"ligature","subtables":[[[2,[[[4],21]]]]]},{"type":"ligature",
  "subtables":[[[1,[[[4],22]]]]]},{"type":"ligature","subtables":[[[4,[[[1],23]]]]]}]}}
# abvf 6; half 2 4; pstf 4 3; rphf 1 4; vatu 2 4.
telu_1 {"cmap":[[3149,4]],"gsub":{"scripts":[["tel2",{"features":[0,1,2,3,4]},[]]],
  "features":[["abvf",[0]],["half",[1]],["pstf",[2]],["rphf",[3]],["vatu",[4]]],"lookups":[{"type":"ligature",
  "subtables":[[[6,[[[],20]]]]]},{"type":"ligature","subtables":[[[2,[[[4],21]]]]]},{"type":"ligature",
  "subtables":[[[4,[[[3],22]]]]]},{"type":"ligature","subtables":[[[1,[[[4],23]]]]]},{"type":"ligature",
  "subtables":[[[2,[[[4],24]]]]]}]}}
# abvf 6; blwf 3 4; init 5; pstf 2 | 4 2; rphf 2 | 1 4; vatu 4 1.
telu_2 {"cmap":[[3149,4]],"gsub":{"scripts":[["tel2",{"features":[0,1,2,3,4,5]},[]]],
  "features":[["abvf",[0]],["blwf",[1]],["init",[2]],["pstf",[3]],["rphf",[4]],["vatu",[5]]],
  "lookups":[{"type":"ligature","subtables":[[[6,[[[],20]]]]]},{"type":"ligature",
  "subtables":[[[3,[[[4],21]]]]]},{"type":"ligature","subtables":[[[5,[[[],22]]]]]},{"type":"chain",
  "subtables":[{"format":"glyphs","rules":[[[2],[4,2],[],[]]]}]},{"type":"chain","subtables":[{"format":"glyphs",
  "rules":[[[2],[1,4],[],[]]]}]},{"type":"ligature","subtables":[[[4,[[[1],25]]]]]}]}}
# blwf 4 2, 4 3; half 2 4; init 5; pstf 4 3; rphf 1 4; vatu 4 1.
telu_3 {"cmap":[[3149,4]],"gsub":{"scripts":[["tel2",{"features":[0,1,2,3,4,5]},[]]],
  "features":[["blwf",[0]],["half",[1]],["init",[2]],["pstf",[3]],["rphf",[4]],["vatu",[5]]],
  "lookups":[{"type":"ligature","subtables":[[[4,[[[2],20],[[3],20]]]]]},{"type":"ligature",
  "subtables":[[[2,[[[4],21]]]]]},{"type":"ligature","subtables":[[[5,[[[],22]]]]]},{"type":"ligature",
  "subtables":[[[4,[[[3],23]]]]]},{"type":"ligature","subtables":[[[1,[[[4],24]]]]]},{"type":"ligature",
  "subtables":[[[4,[[[1],25]]]]]}]}}
# abvf 6; half 2 4; init 5; pref 4 3; pstf 4 2; rphf 1 4.
beng_4 {"cmap":[[2509,4]],"gsub":{"scripts":[["bng2",{"features":[0,1,2,3,4,5]},[]]],
  "features":[["abvf",[0]],["half",[1]],["init",[2]],["pref",[3]],["pstf",[4]],["rphf",[5]]],
  "lookups":[{"type":"ligature","subtables":[[[6,[[[],20]]]]]},{"type":"ligature",
  "subtables":[[[2,[[[4],21]]]]]},{"type":"ligature","subtables":[[[5,[[[],22]]]]]},{"type":"ligature",
  "subtables":[[[4,[[[3],23]]]]]},{"type":"ligature","subtables":[[[4,[[[2],24]]]]]},{"type":"ligature",
  "subtables":[[[1,[[[4],25]]]]]}]}}
# blwf 4 2; half 2 4; init 5; pstf 3 4; rphf 1 4.
deva_4 {"cmap":[[2381,4]],"gsub":{"scripts":[["dev2",{"features":[0,1,2,3,4]},[]]],
  "features":[["blwf",[0]],["half",[1]],["init",[2]],["pstf",[3]],["rphf",[4]]],"lookups":[{"type":"ligature",
  "subtables":[[[4,[[[2],20]]]]]},{"type":"ligature","subtables":[[[2,[[[4],21]]]]]},{"type":"ligature",
  "subtables":[[[5,[[[],22]]]]]},{"type":"ligature","subtables":[[[3,[[[4],23]]]]]},{"type":"ligature",
  "subtables":[[[1,[[[4],24]]]]]}]}}
# init 5; pref 4 1; rphf 1 4.
gujr_4 {"cmap":[[2765,4]],"gsub":{"scripts":[["gjr2",{"features":[0,1,2]},[]]],
  "features":[["init",[0]],["pref",[1]],["rphf",[2]]],"lookups":[{"type":"ligature",
  "subtables":[[[5,[[[],20]]]]]},{"type":"ligature","subtables":[[[4,[[[1],21]]]]]},{"type":"ligature",
  "subtables":[[[1,[[[4],22]]]]]}]}}
# abvf 6; blwf 4 2; half 2 4; pstf 4 3; rphf 1 4, 1 4 10; vatu 4 1.
guru_4 {"cmap":[[2637,4]],"gsub":{"scripts":[["gur2",{"features":[0,1,2,3,4,5]},[]]],
  "features":[["abvf",[0]],["blwf",[1]],["half",[2]],["pstf",[3]],["rphf",[4]],["vatu",[5]]],
  "lookups":[{"type":"ligature","subtables":[[[6,[[[],20]]]]]},{"type":"ligature",
  "subtables":[[[4,[[[2],21]]]]]},{"type":"ligature","subtables":[[[2,[[[4],22]]]]]},{"type":"ligature",
  "subtables":[[[4,[[[3],23]]]]]},{"type":"ligature","subtables":[[[1,[[[4],24],[[4,10],24]]]]]},{"type":"ligature",
  "subtables":[[[4,[[[1],25]]]]]}]}}
# abvf 6; blwf 3 4; init 2 | 5; rphf 1 4.
knda_4 {"cmap":[[3277,4]],"gsub":{"scripts":[["knd2",{"features":[0,1,2,3]},[]]],
  "features":[["abvf",[0]],["blwf",[1]],["init",[2]],["rphf",[3]]],"lookups":[{"type":"ligature",
  "subtables":[[[6,[[[],20]]]]]},{"type":"ligature","subtables":[[[3,[[[4],21]]]]]},{"type":"chain",
  "subtables":[{"format":"glyphs","rules":[[[2],[5],[],[]]]}]},{"type":"ligature","subtables":[[[1,[[[4],23]]]]]}]}}
# abvf 6; blwf 4 2; half 2 4; pstf 4 3; rphf 1 4; vatu 4 1.
mlym_4 {"cmap":[[3405,4]],"gsub":{"scripts":[["mlm2",{"features":[0,1,2,3,4,5]},[]]],
  "features":[["abvf",[0]],["blwf",[1]],["half",[2]],["pstf",[3]],["rphf",[4]],["vatu",[5]]],
  "lookups":[{"type":"ligature","subtables":[[[6,[[[],20]]]]]},{"type":"chain","subtables":[{"format":"glyphs",
  "rules":[[[],[4,2],[],[]]]}]},{"type":"ligature","subtables":[[[2,[[[4],22]]]]]},{"type":"ligature",
  "subtables":[[[4,[[[3],23]]]]]},{"type":"ligature","subtables":[[[1,[[[4],24]]]]]},{"type":"ligature",
  "subtables":[[[4,[[[1],25]]]]]}]}}
# abvf 6; blwf 4 2, 4 3; init 5; pref 4 1; pstf 4 3; rphf 1 4, 1 4 10.
orya_4 {"cmap":[[2893,4]],"gsub":{"scripts":[["ory2",{"features":[0,1,2,3,4,5]},[]]],
  "features":[["abvf",[0]],["blwf",[1]],["init",[2]],["pref",[3]],["pstf",[4]],["rphf",[5]]],
  "lookups":[{"type":"ligature","subtables":[[[6,[[[],20]]]]]},{"type":"ligature",
  "subtables":[[[4,[[[2],21],[[3],21]]]]]},{"type":"ligature","subtables":[[[5,[[[],22]]]]]},{"type":"chain",
  "subtables":[{"format":"glyphs","rules":[[[],[4,1],[],[]]]}]},{"type":"ligature",
  "subtables":[[[4,[[[3],24]]]]]},{"type":"ligature","subtables":[[[1,[[[4],25],[[4,10],25]]]]]}]}}
# blwf 4 2, 4 3; half 2 4; init 5; pref 4 3; pstf 4 3; rphf 1 4; vatu 2 4.
taml_4 {"cmap":[[3021,4]],"gsub":{"scripts":[["tml2",{"features":[0,1,2,3,4,5,6]},[]]],
  "features":[["blwf",[0]],["half",[1]],["init",[2]],["pref",[3]],["pstf",[4]],["rphf",[5]],["vatu",[6]]],
  "lookups":[{"type":"ligature","subtables":[[[4,[[[2],20],[[3],20]]]]]},{"type":"ligature",
  "subtables":[[[2,[[[4],21]]]]]},{"type":"ligature","subtables":[[[5,[[[],22]]]]]},{"type":"ligature",
  "subtables":[[[4,[[[3],23]]]]]},{"type":"ligature","subtables":[[[4,[[[3],24]]]]]},{"type":"chain",
  "subtables":[{"format":"glyphs","rules":[[[],[1,4],[],[]]]}]},{"type":"ligature","subtables":[[[2,[[[4],26]]]]]}]}}
# abvf 6; blwf 4 2; half 2 4; init 5; pref 4 1; rphf 1 4; vatu 4 1.
telu_4 {"cmap":[[3149,4]],"gsub":{"scripts":[["tel2",{"features":[0,1,2,3,4,5,6]},[]]],
  "features":[["abvf",[0]],["blwf",[1]],["half",[2]],["init",[3]],["pref",[4]],["rphf",[5]],["vatu",[6]]],
  "lookups":[{"type":"ligature","subtables":[[[6,[[[],20]]]]]},{"type":"ligature",
  "subtables":[[[4,[[[2],21]]]]]},{"type":"ligature","subtables":[[[2,[[[4],22]]]]]},{"type":"ligature",
  "subtables":[[[5,[[[],23]]]]]},{"type":"ligature","subtables":[[[4,[[[1],24]]]]]},{"type":"ligature",
  "subtables":[[[1,[[[4],25]]]]]},{"type":"ligature","subtables":[[[4,[[[1],26]]]]]}]}}"#;

// A name has the categories of the glyphs.
pub(crate) static ROWS: &str = "
# name; options, with the masks of features; font; glyphs; glyphs afterwards
C; order=initial script=Beng level=1 rphf=200 pref=80 blwf=20 abvf=10 half=40 pstf=100; beng_1;
  2@0 s=1.non c=C x=END m=80000000; 2@0 c=C x=BELOW_C m=80000000
V H ZWJ CS H; order=initial script=Beng level=1 rphf=200 pref=80 blwf=20 abvf=10 half=40 pstf=100; beng_2;
  13@0 s=1.consonant c=V x=BASE_C m=80000000, 4@2 s=1.consonant c=H x=END m=80000000,
  10@3 s=1.consonant c=ZWJ x=END m=80000000, 13@4 s=1.consonant c=CS x=END m=80000000,
  4@5 s=1.consonant c=H x=END m=80000000;
  13@0 c=V x=PRE_C m=80000060, 4@2 c=H x=PRE_C m=80000060, 10@3 c=ZWJ x=PRE_C m=80000060,
  13@4 c=CS x=BASE_C m=80000000, 4@5 c=H x=BASE_C m=80000130
Repha M; order=initial script=Beng level=1 rphf=80 abvf=10 pstf=40 init=20; beng_3;
  12@0 s=1.standalone c=Repha x=END m=80000000, 5@0 s=1.standalone c=M x=PRE_M m=80000000;
  5@0 c=M x=PRE_M m=80000000, 12@0 c=Repha x=PRE_C m=80000000
Repha C; order=initial script=Deva level=1 rphf=80 blwf=10 half=20 init=40; deva_1;
  12@0 s=1.consonant c=Repha x=END m=80000000, 3@1 s=1.consonant c=C x=BASE_C m=80000000;
  12@0 c=Repha x=PRE_C m=80000030, 3@1 c=C x=BASE_C m=80000000
Ra H PLACEHOLDER; order=initial script=Deva level=1 rphf=100 pref=40 blwf=20 abvf=10 pstf=80; deva_2;
  1@0 s=1.consonant c=Ra x=BASE_C m=80000000, 4@2 s=1.consonant c=H x=END m=80000000,
  13@3 s=1.consonant c=PLACEHOLDER x=END m=80000000;
  1@0 c=Ra x=RA_TO_BECOME_REPH m=80000120, 4@2 c=H x=RA_TO_BECOME_REPH m=80000120,
  13@3 c=PLACEHOLDER x=BASE_C m=80000000
C H ZWNJ V; order=initial script=Deva rphf=100 pref=80 blwf=20 abvf=10 init=40; deva_3;
  3@0 s=1.consonant c=C x=BASE_C m=80000000, 4@3 s=1.consonant c=H x=END m=80000000,
  11@5 s=1.consonant c=ZWNJ x=END m=80000000, 13@8 s=1.consonant c=V x=BASE_C m=80000000;
  3@0 c=C x=PRE_C m=80000020, 4@3 c=H x=PRE_C m=80000020, 11@5 c=ZWNJ x=PRE_C m=80000020, 13@8 c=V x=BASE_C m=80000000
C M MPst C; order=initial script=Gujr level=1 rphf=200 pref=80 blwf=20 abvf=10 half=40 pstf=100; gujr_1;
  13@0 s=1.vowel c=C x=BASE_C m=80000000, 7@1 s=1.vowel c=M x=AFTER_SUB m=80000000,
  7@4 s=1.vowel c=MPst x=BEFORE_SUB m=80000000, 2@6 s=2.consonant c=C x=BASE_C m=80000000;
  13@0 c=C x=BASE_C m=80000000, 7@1 c=MPst x=BEFORE_SUB m=80000130, 7@1 c=M x=AFTER_SUB m=80000130,
  2@6 c=C x=BASE_C m=80000000
C CM; order=initial script=Gujr level=1 rphf=80 pref=20 half=10 pstf=40; gujr_2;
  13@0 s=1.non c=C x=END m=80000000, 13@1 s=1.non c=CM x=END m=80000000;
  13@0 c=C x=END m=80000000, 13@1 c=CM x=END m=80000000
Ra H PLACEHOLDER M MPst; order=initial script=Gujr rphf=100 pref=80 blwf=20 abvf=10 init=40; gujr_3;
  1@0 s=1.non c=Ra x=BASE_C m=80000000, 4@0 s=1.non c=H x=END m=80000000, 13@3 s=1.non c=PLACEHOLDER x=END m=80000000,
  6@5 s=1.non c=M x=BELOW_C m=80000000, 7@6 s=1.non c=MPst x=BELOW_C m=80000000;
  1@0 c=Ra x=POST_C m=80000000, 4@0 c=H x=END m=80000000, 13@3 c=PLACEHOLDER x=END m=80000000,
  6@5 c=M x=BELOW_C m=80000000, 7@6 c=MPst x=BELOW_C m=80000000
PLACEHOLDER CM; order=initial script=Guru level=1 pref=80 blwf=10 half=20 init=40; guru_1;
  13@0 s=1.consonant c=PLACEHOLDER x=BASE_C m=80000000, 13@3 s=1.consonant c=CM x=END m=80000000;
  13@0 c=PLACEHOLDER x=PRE_C m=80000030, 13@3 c=CM x=PRE_C m=80000030
V N H PLACEHOLDER; order=initial script=Guru level=1 rphf=80 abvf=10 half=20 pstf=40; guru_2;
  13@0 s=1.broken c=V x=END m=80000000, 9@1 s=1.broken c=N x=END m=80000000, 4@4 s=1.broken c=H x=END m=80000000,
  13@5 s=1.broken c=PLACEHOLDER x=END m=80000000;
  13@0 c=V x=PRE_C m=80000020, 9@1 c=N x=PRE_C m=80000020, 4@4 c=H x=PRE_C m=80000020,
  13@5 c=PLACEHOLDER x=BASE_C m=80000000
C H ZWJ Ra H CS M; order=initial script=Guru level=1 rphf=100 pref=40 blwf=20 abvf=10 pstf=80; guru_3;
  3@0 s=1.standalone c=C x=END m=80000000, 4@3 s=1.standalone c=H x=END m=80000000,
  10@4 s=1.standalone c=ZWJ x=END m=80000000, 1@4 s=1.standalone c=Ra x=BASE_C m=80000000,
  4@7 s=1.standalone c=H x=END m=80000000, 13@8 s=1.standalone c=CS x=BASE_C m=80000000,
  7@9 s=1.standalone c=M x=AFTER_SUB m=80000000;
  3@0 c=C x=PRE_C m=80000020, 4@3 c=H x=PRE_C m=80000020, 10@4 c=ZWJ x=PRE_C m=80000020, 1@4 c=Ra x=PRE_C m=80000020,
  4@7 c=H x=PRE_C m=80000020, 13@8 c=CS x=BASE_C m=80000000, 7@9 c=M x=AFTER_SUB m=800000B0
Repha V H PLACEHOLDER M M; order=initial script=Knda rphf=200 pref=80 blwf=20 abvf=10 pstf=100 init=40; knda_1;
  12@0 s=1.consonant c=Repha x=END m=80000000, 13@3 s=1.consonant c=V x=BASE_C m=80000000,
  4@4 s=1.consonant c=H x=END m=80000000, 13@5 s=1.consonant c=PLACEHOLDER x=BASE_C m=80000000,
  6@6 s=1.consonant c=M x=BEFORE_SUB m=80000000, 5@7 s=1.consonant c=M x=PRE_M m=80000000;
  5@0 c=M x=PRE_M m=80000000, 12@0 c=Repha x=PRE_C m=80000000, 13@0 c=V x=PRE_C m=80000000,
  4@0 c=H x=PRE_C m=80000000, 13@0 c=PLACEHOLDER x=BASE_C m=80000000, 6@0 c=M x=BEFORE_SUB m=80000130
C; order=initial script=Knda level=1 blwf=10 init=20; knda_2; 2@0 s=1.consonant c=C x=BASE_C m=80000000;
  2@0 c=C x=BASE_C m=80000000
Ra H ZWJ; order=initial script=Knda pref=40 blwf=10 half=20; knda_3;
  1@0 s=1.broken c=Ra x=BASE_C m=80000000, 4@2 s=1.broken c=H x=END m=80000000, 10@3 s=1.broken c=ZWJ x=END m=80000000;
  1@0 c=Ra x=PRE_C m=80000020, 4@2 c=H x=PRE_C m=80000020, 10@3 c=ZWJ x=PRE_C m=80000020
H; order=initial script=Mlym rphf=100 blwf=20 abvf=10 half=40 init=80; mlym_1; 4@0 s=1.vowel c=H x=END m=80000000;
  4@0 c=H m=80000060
Repha Ra; order=initial script=Mlym level=1 rphf=80 abvf=10 pstf=40 init=20; mlym_2;
  12@0 s=1.standalone c=Repha x=END m=80000000, 1@1 s=1.standalone c=Ra x=BASE_C m=80000000;
  12@0 c=Repha x=RA_TO_BECOME_REPH m=80000080, 1@1 c=Ra x=BASE_C m=80000000
Repha Ra H C; order=initial script=Mlym level=1 rphf=100 blwf=10 half=20 pstf=80 init=40; mlym_3;
  12@0 s=1.consonant c=Repha x=END m=80000000, 1@1 s=2.non c=Ra x=END m=80000000, 4@2 s=2.non c=H x=END m=80000000,
  3@5 s=2.non c=C x=BASE_C m=80000000;
  12@0 c=Repha x=BASE_C m=80000000, 1@1 c=Ra x=END m=80000000, 4@2 c=H x=END m=80000000, 3@5 c=C x=BELOW_C m=80000000
PLACEHOLDER M; order=initial script=Orya rphf=40 abvf=10 pstf=20; orya_1;
  13@0 s=1.consonant c=PLACEHOLDER x=END m=80000000, 5@1 s=1.consonant c=M x=PRE_M m=80000000;
  5@0 c=M x=PRE_M m=80000000, 13@0 c=PLACEHOLDER x=BASE_C m=80000000
C H M; order=initial script=Orya rphf=40 pref=20 half=10; orya_2;
  13@0 s=1.vowel c=C x=BASE_C m=80000000, 4@3 s=1.vowel c=H x=END m=80000000, 5@4 s=1.vowel c=M x=PRE_M m=80000000;
  5@0 c=M x=PRE_M m=80000010, 13@0 c=C x=BASE_C m=80000000, 4@0 c=H x=BASE_C m=80000000
Repha C H M M A; order=initial script=Orya level=1 rphf=80 blwf=20 abvf=10 init=40; orya_3;
  12@0 s=1.consonant c=Repha x=END m=80000000, 2@1 s=1.consonant c=C x=BASE_C m=80000000,
  4@2 s=2.standalone c=H x=END m=80000000, 7@4 s=2.standalone c=M x=AFTER_POST m=80000000,
  6@5 s=2.standalone c=M x=BELOW_C m=80000000, 8@6 s=2.standalone c=A x=SMVD m=80000000;
  12@0 c=Repha x=PRE_C m=80000020, 2@1 c=C x=BASE_C m=80000000, 4@2 c=H m=80000020, 7@4 c=M x=PRE_C m=80000020,
  6@5 c=M x=PRE_C m=80000020, 8@6 c=A x=PRE_C m=80000020
C M A; order=initial script=Taml level=1 rphf=100 pref=40 blwf=20 abvf=10 pstf=80; taml_1;
  13@0 s=1.vowel c=C x=BASE_C m=80000000, 5@3 s=1.vowel c=M x=PRE_M m=80000000, 8@5 s=1.vowel c=A x=SMVD m=80000000;
  5@0 c=M x=PRE_M m=80000020, 13@0 c=C x=BASE_C m=80000000, 8@5 c=A x=SMVD m=800000B0
V H C H C; order=initial script=Taml rphf=200 pref=100 blwf=20 abvf=10 half=40 init=80; taml_2;
  13@0 s=1.symbol c=V x=BASE_C m=80000000, 4@1 s=1.symbol c=H x=END m=80000000, 13@2 s=1.symbol c=C x=END m=80000000,
  4@3 s=1.symbol c=H x=END m=80000000, 2@5 s=1.symbol c=C x=BASE_C m=80000000;
  13@0 c=V x=BASE_C m=80000000, 4@1 c=H x=END m=80000000, 13@2 c=C x=END m=80000000, 4@3 c=H x=END m=80000000,
  2@5 c=C x=BELOW_C m=80000000
Ra H M; order=initial script=Taml level=1 rphf=40 blwf=10 half=20; taml_3;
  1@0 s=1.consonant c=Ra x=END m=80000000, 4@1 s=1.consonant c=H x=END m=80000000,
  5@4 s=1.consonant c=M x=PRE_M m=80000000;
  5@0 c=M x=PRE_M m=80000030, 1@0 c=Ra x=BASE_C m=80000000, 4@0 c=H x=BASE_C m=80000010
C H; order=initial script=Telu level=1 rphf=80 abvf=10 half=20 pstf=40; telu_1;
  3@0 s=1.broken c=C x=BASE_C m=80000000, 4@3 s=1.broken c=H x=END m=80000000;
  3@0 c=C x=BASE_C m=80000000, 4@3 c=H x=BASE_C m=80000050
Ra H ZWJ Ra MPst; order=initial script=Telu level=1 rphf=100 blwf=20 abvf=10 pstf=80 init=40; telu_2;
  1@0 s=1.consonant c=Ra x=END m=80000000, 4@1 s=1.consonant c=H x=END m=80000000,
  10@2 s=1.consonant c=ZWJ x=END m=80000000, 1@4 s=1.consonant c=Ra x=BASE_C m=80000000,
  5@5 s=1.consonant c=MPst x=PRE_M m=80000000;
  5@0 c=MPst x=PRE_M m=80000000, 1@0 c=Ra x=PRE_C m=80000000, 4@0 c=H x=PRE_C m=80000000,
  10@0 c=ZWJ x=PRE_C m=80000000, 1@0 c=Ra x=BASE_C m=80000000
C A M Ra H V SM; order=initial script=Telu rphf=100 blwf=10 half=20 pstf=80 init=40; telu_3;
  13@0 s=1.vowel c=C x=BASE_C m=80000000, 8@2 s=1.vowel c=A x=SMVD m=80000000,
  6@4 s=1.vowel c=M x=BEFORE_SUB m=80000000, 1@5 s=2.consonant c=Ra x=BASE_C m=80000000,
  4@6 s=2.consonant c=H x=END m=80000000, 13@6 s=2.consonant c=V x=BASE_C m=80000000,
  8@8 s=2.consonant c=SM x=SMVD m=80000000;
  13@0 c=C x=BASE_C m=80000000, 6@2 c=M x=BEFORE_SUB m=80000090, 8@2 c=A x=SMVD m=80000090,
  1@5 c=Ra x=PRE_C m=80000020, 4@6 c=H x=PRE_C m=80000020, 13@6 c=V x=BASE_C m=80000000, 8@8 c=SM x=SMVD m=80000090
M CS H Ra; order=final script=Beng rphf=200 pref=80 abvf=10 half=20 pstf=100 init=40; beng_4;
  5@0 s=1.vowel c=M x=PRE_M m=80000020 p=10 g=2, 13@0 s=1.vowel c=CS x=PRE_C m=80000020 p=7 g=2,
  4@0 s=1.vowel c=H x=PRE_C m=80000020 p=12 g=2, 1@0 s=1.vowel c=Ra x=BASE_C m=80000000 p=7 g=2;
  13@0 c=CS x=PRE_C m=80000020, 4@0 c=H x=PRE_C m=80000020, 5@0 c=M x=PRE_M m=80000020, 1@0 c=Ra x=BASE_C m=80000000
M; order=final script=Deva level=1 rphf=100 blwf=10 half=20 pstf=80 init=40; deva_4;
  5@0 s=1.consonant c=M x=PRE_M m=80000030 p=10 g=2; 5@0 c=M x=PRE_M m=80000070
Ra H; order=final script=Gujr rphf=40 pref=20 init=10; gujr_4;
  1@0 s=1.consonant c=Ra x=BASE_C m=80000000 p=7 g=2, 4@1 s=1.consonant c=H x=BASE_C m=80000000 p=12 g=2;
  1@0 c=Ra x=BASE_C m=80000000, 4@1 c=H x=BASE_C m=80000000
Ra PLACEHOLDER H Ra H; order=final script=Guru rphf=100 blwf=20 abvf=10 half=40 pstf=80; guru_4;
  30@0 s=1.consonant c=Ra x=RA_TO_BECOME_REPH m=80000160 p=7 g=50,
  13@6 s=1.consonant c=PLACEHOLDER x=BASE_C m=80000000 p=7 g=2, 4@8 s=1.consonant c=H x=BASE_C m=800000B0 p=12 g=2,
  1@11 s=2.standalone c=Ra x=BASE_C m=80000000 p=7 g=2, 4@12 s=2.standalone c=H x=BASE_C m=800000B0 p=12 g=2;
  13@0 c=PLACEHOLDER x=BASE_C m=80000000, 4@0 c=H x=BASE_C m=800000B0, 30@0 c=Ra x=RA_TO_BECOME_REPH m=80000160,
  1@11 c=Ra x=BASE_C m=80000000, 4@12 c=H x=BASE_C m=800000B0
MPst PLACEHOLDER; order=final script=Knda rphf=80 blwf=20 abvf=10 init=40; knda_4;
  5@0 s=1.broken c=MPst x=PRE_M m=80000000 p=10 g=2, 13@0 s=1.broken c=PLACEHOLDER x=BASE_C m=80000000 p=7 g=2;
  5@0 c=MPst x=PRE_M m=80000040, 13@0 c=PLACEHOLDER x=BASE_C m=80000000
Repha Ra M; order=final script=Mlym rphf=100 blwf=20 abvf=10 half=40 pstf=80; mlym_4;
  12@0 s=1.consonant c=Repha x=RA_TO_BECOME_REPH m=80000160 p=7 g=2,
  1@1 s=1.consonant c=Ra x=BASE_C m=80000000 p=7 g=2, 6@2 s=1.consonant c=M x=BEFORE_POST m=800000B0 p=10 g=2;
  1@0 c=Ra x=BASE_C m=80000000, 12@0 c=Repha x=RA_TO_BECOME_REPH m=80000160, 6@2 c=M x=BEFORE_POST m=800000B0
Ra C M; order=final script=Orya level=1 rphf=200 pref=80 blwf=20 abvf=10 pstf=100 init=40; orya_4;
  30@0 s=1.standalone c=Ra x=RA_TO_BECOME_REPH m=80000220 p=7 g=50,
  2@2 s=1.standalone c=C x=BASE_C m=80000000 p=7 g=2, 6@2 s=1.standalone c=M x=AFTER_MAIN m=80000130 p=10 g=2;
  2@0 c=C x=BASE_C m=80000000, 6@0 c=M x=AFTER_MAIN m=80000130, 30@0 c=Ra x=RA_TO_BECOME_REPH m=80000220
Ra PLACEHOLDER H Ra H C; order=final script=Taml level=1 rphf=200 pref=80 blwf=10 half=20 pstf=100 init=40; taml_4;
  30@0 s=1.vowel c=Ra x=RA_TO_BECOME_REPH m=80000230 p=7 g=50,
  13@2 s=1.vowel c=PLACEHOLDER x=PRE_C m=80000030 p=7 g=2, 4@2 s=1.vowel c=H x=PRE_C m=80000030 p=12 g=2,
  1@3 s=1.vowel c=Ra x=PRE_C m=80000030 p=7 g=2, 4@4 s=1.vowel c=H x=PRE_C m=80000030 p=12 g=2,
  13@7 s=1.vowel c=C x=BASE_C m=80000000 p=7 g=2;
  13@0 c=PLACEHOLDER x=PRE_C m=80000030, 4@0 c=H x=PRE_C m=80000030, 1@0 c=Ra x=PRE_C m=80000030,
  4@0 c=H x=PRE_C m=80000030, 13@0 c=C x=BASE_C m=80000000, 30@0 c=Ra x=RA_TO_BECOME_REPH m=80000230
M Repha PLACEHOLDER M; order=final script=Telu rphf=200 pref=100 blwf=20 abvf=10 half=40 init=80; telu_4;
  5@0 s=1.consonant c=M x=PRE_M m=80000040 p=10 g=2, 12@0 s=1.consonant c=Repha x=PRE_C m=80000040 p=7 g=2,
  13@0 s=1.consonant c=PLACEHOLDER x=BASE_C m=80000000 p=7 g=2, 7@4 s=1.consonant c=M x=AFTER_SUB m=80000030 p=12 g=2;
  5@0 c=M x=PRE_M m=800000C0, 12@0 c=Repha x=PRE_C m=80000040, 13@0 c=PLACEHOLDER x=BASE_C m=80000000,
  7@4 c=M x=AFTER_SUB m=80000030";
