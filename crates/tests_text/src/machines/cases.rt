//! Machines, in fields separated by |: shaper, number of states, steps (state, category, next state) and accepting states
//! with their kinds. Then the categories of a text, and where each syllable ends with its kind; or the fault for which the
//! machine is refused.
static CASES: &str = "spans|khmer|0|||M|1 non
spans|khmer|0|||MW|1 non
spans|indic|2|||Ra|1 non
spans|khmer|2||1 non|DOTTEDCIRCLE|1 non
spans|indic|2|0 Repha 1|1 non|MR|1 non
spans|myanmar|2|0 MW 1 1 MY 1||MW|1 non
spans|universal|0|||VMPst SB|1 non 2 non
spans|indic|2|0 C 1 0 A 1 0 CS 1||CS|1 non
spans|khmer|0|||ML ML Repha|1 non 2 non 3 non
spans|myanmar|2|0 MH 1 0 VS 0 1 VS 1||VS|1 non
spans|indic|3|0 C 2 0 A 1 1 A 1 2 C 1||A|1 non
spans|indic|2|0 V 1 0 VD 1 1 V 1|1 symbol|V|1 symbol
spans|indic|2|0 M 1 0 VPst 1 1 M 1|1 vowel|M|1 vowel
spans|myanmar|3|0 M 1 2 M 1 2 VBlw 1|1 non|M|1 non
spans|indic|2|0 VPst 1 0 VS 1 1 VS 1|1 broken|VS|1 broken
spans|khmer|3|1 VAbv 1 2 X 1|1 broken 2 consonant|VAbv|1 non
spans|indic|3|0 H 2 0 MR 2 1 V 2 1 MR 1 2 V 1||X|1 non
spans|universal|3|0 MAbv 1 1 MAbv 0 2 SUB 1|1 hieroglyph|SUB|1 non
spans|universal|4|0 SMAbv 1 1 FPst 2|1 symbol 2 hieroglyph|SMAbv|1 symbol
spans|myanmar|3|0 M 2 0 MH 2 1 MH 2 2 M 2 2 MH 1|2 non|M|1 non
spans|indic|2|0 V 1 1 A 1||A MPst V A|1 non 2 non 3 non 4 non
spans|universal|2|0 HVM 1 1 O 1|1 broken|HVM O HVM|2 broken 3 broken
spans|myanmar|2|0 V 1 0 DOTTEDCIRCLE 1|1 consonant|V V V|1 consonant 2 consonant 3 consonant
spans|myanmar|3|0 MW 0 1 ZWJ 1 1 MH 2 1 MY 2 2 ZWJ 1|1 non 2 non|MW|1 non
spans|indic|3|0 RS 2 1 Ygroup 2 2 RS 0 2 Ygroup 2|1 broken|Ygroup RS|1 non 2 non
spans|universal|2|0 N 1 0 R 1 1 N 1 1 R 1||VBlw R VBlw|1 non 2 non 3 non
spans|myanmar|2|0 SM 1 0 VPre 1 0 ML 1 1 SM 1 1 ML 1|1 non|SM SM|2 non
spans|khmer|3|0 Ra 2 1 Ra 2 1 VS 1 2 Robatic 2 2 VS 1|2 broken|VS VS|1 non 2 non
spans|khmer|2|0 H 1 0 MW 1 1 MW 1|0 broken|MW H MW H|1 non 2 non 3 non 4 non
spans|myanmar|3|1 SM 1 2 N 2|1 non 2 broken|N SM N SM|1 non 2 non 3 non 4 non
spans|myanmar|3|0 VS 2 1 N 2 1 VS 2 2 N 2 2 VS 2|1 non 2 broken|VS VS|2 broken
spans|indic|3|0 N 2 0 MY 1 1 N 2 1 MY 1 2 N 2|2 broken|MY MY MY|1 non 2 non 3 non
spans|myanmar|0|||Robatic Robatic VBlw Ra Robatic Ra|1 non 2 non 3 non 4 non 5 non 6 non
spans|indic|3|0 RS 1 0 CS 2 0 Ygroup 2 0 MY 2 1 Ygroup 2 1 MY 1 2 RS 2||MY RS|1 non 2 non
spans|khmer|4|0 VPst 2 1 MPst 3 1 VPst 3 2 VPst 3 3 MPst 1 3 VPst 1|0 consonant 3 broken|MPst|1 non
spans|myanmar|2|0 MR 1 1 CS 1||MR MR CS CS CS MR|1 non 2 non 3 non 4 non 5 non 6 non
spans|indic|5|0 ZWNJ 2 0 VAbv 1 1 VAbv 3 2 ZWNJ 1 2 VAbv 2 4 ZWNJ 2|2 symbol|VAbv ZWNJ|1 non 2 symbol
spans|indic|4|0 SM 1 0 A 2 1 SM 1 1 A 3 2 A 2 3 SM 2 3 A 1|1 symbol 2 vowel 3 symbol|A|1 vowel
spans|myanmar|3|0 Ra 2 1 Ra 2 1 Xgroup 2 2 Xgroup 1|0 non 1 non|Ra Xgroup Xgroup|2 non 3 non
spans|universal|5|0 S 2 2 FAbv 3 4 S 4|1 independent 3 virama 4 non|FAbv FAbv FAbv|1 non 2 non 3 non
spans|universal|3|0 MPst 1 0 G 1 2 MPst 2 2 G 1 2 HR 0|2 number_joiner|MPst MPst HR|1 non 2 non 3 non
spans|khmer|3|0 ZWNJ 1 1 A 1 2 ZWNJ 1||A A ZWNJ MR ZWNJ MR|1 non 2 non 3 non 4 non 5 non 6 non
spans|khmer|3|0 Xgroup 2 1 Xgroup 1 2 SM 1 2 Xgroup 0|2 broken|Xgroup Xgroup SM SM|1 broken 2 broken 3 non 4 non
spans|indic|3|0 A 2 0 VAbv 1 0 MY 1 1 Xgroup 2 1 MY 2 2 Xgroup 1|2 symbol|VAbv A Xgroup|1 non 2 symbol 3 non
spans|myanmar|3|0 A 2 0 Repha 2 1 Repha 0 1 CS 1 2 A 2 2 CS 2|2 consonant|Repha Repha CS|1 consonant 3 consonant
spans|khmer|4|0 ML 3 1 Ygroup 1 1 ML 1 2 ML 1|1 non 3 broken|Ygroup Ygroup VPst VPst|1 non 2 non 3 non 4 non
spans|universal|4|0 HN 2 0 VMPre 3 1 HN 1 2 VMPre 1 3 HN 1 3 VMPre 2|3 virama|J VMPre VMPre|1 non 2 virama 3 virama
spans|khmer|2|0 Symbol 1 1 ZWJ 1 1 VAbv 1|1 non|SM ZWJ SM ZWJ ZWJ SM|1 non 2 non 3 non 4 non 5 non 6 non
spans|indic|3|0 MPst 1 0 ML 2 1 C 2 2 C 1 2 MPst 2 2 ML 1|0 standalone|C MPst ML ML|1 non 2 non 3 non 4 non
spans|indic|4|0 As 1 0 MR 1 1 ZWNJ 3 1 As 1 2 MR 1 3 ZWNJ 3 3 As 1 3 MR 3|3 non|MR MR MR|1 non 2 non 3 non
spans|khmer|5|0 H 2 1 H 1 1 ZWNJ 4 2 H 3 3 N 4 3 H 3 3 ZWNJ 2 4 N 1 4 H 4|1 broken 2 consonant 4 broken|N|1 non
spans|khmer|3|0 Ra 1 0 VPre 1 0 MY 2 1 VPre 1 2 Ra 2 2 VPre 2 2 MY 1||VPre VPre MY VPre|1 non 2 non 3 non 4 non
spans|universal|5|0 CGJ 4 1 HN 3 2 CGJ 1 2 HN 2 2 FPst 1 3 CGJ 3 4 CGJ 3|3 independent|HN FPst HN|1 non 2 non 3 non
spans|khmer|4|1 CM 2 2 A 2 2 CM 1 3 CM 1|2 broken 3 non|CM A A A A A|1 non 2 non 3 non 4 non 5 non 6 non
spans|indic|4|0 Symbol 0 0 Xgroup 2 1 Xgroup 1 2 Symbol 1 3 Symbol 3|1 standalone 2 consonant|Symbol Symbol Xgroup|3 consonant
spans|khmer|5|0 VD 3 1 VD 1 1 Xgroup 3 2 Xgroup 3 3 Xgroup 3 4 VD 1|1 broken 2 non 3 consonant 4 non|Xgroup Xgroup|1 non 2 non
spans|myanmar|4|0 A 2 0 VS 3 2 A 1 3 A 2|1 consonant 2 non|A A VS A A VS|2 consonant 5 consonant 6 non
spans|myanmar|3|0 N 2 0 VD 1 0 Robatic 1 1 N 2 1 Robatic 1 2 N 2 2 VD 2 2 Robatic 2||Robatic Robatic Robatic|1 non 2 non 3 non
spans|indic|5|0 Ra 1 0 Symbol 3 1 Ra 3 1 Symbol 4 2 Symbol 4 3 Ra 3 4 Ra 2 4 Symbol 2|1 standalone 2 standalone 4 standalone|Symbol|1 non
spans|universal|4|0 H 1 0 FMPst 2 1 H 3 1 S 1 1 FMPst 3 2 H 1 2 S 2 3 H 2 3 S 3|3 number_joiner|S H S|1 non 2 non 3 non
spans|universal|4|0 FPst 1 0 VMPre 1 0 HVM 2 1 FPst 2 2 FPst 1 2 VMPre 1 3 FPst 2 3 MAbv 2 3 HVM 2|1 standard|VMPre FPst|1 standard 2 standard
spans|universal|5|0 VPre 2 1 VPre 4 1 G 2 3 VPre 1 4 G 4|3 non|VPre G G VPre G VPre|1 non 2 non 3 non 4 non 5 non 6 non
spans|indic|2|0 ZWNJ 1 0 Symbol 1 0 VBlw 1 0 MH 1 1 ZWNJ 1 1 VBlw 1 1 MH 1|1 standalone|Symbol MH ZWNJ Symbol|3 standalone 4 standalone
spans|universal|4|1 CMBlw 1 2 CMBlw 3 3 FMBlw 2|1 non 3 non|CMBlw CMBlw CMBlw FMBlw CMBlw FMBlw|1 non 2 non 3 non 4 non 5 non 6 non
spans|indic|3|0 MH 1 1 V 1 1 Repha 2 1 MH 1 2 V 2 2 VD 1 2 Repha 1 2 MH 1|0 standalone 1 non 2 vowel|V VD Repha|1 non 2 non 3 non
spans|indic|4|0 RS 3 1 DOTTEDCIRCLE 1 2 DOTTEDCIRCLE 3 2 RS 1 3 DOTTEDCIRCLE 2 3 RS 2|2 non|RS DOTTEDCIRCLE DOTTEDCIRCLE RS|4 non
spans|khmer|4|0 MR 1 1 DOTTEDCIRCLE 3 1 MR 2 1 ML 1 2 DOTTEDCIRCLE 2 2 MR 2 3 MR 3|2 non 3 consonant|MR DOTTEDCIRCLE DOTTEDCIRCLE|2 consonant 3 non
spans|universal|3|0 FBlw 1 0 HR 1 1 CMBlw 1 1 VBlw 0|1 broken 2 sakot|VBlw FBlw HR VBlw CMBlw FBlw|1 non 2 broken 3 broken 4 non 5 non 6 broken
spans|myanmar|4|0 ZWJ 3 1 ZWJ 3 1 MPst 3 1 CS 3 2 ZWJ 1 2 MPst 2 2 CS 2 3 CS 1|1 non 3 consonant|CS CS MPst CS|1 non 2 non 3 non 4 non
spans|khmer|4|0 DOTTEDCIRCLE 3 0 VPre 1 0 MW 3 1 DOTTEDCIRCLE 2 1 VAbv 2 1 VPre 3 2 MW 1 3 VPre 2 3 MW 2||DOTTEDCIRCLE VPre DOTTEDCIRCLE|1 non 2 non 3 non
spans|khmer|3|0 PLACEHOLDER 2 0 Ra 1 0 Xgroup 2 1 M 2 1 PLACEHOLDER 1 1 Xgroup 1 2 Ra 1 2 Xgroup 1|1 broken|Ra Xgroup Ra Ra|2 broken 3 broken 4 broken
spans|khmer|5|0 X 1 1 ZWNJ 4 1 Ra 4 1 VPst 2 2 ZWNJ 1 2 Ra 3 2 VPst 2 3 X 4 3 ZWNJ 1 3 VPst 3 4 X 4 4 ZWNJ 1 4 Ra 4 4 VPst 3|3 broken|Ra|1 non
spans|universal|5|0 FMAbv 2 1 FMAbv 3 1 FMPst 1 2 FMAbv 1 2 FMPst 3 3 FMAbv 3 4 FMAbv 1 4 FMPst 4|1 symbol 2 independent 4 number_joiner|FMPst FMPst|1 non 2 non
spans|myanmar|3|0 A 1 0 As 2 2 A 2 2 As 1|2 broken|As As As A As A As A A|1 broken 2 broken 4 broken 6 broken 9 broken
spans|myanmar|4|0 Repha 3 0 VAbv 1 0 Ygroup 1 1 VAbv 2 1 Ygroup 3 2 Repha 1 2 VAbv 3 2 Ygroup 3 3 Repha 1|2 non 3 broken|Repha Ygroup VAbv|1 broken 3 non
spans|universal|4|0 MBlw 3 1 MBlw 1 2 MBlw 2 3 MPre 2|1 standard 2 hieroglyph 3 standard|MPre MBlw MBlw MPre MPre MBlw|1 non 2 standard 4 hieroglyph 5 non 6 standard
spans|indic|4|0 RS 2 0 CM 1 0 VBlw 2 1 RS 2 3 CM 3 3 VBlw 3|1 vowel 2 symbol 3 consonant|VBlw RS RS VBlw VBlw RS|1 symbol 2 symbol 3 symbol 4 symbol 5 symbol 6 symbol
spans|myanmar|3|0 X 1 0 N 1 0 Xgroup 1 1 X 2 1 N 1 1 CS 1 1 Xgroup 1 2 X 2 2 N 1 2 CS 1 2 Xgroup 2|0 non 1 non 2 consonant|X CS CS|3 non
spans|universal|3|0 WJ 1 0 IS 2 1 WJ 1 1 IS 1 2 IS 2|1 non|WJ IS IS WJ IS IS WJ WJ WJ|9 non
spans|myanmar|2|0 C 1 0 As 1 1 C 1 1 Robatic 1 1 As 1||As Robatic Robatic Robatic C As C C As|1 non 2 non 3 non 4 non 5 non 6 non 7 non 8 non 9 non
spans|indic|4|0 M 3 0 MPst 1 1 M 1 1 MPst 2 2 M 1 2 PLACEHOLDER 2 3 M 1 3 MPst 2|2 broken|M M MPst PLACEHOLDER PLACEHOLDER M|5 broken 6 non
spans|universal|3|0 VPre 2 0 SMBlw 1 1 SMBlw 2|2 hieroglyph|VPre VPre SMBlw SMBlw VPre SMBlw SMBlw VPre VPre|1 hieroglyph 2 hieroglyph 4 hieroglyph 5 hieroglyph 7 hieroglyph 8 hieroglyph 9 hieroglyph
spans|universal|5|0 H 1 0 FMBlw 3 1 H 3 2 H 1 3 FMBlw 1 4 FMBlw 3|0 number_joiner 1 number_joiner 2 broken|FMBlw FMBlw FMBlw H H H|2 number_joiner 3 non 4 number_joiner 5 number_joiner 6 number_joiner
spans|indic|3|0 Xgroup 2 0 MW 2 0 PT 2 1 VAbv 1 1 Xgroup 2 1 MW 1 1 PT 1 2 VAbv 1|0 symbol 1 consonant|PT VAbv PT MW Xgroup Xgroup|4 consonant 5 non 6 non
spans|indic|5|0 C 2 0 DOTTEDCIRCLE 0 1 C 1 1 SM 1 2 C 0 2 SM 4 2 DOTTEDCIRCLE 1 3 SM 4 3 DOTTEDCIRCLE 1 4 SM 1 4 DOTTEDCIRCLE 4|1 non 2 broken 3 standalone 4 broken|N N|1 non 2 non
spans|khmer|4|0 PLACEHOLDER 1 0 VPre 2 1 DOTTEDCIRCLE 3 1 VPre 3 1 VS 3 2 PLACEHOLDER 1 2 DOTTEDCIRCLE 2 2 VPre 3 3 PLACEHOLDER 3 3 DOTTEDCIRCLE 3 3 VS 2|1 broken|VS VPre VS|1 non 2 non 3 non
spans|indic|3|0 VD 1 2 VD 2|1 symbol 2 broken|Ra VD Ra Ra Ra Ra VD VD Ra VD VD Ra|1 non 2 symbol 3 non 4 non 5 non 6 non 7 symbol 8 symbol 9 non 10 symbol 11 symbol 12 non
spans|myanmar|3|0 VBlw 1 1 Repha 1 1 VBlw 1 2 Repha 2 2 VBlw 1|2 broken|VBlw Repha VBlw Repha VBlw VBlw VBlw VBlw Repha|1 non 2 non 3 non 4 non 5 non 6 non 7 non 8 non 9 non
spans|khmer|3|0 MPst 1 0 Symbol 2 1 MPst 1 2 Symbol 1|0 non 2 consonant|MPst MPst MPst Symbol MPst Symbol Symbol Symbol Symbol|1 non 2 non 3 non 4 consonant 5 non 6 consonant 7 consonant 8 consonant 9 consonant
spans|indic|5|0 Repha 3 0 Ra 0 1 Repha 1 1 ML 3 2 Repha 3 3 Repha 2 3 Ra 2 3 ML 3 4 Repha 0 4 ML 2|1 non 4 consonant|Ra Repha Repha Ra ML ML|1 non 2 non 3 non 4 non 5 non 6 non
spans|khmer|3|0 VPst 1 0 VS 2 1 VS 1|1 broken|VPst VPst VPst VPst VS VPst VPst VS VPst VS VS VPst|1 broken 2 broken 3 broken 5 broken 6 broken 8 broken 11 broken 12 broken
spans|myanmar|5|0 Ra 3 0 MH 4 1 Ra 2 1 MH 4 2 Ra 3 3 Ra 2|1 broken 2 consonant 4 consonant|MH MH Ra MH Ra Ra MH MH Ra|1 consonant 2 consonant 3 non 4 consonant 6 consonant 7 consonant 8 consonant 9 non
spans|khmer|5|0 Symbol 4 0 MH 4 1 Symbol 4 1 MH 3 4 MH 1|1 consonant 2 consonant 3 non|MH MH MH Symbol MH MH Symbol Symbol Symbol|3 non 6 non 7 non 8 non 9 non
spans|khmer|3|0 C 1 1 H 2 2 C 1|1 consonant|C H C H|3 consonant 4 non
refused|khmer|2|0 C 2||OutOfRange
refused|khmer|2|2 C 0||OutOfRange
refused|khmer|2|0 H 1 0 C 1||OutOfOrder
refused|khmer|2|0 C 1 0 C 1||OutOfOrder
refused|khmer|2|1 C 1 0 C 2||OutOfRange
refused|khmer|2||2 non|OutOfRange
refused|khmer|2||1 non 1 broken|OutOfOrder
refused|indic|2|1 C 1 0 C 1|2 non|OutOfOrder
refused|universal|1||0 10|OutOfRange";

/// All cases, one on each line.
pub(crate) fn cases() -> &'static str {
    CASES
}
