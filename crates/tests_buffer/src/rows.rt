//! Worked rows of the buffer's calls.

use crate::call::{Call, make};
use crate::call_words::call_of;
use crate::parts::part;
use buffer_core::buffer::hb_buffer_t;
use buffer_glyphs::info::hb_glyph_info_t;
use std::alloc::{AllocError, Global};
use std::test::Fail;

/// Number, cluster and mask.
pub type Glyph = (u32, u32, u32);

// A row has its name, the clusters of the glyphs 1, 2 and so on, the calls, how many of them return false, and then the
// list, or the output if one is open: of each glyph the number, the cluster and the mask.
static ROWS: &str = "# Calls with no output open.
numbers, masks and turns a list;5 9 7;reset-clusters, set-masks 24 16 1 3, set-masks 8 8 0 4294967295, reverse-range 1 3;0;1,0,8 3,2,24 2,1,24
gives each glyph one mask;0 1;open, next, reset-masks 11, sync;0;1,0,11 2,1,11
cuts a list and fills it up;4 5;set-len 1, set-len 3;0;1,4,0 0,0,0 0,0,0
adds the characters of a text behind others;9;push aé€b, add c 2;0;1,9,0 97,0,0 233,1,0 8364,3,0 98,6,0 99,2,0
turns a list round;0 1 1;reverse;0;3,1,0 2,1,0 1,0,0
turns clusters round;0 0 1;reverse-clusters;0;3,1,0 1,0,0 2,0,0
merges groups before it turns them round;0 1 1 2;next, write-current 1, reverse-merged;0;4,2,0 3,0,0 1,0,0 1,0,0
sorts and merges the span that the order permutes;0 1 2 3;next, write-current 9, next, next, write-current 9, sort 0 4;0;1,0,0 3,1,0 9,1,0 9,3,0
deletes in place;5 3 7;delete-in-place 2, delete-in-place 1;0;3,3,0
spreads flags over a cluster;0 0 1;next, write-last 1, spread;0;1,0,1 2,0,1 3,1,0
lends all glyphs;0 1;recast 4 1;0;1,4,1 2,1,0
gives memory back, and takes more;0 1 2;set-len 2, shrink, set-len 3;0;1,0,0 2,1,0 0,0,0
lends the glyphs that the cursor has passed;0 1 2;write-first 8, next-many 2, write-first 9;0;9,0,0 2,1,0 3,2,0
moves glyphs that the cursor has passed;0 1 2;next-many 2, rotate 0 1 2;0;2,1,0 1,0,0 3,2,0
keeps its place while the last glyph is deleted in place;0 1 2 3;next-many 2, delete-in-place 4, write-current 7;0;1,0,0 2,1,0 7,2,0
# Calls with an output open.
moves forth and back;0 1;move-to 1, open, move-to 2, write-last 8, move-to 0, output 7, put 5, move-to 1, replace 6, sync;0;7,0,0 6,0,0 1,0,0 2,1,8
copies the last of the output past the end of the input;4;open, output 6, next, output 7, sync;0;6,4,0 1,4,0 7,4,0
copies the first of the input, with its cluster;0 1;open, next, output 7, sync;0;1,0,0 7,1,0 2,1,0
merges what it replaces;1 0 2;break 0 2, open, replace-many 2 7 2, sync;0;7,0,0 8,0,0 3,2,0
marks what it replaces where characters are kept apart;1 0;level 2, open, replace-many 2 7 1, sync;0;7,1,3
takes a glyph out with its cluster;0 1 2;open, next, skip, sync;0;1,0,0 3,2,0
deletes a glyph, whose cluster the one before it takes;5 3 7;open, next, delete, sync;0;1,3,0 3,7,0
deletes the first, and marks where characters are kept apart;0 1;level 2, open, delete, sync;0;2,1,3
lends the glyphs of the output;0 1;open, next, write-first 9, sync;0;9,0,0 2,1,0
lends the glyphs of an output that has had more than were read, and takes more;0 1;open, output 9, next, write-first 8, output 7, next, sync;0;8,0,0 1,0,0 7,1,0 2,1,0
moves glyphs of an output that is apart;0 1;open, output 9, next-many 2, rotate 0 1 2, sync;0;1,0,0 9,0,0 2,1,0
# Merges, unsafe-to-break flags, and requests for flags.
merges, and takes flags where the cluster changes;0 1 2;break - -, merge 1 3;0;1,0,0 2,1,3 3,1,0
marks where characters are kept apart;0 1 2;level 2, merge 1 3;0;1,0,0 2,1,0 3,2,3
merges within the output, and what is ahead with it;0 1 1;open, next-many 2, merge-output 0 2, sync;0;1,0,0 2,0,0 3,0,0
does nothing within the output where characters are kept apart;0 1 1;level 2, open, next-many 2, merge-output 0 2, sync;0;1,0,0 2,1,0 3,1,0
merges a grapheme where graphemes are clusters, and takes flags where the cluster changes;0 1 2;break - -, level 3, merge-grapheme 1 3;0;1,0,0 2,1,3 3,1,0
merges a grapheme at the default level;0 1 2;merge-grapheme 0 2;0;1,0,0 2,0,0 3,2,0
merges no grapheme where characters begin with their own clusters;0 1 2;level 1, merge-grapheme 0 2, level 2, merge-grapheme 0 2;0;1,0,0 2,1,0 3,2,0
marks what is merged later where graphemes are clusters;0 1 2;level 3, merge 1 3;0;1,0,0 2,1,0 3,2,3
merges a grapheme by its numbers, wherever they are;5 2 5 9;level 3, merge-grapheme 1 3;0;1,2,0 2,2,0 3,2,0 4,9,0
merges a grapheme of the output, and what is ahead with it;0 1 1;level 3, open, next-many 2, merge-output-grapheme 0 2, sync;0;1,0,0 2,0,0 3,0,0
merges nothing else within the output where graphemes are clusters;0 1 1;level 3, open, next-many 2, merge-output 0 2, level 1, merge-output-grapheme 0 2, sync;0;1,0,0 2,1,0 3,1,0
marks from the output on;2 1;open, next, break-across 0 -, sync;0;1,2,3 2,1,0
flags what is asked for, from the output on;0 0;request 64, open, next, concat-across - 2, sync;0;1,0,2 2,0,2
flags what is asked for;0 1;concat - -, request 64, concat 1 -;0;1,0,0 2,1,2
tells where tatweels may stand, if that is asked for;0 1 2;tatweel 1 -, request 128, tatweel - 2;0;1,0,0 2,1,4 3,2,3
merges a glyph that came back in a cluster before its own, far from the range;0 1 2 3;next, write-cluster 2 1, move-to 0, merge 0 2;0;1,0,0 2,0,0 3,2,0 4,0,0
# The request for safe breaks.
flags strictly where that is asked for;0 1 2;break-strictly - 2, request 256, break-strictly 1 -;0;1,0,0 2,1,0 3,2,3
merges a grapheme, and flags none;0 1 2;request 256, merge-grapheme 1 3;0;1,0,0 2,1,0 3,1,0
loses the flag of a deleted glyph;0 1 1;break - 2, open, next, delete, sync;0;1,0,0 3,1,0
hands the flag of a deleted glyph to the next one of its cluster;0 1 1 1 2;request 256, break - 2, open, next, delete, sync;0;1,0,0 3,1,3 4,1,0 5,2,0
hands the flag of a deleted glyph to the one of its cluster before it;0 1 1;request 256, open, next-many 2, write-current-mask 5, delete, sync;0;1,0,0 2,1,5
hands the flag of a deleted glyph to a neighbour that has it;0 1 1 1;request 256, break - 3, open, next, delete, sync;0;1,0,0 3,1,3 4,1,0
hands the flag of a skipped glyph to the next one of its cluster;0 1 1;request 256, break - 2, open, next, skip, sync;0;1,0,0 3,1,3
hands no flag on where a copy has it;0 1 1;request 256, break - 2, open, next, output 7, skip, sync;0;1,0,0 7,1,3 3,1,0
loses the flag of a later glyph that it replaces;2 1 0;break 1 -, open, replace-many 2 9 1, sync;0;9,1,0 3,0,0
joins the flags of what it replaces;2 1 0;request 256, break 1 -, open, replace-many 2 9 1, sync;0;9,1,3 3,0,0
hands the flags of what it replaces by nothing to the next glyph of their cluster;0 1 1;request 256, break - 2, open, next, replace-many 1 0 0, sync;0;1,0,0 3,1,3
hands on flags in place;0 1 1;request 256, break - 2, delete-in-place 2;0;1,0,0 3,1,3
hands on flags in place to the run before, which takes the cluster;2 1 1 0;request 256, open, next-many 2, write-last 3, write-current 2, sync, delete-in-place 2;0;1,1,3 4,0,0
loses flags in place of a run that takes the cluster;2 1 1 0;open, next-many 2, write-last 3, write-current 2, sync, delete-in-place 2;0;1,1,0 4,0,0
# Calls that would make more glyphs than the limit.
adds no character past the limit, and may join later;0 1;limit 3, push ab, add c 2, add d 3, push e, open, sync;3;1,0,0 2,1,0 99,2,0
makes no longer list, and no later call joins;0 1;limit 2, set-len 3, open, sync;2;
puts no copy past the limit, and no later call moves or joins;0 1 2;limit 3, open, output 4, output 5, output 6, output 7, sync, move-to 0;3;4,0,0 5,0,0 6,0,0
joins again once it was cleared;0;limit 1, set-len 2, clear, open, sync;1;
puts no glyph, moves over none and replaces none past the limit;0 1;limit 2, open, output 4, next-many 2, output 5, put 6, next, replace 7, replace-many 1 8 1;5;4,0,0 5,0,0
takes back no more than the input may have;0 1;limit 2, open, output 4, next, move-to 0;1;4,0,0 1,0,0
joins no more than the list may have;0 1;limit 2, open, output 4, sync;1;4,0,0";

/// A buffer with the glyphs 1, 2 and so on, in these clusters.
fn started(alloc: Global, clusters: &str) -> Result<hb_buffer_t, Fail> {
    let mut buffer = hb_buffer_t::new(alloc);
    for (number, cluster) in ('\u{1}'..='\u{F}').zip(clusters.split_whitespace()) {
        make(&mut buffer, alloc, &Call::Add(number, cluster.parse()?))?;
    }
    Ok(buffer)
}

/// Makes the calls, and counts those that return false.
pub fn make_all(
    buffer: &mut hb_buffer_t,
    alloc: Global,
    calls: &[Call],
) -> Result<usize, AllocError> {
    let mut refused: usize = 0;
    for call in calls {
        if !make(buffer, alloc, call)? {
            refused = refused.saturating_add(1);
        }
    }
    Ok(refused)
}

/// Makes the calls of words, and counts those that return false.
fn make_words(buffer: &mut hb_buffer_t, alloc: Global, calls: &'static str) -> Result<usize, Fail> {
    let mut refused: usize = 0;
    for words in calls.split(", ") {
        let call = call_of(words).ok_or("no such call")?;
        if !make(buffer, alloc, &call)? {
            refused = refused.saturating_add(1);
        }
    }
    Ok(refused)
}

fn shown(buffer: &hb_buffer_t) -> &[hb_glyph_info_t] {
    if buffer.have_output() {
        return buffer.out_info();
    }
    buffer.info_slice()
}

fn glyph(info: &hb_glyph_info_t) -> Glyph {
    (info.glyph_id, info.cluster, info.mask)
}

pub fn are(glyphs: &[hb_glyph_info_t], want: &[Glyph]) -> bool {
    glyphs.iter().map(glyph).eq(want.iter().copied())
}

/// A glyph of a row; zeros where a number is missing.
fn glyph_of(text: &str) -> Glyph {
    let mut numbers = text
        .split(',')
        .map(|number| number.parse::<u32>().unwrap_or(0));
    (
        numbers.next().unwrap_or(0),
        numbers.next().unwrap_or(0),
        numbers.next().unwrap_or(0),
    )
}

fn are_listed(glyphs: &[hb_glyph_info_t], want: &str) -> bool {
    glyphs
        .iter()
        .map(glyph)
        .eq(want.split_whitespace().map(glyph_of))
}

fn holds(alloc: Global, row: &'static str) -> Result<bool, Fail> {
    let mut buffer = started(alloc, part(row, 1))?;
    let refused = make_words(&mut buffer, alloc, part(row, 2))?;
    Ok(part(row, 3).parse() == Ok(refused) && are_listed(shown(&buffer), part(row, 4)))
}

#[test]
fn leaves_what_is_wanted(rt: HostRuntime) -> Result<(), Fail> {
    for row in ROWS.lines() {
        let as_wanted = row.starts_with('#') || holds(rt.alloc(), row)?;
        assert!(rt; as_wanted, "{row}");
    }
    Ok(())
}
