//! Contexts of each format, by bytes written out.
use font_bytes::fault::TableFault;
use font_bytes::room::Room;
use font_contexts::contexts::read_context;
use layout_tables::context::ContextSubtable;
use layout_tables::item_rule::ItemRule;
use std::process::Abort;
use std::test::Fail;

/// Format 1: glyph 5 has a rule with glyph 7, and two lookup records, the second of lookup 9.
const BY_GLYPHS: [u8; 32] = [
    0, 1, 0, 8, 0, 1, 0, 14, 0, 1, 0, 1, 0, 5, 0, 1, 0, 4, 0, 2, 0, 2, 0, 7, 0, 1, 0, 0, 0, 0, 0, 9,
];

/// Format 2: glyph 5 is of class 1, which has a rule with class 1; class 0 has a null offset.
const BY_CLASSES: [u8; 36] = [
    0, 2, 0, 12, 0, 18, 0, 2, 0, 0, 0, 26, 0, 1, 0, 1, 0, 5, 0, 1, 0, 5, 0, 1, 0, 1, 0, 1, 0, 4, 0,
    2, 0, 0, 0, 1,
];

/// Format 3 of chained contexts: glyph 5 before glyph 6, and a lookup record.
const BY_COVERAGES: [u8; 30] = [
    0, 3, 0, 0, 0, 1, 0, 18, 0, 1, 0, 24, 0, 1, 0, 0, 0, 0, 0, 1, 0, 1, 0, 5, 0, 1, 0, 1, 0, 6,
];

fn is_rule(rule: &ItemRule, input: &[u16], record_count: usize) -> bool {
    rule.backtrack().is_empty()
        && rule.input() == input
        && rule.lookahead().is_empty()
        && rule.records().len() == record_count
}

#[test]
fn rules_by_glyphs_are_read(rt: HostRuntime) -> Result<(), Fail> {
    let mut room = Room { left: 100 };
    match read_context(rt.alloc(), false, 1, &BY_GLYPHS, 0, &mut room) {
        Ok(Some(ContextSubtable::Glyphs(rules))) => match rules.as_slice() {
            [rule] => assert!(rt; is_rule(rule, &[5, 7], 1)),
            _ => return Err("other rules".into()),
        },
        _ => return Err("no rules".into()),
    }
    // A set, a glyph, an offset of a rule, a glyph and two records.
    assert_eq!(rt; room.left, 94);
    Ok(())
}

#[test]
fn rules_by_classes_are_read(rt: HostRuntime) -> Result<(), Fail> {
    let mut room = Room { left: 100 };
    match read_context(rt.alloc(), false, 1, &BY_CLASSES, 0, &mut room) {
        Ok(Some(ContextSubtable::Classes(context))) => {
            assert!(rt; context.first.contains(5));
            assert_eq!(rt; context.input.class_of(5), 1);
            match context.rules.as_slice() {
                [rule] => assert!(rt; is_rule(rule, &[1, 1], 0)),
                _ => return Err("other rules".into()),
            }
            Ok(())
        }
        _ => Err("no rules".into()),
    }
}

#[test]
fn rules_by_coverages_are_read(rt: HostRuntime) -> Result<(), Fail> {
    let mut room = Room { left: 100 };
    match read_context(rt.alloc(), true, 1, &BY_COVERAGES, 0, &mut room) {
        Ok(Some(ContextSubtable::Coverage(rules))) => match rules.as_slice() {
            [rule] => {
                assert_eq!(rt; rule.backtrack.len(), 0);
                assert!(rt; rule.input.as_slice()[..].iter().all(|c| c.contains(5)));
                assert!(rt; rule.lookahead.as_slice()[..].iter().all(|c| c.contains(6)));
                assert_eq!(rt; rule.records.len(), 1);
                Ok(())
            }
            _ => Err("other rules".into()),
        },
        _ => Err("no rules".into()),
    }
}

#[test]
fn other_formats_are_left_out(rt: HostRuntime) -> Result<(), Fail> {
    let mut room = Room { left: 100 };
    assert!(rt;
        matches!(
            read_context(rt.alloc(), true, 1, &[0, 4], 0, &mut room),
            Ok(None)
        )
    );
    match read_context(rt.alloc(), true, 1, &[0], 0, &mut room) {
        Err(fault) => assert!(rt; fault == TableFault::Short(0)),
        Ok(_context) => return Err("read".into()),
    }
    Ok(())
}
