//! GDEF, and the lists of a layout table, by bytes written out.
use buffer_common::tag::{Tag, TagExt};
use font_bytes::fault::TableFault;
use font_bytes::room::Room;
use font_lists::definition::read_gdef;
use font_lists::header::layout_header;
use font_lists::lists::read_lists;
use std::process::Abort;
use std::test::Fail;

/// Version 1.2: glyph 5 is a mark of attachment class 256, glyph 6 one of class 2; one set has glyph 6, one has a null
/// offset.
const DEFINITION: [u8; 56] = [
    0, 1, 0, 2, 0, 14, 0, 0, 0, 0, 0, 24, 0, 34, // header
    0, 2, 0, 1, 0, 5, 0, 6, 0, 3, // glyph classes
    0, 1, 0, 5, 0, 2, 1, 0, 0, 2, // attachment classes
    0, 1, 0, 2, 0, 0, 0, 12, 0, 0, 0, 0, // sets
    0, 1, 0, 1, 0, 6, 0, 0, 0, 0, // coverage
];

#[test]
fn glyphs_are_defined(rt: HostRuntime) -> Result<(), Fail> {
    let mut room = Room { left: 100 };
    match read_gdef(rt.alloc(), &DEFINITION, &mut room) {
        Ok(definition) => {
            match &definition.classes {
                Some(classes) => assert_eq!(rt; classes.class_of(6), 3),
                None => return Err("no classes".into()),
            }
            assert_eq!(rt; definition.attach.class_of(5), 0);
            assert_eq!(rt; definition.attach.class_of(6), 2);
            match definition.sets.as_slice() {
                [first, second] => assert!(rt; first.contains(6) && !second.contains(6)),
                _ => return Err("other sets".into()),
            }
            Ok(())
        }
        Err(_fault) => Err("refused".into()),
    }
}

/// Version 1.1: scripts in the wrong order with one language system, whose required feature isn't there; a feature whose
/// lookup isn't there; feature variations without records.
const LAYOUT: [u8; 62] = [
    0, 1, 0, 1, 0, 14, 0, 40, 0, 0, 0, 0, 0, 54, // header
    0, 2, 0x6c, 0x61, 0x74, 0x6e, 0, 14, 0x44, 0x46, 0x4c, 0x54, 0, 14, // script list
    0, 4, 0, 0, 0, 0, 0, 1, 0, 1, 0, 0, // script and language system
    0, 1, 0x6c, 0x69, 0x67, 0x61, 0, 8, 0, 0, 0, 1, 0, 5, // features
    0, 1, 0, 0, 0, 0, 0, 0, // variations
];

#[test]
fn lists_are_read(rt: HostRuntime) -> Result<(), Fail> {
    let mut room = Room { left: 100 };
    let Ok(header) = layout_header(&LAYOUT) else {
        return Err("no header".into());
    };
    let Ok(lists) = read_lists(rt.alloc(), &LAYOUT, header, &mut room) else {
        return Err("no lists".into());
    };
    match lists.scripts() {
        [first, second] => {
            assert!(rt; first.tag() == Tag::default_script());
            assert!(rt; second.tag() == Tag::from_bytes(b"latn"));
        }
        _ => return Err("other scripts".into()),
    }
    match lists.features() {
        [feature] => assert_eq!(rt; feature.lookups().len(), 0),
        _ => return Err("other features".into()),
    }
    match lists.script(Tag::from_bytes(b"latn")) {
        Some(script) => match script.default_lang_sys() {
            Some(system) => {
                assert_eq!(rt; system.required_feature(), None);
                assert!(rt; system.features() == [0].as_slice());
                Ok(())
            }
            None => Err("no language system".into()),
        },
        None => Err("no script".into()),
    }
}

#[test]
fn damage_is_refused(rt: HostRuntime) {
    assert!(rt; matches!(layout_header(&[0, 1]), Err(TableFault::Short(0))));
    assert!(rt;
        matches!(
            layout_header(&[0, 2, 0, 0, 0, 0, 0, 0, 0, 0]),
            Err(TableFault::Kind(0))
        )
    );
}
