//! The printed names of faults, and the statuses with which the program ends.
use buffer_glyphs::cause::ShapeCause;
use shell_json::fault::JsonFault;
use shell_readers::fault::RunFault;
use std::alloc::{AllocError, AllocFailed, Global};
use std::test::Fail;

static FAULTS: [(RunFault, &str, u8); 17] = [
    (RunFault::Words, "words", 2),
    (RunFault::Read, "Read", 6),
    (RunFault::ReadLimit, "ReadLimit", 6),
    (RunFault::Json(JsonFault::NotJson), "J1 NotJson", 3),
    (RunFault::Json(JsonFault::WrongShape), "J2 WrongShape", 3),
    (RunFault::Json(JsonFault::FloatNumber), "J3 FloatNumber", 3),
    (RunFault::Json(JsonFault::UnknownName), "J4 UnknownName", 3),
    (RunFault::Json(JsonFault::OutOfOrder), "U1 OutOfOrder", 3),
    (RunFault::Json(JsonFault::OutOfRange), "U2 OutOfRange", 3),
    (RunFault::Json(JsonFault::SplitDepth), "U3 SplitDepth", 3),
    (RunFault::Unlawful, "Unlawful", 3),
    (RunFault::NotUtf8, "NotUtf8", 4),
    (RunFault::Shape(ShapeCause::TooLong), "S2 TooLong", 5),
    (
        RunFault::Shape(ShapeCause::StretchRange),
        "S3 StretchRange",
        5,
    ),
    (
        RunFault::Shape(ShapeCause::UnknownSyllableKind),
        "S4 UnknownSyllableKind",
        5,
    ),
    (RunFault::Write, "Write", 6),
    (RunFault::OutOfMemory, "OutOfMemory", 5),
];

fn is_printed(alloc: Global, fault: RunFault, name: &str, status: u8) -> Result<bool, Fail> {
    let printed = format!(in alloc; "{fault}")?;
    Ok(printed.as_str() == name && fault.status() == status)
}

#[test]
fn names_and_statuses(rt: HostRuntime) -> Result<(), Fail> {
    for (fault, name, status) in &FAULTS {
        let as_wanted = is_printed(rt.alloc(), *fault, name, *status)?;
        assert!(rt; as_wanted, "{name}");
    }
    Ok(())
}

fn faults_of_calls() -> [RunFault; 6] {
    [
        RunFault::from(JsonFault::FloatNumber),
        RunFault::from(ShapeCause::TooLong),
        RunFault::from(JsonFault::from(AllocError)),
        RunFault::from(ShapeCause::from(AllocError)),
        RunFault::from(AllocError),
        RunFault::from(AllocFailed { value: 0u8 }),
    ]
}

// Lack of memory is one fault, in whichever step.
#[test]
fn faults_of_the_calls_below(rt: HostRuntime) {
    let want = [
        RunFault::Json(JsonFault::FloatNumber),
        RunFault::Shape(ShapeCause::TooLong),
        RunFault::OutOfMemory,
        RunFault::OutOfMemory,
        RunFault::OutOfMemory,
        RunFault::OutOfMemory,
    ];
    assert_eq!(rt; faults_of_calls(), want);
}
