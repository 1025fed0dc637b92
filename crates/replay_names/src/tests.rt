//! How a line of the list is read.
use crate::case::Case;
use crate::line::Line;
use names::folding::AsciiFolding;
use std::alloc::Global;

/// The case of a line that has one.
fn case_of(heap: Global, line: &str) -> Option<Case> {
    match Line::read(heap, line) {
        Ok(Line::Case(case)) => Some(case),
        _ => None,
    }
}

/// Whether a line is read as a case that agrees.
fn agrees(heap: Global, line: &str) -> bool {
    case_of(heap, line).is_some_and(|case| case.agrees(&AsciiFolding))
}

/// Whether a line is read as a case that differs.
fn differs(heap: Global, line: &str) -> bool {
    case_of(heap, line).is_some_and(|case| !case.agrees(&AsciiFolding))
}

#[test]
fn units_have_small_digits(rt: HostRuntime) -> anyhow::Result<()> {
    let heap = rt.alloc();
    assert!(rt; agrees(heap, "key 006a 004a same"));
    assert!(rt; case_of(heap, "key 006A 004a same").is_none());
    assert!(rt; case_of(heap, "key 006g 004a same").is_none());
    Ok(())
}

#[test]
fn digits_behind_the_last_unit_say_nothing(rt: HostRuntime) -> anyhow::Result<()> {
    let heap = rt.alloc();
    assert!(rt; agrees(heap, "key 006a0 004a same"));
    assert!(rt; agrees(heap, "key 004 - same"));
    assert!(rt; agrees(heap, "chain 00610 0061"));
    Ok(())
}

#[test]
fn missing_words_stand_for_none(rt: HostRuntime) -> anyhow::Result<()> {
    let heap = rt.alloc();
    assert!(rt; agrees(heap, "chain"));
    assert!(rt; agrees(heap, "key 0041 0042"));
    assert!(rt; differs(heap, "key"));
    assert!(rt; case_of(heap, "compare 0041 0042").is_none());
    assert!(rt; case_of(heap, "").is_none());
    Ok(())
}
