//! Places in records, their paths, and the texts of faults there.

use crate::tests::{MIXED, SMALL};
use evp_format::{Broken, BrokenText, Place, PlaceStep, path_of, read_description};
use std::test::Fail;

// The place of the only field of `SMALL`.
fn first_field() -> Place {
    Place::root().with(PlaceStep::At(0))
}

#[test]
fn paths_of_places(rt: HostRuntime) -> Result<(), Fail> {
    let alloc = rt.alloc();
    let format = read_description(alloc, MIXED)?;
    let second = Place::root().with(PlaceStep::At(2)).with(PlaceStep::Nth(1));
    let rows = [
        (Place::root(), "."),
        (Place::root().with(PlaceStep::At(4)), "s"),
        (second.with(PlaceStep::At(0)), "c[1].k"),
        (second, "c[1]"),
    ];
    for (place, expected) in &rows {
        let path = path_of(alloc, &format, place)?;
        assert_eq!(rt; path.to_string(alloc)?.as_str(), *expected);
    }
    Ok(())
}

#[test]
fn places_are_compared_and_shown(rt: HostRuntime) -> Result<(), Fail> {
    let field = Place::root().with(PlaceStep::At(0));
    let element = field.with(PlaceStep::Nth(3));
    assert!(rt; element == field.with(PlaceStep::Nth(3)));
    assert!(rt; element != field.with(PlaceStep::At(3)));
    assert!(rt; element != field.with(PlaceStep::Nth(2)));
    assert!(rt; element != field);
    let shown = format!(in rt.alloc(); "{element:?}")?;
    assert_eq!(rt; shown.as_str(), "[At(0), Nth(3)]");
    Ok(())
}

#[test]
fn texts_of_broken_records(rt: HostRuntime) -> Result<(), Fail> {
    let alloc = rt.alloc();
    let format = read_description(alloc, SMALL)?;
    let rows = [
        (Broken::ShortRecord, "short record"),
        (Broken::NegativeCount(first_field()), "negative count x"),
        (Broken::NullList(first_field()), "null list x"),
        (Broken::BlockPlace(first_field()), "block place x"),
        (Broken::NoEnd(first_field()), "no end x"),
    ];
    for (fault, expected) in &rows {
        let path = fault.path(alloc, &format)?;
        let text = format!(in alloc; "{}", BrokenText { fault, path: &path })?;
        assert_eq!(rt; text.as_str(), *expected);
        assert!(rt; fault == fault);
        assert!(rt; *fault != Broken::NoEnd(Place::root()));
    }
    Ok(())
}
