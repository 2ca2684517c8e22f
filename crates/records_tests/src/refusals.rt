// What a refusal says: its number, the part that found it, and the place.
use records::refusal::{Part, Reason, Refusal};

pub(crate) type Said = (u8, Part, u32);

pub(crate) fn said(refusal: &Refusal) -> Said {
    (
        refusal.reason.number(),
        refusal.reason.part(),
        refusal.place,
    )
}

// The layout is broken at a place.
pub(crate) fn layout(place: u32) -> Option<Said> {
    Some((1, Part::Words, place))
}

// A range is broken at a place.
pub(crate) fn range(place: u32) -> Option<Said> {
    Some((2, Part::Words, place))
}

#[test]
fn numbers_and_parts(rt: HostRuntime) {
    let rows = [
        (Reason::Layout, 1u8, Part::Words),
        (Reason::Range, 2, Part::Words),
        (Reason::Taken, 3, Part::Book),
        (Reason::Absent, 4, Part::Book),
        (Reason::InUse, 5, Part::Book),
        (Reason::Measure, 6, Part::Quantity),
        (Reason::Observation, 7, Part::Standard),
        (Reason::Twice, 8, Part::Book),
        (Reason::Broken, 9, Part::Book),
        (Reason::Form, 10, Part::Standard),
        (Reason::NoLeg, 11, Part::Book),
        (Reason::Loose, 12, Part::Book),
        (Reason::NoClass, 13, Part::Book),
        (Reason::TooFew, 14, Part::Book),
    ];
    for (reason, number, part) in rows {
        let refusal = Refusal { reason, place: 4 };
        assert_eq!(rt; said(&refusal), (number, part, 4));
    }
}
