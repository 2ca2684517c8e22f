// Each limit: on it, one below and one above.
use crate::acceptance::{accept_due, accept_leg};
use crate::angles::Angles;
use crate::heights::Heights;
use crate::quantity::Quantity;
use records::leg::{Leg, Length, Readings};
use records::number::{LegNumber, Node};
use records::refusal::Refusal;
use records::word::Payload;

// The refusal's number and place, or zeros.
fn answer(res: Result<(), Refusal>) -> (u8, u32) {
    match res {
        Ok(()) => (0, 0),
        Err(refusal) => (refusal.reason.number(), refusal.place),
    }
}

fn leg(value: u32, back: Option<u32>) -> Leg {
    Leg {
        number: LegNumber { value: 1 },
        start: Node { value: 1 },
        end: Node { value: 2 },
        value: Payload::of_word(value),
        length: Length { metres: 1 },
        readings: Readings { a: 1, b: 1, c: 1 },
        back: back.map(Payload::of_word),
    }
}

#[test]
fn legs(rt: HostRuntime) {
    let rows = [
        (49_999_999, None, (0, 0)),
        (50_000_000, None, (0, 0)),
        (50_000_001, None, (6, 1)),
        ((1 << 28) - 50_000_000, None, (0, 0)),
        ((1 << 28) - 50_000_001, None, (6, 1)),
        (50_000_000, Some(50_000_000), (0, 0)),
        (50_000_000, Some(50_000_001), (6, 4)),
        (50_000_001, Some(50_000_001), (6, 1)),
    ];
    for (value, back, due) in rows {
        assert_eq!(rt; answer(accept_leg(&Heights, &leg(value, back))), due);
    }
    let rows = [
        (129_599_999, None, (0, 0)),
        (129_600_000, None, (6, 1)),
        (0, Some(0), (6, 4)),
    ];
    for (value, back, due) in rows {
        assert_eq!(rt; answer(accept_leg(&Angles, &leg(value, back))), due);
    }
}

#[test]
fn due_sums(rt: HostRuntime) {
    assert_eq!(rt; answer(accept_due(&Heights, Payload::of_word(0))), (0, 0));
    assert_eq!(rt; answer(accept_due(&Heights, Payload::of_word(1))), (6, 1));
    let rows = [
        (64_793_999, (6, 1)),
        (64_794_000, (0, 0)),
        (64_806_000, (0, 0)),
        (64_806_001, (6, 1)),
    ];
    for (sum, due) in rows {
        assert_eq!(rt; answer(accept_due(&Angles, Payload::of_word(sum))), due);
    }
}

#[test]
fn angles(rt: HostRuntime) {
    let rows = [
        (0, 0, 0),
        (129_599_999, -1, 1),
        (64_799_999, 64_799_999, 64_799_999),
        (64_800_000, 64_800_000, 64_800_000),
        (64_800_001, -64_799_999, 64_799_999),
    ];
    for (residue, signed, size) in rows {
        let angle = Angles.contribution(Payload::of_word(residue), None);
        assert_eq!(rt; angle.signed(), signed);
        assert_eq!(rt; Angles.size(angle), size);
    }
}

#[test]
fn heights(rt: HostRuntime) {
    let rows = [
        (10_003, Some((1 << 28) - 10_000), 20_003, 3),
        (10_003, None, 20_006, 0),
        ((1 << 28) - 10_003, Some(10_000), -20_003, -3),
    ];
    for (value, back, rise, apart) in rows {
        let leg = leg(value, back);
        assert_eq!(rt; Heights.contribution(leg.value, leg.back).signed(), rise);
        assert_eq!(rt; Heights.misclosure(leg.value, leg.back).signed(), apart);
    }
}
