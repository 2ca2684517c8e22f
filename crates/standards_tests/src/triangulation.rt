// The triangulation table on its limits. A set is written as its five bits, class 1 lowest.
use records::leg::{Length, Readings, Running};
use standards::finding::{CircuitFinding, Form, LegFinding, WholeFinding};
use standards::gathering::gather;
use standards::standard::Standard;
use standards::triangulation::TriangulationStandard;

const ALL: u8 = 0b11111;

fn angle(a: u8, b: u16, c: u16) -> LegFinding {
    LegFinding {
        length: Length { metres: 0 },
        running: Running::Single,
        misclosure: 0,
        readings: Readings { a, b, c },
    }
}

#[test]
fn readings(rt: HostRuntime) {
    let positions = [
        (1u8, 0u8),
        (2, 0b10000),
        (3, 0b10000),
        (4, 0b11000),
        (11, 0b11000),
        (12, 0b11100),
        (15, 0b11100),
        (16, ALL),
    ];
    for (a, set) in positions {
        assert_eq!(rt;
            TriangulationStandard.leg_classes(0, &angle(a, 0, 1)).bits,
            set
        );
    }
    let deviations = [
        (40u16, ALL),
        (41, 0b11110),
        (50, 0b11110),
        (51, 0b11100),
        (80, 0b11100),
        (81, 0b11000),
        (120, 0b11000),
        (121, 0b10000),
        (200, 0b10000),
        (201, 0),
    ];
    for (b, set) in deviations {
        assert_eq!(rt;
            TriangulationStandard.leg_classes(1, &angle(16, b, 1)).bits,
            set
        );
    }
    for (c, set) in [(20u16, ALL), (21, 0b11100), (100, 0b11100), (101, 0)] {
        assert_eq!(rt;
            TriangulationStandard.leg_classes(2, &angle(16, 0, c)).bits,
            set
        );
    }
}

#[test]
fn closures(rt: HostRuntime) {
    let sizes = [
        (299u64, ALL),
        (300, ALL),
        (301, 0b11100),
        (500, 0b11100),
        (501, 0b10000),
        (1000, 0b10000),
        (1001, 0),
    ];
    for (closure, set) in sizes {
        let triangle = CircuitFinding {
            form: Form {
                closed: true,
                legs: 3,
            },
            length: Length { metres: 0 },
            running: Running::Single,
            closure,
            misclosure: 0,
        };
        assert_eq!(rt;
            TriangulationStandard.circuit_classes(0, &triangle).bits,
            set
        );
    }
}

// Two triangles of 100 and 101 average more than 100.
#[test]
fn averages(rt: HostRuntime) {
    let sums = [
        (200u64, ALL),
        (201, 0b11110),
        (240, 0b11110),
        (241, 0b11100),
        (400, 0b11100),
        (401, 0b11000),
        (600, 0b11000),
        (601, 0b10000),
        (1000, 0b10000),
        (1001, 0),
    ];
    for (closures, set) in sums {
        assert_eq!(rt;
            gather(
                &TriangulationStandard,
                &[WholeFinding {
                    circuits: 2,
                    closures,
                }],
            )
            .bits,
            set
        );
    }
}

#[test]
fn accepted(rt: HostRuntime) {
    assert!(rt; TriangulationStandard.accepts_length(Length { metres: 0 }));
    assert!(rt; !TriangulationStandard.accepts_length(Length { metres: 1 }));
    for (a, c, accepted) in [(1u8, 1u16, true), (0, 1, false), (1, 0, false)] {
        assert_eq!(rt;
            TriangulationStandard.accepts_readings(Readings { a, b: 0, c }),
            accepted
        );
    }
    for (closed, legs, accepted) in [
        (true, 3u8, true),
        (true, 2, false),
        (true, 4, false),
        (false, 3, false),
    ] {
        assert_eq!(rt;
            TriangulationStandard.accepts_form(Form { closed, legs }),
            accepted
        );
    }
}
