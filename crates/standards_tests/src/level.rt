// The levelling table on its limits. A set is written as its five bits, class 1 lowest.
use records::leg::{Length, Readings, Running};
use standards::class::Class;
use standards::finding::{CircuitFinding, Form, LegFinding};
use standards::gathering::gather;
use standards::level::LevelStandard;
use standards::standard::Standard;

const ALL: u8 = 0b11111;

fn leg(metres: u32, running: Running, misclosure: u64, a: u8, b: u16, c: u16) -> LegFinding {
    LegFinding {
        length: Length { metres },
        running,
        misclosure,
        readings: Readings { a, b, c },
    }
}

fn circuit(
    closed: bool,
    metres: u32,
    running: Running,
    closure: u64,
    misclosure: u64,
) -> CircuitFinding {
    CircuitFinding {
        form: Form { closed, legs: 2 },
        length: Length { metres },
        running,
        closure,
        misclosure,
    }
}

#[test]
fn readings(rt: HostRuntime) {
    let methods = [(0u8, 0u8), (1, 0b10000), (2, 0b11100), (3, ALL), (4, ALL)];
    for (a, set) in methods {
        assert_eq!(rt;
            LevelStandard
                .leg_classes(0, &leg(1000, Running::Double, 0, a, 0, 0))
                .bits,
            set
        );
    }
    let sights = [
        (499u16, ALL),
        (500, ALL),
        (501, 0b11110),
        (600, 0b11110),
        (601, 0b11000),
        (700, 0b11000),
        (701, 0b10000),
        (900, 0b10000),
        (901, 0),
    ];
    for (b, set) in sights {
        assert_eq!(rt;
            LevelStandard
                .leg_classes(1, &leg(1000, Running::Double, 0, 3, b, 0))
                .bits,
            set
        );
    }
    let differences = [
        (39u16, ALL),
        (40, ALL),
        (41, 0b11110),
        (99, 0b11110),
        (100, 0b11110),
        (101, 0),
    ];
    for (c, set) in differences {
        assert_eq!(rt;
            LevelStandard
                .leg_classes(2, &leg(1000, Running::Double, 0, 3, 0, c))
                .bits,
            set
        );
    }
}

#[test]
fn misclosures(rt: HostRuntime) {
    let sizes = [
        (299u64, ALL),
        (300, ALL),
        (301, 0b11110),
        (400, 0b11110),
        (401, 0b11100),
        (600, 0b11100),
        (601, 0b11000),
        (800, 0b11000),
        (801, 0b10000),
        (1200, 0b10000),
        (1201, 0),
        (0xffff_ffff_ffff_ffff, 0),
    ];
    for (size, set) in sizes {
        assert_eq!(rt;
            LevelStandard
                .leg_classes(3, &leg(1000, Running::Double, size, 3, 0, 0))
                .bits,
            set
        );
        assert_eq!(rt;
            LevelStandard
                .leg_classes(3, &leg(1000, Running::Single, size, 3, 0, 0))
                .bits,
            ALL
        );
        assert_eq!(rt;
            LevelStandard
                .circuit_classes(1, &circuit(false, 1000, Running::Double, 0, size))
                .bits,
            set
        );
        assert_eq!(rt;
            LevelStandard
                .circuit_classes(1, &circuit(true, 1000, Running::Double, 0, size))
                .bits,
            ALL
        );
    }
}

#[test]
fn closures(rt: HostRuntime) {
    let sizes = [
        (1599u64, ALL),
        (1600, ALL),
        (1601, 0b11110),
        (2000, 0b11110),
        (2001, 0b11100),
        (2400, 0b11100),
        (2401, 0b11000),
        (3200, 0b11000),
        (3201, 0b10000),
        (4800, 0b10000),
        (4801, 0),
    ];
    for (size, set) in sizes {
        assert_eq!(rt;
            LevelStandard
                .circuit_classes(0, &circuit(true, 4000, Running::Double, size, 0))
                .bits,
            set
        );
        assert_eq!(rt;
            LevelStandard
                .circuit_classes(0, &circuit(false, 4000, Running::Double, size, 0))
                .bits,
            ALL
        );
    }
}

#[test]
fn single_runs(rt: HostRuntime) {
    let lengths = [
        (9_999u32, 0b11000),
        (10_000, 0b01000),
        (24_999, 0b01000),
        (25_000, 0),
    ];
    for (metres, set) in lengths {
        assert_eq!(rt;
            LevelStandard
                .circuit_classes(2, &circuit(true, metres, Running::Single, 0, 0))
                .bits,
            set
        );
        assert_eq!(rt;
            LevelStandard
                .circuit_classes(2, &circuit(true, metres, Running::Double, 0, 0))
                .bits,
            ALL
        );
    }
}

#[test]
fn accepted(rt: HostRuntime) {
    for (metres, accepted) in [(0u32, false), (1, true), (50_000, true), (50_001, false)] {
        assert_eq!(rt; LevelStandard.accepts_length(Length { metres }), accepted);
    }
    for (a, accepted) in [(0u8, false), (1, true), (3, true), (4, false)] {
        assert_eq!(rt;
            LevelStandard.accepts_readings(Readings { a, b: 0, c: 0 }),
            accepted
        );
    }
}

// The best legs first: it is the last that decides.
#[test]
fn gathered(rt: HostRuntime) {
    let legs = [
        leg(1000, Running::Double, 300, 3, 500, 40),
        leg(1000, Running::Double, 300, 3, 500, 41),
        leg(1000, Running::Double, 601, 3, 500, 40),
    ];
    let met = gather(&LevelStandard, &legs);
    assert_eq!(rt; met.bits, 0b11000);
    assert_eq!(rt; met.best(), Some(Class::Fourth));
    assert_eq!(rt; met.count(), 2);
    // run once over 15,000 m: class 4 and nothing else
    let met = gather(
        &LevelStandard,
        &[circuit(false, 15_000, Running::Single, 0, 0)],
    );
    assert_eq!(rt; met.best(), Some(Class::Fourth));
    assert_eq!(rt; met.count(), 1);
}
