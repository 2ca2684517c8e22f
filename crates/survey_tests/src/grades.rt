// Grades on their limits, and the words of misses. A set is written as its five bits, class 1 lowest.
use crate::said::{DONE, said};
use grading::findings::circuit_finding;
use grading::judge::grade;
use listing::list::misses;
use quantities::angles::Angles;
use quantities::heights::Heights;
use quantities::quantity::Quantity;
use standards::level::LevelStandard;
use standards::standard::Standard;
use standards::triangulation::TriangulationStandard;
use std::process::Abort;
use std::test::*;
use survey::book::Book;

// Legs entered and circuits joined, all of them accepted.
fn filled<Q: Quantity + Drop, S: Standard + Drop>(
    rt: &(impl Abort + AllocGlobal),
    book: &mut Book<Q, S>,
    legs: &[&[u32]],
    circuits: &[&[u32]],
) -> Result<(), Fail> {
    for words in legs {
        assert_eq!(rt; said(book.enter(words)), DONE);
    }
    for words in circuits {
        assert_eq!(rt; said(book.join(rt.alloc(), words)), DONE);
    }
    Ok(())
}

// The set of classes met, and what misses leaves at a class in so many words that hold 7.
fn judged<Q: Quantity, S: Standard, const N: usize>(
    rt: &(impl Abort + AllocGlobal),
    book: &Book<Q, S>,
    set: u8,
    class: u8,
    due: [u32; N],
) -> Result<(), Fail> {
    match grade(rt.alloc(), book) {
        Ok(graded) => assert_eq!(rt; graded.met.bits, set),
        Err(_) => return Err(Fail::new("no grade")),
    }
    let mut written = [7u32; N];
    assert!(rt; misses(book, class, &mut written).is_ok());
    assert_eq!(rt; written, due);
    Ok(())
}

// The set of classes of one leg alone in an open circuit, and what misses writes at class 1 into two words that hold 7.
fn alone(
    rt: &(impl Abort + AllocGlobal),
    words: &[u32],
    set: u8,
    due: [u32; 2],
) -> Result<(), Fail> {
    let mut book = Book::open(rt.alloc(), Heights, LevelStandard);
    filled(
        rt,
        &mut book,
        &[words],
        &[&[0x60100000, 0x70000000, 0x80000001]],
    )?;
    judged(rt, &book, set, 1, due)
}

#[test]
fn legs_alone(rt: HostRuntime) -> Result<(), Fail> {
    let rows: [(&[u32], u8, [u32; 2]); 3] = [
        (
            &[0x10100402, 0x20002710, 0x300003E8, 0x4037D028, 0x5FFFD8F0],
            0b11111,
            [7, 7],
        ),
        (
            &[0x10100402, 0x20002710, 0x300003E8, 0x4037D029, 0x5FFFD8F0],
            0b11110,
            [0xC1103001, 7],
        ),
        // 15,000 m run once
        (
            &[0x10100402, 0x20002710, 0x30003A98, 0x4037D028],
            0b01000,
            [0xC1203001, 7],
        ),
    ];
    for (words, set, due) in rows {
        alone(&rt, words, set, due)?;
    }
    Ok(())
}

// One leg alone in an open circuit: what it has after its head, the set, and the misses at a class.
#[test]
fn legs_on_the_limits(rt: HostRuntime) -> Result<(), Fail> {
    let rows: [(&[u32], u8, u8, [u32; 3]); 9] = [
        // 1,000 m with a misclosure of 3.00 mm, and of 3.01 mm
        (&[0x300003E8, 0x4037D028, 0x5FFFDA1C], 0b11111, 1, [7, 7, 7]),
        (
            &[0x300003E8, 0x4037D028, 0x5FFFDA1D],
            0b11110,
            1,
            [0xC1104001, 0xC1202001, 7],
        ),
        // a sight difference of 40 dm, and of 41 dm
        (&[0x300003E8, 0x4037D028, 0x5FFFD8F0], 0b11111, 1, [7, 7, 7]),
        (
            &[0x300003E8, 0x4037D029, 0x5FFFD8F0],
            0b11110,
            1,
            [0xC1103001, 7, 7],
        ),
        // run once over 9,999 m, 10,000 m, 15,000 m, 24,999 m and 25,000 m
        (&[0x3000270F, 0x4037D028], 0b11000, 5, [7, 7, 7]),
        (&[0x30002710, 0x4037D028], 0b01000, 5, [0xC5203001, 7, 7]),
        (&[0x30003A98, 0x4037D028], 0b01000, 4, [7, 7, 7]),
        (&[0x300061A7, 0x4037D028], 0b01000, 4, [7, 7, 7]),
        (&[0x300061A8, 0x4037D028], 0, 4, [0xC4203001, 7, 7]),
    ];
    for (rest, set, class, due) in rows {
        let mut leg = [0x10100402u32, 0x20002710].to_vec(rt.alloc())?;
        leg.extend_from_slice(rest)?;
        let mut book = Book::open(rt.alloc(), Heights, LevelStandard);
        filled(
            &rt,
            &mut book,
            &[leg.as_slice()],
            &[&[0x60100000, 0x70000000, 0x80000001]],
        )?;
        judged(&rt, &book, set, class, due)?;
    }
    Ok(())
}

// A closed level circuit of 4,000 m, its closure 16.00 mm of doubled heights and one hundredth more.
#[test]
fn level_closure(rt: HostRuntime) -> Result<(), Fail> {
    for (value, set, due) in [
        (0x20002A30u32, 0b11111u8, [7u32, 7, 7]),
        (0x20002A31, 0b11110, [0xC1201001, 7, 7]),
    ] {
        let mut book = Book::open(rt.alloc(), Heights, LevelStandard);
        let up = [0x10100402, value, 0x300007D0, 0x4037D028, 0x5FFFD5D0];
        let down = [0x10200801, 0x2FFFD8F0, 0x300007D0, 0x4037D028, 0x50002710];
        filled(
            &rt,
            &mut book,
            &[&up, &down],
            &[&[0x60100000, 0x70000000, 0x80000001, 0x80000002]],
        )?;
        judged(&rt, &book, set, 1, due)?;
    }
    Ok(())
}

// A triangle whose sum is one below half a circle: its closure lies just under a full circle, and is small.
#[test]
fn triangle(rt: HostRuntime) -> Result<(), Fail> {
    let mut book = Book::open(rt.alloc(), Angles, TriangulationStandard);
    for (head, value) in [
        (0x10100402u32, 0x214996FFu32),
        (0x10200803, 0x21499700),
        (0x10300C01, 0x21499700),
    ] {
        assert_eq!(rt;
            said(book.enter(&[head, value, 0x30000000, 0x4100A014])),
            DONE
        );
    }
    let words = [0x60100000, 0x73DCC500, 0x80000001, 0x80000002, 0x80000003];
    assert_eq!(rt; said(book.join(rt.alloc(), &words)), DONE);
    match grade(rt.alloc(), &book) {
        Ok(graded) => {
            assert_eq!(rt; graded.met.bits, 0b11111);
            Ok(())
        },
        Err(_) => {
            assert_eq!(rt; 0u8, 1);
            Ok(())
        },
    }
}

// Triangles of two angles of 60 degrees and a third: the sizes of their closures, the set, and the misses at a class. The first row has
// one whose sum is 0.01 seconds below half a circle: its closure lies just under a full circle, and is small.
#[test]
fn triangles(rt: HostRuntime) -> Result<(), Fail> {
    let rows: [(&[(u32, u64)], u8, u8, [u32; 3]); 5] = [
        (&[(0x214996FF, 1)], 0b11111, 1, [7, 7, 7]),
        // just over half a circle is below zero
        (
            &[(0x25265C01, 64_799_999)],
            0,
            5,
            [0xC5201001, 0xC5301000, 7],
        ),
        // 3.01 seconds meet 3, 4 and 5 as a closure, and 5 as an average
        (
            &[(0x2149982D, 301)],
            0b10000,
            2,
            [0xC2201001, 0xC2301000, 7],
        ),
        (&[(0x2149982D, 301)], 0b10000, 3, [0xC3301000, 7, 7]),
        // 1.00 and 1.01 seconds
        (
            &[(0x21499764, 100), (0x21499765, 101)],
            0b11110,
            1,
            [0xC1301000, 7, 7],
        ),
    ];
    for (thirds, set, class, due) in rows {
        let mut book = Book::open(rt.alloc(), Angles, TriangulationStandard);
        for (index, (third, size)) in thirds.iter().enumerate() {
            assert!(rt; index < 2);
            add_triangle(&rt, &mut book, index as u32, *third)?;
            match circuit_finding(&book, index as u16 + 1) {
                Some(finding) => assert_eq!(rt; finding.closure, *size),
                None => return Err(Fail::new("no circuit")),
            }
        }
        judged(&rt, &book, set, class, due)?;
    }
    Ok(())
}

fn add_triangle(
    rt: &(impl Abort + AllocGlobal),
    book: &mut Book<Angles, TriangulationStandard>,
    index: u32,
    third: u32,
) -> Result<(), Fail> {
    assert!(rt; index < 2);
    let circuit = index + 1;
    let leg = 3 * index + 1;
    let number = leg << 20;
    filled(
        rt,
        book,
        &[
            &[0x10000402 + number, third, 0x30000000, 0x4100A014],
            &[0x10100803 + number, 0x21499700, 0x30000000, 0x4100A014],
            &[0x10200C01 + number, 0x21499700, 0x30000000, 0x4100A014],
        ],
        &[&[
            0x60000000 | circuit << 20,
            0x73DCC500,
            0x80000000 | leg,
            0x80000001 + leg,
            0x80000002 + leg,
        ]],
    )
}

// 128 legs one after another and 32 circuits: the first of 16 legs, 28 of 4, and 3 of one.
#[test]
fn full_book(rt: HostRuntime) -> Result<(), Fail> {
    let mut book = Book::open(rt.alloc(), Heights, LevelStandard);
    for n in 1..129u32 {
        let head = 0x10000000 | n << 20 | n << 10 | (n + 1);
        let words = [head, 0x20000000, 0x300003E8, 0x4037D028, 0x50000000];
        assert_eq!(rt; said(book.enter(&words)), DONE);
    }
    for circuit in 0..32u32 {
        let mut words = Vec::new(rt.alloc());
        words.push(0x60000000 | (circuit + 1) << 20)?;
        words.push(0x70000000)?;
        let (from, until) = match circuit {
            0 => (1, 17),
            1..=28 => (13 + 4 * circuit, 17 + 4 * circuit),
            _ => (circuit, circuit + 1),
        };
        for leg in from..until {
            words.push(0x80000000 | leg)?;
        }
        assert_eq!(rt; said(book.join(rt.alloc(), words.as_slice())), DONE);
    }
    judged(&rt, &book, 0b11111, 1, [7, 7, 7])
}
