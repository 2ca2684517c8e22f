// Refusals in their order: in each row two neighbours apply, and the first is the answer.
use crate::said::{DONE, said};
use grading::judge::grade;
use listing::list::misses;
use quantities::angles::Angles;
use quantities::heights::Heights;
use standards::level::LevelStandard;
use standards::triangulation::TriangulationStandard;
use std::test::*;
use survey::book::Book;

const VALUE: u32 = 0x20002710;

const LENGTH: u32 = 0x300003E8;

const READINGS: u32 = 0x4037D028;

// 500,000.01 mm, and readings by no known method.
const TOO_HIGH: u32 = 0x22FAF081;

const NO_METHOD: u32 = 0x4007D028;

#[test]
fn enter(rt: HostRuntime) -> Result<(), Fail> {
    let mut book = Book::open(rt.alloc(), Heights, LevelStandard);
    let first = [0x10100402u32, VALUE, LENGTH, READINGS];
    assert_eq!(rt; said(book.enter(&first)), DONE);
    let rows: [(&[u32], (u8, u32)); 9] = [
        (&[0x10000402, VALUE, LENGTH], (1, 3)),
        (&[0x10000402, TOO_HIGH, LENGTH, READINGS], (2, 0)),
        (
            &[0x10200402, TOO_HIGH, LENGTH, READINGS, 0x52FAF081],
            (6, 1),
        ),
        (
            &[0x10200402, VALUE, 0x30000000, READINGS, 0x52FAF081],
            (6, 4),
        ),
        (&[0x10200402, VALUE, 0x30000000, NO_METHOD], (7, 2)),
        (&[0x10100402, VALUE, LENGTH, NO_METHOD], (7, 3)),
        (&first, (3, 0)),
        // the value on its limit, and past it
        (&[0x10200402, 0x22FAF080, LENGTH, READINGS], DONE),
        (&[0x10300402, TOO_HIGH, LENGTH, READINGS], (6, 1)),
    ];
    for (words, due) in rows {
        assert_eq!(rt; said(book.enter(words)), due);
    }
    Ok(())
}

#[test]
fn join(rt: HostRuntime) -> Result<(), Fail> {
    let mut book = Book::open(rt.alloc(), Heights, LevelStandard);
    assert_eq!(rt;
        said(book.enter(&[0x10100402, VALUE, LENGTH, READINGS])),
        DONE
    );
    let first = [0x60100000u32, 0x70000000, 0x80000001];
    assert_eq!(rt; said(book.join(rt.alloc(), &first)), DONE);
    let rows: [(&[u32], (u8, u32)); 6] = [
        (&[0x60100001, 0x70000000], (1, 2)),
        (&[0x60100001, 0x70000000, 0x80000001], (2, 0)),
        (&[0x60100000, 0x70000001, 0x80000001], (3, 0)),
        (&[0x60200000, 0x70000001, 0x80000009], (6, 1)),
        (&[0x60200000, 0x70000000, 0x80000009, 0x80000009], (4, 2)),
        (&[0x60200000, 0x70000000, 0x80000001, 0x80000001], (8, 3)),
    ];
    for (words, due) in rows {
        assert_eq!(rt; said(book.join(rt.alloc(), words)), due);
    }
    Ok(())
}

#[test]
fn chain_before_form(rt: HostRuntime) -> Result<(), Fail> {
    let mut book = Book::open(rt.alloc(), Angles, TriangulationStandard);
    for head in [0x10100402u32, 0x10200C04] {
        assert_eq!(rt;
            said(book.enter(&[head, 0x21499700, 0x30000000, 0x4100A014])),
            DONE
        );
    }
    let rows: [(&[u32], (u8, u32)); 2] = [
        (&[0x60100000, 0x73DCC500, 0x80000001, 0x80000002], (9, 3)),
        (&[0x60100000, 0x73DCC500, 0x80000001], (10, 0)),
    ];
    for (words, due) in rows {
        assert_eq!(rt; said(book.join(rt.alloc(), words)), due);
    }
    Ok(())
}

#[test]
fn strikes_and_misses(rt: HostRuntime) -> Result<(), Fail> {
    let mut book = Book::open(rt.alloc(), Heights, LevelStandard);
    let mut none = [0u32; 0];
    assert_eq!(rt; said(misses(&book, 0, &mut none)), (13, 0));
    assert_eq!(rt; said(misses(&book, 1, &mut none)), (11, 0));
    // too long a sight difference for any class
    assert_eq!(rt;
        said(book.enter(&[0x10100402, VALUE, LENGTH, 0x4037D065])),
        DONE
    );
    assert_eq!(rt; said(misses(&book, 1, &mut none)), (12, 1));
    assert_eq!(rt; said(grade(rt.alloc(), &book)), (12, 1));
    for circuit in [0x60300000u32, 0x60200000] {
        assert_eq!(rt;
            said(book.join(rt.alloc(), &[circuit, 0x70000000, 0x80000001])),
            DONE
        );
    }
    for (number, due) in [(0u32, (2u8, 0u32)), (129, (2, 0)), (2, (4, 0)), (1, (5, 2))] {
        assert_eq!(rt; said(book.strike_leg(number)), due);
    }
    for (number, due) in [(0u32, (2u8, 0u32)), (33, (2, 0)), (1, (4, 0)), (2, DONE)] {
        assert_eq!(rt; said(book.strike_circuit(number)), due);
    }
    assert_eq!(rt; said(book.strike_leg(1)), (5, 3));
    // the leg's sight difference, and the circuit's single running
    assert_eq!(rt; said(misses(&book, 1, &mut none)), (14, 2));
    Ok(())
}
