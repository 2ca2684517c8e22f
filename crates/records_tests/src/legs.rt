// Legs: four or five words in their order, and each number on its limits.
use crate::refusals::{Said, layout, range, said};
use records::leg::Leg;
use records::word::Payload;
use std::process::Abort;
use std::test::Fail;

// Leg 1, node 1 to 2, 10,000, 1,000 m, readings 3, 500, 40, back -10,000.
const HEAD: u32 = 0x10100402;

const VALUE: u32 = 0x20002710;

const LENGTH: u32 = 0x300003E8;

const READINGS: u32 = 0x4037D028;

const BACK: u32 = 0x5FFFD8F0;

// The refusal that is due, or the words read and written again. That of circuits allocates, and so has a fault to tell apart; what is
// left alike is the comparison.
fn decodes(rt: &(impl Abort + AllocGlobal), words: &[u32], due: Option<Said>) -> Result<(), Fail> {
    match Leg::decode(words) {
        Ok(leg) => {
            assert_eq!(rt; None, due);
            let again = leg.encode(rt.alloc())?;
            assert_eq!(rt; again.as_slice(), words);
            Ok(())
        }
        Err(refusal) => {
            assert_eq!(rt; Some(said(&refusal)), due);
            Ok(())
        },
    }
}

#[test]
fn layouts(rt: HostRuntime) -> Result<(), Fail> {
    let whole = [HEAD, VALUE, LENGTH, READINGS, BACK];
    let rows: [(&[u32], Option<Said>); 9] = [
        (&whole, None),
        (&[HEAD, VALUE, LENGTH, READINGS], None),
        (&[], layout(0)),
        (&[HEAD, VALUE, LENGTH], layout(3)),
        (&[HEAD, VALUE, LENGTH, READINGS, BACK, BACK], layout(5)),
        // the value left out, two words exchanged, a leg's words under a circuit's head
        (&[HEAD, LENGTH, READINGS, BACK], layout(1)),
        (&[HEAD, VALUE, READINGS, LENGTH, BACK], layout(2)),
        (&[0x60100000, VALUE, LENGTH, READINGS], layout(0)),
        // the layout is tried before the ranges
        (&[0x10000402, VALUE, LENGTH], layout(3)),
    ];
    for (words, due) in rows {
        decodes(&rt, words, due)?;
    }
    // kinds 0 and 15 at each index, which is the place that is due
    for i in 0..5usize {
        for other in [0x00000001u32, 0xF0000001] {
            let mut words = whole;
            words[i] = other;
            decodes(&rt, &words, layout(i as u32))?;
        }
    }
    Ok(())
}

#[test]
fn ranges(rt: HostRuntime) -> Result<(), Fail> {
    let heads = [
        // number 0, 1, 128, 129
        (0x10000402u32, range(0)),
        (0x10100402, None),
        (0x18000402, None),
        (0x18100402, range(0)),
        // start 0, 1,023; end 0, 1,023
        (0x10100002, range(0)),
        (0x101FFC02, None),
        (0x10100400, range(0)),
        (0x101007FF, None),
        // equal nodes
        (0x10100401, range(0)),
        (0x101FFFFF, range(0)),
    ];
    for (head, due) in heads {
        decodes(&rt, &[head, VALUE, LENGTH, READINGS, BACK], due)?;
    }
    // every other field takes all its bits
    for bits in [0u32, 0x0FFFFFFF] {
        let words = [
            HEAD,
            0x20000000 | bits,
            0x30000000 | bits,
            0x40000000 | bits,
            0x50000000 | bits,
        ];
        decodes(&rt, &words, None)?;
    }
    Ok(())
}

#[test]
fn fields(rt: HostRuntime) -> Result<(), Fail> {
    let leg = Leg::decode(&[HEAD, VALUE, LENGTH, READINGS, BACK])?;
    assert_eq!(rt;
        (leg.number.value, leg.start.value, leg.end.value),
        (1u16, 1u16, 2u16)
    );
    assert_eq!(rt; leg.value.signed(), 10_000);
    assert_eq!(rt; leg.length.metres, 1_000);
    assert_eq!(rt;
        (leg.readings.a, leg.readings.b, leg.readings.c),
        (3u8, 500u16, 40u16)
    );
    match leg.back {
        Some(back) => assert_eq!(rt; back.signed(), -10_000),
        None => return Err(Fail::new("no back value")),
    }
    let signed = [
        (0x07FFFFFFu32, 134_217_727i32),
        (0x08000000, -134_217_728),
        (0x0FFFFFFF, -1),
    ];
    for (word, number) in signed {
        assert_eq!(rt; Payload::of_word(word).signed(), number);
    }
    Ok(())
}
