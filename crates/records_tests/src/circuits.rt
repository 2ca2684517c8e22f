// Circuits: three to eighteen words in their order, each number on its limits, and each bit that is to be zero.
use crate::refusals::{Said, layout, range, said};
use records::circuit::{Circuit, Head, LegUse, Sense};
use records::refusal::{Fault, Refusal};
use std::process::Abort;
use std::test::Fail;

const HEAD: u32 = 0x60100000;

const DUE: u32 = 0x70000000;

const USE: u32 = 0x80000001;

// The refusal that is due, or the words read and written again.
fn decodes(rt: &(impl Abort + AllocGlobal), words: &[u32], due: Option<Said>) -> Result<(), Fail> {
    match Circuit::decode(rt.alloc(), words) {
        Ok(circuit) => {
            assert_eq!(rt; None, due);
            let again = circuit.encode(rt.alloc())?;
            assert_eq!(rt; again.as_slice(), words);
            Ok(())
        }
        Err(Fault::Refused(refusal)) => {
            assert_eq!(rt; Some(said(&refusal)), due);
            Ok(())
        },
        Err(Fault::Memory) => Err(Fail::new("no memory")),
    }
}

#[test]
fn layouts(rt: HostRuntime) -> Result<(), Fail> {
    // sixteen uses and seventeen
    let mut full = [USE; 18];
    full[0] = HEAD;
    full[1] = DUE;
    let mut surplus = [USE; 19];
    surplus[0] = HEAD;
    surplus[1] = DUE;
    let rows: [(&[u32], Option<Said>); 9] = [
        (&[], layout(0)),
        (&[HEAD, DUE], layout(2)),
        (&[HEAD, DUE, USE], None),
        (&full, None),
        (&surplus, layout(18)),
        // the due sum left out, two words exchanged, another kind among the uses
        (&[HEAD, USE, USE], layout(1)),
        (&[DUE, HEAD, USE], layout(0)),
        (&[HEAD, DUE, USE, 0x90000001, USE], layout(3)),
        // the layout is tried before the ranges
        (&[0x60000000, DUE, 0x80000000, DUE], layout(3)),
    ];
    for (words, due) in rows {
        decodes(&rt, words, due)?;
    }
    Ok(())
}

#[test]
fn ranges(rt: HostRuntime) -> Result<(), Fail> {
    let heads = [
        (0x60000000u32, range(0)),
        (0x60100000, None),
        (0x62000000, None),
        (0x62100000, range(0)),
        (0x6FF00000, range(0)),
    ];
    for (head, due) in heads {
        decodes(&rt, &[head, DUE, USE], due)?;
    }
    let uses = [
        (0x80000000u32, range(3)),
        (0x80000001, None),
        (0x80000080, None),
        (0x80000081, range(3)),
        (0x800000FF, range(3)),
        (0x88000000, range(3)),
        (0x88000080, None),
    ];
    for (named, due) in uses {
        decodes(&rt, &[HEAD, DUE, USE, named], due)?;
    }
    decodes(&rt, &[HEAD, 0x7FFFFFFF, USE], None)?;
    // the least index is refused
    decodes(&rt, &[HEAD, DUE, USE, 0x80000000, 0x80000000], range(3))?;
    decodes(&rt, &[0x60000000, DUE, 0x80000000], range(0))
}

#[test]
fn zero_bits(rt: HostRuntime) -> Result<(), Fail> {
    for bit in 0..20u32 {
        decodes(&rt, &[HEAD | 1 << bit, DUE, USE], range(0))?;
    }
    for bit in 8..27u32 {
        decodes(&rt, &[HEAD, DUE, USE, USE | 1 << bit], range(3))?;
    }
    Ok(())
}

// The head of a circuit whose words are gone.
fn kept_head() -> Result<Head, Refusal> {
    let words = [0x62000000, 0x73DCC500, 0x80000080, 0x88000002];
    Circuit::head(&words)
}

// A head is kept without the words, and a view says the circuit that is made of it.
#[test]
fn heads(rt: HostRuntime) -> Result<(), Fail> {
    let head = kept_head()?;
    assert_eq!(rt; (head.number.value, head.due.bits), (32u16, 64_800_000u32));
    let words = [0x62000000, 0x73DCC500, 0x80000080, 0x88000002];
    let view = Circuit::view(&words)?;
    assert_eq!(rt;
        (view.head.number.value, view.head.due.bits),
        (32u16, 64_800_000u32)
    );
    assert_eq!(rt; view.uses.words, &words[2..]);
    let circuit = Circuit::of(rt.alloc(), &view)?;
    let again = circuit.encode(rt.alloc())?;
    assert_eq!(rt; again.as_slice(), words.as_slice());
    Ok(())
}

#[test]
fn fields(rt: HostRuntime) -> Result<(), Fail> {
    let circuit = Circuit::decode(
        rt.alloc(),
        &[0x62000000, 0x73DCC500, 0x80000080, 0x88000002],
    )?;
    assert_eq!(rt; circuit.number.value, 32);
    assert_eq!(rt; circuit.due.bits, 64_800_000);
    let named = |leg_use: &LegUse| (leg_use.leg.value, leg_use.sense == Sense::Against);
    let named: Vec<(u16, bool)> = circuit.legs.iter().map(named).collect(rt.alloc())?;
    assert_eq!(rt;
        named.as_slice(),
        [(128u16, false), (2u16, true)].as_slice()
    );
    Ok(())
}
