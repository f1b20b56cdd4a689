//! Hierarchical plans that are read and printed, and the fault that each broken one has.

use hplan_text::{HPlan, print, read};
use htn_base::{Fault, Text};
use std::alloc::Global;
use std::process::Abort;
use text_forms::sexpr_text::ReadError;
use text_forms::sheets::Sheet;

// The code and the offset of the fault, if there is one.
fn fault_of(rt: &impl Abort, alloc: Global, source: &[u8]) -> Option<(u16, u32)> {
    assert!(rt; source.len() <= 16_777_216);
    match read(alloc, source, 2) {
        Ok(plan) => {
            drop(plan);
            None
        }
        Err(ReadError::Bad(Fault { code, file, at })) => {
            assert!(rt; file == 2);
            Some((code, at))
        }
        Err(ReadError::Memory) => panic!(rt; "out of memory"),
    }
}

fn prints(alloc: Global, plan: &HPlan, want: &[u8]) -> bool {
    let mut text = Text::new(alloc);
    let mut sheet = Sheet::new(&mut text, u64::MAX);
    print(plan, &mut sheet);
    sheet.complete().is_ok() && text.as_slice() == want
}

// Whether the text is read, and what is printed of it is what is wanted.
fn is_printed(rt: &impl Abort, alloc: Global, source: &[u8], want: &[u8]) -> bool {
    assert!(rt; source.len() <= 16_777_216);
    match read(alloc, source, 2) {
        Ok(plan) => {
            let same = prints(alloc, &plan, want);
            drop(plan);
            same
        }
        Err(_) => false,
    }
}

// Texts as another program prints them.
const PRINTED: &[&[u8]] = &[
    b"==>\nroot\n<==\n",
    b"==>\n0 act0\nroot 0\n<==\n",
    b"==>\n0 act1\nroot 0\n<==\n",
    b"==>\n0 act2\nroot 0\n<==\n",
    b"==>\n0 act0 o1\nroot 0\n<==\n",
    b"==>\n0 act0 o2\nroot 0\n<==\n",
    b"==>\n0 act0\n1 act0\nroot 0 1\n<==\n",
    b"==>\n0 act0\n1 act1\nroot 1 0\n<==\n",
    b"==>\n0 act0 o2\n1 act0 o2\nroot 0 1\n<==\n",
    b"==>\n0 act0\n1 act0\n2 act0\nroot 0 1 2\n<==\n",
    b"==>\n0 act0\n1 act0\nroot 0 1 2\n2 t2 -> m3\n<==\n",
    b"==>\n0 act0\n1 act1\nroot 2\n2 t1 -> m1 0 1\n<==\n",
    b"==>\n0 act1\n1 act0\n2 act1\nroot 3\n3 t1 -> m1 0 1 2\n<==\n",
];

#[test]
fn printed_plans_are_read_and_printed_again(rt: HostRuntime) {
    for source in PRINTED {
        let same = is_printed(&rt, rt.alloc(), source, source);
        assert!(rt; same, "of {} bytes", source.len());
    }
}

// Texts, and what is printed of them, worked out by hand.
const READ: &[(&[u8], &[u8])] = &[
    (b"==>\nroot\n<==", b"==>\nroot\n<==\n"),
    (
        b"==>\r\n2 T O2 -> M 007 \r\n007\tGo  O1\r\nROOT 2\r\n==<\r\n(",
        b"==>\n7 go o1\nroot 2\n2 t o2 -> m 7\n<==\n",
    ),
];

#[test]
fn hierarchical_plans_are_read_and_printed(rt: HostRuntime) {
    for (source, printed) in READ {
        let same = is_printed(&rt, rt.alloc(), source, printed);
        assert!(rt; same, "of {} bytes", source.len());
    }
}

// The least fault of each text, worked out by hand in the first rows.
const FAULTS: &[(&[u8], u16, u32)] = &[
    (b"==>\n0\nroot 0\n<==\n", 31, 4),
    (b"==>\n0 a\n0 a\nroot 0\n<==\n", 32, 8),
    (b"==>\n0 a\nroot 7\n<==\n", 33, 13),
    (b"==>\n0 a\nroot 0 0\n<==\n", 34, 15),
    (b"==>\n0 a\n<==\n", 35, 8),
    (b"==>\n0 a\nroot\n<==\n", 36, 4),
    (b"==>\n18446744073709551616 a\nroot\n<==\n", 31, 4),
    (b"==>\n0 a\x7f\nroot 0\n<==\n", 31, 4),
    (b"==>\nroot\n0 -> m\n<==\n", 31, 9),
    (b"==>\nroot\n0 a ->\n<==\n", 31, 9),
    (b"==>\nroot\n0 a -> m -> 1\n<==\n", 31, 9),
    (b"==>\n0 a\nroot 00 0\n<==\n", 34, 16),
    (b"==>\nroot\n1 a -> m 1\n<==\n", 36, 9),
    // by another program from here on
    (b"<==\n", 30, 4),
    (b"<==\n\n", 30, 5),
    (b"t1 <==", 30, 6),
    (b"\nroot\n<==\n", 30, 10),
    (b"==>\x1b\nroot\n", 30, 10),
    (b"==>\nroot\n\r\n", 30, 11),
    (b"-1\nroot\r\n<==\r\n", 30, 14),
    (b"==>\nroot\n<==\x03\n", 30, 14),
    (b"root\ns==\nroot ", 30, 14),
    (b"root\n<==\nroot\n==>\n", 30, 18),
    (b"99999999999999999999\n1x <==\n", 30, 28),
    (b"99999999999999999999\nroot\n<==\n", 30, 30),
    (b"==>\nroot\nroot\n(\n99999999999999999999", 30, 36),
    (
        b"==<\n0 ACT1\n4 ACT1\n7 T1 -> M3 0 4\nROOT 7\n==[>\n",
        30,
        45,
    ),
    (
        b"-> ==>\r\n0 act1 o1\r\nroot 0\r\n<== 1 t2 -> m2\r\n==<",
        30,
        46,
    ),
    (b"\n==>\n1x\n<==\n", 31, 5),
    (b"==>\n\r root\n<==\n", 31, 4),
    (b"==>\n( root\n<==\n(", 31, 4),
    (b"==>\n==>\nroot\n<==\n", 31, 4),
    (b"==>\r\n\n \nroot\r\n1x\n \n<==\r\n\n \n", 31, 14),
    (b"==>\n0\tACT1\n1\tACT1\nRO\nOT\t0\t1\n<==", 31, 18),
    (b"==>\n3 ACT0 O1\nROOT 3\nROOT 3\n<==", 31, 21),
    (b"==>\r\n002 act0\r\n\nroot -1 002\r\n<==\r\n", 31, 16),
    (
        b"==>\n3 act0\no1 2 act0\nroot 3 6\n6 t2 -> m2 2\n<==",
        31,
        11,
    ),
    (
        b"==>\n000 root 6\n==> 000 act0 o1\n6 act0 o1\nroot 000 6\n==<\n",
        31,
        15,
    ),
    (
        b"==>\n==>\n18446744073709551615 t1 -> m1\nroot 18446744073709551615\n<==\n==>",
        31,
        4,
    ),
    (
        b"==>\n3 t2 -> m2\n1 act0\n2 act0\n4 t1 -> m1 2 1 0\nroot 3 4\nroot 3 4\n0 act0\n<==",
        31,
        55,
    ),
    (
        b"==>\nroot 18446744073709551615 o1 18446744073709551614\n18446744073709551614 t1 -> m3\n<==\n<==\n",
        31,
        4,
    ),
    (
        b"==>\n007 act1\n9 act1\n12 act1\n018 act0\n==> 013 act1\n10 act0\nroot 15 013 10\n15 t1 -> m1 007 9 12 018\n<==",
        31,
        37,
    ),
    (
        b"==>\n26 act0\nroot 26 1 0\n6 act0\n16 act0\n6 act0\n003 act0\n010 act0\nroot 26 1 0\n1 t2 -> m2 010 12 6\n0 t2 -> m2 003 24 16\n12 t1 -> m1\n24 t1 -> m1\n==<",
        31,
        64,
    ),
    (
        b"==>\n0 act1 o1\n1 act1 o2\n1 act1 o2\nroot 0 1\n==<",
        32,
        24,
    ),
    (
        b"==>\r\n0 act0\r\nroot 1\r\n0 <== act0\r\n1 t2 -> m5 0\r\n<==",
        32,
        21,
    ),
    (
        b"==>\n0  act0  o1\nroot  0  1\n1  t1  ->  m1\n1  t1  ->  m1\n==<\n",
        32,
        41,
    ),
    (
        b"==>\n1 act0\n0 \t act1\n2 \t act1\nroot \t 0 \t 1 \t 2\n1 \t act0\n<==\n",
        32,
        46,
    ),
    (
        b"==>\n7 act0 o1\n7 act0 o1\n005 act0 o1\n9 act0 o1\nroot 7 9 005\n<==",
        32,
        14,
    ),
    (
        b"==>\n1 act0\n0 act0\n2 t1 o1 -> m1 0\nroot 2 1\n2 t1 o1 -> m1 0\n<==",
        32,
        43,
    ),
    (
        b"==>\nroot 1 0 2\n0 act0 o1\n0 act0 o1\n1 t1 o2 -> m1\n2 t1 o2 -> m1\n<==\n",
        32,
        25,
    ),
    (
        b"==>\n5\tact0\n004\tt1\to1\t->\tm1\t007\n007\tact0\n004\tt1\to1\t->\tm1\t007\nroot\t004\t5\n<==\n",
        32,
        40,
    ),
    (
        b"==>\n0 act0\n1 act0\n4 t1 -> m2 2 3 1\n2 act1\n3 act0\nroot 0 4\n4 t1 -> m2 2 3 1\n<==\n",
        32,
        58,
    ),
    (
        b"==>\n3 t1 -> m1 0 1\n0 act2 o2 o2\n1 act3 o2\n2 act1 o1\nroot 3 2\n3 t1 -> m1 0 1\n<==\n",
        32,
        61,
    ),
    (
        b"==>\r\n4 T1 -> M1 1 2 3\r\n1 ACT0\r\n1 ACT0\r\n2 ACT1\r\n3 ACT0\r\n0 ACT0\r\nROOT 0 4\r\n1 ACT0\r\n==<\nROOT 0 4\r",
        32,
        31,
    ),
    (
        b"==>\r\n10 act0\r\n12 act1\r\n1 act0\r\n1 act0\r\n008 act0\r\n3 act1\r\nroot 10 14\r\n14 t1 -> m1 12 1 008 3\r\n<==",
        32,
        31,
    ),
    (
        b"==>\n0 act0 o1\n0 act0 o1\n1 act0 o1\n2 t2 -> m2 3\n3 t1 -> m1 0\n4 t2 -> m2 5\nroot 2 4\n5 t1 -> m1 1\n==<",
        32,
        14,
    ),
    (
        b"==>\r\n4 t1 -> m1 2 3\r\n2 act0 o1\r\n4 t1 -> m1 2 3\r\nroot 0 4 1 0\r\n3 act1 oN\r\n1 act1 o1\r\n0 act0 o1\r\n<==",
        32,
        32,
    ),
    (
        b"==>\n0 act1\n1 act1\n2 act0\n4 act0\n3 act1\n5 act0\n4 act0\n6 act1\n7 t1 -> m1 0 1 2 3\n8 t1 -> m4 4 5 6\nroot 7 8\n<==\n",
        32,
        46,
    ),
    (b"==>\r\nroot 002\r\n<==", 33, 10),
    (b"==>\r\nroot 3\r\n<==\r\n", 33, 10),
    (b"==>\n0 act1 o2\nroot 0 1\n<==", 33, 21),
    (b"==>\r\n1 act1\r\nroot 0 1\r\n==<\r\n", 33, 18),
    (b"000 act0\r\n==>\r\nroot 000\r\n==<\r\n", 33, 20),
    (b"==>\nroot 18446744073709551615\n==<", 33, 9),
    (b"==>\r\nROOT 1 0\r\n<==\n1 T2 O1 -> M2\r", 33, 10),
    (b"==>\n0 act1\n1 act1\n2 act1\nroot 3\n==<", 33, 30),
    (b"==>\n0  act0\n2  act0\nroot  0  1  2\n==<\n", 33, 29),
    (b"==>\r\n002  act0  o1\r\nroot  006  002\r\n==<", 33, 26),
    (
        b"==>\r\n3 act1\r\n1 act0\r\n2 act0\r\nroot 0 4\r\n4 t1 -> m3 1 2 3\r\n<==",
        33,
        34,
    ),
    (
        b"==>\r\n3  t1  ->  m1  0  1\r\n2  act0\r\nroot  2  3\r\n1  act0\r\n<==\r\n",
        33,
        20,
    ),
    (
        b"==>\r\n0 act1\r\n5 act2\r\nroot 2\r\n2 t3 -> m3 1 0 3\r\n3 t1 -> m1\r\n==<",
        33,
        40,
    ),
    (
        b"==>\n1 15 act0\n014 act0\n3 act0\n4 act0\nroot 014 000\n000 t1 -> m1 4 3 15\n<==\n",
        33,
        67,
    ),
    (
        b"==>\n0 act0\n1 act0\n3 act0\n4 act0\nroot 5\n5 t2 -> m2 6 4\n6 t1 -> m1 1 0 3 2\n<==",
        33,
        71,
    ),
    (
        b"==>\n1 act0 o2 o2\n5 act0 o2 o2\nroot 6 7\n4 act0 o3 o3\n2 act0 o1 o1\n7 t2 o2 -> m2 3 4 5\n6 t2 o1 -> m2 0 1 2\n3 act0 o2 o3\n==<",
        33,
        99,
    ),
    (
        b"==>\n0 \t act0 \t o2\n2 \t act0 \t o2\nroot \t 2 0 \t 2\n==<",
        34,
        45,
    ),
    (b"==>\n<==\n", 35, 4),
    (b"==>\n\n<==", 35, 5),
    (b"==>\n\n==<", 35, 5),
    (b"==>\n<==\n\n", 35, 4),
    (b"==>\n<==\n2", 35, 4),
    (b"==>\n\n<==\no1", 35, 5),
    (b"==>\n\n<==\nroot", 35, 5),
    (b"root\n==>\n<==\n", 35, 9),
    (b"==>\n0 Oact0 o1\n<==\nroot 0\n<==\n", 35, 15),
    (b"==>\n0 act1 o1\n1 act1 o1\n<==\nroot 0 1", 35, 24),
    (
        b"==>\r\n0 act0\r\n1 act0\r\n2 act0\r\n3 act0\r\n4 t1 -> m1 0 1 2\r\n4 3\r\n<==",
        35,
        60,
    ),
    (
        b"==>\n2 act0\n4 act0\n0 act0\n1 act0\n5 act0\n3 act0\n6 t1 -> m4 5 1 2 4\n==<",
        35,
        65,
    ),
    (
        b"==>\n0 act0\n1 act0\n2 act1\n3 act0\n4 act1\n5 act0\n8 t1 -> m1 4 5\n0 root 6\n7 t1 -> m1 2 3\n<==",
        35,
        85,
    ),
    (b"==>\r\n0 \t act0 \t o1 \t o2\r\nroot \t\n<==\r\n", 36, 5),
    (
        b"==>\n0 act0 o1 o1\n1 act0 o1 o1\n2 act0 o1 o1\nroot 4\n3 t2 o1 -> m2 0\n4 t1 o1 -> m1 1 2\n<==",
        36,
        4,
    ),
    (
        b"==>\n4 act0\n3 act0\n5 act0\n0 act0\n1 act0\n2 act0\nroot 7 6\n6 t1 -> m1 4 0 1\n7 t1 -> 5 3 2\n==<",
        36,
        18,
    ),
    (
        b"==>\n18446744073709551615 act0 o1\n18446744073709551614 act0 o2\nroot 18446744073709551614\n<==\n",
        36,
        4,
    ),
];

#[test]
fn faults_of_hierarchical_plans(rt: HostRuntime) {
    for (source, code, at) in FAULTS {
        let told = fault_of(&rt, rt.alloc(), source);
        assert!(rt;
            told == Some((*code, *at)),
            "at {at}, of {} bytes",
            source.len()
        );
    }
}
