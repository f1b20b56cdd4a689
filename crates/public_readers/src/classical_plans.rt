//! Plans that are read and printed, with the steps and the places of faults worked out by hand.

use htn_base::{Fault, Text};
use plan_model::GroundAction;
use plan_text::{print, read};
use std::alloc::Global;
use std::process::Abort;
use text_forms::sexpr_text::ReadError;

fn is_printed(rt: &impl Abort, alloc: Global, source: &[u8], want: &[u8]) {
    assert!(rt; source.len() <= 16_777_216);
    match read(alloc, source, 2) {
        Ok(steps) => {
            let same = prints(alloc, steps.as_slice(), want);
            drop(steps);
            assert!(rt; same);
        }
        Err(_) => panic!(rt; "refused"),
    }
}

fn prints(alloc: Global, steps: &[GroundAction], want: &[u8]) -> bool {
    let mut text = Text::new(alloc);
    let printed = print(steps, &mut text).is_ok();
    printed && text.as_slice() == want
}

// The code and the offset of the fault.
fn fault_of(rt: &impl Abort, alloc: Global, source: &[u8]) -> (u16, u32) {
    assert!(rt; source.len() <= 16_777_216);
    match read(alloc, source, 2) {
        Ok(steps) => {
            drop(steps);
            panic!(rt; "read")
        }
        Err(ReadError::Bad(Fault { code, file, at })) => {
            assert!(rt; file == 2);
            (code, at)
        }
        Err(ReadError::Memory) => panic!(rt; "out of memory"),
    }
}

const PRINTED: &[(&[u8], &[u8])] = &[
    (b"", b""),
    (b" ; no step\n", b""),
    (b"(a)", b"(a)\n"),
    (b"(a b)(c)", b"(a b)\n(c)\n"),
    (
        b"; cost = 3 (unit cost)\n0: (HTN_START HTN_S1)\n1: (HTN_M_M HTN_S1)\n2: (A HTN_S1)\n",
        b"(htn_start htn_s1)\n(htn_m_m htn_s1)\n(a htn_s1)\n",
    ),
    (b"(and or) (= -) (not)", b"(and or)\n(= -)\n(not)\n"),
    (b"007:(1: 2:)", b"(1: 2:)\n"),
    (b"(go;to\n\ta )\r\n", b"(go a)\n"),
    (b"12:\n(x [y])", b"(x [y])\n"),
];

#[test]
fn plans_are_read_and_printed(rt: HostRuntime) {
    for (source, printed) in PRINTED {
        is_printed(&rt, rt.alloc(), source, printed);
        // What is printed is read back as it was.
        is_printed(&rt, rt.alloc(), printed, printed);
    }
}

const FAULTS: &[(&[u8], u16, u32)] = &[
    (b"(a)\"", 1, 3),
    (b"(a \n(b)", 2, 0),
    (b"(a))", 3, 3),
    (b"() )", 3, 3),
    (b"a", 8, 0),
    (b"(a) b", 8, 4),
    (b"()", 8, 1),
    (b"(?a)", 8, 1),
    (b"(:a)", 8, 1),
    (b"((a))", 8, 1),
    (b"(a ?b)", 8, 3),
    (b"(a b :c)", 8, 5),
    (b"(a (b))", 8, 3),
    (b"0: 1: (a)", 8, 3),
    (b": (a)", 8, 0),
    (b"1a: (a)", 8, 0),
    (b"(a)\n12: ; no step", 8, 4),
    (b"(a)\n0:\n(b)\n1: x", 8, 14),
];

#[test]
fn faults_of_plans(rt: HostRuntime) {
    for (source, code, at) in FAULTS {
        assert!(rt;
            fault_of(&rt, rt.alloc(), source) == (*code, *at),
            "at {at}"
        );
    }
}
