//! Each call that may want memory is made once with ample memory, and its answer compared.

use htn_base::{
    Boxed, List, Memory, Name, NameTable, Text, esc, is_name, is_plain, is_reserved_in_any_case,
    number, slot_name, slot_number,
};
use std::alloc::Global;

fn pushes(list: &mut List<u32>) -> Result<(), Memory> {
    list.push(3)?;
    list.push(1)
}

fn puts(list: &mut List<u32>) -> bool {
    list.put(Ok(4)).is_ok() && list.put(Err(Memory)).is_err()
}

fn is_copied(alloc: Global, list: &List<u32>) -> bool {
    match list.copy(alloc) {
        Ok(copy) => {
            let same = copy == *list;
            drop(copy);
            same
        }
        Err(Memory) => false,
    }
}

fn boxed_and_lent(alloc: Global) -> Result<u8, Memory> {
    let boxed = Boxed::new(alloc, 7)?;
    Ok(*boxed.get())
}

fn is_list(alloc: Global, list: &mut List<u32>) -> bool {
    pushes(list).is_ok()
        && list.as_slice() == [3, 1].as_slice()
        && is_copied(alloc, list)
        && puts(list)
        && list.as_slice() == [3, 1, 4].as_slice()
}

#[test]
fn lists(rt: HostRuntime) {
    let mut list = List::new(rt.alloc());
    let right = is_list(rt.alloc(), &mut list);
    drop(list);
    assert!(rt; right && boxed_and_lent(rt.alloc()) == Ok(7));
}

fn grows(text: &mut Text) -> Result<(), Memory> {
    text.reserve(100)?;
    text.push(b'c')?;
    text.push_all(b"de")
}

fn text_is_copied(alloc: Global, text: &Text) -> bool {
    match text.copy(alloc) {
        Ok(copy) => {
            let same = copy == *text;
            drop(copy);
            same
        }
        Err(Memory) => false,
    }
}

#[test]
fn texts(rt: HostRuntime) {
    match Text::from_slice(rt.alloc(), b"ab") {
        Ok(mut text) => {
            let grown = grows(&mut text).is_ok() && text.as_slice() == b"abcde".as_slice();
            let copied = text_is_copied(rt.alloc(), &text);
            drop(text);
            assert!(rt; grown && copied);
        }
        Err(Memory) => panic!(rt; "out of memory"),
    }
}

fn interns(names: &mut NameTable) -> Result<bool, Memory> {
    let first = names.intern(b"Truck-1")?;
    let one = names.len() == 1;
    let second = names.intern(b"city")?;
    let two = names.len() == 2;
    let again = names.intern(b"TRUCK-1")?;
    let numbered = (first.number, second.number, again.number) == (0, 1, 0);
    let folded = names.text(first) == Some(b"truck-1".as_slice());
    Ok(one && two && numbered && folded && names.find(b"Truck-1").is_none())
}

// The table of a table's list has the same words, under the same numbers.
fn is_listed(alloc: Global, names: &NameTable) -> Result<bool, Memory> {
    let list = names.to_list(alloc)?;
    let listed = list.len() == 2
        && list.text(Name { number: 0 }) == Some(b"truck-1".as_slice())
        && list.text(Name { number: 1 }) == Some(b"city".as_slice())
        && list.text(Name { number: 2 }).is_none();
    let table = NameTable::of(alloc, &list)?;
    Ok(listed && table.len() == 2 && table.find(b"city") == Some(Name { number: 1 }))
}

#[test]
fn names(rt: HostRuntime) {
    let mut names = NameTable::new(rt.alloc());
    let right = interns(&mut names);
    let listed = is_listed(rt.alloc(), &names);
    drop(names);
    assert!(rt; right == Ok(true) && listed == Ok(true));
}

fn is_text(made: Result<Text, Memory>, want: &[u8]) -> bool {
    match made {
        Ok(text) => {
            let same = text.as_slice() == want;
            drop(text);
            same
        }
        Err(Memory) => false,
    }
}

const NO_SLOTS: &[&[u8]] = &[
    b"htn_s0",
    b"htn_s01",
    b"htn_s+1",
    b"htn_s4294967296",
    b"htn_s",
    b"htn_t1",
];

fn are_no_slots() -> bool {
    NO_SLOTS.iter().all(|word| slot_number(word).is_none())
}

#[test]
fn printed_names(rt: HostRuntime) {
    let plain = is_text(esc(rt.alloc(), b"go-to_2"), b"go-to_2");
    let generated = is_text(esc(rt.alloc(), b"htn_free"), b"htn_u_68746e5f66726565");
    let slot = is_text(slot_name(rt.alloc(), 4096), b"htn_s4096");
    let first = slot_number(b"htn_s4096") == Some(4096);
    let last = slot_number(b"htn_s4294967295") == Some(4294967295);
    assert!(rt; plain && generated && slot && first && last && are_no_slots());
}

fn are_sorted_out() -> bool {
    let names = is_name(b"Truck-1") && is_name(b"andy") && is_name(b"12");
    let others = is_name(b"") || is_name(b"?x") || is_name(b":htn") || is_name(b"FORALL");
    let plain = is_plain(b"go-to_2") && !is_plain(b"htn_free") && !is_plain(b"2nd");
    let reserved = is_reserved_in_any_case(b"either") && is_reserved_in_any_case(b"Either");
    let free = !is_reserved_in_any_case(b"neither");
    names && !others && plain && reserved && free
}

#[test]
fn source_names(rt: HostRuntime) {
    assert!(rt; are_sorted_out());
}

#[test]
fn lengths(rt: HostRuntime) {
    assert!(rt; number(4294967295) == Ok(4294967295) && number(4294967296).is_err());
}
