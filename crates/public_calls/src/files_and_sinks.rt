// Files and sinks on the machine (`outside_io`) and in memory (`memory_io`).
use htn_base::Memory;
use memory_io::{MemFiles, MemSink, SteadyFiles, SteadySink};
use outside_io::{DiskFiles, Files, GetError, PutError, Sink, StdSink, WriteError};
use std::alloc::Global;
use std::path::Path;
use std::{env, fs};

fn gives(answer: Result<Vec<u8>, GetError>, want: &[u8]) -> bool {
    match answer {
        Ok(bytes) => {
            let same = bytes.as_slice() == want;
            drop(bytes);
            same
        }
        Err(_) => false,
    }
}

fn fails(answer: Result<Vec<u8>, GetError>) -> bool {
    match answer {
        Ok(bytes) => {
            drop(bytes);
            false
        }
        Err(error) => error == GetError::Failed,
    }
}

fn holds(files: &MemFiles, name: &str, want: &[u8]) -> bool {
    match files.bytes(name) {
        Some(bytes) => bytes == want,
        None => false,
    }
}

fn add_files(files: &mut MemFiles) -> Result<(), Memory> {
    files.add("a", b"old")?;
    files.add("b", b"12345")?;
    files.add("a", b"new")?;
    files.fail_get(1)?;
    files.fail_put(0)
}

fn chosen_gets_fail(alloc: Global, files: &mut MemFiles) -> bool {
    gives(files.get(alloc, "a", 9), b"new")
        && fails(files.get(alloc, "a", 9))
        && fails(files.get(alloc, "d", 9))
        && gives(files.get(alloc, "b", 3), b"123")
}

fn chosen_puts_fail(files: &mut MemFiles) -> bool {
    files.put("a", b"lost") == Err(PutError::Failed)
        && holds(files, "a", b"new")
        && files.put("a", b"kept").is_ok()
        && holds(files, "a", b"kept")
        && files.bytes("d").is_none()
}

#[test]
fn chosen_calls_fail(rt: HostRuntime) {
    let mut files = MemFiles::new(rt.alloc());
    let added = add_files(&mut files).is_ok();
    let gets_fail = chosen_gets_fail(rt.alloc(), &mut files);
    let puts_fail = chosen_puts_fail(&mut files);
    drop(files);
    assert!(rt; added && gets_fail && puts_fail);
}

fn are_read(alloc: Global, files: &mut SteadyFiles) -> bool {
    files.add("a", b"12345").is_ok()
        && files.put("b", b"b").is_ok()
        && gives(files.get(alloc, "a", 3), b"123")
        && gives(files.get(alloc, "c", 3), b"")
        && files.bytes("b").is_some()
        && files.bytes("c").is_none()
}

#[test]
fn steady_files_read_a_missing_name_as_empty(rt: HostRuntime) {
    let mut files = SteadyFiles::new(rt.alloc());
    let read = are_read(rt.alloc(), &mut files);
    drop(files);
    assert!(rt; read);
}

fn takes_some(sink: &mut MemSink) -> bool {
    sink.fail_write(1).is_ok()
        && sink.write(b"abcde") == Ok(3)
        && sink.write(b"de") == Err(WriteError::Failed)
        && sink.write(b"de") == Ok(2)
        && sink.bytes() == b"abcde".as_slice()
}

#[test]
fn a_sink_takes_a_few_bytes_at_a_time(rt: HostRuntime) {
    let mut sink = MemSink::new(rt.alloc(), 3);
    let taken = takes_some(&mut sink);
    drop(sink);
    assert!(rt; taken);
}

fn takes_all(sink: &mut SteadySink) -> bool {
    sink.write(b"abc") == Ok(2) && sink.write(b"c") == Ok(1) && sink.bytes() == b"abc".as_slice()
}

#[test]
fn a_steady_sink_takes_a_few_bytes_at_a_time(rt: HostRuntime) {
    let mut sink = SteadySink::new(rt.alloc(), 2);
    let taken = takes_all(&mut sink);
    drop(sink);
    assert!(rt; taken);
}

fn keeps(alloc: Global, files: &mut DiskFiles, name: &str) -> bool {
    files.put(name, b"a longer text").is_ok()
        && files.put(name, b"12345").is_ok()
        && gives(files.get(alloc, name, 3), b"123")
        && gives(files.get(alloc, name, 99), b"12345")
        && files.put("", b"nowhere") == Err(PutError::Failed)
}

fn disk_works(rt: &HostRuntime, path: &Path) -> bool {
    match path.to_str() {
        Some(name) => {
            let mut files = DiskFiles::new(*rt);
            let kept = keeps(rt.alloc(), &mut files, name);
            let removed = fs::remove_file(rt, name).is_ok();
            kept && removed && fails(files.get(rt.alloc(), name, 9))
        }
        None => false,
    }
}

#[test]
fn disk(rt: HostRuntime) {
    let mut path = env::temp_dir(&rt).expect(&rt, "a folder");
    let named = path.push("htn_outside_io.txt").is_ok();
    let works = named && disk_works(&rt, &path.as_path());
    drop(path);
    assert!(rt; works);
}

#[test]
fn streams(rt: HostRuntime) {
    assert!(rt; StdSink::output(rt).write(b"") == Ok(0));
    assert!(rt; StdSink::error(rt).write(b"!\n") == Ok(2));
}
