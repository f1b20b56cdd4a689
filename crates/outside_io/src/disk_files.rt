ghost use Rattle.std.specs.Prelude.{◌≡◌, IfOk, IfErr, OnOk, OnErr, Some};
ghost use Rattle.outside_io.specs.Calls.{got, got_none, stored, unsure};
ghost use Rattle.outside_io.specs.Disk.{unused_disk};
ghost use Rattle.outside_io.specs.Passed.{with_call};
ghost use Rattle.outside_io.specs.Files.{GetGives, GetRefused, PutGives, PutRefused};
ghost use Rattle.outside_io.specs.Untold.{counted_get, counted_put};

use crate::files::{Files, GetError, PutError};
use crate::log::{Call, Log};
use std::alloc::Global;
use std::fs;
use std::io::{self, ErrorKind, Read};
use std::marker::Model;

/// The real files. Nothing is told of what they hold, and all that passed; each failure of a call raises a count.
#[derive(Drop)]
pub struct DiskFiles {
    runtime: HostRuntime,
    get_faults: u64,
    put_faults: u64,
    log: Log,
}

impl Model for DiskFiles {
    ghost use Rattle.outside_io.specs.Disk.{DiskState};
    ghost use Rattle.outside_io.specs.Untold.{untold_files};

    ghost Value = { DiskState };

    ghost view = { λ f. record { state = untold_files f.get_faults f.put_faults; passed = f.log.calls } };
}

impl DiskFiles {
    /// The files that the process can reach, by their paths.
    pub fn new(runtime: HostRuntime) -> DiskFiles
        ensures unused { result ≡ unused_disk }
    {
        DiskFiles {
            runtime,
            get_faults: 0,
            put_faults: 0,
            log: Log::new(),
        }
    }
}

fn read(runtime: &HostRuntime, alloc: Global, name: &str, limit: u64) -> io::Result<Vec<u8>> {
    let mut bytes = Vec::new(alloc);
    fs::open(runtime, name)?
        .take(limit)
        .read_to_end(&mut bytes)?;
    Ok(bytes)
}

fn is_refused_memory(error: &io::Error) -> bool {
    error.kind() == ErrorKind::OutOfMemory
}

impl Files for DiskFiles {
    ghost state = { λ f. f.state };

    ghost passed = { λ f. Some f.passed };

    fn get(&mut self, alloc: Global, name: &str, limit: u64) -> Result<Vec<u8>, GetError>
        ensures ok { IfOk result (λ v. GetGives self.old.state self.new.state name.now limit v.items) }
        ensures err { IfErr result (GetRefused self.old.state self.new.state name.now) }
        ensures counted { IfErr result (λ error. self.new.state ≡ counted_get self.old.state error) }
        ensures passed { IfOk result (λ v.
            Some self.new.passed ≡ with_call (Some self.old.passed) (got name.now limit v.items)) }
        ensures not_passed { OnErr result (
            Some self.new.passed ≡ with_call (Some self.old.passed) (got_none name.now)) }
    {
        match read(&self.runtime, alloc, name, limit) {
            Ok(bytes) => {
                self.log = self.log.then(&Call::Got(name, limit, bytes.as_slice()));
                Ok(bytes)
            }
            Err(error) => {
                self.log = self.log.then(&Call::GotNone(name));
                if is_refused_memory(&error) {
                    return Err(GetError::Memory);
                }
                self.get_faults = self.get_faults.saturating_add(1);
                Err(GetError::Failed)
            }
        }
    }

    fn put(&mut self, name: &str, bytes: &[u8]) -> Result<(), PutError>
        ensures ok { OnOk result (PutGives self.old.state self.new.state name.now bytes.now) }
        ensures err { IfErr result (PutRefused self.old.state self.new.state name.now) }
        ensures counted { IfErr result (λ error. self.new.state ≡ counted_put self.old.state error) }
        ensures passed { OnOk result (
            Some self.new.passed ≡ with_call (Some self.old.passed) (stored name.now bytes.now)) }
        ensures not_passed { OnErr result (
            Some self.new.passed ≡ with_call (Some self.old.passed) (unsure name.now bytes.now)) }
    {
        match fs::write(&self.runtime, name, bytes) {
            Ok(()) => {
                self.log = self.log.then(&Call::Stored(name, bytes));
                Ok(())
            }
            Err(error) => {
                self.log = self.log.then(&Call::Unsure(name, bytes));
                if is_refused_memory(&error) {
                    return Err(PutError::Memory);
                }
                self.put_faults = self.put_faults.saturating_add(1);
                Err(PutError::Failed)
            }
        }
    }
}
