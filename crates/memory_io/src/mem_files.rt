ghost use Rattle.std.specs.Prelude.{◌≡◌, IfOk, IfErr, OnOk, OnErr, IsErrOf, true, false};
ghost use Rattle.std.specs.Option.{option_copied};
ghost use Rattle.outside_io.specs.Files.{GetGives, GetRefused, PutGives, PutRefused};
ghost use Rattle.outside_io.specs.Seen.{Seen};
ghost use Rattle.outside_io.specs.Folder.{bytes_of};
ghost use Rattle.memory_io.specs.Script.{GetIsToFail, after_get, after_put, after_refused_get, after_refused_put, fails_next, files_state, no_files, with_failing_get, with_failing_put, with_file};

use crate::script::Script;
use crate::steady_files::{SteadyFiles, first_bytes};
use htn_base::{Memory, Text};
use outside_io::{Files, GetError, PutError};
use std::alloc::Global;
use std::marker::Model;

/// Files in memory, of which chosen gets and puts fail.
pub struct MemFiles {
    alloc: Global,
    files: SteadyFiles,
    gets: Script,
    puts: Script,
    failed: Option<Text>,
}

impl Drop for MemFiles {
    fn drop(self) {
        let MemFiles {
            alloc: _,
            files: _,
            gets: _,
            puts: _,
            failed: _,
        } = self;
    }
}

impl Model for MemFiles {
    ghost use Rattle.memory_io.specs.Script.{ScriptedFiles};

    ghost Value = { ScriptedFiles };

    ghost view = { λ f.
        record { folder = f.files; gets = f.gets; puts = f.puts; failed = f.failed } };
}

impl MemFiles {
    /// No file, and no call that is to fail.
    pub fn new(alloc: Global) -> MemFiles
        ensures empty { result ≡ no_files }
    {
        MemFiles {
            alloc,
            files: SteadyFiles::new(alloc),
            gets: Script::new(alloc),
            puts: Script::new(alloc),
            failed: None,
        }
    }

    /// Makes the name hold these bytes, in place of what it held.
    pub fn add(&mut self, name: &str, bytes: &[u8]) -> Result<(), Memory>
        ensures added { OnOk result (self.new ≡ with_file self.old name.now bytes.now) }
        ensures unchanged { OnErr result (self.new ≡ self.old) }
    {
        self.files.add(name, bytes)
    }

    /// Lets get number `k` fail, counted from 0.
    pub fn fail_get(&mut self, k: u32) -> Result<(), Memory>
        ensures added { OnOk result (self.new ≡ with_failing_get self.old k) }
        ensures unchanged { OnErr result (self.new ≡ self.old) }
    {
        self.gets.fail(k)
    }

    /// Lets put number `k` fail, counted from 0.
    pub fn fail_put(&mut self, k: u32) -> Result<(), Memory>
        ensures added { OnOk result (self.new ≡ with_failing_put self.old k) }
        ensures unchanged { OnErr result (self.new ≡ self.old) }
    {
        self.puts.fail(k)
    }

    /// The bytes of a name, or `None` where the name is not held.
    pub fn bytes(&self, name: &str) -> Option<&[u8]>
        ensures held { option_copied result ≡ bytes_of self.now.folder name.now }
    {
        self.files.bytes(name)
    }

    fn copy_name(&self, name: &str) -> Result<Text, Memory>
        ensures equal { IfOk result (λ copy. copy ≡ name.now) }
    {
        Text::from_slice(self.alloc, name.as_bytes())
    }
}

impl Files for MemFiles {
    ghost state = { files_state };

    fn get(&mut self, alloc: Global, name: &str, limit: u64) -> Result<Vec<u8>, GetError>
        ensures ok { IfOk result (λ v.
            Seen files_state GetGives self.old self.new name.now limit v.items) }
        ensures err { IfErr result (Seen files_state GetRefused self.old self.new name.now) }
        ensures unscripted { OnOk result (fails_next self.old.gets ≡ false) }
        ensures caused { IsErrOf result GetError.Failed → GetIsToFail self.old name.now }
        ensures given { OnOk result (self.new ≡ after_get self.old) }
        ensures refused { IfErr result (λ e. self.new ≡ after_refused_get self.old name.now e) }
    {
        if !self.gets.fails_next()
            && let Some(bytes) = self.files.bytes(name)
        {
            let first = first_bytes(alloc, bytes, limit)?;
            self.gets.count_call();
            return Ok(first);
        }
        let name = self.copy_name(name)?;
        self.failed = Some(name);
        self.gets.count_fault();
        Err(GetError::Failed)
    }

    fn put(&mut self, name: &str, bytes: &[u8]) -> Result<(), PutError>
        ensures ok { OnOk result (Seen files_state PutGives self.old self.new name.now bytes.now) }
        ensures err { IfErr result (Seen files_state PutRefused self.old self.new name.now) }
        ensures unscripted { OnOk result (fails_next self.old.puts ≡ false) }
        ensures caused { IsErrOf result PutError.Failed → fails_next self.old.puts ≡ true }
        ensures put { OnOk result (self.new ≡ after_put self.old name.now bytes.now) }
        ensures refused { IfErr result (λ e. self.new ≡ after_refused_put self.old name.now e) }
    {
        if self.puts.fails_next() {
            let name = self.copy_name(name)?;
            self.failed = Some(name);
            self.puts.count_fault();
            return Err(PutError::Failed);
        }
        self.files.add(name, bytes)?;
        self.puts.count_call();
        Ok(())
    }
}
