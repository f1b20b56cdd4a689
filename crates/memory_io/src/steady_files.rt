ghost use Rattle.std.specs.Prelude.{◌≡◌, [], IfOk, IfErr, OnOk, OnErr, Some, take, find, position};
ghost use Rattle.std.specs.Option.{option_copied};
ghost use Rattle.std.specs.Result.{IsOkUnless};
ghost use Rattle.outside_io.specs.Files.{GetGives, GetRefused, PutGives, PutRefused};
ghost use Rattle.outside_io.specs.Folder.{bytes_of, with_bytes, has_name, KeepsOthers};
ghost use Rattle.outside_io.specs.Seen.{Seen};
ghost use Rattle.memory_io.specs.Steady.{steady_files};

use htn_base::{Memory, Text};
use outside_io::{Files, GetError, PutError};
use std::alloc::Global;
use std::marker::Model;

/// Files in memory that never fail: a name that is not held reads as an empty file.
pub struct SteadyFiles {
    alloc: Global,
    files: Vec<(Text, Text)>,
}

impl Drop for SteadyFiles {
    fn drop(self) {
        let SteadyFiles { alloc: _, files: _ } = self;
    }
}

impl Model for SteadyFiles {
    ghost use Rattle.outside_io.specs.Folder.{Folder};

    ghost Value = { Folder };

    ghost view = { λ f. f.files.items };
}

impl SteadyFiles {
    /// No file.
    pub fn new(alloc: Global) -> SteadyFiles
        ensures empty { result ≡ [] }
    {
        SteadyFiles {
            alloc,
            files: Vec::new(alloc),
        }
    }

    /// The bytes of a name, or `None` where the name is not held.
    pub fn bytes(&self, name: &str) -> Option<&[u8]>
        ensures held { option_copied result ≡ bytes_of self.now name.now }
    {
        let file = find(self.files.as_slice(), name.as_bytes())?;
        Some(file.1.as_slice())
    }

    /// Makes the name hold these bytes, in place of what it held. A new name goes last.
    #[tactic(auto, using(crate::proofs::Folders::puts))]
    pub fn add(&mut self, name: &str, bytes: &[u8]) -> Result<(), Memory>
        ensures added { OnOk result (self.new ≡ with_bytes self.old name.now bytes.now) }
        ensures given { OnOk result (bytes_of self.new name.now ≡ Some bytes.now) }
        ensures others { OnOk result (KeepsOthers (Some self.old) (Some self.new) name.now) }
        ensures unchanged { OnErr result (self.new ≡ self.old) }
    {
        let file = (
            Text::from_slice(self.alloc, name.as_bytes())?,
            Text::from_slice(self.alloc, bytes)?,
        );
        self.place(file)
    }

    /// Puts a file in the place of the one of its name, or last.
    fn place(&mut self, file: (Text, Text)) -> Result<(), Memory>
        ensures put { OnOk result (self.new ≡ with_bytes self.old file.0 file.1) }
        ensures unchanged { OnErr result (self.new ≡ self.old) }
    {
        match position(self.files.as_slice(), file.0.as_slice()) {
            Some(place) => self.files[place] = file,
            None => self.files.push(file)?,
        }
        Ok(())
    }
}

fn find<'a>(files: &'a [(Text, Text)], name: &[u8]) -> Option<&'a (Text, Text)>
    ensures { option_copied result ≡ find (has_name name.now) files.now }
{
    files.iter().find(|file| file.0.as_slice() == name)
}

fn position(files: &[(Text, Text)], name: &[u8]) -> Option<usize>
    ensures { result ≡ position (has_name name.now) files.now }
{
    files.iter().position(|file| file.0.as_slice() == name)
}

/// The first `limit` bytes, all of them if there are fewer.
pub(crate) fn first_bytes(alloc: Global, bytes: &[u8], limit: u64) -> Result<Vec<u8>, Memory>
    ensures first { IfOk result (λ v. v.items ≡ take limit bytes.now) }
{
    let count = bytes.len().min(limit as usize);
    Ok(Vec::from_slice(alloc, &bytes[..count])?)
}

impl Files for SteadyFiles {
    ghost state = { steady_files };

    fn get(&mut self, alloc: Global, name: &str, limit: u64) -> Result<Vec<u8>, GetError>
        ensures ok { IfOk result (λ v.
            Seen steady_files GetGives self.old self.new name.now limit v.items) }
        ensures err { IfErr result (Seen steady_files GetRefused self.old self.new name.now) }
        ensures never_fails { IsOkUnless result GetError.Memory }
        ensures unchanged { self.new ≡ self.old }
    {
        let bytes = self.bytes(name).unwrap_or(&[]);
        Ok(first_bytes(alloc, bytes, limit)?)
    }

    fn put(&mut self, name: &str, bytes: &[u8]) -> Result<(), PutError>
        ensures ok { OnOk result (Seen steady_files PutGives self.old self.new name.now bytes.now) }
        ensures err { IfErr result (Seen steady_files PutRefused self.old self.new name.now) }
        ensures never_fails { IsOkUnless result PutError.Memory }
        ensures put { OnOk result (self.new ≡ with_bytes self.old name.now bytes.now) }
        ensures unchanged { OnErr result (self.new ≡ self.old) }
    {
        Ok(self.add(name, bytes)?)
    }
}
