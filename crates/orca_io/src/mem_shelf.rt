ghost use Rattle.std.specs.Prelude.{◌≡◌, ◌≤◌, ◌<◌, ◌+◌, ◌↔◌, [], ℕ, List, None, length, OnOk, OnErr, IfErr, IsErrOf};
ghost use Rattle.std.specs.Prelude.{IsTrue};
ghost use Rattle.orca_io.specs.declared.shelf.ShelfError.TheVariants.{Failed, TooLong};
ghost use Rattle.orca_io.specs.Shelf.{ReadsAll, HasCause, AddsWhole};
ghost use Rattle.orca_io.specs.MemShelf.{held_by, faults_of, calls_of, failing_of, fails, faults_after};
ghost use Rattle.orca_io.specs.MemShelf.{IsBeyond, IsRefusal, KeepsCalls, StaysAs, Holds, NamesCall, CountsCall};

use crate::count::next_count;
use crate::{Shelf, ShelfError};
use std::alloc::{AllocError, Global};
use std::collections::BTreeMap;

/// A shelf in memory that fails at the readings that it is told to, which are counted from 0.
#[derive(Debug, Drop)]
pub struct MemShelf {
    alloc: Global,
    files: BTreeMap<String, MemFile>,
    // The count of faults of all names that aren't held.
    unheld_faults: u64,
    calls: u64,
    failing: Vec<u64>,
}

#[derive(Debug, Drop)]
struct MemFile {
    bytes: Vec<u8>,
    faults: u64,
}

impl MemShelf {
    pub fn new(alloc: Global) -> MemShelf
        ensures held { (n : List ℕ) → held_by result n ≡ None }
        ensures faults { (n : List ℕ) → faults_of result n ≡ 0 }
        ensures calls { calls_of result ≡ 0 }
        ensures failing { failing_of result ≡ [] }
    {
        MemShelf {
            alloc,
            files: BTreeMap::new(alloc),
            unheld_faults: 0,
            calls: 0,
            failing: Vec::new(alloc),
        }
    }

    /// Holds the bytes under the name, in place of what stood there.
    #[tactic(auto, using(std::proofs::lemmas::Map::Text::text_keys))]
    pub fn put_file(&mut self, name: &str, bytes: &[u8]) -> Result<(), AllocError>
        ensures ok { OnOk result (Holds self.old name.now bytes.now self.new) }
        ensures err { OnErr result (StaysAs self.old self.new) }
    {
        let file = MemFile {
            bytes: bytes.to_vec(self.alloc)?,
            faults: self.faults(name),
        };
        self.files
            .insert(String::from_str(self.alloc, name)?, file)?;
        Ok(())
    }

    /// Lets the reading with this number fail.
    pub fn fail_at(&mut self, call: u64) -> Result<(), AllocError>
        ensures ok { OnOk result (NamesCall self.old call self.new) }
        ensures err { OnErr result (StaysAs self.old self.new) }
    {
        self.failing.push(call)?;
        Ok(())
    }

    fn faults(&self, name: &str) -> u64
        ensures { result ≡ faults_of self.now name.now }
    {
        match self.files.get(name) {
            Some(file) => file.faults,
            None => self.unheld_faults,
        }
    }

    #[tactic(auto, using(std::proofs::lemmas::Map::Text::text_keys))]
    fn raise(&mut self, name: &str)
        ensures faults { (n : List ℕ) → faults_of self.new n ≡ faults_after self.old name.now n }
        ensures held { (n : List ℕ) → held_by self.new n ≡ held_by self.old n }
        ensures readings { KeepsCalls self.old self.new }
    {
        match self.files.get_mut(name) {
            Some(file) => file.faults = next_count(file.faults),
            None => self.unheld_faults = next_count(self.unheld_faults),
        }
    }
}

impl Shelf for MemShelf {
    ghost held = { held_by };

    ghost faults = { faults_of };

    fn read_all(&mut self, name: &str, limit: u64, into: &mut Vec<u8>) -> Result<(), ShelfError>
        ensures ok { OnOk result
            (ReadsAll (held_by self.old name.now) limit into.old.items into.new.items) }

        ensures failed { IsErrOf result Failed ↔ IsTrue (fails self.old name.now) }
        ensures too_long { IsBeyond self.old name.now limit →
            IsErrOf result (TooLong (limit + 1)) }
        ensures cause { IfErr result (λ e. HasCause e (held_by self.old name.now) limit
            (faults_of self.old name.now) (faults_of self.new name.now)) }
        ensures err { OnErr result (into.new.items ≡ into.old.items) }

        ensures counts { CountsCall self.old name.now self.new }
        ensures same { (n : List ℕ) → held_by self.new n ≡ held_by self.old n }
        ensures later { (n : List ℕ) → faults_of self.old n ≤ faults_of self.new n }
    {
        let named = self.failing.contains(&self.calls);
        self.calls = next_count(self.calls);
        match self.files.get(name) {
            Some(file) if !named => add_whole(&file.bytes, limit, into),
            _ => {
                self.raise(name);
                Err(ShelfError::Failed)
            }
        }
    }
}

fn add_whole(bytes: &[u8], limit: u64, into: &mut Vec<u8>) -> Result<(), ShelfError>
    ensures ok { OnOk result (AddsWhole bytes.now limit into.old.items into.new.items) }
    ensures too_long { limit < length bytes.now → IsErrOf result (TooLong (limit + 1)) }
    ensures cause { IfErr result (IsRefusal bytes.now limit) }
    ensures err { OnErr result (into.new.items ≡ into.old.items) }
{
    if bytes.len() as u64 > limit {
        return Err(ShelfError::TooLong { seen: limit + 1 });
    }
    into.extend_from_slice(bytes)?;
    Ok(())
}
