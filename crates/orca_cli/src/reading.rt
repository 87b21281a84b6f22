// A file is read whole, up to a limit.
ghost use Rattle.std.specs.Prelude.{◌≡◌, ◌≤◌, ℕ, List, IfOk, IfErr};
ghost use Rattle.orca_cli.specs.Prepared.{IsReadFault, reads};
ghost use Rattle.orca_cli.specs.Reading.{IsRead};
ghost use Rattle.orca_cli.specs.Views.{EndsWith};

use crate::ending::{End, failed_read};
use orca_io::{Shelf, ShelfError};
use std::alloc::Global;

/// The bytes of the file of this name, or none where it has more than `limit`; or how the run ends that can't read it.
pub fn read_file<S: Shelf>(
    alloc: Global,
    shelf: &mut S,
    name: &str,
    limit: u64,
) -> Result<Option<Vec<u8>>, End>
    ensures read { IfOk result (IsRead (S.held shelf.old name.now) limit) }
    ensures unread { IfErr result (EndsWith (IsReadFault name.now
        (reads (S.held shelf.old) (S.faults shelf.old) (S.faults shelf.new)))) }

    ensures same { (n : List ℕ) → S.held shelf.new n ≡ S.held shelf.old n }
    ensures later { (n : List ℕ) → S.faults shelf.old n ≤ S.faults shelf.new n }
{
    let mut bytes = Vec::new(alloc);
    match shelf.read_all(name, limit, &mut bytes) {
        Ok(()) => Ok(Some(bytes)),
        Err(ShelfError::TooLong { seen: _ }) => Ok(None),
        Err(ShelfError::Failed) => Err(End::Told(failed_read(alloc, name)?)),
        Err(ShelfError::Memory) => Err(End::Memory),
    }
}
