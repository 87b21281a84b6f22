//! What follows from what the bytes of a catalogue say.
ghost use Rattle.std.specs.Prelude.{◌≢◌, ℕ, List, Err};
ghost use Rattle.catalog_json.specs.Outcome.{reading_of};
ghost use Rattle.catalog_json.specs.declared.fault.CatalogFault.{CatalogFault};

/// What bytes say is a catalogue or a fault of theirs, and never want of memory. So each fault comes
/// exactly where it is the first, unless memory runs out.
pub fn faults_are_told()
    ensures { (bytes : List ℕ) → reading_of bytes ≢ Err CatalogFault.Memory }
{}
