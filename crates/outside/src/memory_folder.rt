//! A folder in memory, with faults where they are chosen.
ghost use Rattle.std.specs.Prelude.{◌≡◌, ◌∷◌, ◌≢◌, ◌≤◌, ◌+◌, ◌==◌, ◌↔◌, Some, None, true, vec_len, Ok, IfOk, IfSome, OnOk, OnErr, option_map};
ghost use Rattle.std.specs.List.{list_any};
ghost use Rattle.outside.specs.Chosen.{no_files, load_fails, after_load};
ghost use Rattle.outside.specs.Faults.{NeverFalls, RoseOrFull, shown, shown-bounded};
ghost use Rattle.outside.specs.Files.{Gives, Lacks, Shows, file_of};

use crate::fault::LoadFault;
use crate::folder::Folder;
use crate::next::is_next;
use crate::stored::{StoredFile, look_stored, make_file, read_stored};
use sq_value::Memory;
use std::alloc::Global;
use std::marker::Model;

/// A folder in memory, with faults where they are chosen. Seen as its files, the last one kept
/// first, the loads that are chosen to fail, the loads made and the faults counted. A look counts as
/// a load.
#[derive(Drop)]
pub struct MemoryFolder {
    files: Vec<StoredFile>,
    chosen: Vec<u64>,
    loads: u64,
    faults: u64,
}

impl Model for MemoryFolder {
    ghost use Rattle.outside.specs.Chosen.{FolderState};

    ghost Value = { FolderState };

    ghost view = { λ s. record { files = s.files.items; chosen = s.chosen.items; loads = s.loads; faults = s.faults } };
}

/// Whether one of the chosen calls is the next one, behind so many calls.
fn is_chosen(chosen: &[u64], made: u64) -> bool
    ensures { result ≡ list_any (λ call. call == made + 1) chosen.now }
{
    chosen.iter().any(|call| is_next(*call, made))
}

impl MemoryFolder {
    /// No files, and no load that is to fail.
    pub fn new(alloc: Global) -> MemoryFolder
        ensures { result ≡ no_files }
    {
        MemoryFolder {
            files: Vec::new(alloc),
            chosen: Vec::new(alloc),
            loads: 0,
            faults: 0,
        }
    }

    /// Sets the file of that name.
    ///
    /// # Errors
    /// `Memory`: there is no memory for it. The folder is unchanged.
    pub fn keep(&mut self, name: &str, bytes: &[u8]) -> Result<(), Memory>
        ensures ok { OnOk result (self.new ≡ record self.old { files = file_of name.now bytes.now ∷ self.old.files }) }
        ensures err { OnErr result (self.new ≡ self.old) }
    {
        let alloc = *self.files.allocator();
        let file = make_file(alloc, name, bytes)?;
        self.files.insert(0, file)?;
        Ok(())
    }

    /// Makes the load or look with this number fail; both count together, from 1.
    ///
    /// # Errors
    /// `Memory`: there is no memory for the number. The folder is unchanged.
    pub fn fail_at(&mut self, call: u64) -> Result<(), Memory>
        ensures ok { OnOk result (self.new ≡ record self.old { chosen = call ∷ self.old.chosen }) }
        ensures err { OnErr result (self.new ≡ self.old) }
    {
        self.chosen.insert(0, call)?;
        Ok(())
    }

    /// How many loads and looks failed.
    pub fn faults(&self) -> u64
        ensures { result ≡ self.now.faults }
    {
        self.faults
    }

    /// Counts a load or a look, and whether it is one that is to fail.
    fn count_load(&mut self) -> bool
        ensures after { self.new ≡ after_load self.old }
        ensures fails { result ≡ load_fails self.old }
        ensures counts { NeverFalls self.old.faults self.new.faults }
    {
        let fails = is_chosen(&self.chosen, self.loads);
        self.loads = self.loads.saturating_add(1);
        if fails {
            self.faults = self.faults.saturating_add(1);
        }
        fails
    }
}

impl Folder for MemoryFolder {
    ghost holds = { λ s. Some s.files };

    ghost faults = { λ s. shown s.faults };

    ghost bounded = { λ s. shown-bounded s.faults };

    fn load(&mut self, alloc: Global, name: &str, limit: usize) -> Result<Vec<u8>, LoadFault>
        ensures keeps { Some self.new.files ≡ Some self.old.files }
        ensures counts { NeverFalls self.old.faults self.new.faults }
        ensures within { IfOk result (λ bytes. vec_len bytes ≤ limit) }
        ensures gives { IfOk result (λ bytes. Gives (Some self.old.files) name.now limit bytes.items) }
        ensures absent { result ≡ Err LoadFault.Absent → Lacks (Some self.old.files) name.now }
        ensures failed { result ≡ Err LoadFault.Failed → RoseOrFull self.old.faults self.new.faults }
        ensures kept { OnOk result (self.new.faults ≡ self.old.faults) }
        ensures absent_kept { result ≡ Err LoadFault.Absent → self.new.faults ≡ self.old.faults }
        ensures after { self.new ≡ after_load self.old }
        ensures chosen { result ≡ Err LoadFault.Failed ↔ load_fails self.old ≡ true }
        ensures lacking { load_fails self.old ≢ true → Lacks (Some self.old.files) name.now
            → result ≡ Err LoadFault.Absent }
    {
        if self.count_load() {
            return Err(LoadFault::Failed);
        }
        read_stored(&self.files, alloc, name, limit)
    }

    fn look(
        &mut self,
        alloc: Global,
        name: &str,
        limit: usize,
    ) -> Result<Option<Vec<u8>>, LoadFault>
        ensures keeps { Some self.new.files ≡ Some self.old.files }
        ensures counts { NeverFalls self.old.faults self.new.faults }
        ensures within { IfOk result (λ found. IfSome found (λ bytes. vec_len bytes ≤ limit)) }
        ensures shows { IfOk result (λ found.
            Shows (Some self.old.files) name.now limit (option_map (λ bytes. bytes.items) found)) }
        ensures never_absent { result ≢ Err LoadFault.Absent }
        ensures failed { result ≡ Err LoadFault.Failed → RoseOrFull self.old.faults self.new.faults }
        ensures kept { OnOk result (self.new.faults ≡ self.old.faults) }
        ensures after { self.new ≡ after_load self.old }
        ensures chosen { result ≡ Err LoadFault.Failed ↔ load_fails self.old ≡ true }
        ensures lacking { load_fails self.old ≢ true → Lacks (Some self.old.files) name.now
            → result ≡ Ok None }
    {
        if self.count_load() {
            return Err(LoadFault::Failed);
        }
        look_stored(&self.files, alloc, name, limit)
    }
}
