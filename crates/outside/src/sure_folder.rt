//! A folder in memory no load of which fails.
ghost use Rattle.std.specs.Prelude.{◌≡◌, [], ◌∷◌, ◌≢◌, ◌≤◌, ◌↔◌, None, Some, vec_len, Ok, IfOk, IfSome, OnOk, OnErr, option_map};
ghost use Rattle.outside.specs.Files.{Gives, Shows, file_of, lookup};
ghost use Rattle.outside.specs.Faults.{shown-bounded};

use crate::fault::LoadFault;
use crate::folder::Folder;
use crate::stored::{StoredFile, look_stored, make_file, read_stored};
use sq_value::Memory;
use std::alloc::Global;
use std::marker::Model;

/// A folder in memory no load of which fails. Seen as its files, the last one kept first.
#[derive(Drop)]
pub struct SureFolder {
    files: Vec<StoredFile>,
}

impl Model for SureFolder {
    ghost use Rattle.std.specs.Prelude.{List};
    ghost use Rattle.outside.specs.Files.{File};

    ghost Value = { List File };

    ghost view = { λ s. s.files.items };
}

impl SureFolder {
    /// No files.
    pub fn new(alloc: Global) -> SureFolder
        ensures { result ≡ [] }
    {
        SureFolder {
            files: Vec::new(alloc),
        }
    }

    /// Sets the file of that name.
    ///
    /// # Errors
    /// `Memory`: there is no memory for it. The folder is unchanged.
    pub fn keep(&mut self, name: &str, bytes: &[u8]) -> Result<(), Memory>
        ensures ok { OnOk result (self.new ≡ file_of name.now bytes.now ∷ self.old) }
        ensures err { OnErr result (self.new ≡ self.old) }
    {
        let alloc = *self.files.allocator();
        let file = make_file(alloc, name, bytes)?;
        self.files.insert(0, file)?;
        Ok(())
    }
}

impl Folder for SureFolder {
    ghost holds = { λ s. Some s };

    ghost faults = { λ _. 0 };

    ghost bounded = { λ _. shown-bounded 0 };

    fn load(&mut self, alloc: Global, name: &str, limit: usize) -> Result<Vec<u8>, LoadFault>
        ensures keeps { self.new ≡ self.old }
        ensures within { IfOk result (λ bytes. vec_len bytes ≤ limit) }
        ensures gives { IfOk result (λ bytes. Gives (Some self.old) name.now limit bytes.items) }
        ensures absent { result ≡ Err LoadFault.Absent ↔ lookup self.old name.now ≡ None }
        ensures never_fails { result ≢ Err LoadFault.Failed }
    {
        read_stored(&self.files, alloc, name, limit)
    }

    fn look(
        &mut self,
        alloc: Global,
        name: &str,
        limit: usize,
    ) -> Result<Option<Vec<u8>>, LoadFault>
        ensures keeps { self.new ≡ self.old }
        ensures within { IfOk result (λ found. IfSome found (λ bytes. vec_len bytes ≤ limit)) }
        ensures shows { IfOk result (λ found.
            Shows (Some self.old) name.now limit (option_map (λ bytes. bytes.items) found)) }
        ensures lacking { lookup self.old name.now ≡ None → result ≡ Ok None }
        ensures never_absent { result ≢ Err LoadFault.Absent }
        ensures never_fails { result ≢ Err LoadFault.Failed }
    {
        look_stored(&self.files, alloc, name, limit)
    }
}
