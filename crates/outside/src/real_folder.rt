//! The file system as a folder.
ghost use Rattle.std.specs.Prelude.{◌≡◌, ◌≢◌, ◌≤◌, vec_len, IfOk, IfSome, OnOk, is_err, None, option_map, if◌then◌else◌};
ghost use Rattle.outside.specs.Faults.{NeverFalls, RoseOrFull, raised, shown, shown-bounded};
ghost use Rattle.outside.specs.Files.{Gives, Shows};

use crate::fault::LoadFault;
use crate::folder::Folder;
use crate::reading::{load_prefix, look_prefix};
use std::alloc::Global;
use std::fs::File;
use std::marker::Model;
use std::rt::Files;

/// The file system, with paths as names. It tells nothing of what it holds. Seen as its count of
/// faults.
#[derive(Drop)]
pub struct RealFolder<'r, R: Files> {
    files: &'r R,
    faults: u64,
}

impl<'r, R: Files> Model for RealFolder<'r, R> {
    ghost use Rattle.std.specs.Prelude.{ℕ};

    ghost Value = { ℕ };

    ghost view = { λ s. s.faults };
}

impl<'r, R: Files> RealFolder<'r, R> {
    /// The files that a runtime reaches.
    pub fn new(files: &'r R) -> RealFolder<'r, R>
        ensures { result ≡ 0 }
    {
        RealFolder { files, faults: 0 }
    }

    /// How many calls of the system failed.
    pub fn faults(&self) -> u64
        ensures { result ≡ self.now }
    {
        self.faults
    }
}

impl<'r, R: Files> Folder for RealFolder<'r, R> {
    ghost holds = { λ _. None };

    ghost faults = { λ s. shown s };

    ghost bounded = { λ s. shown-bounded s };

    /// Opens the file and reads its first bytes. A file that can't be opened is `Failed`.
    fn load(&mut self, alloc: Global, name: &str, limit: usize) -> Result<Vec<u8>, LoadFault>
        ensures counts { NeverFalls (shown self.old) (shown self.new) }
        ensures within { IfOk result (λ bytes. vec_len bytes ≤ limit) }
        ensures gives { IfOk result (λ bytes. Gives None name.now limit bytes.items) }
        ensures failed { result ≡ Err LoadFault.Failed → RoseOrFull (shown self.old) (shown self.new) }
        ensures never_absent { result ≢ Err LoadFault.Absent }
        ensures exact { self.new ≡ (if is_err result then raised self.old else self.old) }
        ensures kept { OnOk result (shown self.new ≡ shown self.old) }
        ensures absent_kept { result ≡ Err LoadFault.Absent → shown self.new ≡ shown self.old }
    {
        let loaded = load_prefix(File::open(self.files, name), alloc, limit, &mut self.faults);
        if matches!(&loaded, Err(LoadFault::Memory)) {
            self.faults = self.faults.saturating_add(1);
        }
        loaded
    }

    /// Opens the file and reads its first bytes. It is None where the system says that there is no
    /// such file; one that can't be opened for another reason is `Failed`.
    fn look(
        &mut self,
        alloc: Global,
        name: &str,
        limit: usize,
    ) -> Result<Option<Vec<u8>>, LoadFault>
        ensures counts { NeverFalls (shown self.old) (shown self.new) }
        ensures within { IfOk result (λ found. IfSome found (λ bytes. vec_len bytes ≤ limit)) }
        ensures shows { IfOk result (λ found. Shows None name.now limit (option_map (λ bytes. bytes.items) found)) }
        ensures never_absent { result ≢ Err LoadFault.Absent }
        ensures failed { result ≡ Err LoadFault.Failed → RoseOrFull (shown self.old) (shown self.new) }
        ensures exact { self.new ≡ (if is_err result then raised self.old else self.old) }
        ensures kept { OnOk result (shown self.new ≡ shown self.old) }
    {
        let looked = look_prefix(File::open(self.files, name), alloc, limit, &mut self.faults);
        if matches!(&looked, Err(LoadFault::Memory)) {
            self.faults = self.faults.saturating_add(1);
        }
        looked
    }
}
