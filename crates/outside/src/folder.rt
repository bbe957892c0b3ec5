//! Where files are loaded from: the trait of folders.
ghost use Rattle.std.specs.Prelude.{◌≡◌, ◌≢◌, ℕ, List, Option, ◌<◌, ◌≤◌, ◌^◌, vec_len, IfOk, IfSome, OnOk, option_map};
ghost use Rattle.outside.specs.Files.{File, Gives, Lacks, Shows};
ghost use Rattle.outside.specs.Faults.{NeverFalls, RoseOrFull};

use crate::fault::LoadFault;
use std::alloc::Global;

/// Where files are loaded from.
///
/// It tells what it holds, where that is known, and counts its faults in a number that begins at 0,
/// never falls, and stays at 18,446,744,073,709,551,615, its greatest. A load or a look that gives
/// bytes or finds no file leaves the count as it was.
///
/// A load is for a file that must be there, and a look for one that may be lacking. Where the folder
/// doesn't tell what it holds, a load of a lacking file is `Failed`, and a look finds none.
pub trait Folder {
    ghost holds: { Self → Option (List File) };

    ghost faults: { Self → ℕ };

    /// Loads the first bytes of a file, at most `limit` of them.
    ///
    /// # Errors
    /// - `Absent`: the folder tells what it holds and holds no file of that name.
    /// - `Failed`: reading failed, and the count of faults rose.
    /// - `Memory`: there is no memory for the bytes.
    fn load(&mut self, alloc: Global, name: &str, limit: usize) -> Result<Vec<u8>, LoadFault>
        ensures keeps { holds self.new ≡ holds self.old }
        ensures counts { NeverFalls (faults self.old) (faults self.new) }
        ensures within { IfOk result (λ bytes. vec_len bytes ≤ limit) }
        ensures gives { IfOk result (λ bytes. Gives (holds self.old) name.now limit bytes.items) }
        ensures absent { result ≡ Err LoadFault.Absent → Lacks (holds self.old) name.now }
        ensures failed { result ≡ Err LoadFault.Failed → RoseOrFull (faults self.old) (faults self.new) }
        ensures kept { OnOk result (faults self.new ≡ faults self.old) }
        ensures absent_kept { result ≡ Err LoadFault.Absent → faults self.new ≡ faults self.old };

    /// Looks for a file and loads its first bytes, at most `limit` of them. It is None where there
    /// is no such file.
    ///
    /// # Errors
    /// - `Failed`: reading failed, and the count of faults rose.
    /// - `Memory`: there is no memory for the bytes.
    ///
    /// `Absent` never comes.
    fn look(
        &mut self,
        alloc: Global,
        name: &str,
        limit: usize,
    ) -> Result<Option<Vec<u8>>, LoadFault>
        ensures keeps { holds self.new ≡ holds self.old }
        ensures counts { NeverFalls (faults self.old) (faults self.new) }
        ensures within { IfOk result (λ found. IfSome found (λ bytes. vec_len bytes ≤ limit)) }
        ensures shows { IfOk result (λ found.
            Shows (holds self.old) name.now limit (option_map (λ bytes. bytes.items) found)) }
        ensures never_absent { result ≢ Err LoadFault.Absent }
        ensures failed { result ≡ Err LoadFault.Failed → RoseOrFull (faults self.old) (faults self.new) }
        ensures kept { OnOk result (faults self.new ≡ faults self.old) };

    ghost bounded: { (folder : Self) → faults folder < 2 ^ 64 };
}
