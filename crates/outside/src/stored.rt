//! Files that a folder keeps in memory.
ghost use Rattle.std.specs.Prelude.{◌≡◌, ◌≢◌, ◌≤◌, ◌↔◌, None, Some, take, vec_len, Ok, IfOk, IfSome, option_map, option_copied};
ghost use Rattle.outside.specs.Files.{lookup, file_of};

use crate::fault::LoadFault;
use sq_value::Memory;
use std::alloc::Global;
use std::marker::Model;

/// A name with the bytes of its file.
#[derive(Drop)]
pub(crate) struct StoredFile {
    name: String,
    bytes: Vec<u8>,
}

impl Model for StoredFile {
    ghost use Rattle.std.specs.Prelude.{string_bytes};
    ghost use Rattle.outside.specs.Files.{File, file_of};

    ghost Value = { File };

    ghost view = { λ f. file_of (string_bytes f.name) f.bytes.items };
}

/// The file of this name with these bytes.
///
/// # Errors
/// `Memory`: there is no memory for them.
pub(crate) fn make_file(alloc: Global, name: &str, bytes: &[u8]) -> Result<StoredFile, Memory>
    ensures { IfOk result (λ file. file ≡ file_of name.now bytes.now) }
{
    Ok(StoredFile {
        name: String::from_str(alloc, name)?,
        bytes: Vec::from_slice(alloc, bytes)?,
    })
}

/// The bytes of the first file of that name.
fn find<'a>(files: &'a [StoredFile], name: &str) -> Option<&'a [u8]>
    ensures { option_copied result ≡ lookup files.now name.now }
{
    for file in files {
        if file.name.as_str() == name {
            return Some(file.bytes.as_slice());
        }
    }
    None
}

/// The first bytes of the first file of that name, at most `limit` of them.
///
/// # Errors
/// - `Absent`: there is no such file.
/// - `Memory`: there is no memory for the bytes.
pub(crate) fn read_stored(
    files: &[StoredFile],
    alloc: Global,
    name: &str,
    limit: usize,
) -> Result<Vec<u8>, LoadFault>
    ensures within { IfOk result (λ bytes. vec_len bytes ≤ limit) }
    ensures gives { IfOk result (λ bytes. option_map (take limit) (lookup files.now name.now) ≡ Some bytes.items) }
    ensures absent { result ≡ Err LoadFault.Absent ↔ lookup files.now name.now ≡ None }
    ensures never_fails { result ≢ Err LoadFault.Failed }
{
    let Some(bytes) = find(files, name) else {
        return Err(LoadFault::Absent);
    };
    Ok(Vec::from_slice(alloc, &bytes[..limit.min(bytes.len())])?)
}

/// The first bytes of the first file of that name, at most `limit` of them, or None where there is
/// no such file.
///
/// # Errors
/// `Memory`: there is no memory for the bytes.
pub(crate) fn look_stored(
    files: &[StoredFile],
    alloc: Global,
    name: &str,
    limit: usize,
) -> Result<Option<Vec<u8>>, LoadFault>
    ensures within { IfOk result (λ found. IfSome found (λ bytes. vec_len bytes ≤ limit)) }
    ensures shows { IfOk result (λ found.
        option_map (take limit) (lookup files.now name.now) ≡ option_map (λ bytes. bytes.items) found) }
    ensures lacking { lookup files.now name.now ≡ None → result ≡ Ok None }
    ensures never_absent { result ≢ Err LoadFault.Absent }
    ensures never_fails { result ≢ Err LoadFault.Failed }
{
    match read_stored(files, alloc, name, limit) {
        Ok(bytes) => Ok(Some(bytes)),
        Err(LoadFault::Absent) => Ok(None),
        Err(fault) => Err(fault),
    }
}
