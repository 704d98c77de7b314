//! The file from which each desk of a chain must have been begun. Its first UniqueID names that
//! file's checksum.

ghost use Rattle.std.specs.Prelude.{◌≡◌, ◌≤◌, ◌↔◌, ℕ, None, Option, List, false, true, IfOk, IsTrue, length, string_bytes, take};
ghost use Rattle.std.specs.Option.{option_map};
ghost use Rattle.sha2.specs.Hashers.{Holds256};
ghost use Rattle.sqlite_wal.specs.Reads.{AreClean};
ghost use Rattle.chain_files.specs.Marks.{IsWanted, NamesChecksum, OnlyRead, OnlyReadFiles, WantsNext, file_checksum};

use crate::words::begins_with;
use hex::encode;
use line_schema::Unavailable;
use sha2::{Digest, Sha256};
use sqlite::Files;
use sqlite_disk::Disk;
use std::alloc::Global;

/// What is asked of the first UniqueIDs of a chain's files.
#[derive(Clone, Copy)]
pub struct Links {
    /// The first file may have been begun from another.
    pub from_middle: bool,
    /// A later file need not name the checksum of the file before it.
    pub without_marks: bool,
}

/// What the first UniqueID of the next file must name.
#[derive(Drop)]
pub enum Wanted {
    Anything,
    /// No file.
    Nothing,
    /// The file with this checksum, of 64 digits.
    Checksum(String),
}

/// How many bytes of a file are read at a time.
const PART: usize = 16384;

/// The fewest digits of a checksum that a UniqueID names.
const FEWEST: usize = 24;

/// Returns what the first file must name.
pub fn wanted_first(links: Links) -> Wanted
    ensures { (mark : Option (List ℕ))
        → IsWanted result mark ↔ (links.from_middle ≡ false → mark ≡ None) }
{
    if links.from_middle {
        Wanted::Anything
    } else {
        Wanted::Nothing
    }
}

/// Returns whether a file that names this checksum, or none, is wanted.
pub fn is_wanted(wanted: &Wanted, mark: &Option<String>) -> bool
    ensures yes { result ≡ true → IsWanted wanted.now (option_map string_bytes mark.now) }
    ensures no { result ≡ false → IsWanted wanted.now (option_map string_bytes mark.now) → ⊥ }
{
    match wanted {
        Wanted::Anything => true,
        Wanted::Nothing => mark.is_none(),
        Wanted::Checksum(checksum) => match mark {
            Some(mark) => names_checksum(checksum.as_str(), mark.as_str()),
            None => false,
        },
    }
}

/// Returns whether a mark names a checksum: all digits of the mark are the checksum's first ones.
pub fn names_checksum(checksum: &str, mark: &str) -> bool
    ensures yes { result ≡ true → NamesChecksum checksum.now mark.now }
    ensures no { result ≡ false → ¬ NamesChecksum checksum.now mark.now }
{
    FEWEST <= mark.len() && begins_with(checksum, mark)
}

/// Reads this closed file, and returns what the file after it must name.
pub fn wanted_after<D: Disk + Drop>(
    alloc: Global,
    files: Files<D>,
    without_marks: bool,
) -> (Result<Wanted, Unavailable>, Files<D>)
    ensures wants { IfOk result.0 (λ wanted. AreClean D.Disk result.1.log result.1.db
        → WantsNext without_marks D.Disk result.1 wanted) }
    ensures read { OnlyReadFiles D.Disk files result.1 }
{
    if without_marks {
        return (Ok(Wanted::Anything), files);
    }
    let Files { log, mut db } = files;
    let read = checksum(alloc, &mut db);
    let files = Files { log, db };
    match read {
        Ok(checksum) => (Ok(Wanted::Checksum(checksum)), files),
        Err(fault) => (Err(fault), files),
    }
}

/// Returns the checksum of a file: the hex digits of its SHA-256.
fn checksum<D: Disk>(alloc: Global, file: &mut D) -> Result<String, Unavailable>
    ensures checksum { IfOk result (λ checksum. IsTrue (D.Disk.is_clean file.new)
        → string_bytes checksum ≡ file_checksum (D.Disk.seen file.new)) }
    ensures read { OnlyRead D.Disk file.old file.new }
{
    if !file.may_be_used() {
        return Err(Unavailable);
    }
    let Ok(length) = file.len() else {
        return Err(Unavailable);
    };
    let mut hasher = Sha256::new();
    let mut part = [0u8; PART];
    let mut at = 0;
    while at < length {
        let step = (length - at).min(PART);
        let Ok(()) = file.read_at(at, &mut part[..step]) else {
            return Err(Unavailable);
        };
        hasher.update(&part[..step]);
        at += step;
    }
    let digest = hasher.finalize();
    match encode(alloc, &digest) {
        Ok(checksum) => Ok(checksum),
        Err(_) => Err(Unavailable),
    }
}
