//! What the walk from the root finds.

ghost use Rattle.std.specs.Prelude.{◌≡◌, OnOk};
ghost use Rattle.bx_audit_bodies.specs.Reading.{AreEntriesApart};
ghost use Rattle.bx_audit_owners.specs.Found.{AreOrdered};
ghost use Rattle.bx_tree_files.specs.Files.{IsFile, with_file};

use crate::holders::Holders;
use bx_base::OutOfMemory;
use bx_tree_files::{File, Files, Handles};

/// What the walk from the root found so far.
#[derive(Drop)]
pub(crate) struct Found {
    /// What has each chunk that was found.
    pub(crate) holders: Holders,
    /// The files of the inodes that were read.
    pub(crate) files: Files,
    /// The handles of these files.
    pub(crate) given: Handles,
}

/// Puts a file beside the others.
pub(crate) fn put_file(found: &mut Found, file: File) -> Result<(), OutOfMemory>
    requires is { IsFile file }
    requires apart { AreEntriesApart file.body }
    ensures holders { found.new.holders ≡ found.old.holders }
    ensures with { OnOk result (found.new.files ≡ with_file found.old.files file) }
    ensures ordered { AreOrdered found.old.files found.old.given → OnOk result (AreOrdered found.new.files found.new.given) }
{
    found.given.insert(file.handle)?;
    found.files.insert(file)?;
    Ok(())
}
