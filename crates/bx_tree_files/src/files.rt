//! The files of a tree, by handle.

ghost use Rattle.std.specs.Prelude.{◌≡◌, ◌==◌, [], IfSome, OnOk, OnErr, IsOk, true, false, slice_get};
ghost use Rattle.std.specs.List.{All, list_any};
ghost use Rattle.std.specs.Option.{option_copied};
ghost use Rattle.bx_tree_files.specs.Attributes.{fileid as fileid_of};
ghost use Rattle.bx_tree_files.specs.Files.{with_changed, without_file, IsFile, file_at, with_file};
ghost use Rattle.bx_tree_files.specs.Changes.{entered, linked};
ghost use Rattle.bx_tree_files.specs.FileEdits.{CanEdit, CanEnter, CanLink, edited, is_free, is_sure};

use crate::edits::Edit;
use crate::file::File;
use crate::metadata::fileid;
use bx_tree_parts::Fileids;
use bx_tree_parts::base::OutOfMemory;
use std::alloc::Global;
use std::collections::BTreeMap;
use std::collections::btree_map::Values;
use std::marker::Model;

/// Files with different handles. Contracts see them as a list in the order of their handles.
#[derive(Drop)]
pub struct Files {
    alloc: Global,
    by_handle: BTreeMap<u64, File>,
    fileids: Fileids,
}

impl Model for Files {
    ghost use Rattle.std.specs.Prelude.{List};
    ghost use Rattle.std.specs.Map.{values_of};
    ghost use Rattle.bx_tree_files.specs.declared.file.File.{File};
    ghost use Rattle.bx_tree_files.specs.Files.{AreKept};

    ghost Value = { List File };

    ghost view = { λ files. values_of files.by_handle.entries };

    ghost invariant = { λ files. AreKept files.by_handle.entries files.fileids };
}

impl Files {
    /// No files. It takes no memory.
    pub fn new(alloc: Global) -> Files
        ensures { result ≡ [] }
    {
        Files {
            alloc,
            by_handle: BTreeMap::new(alloc),
            fileids: Fileids::new(alloc),
        }
    }

    /// What the files allocate from.
    pub fn allocator(&self) -> Global {
        self.alloc
    }

    /// The file with the least handle.
    pub fn first(&self) -> Option<&File>
        ensures found { option_copied result ≡ slice_get self.now 0 }
        ensures is_file { IfSome (option_copied result) IsFile }
    {
        let (_, file) = self.by_handle.first_key_value()?;
        Some(file)
    }

    /// The files in the order of their handles.
    pub fn iter(&self) -> Values<'_, u64, File>
        ensures all { result ≡ self.now }
        ensures are_files { All IsFile self.now }
    {
        self.by_handle.values()
    }

    /// The file with a handle; `None` exactly where there is none.
    pub fn get(&self, handle: u64) -> Option<&File>
        ensures found { option_copied result ≡ file_at self.now handle }
        ensures is_file { IfSome (option_copied result) IsFile }
        ensures at { IfSome (option_copied result) (λ file. file.handle ≡ handle) }
    {
        self.by_handle.get(&handle)
    }

    /// Adds a file, in the place of the one with its handle where there is one.
    pub fn insert(&mut self, file: File) -> Result<(), OutOfMemory>
        requires { IsFile file }
        ensures ok { OnOk result (self.new ≡ with_file self.old file) }
        ensures err { OnErr result (self.new ≡ self.old) }
    {
        let handle = file.handle;
        self.fileids.put(fileid(handle), handle)?;
        match self.by_handle.insert(handle, file) {
            Ok(_) => Ok(()),
            Err(_) => {
                self.fileids.take(fileid(handle), handle);
                Err(OutOfMemory)
            }
        }
    }

    /// Makes an edit of the file with a handle; where there is none, of nothing.
    pub fn edit(&mut self, handle: u64, edit: &Edit<'_>, now: (u32, u32)) -> Result<(), OutOfMemory>
        requires { IfSome (file_at self.old handle) (CanEdit edit.now) }
        ensures ok { OnOk result (self.new ≡ with_changed self.old handle (edited now edit.now)) }
        ensures err { OnErr result (self.new ≡ self.old) }
        ensures sure { is_sure edit.now ≡ true → IsOk result }
    {
        let Some(file) = self.by_handle.get_mut(&handle) else {
            return Ok(());
        };
        file.edit(edit, now)
    }

    /// Makes an edit that takes no memory, and that every file may have.
    pub fn change(&mut self, handle: u64, edit: &Edit<'_>, now: (u32, u32))
        requires { is_free edit.now ≡ true }
        ensures { self.new ≡ with_changed self.old handle (edited now edit.now) }
    {
        if self.edit(handle, edit, now).is_err() {
            unreachable!();
        }
    }

    /// Takes out the file with a handle, if there is one.
    pub fn remove(&mut self, handle: u64)
        ensures { self.new ≡ without_file self.old handle }
    {
        self.by_handle.remove(&handle);
        self.fileids.take(fileid(handle), handle);
    }

    /// Whether a file has the fileid that one with this handle would have.
    pub fn has_fileid(&self, handle: u64) -> bool
        ensures { result ≡ list_any (λ file. fileid_of file.handle == fileid_of handle) self.now }
    {
        self.fileids.has(fileid(handle))
    }

    /// Puts an entry into a directory for a file that is there, which counts it.
    pub fn link(
        &mut self,
        directory: u64,
        name: &[u8],
        handle: u64,
        now: (u32, u32),
    ) -> Result<(), OutOfMemory>
        requires enters { IfSome (file_at self.old directory) (CanEnter name.now) }
        requires links { IfSome (file_at self.old handle) CanLink }
        ensures ok { OnOk result (self.new ≡ with_changed (with_changed self.old directory (entered now name.now handle false)) handle (linked now)) }
        ensures err { OnErr result (self.new ≡ self.old) }
    {
        self.edit(directory, &Edit::Entered(name, handle, false), now)?;
        if self.edit(handle, &Edit::Linked, now).is_err() {
            unreachable!();
        }
        Ok(())
    }
}
