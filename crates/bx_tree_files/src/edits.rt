//! Edits of files.

ghost use Rattle.std.specs.Prelude.{◌≡◌, ◌+◌, ◌<◌, ◌≤◌, ◌&&◌, length, nat_lt, false, true, OnOk, OnErr, IsOk, if◌then◌else◌};
ghost use Rattle.bx_tree_files.specs.FileEdits.{CanEdit, CanEnter, CanReplace, edited, is_sure as is_sure_edit, replaced};
ghost use Rattle.bx_tree_files.specs.Files.{IsFile};
ghost use Rattle.bx_tree_files.specs.Changes.{entered, taken_out, moved_to, most_bytes, resized, sets_field as sets_a_field, with_data, with_fields, with_size};
ghost use Rattle.bx_tree_parts.specs.Times.{is_given as is_given_word};

use crate::file::{Body, File};
use crate::sattr::Sattr;
use bx_tree_parts::base::OutOfMemory;
use bx_tree_parts::{given_or, is_given, time_or};

/// An edit of a file, which changes its times besides.
#[derive(Drop)]
pub enum Edit<'a> {
    /// The attributes that are given.
    Fields(&'a Sattr),
    /// Another size of a regular file.
    Size(u32),
    /// Bytes written into a regular file from an offset on.
    Data(u32, &'a [u8]),
    /// A new entry of a directory, for the file with the handle, and whether that is a directory from elsewhere.
    Entered(&'a [u8], u64, bool),
    /// A new entry of a directory, for the file with the handle, in the place of the one with its name; whether that one
    /// named a directory, and whether the file is a directory from elsewhere.
    Replaced(&'a [u8], u64, bool, bool),
    /// An entry less, and whether it named a directory that goes.
    TakenOut(&'a [u8], bool),
    /// One more name.
    Linked,
    /// One name less.
    Unlinked,
    /// A directory's new parent.
    MovedTo(u64),
}

/// How many modes there are: 12 bits.
pub const MODES: u32 = 4096;

/// Whether any field is given.
fn sets_field(sattr: &Sattr) -> bool
    ensures { result ≡ sets_a_field sattr.now }
{
    is_given(sattr.mode)
        || is_given(sattr.uid)
        || is_given(sattr.gid)
        || is_given(sattr.size)
        || is_given(sattr.atime.0)
        || is_given(sattr.mtime.0)
}

/// Now where something was set, else the old time.
fn now_where(set: bool, now: (u32, u32), old: (u32, u32)) -> (u32, u32)
    ensures { result ≡ (if set then now else old) }
{
    if set { now } else { old }
}

impl File {
    /// Makes an edit.
    pub fn edit(&mut self, edit: &Edit<'_>, now: (u32, u32)) -> Result<(), OutOfMemory>
        requires is { IsFile self.old }
        requires can { CanEdit edit.now self.old }
        ensures ok { OnOk result (self.new ≡ edited now edit.now self.old) }
        ensures is { OnOk result (IsFile self.new) }
        ensures err { OnErr result (self.new ≡ self.old) }
        ensures sure { is_sure_edit edit.now ≡ true → IsOk result }
    {
        match edit {
            Edit::Fields(sattr) => {
                self.set_fields(sattr, now);
                Ok(())
            }
            Edit::Size(size) => {
                self.set_size(*size, now);
                Ok(())
            }
            Edit::Data(offset, written) => self.write(*offset, written, now),
            Edit::Entered(name, handle, counts) => self.enter(name, *handle, *counts, now),
            Edit::Replaced(name, handle, goes, comes) => {
                self.replace(name, *handle, *goes, *comes, now)
            }
            Edit::TakenOut(name, counts) => {
                self.take_out(name, *counts, now);
                Ok(())
            }
            Edit::Linked => {
                self.nlink += 1;
                self.ctime = now;
                Ok(())
            }
            Edit::Unlinked => {
                self.nlink = self.nlink.saturating_sub(1);
                self.ctime = now;
                Ok(())
            }
            Edit::MovedTo(parent) => {
                self.move_to(*parent, now);
                Ok(())
            }
        }
    }

    /// Sets the attributes that are given.
    fn set_fields(&mut self, sattr: &Sattr, now: (u32, u32))
        requires is { IsFile self.old }
        requires fits { (is_given_word sattr.now.size && nat_lt most_bytes sattr.now.size) ≡ false }
        ensures set { self.new ≡ with_fields now sattr.now self.old }
        ensures is { IsFile self.new }
    {
        let sized = is_given(sattr.size);
        if sized {
            self.resize(sattr.size);
        }
        self.mode = given_or(sattr.mode, sattr.mode % MODES, self.mode);
        self.uid = given_or(sattr.uid, sattr.uid, self.uid);
        self.gid = given_or(sattr.gid, sattr.gid, self.gid);
        self.atime = time_or(sattr.atime, self.atime);
        self.mtime = time_or(sattr.mtime, now_where(sized, now, self.mtime));
        self.ctime = now_where(sets_field(sattr), now, self.ctime);
    }

    /// Sets the size.
    fn set_size(&mut self, size: u32, now: (u32, u32))
        requires is { IsFile self.old }
        requires fits { size ≤ most_bytes }
        ensures set { self.new ≡ with_size now size self.old }
        ensures is { IsFile self.new }
    {
        self.resize(size);
        self.mtime = now;
        self.ctime = now;
    }

    /// Another size of the content of a regular file.
    fn resize(&mut self, size: u32)
        requires is { IsFile self.old }
        requires fits { size ≤ most_bytes }
        ensures sized { self.new ≡ record self.old { body = resized size self.old.body } }
        ensures is { IsFile self.new }
    {
        if let Body::Bytes(bytes) = &mut self.body {
            bytes.resize(size);
        }
    }

    /// Writes bytes into the content of a regular file.
    fn write(&mut self, offset: u32, written: &[u8], now: (u32, u32)) -> Result<(), OutOfMemory>
        requires is { IsFile self.old }
        requires fits { offset + length written.now ≤ most_bytes }
        ensures ok { OnOk result (self.new ≡ with_data now offset written.now self.old) }
        ensures is { OnOk result (IsFile self.new) }
        ensures err { OnErr result (self.new ≡ self.old) }
    {
        if let Body::Bytes(bytes) = &mut self.body {
            bytes.write(offset, written)?;
        }
        self.mtime = now;
        self.ctime = now;
        Ok(())
    }

    /// Puts a new entry into a directory.
    fn enter(
        &mut self,
        name: &[u8],
        handle: u64,
        counts: bool,
        now: (u32, u32),
    ) -> Result<(), OutOfMemory>
        requires is { IsFile self.old }
        requires can { CanEnter name.now self.old }
        ensures ok { OnOk result (self.new ≡ entered now name.now handle counts self.old) }
        ensures err { OnErr result (self.new ≡ self.old) }
    {
        if let Body::Names(_, next, names) = &mut self.body {
            names.push(*next, name, handle)?;
            *next += 1;
        }
        if counts {
            self.nlink += 1;
        }
        self.mtime = now;
        self.ctime = now;
        Ok(())
    }

    /// Puts a new entry into a directory in the place of the one with its name.
    fn replace(
        &mut self,
        name: &[u8],
        handle: u64,
        goes: bool,
        comes: bool,
        now: (u32, u32),
    ) -> Result<(), OutOfMemory>
        requires is { IsFile self.old }
        requires can { CanReplace self.old }
        ensures ok { OnOk result (self.new ≡ replaced now name.now handle goes comes self.old) }
        ensures err { OnErr result (self.new ≡ self.old) }
    {
        if let Body::Names(_, next, names) = &mut self.body {
            names.replace(*next, name, handle)?;
            *next += 1;
        }
        if goes {
            self.nlink = self.nlink.saturating_sub(1);
        }
        if comes {
            self.nlink += 1;
        }
        self.mtime = now;
        self.ctime = now;
        Ok(())
    }

    /// Takes an entry out of a directory.
    fn take_out(&mut self, name: &[u8], counts: bool, now: (u32, u32))
        ensures { self.new ≡ taken_out now name.now counts self.old }
    {
        if let Body::Names(_, _, names) = &mut self.body {
            names.take_out(name);
        }
        if counts {
            self.nlink = self.nlink.saturating_sub(1);
        }
        self.mtime = now;
        self.ctime = now;
    }

    /// Gives a directory that was moved its new parent.
    fn move_to(&mut self, new: u64, now: (u32, u32))
        requires { IsFile self.old }
        ensures done { self.new ≡ moved_to now new self.old }
        ensures is { IsFile self.new }
    {
        if let Body::Names(parent, _, _) = &mut self.body {
            *parent = new;
        }
        self.ctime = now;
    }
}
