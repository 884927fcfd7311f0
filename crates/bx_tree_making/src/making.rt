//! New files, and the entries that name them.

ghost use Rattle.std.specs.Prelude.{◌≡◌, ◌<◌, ◌==◌, true, IfSome, IsSome, OnOk, OnErr};
ghost use Rattle.bx_model.specs.Edits.{is_unused as is_unused_handle, with_new, without_new};
ghost use Rattle.bx_tree_files.specs.FileEdits.{CanEnter};
ghost use Rattle.bx_tree_files.specs.Files.{IsFile, file_at};
ghost use Rattle.bx_model.specs.Making.{with_made};

use bx_base::OutOfMemory;
use bx_model::Tree;
use bx_tree_files::{DIRECTORY, Edit, File};

/// Whether a file may be made under a handle: it isn't 0, it was never given out, and its fileid is no file's.
pub(crate) fn is_unused(tree: &Tree, made: u64) -> bool
    ensures { result ≡ is_unused_handle tree.now made }
{
    made != 0 && !tree.given.contains(made) && !tree.files.has_fileid(made)
}

/// Puts a new file into the tree, and an entry that names it into a directory.
pub(crate) fn make(
    tree: &mut Tree,
    directory: u64,
    name: &[u8],
    now: (u32, u32),
    file: File,
) -> Result<(), OutOfMemory>
    requires unused { is_unused_handle tree.old file.handle ≡ true }
    requires is_file { IsFile file }
    requires there { IsSome (file_at tree.old.files directory) }
    requires can { IfSome (file_at tree.old.files directory) (CanEnter name.now) }
    ensures ok { OnOk result (tree.new ≡ with_made tree.old directory name.now now file) }
    ensures err { OnErr result (tree.new ≡ tree.old) }
{
    let (handle, counts) = (file.handle, file.kind == DIRECTORY);
    admit(tree, file)?;
    let entered = tree
        .files
        .edit(directory, &Edit::Entered(name, handle, counts), now);
    if entered.is_err() {
        dismiss(tree, handle);
    }
    entered
}

/// Takes in a new file.
fn admit(tree: &mut Tree, file: File) -> Result<(), OutOfMemory>
    requires unused { is_unused_handle tree.old file.handle ≡ true }
    requires is_file { IsFile file }
    ensures ok { OnOk result (tree.new ≡ with_new tree.old file) }
    ensures err { OnErr result (tree.new ≡ tree.old) }
{
    let handle = file.handle;
    tree.given.insert(handle)?;
    let admitted = tree.files.insert(file);
    if admitted.is_err() {
        tree.given.remove(handle);
    }
    admitted
}

/// Lets a file go that was just taken in, as if it had never come.
fn dismiss(tree: &mut Tree, handle: u64)
    ensures { tree.new ≡ without_new tree.old handle }
{
    tree.files.remove(handle);
    tree.given.remove(handle);
}
