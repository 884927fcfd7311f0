//! The entries of directories as files have them.

ghost use Rattle.std.specs.Prelude.{◌≡◌, ◌++◌, ◌+◌, ◌<◌, ◌≤◌, ℕ, List, [], ◌∷◌, IfOk, IfSome, IfNone, IsTrue, IsFalse, None};
ghost use Rattle.bx_audit_files.specs.Lists.{AreListed, CanFollow};
ghost use Rattle.bx_audit_pages.specs.Trees.{tree_of};
ghost use Rattle.bx_tree_files.specs.declared.file.Name.{Name as Named};
ghost use Rattle.bx_tree_files.specs.Entries.{AreBelow, entry_named};
ghost use Rattle.bx_truth.specs.PageTrees.{Chunks, IsTree, map_of};
ghost use Rattle.bx_truth.specs.Stored.{AreNames};

use crate::names::names_of;
use bx_audit_pages::ReadTree;
use bx_base::OutOfMemory;
use bx_tree_files::{Name, NameList};
use std::alloc::Global;

/// The entries of a directory off its tree, whose numbers are below the next one. `None` exactly where the tree isn't one of such
/// entries.
pub fn entries_of(
    alloc: Global,
    tree: &ReadTree,
    next: u32,
) -> Result<Option<NameList>, OutOfMemory>
    ensures some { (chunks : Chunks) (root : ℕ) → IsTree chunks root (tree_of tree.now) → IfOk result (λ found. IfSome found (λ list. AreNames (map_of (tree_of tree.now)) list)) }
    ensures below { IfOk result (λ found. IfSome found (AreBelow next)) }
    ensures listed { IfOk result (λ found. IfSome found (AreListed next)) }
    ensures none { (chunks : Chunks) (root : ℕ) → IsTree chunks root (tree_of tree.now)
        → IfOk result (λ found. IfNone found ((names : List Named) → AreNames (map_of (tree_of tree.now)) names → AreBelow next names → ⊥)) }
{
    let Some(names) = names_of(alloc, tree)? else {
        return Ok(None);
    };
    list_of(alloc, &names, next)
}

/// The list of some entries. `None` exactly where their numbers don't rise, or aren't below the next one, or a name comes twice.
fn list_of(alloc: Global, names: &[Name], next: u32) -> Result<Option<NameList>, OutOfMemory>
    ensures some { IfOk result (λ found. IfSome found (λ list. list ≡ names.now)) }
    ensures below { IfOk result (λ found. IfSome found (AreBelow next)) }
    ensures listed { IfOk result (λ found. IfSome found (AreListed next)) }
    ensures none { IfOk result (λ found. IfNone found (AreListed next names.now → ⊥)) }
{
    let mut list = NameList::new(alloc);
    let mut least = 0;
    for name in names {
        if !put_name(&mut list, name, least, next)? {
            return Ok(None);
        }
        least = name.number + 1;
    }
    Ok(Some(list))
}

/// Puts an entry behind others, whose numbers are below the least that it may have. `false` exactly where its number is below that or
/// not below the next one, or its name is among theirs.
fn put_name(list: &mut NameList, name: &Name, least: u32, next: u32) -> Result<bool, OutOfMemory>
    requires { AreBelow least list.old }
    ensures yes { IfOk result (λ put. IsTrue put → list.new ≡ list.old ++ name.now ∷ []) }
    ensures least { IfOk result (λ put. IsTrue put → least ≤ name.now.number) }
    ensures next { IfOk result (λ put. IsTrue put → name.now.number < next) }
    ensures apart { IfOk result (λ put. IsTrue put → entry_named list.old name.now.name ≡ None) }
    ensures no { IfOk result (λ put. IsFalse put → CanFollow list.old least next name.now → ⊥) }
{
    let number = name.number;
    if number < least || number >= next || list.named(name.name.bytes()).is_some() {
        return Ok(false);
    }
    list.push(number, name.name.bytes(), name.handle)?;
    Ok(true)
}
