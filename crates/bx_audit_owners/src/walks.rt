//! The walk from the root of a volume over its directories and files.

ghost use Rattle.std.specs.Prelude.{◌≡◌, ◌++◌, map, IfOk, OnOk};
ghost use Rattle.bx_audit_owners.specs.Found.{AreOrdered, IsFound};
ghost use Rattle.bx_audit_owners.specs.Holding.{holdings_of};
ghost use Rattle.bx_audit_owners.specs.Walks.{IsFileAt, IsMet, IsTreeOf, IsWalked, IsWrongMet, Meets};
ghost use Rattle.bx_audit_pages.specs.Errors.{IfTorn};
ghost use Rattle.bx_audit_pages.specs.Reading.{ReadsChunks, StillShows};
ghost use Rattle.bx_audit_pages.specs.Shown.{Shows};
ghost use Rattle.bx_homes.specs.Reading.{CanRead};
ghost use Rattle.bx_tree_files.specs.Names.{names_of};
ghost use Rattle.bx_truth.specs.PageTrees.{Chunks};

use crate::claimed::claimed_file;
use crate::found::{Found, put_file};
use crate::holders::{Holder, Holders, has_holder};
use bx_audit_bodies::{Outline, outline_of};
use bx_audit_pages::{AuditError, torn_at};
use bx_base::OutOfMemory;
use bx_homes::Blocks;
use bx_model::Tree;
use bx_tree_files::{Body, Files, Handles, NameList};
use std::alloc::Global;

/// The root's handle: area 0, slot 0, generation 1.
const ROOT: u64 = 1;

/// What the walk from the root found.
#[derive(Drop)]
pub struct Walked {
    /// The files that it met, with their handles as those that were given out.
    pub tree: Tree,
    /// What has each chunk that these have.
    pub(crate) holders: Holders,
}

/// What the walk from the root finds: it reads the root, and each file that an entry of a directory names, in the order in which they are
/// met. Torn exactly where something that it meets is wrong: where no file is that should be, or a chunk has two owners. Links, parents and
/// the words of slots are not looked at.
pub fn walk<B: Blocks>(
    alloc: Global,
    blocks: &mut B,
    areas: u16,
    volume: u64,
) -> Result<Walked, AuditError>
    requires blocks { CanRead B.Blocks areas blocks.old }
    ensures ok { (chunks : Chunks) → Shows (B.tells blocks.old) areas (B.stands blocks.old) chunks → IfOk result (λ walked. IsWalked chunks (holdings_of walked.holders) walked.tree.files) }
    ensures tree { IfOk result (λ walked. IsTreeOf areas volume walked.tree) }
    ensures torn { (chunks : Chunks) → Shows (B.tells blocks.old) areas (B.stands blocks.old) chunks → IfTorn result (λ at found wanted. IsWrongMet chunks wanted) }
    ensures shows { StillShows B.Blocks areas blocks.old blocks.new }
    ensures blocks { ReadsChunks B.Blocks blocks.old blocks.new result }
{
    let Found {
        holders,
        files,
        given,
    } = found_from_root(alloc, blocks, areas)?;
    let tree = Tree {
        volume,
        areas,
        files,
        root: ROOT,
        given,
    };
    Ok(Walked { tree, holders })
}

/// The same, before it is put into a tree.
fn found_from_root<B: Blocks>(
    alloc: Global,
    blocks: &mut B,
    areas: u16,
) -> Result<Found, AuditError>
    requires blocks { CanRead B.Blocks areas blocks.old }
    ensures ok { (chunks : Chunks) → Shows (B.tells blocks.old) areas (B.stands blocks.old) chunks → IfOk result (λ found. IsWalked chunks (holdings_of found.holders) found.files) }
    ensures ordered { IfOk result (λ found. AreOrdered found.files found.given) }
    ensures torn { (chunks : Chunks) → Shows (B.tells blocks.old) areas (B.stands blocks.old) chunks → IfTorn result (λ at found wanted. IsWrongMet chunks wanted) }
    ensures shows { StillShows B.Blocks areas blocks.old blocks.new }
    ensures blocks { ReadsChunks B.Blocks blocks.old blocks.new result }
{
    let mut found = Found {
        holders: Holders::new(alloc),
        files: Files::new(alloc),
        given: Handles::new(alloc),
    };
    let mut met = Vec::new(alloc);
    met.push(ROOT)?;
    for at in 0..usize::MAX {
        if at >= met.len() {
            return Ok(found);
        }
        let handle = met[at];
        meet(alloc, blocks, areas, handle, &mut found, &mut met)?;
    }
    // No memory holds so many entries.
    Err(AuditError::OutOfMemory)
}

/// Reads the file that a handle names, unless it was met before, and puts what its entries name behind what is to be met.
fn meet<B: Blocks>(
    alloc: Global,
    blocks: &mut B,
    areas: u16,
    handle: u64,
    found: &mut Found,
    met: &mut Vec<u64>,
) -> Result<(), AuditError>
    requires blocks { CanRead B.Blocks areas blocks.old }
    ensures ok { (chunks : Chunks) → Shows (B.tells blocks.old) areas (B.stands blocks.old) chunks → IsFound chunks (holdings_of found.old.holders) found.old.files
        → OnOk result (IsFound chunks (holdings_of found.new.holders) found.new.files) }
    ensures step { OnOk result (Meets (λ file. (chunks : Chunks) → Shows (B.tells blocks.old) areas (B.stands blocks.old) chunks → IsFileAt chunks handle file)
        (holdings_of found.old.holders) found.old.files met.old.items handle (holdings_of found.new.holders) found.new.files met.new.items) }
    ensures ordered { AreOrdered found.old.files found.old.given → OnOk result (AreOrdered found.new.files found.new.given) }
    ensures torn { (chunks : Chunks) → Shows (B.tells blocks.old) areas (B.stands blocks.old) chunks → IsFound chunks (holdings_of found.old.holders) found.old.files → IsMet chunks handle
        → IfTorn result (λ at found wanted. IsWrongMet chunks wanted) }
    ensures shows { StillShows B.Blocks areas blocks.old blocks.new }
    ensures blocks { ReadsChunks B.Blocks blocks.old blocks.new result }
{
    if has_holder(&found.holders, handle, Holder::File)? {
        return Ok(());
    }
    let Outline::File(outline) = outline_of(alloc, blocks, areas, handle)? else {
        return Err(torn_at(handle));
    };
    let file = claimed_file(alloc, blocks, areas, outline, &mut found.holders)?;
    put_names(&file.body, met)?;
    put_file(found, file)?;
    Ok(())
}

/// Puts what the entries of a body name behind what is to be met.
fn put_names(body: &Body, met: &mut Vec<u64>) -> Result<(), OutOfMemory>
    ensures { OnOk result (met.new.items ≡ met.old.items ++ map (λ entry. entry.handle) (names_of body.now)) }
{
    match body {
        Body::Names(_, _, names) => put_entries(names, met),
        Body::Bytes(_) | Body::Path(_) => Ok(()),
    }
}

/// The same of some entries.
fn put_entries(names: &NameList, met: &mut Vec<u64>) -> Result<(), OutOfMemory>
    ensures { OnOk result (met.new.items ≡ met.old.items ++ map (λ entry. entry.handle) names.now) }
{
    for entry in names.iter() {
        met.push(entry.handle)?;
    }
    Ok(())
}
