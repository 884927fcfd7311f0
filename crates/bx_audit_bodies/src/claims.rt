//! What inodes claim.

ghost use Rattle.std.specs.Prelude.{◌≡◌, ◌++◌, map, IfOk, OnOk};
ghost use Rattle.bx_audit_bodies.specs.Claiming.{page_claim, page_claims, piece_claims};

use crate::pieces::Piece;
use bx_audit_pages::{ReadTree, TreePage};
use bx_base::OutOfMemory;
use std::alloc::Global;

/// A chunk that an inode has.
#[derive(Drop)]
pub struct Claim {
    /// The chunk's handle.
    pub handle: u64,
    /// The index of the piece whose block it is, or nothing where it is a page of the inode's tree.
    pub piece: Option<u32>,
}

/// The claims of an inode with a tree and pieces: each page of the tree, level by level from the leaves up, and each piece.
pub(crate) fn claims_of(
    alloc: Global,
    tree: &ReadTree,
    pieces: &[Piece],
) -> Result<Vec<Claim>, OutOfMemory>
    ensures { IfOk result (λ claims. claims.items ≡ page_claims tree.now ++ piece_claims pieces.now) }
{
    let mut claims = Vec::new(alloc);
    for at in 0..tree.levels() {
        claim_pages(tree.level(at), &mut claims)?;
    }
    claim_pieces(pieces, &mut claims)?;
    Ok(claims)
}

/// Puts claims of pages behind others.
fn claim_pages(pages: &[TreePage], claims: &mut Vec<Claim>) -> Result<(), OutOfMemory>
    ensures { OnOk result (claims.new.items ≡ claims.old.items ++ map page_claim pages.now) }
{
    for page in pages {
        claims.push(Claim {
            handle: page.handle(),
            piece: None,
        })?;
    }
    Ok(())
}

/// Puts claims of pieces behind others.
fn claim_pieces(pieces: &[Piece], claims: &mut Vec<Claim>) -> Result<(), OutOfMemory>
    ensures { OnOk result (claims.new.items ≡ claims.old.items ++ piece_claims pieces.now) }
{
    for piece in pieces {
        claims.push(Claim {
            handle: piece.handle,
            piece: Some(piece.index),
        })?;
    }
    Ok(())
}
