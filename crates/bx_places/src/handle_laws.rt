//! Laws of handles.

ghost use Rattle.std.specs.Prelude.{◌≡◌, ◌↔◌, ℕ, ◌+◌, ◌^◌, ◌<◌, ◌≤◌, List, Some, length};
ghost use Rattle.bx_places.specs.declared.chunk_handle.ChunkHandle.{ChunkHandle};
ghost use Rattle.bx_places.specs.Handles.{IsHandle, number_of, parts_of, block_of, fileid, file_text, named};

/// The number of a handle has 64 bits and is no other handle's, and each number of 64 bits is one's. Its block is that of its area and
/// slot alone, and no other's; its file is that of its block.
pub fn handle_one_number()
    ensures fits { (handle : ChunkHandle) → IsHandle handle → number_of handle < 2 ^ 64 }
    ensures number { (one other : ChunkHandle) → IsHandle one → IsHandle other → number_of one ≡ number_of other → one ≡ other }
    ensures is { (number : ℕ) → number < 2 ^ 64 → IsHandle (parts_of number) }
    ensures back { (number : ℕ) → number_of (parts_of number) ≡ number }
    ensures parts { (handle : ChunkHandle) → IsHandle handle → parts_of (number_of handle) ≡ handle }
    ensures area { (one other : ChunkHandle) → one.slot ≤ 960 → other.slot ≤ 960 → block_of one ≡ block_of other → one.area ≡ other.area }
    ensures slot { (one other : ChunkHandle) → one.slot ≤ 960 → other.slot ≤ 960 → block_of one ≡ block_of other → one.slot ≡ other.slot }
    ensures file { (handle : ChunkHandle) → fileid handle ≡ block_of handle + 2 }
{}

/// Bytes name a handle of a volume exactly where they are its file handle, 32 bytes; and no bytes are file handles of two volumes.
pub fn file_handles_name_one()
    ensures named { (volume handle : ℕ) (bytes : List ℕ) → (named volume bytes ≡ Some handle) ↔ ((handle < 2 ^ 64) × (bytes ≡ file_text volume handle)) }
    ensures len { (volume handle : ℕ) → length (file_text volume handle) ≡ 32 }
    ensures volume { (volume another one other : ℕ) (bytes : List ℕ) → volume < 2 ^ 64 → another < 2 ^ 64
        → named volume bytes ≡ Some one → named another bytes ≡ Some other → volume ≡ another }
{}
