//! File handles: the 32 bytes that name a file of a volume (RFC 1094, section 2.3.3).

ghost use Rattle.std.specs.Prelude.{◌≡◌, length};
ghost use Rattle.bx_places.specs.Handles.{file_text, named};

use byteorder::{BigEndian, ByteOrder};

/// How many bytes a file handle has.
const HANDLE_LEN: usize = 32;

/// The file handle of a file of a volume, by the number of the handle of its inode.
pub fn file_handle(volume: u64, handle: u64) -> [u8; 32]
    ensures text { result ≡ file_text volume handle }
    ensures len { length result ≡ 32 }
{
    let mut bytes = [0; HANDLE_LEN];
    bytes[..8].copy_from_slice(b"BOXWOOD1");
    BigEndian::write_u64(&mut bytes[8..], volume);
    BigEndian::write_u64(&mut bytes[16..], handle);
    bytes
}

/// The number of the handle whose file handle of the volume these bytes are; `None` exactly where they are none: other bytes,
/// more or fewer of them, or the file handle of another volume.
pub fn named_handle(volume: u64, bytes: &[u8]) -> Option<u64>
    ensures { result ≡ named volume bytes.now }
{
    if bytes.len() != HANDLE_LEN {
        return None;
    }
    let handle = BigEndian::read_u64(&bytes[16..]);
    if bytes == file_handle(volume, handle).as_slice() {
        Some(handle)
    } else {
        None
    }
}
