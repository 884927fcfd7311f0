//! Keys and values of the trees of regular files.

ghost use Rattle.std.specs.Prelude.{◌≡◌};
ghost use Rattle.bx_chunks.specs.bx_truth.specs.Keys.{content_key as key_of_content};

/// The key of the piece with an index: 3, and the index.
pub fn content_key(index: u32) -> [u8; 5]
    ensures { result ≡ key_of_content index }
{
    let [first, second, third, fourth] = index.to_be_bytes();
    [3, first, second, third, fourth]
}
