//! The listing, line by line.

ghost use Rattle.std.specs.Prelude.{◌≡◌, ◌<◌, ◌+◌, ◌/◌, ◌^◌, ◌++◌, ◌∷◌, [], codes, nat_lt, false, if◌then◌else◌, length, map, IfOk, OnOk};
ghost use Rattle.std.specs.List.{list_any};
ghost use Rattle.std.specs.String.{string_bytes};
ghost use Rattle.hex.specs.Hex.{encode_lower};
ghost use Rattle.bx_base.specs.Text.{spaced, sixteen_digits, ended, text_of};
ghost use Rattle.bx_model.specs.Listing.{listing as listing_of, body_lines, data_lines, file_line as line_of_file, dir_line as line_of_dir, name_line as line_of_name, time_text as text_of_time};
ghost use Rattle.bx_tree_files.specs.Files.{IsFile, size_of as body_size};
ghost use Rattle.bx_tree_files.specs.Attributes.{mode_word as mode_word_of};
ghost use Rattle.std.specs.Fmt.{decimal, digits};

use bx_base::{OutOfMemory, Raw};
use bx_model::Tree;
use bx_tree_files::{Body, Content, File, Name, NameList, mode_word, size_of};
use std::alloc::Global;

/// How many bytes of a file have a line.
const PIECE: usize = 4096;

/// The listing: a line for each file, in the order of their handles, and behind it the lines of what the file
/// contains.
pub fn listing(tree: &Tree) -> Result<Raw, OutOfMemory>
    ensures { IfOk result (λ text. text ≡ listing_of tree.now) }
{
    let alloc = tree.files.allocator();
    let mut text = Vec::new(alloc);
    for file in tree.files.iter() {
        put_file(&mut text, alloc, file)?;
    }
    Ok(Raw::from(text))
}

/// Puts the lines of a file at the end of a text.
fn put_file(text: &mut Vec<u8>, alloc: Global, file: &File) -> Result<(), OutOfMemory>
    requires { IsFile file.now }
    ensures { OnOk result (text.new.items ≡ text.old.items ++ text_of (line_of_file file.now ∷ body_lines file.now.body)) }
{
    put_line(text, &file_line(alloc, file)?)?;
    put_body(text, alloc, &file.body)
}

/// Puts the lines of what a file contains at the end of a text.
fn put_body(text: &mut Vec<u8>, alloc: Global, body: &Body) -> Result<(), OutOfMemory>
    requires { body_size body.now < 2 ^ 31 }
    ensures { OnOk result (text.new.items ≡ text.old.items ++ text_of (body_lines body.now)) }
{
    match body {
        Body::Bytes(content) => put_data(text, alloc, content),
        Body::Path(path) => put_line(text, &path_line(alloc, path.bytes())?),
        Body::Names(parent, next, names) => {
            put_line(text, &dir_line(alloc, *parent, *next)?)?;
            put_names(text, alloc, names)
        }
    }
}

/// Puts a line for each entry at the end of a text.
fn put_names(text: &mut Vec<u8>, alloc: Global, names: &NameList) -> Result<(), OutOfMemory>
    ensures { OnOk result (text.new.items ≡ text.old.items ++ text_of (map line_of_name names.now)) }
{
    for name in names.iter() {
        put_line(text, &name_line(alloc, name)?)?;
    }
    Ok(())
}

/// Puts a line for each piece of a file's bytes that isn't all zeros at the end of a text.
fn put_data(text: &mut Vec<u8>, alloc: Global, content: &Content) -> Result<(), OutOfMemory>
    requires { length content.now < 2 ^ 31 }
    ensures { OnOk result (text.new.items ≡ text.old.items ++ text_of (data_lines ((length content.now + 4095) / 4096) 0 content.now)) }
{
    let mut from = 0;
    while let Some((index, piece)) = content.next_piece(from) {
        put_piece(text, alloc, PIECE * index as usize, piece)?;
        from = index + 1;
    }
    Ok(())
}

/// Puts the line of a piece of a file's bytes at the end of a text, if the piece isn't all zeros.
fn put_piece(
    text: &mut Vec<u8>,
    alloc: Global,
    offset: usize,
    piece: &[u8],
) -> Result<(), OutOfMemory>
    ensures { OnOk result (text.new.items ≡ text.old.items ++ text_of (if list_any (nat_lt 0) piece.now then spaced (codes "data" ∷ decimal offset ∷ encode_lower piece.now ∷ []) ∷ [] else [])) }
{
    if has_content(piece) {
        put_line(text, &data_line(alloc, offset, piece)?)?;
    }
    Ok(())
}

/// Whether not all bytes of a piece are zeros.
fn has_content(piece: &[u8]) -> bool
    ensures { result ≡ list_any (nat_lt 0) piece.now }
{
    piece.iter().any(|byte| *byte > 0)
}

/// Puts a line at the end of a text, with the line feed that ends it.
fn put_line(text: &mut Vec<u8>, line: &String) -> Result<(), OutOfMemory>
    ensures { OnOk result (text.new.items ≡ text.old.items ++ ended (string_bytes line.now)) }
{
    text.extend_from_slice(line.as_bytes())?;
    text.push(b'\n')?;
    Ok(())
}

/// A file's line: its handle, and its attributes.
fn file_line(alloc: Global, file: &File) -> Result<String, OutOfMemory>
    requires { IsFile file.now }
    ensures { IfOk result (λ line. string_bytes line ≡ line_of_file file.now) }
{
    let kind = kind_text(alloc, file)?;
    let owner = owner_text(alloc, file)?;
    let times = times_text(alloc, file)?;
    let line = format!(in alloc; "file {kind} {owner} {times}")?;
    Ok(line)
}

/// A file's handle, type and mode.
fn kind_text(alloc: Global, file: &File) -> Result<String, OutOfMemory>
    ensures { IfOk result (λ text. string_bytes text ≡ spaced (sixteen_digits file.now.handle ∷ decimal file.now.kind ∷ digits 8 false (mode_word_of file.now) ∷ [])) }
{
    let handle = hex::encode(alloc, file.handle.to_be_bytes())?;
    let mode = mode_word(file);
    let text = format!(in alloc; "{handle} {} {mode:o}", file.kind)?;
    Ok(text)
}

/// A file's links, owner, group and size.
fn owner_text(alloc: Global, file: &File) -> Result<String, OutOfMemory>
    requires { IsFile file.now }
    ensures { IfOk result (λ text. string_bytes text ≡ spaced (decimal file.now.nlink ∷ decimal file.now.uid ∷ decimal file.now.gid ∷ decimal (body_size file.now.body) ∷ [])) }
{
    let size = size_of(&file.body);
    let text = format!(in alloc; "{} {} {} {size}", file.nlink, file.uid, file.gid)?;
    Ok(text)
}

/// A file's three times.
fn times_text(alloc: Global, file: &File) -> Result<String, OutOfMemory>
    ensures { IfOk result (λ text. string_bytes text ≡ spaced (text_of_time file.now.atime ∷ text_of_time file.now.mtime ∷ text_of_time file.now.ctime ∷ [])) }
{
    let atime = time_text(alloc, file.atime)?;
    let mtime = time_text(alloc, file.mtime)?;
    let ctime = time_text(alloc, file.ctime)?;
    let text = format!(in alloc; "{atime} {mtime} {ctime}")?;
    Ok(text)
}

/// A directory's line: its parent, and the number that its next entry gets.
fn dir_line(alloc: Global, parent: u64, next: u32) -> Result<String, OutOfMemory>
    ensures { IfOk result (λ line. string_bytes line ≡ line_of_dir parent next) }
{
    let parent = hex::encode(alloc, parent.to_be_bytes())?;
    let line = format!(in alloc; "dir {parent} {next}")?;
    Ok(line)
}

/// An entry's line: its number, the handle of the file that it names, and its name.
fn name_line(alloc: Global, name: &Name) -> Result<String, OutOfMemory>
    ensures { IfOk result (λ line. string_bytes line ≡ line_of_name name.now) }
{
    let handle = hex::encode(alloc, name.handle.to_be_bytes())?;
    let bytes = hex::encode(alloc, name.name.bytes())?;
    let line = format!(in alloc; "name {} {handle} {bytes}", name.number)?;
    Ok(line)
}

/// A symbolic link's line: its path.
fn path_line(alloc: Global, path: &[u8]) -> Result<String, OutOfMemory>
    ensures { IfOk result (λ line. string_bytes line ≡ spaced (codes "path" ∷ encode_lower path.now ∷ [])) }
{
    let path = hex::encode(alloc, path)?;
    let line = format!(in alloc; "path {path}")?;
    Ok(line)
}

/// The line of a piece of a file's bytes: where it begins, and its bytes.
fn data_line(alloc: Global, offset: usize, piece: &[u8]) -> Result<String, OutOfMemory>
    ensures { IfOk result (λ line. string_bytes line ≡ spaced (codes "data" ∷ decimal offset ∷ encode_lower piece.now ∷ [])) }
{
    let piece = hex::encode(alloc, piece)?;
    let line = format!(in alloc; "data {offset} {piece}")?;
    Ok(line)
}

/// Seconds, a dot, and six digits of microseconds.
fn time_text(alloc: Global, time: (u32, u32)) -> Result<String, OutOfMemory>
    ensures { IfOk result (λ text. string_bytes text ≡ text_of_time time) }
{
    let text = format!(in alloc; "{}.{:06}", time.0, time.1)?;
    Ok(text)
}
