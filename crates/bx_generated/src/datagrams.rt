//! The datagrams of calls.

ghost use Rattle.std.specs.Prelude.{◌≡◌, ◌≤◌, ◌<◌, ◌^◌, ◌++◌, ◌+◌, ◌*◌, IfOk, OnOk, decimal};
ghost use Rattle.bx_xdr.specs.Items.{fixed_text, opaque_text};
ghost use Rattle.bx_generated.specs.declared.draws.Procedure.TheVariants.{Write};
ghost use Rattle.bx_generated.specs.Datagrams.{arguments, attributes_text, datagram, name_of, number_of, place_text, root_text};

use crate::draws::{Draw, Procedure};
use bx_base::{OutOfMemory, Raw};
use bx_places::file_handle;
use bx_xdr::Writer;
use itoa::Buffer;
use std::alloc::Global;

/// The number of the root's handle: slot 0 of area 0, in generation 1.
const ROOT: u64 = 1;

/// NFS, and the version of it and of RPC.
const NFS: u32 = 100003;

const VERSION: u32 = 2;

/// What an attribute is that isn't set.
const UNSET: u32 = u32::MAX;

/// The modes of files and of directories.
const FILE_MODE: u32 = 0o644;

const DIRECTORY_MODE: u32 = 0o755;

/// What is written to files.
const CONTENT: [u8; 100] = [b'x'; 100];

/// The datagram of the call with a number, from 1 on, of a volume.
#[tactic(auto, unfolding(crate::specs::Datagrams::datagram, crate::specs::Datagrams::header))]
pub(crate) fn datagram(
    alloc: Global,
    volume: u64,
    number: u32,
    draw: &Draw,
) -> Result<Raw, OutOfMemory>
    requires first { draw.now.first < 100 }
    requires second { draw.now.second < 100 }
    ensures { IfOk result (λ raw. raw ≡ datagram volume number draw.now) }
{
    let mut writer = Writer::new(alloc);
    let procedure = procedure_number(draw.procedure);
    writer.put_words(&[number, 0, VERSION, NFS, VERSION, procedure, 0, 0, 0, 0])?;
    put_arguments(alloc, &mut writer, volume, draw)?;
    Ok(writer.into_raw())
}

/// The number of a procedure of NFS.
fn procedure_number(procedure: Procedure) -> u32
    ensures { result ≡ number_of procedure }
{
    match procedure {
        Procedure::Create => 9,
        Procedure::Lookup => 4,
        Procedure::Remove => 10,
        Procedure::Mkdir => 14,
        Procedure::Rmdir => 15,
        Procedure::Rename => 11,
        Procedure::Readdir => 16,
        Procedure::Write => 8,
        Procedure::Statfs => 17,
        Procedure::Symlink => 13,
    }
}

/// Puts the arguments of a call.
#[tactic(auto, unfolding(crate::specs::Datagrams::arguments))]
fn put_arguments(
    alloc: Global,
    writer: &mut Writer,
    volume: u64,
    draw: &Draw,
) -> Result<(), OutOfMemory>
    requires first { draw.now.first < 100 }
    requires second { draw.now.second < 100 }
    ensures { OnOk result (writer.new ≡ writer.old ++ arguments volume draw.now.procedure draw.now.first draw.now.second) }
{
    match draw.procedure {
        Procedure::Create => put_made(alloc, writer, volume, draw.first, FILE_MODE),
        Procedure::Mkdir => put_made(alloc, writer, volume, draw.first, DIRECTORY_MODE),
        Procedure::Lookup | Procedure::Remove | Procedure::Rmdir => {
            put_place(alloc, writer, volume, draw.first)
        }
        Procedure::Rename => {
            put_place(alloc, writer, volume, draw.first)?;
            put_place(alloc, writer, volume, draw.second)
        }
        Procedure::Readdir => {
            put_root(writer, volume)?;
            writer.put_words(&[0, 4096])
        }
        Procedure::Write => put_written(writer, volume, draw.first, draw.second),
        Procedure::Statfs => put_root(writer, volume),
        Procedure::Symlink => {
            put_place(alloc, writer, volume, draw.first)?;
            writer.put_opaque(b"f")?;
            put_attributes(writer, UNSET)
        }
    }
}

/// Puts a name in the root, and attributes with a mode.
fn put_made(
    alloc: Global,
    writer: &mut Writer,
    volume: u64,
    name: u32,
    mode: u32,
) -> Result<(), OutOfMemory>
    ensures { OnOk result (writer.new ≡ writer.old ++ (place_text volume name ++ attributes_text mode)) }
{
    put_place(alloc, writer, volume, name)?;
    put_attributes(writer, mode)
}

/// Puts the file handle of a file, its place and what is written there.
#[tactic(auto, unfolding(crate::specs::Datagrams::arguments))]
fn put_written(writer: &mut Writer, volume: u64, first: u32, second: u32) -> Result<(), OutOfMemory>
    requires first { first < 100 }
    requires second { second < 100 }
    ensures { OnOk result (writer.new ≡ writer.old ++ arguments volume Write first second) }
{
    let handle = (u64::from(2 + 2 * first) << 32) + 1;
    writer.put_fixed(&file_handle(volume, handle))?;
    writer.put_words(&[0, 97 * second, 0])?;
    writer.put_opaque(&CONTENT)?;
    Ok(())
}

/// Puts the root's file handle.
#[tactic(auto, unfolding(crate::specs::Datagrams::root_text))]
fn put_root(writer: &mut Writer, volume: u64) -> Result<(), OutOfMemory>
    ensures { OnOk result (writer.new ≡ writer.old ++ root_text volume) }
{
    writer.put_fixed(&file_handle(volume, ROOT))
}

/// Puts the root's file handle, and the name with a number.
#[tactic(auto, unfolding(crate::specs::Datagrams::place_text))]
fn put_place(
    alloc: Global,
    writer: &mut Writer,
    volume: u64,
    number: u32,
) -> Result<(), OutOfMemory>
    ensures { OnOk result (writer.new ≡ writer.old ++ place_text volume number) }
{
    put_root(writer, volume)?;
    let name = name(alloc, number)?;
    writer.put_opaque(name.as_slice())?;
    Ok(())
}

/// The name with a number: the letter f, and the number.
fn name(alloc: Global, number: u32) -> Result<Vec<u8>, OutOfMemory>
    ensures { IfOk result (λ name. name.items ≡ name_of number) }
{
    let mut digits = Buffer::new();
    let mut name = Vec::from_slice(alloc, b"f")?;
    name.extend_from_slice(digits.format(number).as_bytes())?;
    Ok(name)
}

/// Puts attributes to set: a mode, where it isn't `UNSET`.
#[tactic(auto, unfolding(crate::specs::Datagrams::attributes_text))]
fn put_attributes(writer: &mut Writer, mode: u32) -> Result<(), OutOfMemory>
    ensures { OnOk result (writer.new ≡ writer.old ++ attributes_text mode) }
{
    writer.put_words(&[mode, UNSET, UNSET, UNSET, UNSET, UNSET, UNSET, UNSET])
}
