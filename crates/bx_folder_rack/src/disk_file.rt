//! A disk in a file.

ghost use Rattle.std.specs.Prelude.{◌≡◌, ◌*◌, ◌^◌, ◌<◌, ◌↔◌, IfOk, IsErr, IsOk, OnErr, OnOk};
ghost use Rattle.bx_folder_rack.specs.Waits.{after_write};
ghost use Rattle.bx_folder_rack.specs.declared.disk_file.Writes.TheVariants.{Synced, Waiting, Lost};

use std::fs::OpenFile;
use std::io;
use std::io::ErrorKind;
use std::os::unix::fs::FileExt;

/// How many bytes a sector has.
pub const SECTOR: u64 = 512;

/// What became of the writes since the last sync.
#[derive(Clone, Copy, PartialEq, Eq)]
enum Writes {
    /// There were none.
    Synced,
    /// They wait for a sync.
    Waiting,
    /// A sync failed: the system may have dropped some of them.
    Lost,
}

/// A disk, in a file that is open, or that couldn't be opened.
#[derive(Drop)]
pub struct DiskFile<F: FileExt + OpenFile + Drop> {
    file: Option<F>,
    writes: Writes,
}

impl<F: FileExt + OpenFile + Drop> DiskFile<F> {
    /// A disk of which nothing was written yet. Without a file each of its calls fails.
    pub fn new(file: Option<F>) -> DiskFile<F>
        ensures { result ≡ record { file = file; writes = Synced } }
    {
        DiskFile {
            file,
            writes: Writes::Synced,
        }
    }

    /// Reads bytes from a sector on.
    pub fn read(&self, sector: u64, into: &mut [u8]) -> io::Result<()> {
        self.file()?.read_exact_at(into, place_of(sector)?)
    }

    /// Writes bytes from a sector on. Where it fails, some of them may be written.
    pub fn write(&mut self, sector: u64, bytes: &[u8]) -> io::Result<()>
        ensures { self.new.writes ≡ after_write self.old.writes }
    {
        if self.writes == Writes::Synced {
            self.writes = Writes::Waiting;
        }
        self.file()?.write_all_at(bytes, place_of(sector)?)
    }

    /// Has the system write what waits. It isn't asked where nothing does. Once it failed, each later sync fails too.
    pub fn sync(&mut self) -> io::Result<()>
        ensures ok { OnOk result (self.new.writes ≡ Synced) }
        ensures fails { self.old.writes ≡ Waiting → OnErr result (self.new.writes ≡ Lost) }
        ensures lost { self.old.writes ≡ Lost → IsErr result × (self.new.writes ≡ Lost) }
    {
        match self.writes {
            Writes::Synced => {
                self.file()?;
            }
            Writes::Waiting => {
                self.writes = Writes::Lost;
                self.file()?.sync_data()?;
                self.writes = Writes::Synced;
            }
            Writes::Lost => return Err(ErrorKind::Other.into()),
        }
        Ok(())
    }

    /// The file.
    fn file(&self) -> io::Result<&F> {
        self.file.as_ref().ok_or(ErrorKind::NotFound.into())
    }
}

/// Where a sector begins in a file, in bytes. An error of the kind `FileTooLarge` exactly where that is no number of 64 bits.
pub fn place_of(sector: u64) -> io::Result<u64>
    ensures place { IfOk result (λ place. place ≡ sector * 512) }
    ensures ok { IsOk result ↔ (sector * 512 < 2 ^ 64) }
{
    sector
        .checked_mul(SECTOR)
        .ok_or(ErrorKind::FileTooLarge.into())
}
