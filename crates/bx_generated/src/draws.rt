//! What is drawn for a call.

ghost use Rattle.std.specs.Prelude.{◌≡◌, ◌<◌, ◌≤◌};
ghost use Rattle.bx_disk.specs.Crash.{seeded};
ghost use Rattle.bx_generated.specs.Draws.{after_five, after_word, drawn, procedure_of, word_of};

use rand_core::SeedableRng;
use rand_core::utils::NextWord;
use rand_pcg::Pcg32;

/// A procedure that a generated schedule calls.
#[derive(Clone, Copy, PartialEq, Eq, Debug)]
pub enum Procedure {
    /// CREATE of the first name.
    Create,
    /// LOOKUP of the first name.
    Lookup,
    /// REMOVE of the first name.
    Remove,
    /// MKDIR of the first name.
    Mkdir,
    /// RMDIR of the first name.
    Rmdir,
    /// RENAME of the first name to the second.
    Rename,
    /// READDIR of the root.
    Readdir,
    /// WRITE to a file, which the first number tells, at a place, which the second tells.
    Write,
    /// STATFS.
    Statfs,
    /// SYMLINK of the first name.
    Symlink,
}

/// What is drawn for a call.
#[derive(Clone, Copy, PartialEq, Eq, Debug)]
pub struct Draw {
    /// The node that it comes to; the client has that number too.
    pub node: u32,
    /// Its procedure.
    pub procedure: Procedure,
    /// The number of the first name, below 100.
    pub first: u32,
    /// The number of the second name, below 100.
    pub second: u32,
    /// Below 10. At 0 the call comes again; at 1 wants of its node are held back meanwhile.
    pub turn: u32,
}

/// The generator with a seed.
#[tactic(auto, unfolding(bx_disk::specs::Crash::seeded))]
pub(crate) fn seeded(seed: u64) -> Pcg32
    ensures { result ≡ seeded seed }
{
    Pcg32::seed_from_u64(seed)
}

/// Draws a call for one of so many nodes.
pub(crate) fn next_draw(generator: &mut Pcg32, nodes: u32) -> Draw
    requires { 0 < nodes }
    ensures value { result ≡ drawn nodes generator.old }
    ensures first { result.first < 100 }
    ensures second { result.second < 100 }
    ensures after { generator.new ≡ after_five generator.old }
{
    Draw {
        node: next_word(generator) % nodes,
        procedure: procedure_with(next_word(generator) % 10),
        first: next_word(generator) % 100,
        second: next_word(generator) % 100,
        turn: next_word(generator) % 10,
    }
}

/// Draws a word.
#[tactic(auto, unfolding(crate::specs::Draws::word_of, crate::specs::Draws::after_word))]
fn next_word(generator: &mut Pcg32) -> u32
    ensures value { result ≡ word_of generator.old }
    ensures after { generator.new ≡ after_word generator.old }
{
    generator.next_word()
}

/// The procedure with a number below 10.
fn procedure_with(number: u32) -> Procedure
    ensures { result ≡ procedure_of number }
{
    match number {
        0 => Procedure::Create,
        1 => Procedure::Lookup,
        2 => Procedure::Remove,
        3 => Procedure::Mkdir,
        4 => Procedure::Rmdir,
        5 => Procedure::Rename,
        6 => Procedure::Readdir,
        7 => Procedure::Write,
        8 => Procedure::Statfs,
        _ => Procedure::Symlink,
    }
}
