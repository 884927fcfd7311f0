//! The numbers of a command line.

ghost use Rattle.std.specs.Prelude.{◌≡◌, ◌≢◌, ◌≤◌, ℕ, IfSome, None, [], ◌∷◌, codes, decimal, map, string_bytes};
ghost use Rattle.bx_command_line.specs.CommandLines.{Spell};
ghost use Rattle.bx_command_line.specs.declared.command_line.CommandLine.TheVariants.{Format, Make};

use crate::command_line::CommandLine;
use itoa::Buffer;

/// The command line `format V D A` that these words spell; `None` where they don't.
pub fn format_line(words: &[String]) -> Option<CommandLine>
    ensures some { IfSome result (λ line. Spell (map string_bytes words.now) line) }
    ensures none { result ≡ None → (volume devices areas : ℕ) → Spell (map string_bytes words.now) (Format volume devices areas) → ⊥ }
{
    let [name, volume, devices, areas] = words else {
        return None;
    };
    if name.as_str() != "format" {
        return None;
    }
    Some(CommandLine::Format {
        volume: number(volume.as_str(), 0, u64::MAX)?,
        devices: number(devices.as_str(), 1, 4)? as u32,
        areas: number(areas.as_str(), 1, 64)? as u16,
    })
}

/// The command line `make S N C` that these words spell; `None` where they don't.
pub fn make_line(words: &[String]) -> Option<CommandLine>
    ensures some { IfSome result (λ line. Spell (map string_bytes words.now) line) }
    ensures none { result ≡ None → (seed nodes calls : ℕ) → Spell (map string_bytes words.now) (Make seed nodes calls) → ⊥ }
{
    let [name, seed, nodes, calls] = words else {
        return None;
    };
    if name.as_str() != "make" {
        return None;
    }
    Some(CommandLine::Make {
        seed: number(seed.as_str(), 0, u64::MAX)?,
        nodes: number(nodes.as_str(), 1, 4)? as u32,
        calls: number(calls.as_str(), 1, 20000)? as u32,
    })
}

// The number that a word spells, decimal, without sign or leading zeros: it is the word that the number is written as. `None` too where the
// number is below the least or above the most.
fn number(word: &str, least: u64, most: u64) -> Option<u64>
    ensures some { IfSome result (λ number. (word.now ≡ decimal number) × (least ≤ number) × (number ≤ most)) }
    ensures none { result ≡ None → (number : ℕ) → least ≤ number → number ≤ most → word.now ≢ decimal number }
{
    let number = word.parse::<u64>().ok()?;
    let mut digits = Buffer::new();
    if digits.format(number) == word && least <= number && number <= most {
        Some(number)
    } else {
        None
    }
}
