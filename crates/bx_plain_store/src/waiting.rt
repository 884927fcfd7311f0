//! What members wait for.

ghost use Rattle.std.specs.Prelude.{◌≡◌, ◌&&◌};
ghost use Rattle.std.specs.List.{list_any};
ghost use Rattle.bx_plain_store.specs.Waiting.{all_up, first_device, is_due, is_sync, is_unanswered};

use crate::inquiries::Inquiry;
use crate::writes::Write;
use bx_base::{Actor, List};
use bx_facts::Input;
use bx_records::Run;

/// Whether no member is down.
pub(crate) fn is_all_up(down: &[bool]) -> bool
    ensures { result ≡ all_up down.now }
{
    down.iter().all(|is_down| !*is_down)
}

/// The device of the first run, or the first device.
fn first_device(runs: &List<Run>) -> u32
    ensures { result ≡ first_device runs.now }
{
    match runs.get(0) {
        Some(run) => run.device,
        None => 0,
    }
}

/// Whether a write waits for a member.
fn is_due(greatest: u64, member: u32, slot: &Option<Write>) -> bool
    ensures { result ≡ is_due greatest member slot.now }
{
    let Some(write) = slot else {
        return false;
    };
    let is_over = greatest > 500 && write.until < greatest - 500;
    !is_over && 2 * u64::from(first_device(&write.runs)) == u64::from(member)
}

/// Whether a read waits for a member.
fn is_unanswered(member: u32, slot: &Option<Inquiry>) -> bool
    ensures { result ≡ is_unanswered member slot.now }
{
    let Some(inquiry) = slot else {
        return false;
    };
    inquiry.answer.is_none() && 2 * u64::from(inquiry.ask.device) == u64::from(member)
}

/// Whether some write waits for a member.
pub(crate) fn is_any_due(greatest: u64, member: u32, slots: &[Option<Write>]) -> bool
    ensures { result ≡ list_any (is_due greatest member) slots.now }
{
    slots.iter().any(|slot| is_due(greatest, member, slot))
}

/// Whether some read waits for a member.
pub(crate) fn is_any_unanswered(member: u32, inquiries: &[Option<Inquiry>]) -> bool
    ensures { result ≡ list_any (is_unanswered member) inquiries.now }
{
    inquiries.iter().any(|slot| is_unanswered(member, slot))
}

/// Whether the disk of a member has finished a sync.
fn is_sync(at: Actor, input: &Input) -> bool
    ensures { result ≡ is_sync at input.now }
{
    match at {
        Actor::Member(_) => match input {
            Input::Synced => true,
            Input::Packet(_, _) | Input::Tick(_) => false,
        },
        Actor::Node(_) | Actor::Replica(_) | Actor::Server(_) => false,
    }
}

/// Whether the disk of a member has finished a sync while no member is down.
pub(crate) fn is_time(at: Actor, input: &Input, down: &[bool]) -> bool
    ensures { result ≡ (is_sync at input.now && all_up down.now) }
{
    is_sync(at, input) && is_all_up(down)
}
