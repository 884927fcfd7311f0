//! The event of a line that is one event.

ghost use Rattle.std.specs.Prelude.{◌≡◌, IfSome, is_some};
ghost use Rattle.bx_schedule.specs.Doing.{noise_of};
ghost use Rattle.bx_schedule.specs.Refusing.{IsEventOf, is_event};

use bx_cluster::Cluster;
use bx_disk::Noise;
use bx_driver::delivery_between;
use bx_script::Line;
use bx_world_events::{Event, Shows};

/// The event of a line that is one event; `None` exactly where it is another line. It takes no memory.
pub(crate) fn event_of<'a, C: Cluster>(cluster: &C, line: &'a Line) -> Option<Event<'a>>
    ensures of { IfSome result (λ event. IsEventOf (C.seen cluster.now) line.now event) }
    ensures some { is_some result ≡ is_event line.now }
{
    match line {
        Line::Call {
            reading,
            node,
            client,
            datagram,
        } => Some(Event::Call {
            reading: *reading,
            node: *node,
            client: *client,
            bytes: datagram.bytes(),
        }),
        Line::Tick { reading, machine } => Some(Event::Tick {
            reading: *reading,
            at: *machine,
        }),
        Line::Deliver { reading, number } => Some(Event::Deliver {
            reading: *reading,
            number: *number,
        }),
        Line::Next { reading, from, to } => Some(delivery_between(cluster, *from, *to, *reading)),
        Line::Sync { machine } => Some(Event::Sync { at: *machine }),
        Line::Crash { machine, .. } => Some(Event::Crash { at: *machine }),
        Line::Restart { reading, machine } => Some(Event::Restart {
            reading: *reading,
            at: *machine,
        }),
        Line::Blank { machine } => Some(Event::Blank { at: *machine }),
        Line::Heading { .. }
        | Line::Run { .. }
        | Line::Hold { .. }
        | Line::Free { .. }
        | Line::Drop { .. }
        | Line::CrashAll { .. }
        | Line::RestartAll { .. } => None,
    }
}

/// What unsure sectors hold behind a crash in a line.
pub(crate) fn noise_of(line: &Line) -> Noise
    ensures { result ≡ noise_of line.now }
{
    match line {
        Line::Crash { noise, .. } | Line::CrashAll { noise } => *noise,
        Line::Heading { .. }
        | Line::Call { .. }
        | Line::Run { .. }
        | Line::Tick { .. }
        | Line::Deliver { .. }
        | Line::Next { .. }
        | Line::Sync { .. }
        | Line::Hold { .. }
        | Line::Free { .. }
        | Line::Drop { .. }
        | Line::Restart { .. }
        | Line::RestartAll { .. }
        | Line::Blank { .. } => Noise::Keep,
    }
}
