//! What an event of a stream leaves, what a write's end means, and who is told of it.

ghost use Rattle.std.specs.Prelude.{◌≡◌, ◌↔◌, ℕ, List, Contains, None, Some, true};
ghost use Rattle.bx_facts.specs.declared.input.Input.{Input};
ghost use Rattle.bx_global.specs.declared.state.GlobalState.{GlobalState};
ghost use Rattle.bx_post.specs.declared.packets.Letter.{Letter};
ghost use Rattle.bx_rows.specs.declared.device.DeviceRow.{DeviceRow};
ghost use Rattle.bx_mirror_client.specs.Events.{Takes};
ghost use Rattle.bx_mirror_client.specs.Leaving.{EndsDone, Leaves};
ghost use Rattle.bx_mirror_client.specs.Letters.{letters_from};
ghost use Rattle.bx_mirror_client.specs.Sends.{is_done};
ghost use Rattle.bx_mirror_client.specs.Streams.{Streaming};
ghost use Rattle.bx_mirror_client.specs.Telling.{IsDone, IsTold};
ghost use Rattle.bx_mirror_client.specs.declared.sending.Sending.{Sending};

/// After an event a stream knows the state, and the session that it has there; what is out stays as it is, or goes.
pub fn an_event_leaves()
    ensures { (c new : Streaming) (known : GlobalState) (input : Input) (before after : List Letter) → Takes c known input new before after → Leaves c known new }
{}

/// A write goes with its session, or it is done in the state that the stream knows then.
pub fn a_write_ends_done()
    ensures { (c new : Streaming) (known : GlobalState) (input : Input) (before after : List Letter) (s : Sending) → Takes c known input new before after → c.out ≡ Some s → new.out ≡ None → new.session ≡ Some s.session → EndsDone s known.devices input }
{}

/// A write is done exactly where each device that has some of its runs is in no copy mode, and each of the device's members to which writes go
/// has acknowledged in its epoch.
pub fn done_is()
    ensures { (s : Sending) (rows : List DeviceRow) → (is_done s rows ≡ true) ↔ IsDone s rows }
{}

/// Exactly those members are told of a write to which it goes, which haven't acknowledged, and whose device has a new epoch.
pub fn letters_are()
    ensures { (before rows : List DeviceRow) (node : ℕ) (s : Sending) (letter : Letter) → Contains (letters_from before node s 0 rows) letter ↔ IsTold before node s rows letter }
{}
