//! What a node does and learns, as events of a store whose members and streams fit what was done with it.

ghost use Rattle.std.specs.Prelude.{◌≡◌, ◌≢◌, ℕ, ◌<◌, ◌≤◌, ◌⊎◌, ◌==◌, ◌++◌, Bool, true, false, List, None, Some, length};
ghost use Rattle.bx_base.specs.declared.names.Actor.TheVariants.{Node};
ghost use Rattle.bx_disk.specs.Disks.{Disks};
ghost use Rattle.bx_facts.specs.Inputs.{IsComing as Arrives};
ghost use Rattle.bx_facts.specs.Chains.{LivesIn, last};
ghost use Rattle.bx_facts.specs.Writes.{StorePast, WritesIn, store_heard, store_with};
ghost use Rattle.bx_facts.specs.declared.input.Input.{Input};
ghost use Rattle.bx_global.specs.declared.state.GlobalState.{GlobalState};
ghost use Rattle.bx_post.specs.declared.packets.Letter.{Letter};
ghost use Rattle.bx_rows.specs.declared.device.DeviceRow.{DeviceRow};
ghost use Rattle.bx_mirror_client.specs.Events.{Takes};
ghost use Rattle.bx_mirror_client.specs.Letters.{letters_from};
ghost use Rattle.bx_mirror_client.specs.Sends.{is_done};
ghost use Rattle.bx_mirror_client.specs.Streams.{Streaming};
ghost use Rattle.bx_mirror_client.specs.declared.asking.Asking.{Asking};
ghost use Rattle.bx_mirror_client.specs.declared.sending.Sending.{Sending};
ghost use Rattle.bx_mirror_cluster.specs.Fitting.{IsSettledOn, Keeps, Parts, StandsOn, WillReadOn};
ghost use Rattle.bx_mirror_cluster.specs.GoingOn.{letters_more};
ghost use Rattle.bx_mirror_cluster.specs.GoesFurther.{StreamsGo};
ghost use Rattle.bx_mirror_cluster.specs.MemberSteps.{IsFor};
ghost use Rattle.bx_mirror_cluster.specs.Learning.{Learned, MayLearn, knowing, with_clock};
ghost use Rattle.bx_mirror_cluster.specs.Writing.{with_stream};

/// A write that is done ends, whether its session lives or not: it may be taken no more, or only by who is left out; what was settled, stood or is
/// read goes on.
pub fn a_write_ends()
    ensures keeps { (parts : Parts) (x : Disks) (past : StorePast) (node : ℕ) (write : Sending) → Keeps parts x past → (parts.nodes node).out ≡ Some write → (write.sequence == 0) ≡ false → is_done write (parts.nodes node).rows ≡ true
        → Keeps (with_stream parts node (record (parts.nodes node) { out = None })) x past }
    ensures settles { (parts : Parts) (x : Disks) (past : StorePast) (node device sector : ℕ) (content : List ℕ) → IsSettledOn parts x past device sector content
        → IsSettledOn (with_stream parts node (record (parts.nodes node) { out = None })) x past device sector content }
    ensures stands { (parts : Parts) (x : Disks) (past : StorePast) (node device sector : ℕ) (content : List ℕ) (index : ℕ) → StandsOn parts x past device sector content index
        → StandsOn (with_stream parts node (record (parts.nodes node) { out = None })) x past device sector content index }
{}

/// A node learns a state: all goes on fitting, and so does what was settled, stood or is read.
pub fn a_state_is_learned()
    ensures keeps { (parts : Parts) (x : Disks) (past : StorePast) (node : ℕ) (known : GlobalState) (new : Streaming) → Keeps parts x past → MayLearn parts past node known → Learned (parts.nodes node) known new
        → Keeps (with_stream parts node new) x (knowing past node known.index) }
    ensures settles { (parts : Parts) (x : Disks) (past : StorePast) (node : ℕ) (known : GlobalState) (new : Streaming) (device sector : ℕ) (content : List ℕ) → Keeps parts x past → MayLearn parts past node known → Learned (parts.nodes node) known new
        → IsSettledOn parts x past device sector content → IsSettledOn (with_stream parts node new) x (knowing past node known.index) device sector content }
    ensures stands { (parts : Parts) (x : Disks) (past : StorePast) (node : ℕ) (known : GlobalState) (new : Streaming) (device sector : ℕ) (content : List ℕ) (index : ℕ) → Keeps parts x past → MayLearn parts past node known → Learned (parts.nodes node) known new
        → StandsOn parts x past device sector content index → StandsOn (with_stream parts node new) x (knowing past node known.index) device sector content index }
    ensures others { (parts : Parts) (x : Disks) (past : StorePast) (node : ℕ) (known : GlobalState) (new : Streaming) (reader : ℕ) (read : Asking) (sector : ℕ) (content : List ℕ) → Keeps parts x past → MayLearn parts past node known → Learned (parts.nodes node) known new
        → reader ≢ node → WillReadOn parts x past reader read sector content → WillReadOn (with_stream parts node new) x (knowing past node known.index) reader read sector content }
    ensures own { (parts : Parts) (x : Disks) (past : StorePast) (node : ℕ) (known : GlobalState) (new : Streaming) (was read : Asking) (sector : ℕ) (content : List ℕ) → Keeps parts x past → MayLearn parts past node known → Learned (parts.nodes node) known new
        → (parts.nodes node).asks ≡ Some was → read.session ≡ was.session → read.tag ≡ was.tag → read.device ≡ was.device → read.place ≡ was.place → read.sectors ≡ was.sectors → (read.answer ≡ None) ⊎ (read.answer ≡ was.answer) → was.device < parts.made.devices
        → WillReadOn parts x past node was sector content → WillReadOn (with_stream parts node new) x (knowing past node known.index) node read sector content }
{}

/// Members that are missing are told again of a write that is out, in epochs that aren't those of the rows before: all goes on fitting the past with
/// these letters, and so does what was settled, stood or is read.
pub fn members_are_told_again()
    ensures keeps { (parts : Parts) (x : Disks) (past : StorePast) (node : ℕ) (before : List DeviceRow) (write : Sending) → Keeps parts x past → (parts.nodes node).out ≡ Some write → (write.sequence == 0) ≡ false → length (parts.nodes node).rows ≤ 4
        → Keeps parts x (letters_more past (letters_from before (parts.nodes node).node write 0 (parts.nodes node).rows)) }
    ensures settles { (parts : Parts) (x : Disks) (past : StorePast) (node : ℕ) (before : List DeviceRow) (write : Sending) (device sector : ℕ) (content : List ℕ) → Keeps parts x past → (parts.nodes node).out ≡ Some write → (write.sequence == 0) ≡ false → length (parts.nodes node).rows ≤ 4
        → IsSettledOn parts x past device sector content → IsSettledOn parts x (letters_more past (letters_from before (parts.nodes node).node write 0 (parts.nodes node).rows)) device sector content }
    ensures stands { (parts : Parts) (x : Disks) (past : StorePast) (node : ℕ) (before : List DeviceRow) (write : Sending) (device sector : ℕ) (content : List ℕ) (index : ℕ) → Keeps parts x past → (parts.nodes node).out ≡ Some write → (write.sequence == 0) ≡ false → length (parts.nodes node).rows ≤ 4
        → StandsOn parts x past device sector content index → StandsOn parts x (letters_more past (letters_from before (parts.nodes node).node write 0 (parts.nodes node).rows)) device sector content index }
    ensures reads { (parts : Parts) (x : Disks) (past : StorePast) (node : ℕ) (before : List DeviceRow) (write : Sending) (reader : ℕ) (read : Asking) (sector : ℕ) (content : List ℕ) → Keeps parts x past → (parts.nodes node).out ≡ Some write → (write.sequence == 0) ≡ false → length (parts.nodes node).rows ≤ 4
        → WillReadOn parts x past reader read sector content → WillReadOn parts x (letters_more past (letters_from before (parts.nodes node).node write 0 (parts.nodes node).rows)) reader read sector content }
{}

/// The greatest reading rises, and all goes on fitting; so does what was settled, stood or is read.
pub fn a_reading_rises()
    ensures keeps { (parts : Parts) (x : Disks) (past : StorePast) (greatest : ℕ) → past.told.greatest ≤ greatest → Keeps parts x past → Keeps parts x (with_clock past greatest) }
    ensures settles { (parts : Parts) (x : Disks) (past : StorePast) (greatest device sector : ℕ) (content : List ℕ) → past.told.greatest ≤ greatest → IsSettledOn parts x past device sector content → IsSettledOn parts x (with_clock past greatest) device sector content }
    ensures stands { (parts : Parts) (x : Disks) (past : StorePast) (greatest device sector : ℕ) (content : List ℕ) (index : ℕ) → past.told.greatest ≤ greatest → StandsOn parts x past device sector content index → StandsOn parts x (with_clock past greatest) device sector content index }
    ensures reads { (parts : Parts) (x : Disks) (past : StorePast) (greatest reader : ℕ) (read : Asking) (sector : ℕ) (content : List ℕ) → past.told.greatest ≤ greatest → WillReadOn parts x past reader read sector content → WillReadOn parts x (with_clock past greatest) reader read sector content }
{}

/// All that a stream does in one event: it learns the state that its node is handed, tells members of what is out, and takes what comes. Members and
/// streams fit the past again, with these letters, and what was settled, stood or is read goes on, its own read among that.
pub fn an_event_is_taken()
    ensures { (parts : Parts) (x : Disks) (past : StorePast) (node : ℕ) (known : GlobalState) (input : Input) (new : Streaming) (before after : List Letter) → Keeps parts x (store_with past before) → MayLearn parts (store_with past before) node known
        → length known.devices ≤ 4 → Arrives (past.told.letters ++ before) input → IsFor (Node node) input → Takes (parts.nodes node) known input new before after
        → StreamsGo parts (with_stream parts node new) x (store_with past before) (store_with (store_heard past (Node node) known.index input None) after) }
{}

/// A write that an event ends, where its session lives, stands then in each of its sectors, for those who know the state that its node was handed.
pub fn a_write_that_ends_stands()
    ensures { (parts : Parts) (x : Disks) (past : StorePast) (node : ℕ) (known : GlobalState) (input : Input) (new : Streaming) (before after : List Letter) → Keeps parts x (store_with past before) → MayLearn parts (store_with past before) node known
        → length known.devices ≤ 4 → Arrives (past.told.letters ++ before) input → Takes (parts.nodes node) known input new before after
        → (write : Sending) → (parts.nodes node).out ≡ Some write → new.out ≡ None → new.session ≡ Some write.session → LivesIn (last past.told.chain) write.session
        → (device sector : ℕ) (content : List ℕ) → WritesIn write.runs.1 device sector content → StandsOn (with_stream parts node new) x (store_with (store_heard past (Node node) known.index input None) after) device sector content known.index }
{}
