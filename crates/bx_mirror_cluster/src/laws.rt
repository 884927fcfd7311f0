//! Laws of a store whose members and streams fit what was done with it.

ghost use Rattle.std.specs.Prelude.{◌≡◌, ◌≢◌, ℕ, ◌+◌, ◌-◌, ◌<◌, ◌≤◌, ◌⊎◌, ◌==◌, Bool, true, false, List, [], None, Some, length};
ghost use Rattle.bx_base.specs.declared.names.Actor.TheVariants.{Node};
ghost use Rattle.bx_disk.specs.Disks.{Disks, Image, sector_of};
ghost use Rattle.bx_facts.specs.Chains.{IsPlace, IsStoresOwn, LivesIn, last};
ghost use Rattle.bx_facts.specs.Inputs.{AreAmong, IsStores};
ghost use Rattle.bx_facts.specs.Writes.{HasSettled, IsOfStore, IsOnly, IsSettled, IsSourceIn, NamesUpTo, StorePast, WritesIn, found_store, member_disk, opening_store, store_crashed, store_grown, store_restarted, store_room, without_session};
ghost use Rattle.bx_global.specs.Allowed.{IsAllowed};
ghost use Rattle.bx_global.specs.Table.{IsLegal};
ghost use Rattle.bx_locking.specs.Owned.{AreSingle};
ghost use Rattle.bx_global.specs.declared.change.Change.{Change};
ghost use Rattle.bx_global.specs.declared.state.GlobalState.{GlobalState};
ghost use Rattle.bx_post.specs.declared.packets.Letter.{Letter};
ghost use Rattle.bx_mirror_client.specs.Sends.{is_done};
ghost use Rattle.bx_mirror_client.specs.declared.asking.Asking.{Asking};
ghost use Rattle.bx_mirror_client.specs.declared.sending.Sending.{Sending};
ghost use Rattle.bx_mirror_cluster.specs.GoesFurther.{StreamsGo};
ghost use Rattle.bx_mirror_cluster.specs.NodeSteps.{IsAck, MayRead, parts_acked, parts_asked, past_asked};
ghost use Rattle.bx_mirror_cluster.specs.Writing.{MayHold, MaySend, parts_sent, past_sent, with_stream};
ghost use Rattle.bx_mirror_client.specs.Streams.{answered, restarted, stopped};
ghost use Rattle.bx_mirror_packets.specs.declared.message.WroteBody.{WroteBody};
ghost use Rattle.bx_records.specs.Runs.{KindAndRuns};
ghost use Rattle.bx_mirror_cluster.specs.Fitting.{AreAllRead, IsNewParts, IsSettledOn, Keeps, Parts, StandsOn, WillReadOn, letters_left, outs_of};

/// What stands for readers is settled, and stands for those that know more.
pub fn what_stands_is_settled()
    ensures settles { (parts : Parts) (x : Disks) (past : StorePast) (device sector : ℕ) (content : List ℕ) (index : ℕ) → StandsOn parts x past device sector content index → IsSettledOn parts x past device sector content }
    ensures rises { (parts : Parts) (x : Disks) (past : StorePast) (device sector : ℕ) (content : List ℕ) (index later : ℕ) → index ≤ later → StandsOn parts x past device sector content index → StandsOn parts x past device sector content later }
{}

/// What is settled stands on each member that an audit reads, and surely.
pub fn what_is_settled_stands()
    ensures { (parts : Parts) (x : Disks) (past : StorePast) (device sector : ℕ) (content : List ℕ) → Keeps parts x past → IsSettledOn parts x past device sector content → IsSettled x (last past.told.chain) device sector content }
{}

/// A write that a stream counts as done stands in each of its sectors, for readers of the state that its node knows.
pub fn what_is_done_stands()
    ensures { (parts : Parts) (x : Disks) (past : StorePast) (node : ℕ) (write : Sending) (state : GlobalState) (device sector : ℕ) (content : List ℕ) → Keeps parts x past → (parts.nodes node).out ≡ Some write → (write.sequence == 0) ≡ false
        → IsPlace past.told.chain state → (parts.nodes node).rows ≡ state.devices → LivesIn (last past.told.chain) write.session → is_done write (parts.nodes node).rows ≡ true
        → device < parts.made.devices → WritesIn write.runs.1 device sector content → StandsOn parts x past device sector content state.index }
{}

/// Of a node's session none of the writes may be taken any more, where the node has none out; what was settled or stood goes on.
pub fn nothing_is_out()
    ensures keeps { (parts : Parts) (x : Disks) (past : StorePast) (node session : ℕ) → Keeps parts x past → (parts.nodes node).session ≡ Some session → outs_of parts.nodes node ≡ None → Keeps parts x (without_session past session) }
    ensures settles { (parts : Parts) (x : Disks) (past : StorePast) (node session device sector : ℕ) (content : List ℕ) → Keeps parts x past → (parts.nodes node).session ≡ Some session → outs_of parts.nodes node ≡ None → IsOnly past.writes past.told.greatest device sector content → IsSettledOn parts x past device sector content → IsSettledOn parts x (without_session past session) device sector content }
    ensures stands { (parts : Parts) (x : Disks) (past : StorePast) (node session device sector : ℕ) (content : List ℕ) (index : ℕ) → Keeps parts x past → (parts.nodes node).session ≡ Some session → outs_of parts.nodes node ≡ None → IsOnly past.writes past.told.greatest device sector content → StandsOn parts x past device sector content index → StandsOn parts x (without_session past session) device sector content index }
    ensures reads { (parts : Parts) (x : Disks) (past : StorePast) (node session reader : ℕ) (read : Asking) (sector : ℕ) (content : List ℕ) → Keeps parts x past → (parts.nodes node).session ≡ Some session → outs_of parts.nodes node ≡ None
        → IsOnly past.writes past.told.greatest read.device sector content → WillReadOn parts x past reader read sector content → WillReadOn parts x (without_session past session) reader read sector content }
{}

/// Letters may be lost, and come in any order and number; those of other layers don't matter.
pub fn letters_are_lost()
    ensures keeps { (parts : Parts) (x : Disks) (past : StorePast) (letters : List Letter) → AreAmong IsStores letters past.told.letters → Keeps parts x past → Keeps parts x (letters_left past letters) }
    ensures settles { (parts : Parts) (x : Disks) (past : StorePast) (letters : List Letter) (device sector : ℕ) (content : List ℕ) → AreAmong IsStores letters past.told.letters → IsSettledOn parts x past device sector content → IsSettledOn parts x (letters_left past letters) device sector content }
    ensures stands { (parts : Parts) (x : Disks) (past : StorePast) (letters : List Letter) (device sector : ℕ) (content : List ℕ) (index : ℕ) → AreAmong IsStores letters past.told.letters → StandsOn parts x past device sector content index → StandsOn parts x (letters_left past letters) device sector content index }
    ensures reads { (parts : Parts) (x : Disks) (past : StorePast) (letters : List Letter) (reader : ℕ) (read : Asking) (sector : ℕ) (content : List ℕ) → AreAmong IsStores letters past.told.letters → WillReadOn parts x past reader read sector content → WillReadOn parts x (letters_left past letters) reader read sector content }
{}

/// The chain may grow by each change that is legal, and that was handed back where a store asks for such: all goes on fitting, and so does what was
/// settled, stood or is read.
pub fn grows()
    ensures keeps { (parts : Parts) (x : Disks) (past : StorePast) (change : Change) → Keeps parts x past → IsLegal (last past.told.chain) change → IsStoresOwn past.told.handed change → Keeps parts x (store_grown past change) }
    ensures settles { (parts : Parts) (x : Disks) (past : StorePast) (change : Change) (device sector : ℕ) (content : List ℕ) → Keeps parts x past → IsLegal (last past.told.chain) change → IsStoresOwn past.told.handed change
        → IsSettledOn parts x past device sector content → IsSettledOn parts x (store_grown past change) device sector content }
    ensures stands { (parts : Parts) (x : Disks) (past : StorePast) (change : Change) (device sector : ℕ) (content : List ℕ) (index : ℕ) → Keeps parts x past → IsLegal (last past.told.chain) change → IsStoresOwn past.told.handed change
        → StandsOn parts x past device sector content index → StandsOn parts x (store_grown past change) device sector content index }
    ensures reads { (parts : Parts) (x : Disks) (past : StorePast) (change : Change) (reader : ℕ) (read : Asking) (sector : ℕ) (content : List ℕ) → Keeps parts x past → IsLegal (last past.told.chain) change → IsStoresOwn past.told.handed change
        → WillReadOn parts x past reader read sector content → WillReadOn parts x (store_grown past change) reader read sector content }
{}

/// New members and streams fit each disks that are labelled, and the state that they are made for, whose rows name no boot yet, and where all members
/// are read; or, where that one has no sessions, the state that is found on the disks. What stands surely stands for all.
pub fn begins()
    ensures begins { (parts : Parts) (x : Disks) (s : GlobalState) → IsNewParts s parts → IsAllowed s → AreSingle 0 s → IsOfStore parts.made x s → NamesUpTo 0 s → AreAllRead s → Keeps parts x (opening_store s) }
    ensures finds { (parts : Parts) (x : Disks) (first s : GlobalState) (boot : ℕ) → IsNewParts first parts → first.sessions ≡ [] → IsAllowed s → IsOfStore parts.made x s → NamesUpTo boot s → Keeps parts x (found_store s boot) }
    ensures begins_standing { (parts : Parts) (x : Disks) (s : GlobalState) (device sector : ℕ) (content : List ℕ) → device < parts.made.devices → 1 ≤ sector → sector < store_room parts.made → IsSettled x s device sector content → StandsOn parts x (opening_store s) device sector content s.index }
    ensures finds_standing { (parts : Parts) (x : Disks) (s : GlobalState) (boot device sector : ℕ) (content : List ℕ) → device < parts.made.devices → 1 ≤ sector → sector < store_room parts.made → IsSettled x s device sector content → StandsOn parts x (found_store s boot) device sector content s.index }
{}

/// A node that may send a write sends it: members and streams fit the past with that write and its letters, and what was settled, stood or is read goes
/// on.
pub fn a_write_is_sent()
    ensures keeps { (parts : Parts) (x : Disks) (past : StorePast) (node session until : ℕ) (runs : KindAndRuns) → Keeps parts x past → MaySend parts past node session until runs → Keeps (parts_sent parts node session until runs) x (past_sent parts past node session until runs) }
    ensures settles { (parts : Parts) (x : Disks) (past : StorePast) (node session until : ℕ) (runs : KindAndRuns) (device sector : ℕ) (content : List ℕ) → Keeps parts x past → MaySend parts past node session until runs
        → IsSettledOn parts x past device sector content → IsSettledOn (parts_sent parts node session until runs) x (past_sent parts past node session until runs) device sector content }
    ensures stands { (parts : Parts) (x : Disks) (past : StorePast) (node session until : ℕ) (runs : KindAndRuns) (device sector : ℕ) (content : List ℕ) (index : ℕ) → Keeps parts x past → MaySend parts past node session until runs
        → StandsOn parts x past device sector content index → StandsOn (parts_sent parts node session until runs) x (past_sent parts past node session until runs) device sector content index }
    ensures reads { (parts : Parts) (x : Disks) (past : StorePast) (node session until : ℕ) (runs : KindAndRuns) (reader : ℕ) (read : Asking) (sector : ℕ) (content : List ℕ) → Keeps parts x past → MaySend parts past node session until runs
        → WillReadOn parts x past reader read sector content → WillReadOn (parts_sent parts node session until runs) x (past_sent parts past node session until runs) reader read sector content }
{}

/// A node for which no number is left has its write out all the same, and nobody is told of it: all goes on fitting the past with that write, and what
/// was settled, stood or is read goes on.
pub fn a_write_has_no_number()
    ensures keeps { (parts : Parts) (x : Disks) (past : StorePast) (node session until : ℕ) (runs : KindAndRuns) → Keeps parts x past → MayHold parts node session until runs → Keeps (parts_sent parts node session until runs) x (past_sent parts past node session until runs) }
    ensures settles { (parts : Parts) (x : Disks) (past : StorePast) (node session until : ℕ) (runs : KindAndRuns) (device sector : ℕ) (content : List ℕ) → Keeps parts x past → MayHold parts node session until runs
        → IsSettledOn parts x past device sector content → IsSettledOn (parts_sent parts node session until runs) x (past_sent parts past node session until runs) device sector content }
    ensures stands { (parts : Parts) (x : Disks) (past : StorePast) (node session until : ℕ) (runs : KindAndRuns) (device sector : ℕ) (content : List ℕ) (index : ℕ) → Keeps parts x past → MayHold parts node session until runs
        → StandsOn parts x past device sector content index → StandsOn (parts_sent parts node session until runs) x (past_sent parts past node session until runs) device sector content index }
    ensures reads { (parts : Parts) (x : Disks) (past : StorePast) (node session until : ℕ) (runs : KindAndRuns) (reader : ℕ) (read : Asking) (sector : ℕ) (content : List ℕ) → Keeps parts x past → MayHold parts node session until runs
        → WillReadOn parts x past reader read sector content → WillReadOn (parts_sent parts node session until runs) x (past_sent parts past node session until runs) reader read sector content }
{}

/// A node that may send a read sends it: all goes on fitting the past with its letter, and what was settled, stood or is read goes on.
pub fn a_read_is_sent()
    ensures keeps { (parts : Parts) (x : Disks) (past : StorePast) (node session device place sectors : ℕ) → Keeps parts x past → MayRead parts node session device place sectors → Keeps (parts_asked parts node session device place sectors) x (past_asked parts past node session device place sectors) }
    ensures settles { (parts : Parts) (x : Disks) (past : StorePast) (node session device place sectors d sector : ℕ) (content : List ℕ) → Keeps parts x past → MayRead parts node session device place sectors
        → IsSettledOn parts x past d sector content → IsSettledOn (parts_asked parts node session device place sectors) x (past_asked parts past node session device place sectors) d sector content }
    ensures stands { (parts : Parts) (x : Disks) (past : StorePast) (node session device place sectors d sector : ℕ) (content : List ℕ) (index : ℕ) → Keeps parts x past → MayRead parts node session device place sectors
        → StandsOn parts x past d sector content index → StandsOn (parts_asked parts node session device place sectors) x (past_asked parts past node session device place sectors) d sector content index }
    ensures reads { (parts : Parts) (x : Disks) (past : StorePast) (node session device place sectors reader : ℕ) (read : Asking) (sector : ℕ) (content : List ℕ) → Keeps parts x past → MayRead parts node session device place sectors
        → WillReadOn parts x past reader read sector content → WillReadOn (parts_asked parts node session device place sectors) x (past_asked parts past node session device place sectors) reader read sector content }
{}

/// What stands for those who know what its node knows is what each answer has that may come to a read that it sends.
pub fn a_read_has_what_stands()
    ensures { (parts : Parts) (x : Disks) (past : StorePast) (node session device place sectors : ℕ) (read : Asking) (sector : ℕ) (content : List ℕ) (index : ℕ) → Keeps parts x past → MayRead parts node session device place sectors
        → ((parts_asked parts node session device place sectors).nodes node).asks ≡ Some read → StandsOn parts x past device sector content index → index ≤ past.told.knew (Node node)
        → WillReadOn (parts_asked parts node session device place sectors) x (past_asked parts past node session device place sectors) node read sector content }
{}

/// An image of disks that has what is sure there, and the labels that are sure, has what is settled.
pub fn an_image_has_what_is_settled()
    ensures { (parts : Parts) (x : Disks) (past : StorePast) (image : Image) → Keeps parts x past → ((disk sector : ℕ) → (1 ≤ sector) ⊎ (disk < 3) → x.unsure disk sector ≡ false → image disk sector ≡ x.reads disk sector)
        → ((device : ℕ) (second : Bool) → IsSourceIn (last past.told.chain) device second → x.unsure (member_disk device second) 0 ≡ false → image (member_disk device second) 0 ≡ x.reads (member_disk device second) 0)
        → HasSettled past.writes past.told.greatest (IsSettledOn parts x past) x (last past.told.chain) image }
{}

/// A write that is out, of whatever number, is of the node's own session.
pub fn what_is_out_is_its_own()
    ensures { (parts : Parts) (x : Disks) (past : StorePast) (node : ℕ) (write : Sending) → Keeps parts x past → (parts.nodes node).out ≡ Some write → (parts.nodes node).session ≡ Some write.session }
{}

/// The last state has the devices that there are, and each member that an audit would read has its label, surely, and all its sectors.
pub fn members_are_labelled()
    ensures { (parts : Parts) (x : Disks) (past : StorePast) → Keeps parts x past → IsOfStore parts.made x (last past.told.chain) }
{}

/// The answer to a node's read is taken: it is what was promised, and what was settled, stood or is read goes on. An acknowledgement that comes of its
/// write is noted, where the write isn't done by it.
pub fn what_came_is_noted()
    ensures answered { (parts : Parts) (x : Disks) (past : StorePast) (node : ℕ) → Keeps parts x past → StreamsGo parts (with_stream parts node (answered (parts.nodes node))) x past past }
    ensures promise { (parts : Parts) (x : Disks) (past : StorePast) (node : ℕ) (read : Asking) (sector : ℕ) (content bytes : List ℕ) → WillReadOn parts x past node read sector content → read.answer ≡ Some bytes
        → read.place ≤ sector → sector < read.place + read.sectors → sector_of bytes (sector - read.place) ≡ content }
    ensures acked { (parts : Parts) (x : Disks) (past : StorePast) (node : ℕ) (s : Sending) (member : ℕ) (w : WroteBody) → Keeps parts x past → IsAck parts past node s member w → Keeps (parts_acked parts node s member w.epoch) x past }
{}

/// A node stops: nothing of it is out, and all goes on fitting; what was settled or stood goes on, and so does what other nodes read.
pub fn a_node_stops()
    ensures keeps { (parts : Parts) (x : Disks) (past : StorePast) (node : ℕ) → Keeps parts x past → Keeps (with_stream parts node (stopped (parts.nodes node))) x (store_crashed past (Node node)) }
    ensures settles { (parts : Parts) (x : Disks) (past : StorePast) (node device sector : ℕ) (content : List ℕ) → Keeps parts x past → IsSettledOn parts x past device sector content → IsSettledOn (with_stream parts node (stopped (parts.nodes node))) x (store_crashed past (Node node)) device sector content }
    ensures stands { (parts : Parts) (x : Disks) (past : StorePast) (node device sector : ℕ) (content : List ℕ) (index : ℕ) → Keeps parts x past → StandsOn parts x past device sector content index → StandsOn (with_stream parts node (stopped (parts.nodes node))) x (store_crashed past (Node node)) device sector content index }
    ensures reads { (parts : Parts) (x : Disks) (past : StorePast) (node reader : ℕ) (read : Asking) (sector : ℕ) (content : List ℕ) → Keeps parts x past → reader ≢ node → WillReadOn parts x past reader read sector content → WillReadOn (with_stream parts node (stopped (parts.nodes node))) x (store_crashed past (Node node)) reader read sector content }
{}

/// A node that is down starts again in a later boot: nothing of it is out, and all goes on fitting; so does what was settled or stood, and what other
/// nodes read.
pub fn a_node_starts()
    ensures keeps { (parts : Parts) (x : Disks) (past : StorePast) (node boot reading : ℕ) → Keeps parts x past → past.told.boots (Node node) < boot → Keeps (with_stream parts node (restarted boot (parts.nodes node))) x (store_restarted past (Node node) boot reading) }
    ensures settles { (parts : Parts) (x : Disks) (past : StorePast) (node boot reading device sector : ℕ) (content : List ℕ) → Keeps parts x past → past.told.boots (Node node) < boot
        → IsSettledOn parts x past device sector content → IsSettledOn (with_stream parts node (restarted boot (parts.nodes node))) x (store_restarted past (Node node) boot reading) device sector content }
    ensures stands { (parts : Parts) (x : Disks) (past : StorePast) (node boot reading device sector : ℕ) (content : List ℕ) (index : ℕ) → Keeps parts x past → past.told.boots (Node node) < boot
        → StandsOn parts x past device sector content index → StandsOn (with_stream parts node (restarted boot (parts.nodes node))) x (store_restarted past (Node node) boot reading) device sector content index }
    ensures reads { (parts : Parts) (x : Disks) (past : StorePast) (node boot reading reader : ℕ) (read : Asking) (sector : ℕ) (content : List ℕ) → Keeps parts x past → past.told.boots (Node node) < boot → reader ≢ node
        → WillReadOn parts x past reader read sector content → WillReadOn (with_stream parts node (restarted boot (parts.nodes node))) x (store_restarted past (Node node) boot reading) reader read sector content }
{}
