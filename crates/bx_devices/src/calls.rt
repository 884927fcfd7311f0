//! What a node's layer asks of its stream.

ghost use Rattle.std.specs.Prelude.{◌≡◌, ◌≤◌, [], ◌++◌, IsSome, MatchOption, None, OnOk, is_some, length, not};
ghost use Rattle.bx_base.specs.declared.names.Actor.TheVariants.{Node};
ghost use Rattle.bx_facts.specs.Inputs.{IsStores, SendsOnly};
ghost use Rattle.bx_mirror_client.specs.Asks.{FitIfAsked, answer_in};
ghost use Rattle.bx_mirror_client.specs.Letters.{read_letters, write_letters};
ghost use Rattle.bx_mirror_client.specs.Sends.{FitIfOut};
ghost use Rattle.bx_mirror_client.specs.Streams.{answered, asking, sending};
ghost use Rattle.bx_devices.specs.Machines.{OnlyMachine, stream_of};

use crate::devices::Devices;
use bx_base::{OutOfMemory, Raw};
use bx_facts::Outbox;
use bx_mirror_client::MirrorClient;
use bx_records::Runs;

impl Devices {
    /// The stream of a node; `None` exactly where the cluster has no such node.
    fn stream(&self, node: u32) -> Option<&MirrorClient>
        ensures { MatchOption result (length self.now.streams ≤ node) (λ stream. stream.now ≡ stream_of self.now node) }
    {
        self.streams.get(node as usize)
    }

    /// The session that the node's packets carry; `None` exactly where its stream knows of no live one. It takes no memory.
    pub fn session(&self, node: u32) -> Option<u64>
        ensures { result ≡ (stream_of self.now node).session }
    {
        match self.stream(node) {
            None => None,
            Some(stream) => stream.session(),
        }
    }

    /// Whether the node's read is out, or its answer wasn't taken yet. It takes no memory.
    pub fn is_reading(&self, node: u32) -> bool
        ensures { result ≡ is_some (stream_of self.now node).asks }
    {
        match self.stream(node) {
            None => false,
            Some(stream) => stream.is_reading(),
        }
    }

    /// Whether the node has no write out. It takes no memory.
    pub fn done(&self, node: u32) -> bool
        ensures { result ≡ not (is_some (stream_of self.now node).out) }
    {
        match self.stream(node) {
            None => true,
            Some(stream) => stream.done(),
        }
    }

    /// Sends a write of the node's session, in the epochs that the node knows. Members take it up to a reading, in milliseconds.
    pub fn write(
        &mut self,
        node: u32,
        runs: &Runs,
        until: u64,
        out: &mut Outbox,
    ) -> Result<(), OutOfMemory>
        requires none_out { (stream_of self.old node).out ≡ None }
        requires session { IsSome (stream_of self.old node).session }
        ensures writes { OnOk result (stream_of self.new node ≡ sending (stream_of self.old node).session runs.now until (stream_of self.old node)) }
        ensures sends { OnOk result (out.new ≡ out.old ++ write_letters [] (stream_of self.old node).node (stream_of self.new node).out (stream_of self.old node).rows) }
        ensures sent { OnOk result (SendsOnly IsStores out.old out.new) }
        ensures stays { ((stream_of self.new node).session ≡ (stream_of self.old node).session) × ((stream_of self.new node).asks ≡ (stream_of self.old node).asks) }
        ensures numbers { OnOk result (FitIfOut (stream_of self.new node).out) }
        ensures only { OnlyMachine (Node node) self.old self.new }
    {
        self.streams[node as usize].write(runs, until, out)
    }

    /// Sends a read of the node's session: so many sectors of a device, from one on.
    pub fn read(
        &mut self,
        node: u32,
        device: u32,
        place: u64,
        sectors: u32,
        out: &mut Outbox,
    ) -> Result<(), OutOfMemory>
        requires none_out { (stream_of self.old node).asks ≡ None }
        requires session { IsSome (stream_of self.old node).session }
        ensures reads { OnOk result (stream_of self.new node ≡ asking (stream_of self.old node).session device place sectors (stream_of self.old node)) }
        ensures sends { OnOk result (out.new ≡ out.old ++ read_letters [] (stream_of self.old node).node (stream_of self.new node).asks (stream_of self.old node).rows) }
        ensures sent { OnOk result (SendsOnly IsStores out.old out.new) }
        ensures stays { ((stream_of self.new node).session ≡ (stream_of self.old node).session) × ((stream_of self.new node).out ≡ (stream_of self.old node).out) }
        ensures numbers { OnOk result (FitIfAsked (stream_of self.new node).asks) }
        ensures only { OnlyMachine (Node node) self.old self.new }
    {
        self.streams[node as usize].read(device, place, sectors, out)
    }

    /// The answer to the node's read; it is handed out once. It takes no memory.
    pub fn arrived(&mut self, node: u32) -> Option<Raw>
        ensures answer { result ≡ answer_in (stream_of self.old node).asks }
        ensures left { stream_of self.new node ≡ answered (stream_of self.old node) }
        ensures only { OnlyMachine (Node node) self.old self.new }
    {
        let place = node as usize;
        if place >= self.streams.len() {
            return None;
        }
        self.streams[place].arrived()
    }
}
