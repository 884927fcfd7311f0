//! All machines as the layers above know them. After each call that changes them a field is looked at, so that what holds of all machines is known
//! of them as they are then.

use crate::devices::Devices;
use bx_base::{Actor, OutOfMemory, Raw};
use bx_disk::Rack;
use bx_facts::{FactError, Input, Outbox, Store};
use bx_global::{Change, GlobalState};
use bx_records::Runs;

impl Store for Devices {
    ghost use Rattle.std.specs.Prelude.{⊤, true};
    ghost use Rattle.bx_devices.specs.Events.{input_for};
    ghost use Rattle.bx_devices.specs.Fitting.{IsFitting, Settled, Stands, WillRead, answer_of, asked_of, out_of, own_of};
    ghost use Rattle.bx_devices.specs.Laws.{begins, begins_idle, begins_own, begins_standing, elsewhere, finds, finds_standing, grows, labelled, loses, nothing_out, only_asked, own_out, replaced, rises, settled_is, settles, survives};
    ghost use Rattle.bx_devices.specs.Machines.{due_at, made_of, needs_of};
    ghost use Rattle.bx_devices.specs.Meanings.{AreNew, IsFor};
    ghost use Rattle.bx_devices.specs.Needs.{needs_little, needs_none, needs_of_volume};
    ghost use Rattle.bx_devices.specs.Steps.{Hands, IsStep};

    ghost is_separate = { ⊤ };

    ghost by_boot = { true };

    ghost made = { λ o. made_of o };

    ghost is_for = { λ o s. IsFor s o };

    ghost is_new = { λ o. AreNew o };

    ghost own = { λ o node. own_of o node };

    ghost out_of = { λ o node. out_of o node };

    ghost asked = { λ o node. asked_of o node };

    ghost answer = { λ o node. answer_of o node };

    ghost owes = { λ o who. due_at o who };

    ghost needs = { λ o disk. needs_of o disk };

    ghost keeps = { λ o x past. IsFitting o x past };

    ghost settled = { λ o x past device sector content. Settled o x past device sector content };

    ghost stands = { λ o x past device sector content index. Stands o x past device sector content index };

    ghost will_read = { λ o x past node sector content. WillRead o x past node sector content };

    ghost hands = { λ o known at input change. Hands at known (input_for at input) o change };

    ghost steps = { λ o known at input new. IsStep at known (input_for at input) o new };

    fn session(&self, node: u32) -> Option<u64> {
        Devices::session(self, node)
    }

    fn is_reading(&self, node: u32) -> bool {
        Devices::is_reading(self, node)
    }

    fn write(
        &mut self,
        node: u32,
        runs: &Runs,
        until: u64,
        out: &mut Outbox,
    ) -> Result<(), OutOfMemory> {
        let result = Devices::write(self, node, runs, until, out);
        let _ = &self.volume;
        result
    }

    fn done(&self, node: u32) -> bool {
        Devices::done(self, node)
    }

    fn read(
        &mut self,
        node: u32,
        device: u32,
        place: u64,
        sectors: u32,
        out: &mut Outbox,
    ) -> Result<(), OutOfMemory> {
        let result = Devices::read(self, node, device, place, sectors, out);
        let _ = &self.volume;
        result
    }

    fn arrived(&mut self, node: u32) -> Option<Raw> {
        let answer = Devices::arrived(self, node);
        let _ = &self.volume;
        answer
    }

    fn waiting(&self, at: Actor) -> bool {
        Devices::waiting(self, at)
    }

    fn take<R: Rack>(
        &mut self,
        rack: &mut R,
        known: &GlobalState,
        at: Actor,
        input: &Input,
        out: &mut Outbox,
    ) -> Result<Option<Change>, FactError> {
        let result = Devices::take(self, rack, known, at, input, out);
        let _ = &self.volume;
        Ok(result?)
    }

    fn crash(&mut self, who: Actor) {
        Devices::crash(self, who);
        let _ = &self.volume;
    }

    fn restart<R: Rack>(
        &mut self,
        rack: &mut R,
        who: Actor,
        boot: u64,
        reading: u64,
    ) -> Result<(), FactError> {
        let result = Devices::restart(self, rack, who, boot, reading);
        let _ = &self.volume;
        Ok(result?)
    }

    ghost settles = { settles };

    ghost rises = { rises };

    ghost settled_is = { settled_is };

    ghost own_out = { own_out };

    ghost nothing_out = { nothing_out };

    ghost grows = { grows };

    ghost survives = { survives };

    ghost replaced = { replaced };

    ghost elsewhere = { elsewhere };

    ghost loses = { loses };

    ghost labelled = { labelled };

    ghost begins_own = { begins_own };

    ghost begins_idle = { begins_idle };

    ghost begins = { begins };

    ghost finds = { finds };

    ghost begins_standing = { begins_standing };

    ghost finds_standing = { finds_standing };

    ghost only_asked = { only_asked };

    ghost needs_little = { needs_little };

    ghost needs_none = { needs_none };

    ghost needs_of_volume = { needs_of_volume };
}
