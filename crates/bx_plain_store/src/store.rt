//! A store on one machine.

ghost use Rattle.std.specs.Prelude.{◌≡◌, ℕ, ◌*◌, ◌<◌, ◌≤◌, IfOk, None, Option, Some, false, slice_get};
ghost use Rattle.bx_base.specs.declared.names.Actor.TheVariants.{Node};
ghost use Rattle.bx_plain_store.specs.Fits.{HasSessionsOf, IsNew};
ghost use Rattle.bx_plain_store.specs.Out.{at};
ghost use Rattle.bx_plain_store.specs.Parts.{IsShape, made_of};

use crate::greatest::{heard, later};
use crate::inquiries::{Inquiry, take_answer};
use crate::parts::{copied, find_session, is_there, nothing, put_down, session_at};
use crate::reads::Ask;
use crate::sessions::{any_session, meet_session, put_session, sessions_of};
use crate::syncs::sync_all;
use crate::waiting::{is_all_up, is_any_due, is_any_unanswered, is_time};
use crate::writes::Write;
use bx_base::{Actor, OutOfMemory, Raw};
use bx_disk::Rack;
use bx_facts::{FactError, Input, Outbox, Store};
use bx_global::{Change, GlobalState};
use bx_layout::Label;
use bx_mirror_disks::label_own;
use bx_records::Runs;
use std::alloc::Global;

/// A store whose members are all on one machine, and which sends nothing. It works at members' syncs, while all members are up: reads are
/// answered at the next one; a write is put on both members of its devices at the next one, and made sure and done at the one after it.
/// It keeps one write and one read of each node, and nothing of what was done.
#[derive(Drop)]
pub struct PlainStore {
    alloc: Global,
    volume: u64,
    nodes: u32,
    devices: u32,
    areas: u32,
    greatest: u64,
    owns: Vec<Option<u64>>,
    slots: Vec<Option<Write>>,
    inquiries: Vec<Option<Inquiry>>,
    down: Vec<bool>,
    ghost shape: { IsShape (made_of volume nodes devices areas) owns.items slots.items inquiries.items down.items },
}

impl PlainStore {
    /// A store for a volume of so many nodes, devices (1 to 4) and areas (1 to 64), of which nothing is asked yet, and whose members are up. Each
    /// node has the session that it has in the state to begin with.
    pub fn new(
        alloc: Global,
        volume: u64,
        nodes: u32,
        devices: u32,
        areas: u32,
        first: &GlobalState,
    ) -> Result<PlainStore, OutOfMemory>
        requires least_devices { 1 ≤ devices }
        requires most_devices { devices ≤ 4 }
        requires least_areas { 1 ≤ areas }
        requires most_areas { areas ≤ 64 }
        ensures made { IfOk result (λ store. made_of store.volume store.nodes store.devices store.areas ≡ made_of volume nodes devices areas) }
        ensures new { IfOk result (λ store. IsNew store.greatest store.slots.items store.inquiries.items) }
        ensures sessions { IfOk result (λ store. HasSessionsOf first.now nodes store.owns.items) }
        ensures up { (member : ℕ) → member < 2 * devices → IfOk result (λ store. slice_get store.down.items member ≡ Some false) }
        ensures no_more { (member : ℕ) → 2 * devices ≤ member → IfOk result (λ store. slice_get store.down.items member ≡ None) }
    {
        let members = 2 * devices as usize;
        Ok(PlainStore {
            alloc,
            volume,
            nodes,
            devices,
            areas,
            greatest: 0,
            owns: sessions_of(alloc, first, nodes)?,
            slots: nothing(alloc, nodes)?,
            inquiries: nothing(alloc, nodes)?,
            down: vec![in alloc; false; members].map_err(OutOfMemory::from)?,
        })
    }
}

impl Store for PlainStore {
    ghost use Rattle.std.specs.Prelude.{◌+◌, true};
    ghost use Rattle.bx_base.specs.declared.names.Actor.TheVariants.{Member, Node};
    ghost use Rattle.bx_disk.specs.Disks.{blanked};
    ghost use Rattle.bx_global.specs.declared.change.Change.{Change};
    ghost use Rattle.bx_facts.specs.Chains.{last};
    ghost use Rattle.bx_facts.specs.Writes.{IsSettled, member_disk};
    ghost use Rattle.bx_plain_store.specs.Out.{out_at};
    ghost use Rattle.bx_plain_store.specs.Fits.{Keeps, WillRead};
    ghost use Rattle.bx_plain_store.specs.Growing.{idle_new, keeps_grown, keeps_letters, keeps_new, keeps_sure, keeps_without};
    ghost use Rattle.bx_plain_store.specs.Laws.{goes_grown, goes_same, goes_sure, only_asked, sure_elsewhere, sure_replaced, sure_survives};
    ghost use Rattle.bx_plain_store.specs.Needs.{needs_little, needs_none, needs_of_volume};
    ghost use Rattle.bx_plain_store.specs.Parts.{answer_at, asked_at};
    ghost use Rattle.bx_plain_store.specs.Steps.{IsStep};
    ghost use Rattle.bx_plain_store.specs.Waiting.{needs_of, owes_in};
    ghost use Rattle.bx_facts.specs.Inputs.{greatest_with};

    ghost is_separate = { ⊥ };

    ghost by_boot = { false };

    ghost made = { λ st. made_of st.volume st.nodes st.devices st.areas };

    ghost is_for = { λ st s. HasSessionsOf s st.nodes st.owns.items };

    ghost is_new = { λ st. IsNew st.greatest st.slots.items st.inquiries.items };

    ghost own = { λ st node. at st.owns.items node };

    ghost out_of = { λ st node. out_at st.slots.items node };

    ghost asked = { λ st node. asked_at st.inquiries.items node };

    ghost answer = { λ st node. answer_at st.inquiries.items node };

    ghost owes = { λ st who. owes_in st.greatest st.slots.items st.inquiries.items st.down.items who };

    ghost needs = { λ st disk. needs_of (made_of st.volume st.nodes st.devices st.areas) st.down.items disk };

    ghost keeps = { λ st x past. Keeps (made_of st.volume st.nodes st.devices st.areas) st.greatest st.owns.items st.slots.items x past };

    ghost settled = { λ st x past device sector content. IsSettled x (last past.told.chain) device sector content };

    ghost stands = { λ st x past device sector content index. IsSettled x (last past.told.chain) device sector content };

    ghost will_read = { λ st x past node sector content. WillRead (asked_at st.inquiries.items node) (answer_at st.inquiries.items node) x (last past.told.chain) sector content };

    ghost hands = { λ st known who input change. change ≡ None };

    ghost steps = { λ st known who input new. IsStep known who input (greatest_with st.greatest input) st.down.items st.owns.items new.owns.items st.slots.items new.slots.items st.inquiries.items new.inquiries.items };

    fn session(&self, node: u32) -> Option<u64> {
        find_session(&self.owns, node as usize)
    }

    fn is_reading(&self, node: u32) -> bool {
        is_there(&self.inquiries, node as usize)
    }

    fn write(
        &mut self,
        node: u32,
        runs: &Runs,
        until: u64,
        _out: &mut Outbox,
    ) -> Result<(), OutOfMemory> {
        let place = node as usize;
        let session = session_at(&self.owns, place);
        let runs = copied(self.alloc, runs)?;
        self.slots[place] = Some(Write {
            session,
            until,
            runs,
            is_written: false,
        });
        Ok(())
    }

    fn done(&self, node: u32) -> bool {
        !is_there(&self.slots, node as usize)
    }

    fn read(
        &mut self,
        node: u32,
        device: u32,
        place: u64,
        sectors: u32,
        _out: &mut Outbox,
    ) -> Result<(), OutOfMemory> {
        self.inquiries[node as usize] = Some(Inquiry {
            ask: Ask {
                device,
                place,
                count: sectors,
            },
            answer: None,
        });
        Ok(())
    }

    fn arrived(&mut self, node: u32) -> Option<Raw> {
        let place = node as usize;
        if place >= self.inquiries.len() {
            return None;
        }
        take_answer(&mut self.inquiries[place])
    }

    fn waiting(&self, at: Actor) -> bool {
        match at {
            Actor::Member(member) => {
                (member as usize) < self.down.len()
                    && is_all_up(&self.down)
                    && (is_any_due(self.greatest, member, &self.slots)
                        || is_any_unanswered(member, &self.inquiries))
            }
            Actor::Node(_) | Actor::Replica(_) | Actor::Server(_) => false,
        }
    }

    fn take<R: Rack>(
        &mut self,
        rack: &mut R,
        known: &GlobalState,
        at: Actor,
        input: &Input,
        _out: &mut Outbox,
    ) -> Result<Option<Change>, FactError> {
        self.greatest = heard(self.greatest, input);
        if let Actor::Node(node) = at {
            meet_session(
                node as usize,
                any_session(known, node),
                &mut self.owns,
                &mut self.slots,
                &mut self.inquiries,
            );
            return Ok(None);
        }
        if !is_time(at, input, &self.down) {
            return Ok(None);
        }
        sync_all(
            self.alloc,
            rack,
            known,
            self.devices,
            self.greatest,
            &mut self.slots,
            &mut self.inquiries,
        )?;
        Ok(None)
    }

    fn crash(&mut self, who: Actor) {
        if let Actor::Node(node) = who {
            put_session(
                node as usize,
                None,
                &mut self.owns,
                &mut self.slots,
                &mut self.inquiries,
            );
            return;
        }
        if let Actor::Member(member) = who {
            put_down(&mut self.down, member, true);
        }
    }

    fn restart<R: Rack>(
        &mut self,
        rack: &mut R,
        who: Actor,
        _boot: u64,
        reading: u64,
    ) -> Result<(), FactError> {
        self.greatest = later(self.greatest, reading);
        let Actor::Member(member) = who else {
            return Ok(());
        };
        let label = Label {
            volume: self.volume,
            disk: 3 + member,
            devices: self.devices,
            areas: self.areas,
        };
        label_own(rack, 3 + member, &label)?;
        put_down(&mut self.down, member, false);
        Ok(())
    }

    ghost settles = { λ st x past device sector content index keeps is. is };

    ghost rises = { λ st x past device sector content index later keeps more is. is };

    ghost settled_is = { λ st x past device sector content keeps is. is };

    ghost own_out = { λ st x past node write keeps out. keeps.fits.mine node write out };

    ghost nothing_out = { λ st x past node session keeps own none. (keeps_without (made_of st.volume st.nodes st.devices st.areas) st.greatest st.owns.items st.slots.items x past node session keeps own none, goes_same past.writes past.told.greatest st.inquiries.items x x (last past.told.chain) (last past.told.chain) (λ device sector content only is. is)) };

    ghost grows = { λ st x past change keeps legal own. (keeps_grown (made_of st.volume st.nodes st.devices st.areas) st.greatest st.owns.items st.slots.items x past change own keeps, goes_grown past change st.inquiries.items x keeps.handed own) };

    ghost survives = { λ st x y past n keeps down lengths crash. (keeps_sure (made_of st.volume st.nodes st.devices st.areas) st.greatest st.owns.items st.slots.items x y past (sure_survives x y (last past.told.chain) (3 + n) lengths crash) keeps, goes_sure past.writes past.told.greatest st.inquiries.items x y (last past.told.chain) (sure_survives x y (last past.told.chain) (3 + n) lengths crash)) };

    ghost replaced = { λ st x past device second keeps down only. (keeps_sure (made_of st.volume st.nodes st.devices st.areas) st.greatest st.owns.items st.slots.items x (blanked x (member_disk device second)) past (sure_replaced x (last past.told.chain) device second only) keeps, goes_sure past.writes past.told.greatest st.inquiries.items x (blanked x (member_disk device second)) (last past.told.chain) (sure_replaced x (last past.told.chain) device second only)) };

    ghost elsewhere = { λ st x y past keeps lengths same. (keeps_sure (made_of st.volume st.nodes st.devices st.areas) st.greatest st.owns.items st.slots.items x y past (sure_elsewhere x y (last past.told.chain) lengths same) keeps, goes_sure past.writes past.told.greatest st.inquiries.items x y (last past.told.chain) (sure_elsewhere x y (last past.told.chain) lengths same)) };

    ghost loses = { λ st x past letters keeps fewer. (keeps_letters (made_of st.volume st.nodes st.devices st.areas) st.greatest st.owns.items st.slots.items x past letters keeps, goes_same past.writes past.told.greatest st.inquiries.items x x (last past.told.chain) (last past.told.chain) (λ device sector content only is. is)) };

    ghost labelled = { λ st x past keeps. record { devices = keeps.fits.count; labels = keeps.fits.labels } };

    ghost begins_own = { λ st s node new is less. is.each node less };

    ghost begins_idle = { λ st node new. idle_new st.greatest st.slots.items st.inquiries.items node new };

    ghost begins = { λ st x s new is allowed of_store names. keeps_new (made_of st.volume st.nodes st.devices st.areas) st.greatest st.owns.items st.slots.items st.inquiries.items x s new is allowed of_store };

    ghost finds = { λ st x first s boot new separate is none allowed of_store names. absurd separate };

    ghost begins_standing = { λ st x s device sector content new there low high is. is };

    ghost finds_standing = { λ st x s boot device sector content new separate there low high is. absurd separate };

    ghost only_asked = { λ st node none. only_asked st.inquiries.items node none };

    ghost needs_little = { λ st disk. needs_little (made_of st.volume st.nodes st.devices st.areas) st.down.items disk };

    ghost needs_none = { λ st disk replica. needs_none (made_of st.volume st.nodes st.devices st.areas) st.down.items disk replica };

    ghost needs_of_volume = { λ st disk past. needs_of_volume (made_of st.volume st.nodes st.devices st.areas) st.down.items disk st.shape.down_long past };
}
