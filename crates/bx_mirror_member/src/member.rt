//! Members.

ghost use Rattle.std.specs.Prelude.{◌≡◌, ◌+◌, ◌*◌, ◌<◌, ◌≤◌, ◌++◌, ◌∷◌, [], IfSome, OnOk};
ghost use Rattle.bx_facts.specs.Writes.{label_on};
ghost use Rattle.bx_layout.specs.Labels.{IsLabel};
ghost use Rattle.bx_mirror_packets.specs.DeviceMessages.{HasCounts, letter_with};
ghost use Rattle.bx_mirror_member.specs.Standing.{device_in, disk_in, first_piece, hearing, is_second, learned, me, new_member, partner, room_in, started, stopped};

use crate::copies::{Piece, copies, is_news};
use bx_base::{Actor, OutOfMemory};
use bx_facts::Outbox;
use bx_global::GlobalState;
use bx_layout::Label;
use bx_lease::Detector;
use bx_mirror_packets::{DeviceMessage, send};
use bx_mirror_tables::{Last, Owing};
use bx_places::member_sectors;
use bx_rows::DeviceRow;
use std::alloc::Global;
use std::marker::Model;

/// The machine to which a member's partner is to its detector: the only one.
pub(crate) const PARTNER: u32 = 0;

/// A member of a mirrored device, its disk apart.
#[derive(Drop)]
pub struct Member {
    pub(crate) alloc: Global,
    pub(crate) number: u32,
    pub(crate) volume: u64,
    pub(crate) nodes: u32,
    pub(crate) devices: u32,
    pub(crate) areas: u32,
    pub(crate) boot: u64,
    pub(crate) row: Option<DeviceRow>,
    pub(crate) lasts: Vec<Last>,
    pub(crate) owed: Vec<Owing>,
    pub(crate) due: bool,
    pub(crate) detector: Detector,
    pub(crate) place: u64,
}

/// The label of a disk.
fn label_of(volume: u64, disk: u32, devices: u32, areas: u32) -> Label
    requires least_devices { 1 ≤ devices }
    requires most_devices { devices ≤ 4 }
    requires least_areas { 1 ≤ areas }
    requires most_areas { areas ≤ 64 }
    ensures is { result ≡ record { volume = volume; disk = disk; devices = devices; areas = areas } }
    ensures label { IsLabel result }
{
    Label {
        volume,
        disk,
        devices,
        areas,
    }
}

impl Model for Member {
    ghost use Rattle.std.specs.Prelude.{slice_index};
    ghost use Rattle.bx_mirror_member.specs.Standing.{IsMemberView, MemberView};

    ghost Value = { MemberView };

    ghost view = { λ m. record { number = m.number; made = record { volume = m.volume; nodes = m.nodes; devices = m.devices; areas = m.areas }; boot = m.boot; row = m.row; lasts = m.lasts.items; owed = m.owed.items; due = m.due; heard = slice_index m.detector 0; place = m.place } };

    ghost invariant = { λ m. IsMemberView (record { number = m.number; made = record { volume = m.volume; nodes = m.nodes; devices = m.devices; areas = m.areas }; boot = m.boot; row = m.row; lasts = m.lasts.items; owed = m.owed.items; due = m.due; heard = slice_index m.detector 0; place = m.place }) };
}

impl Member {
    /// A member of a volume of so many nodes, devices (1 to 4) and areas (1 to 64): `2 * d` is member A of device d, and `2 * d + 1` member B. It
    /// takes no memory.
    pub fn new(
        alloc: Global,
        number: u32,
        volume: u64,
        nodes: u32,
        devices: u32,
        areas: u32,
    ) -> Member
        requires least_devices { 1 ≤ devices }
        requires most_devices { devices ≤ 4 }
        requires least_areas { 1 ≤ areas }
        requires most_areas { areas ≤ 64 }
        requires number { number < 2 * devices }
        ensures { result ≡ new_member number (record { volume = volume; nodes = nodes; devices = devices; areas = areas }) }
    {
        Member {
            alloc,
            number,
            volume,
            nodes,
            devices,
            areas,
            boot: 0,
            row: None,
            lasts: Vec::new(alloc),
            owed: Vec::new(alloc),
            due: false,
            detector: Detector::new(0),
            place: 0,
        }
    }

    /// Whether it owes an answer to a sync. It takes no memory.
    pub fn waiting(&self) -> bool
        ensures { result ≡ self.now.due }
    {
        self.due
    }

    /// Its disk among those of the volume.
    pub fn disk(&self) -> u32
        ensures { result ≡ disk_in self.now }
    {
        3 + self.number
    }

    /// How many sectors its disk has on the volume.
    pub fn room(&self) -> u64
        ensures { result ≡ room_in self.now }
    {
        member_sectors(self.devices, self.areas as u16)
    }

    /// The label of its disk.
    pub fn label(&self) -> Label
        ensures is { result ≡ label_on self.now.made (disk_in self.now) }
        ensures label { IsLabel result }
    {
        label_of(self.volume, 3 + self.number, self.devices, self.areas)
    }

    /// Its device.
    pub fn device(&self) -> u32
        ensures { result ≡ device_in self.now }
    {
        self.number / 2
    }

    /// Whether it is member B of its device, else A.
    pub(crate) fn is_second(&self) -> bool
        ensures { result ≡ is_second self.now }
    {
        self.number % 2 == 1
    }

    /// The other member of its device.
    pub fn partner(&self) -> Actor
        ensures { result ≡ partner self.now }
    {
        if self.is_second() {
            Actor::Member(self.number - 1)
        } else {
            Actor::Member(self.number + 1)
        }
    }

    /// Puts a letter of its own into the box. Where memory runs out, nothing changes.
    pub fn say(
        &self,
        to: Actor,
        message: &DeviceMessage,
        out: &mut Outbox,
    ) -> Result<(), OutOfMemory>
        requires { HasCounts message.now }
        ensures { OnOk result (out.new ≡ out.old ++ letter_with (me self.now) to message.now ∷ []) }
    {
        send(self.alloc, Actor::Member(self.number), to, message, out)
    }

    /// Learns a state. In a row of another epoch nothing was taken yet; where it makes the member the source of a copy, that begins with this
    /// piece. It takes no memory.
    pub fn learn(&mut self, known: &GlobalState) -> Option<Piece>
        ensures learns { self.new ≡ learned known.now self.old }
        ensures begins { result ≡ first_piece known.now self.old }
        ensures within { IfSome result (λ piece. piece.place + piece.sectors ≤ room_in self.old) }
    {
        let Some(row) = known.devices.get(self.device() as usize) else {
            return None;
        };
        if !is_news(&self.row, row) {
            return None;
        }
        let begins = copies(self, row);
        self.row = Some(*row);
        self.lasts.clear();
        self.place = u64::from(begins);
        if begins {
            Some(self.piece_at(row.epoch, 1))
        } else {
            None
        }
    }

    /// Hears its partner, at a reading in milliseconds. It takes no memory.
    pub fn hear(&mut self, reading: u64)
        ensures { self.new ≡ hearing reading self.old }
    {
        self.detector.heard(PARTNER, reading);
    }

    /// Stops. What it knew and owed is gone. It takes no memory.
    pub fn crash(&mut self)
        ensures { self.new ≡ stopped self.old }
    {
        self.row = None;
        self.lasts.clear();
        self.owed.clear();
        self.due = false;
        self.place = 0;
    }

    /// Starts in a boot, with nothing that it knew or owed. It takes no memory.
    pub fn start(&mut self, boot: u64)
        ensures { self.new ≡ started boot self.old }
    {
        self.crash();
        self.boot = boot;
    }
}
