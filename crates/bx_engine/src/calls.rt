//! Attempts of calls that were read.

ghost use Rattle.std.specs.Prelude.{◌≡◌, ◌≢◌, ◌≤◌, ℕ, List, IfOk};
ghost use Rattle.bx_attempts.specs.First.{PreparesFirst, ReadyBy};
ghost use Rattle.bx_chunks.specs.Counting.{free_slots};
ghost use Rattle.bx_inodes.specs.Stands.{Stands};
ghost use Rattle.bx_model.specs.declared.tree.Tree.{Tree};
ghost use Rattle.bx_model.specs.declared.call.Args.TheVariants.{Handle as HandleArgs};
ghost use Rattle.bx_model.specs.Reading.{statfs as statfs_of};
ghost use Rattle.bx_nfs.specs.Asked.{IsAsked};
ghost use Rattle.bx_nfs.specs.Wire.{ReadsAs};
ghost use Rattle.bx_reads.specs.Space.{OnSpace};
ghost use Rattle.bx_views.specs.Attempts.{ChangesNothing, Gives, IfActed, IfChange, IfInner, IsAnswer, IsFair};
ghost use Rattle.bx_views.specs.Truths.{IsTruth, Truth};
ghost use Rattle.bx_engine.specs.Calls.{AsksSpace, IsAboutFile, IsAtOnce, IsReading};
ghost use Rattle.bx_engine.specs.Full.{LacksRoom};
ghost use Rattle.bx_engine.specs.Outcomes.{ComesSpace, TellsEnough, told_free};
ghost use Rattle.bx_engine.specs.Paths.{PathOf, ReadPathOf};
ghost use Rattle.bx_steps.specs.Steps.{StandsWith, StepOfTree};

use crate::engine::BoxFs;
use crate::mounting::mounted;
use crate::plain::plain;
use crate::procedures::{READLINK, STATFS};
use bx_attempts::directory_reads::{lookup, readdir};
use bx_attempts::{answered, answered_with, change, is_change, replied, stopped};
use bx_base::OutOfMemory;
use bx_model::{Args, Call, Reply};
use bx_reads::{getattr, read, readlink};
use bx_views::{Attempt, View};
use std::alloc::Global;

impl BoxFs {
    /// Attempts a call that was read, with its number.
    pub(crate) fn attempt_call<V: View>(
        &self,
        alloc: Global,
        xid: u32,
        call: &Call,
        moment: u64,
        view: &V,
    ) -> Result<Attempt, OutOfMemory>
        requires asked { IsAsked call.now }
        requires moment { moment ≤ 4294967295999 }
        ensures gives { (client : ℕ) (bytes : List ℕ) (truth : Truth) (tree : Tree) → ReadsAs bytes xid call.now → IsTruth (V.held view.now) truth
            → StandsWith self.now.volume self.now.areas truth (V.hints view.now) tree → IfOk result (Gives (StandsWith self.now.volume self.now.areas) StepOfTree (free_slots self.now.areas truth) client bytes moment truth tree) }
        ensures fair { IfOk result (IsFair self.now.areas (V.held view.now) (PathOf (V.held view.now) (V.hints view.now) self.now.volume self.now.areas call.now.procedure call.now.args)) }
        ensures lacks { (truth : Truth) (tree : Tree) → IsTruth (V.held view.now) truth → StandsWith self.now.volume self.now.areas truth (V.hints view.now) tree
            → IfOk result (IfInner (PreparesFirst self.now.volume self.now.areas (V.held view.now) (V.hints view.now) truth tree call.now moment)) }
        ensures ready { (truth : Truth) (tree : Tree) → IsTruth (V.held view.now) truth → StandsWith self.now.volume self.now.areas truth (V.hints view.now) tree
            → IfOk result (IfChange (ReadyBy self.now.volume self.now.areas truth tree call.now.procedure call.now.args)) }
        ensures at_once { IsAtOnce call.now → IfOk result IsAnswer }
        ensures keeps { IsReading call.now → IfOk result ChangesNothing }
        ensures free { (at : List ℕ) (truth : Truth) (tree : Tree) → AsksSpace call.now at → IsTruth (V.held view.now) truth → Stands self.now.volume self.now.areas truth tree
            → IfOk result (IfActed (λ done. done.spare ≡ told_free (free_slots self.now.areas truth) (statfs_of tree at (free_slots self.now.areas truth)))) }
        ensures full { ((at : List ℕ) → AsksSpace call.now at → ⊥) → IfOk result (IfActed (λ done. done.spare ≢ 8 → LacksRoom (V.held view.now) (V.hints view.now) self.now.volume self.now.areas call.now done.spare)) }
    {
        if is_change(call) {
            change(alloc, self.volume, self.areas, xid, call, moment, view)
        } else {
            self.answer(alloc, xid, call, view)
        }
    }

    /// The same of a call that changes nothing, whenever it comes.
    fn answer<V: View>(
        &self,
        alloc: Global,
        xid: u32,
        call: &Call,
        view: &V,
    ) -> Result<Attempt, OutOfMemory>
        requires reading { IsReading call.now }
        ensures gives { (client moment : ℕ) (bytes : List ℕ) (truth : Truth) (tree : Tree) → moment ≤ 4294967295999 → ReadsAs bytes xid call.now → IsTruth (V.held view.now) truth
            → StandsWith self.now.volume self.now.areas truth (V.hints view.now) tree → IfOk result (Gives (StandsWith self.now.volume self.now.areas) StepOfTree (free_slots self.now.areas truth) client bytes moment truth tree) }
        ensures fair { IfOk result (IsFair self.now.areas (V.held view.now) (ReadPathOf (V.held view.now) (V.hints view.now) self.now.volume self.now.areas call.now.procedure call.now.args)) }
        ensures at_once { IsAtOnce call.now → IfOk result IsAnswer }
        ensures keeps { IfOk result ChangesNothing }
        ensures free { (at : List ℕ) (truth : Truth) (tree : Tree) → AsksSpace call.now at → IsTruth (V.held view.now) truth → Stands self.now.volume self.now.areas truth tree
            → IfOk result (IfActed (λ done. done.spare ≡ told_free (free_slots self.now.areas truth) (statfs_of tree at (free_slots self.now.areas truth)))) }
        ensures enough { ((at : List ℕ) → AsksSpace call.now at → ⊥) → IfOk result TellsEnough }
    {
        match &call.args {
            Args::Refused(number) => answered(alloc, xid, Reply::Refused(*number, call.program)),
            Args::Nothing => answered(alloc, xid, plain(call.program, call.procedure)),
            Args::Path(path) => {
                let reply = mounted(alloc, self.volume, call.procedure, path.bytes())?;
                answered(alloc, xid, reply)
            }
            Args::Handle(at) => self.about_file(alloc, xid, call, at.bytes(), view),
            Args::Read(at, offset, count, _) => {
                let (volume, areas) = (self.volume, self.areas);
                replied(
                    alloc,
                    xid,
                    read(
                        alloc,
                        volume,
                        areas,
                        call,
                        at.bytes(),
                        *offset,
                        *count,
                        view,
                    ),
                )
            }
            Args::Name(at, name) => {
                let (volume, areas) = (self.volume, self.areas);
                replied(
                    alloc,
                    xid,
                    lookup(alloc, volume, areas, call, at.bytes(), name.bytes(), view),
                )
            }
            Args::List(at, cookie, count) => {
                let (volume, areas) = (self.volume, self.areas);
                replied(
                    alloc,
                    xid,
                    readdir(
                        alloc,
                        volume,
                        areas,
                        call,
                        at.bytes(),
                        *cookie,
                        *count,
                        view,
                    ),
                )
            }
            _ => unreachable!(),
        }
    }

    /// The procedures about the file that a file handle names.
    fn about_file<V: View>(
        &self,
        alloc: Global,
        xid: u32,
        call: &Call,
        at: &[u8],
        view: &V,
    ) -> Result<Attempt, OutOfMemory>
        requires handle { call.now.args ≡ HandleArgs at.now }
        requires procedure { IsAboutFile call.now.procedure }
        ensures gives { (client moment : ℕ) (bytes : List ℕ) (truth : Truth) (tree : Tree) → moment ≤ 4294967295999 → ReadsAs bytes xid call.now → IsTruth (V.held view.now) truth
            → Stands self.now.volume self.now.areas truth tree → IfOk result (Gives (StandsWith self.now.volume self.now.areas) StepOfTree (free_slots self.now.areas truth) client bytes moment truth tree) }
        ensures fair { IfOk result (IsFair self.now.areas (V.held view.now) (ReadPathOf (V.held view.now) (V.hints view.now) self.now.volume self.now.areas call.now.procedure (HandleArgs at.now))) }
        ensures keeps { IfOk result ChangesNothing }
        ensures free { (truth : Truth) (tree : Tree) → call.now.procedure ≡ 17 → IsTruth (V.held view.now) truth → Stands self.now.volume self.now.areas truth tree
            → IfOk result (IfActed (λ done. done.spare ≡ told_free (free_slots self.now.areas truth) (statfs_of tree at.now (free_slots self.now.areas truth)))) }
        ensures enough { call.now.procedure ≢ 17 → IfOk result TellsEnough }
    {
        if call.procedure == READLINK {
            replied(
                alloc,
                xid,
                readlink(alloc, self.volume, self.areas, at, view),
            )
        } else if call.procedure == STATFS {
            self.statfs(alloc, xid, at, view)
        } else {
            replied(
                alloc,
                xid,
                getattr(alloc, self.volume, self.areas, at, view),
            )
        }
    }

    /// STATFS by the file that a file handle names.
    fn statfs<V: View>(
        &self,
        alloc: Global,
        xid: u32,
        at: &[u8],
        view: &V,
    ) -> Result<Attempt, OutOfMemory>
        ensures comes { (truth : Truth) (tree : Tree) → IsTruth (V.held view.now) truth → Stands self.now.volume self.now.areas truth tree
            → IfOk result (ComesSpace tree (free_slots self.now.areas truth) at.now xid) }
        ensures fair { IfOk result (IsFair self.now.areas (V.held view.now) (OnSpace self.now.volume self.now.areas at.now)) }
        ensures keeps { IfOk result ChangesNothing }
    {
        match bx_reads::statfs(alloc, self.volume, self.areas, at, view) {
            Ok((reply, free)) => answered_with(alloc, xid, reply, u64::from(free)),
            Err(stop) => stopped(alloc, xid, stop),
        }
    }
}
