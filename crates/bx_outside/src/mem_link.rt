//! A link in memory.

ghost use Rattle.std.specs.Prelude.{◌≡◌, ◌≤◌, ℕ, List, [], ◌∷◌, ◌++◌, length, Option, Some, None, ◌↔◌, IfErr, IfOk, IfSome, IsErr, IsErrOf, OnErr, OnOk, IsTrue};
ghost use Rattle.bx_base.specs.Faults.{Rose, count_up};
ghost use Rattle.bx_outside.specs.Datagrams.{answer_of};
ghost use Rattle.bx_outside.specs.Links.{AreShort, Linking, after_call, after_fault, after_given, after_sent, client_of, next_of};
ghost use Rattle.bx_outside.specs.Memory.{fails};
ghost use Rattle.bx_outside.specs.declared.datagram.Datagram.{Datagram};
ghost use Rattle.bx_outside.specs.declared.link.LinkError.TheVariants.{Fault};

use crate::datagram::Datagram;
use crate::link::{Link, LinkError};
use bx_base::{List, OutOfMemory};
use std::alloc::Global;
use std::marker::Model;

/// A link that gives these datagrams, one after the other, and then none, and keeps what it gave and what is sent. Given calls of it fail.
#[derive(Drop)]
pub struct MemLink {
    alloc: Global,
    coming: List<Datagram>,
    at: usize,
    given: List<Option<Datagram>>,
    sent: List<Datagram>,
    calls: u64,
    failing: Vec<u64>,
    faults: u64,
}

impl Model for MemLink {
    ghost use Rattle.std.specs.Prelude.{◌≤◌, length};
    ghost use Rattle.bx_outside.specs.Links.{AreShort, Linking};

    ghost Value = { Linking };

    ghost view = { λ link. record { coming = link.coming; at = link.at; given = link.given; sent = link.sent; calls = link.calls; failing = link.failing.items; faults = link.faults } };

    ghost invariant = { λ link. (link.at ≤ length link.coming) × AreShort link.coming };
}

impl MemLink {
    /// A link that gives these datagrams, of at most 65536 bytes each. The calls whose numbers, counted from 1 over `receive` and `send`, stand in `faults`
    /// fail.
    pub fn new(
        alloc: Global,
        coming: List<Datagram>,
        faults: &[u64],
    ) -> Result<MemLink, OutOfMemory>
        requires { AreShort coming }
        ensures { IfOk result (λ link. link ≡ record { coming = coming; at = 0; given = []; sent = []; calls = 0; failing = faults.now; faults = 0 }) }
    {
        Ok(MemLink {
            alloc,
            coming,
            at: 0,
            given: List::new(alloc),
            sent: List::new(alloc),
            calls: 0,
            failing: Vec::from_slice(alloc, faults)?,
            faults: 0,
        })
    }

    /// What was sent, the oldest first.
    pub fn sent(&self) -> &[Datagram]
        ensures { result.now ≡ self.now.sent }
    {
        self.sent.items()
    }
}

impl Link for MemLink {
    ghost tells = { λ _. Unit {0} };

    ghost given = { λ link. link.given };

    ghost sent = { λ link. link.sent };

    ghost faults = { λ link. link.faults };

    /// The next datagram that is left, and else none. A fault comes exactly at the calls that are to fail.
    fn receive(&mut self, into: &mut Vec<u8>) -> Result<Option<u32>, LinkError>
        ensures next { IfOk result (λ client. (client ≡ client_of self.old) × (self.new ≡ after_given self.old)) }
        ensures bytes { IfSome (next_of self.old) (λ next. OnOk result (into.new.items ≡ next.bytes)) }
        ensures failing { IsTrue (fails self.old.failing (count_up self.old.calls)) → IsErrOf result Fault }
        ensures only_failing { IsErrOf result Fault → IsTrue (fails self.old.failing (count_up self.old.calls)) × (self.new ≡ after_fault self.old) }

        ensures given { Unit {0} → IfOk result (λ client. self.new.given ≡ self.old.given ++ answer_of client into.new.items ∷ []) }
        ensures given_keeps { Unit {0} → OnErr result (self.new.given ≡ self.old.given) }
        ensures sent { Unit {0} → self.new.sent ≡ self.old.sent }
        ensures fits { IfOk result (λ found. IfSome found (λ client. length into.new.items ≤ 65536)) }
        ensures no_fault { OnOk result (self.new.faults ≡ self.old.faults) }
        ensures fault { IsErrOf result Fault → Rose self.old.faults self.new.faults }
        ensures later { self.old.faults ≤ self.new.faults }
        ensures keeps_telling { Unit {0} → Unit {0} }
    {
        self.begin()?;
        if self.at == self.coming.len() {
            self.given.push(None)?;
            return Ok(None);
        }
        let next = &self.coming.items()[self.at];
        into.clear();
        into.extend_from_slice(next.bytes.bytes())
            .map_err(|_| LinkError::OutOfMemory)?;
        let client = next.client;
        let copy = Datagram::of(self.alloc, client, into.as_slice())?;
        self.given.push(Some(copy))?;
        self.at += 1;
        Ok(Some(client))
    }

    /// Keeps the datagram. A fault comes exactly at the calls that are to fail.
    fn send(&mut self, client: u32, bytes: &[u8]) -> Result<(), LinkError>
        ensures after { OnOk result (self.new ≡ after_sent self.old (record { client = client; bytes = bytes.now })) }
        ensures failing { IsTrue (fails self.old.failing (count_up self.old.calls)) → IsErrOf result Fault }
        ensures only_failing { IsErrOf result Fault → IsTrue (fails self.old.failing (count_up self.old.calls)) × (self.new ≡ after_fault self.old) }

        ensures sent { Unit {0} → OnOk result (self.new.sent ≡ self.old.sent ++ record { client = client; bytes = bytes.now } ∷ []) }
        ensures sent_keeps { Unit {0} → OnErr result (self.new.sent ≡ self.old.sent) }
        ensures given { Unit {0} → self.new.given ≡ self.old.given }
        ensures no_fault { OnOk result (self.new.faults ≡ self.old.faults) }
        ensures fault { IsErrOf result Fault → Rose self.old.faults self.new.faults }
        ensures later { self.old.faults ≤ self.new.faults }
        ensures keeps_telling { Unit {0} → Unit {0} }
    {
        self.begin()?;
        let datagram = Datagram::of(self.alloc, client, bytes)?;
        self.sent.push(datagram)?;
        Ok(())
    }
}

impl MemLink {
    /// Counts a call, which fails where it is one of those that are to.
    fn begin(&mut self) -> Result<(), LinkError>
        ensures ok { OnOk result (self.new ≡ after_call self.old) }
        ensures err { OnErr result (self.new ≡ after_fault self.old) }
        ensures failing { IsTrue (fails self.old.failing (count_up self.old.calls)) ↔ IsErr result }
        ensures why { IfErr result (λ error. error ≡ Fault) }
        ensures later { self.old.faults ≤ self.new.faults }
    {
        self.calls = self.calls.saturating_add(1);
        if self.failing.contains(&self.calls) {
            self.faults = self.faults.saturating_add(1);
            return Err(LinkError::Fault);
        }
        Ok(())
    }
}
