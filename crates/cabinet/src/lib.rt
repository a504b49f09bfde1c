// The cabinet: eight slots, each with its group counts and times, over one table of named counters. A call to a slot is the gate's own call on the
// slot's counts and times and the shared counters. A call copies one slot's counts out of the cabinet, and lends them and the counters.
#![tactic(auto)]

ghost use Rattle.std.specs.Prelude.{◌≡◌, ◌<◌, true, false, length, ltb};
ghost use Rattle.rules.specs.Sizes.{groups_max, slots_max};
ghost use Rattle.rules.specs.Request.{request_of};
ghost use Rattle.rules.specs.Gate.{request};
ghost use Rattle.rules.specs.Cabinet.{fresh_cabinet, as_gate, cabinet_refused, cabinet_load, cabinet_clear, cabinet_request, cabinet_narrow, cabinet_expand};
ghost use Rattle.gate_decision.specs.Standings.{ledger_of_tables};
ghost use Rattle.gate_charge.specs.Charges.{answer_as, CountersRoom, counts_charged, counters_charged};
ghost use Rattle.gate.specs.Outcomes.{Settles};
ghost use Rattle.rules.specs.Acl.{acl_of};
ghost use Rattle.refusals.specs.Refusals.{refusal_number};
ghost use Rattle.cabinet.specs.Kept.{slot_index, cabinet_as, cabinet_outcome_as};

use gate::Ledger;
use gate_charge::Reply;
use refusals::Refusal;

// What a slot has of a ledger: group counts, the load time and the last time.
#[repr(C)]
#[derive(Clone, Copy)]
pub struct Slot {
    pub counts: [u32; Ledger::GROUPS],
    pub loaded: u64,
    pub last: u64,
}

// The slots and the counters that they share.
#[repr(C)]
#[derive(Clone, Copy)]
pub struct Cabinet {
    pub slots: [Slot; Cabinet::SLOTS],
    pub counters: [u32; Ledger::COUNTERS],
}

// The cabinet after a call, with the reply.
#[derive(Clone, Copy)]
pub struct CabinetOutcome {
    pub cabinet: Cabinet,
    pub reply: Reply,
}

// Whether there is a slot of this number.
fn is_slot(slot: usize) -> bool
    ensures { result ≡ ltb slot slots_max }
{
    slot < Cabinet::SLOTS
}

// The index of the slot that a call reads and writes: 0 if there is no such slot, and then slot 0 is written back as it was. So a call to no slot takes
// the way of all others: where two ways met, the compiler would copy the whole cabinet again.
fn slot_index(slot: usize) -> usize
    ensures { (result < slots_max) × (result ≡ slot_index slot) }
{
    if Cabinet::SLOTS <= slot {
        return 0;
    }
    slot
}

// The counts of a slot, as many as there may be groups: what `charge_count` requires, and what is not known of an array that is read out of a slot.
fn counts_of(s: Slot) -> [u32; Ledger::GROUPS]
    ensures { (result ≡ s.counts) × (length result ≡ groups_max) }
{
    s.counts
}

// The gate's reply to a request, in a function that is not inlined: with a whole judgement inside a call, the compiler would zero and copy the cabinet
// once more. The gate's own function may be inlined, for `gate_in_place`, where nothing is copied; its replies to a narrowing and an expansion may not.
#[inline(never)]
fn request_reply<'a>(
    counts: &'a [u32; Ledger::GROUPS],
    counters: &'a [u32; Ledger::COUNTERS],
    loaded: u64,
    last: u64,
    km0: &[u8],
    acl: &[u8],
    req: &[u8],
) -> Reply
    ensures { Settles (ledger_of_tables counts.now counters.now loaded last) (acl_of acl.now) (request_of req.now).time
        counts_charged (answer_as result)
        (request (ledger_of_tables counts.now counters.now loaded last) km0.now acl.now
        req.now) }
{
    gate::request_reply(counts, counters, loaded, last, km0, acl, req)
}

// The reply to a call, where there is the slot that it is made to; else 13, before anything else is looked at.
fn reply_in<F: FnOnce() -> Reply>(there: bool, call: F) -> Reply
    requires { F.IsAlwaysCallable call }
    ensures reply { there ≡ true → F.post call result }
    ensures none { there ≡ false → result ≡ Reply.Refuse Refusal.NoSlot }
{
    if !there {
        return Reply::Refuse(Refusal::NoSlot);
    }
    call()
}

impl Cabinet {
    // Slots of a cabinet.
    pub const SLOTS: usize = record_sizes::SLOTS;

    // The fresh cabinet: all zero.
    pub fn fresh() -> Self
        ensures { cabinet_as result ≡ fresh_cabinet }
    {
        let slot = Slot {
            counts: [0u32; Ledger::GROUPS],
            loaded: 0,
            last: 0,
        };
        Self {
            slots: [slot; Cabinet::SLOTS],
            counters: [0u32; Ledger::COUNTERS],
        }
    }

    // A refusal: the cabinet is unchanged.
    fn refuse(self, why: Refusal) -> CabinetOutcome
        ensures { cabinet_outcome_as result ≡ cabinet_refused (cabinet_as self) (refusal_number why) }
    {
        CabinetOutcome {
            cabinet: self,
            reply: Reply::Refuse(why),
        }
    }

    // Writes the result of a call to the cabinet: the slot's counts and times, and the counters charged by the reply. Nothing else writes to the cabinet in a
    // call, so that it is copied in and out once.
    fn hand_back(
        mut self,
        at: usize,
        counts: [u32; Ledger::GROUPS],
        loaded: u64,
        after: u64,
        reply: Reply,
        acl: &[u8],
    ) -> CabinetOutcome
        requires { (at < slots_max) × CountersRoom self.counters (acl_of acl.now) (answer_as reply) }
        ensures { cabinet_outcome_as result ≡
            as_gate (cabinet_as self) at
            (record {
              answer = answer_as reply;
              ledger =
                  ledger_of_tables counts (counters_charged (acl_of acl.now) (answer_as reply) self.counters) loaded after;
            }) }
    {
        gate_charge::charge_counters(&mut self.counters, reply, acl);
        let s = Slot {
            counts,
            loaded,
            last: after,
        };
        self.slots[at] = s;
        CabinetOutcome {
            cabinet: self,
            reply,
        }
    }

    // A load of a slot, at any time: its group counts zero, both times set to it.
    pub fn load(mut self, slot: usize, time: u64) -> CabinetOutcome
        ensures { cabinet_outcome_as result ≡ cabinet_load (cabinet_as self) slot time }
    {
        if Cabinet::SLOTS <= slot {
            return self.refuse(Refusal::NoSlot);
        }
        let s = Slot {
            counts: [0u32; Ledger::GROUPS],
            loaded: time,
            last: time,
        };
        self.slots[slot] = s;
        CabinetOutcome {
            cabinet: self,
            reply: Reply::Done,
        }
    }

    // A clear of one named counter: it takes no slot.
    pub fn clear(mut self, counter: usize) -> CabinetOutcome
        ensures { cabinet_outcome_as result ≡ cabinet_clear (cabinet_as self) counter }
    {
        if Ledger::COUNTERS <= counter {
            return self.refuse(Refusal::OutOfRange);
        }
        self.counters[counter] = 0;
        CabinetOutcome {
            cabinet: self,
            reply: Reply::Done,
        }
    }

    // A request to a slot. A refusal returns the cabinet unchanged.
    pub fn request(self, slot: usize, km0: &[u8], acl: &[u8], req: &[u8]) -> CabinetOutcome
        ensures { cabinet_outcome_as result ≡ cabinet_request (cabinet_as self) slot km0.now acl.now req.now }
    {
        let there = is_slot(slot);
        let at = slot_index(slot);
        let s = self.slots[at];
        let mut counts = counts_of(s);
        let request = || request_reply(&counts, &self.counters, s.loaded, s.last, km0, acl, req);
        let reply = reply_in(there, request);
        gate_charge::charge_count(&mut counts, reply);
        let after = gate_charge::last_after(reply, s.last, request_reader::time(req));
        self.hand_back(at, counts, s.loaded, after, reply, acl)
    }

    // A narrowing in a slot.
    pub fn narrow(
        self,
        slot: usize,
        km0: &[u8],
        acl: &[u8],
        req: &[u8],
        new: &[u8],
        hints: &[u8],
    ) -> CabinetOutcome
        ensures { cabinet_outcome_as result ≡
            cabinet_narrow (cabinet_as self) slot km0.now acl.now req.now new.now hints.now }
    {
        let there = is_slot(slot);
        let at = slot_index(slot);
        let s = self.slots[at];
        let mut counts = counts_of(s);
        let narrow = || gate::narrow_reply(
            &counts,
            &self.counters,
            s.loaded,
            s.last,
            km0,
            acl,
            req,
            new,
            hints,
        );
        let reply = reply_in(there, narrow);
        gate_charge::charge_count(&mut counts, reply);
        gate_counts::carry_counts(&mut counts, reply, hints);
        let after = gate_charge::last_after(reply, s.last, request_reader::time(req));
        self.hand_back(at, counts, s.loaded, after, reply, acl)
    }

    // An expansion in a slot.
    pub fn expand(
        self,
        slot: usize,
        km0: &[u8],
        acl: &[u8],
        req: &[u8],
        new: &[u8],
    ) -> CabinetOutcome
        ensures { cabinet_outcome_as result ≡ cabinet_expand (cabinet_as self) slot km0.now acl.now req.now new.now }
    {
        let there = is_slot(slot);
        let at = slot_index(slot);
        let s = self.slots[at];
        let mut counts = counts_of(s);
        let expand = || gate::expand_reply(
            &counts,
            &self.counters,
            s.loaded,
            s.last,
            km0,
            acl,
            req,
            new,
        );
        let reply = reply_in(there, expand);
        gate_counts::zero_counts(&mut counts, reply);
        let after = gate_charge::last_after(reply, s.last, request_reader::time(req));
        self.hand_back(at, counts, s.loaded, after, reply, acl)
    }
}
