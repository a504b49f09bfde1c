// The hints of a trimmed ACL: for each group a record that names the group and those of its actions that stay, by their old indices.
#![tactic(auto)]

ghost use Rattle.std.specs.Prelude.{◌≡◌, ◌≤◌, ◌<◌, ◌∷◌, length};
ghost use Rattle.std.proofs.Math.Option.{none};
ghost use Rattle.rules.specs.Sizes.{groups_max, actions_max};
ghost use Rattle.rules.specs.Basics.{kind, records};
ghost use Rattle.rules.specs.Acl.{acl_fault};
ghost use Rattle.rules.specs.Trim.{trim_hints};
ghost use Rattle.rules.specs.Written.{hint_bytes};
ghost use Rattle.subject.specs.Writing.{overwritten};
ghost use Rattle.trim_records.specs.Fates.{on_action};
ghost use Rattle.trim_hints.specs.Hinting.{begun_hint, action_hinted, record_hinted, places_of, SoundFrom};

use bundle_facts::Facts;
use record_sizes::Record;

// A hint as far as it is written: its bytes, how many actions it names, and the index of the next action of the old group.
// stays: the count beside the bytes, for the record is filled in place, without a heap.
#[derive(Clone, Copy)]
struct Hint {
    bytes: Record,
    count: usize,
    place: usize,
}

impl Hint {
    // A hint that names a group and no action yet.
    fn begun(source: usize) -> Self
        requires { source < groups_max }
        ensures { result ≡ begun_hint source }
    {
        let mut bytes = [0u8; record_sizes::RECORD];
        bytes[0] = record_kinds::HINT;
        bytes[4] = source as u8;
        Self {
            bytes,
            count: 0,
            place: 0,
        }
    }

    // The hint after an action of the old group, which is named by its old index if it stays.
    fn after_action(mut self, kept: bool) -> Self
        requires { (self.count ≤ actions_max) × (self.place ≤ actions_max) }
        ensures { result ≡ action_hinted self kept }
    {
        let place = self.place;
        self.place = place + 1;
        if !kept {
            return self;
        }
        let n = self.count;
        self.bytes[8 + n] = place as u8;
        self.count = n + 1;
        self
    }

    // The hint after a record that begins no group. A limit or a record of kind 15 is no action and has no index: this is decided here, not by the walk
    // over actions, for the trimming tool asks of each record of an ACL what becomes of it.
    fn after(self, facts: Facts, checked: bool, rec: &Record) -> Self
        requires { (self.count ≤ actions_max) × (self.place ≤ actions_max) }
        ensures { result ≡ record_hinted self (on_action (records facts.entry.bundle.now) checked rec.now) rec.now }
    {
        let kind = rec[0];
        if kind == record_kinds::LIMIT {
            return self;
        }
        if kind == record_kinds::BLOBFILE {
            return self;
        }
        let fate = trim_records::on_action(facts, checked, rec);
        self.after_action(fate.is_some())
    }
}

// The hint of a group, by its first record and the records that follow: the group's index, and the old indices of its actions that stay.
fn hint_of(facts: Facts, group: &Record, rest: &[Record], source: usize) -> Record
    requires { (kind group.now ≡ 1) × SoundFrom (group.now ∷ rest.now) source }
    ensures { result ≡ hint_bytes source (places_of (records facts.entry.bundle.now) group.now rest.now) }
{
    let checked = trim_records::is_checked(facts, group);
    let mut hint = Hint::begun(source);
    for rec in rest {
        if rec[0] == record_kinds::GROUP {
            return hint.bytes;
        }
        hint = hint.after(facts, checked, rec);
    }
    hint.bytes
}

// The hints, one for each group, over the front of the buffer.
pub fn write_hints(facts: Facts, acl: &[u8], hints: &mut [u8])
    requires { (acl_fault (records acl.now) ≡ none) ×
        (length (trim_hints (records facts.bundle.now) acl.now) ≤ length hints.old) }
    ensures { hints.new ≡ overwritten (trim_hints (records facts.entry.bundle.now) acl.now) hints.old }
{
    let all = record_fields::records(acl);
    let mut groups = 0;
    let mut to = 0;
    for (i, rec) in all.iter().enumerate() {
        if rec[0] != record_kinds::GROUP {
            continue;
        }
        let hint = hint_of(facts, rec, &all[i + 1..], groups);
        subject::copy(&hint, &mut hints[to..]);
        groups += 1;
        to += record_sizes::RECORD;
    }
}
