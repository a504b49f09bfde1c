// An ACL file: its first fault. Records are read one by one, with a state that says what may come next.
#![tactic(auto)]

ghost use Rattle.std.specs.Prelude.{◌≡◌, true, ◌<◌};
ghost use Rattle.rules.specs.Sizes.{groups_max, limits_max, actions_max};
ghost use Rattle.rules.specs.Basics.{records};
ghost use Rattle.rules.specs.Acl.{acl_start, among, limit_in_place, action_laid_out, blobfile_record, placed_by_kind, in_place, has_room, keyed, limit_added, blobfile_passed, after_record, acl_end, acl_fault, acl_file_fault};
ghost use Rattle.files.specs.Faults.{fault_as};
ghost use Rattle.acl_reader.specs.Places.{keys_of, acl_state_as, begun_with, added_with, reading, reading_as};

mod state;

use record_sizes::Record;
use refusals::Refusal;
pub use state::State;

// Whether a number is among the lowest n of a number's parts of sixteen bits.
fn is_among(key: u16, n: u16, keys: u64) -> bool
    ensures { result ≡ among key (keys_of n keys) }
{
    let mut left = keys;
    for _ in 0..n {
        if left % 65536 == (key as u64) {
            return true;
        }
        left = left / 65536;
    }
    false
}

// Whether a record is a well-formed action.
fn action(rec: &Record) -> bool
    ensures { result ≡ action_laid_out rec.now }
{
    let kind = rec[0];
    if kind == record_kinds::OP_PERMISSIONS {
        return record_layout::permissions(rec);
    }
    if kind == record_kinds::MAKE_BLOB {
        return record_layout::blob_action(rec);
    }
    if kind == record_kinds::MAKE_ARCHIVE_BLOB {
        return record_layout::archive_action(rec);
    }
    false
}

// Whether a record is a well-formed one of kind 15.
fn blobfile_record(rec: &Record) -> bool
    ensures { result ≡ blobfile_record rec.now }
{
    (rec[0] == record_kinds::BLOBFILE) & record_layout::file(rec)
}

impl State {
    pub fn start() -> Self
        ensures { acl_state_as result ≡ acl_start }
    {
        Self {
            groups: 0,
            opened: false,
            limits: 0,
            actions: 0,
            file_due: false,
            keys: 0,
        }
    }

    // Whether a limit of this sort and counter may come next.
    fn takes_limit(self, key: u16) -> bool
        ensures { result ≡ limit_in_place (acl_state_as self) key }
    {
        if !(0 < self.groups) {
            return false;
        }
        if !(self.actions == 0) {
            return false;
        }
        !is_among(key, self.limits, self.keys)
    }

    // Whether a record is well formed and may come next: kind 15 if the last action announced it, and only then.
    fn in_place(self, rec: &Record) -> bool
        ensures { result ≡ in_place (acl_state_as self) rec.now }
    {
        if self.file_due {
            return blobfile_record(rec);
        }
        self.placed_by_kind(rec)
    }

    // Whether a group, a limit or an action is well formed and may come next.
    fn placed_by_kind(self, rec: &Record) -> bool
        ensures { result ≡ placed_by_kind (acl_state_as self) rec.now }
    {
        let kind = rec[0];
        if kind == record_kinds::GROUP {
            return record_layout::group(rec);
        }
        if kind == record_kinds::LIMIT {
            if !record_layout::limit(rec) {
                return false;
            }
            return self.takes_limit(record_fields::be16(rec, 4));
        }
        if !action(rec) {
            return false;
        }
        0 < self.groups
    }

    // Whether there is room for one more of a record's kind.
    fn has_room(self, rec: &Record) -> bool
        ensures { result ≡ has_room (acl_state_as self) rec.now }
    {
        let kind = rec[0];
        if kind == record_kinds::GROUP {
            return (self.groups as usize) < record_sizes::GROUPS;
        }
        if kind == record_kinds::LIMIT {
            return (self.limits as usize) < record_sizes::LIMITS;
        }
        if kind == record_kinds::BLOBFILE {
            return true;
        }
        (self.actions as usize) < record_sizes::ACTIONS
    }

    // Whether a record is none that opens the key to any recovery key: a MakeArchiveBlob action without kahash in an open group.
    fn is_keyed(self, rec: &Record) -> bool
        ensures { result ≡ keyed (acl_state_as self).is_open rec.now }
    {
        let kind = rec[0];
        !(self.opened & (kind == record_kinds::MAKE_ARCHIVE_BLOB))
            | record_fields::flag_of(record_kinds::KAHASH, rec)
    }

    // The state after a limit that is not one too many.
    fn after_limit(mut self, key: u16) -> Self
        requires { self.limits < limits_max }
        ensures { acl_state_as result ≡ limit_added (acl_state_as self) key }
    {
        self.keys = self.keys % 281474976710656 * 65536 + (key as u64);
        self.limits += 1;
        self
    }

    // The state after a group record, which may be open.
    fn after_group(mut self, opened: bool) -> Self
        requires { self.groups < groups_max }
        ensures { acl_state_as result ≡ begun_with (acl_state_as self) opened }
    {
        self.groups += 1;
        self.opened = opened;
        self.limits = 0;
        self.actions = 0;
        self.file_due = false;
        self
    }

    // The state after an action, which may announce a record of kind 15.
    fn after_action(mut self, file_due: bool) -> Self
        requires { self.actions < actions_max }
        ensures { acl_state_as result ≡ added_with (acl_state_as self) file_due }
    {
        self.actions += 1;
        self.file_due = file_due;
        self
    }

    // The state after a record of kind 15.
    fn after_file(mut self) -> Self
        ensures { acl_state_as result ≡ blobfile_passed (acl_state_as self) }
    {
        self.file_due = false;
        self
    }

    // The state after a record that is not one too many.
    fn after(self, rec: &Record) -> Self
        requires { has_room (acl_state_as self) rec.now ≡ true }
        ensures { acl_state_as result ≡ after_record (acl_state_as self) rec.now }
    {
        let kind = rec[0];
        if kind == record_kinds::GROUP {
            return self.after_group(!record_fields::flag_of(record_kinds::CERTIFIER, rec));
        }
        if kind == record_kinds::LIMIT {
            return self.after_limit(record_fields::be16(rec, 4));
        }
        if kind == record_kinds::BLOBFILE {
            return self.after_file();
        }
        self.after_action(record_fields::flag_of(record_kinds::HAS_BLOBFILE, rec))
    }

    // The fault of a file that ends here: 2 if a record of kind 15 is missing.
    fn end(self) -> Result<(), Refusal>
        ensures { fault_as result ≡ acl_end (acl_state_as self) }
    {
        if self.file_due {
            return Err(Refusal::Malformed);
        }
        Ok(())
    }

    // Reading goes on here: records from the first on; within a record 2, then 3, then 12. It is one loop for all readers of records, so that its tests
    // are one piece of code with it and the state stays in registers.
    pub fn read(self, acl: &[u8]) -> Result<State, Refusal>
        ensures { reading_as result ≡ reading (acl_state_as self) (records acl.now) }
    {
        let mut place = self;
        for rec in record_fields::records(acl) {
            if !place.in_place(rec) {
                return Err(Refusal::Malformed);
            }
            if !place.has_room(rec) {
                return Err(Refusal::TooMany);
            }
            if !place.is_keyed(rec) {
                return Err(Refusal::OpenArchive);
            }
            place = place.after(rec);
        }
        Ok(place)
    }
}

// The first fault of an ACL's records; it may end anywhere but before a record of kind 15 that an action announced.
pub fn acl_records(acl: &[u8]) -> Result<(), Refusal>
    ensures { fault_as result ≡ acl_fault (records acl.now) }
{
    State::start().read(acl)?.end()
}

// The first fault of an ACL file: its length, then its records.
pub fn acl_file(acl: &[u8]) -> Result<(), Refusal>
    ensures { fault_as result ≡ acl_file_fault acl.now }
{
    if !files::whole(record_sizes::ACL_RECORDS, acl) {
        return Err(Refusal::BadLength);
    }
    acl_records(acl)
}
