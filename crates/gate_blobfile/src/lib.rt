// What blobfile, the record of kind 15, says of an action: against what a request's says, and against what that of an older action says. Also what the
// records of actions and groups share: fields that a flag announces, and whether what such a field restricts is kept. Each function decodes any bytes.
#![tactic(auto)]

ghost use Rattle.std.specs.Prelude.{◌≡◌, ◌+◌, ◌≤◌, ◌<◌, option_copied};
ghost use Rattle.rules.specs.Sizes.{record_bytes};
ghost use Rattle.rules.specs.Basics.{part, flag, optional, records};
ghost use Rattle.rules.specs.Acl.{blobfile_rule_of, blobfile_rule_next};
ghost use Rattle.rules.specs.Request.{blobfile_of, blobfile_next};
ghost use Rattle.rules.specs.Grant.{admits_device, admits_template, admits_blobfile};
ghost use Rattle.rules.specs.Narrow.{kept, kept_devices, blobfile_no_wider};
ghost use Rattle.acl_groups.specs.Parts.{said};
ghost use Rattle.gate_blobfile.specs.Kept.{Keeps};

use record_sizes::Record;

// The LEN bytes from off on, if flag f says that they are there.
pub fn field<const LEN: usize>(f: u16, off: usize, rec: &Record) -> Option<&[u8; LEN]>
    requires flag { f < 16 }
    requires room { off + LEN ≤ record_bytes }
    ensures { said (λ b. b) (option_copied result) ≡ optional (flag f rec.now) (part off LEN rec.now) }
{
    if !record_fields::flag_of(f, rec) {
        return None;
    }
    rec[off..].first_chunk()
}

// Whether what an old record restricts is kept by a new one, by a test of the new value against the old one: what was free may be restricted.
pub fn kept<T: Copy, F: Fn(T, T) -> bool>(new: Option<T>, old: Option<T>, test: F) -> bool
    requires { F.IsAlwaysCallable test }
    ensures { Keeps (F.post test) new old result }
{
    match (new, old) {
        (_, None) => true,
        (None, Some(_)) => false,
        (Some(new), Some(old)) => test(new, old),
    }
}

// The device mask of blobfile, if it has one.
fn devices(file: &Record) -> Option<u32>
    ensures { said (λ n. n) result ≡ (blobfile_rule_of file.now).devices }
{
    record_fields::flag_of(record_kinds::DEVICES, file).then(|| record_fields::be32(file, 4))
}

// The template of blobfile, if it has one.
fn template(file: &Record) -> Option<&[u8; record_sizes::HASH]>
    ensures { said (λ b. b) (option_copied result) ≡ (blobfile_rule_of file.now).template }
{
    field(record_kinds::TEMPLATE, 8, file)
}

// Whether the device that a stored blob names is in an action's mask, if it has one.
fn admits_device(file: &Record, stored: &Record) -> bool
    ensures { result ≡ admits_device (blobfile_rule_of file.now).devices (blobfile_of stored.now).device }
{
    devices(file).is_none_or(|mask| record_fields::subset32(record_fields::be32(stored, 4), mask))
}

// Whether a stored blob has the template of an action, if the action has one.
fn admits_template(file: &Record, stored: &Record) -> bool
    ensures { result ≡ admits_template (blobfile_rule_of file.now).template (blobfile_of stored.now).template }
{
    kept(
        template(stored),
        template(file),
        |used, wanted| record_fields::same_bytes(wanted, used),
    )
}

// Kind 15 of an action against that of a request.
fn admits_file(file: Option<&Record>, stored: Option<&Record>) -> bool
    ensures { result ≡ admits_blobfile (said blobfile_rule_of (option_copied file.entry)) (said blobfile_of (option_copied stored.entry)) }
{
    match (file, stored) {
        (None, None) => true,
        (Some(file), Some(stored)) => admits_device(file, stored) & admits_template(file, stored),
        _ => false,
    }
}

// The same, from the records after the request record and the records after the action.
pub fn admits_blobfile(rest: &[u8], after: &[u8]) -> bool
    ensures { result ≡ admits_blobfile (blobfile_rule_next (records after.now)) (blobfile_next (records rest.now)) }
{
    admits_file(
        acl_groups::file_record(after),
        acl_groups::file_record(rest),
    )
}

// A device mask against the old one: kept, tightened or added.
fn kept_devices(new: &Record, old: &Record) -> bool
    ensures { result ≡ kept_devices (blobfile_rule_of new.now).devices (blobfile_rule_of old.now).devices }
{
    kept(devices(new), devices(old), record_fields::subset32)
}

// A template against the old one: kept equal or added.
fn kept_template(new: &Record, old: &Record) -> bool
    ensures { result ≡ kept (blobfile_rule_of new.now).template (blobfile_rule_of old.now).template }
{
    kept(
        template(new),
        template(old),
        |new, old| record_fields::same_bytes(new, old),
    )
}

// Kind 15 of a new action against that of the old one: the new one has it exactly if the old one has.
fn rule_no_wider(new: Option<&Record>, old: Option<&Record>) -> bool
    ensures { result ≡ blobfile_no_wider (said blobfile_rule_of (option_copied new.entry)) (said blobfile_rule_of (option_copied old.entry)) }
{
    match (new, old) {
        (None, None) => true,
        (Some(new), Some(old)) => kept_devices(new, old) & kept_template(new, old),
        _ => false,
    }
}

// The same, from the records that follow two actions.
pub fn blobfile_no_wider(new: &[u8], old: &[u8]) -> bool
    ensures { result ≡ blobfile_no_wider (blobfile_rule_next (records new.now)) (blobfile_rule_next (records old.now)) }
{
    rule_no_wider(acl_groups::file_record(new), acl_groups::file_record(old))
}
