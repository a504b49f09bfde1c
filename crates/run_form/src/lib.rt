// What a run makes of an ACL once. The prepared form: for each permission the groups with an action that sets its bit, for each blob kind those with an
// action for it; each a set of groups, bit g for group g, made in one pass over the records, from the last to the first. And where the groups are: for
// each the byte at which the records begin that follow the group's first one, so that a group's limits and actions are read without a walk.
#![tactic(auto)]

ghost use Rattle.std.specs.Prelude.{◌≡◌, ◌≤◌, ◌<◌, ◌+◌, ◌*◌, length};
ghost use Rattle.rules.specs.Sizes.{set_bits, groups_max};
ghost use Rattle.rules.specs.Basics.{Every, same, records};
ghost use Rattle.rules.specs.Acl.{acl_of};
ghost use Rattle.rules.specs.Prepared.{form_of, prepare, same_form};
ghost use Rattle.run_form.specs.Forms.{form_as, preparation_as, doubled};
ghost use Rattle.run_form.specs.Places.{offsets_from, Inside, Offsets};

use refusals::Refusal;

// The sets of groups of an ACL. It is laid out as C lays it out, so that a host's program can hold it.
#[repr(C)]
#[derive(Clone, Copy, Debug, PartialEq, Eq)]
pub struct Prepared {
    pub uses: [u64; record_sizes::PERMISSIONS],
    pub working: u64,
    pub recovery: u64,
}

// A number with one binary digit more, the lowest.
fn with_digit(n: u64, digit: u64) -> u64
    requires { (n < 9223372036854775808) × (digit ≤ 1) }
    ensures { result ≡ n * 2 + digit }
{
    n * 2 + digit
}

// Each set with one group more, which comes before those it has: group g becomes group g + 1, and the new group is in the set of permission p if bit p
// is set.
fn double_uses(uses: &mut [u64; record_sizes::PERMISSIONS], bits: u64)
    requires { Every (λ n. n < 9223372036854775808) uses.old }
    ensures { uses.new ≡ doubled bits uses.old }
{
    let mut left = bits;
    for set in uses.iter_mut() {
        *set = with_digit(*set, left % 2);
        left = left / 2;
    }
}

// The form of an ACL that has no more groups than a set has bits. The records are passed from the last to the first, so that this loop asks of each what
// the walk over groups and actions passes over. `bits`, `blob` and `archive` are what the actions set that were passed since the last
// group record.
pub fn form_of(acl: &[u8]) -> Prepared
    requires { length (acl_of acl.now) ≤ set_bits }
    ensures { form_as result ≡ form_of (acl_of acl.now) }
{
    let mut uses = [0u64; record_sizes::PERMISSIONS];
    let mut working = 0u64;
    let mut recovery = 0u64;
    let mut bits = 0u64;
    let mut blob = 0u64;
    let mut archive = 0u64;
    for rec in record_fields::records(acl).iter().rev() {
        let kind = rec[0];
        if kind == 1 {
            double_uses(&mut uses, bits);
            working = with_digit(working, blob);
            recovery = with_digit(recovery, archive);
            bits = 0;
            blob = 0;
            archive = 0;
            continue;
        }
        if acl_groups::is_passed_over(kind) {
            continue;
        }
        if kind == 3 {
            bits = (record_fields::be16(rec, 4) as u64) | bits;
            continue;
        }
        if kind == 4 {
            blob = 1;
            continue;
        }
        archive = 1;
    }
    Prepared {
        uses,
        working,
        recovery,
    }
}

// Whether the sets of all permissions are the same. No test here stops at the first difference.
fn same_words(a: &[u64; record_sizes::PERMISSIONS], b: &[u64; record_sizes::PERMISSIONS]) -> bool
    ensures { result ≡ same a.now b.now }
{
    let mut so_far = true;
    for i in 0..record_sizes::PERMISSIONS {
        so_far = so_far & (a[i] == b[i]);
    }
    so_far
}

// Whether two forms are the same.
pub fn same_form(a: Prepared, b: Prepared) -> bool
    ensures { result ≡ same_form (form_as a) (form_as b) }
{
    same_words(&a.uses, &b.uses) & (a.working == b.working) & (a.recovery == b.recovery)
}

// The form of an ACL, or the ACL's own refusal.
pub fn prepare(acl: &[u8]) -> Result<Prepared, Refusal>
    ensures { preparation_as result ≡ prepare acl.now }
{
    acl_reader::acl_file(acl)?;
    Ok(form_of(acl))
}

// Fills the table of those offsets; how many groups there are. Entries past the last group are unchanged.
pub fn fill_offsets(bodies: &mut [usize; record_sizes::GROUPS], acl: &[u8]) -> usize
    requires { Inside acl.now bodies.old × (length (acl_of acl.now) ≤ groups_max) }
    ensures { Offsets acl.now bodies.new × (bodies.new ≡ offsets_from bodies.old 0 0 (records acl.now)) ×
        (result ≡ length (acl_of acl.now)) }
{
    let mut g = 0;
    for (i, rec) in record_fields::records(acl).iter().enumerate() {
        if rec[0] == 1 {
            bodies[g] = (i + 1) * record_sizes::RECORD;
            g += 1;
        }
    }
    g
}
