// Where a verdict that is no acceptance comes from: for a failing step the field or signature, or the group and the action; for a refusal the input and its
// record.
#![tactic(auto)]

ghost use Rattle.std.specs.Prelude.{Err, ◌≡◌, ◌<◌, not, eqb, length};
ghost use Rattle.std.specs.List.{prefix_len};
ghost use Rattle.rules.specs.Basics.{kind, records};
ghost use Rattle.rules.specs.Acl.{acl_of};
ghost use Rattle.rules.specs.Bundle.{policy_of};
ghost use Rattle.refusals.specs.Refusals.{refusal_number};
ghost use Rattle.desk_steps.specs.Steps.{step_as};
ghost use Rattle.reason_files.specs.Places.{place_as};
ghost use Rattle.reason_actions.specs.Spots.{permission_number, spot_as, spot_of};
ghost use Rattle.reason_desk.specs.VerdictPlaces.{step_located, step_place, index_number, site_of, is_length, policy_index, refusal_site, refusal_place, nowhere, verdict_place};

use bundle_facts::Facts;
use desk::Verdict;
use desk_actions::Terms;
use desk_steps::Step;
use reason_actions::Spot;
use reason_files::FilePlace;
use reason_steps::Defect;
use record_sizes::Record;
use refusals::Refusal;
use text_files::Kind;

// Where a verdict comes from. Refusal and step are the desk's, 0 where there is none. What is not named is 0 (input, part, what, number) or all ones
// (index, group, action, permission).
// stays: numbers for what is absent, for C reads this struct.
#[repr(C)]
#[derive(Clone, Copy, Debug, PartialEq, Eq)]
pub struct VerdictPlace {
    pub refusal: u32,
    pub step: u32,
    pub input: u32,
    pub part: u32,
    pub index: u32,
    pub what: u32,
    pub number: u32,
    pub group: u32,
    pub action: u32,
    pub permission: u32,
}

// Where in its input a fault is.
#[derive(Clone, Copy, Debug, PartialEq, Eq)]
pub struct Site {
    pub input: u32,
    pub part: u32,
    pub index: u32,
}

// A spot in numbers.
#[derive(Clone, Copy)]
struct Numbers {
    group: u32,
    action: u32,
    permission: u32,
}

const ALL_ONES: u32 = 4294967295;

const BUNDLE: u32 = 6;

const ACL: u32 = 2;

// The group and the action that a step fails at. A step of the bundle has none.
// stays: steps by their numbers, as the definition `looks_at_bundle` tells those of the bundle from the others.
fn step_spot(s: Step, facts: Facts, acl: &[u8]) -> Option<Spot>
    requires { length acl.now < 4294967295 }
    ensures { spot_as result ≡ spot_of (policy_of (records facts.entry.bundle.now)) (step_located (step_as s) (records facts.entry.bundle.now) (acl_of acl.now)) }
{
    let n = u8::from(s);
    if (n < 12) | (n == 21) {
        return None;
    }
    reason_actions::first_at_fault(n == 20, Terms::of(facts), acl)
}

// A permission as a number; all ones where none is named.
fn permission_number(permission: Option<u16>) -> u32
    ensures { result ≡ permission_number permission }
{
    permission.map_or(ALL_ONES, |p| p as u32)
}

// A spot in numbers; all ones where none is named.
fn spot_numbers(found: Option<Spot>) -> Numbers
    ensures { (result.group ≡ (spot_as found).group) × (result.action ≡ (spot_as found).action) × (result.permission ≡ (spot_as found).permission) }
{
    match found {
        None => Numbers {
            group: ALL_ONES,
            action: ALL_ONES,
            permission: ALL_ONES,
        },
        Some(spot) => Numbers {
            group: spot.group,
            action: spot.action,
            permission: permission_number(spot.permission),
        },
    }
}

// The place of a failing step.
fn step_place(s: Step, bundle: &[u8], acl: &[u8]) -> VerdictPlace
    requires { length acl.now < 4294967295 }
    ensures { result ≡ step_place (step_as s) (records bundle.now) (acl_of acl.now) }
{
    let mut places = [0usize; bundle_facts::ENTRIES];
    bundle_facts::find_offsets(&mut places, bundle);
    let facts = Facts {
        bundle,
        places: &places,
    };
    let defect = Defect::from(reason_steps::step_defect(s, facts));
    let spot = spot_numbers(step_spot(s, facts, acl));
    VerdictPlace {
        refusal: 0,
        step: u8::from(s) as u32,
        input: 0,
        part: 0,
        index: ALL_ONES,
        what: defect.what,
        number: defect.number,
        group: spot.group,
        action: spot.action,
        permission: spot.permission,
    }
}

// An index as a number of 32 bits. No file without a bad length has a record whose index does not fit.
fn index_number(index: usize) -> u32
    ensures { result ≡ index_number index }
{
    u32::try_from(index).unwrap_or(ALL_ONES)
}

// Where in an input a fault is.
fn site_of(input: u32, place: FilePlace) -> Site
    ensures { result ≡ site_of input (place_as (Err place)) }
{
    match place {
        FilePlace::Length => Site {
            input,
            part: 1,
            index: ALL_ONES,
        },
        FilePlace::Record(_, i) => Site {
            input,
            part: 2,
            index: index_number(i),
        },
        FilePlace::End(_, n) => Site {
            input,
            part: 3,
            index: index_number(n),
        },
    }
}

// Whether a length is at fault.
fn is_length(found: Result<(), FilePlace>) -> bool
    ensures { result ≡ is_length (place_as found) }
{
    matches!(found, Err(FilePlace::Length))
}

// How many records come before the first policy.
fn before_policy(all: &[Record]) -> usize
    ensures { result ≡ prefix_len (λ r. not (eqb (kind r) 12)) all.now }
{
    all.iter()
        .take_while(|rec| rec[0] != record_kinds::POLICY)
        .count()
}

// The index of the policy; the number of records where there is none.
fn policy_index(bundle: &[u8]) -> usize
    ensures { result ≡ policy_index 0 (records bundle.now) }
{
    before_policy(record_fields::records(bundle))
}

// Where the first fault of the two files is, or the policy with its unknown suite. A bad length of the ACL comes before every other fault but one of the
// bundle's length.
fn refusal_site(bundle: &[u8], acl: &[u8]) -> Site
    ensures { result ≡ refusal_site bundle.now acl.now }
{
    let of_bundle = reason_files::locate(Kind::Bundle, bundle);
    let of_acl = reason_files::locate(Kind::Acl, acl);
    if is_length(of_acl) & !is_length(of_bundle) {
        return site_of(ACL, FilePlace::Length);
    }
    match of_bundle {
        Err(place) => site_of(BUNDLE, place),
        Ok(()) => match of_acl {
            Err(place) => site_of(ACL, place),
            Ok(()) => Site {
                input: BUNDLE,
                part: 2,
                index: index_number(policy_index(bundle)),
            },
        },
    }
}

// The place of a refusal with a number.
fn refused_at(refusal: u32, site: Site) -> VerdictPlace
    ensures { result ≡ refusal_place refusal site }
{
    VerdictPlace {
        refusal,
        step: 0,
        input: site.input,
        part: site.part,
        index: site.index,
        what: 0,
        number: 0,
        group: ALL_ONES,
        action: ALL_ONES,
        permission: ALL_ONES,
    }
}

// The place of an acceptance: nothing is named.
fn accepted() -> VerdictPlace
    ensures { result ≡ nowhere }
{
    refused_at(
        0,
        Site {
            input: 0,
            part: 0,
            index: ALL_ONES,
        },
    )
}

// The place of a refusal.
fn refusal_place(why: Refusal, bundle: &[u8], acl: &[u8]) -> VerdictPlace
    ensures { result ≡ refusal_place (refusal_number why) (refusal_site bundle.now acl.now) }
{
    refused_at(u8::from(why) as u32, refusal_site(bundle, acl))
}

// Where the verdict on a bundle and an ACL comes from, whatever bytes they are.
pub fn locate_verdict(bundle: &[u8], acl: &[u8]) -> VerdictPlace
    ensures { result ≡ verdict_place bundle.now acl.now }
{
    let verdict = desk::assess(bundle, acl);
    match verdict {
        Verdict::Accepted(_) => accepted(),
        Verdict::Failed(s) => step_place(s, bundle, acl),
        Verdict::Refused(why) => refusal_place(why, bundle, acl),
    }
}
