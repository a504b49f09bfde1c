// A bundle file: its first fault.
#![tactic(auto)]

ghost use Rattle.std.specs.Prelude.{◌≡◌, ◌+◌, ◌*◌, eqb, if◌then◌else◌};
ghost use Rattle.rules.specs.Basics.{records};
ghost use Rattle.rules.specs.Bundle.{order_of, listed_order, bundle_record_laid_out, bundle_in_place, bundle_fault};
ghost use Rattle.files.specs.Faults.{fault_as};

use record_sizes::Record;
use refusals::Refusal;

// The positions of field 14, and of the policy, which has no number, in the order of kind and number.
const LISTED_ORDER: u16 = 2574;

pub const POLICY_ORDER: u16 = 3072;

// A position in the order of kind and number.
fn order(kind: u8, number: u8) -> u16
    ensures { result ≡ kind * 256 + number }
{
    (kind as u16) * 256 + (number as u16)
}

// A record's position in that order.
pub fn record_order(rec: &Record) -> u16
    ensures { result ≡ order_of rec.now }
{
    let kind = rec[0];
    if kind == record_kinds::POLICY {
        return POLICY_ORDER;
    }
    order(kind, rec[4])
}

// Whether a record is a well-formed fact, signature outcome or policy.
fn bundle_record(rec: &Record) -> bool
    ensures { result ≡ bundle_record_laid_out rec.now }
{
    let kind = rec[0];
    if kind == record_kinds::FACT {
        return record_layout::fact(rec);
    }
    if kind == record_kinds::SIGNATURE {
        return record_layout::signature(rec);
    }
    if kind == record_kinds::POLICY {
        return record_layout::policy(rec);
    }
    false
}

// 1 at the position of field 14, which alone may repeat, else 0.
pub fn repeats(here: u16) -> u16
    ensures { result ≡ (if eqb here listed_order then 1 else 0) }
{
    if here == LISTED_ORDER {
        return 1;
    }
    0
}

// Whether a record is well formed and its position `here` may follow the position `last`: it rises, or both are field 14.
pub fn in_place(last: u16, here: u16, again: u16, rec: &Record) -> bool
    requires { (here ≡ order_of rec.now) × (again ≡ (if eqb here listed_order then 1 else 0)) }
    ensures { result ≡ bundle_in_place last rec.now }
{
    bundle_record(rec) & (last < here + again)
}

// The first fault of a bundle's records, from the first on; 2 before 3 within a record; a bundle without a policy gives 2 at its end.
pub fn bundle_records(bundle: &[u8]) -> Result<(), Refusal>
    ensures { fault_as result ≡ bundle_fault (records bundle.now) }
{
    let mut last = 0;
    let mut listed = 0;
    for rec in record_fields::records(bundle) {
        let here = record_order(rec);
        let again = repeats(here);
        if !in_place(last, here, again, rec) {
            return Err(Refusal::Malformed);
        }
        listed += again as usize;
        if record_sizes::LISTED < listed {
            return Err(Refusal::TooMany);
        }
        last = here;
    }
    if !(last == POLICY_ORDER) {
        return Err(Refusal::Malformed);
    }
    Ok(())
}
