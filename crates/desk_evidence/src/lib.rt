// What a bundle gives evidence of: fields that are present and equal, signatures that are good, and the keys that world certificates vouch for.
#![tactic(auto)]

ghost use Rattle.std.specs.Prelude.{◌≡◌, ◌&&◌, ◌||◌, ◌<◌};
ghost use Rattle.rules.specs.Basics.{both_same, records};
ghost use Rattle.rules.specs.Bundle.{field, has_field, reported, good};
ghost use Rattle.rules.specs.Desk.{km_vouched, km_fips_vouched, kre_vouched, module_key, recovery_key, is_listed, csr_linked};
ghost use Rattle.bundle_facts.specs.Found.{bytes_as};

use bundle_facts::Facts;

// Whether two hashes are both there and equal: an absent one equals nothing, not even another absent one.
fn both_same(a: Option<&[u8]>, b: Option<&[u8]>) -> bool
    ensures { result ≡ both_same (bytes_as a.entry) (bytes_as b.entry) }
{
    match (a, b) {
        (Some(a), Some(b)) => record_fields::same_bytes(a, b),
        _ => false,
    }
}

// Whether signature n is reported, and good.
pub fn is_good(n: u8, facts: Facts) -> bool
    requires { n < 8 }
    ensures { result ≡ good n (records facts.entry.bundle.now) }
{
    facts.outcome(n).unwrap_or(false)
}

// Whether signature n is reported, good or not.
pub fn is_signed(n: u8, facts: Facts) -> bool
    requires { n < 8 }
    ensures { result ≡ reported n (records facts.entry.bundle.now) }
{
    facts.outcome(n).is_some()
}

// Whether field n is present.
pub fn has_field(n: u8, facts: Facts) -> bool
    requires { n < 16 }
    ensures { result ≡ has_field n (records facts.entry.bundle.now) }
{
    facts.content(n).is_some()
}

// Whether two fields are both there and equal.
pub fn same_fields(m: u8, n: u8, facts: Facts) -> bool
    requires { (m < 16) × (n < 16) }
    ensures { result ≡ both_same (field m (records facts.entry.bundle.now)) (field n (records facts.entry.bundle.now)) }
{
    both_same(facts.content(m), facts.content(n))
}

// What certificates 3 and 4 both vouch with: the officer's key, the module key and its confirmation.
fn km_confirmed(facts: Facts) -> bool
    ensures { result ≡
        (has_field 5 (records facts.entry.bundle.now)
        && has_field 6 (records facts.entry.bundle.now)
        && has_field 12 (records facts.entry.bundle.now)) }
{
    has_field(5, facts) & has_field(6, facts) & has_field(12, facts)
}

// Certificate 3.
pub fn km_vouched(facts: Facts) -> bool
    ensures { result ≡ km_vouched (records facts.entry.bundle.now) }
{
    is_good(3, facts) & km_confirmed(facts)
}

// Certificate 4: with the FIPS key too.
pub fn km_fips_vouched(facts: Facts) -> bool
    ensures { result ≡ km_fips_vouched (records facts.entry.bundle.now) }
{
    is_good(4, facts) & km_confirmed(facts) & has_field(13, facts)
}

// Certificate 5: the officer's key, the recovery key and its authorisation.
pub fn kre_vouched(facts: Facts) -> bool
    ensures { result ≡ kre_vouched (records facts.entry.bundle.now) }
{
    is_good(5, facts) & has_field(5, facts) & has_field(7, facts) & has_field(11, facts)
}

// Whether certificate 3 or 4 vouches for the module key. The second is looked for only where the first does not.
fn km_trusted(facts: Facts) -> bool
    ensures { result ≡ (km_vouched (records facts.entry.bundle.now) || km_fips_vouched (records facts.entry.bundle.now)) }
{
    km_vouched(facts) || km_fips_vouched(facts)
}

// The module key, if a world certificate vouches for it: that it is listed is not enough.
pub fn module_key<'a>(facts: Facts<'a, '_>) -> Option<&'a [u8]>
    ensures { bytes_as result ≡ module_key (records facts.entry.bundle.now) }
{
    if km_trusted(facts) {
        return facts.content(6);
    }
    None
}

// The recovery key, if its certificate vouches for it.
pub fn recovery_key<'a>(facts: Facts<'a, '_>) -> Option<&'a [u8]>
    ensures { bytes_as result ≡ recovery_key (records facts.entry.bundle.now) }
{
    if kre_vouched(facts) {
        return facts.content(7);
    }
    None
}

// Whether the module key, if it is present, is listed.
pub fn module_key_listed(facts: Facts) -> bool
    ensures { result ≡ is_listed (field 6 (records facts.entry.bundle.now)) (records facts.entry.bundle.now) }
{
    let key = facts.content(6);
    key.is_none_or(|key| bundle_facts::is_listed(key, facts.bundle))
}

// Whether the CSR, if the policy says that one is in use, is for the key.
pub fn csr_linked(facts: Facts) -> bool
    ensures { result ≡ csr_linked (records facts.entry.bundle.now) }
{
    !facts.policy().csr | same_fields(10, 9, facts)
}
