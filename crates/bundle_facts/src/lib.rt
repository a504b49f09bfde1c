// What a bundle says: a field's content, a signature's outcome, the policy, whether a module key is listed. Each is total: it decodes any
// bytes, whether or not the file was tested.
#![tactic(auto)]

ghost use Rattle.std.specs.Prelude.{◌≡◌, ◌<◌, replicate};
ghost use Rattle.rules.specs.Basics.{bit, records};
ghost use Rattle.rules.specs.Bundle.{first_record, field, lists, listed, signature_outcome, policy_of};
ghost use Rattle.bundle_facts.specs.Found.{given, bytes_as, policy_as};
ghost use Rattle.bundle_facts.specs.Places.{entries, unasked, entry_of, entered, offsets_of, Found};

mod facts;

pub use facts::Facts;
use record_sizes::Record;

// A policy: suite, approach, what it admits, whether a CSR is in use, the lowest protection.
#[derive(Clone, Copy, Debug, Default, PartialEq, Eq)]
pub struct Policy {
    pub suite: u8,
    pub approach: u8,
    pub signing: bool,
    pub encryption: bool,
    pub csr: bool,
    pub lowest: u8,
}

// The entries of a table of offsets, and those of the policy and of records that the desk does not ask for.
pub const ENTRIES: usize = 26;

const POLICY: usize = 24;

const UNASKED: usize = 25;

// The entry of a record of a kind and number: fact n has entry n, signature outcome n entry 16 + n.
fn entry(kind: u8, number: u8) -> usize
    ensures { result ≡ entry_of kind number }
{
    if (kind == record_kinds::FACT) & (number < 16) {
        return number as usize;
    }
    if (kind == record_kinds::SIGNATURE) & (number < 8) {
        return 16 + (number as usize);
    }
    if kind == record_kinds::POLICY {
        return POLICY;
    }
    UNASKED
}

// Fills the table: for each entry the byte at which its first record ends, 0 if there is none. One walk finds them all.
pub fn find_offsets(places: &mut [usize; ENTRIES], bundle: &[u8])
    requires { places.old ≡ replicate entries 0 }
    ensures { Found bundle.now places.new × (places.new ≡ offsets_of bundle.now) }
{
    for (n, rec) in record_fields::records(bundle).iter().enumerate() {
        let i = entry(rec[0], rec[4]);
        if places[i] != 0 {
            continue;
        }
        places[i] = (n + 1) * record_sizes::RECORD;
    }
}

// Bit b of a byte.
fn bit_of_byte(b: u16, n: u8) -> bool
    requires { b < 16 }
    ensures { result ≡ bit b n }
{
    record_fields::bit_of(b, n as u16)
}

impl<'a, 'p> Facts<'a, 'p> {
    // The first record of an entry, if there is one.
    fn first_entered(self, i: usize) -> Option<&'a Record>
        requires { i < unasked }
        ensures { bytes_as result ≡ first_record (entered i) (records self.entry.bundle.now) }
    {
        let end = self.places[i];
        if end == 0 {
            return None;
        }
        Some(record_fields::record_at(self.bundle, end - record_sizes::RECORD))
    }

    // The content of field n, if it is present.
    pub fn content(self, n: u8) -> Option<&'a [u8]>
        requires { n < 16 }
        ensures { bytes_as result ≡ field n (records self.entry.bundle.now) }
    {
        let rec = self.first_entered(n as usize)?;
        Some(&rec[8..28])
    }

    // Whether signature n is good, if it is reported.
    pub fn outcome(self, n: u8) -> Option<bool>
        requires { n < 8 }
        ensures { given result ≡ signature_outcome n (records self.entry.bundle.now) }
    {
        let rec = self.first_entered(16 + (n as usize))?;
        Some(rec[5] == 1)
    }

    // The policy; all zero where there is none.
    pub fn policy(self) -> Policy
        ensures { policy_as result ≡ policy_of (records self.entry.bundle.now) }
    {
        match self.first_entered(POLICY) {
            None => Policy::default(),
            Some(rec) => Policy {
                suite: rec[4],
                approach: rec[5],
                signing: bit_of_byte(0, rec[6]),
                encryption: bit_of_byte(1, rec[6]),
                csr: bit_of_byte(2, rec[6]),
                lowest: rec[7],
            },
        }
    }
}

// Whether a record lists a module key.
fn is_listing(key: &[u8], rec: &Record) -> bool
    ensures { result ≡ lists key.now rec.now }
{
    if !((rec[0] == record_kinds::FACT) & (rec[4] == 14)) {
        return false;
    }
    record_fields::same_bytes(&rec[8..28], key)
}

// Whether a module key is listed.
pub fn is_listed(key: &[u8], bundle: &[u8]) -> bool
    ensures { result ≡ listed key.now (records bundle.now) }
{
    record_fields::records(bundle)
        .iter()
        .any(|rec| is_listing(key, rec))
}
