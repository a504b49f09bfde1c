// What fails an attestation step that looks at a bundle: the first signature or field, in the order in which document 01 names them, that is absent, not
// good or not equal to what it must equal.
#![tactic(auto)]

ghost use Rattle.std.specs.Prelude.{◌≡◌, [], ◌∷◌, ◌<◌};
ghost use Rattle.rules.specs.Basics.{unless, first_fault, records};
ghost use Rattle.rules.specs.Desk as rules;
ghost use Rattle.desk_steps.specs.Steps.{step_as};
ghost use Rattle.reason_steps.specs.Defects.{flaw_as, named, signature_test, field_test, equal_test, listed_test, step_flaw};

use bundle_facts::Facts;
use desk_steps::Step;

// What is wrong with the signature or the field of a number.
#[derive(Clone, Copy, Debug, PartialEq, Eq)]
pub enum Flaw {
    SignatureAbsent(u8),
    SignatureBad(u8),
    FieldAbsent(u8),
    FieldDiffers(u8),
}

// A flaw in numbers: what is wrong, and with which signature or field; both zero where nothing is.
// stays: codes, for C reads them in the place of a verdict.
#[derive(Clone, Copy, Debug, PartialEq, Eq)]
pub struct Defect {
    pub what: u32,
    pub number: u32,
}

impl From<Result<(), Flaw>> for Defect {
    ghost from_gives = { λ r d. d ≡ named (flaw_as r) };

    fn from(found: Result<(), Flaw>) -> Defect {
        let (what, number) = match found {
            Ok(()) => (0, 0),
            Err(Flaw::SignatureAbsent(n)) => (1, n),
            Err(Flaw::SignatureBad(n)) => (2, n),
            Err(Flaw::FieldAbsent(n)) => (3, n),
            Err(Flaw::FieldDiffers(n)) => (4, n),
        };
        Defect {
            what,
            number: number as u32,
        }
    }
}

// A flaw where a test fails.
fn unless(test: bool, flaw: Flaw) -> Result<(), Flaw>
    ensures { flaw_as result ≡ unless test flaw }
{
    if test { Ok(()) } else { Err(flaw) }
}

// Signature n is present, and good.
fn signature_defect(n: u8, facts: Facts) -> Result<(), Flaw>
    requires { n < 8 }
    ensures { flaw_as result ≡ signature_test n (records facts.entry.bundle.now) }
{
    unless(desk_evidence::is_signed(n, facts), Flaw::SignatureAbsent(n))?;
    unless(desk_evidence::is_good(n, facts), Flaw::SignatureBad(n))
}

// Field n is present.
fn field_defect(n: u8, facts: Facts) -> Result<(), Flaw>
    requires { n < 16 }
    ensures { flaw_as result ≡ field_test n (records facts.entry.bundle.now) }
{
    unless(desk_evidence::has_field(n, facts), Flaw::FieldAbsent(n))
}

// Field m is equal to field n.
fn equal_defect(m: u8, n: u8, facts: Facts) -> Result<(), Flaw>
    requires { (m < 16) × (n < 16) }
    ensures { flaw_as result ≡ equal_test m n (records facts.entry.bundle.now) }
{
    unless(
        desk_evidence::same_fields(m, n, facts),
        Flaw::FieldDiffers(m),
    )
}

// The module key, if it is present, is listed.
fn listed_defect(facts: Facts) -> Result<(), Flaw>
    ensures { flaw_as result ≡ listed_test (records facts.entry.bundle.now) }
{
    unless(
        desk_evidence::module_key_listed(facts),
        Flaw::FieldDiffers(6),
    )
}

// WV1.
fn warrant_defect(facts: Facts) -> Result<(), Flaw>
    ensures { flaw_as result ≡ step_flaw rules.WV1 (records facts.entry.bundle.now) }
{
    signature_defect(1, facts)?;
    field_defect(1, facts)
}

// MSCV2.
fn state_defect(facts: Facts) -> Result<(), Flaw>
    ensures { flaw_as result ≡ step_flaw rules.MSCV2 (records facts.entry.bundle.now) }
{
    field_defect(2, facts)?;
    field_defect(3, facts)
}

// MSCV4.
fn officer_defect(facts: Facts) -> Result<(), Flaw>
    ensures { flaw_as result ≡ step_flaw rules.MSCV4 (records facts.entry.bundle.now) }
{
    field_defect(4, facts)?;
    equal_defect(5, 4, facts)
}

// A world certificate: signature n is good, and three fields are present.
fn certificate_defect(n: u8, f: u8, g: u8, h: u8, facts: Facts) -> Result<(), Flaw>
    requires { (n < 8) × (f < 16) × (g < 16) × (h < 16) }
    ensures { flaw_as result ≡ first_fault (signature_test n (records facts.entry.bundle.now) ∷ field_test f (records facts.entry.bundle.now) ∷ field_test g (records facts.entry.bundle.now) ∷ field_test h (records facts.entry.bundle.now) ∷ []) }
{
    signature_defect(n, facts)?;
    field_defect(f, facts)?;
    field_defect(g, facts)?;
    field_defect(h, facts)
}

// WBCV2: with the FIPS key too.
fn fips_defect(facts: Facts) -> Result<(), Flaw>
    ensures { flaw_as result ≡ step_flaw rules.WBCV2 (records facts.entry.bundle.now) }
{
    certificate_defect(4, 5, 6, 12, facts)?;
    field_defect(13, facts)
}

// KGCV2.
fn key_defect(facts: Facts) -> Result<(), Flaw>
    ensures { flaw_as result ≡ step_flaw rules.KGCV2 (records facts.entry.bundle.now) }
{
    field_defect(8, facts)?;
    field_defect(9, facts)?;
    equal_defect(8, 9, facts)
}

// CSRL1.
fn csr_defect(facts: Facts) -> Result<(), Flaw>
    ensures { flaw_as result ≡ step_flaw rules.CSRL1 (records facts.entry.bundle.now) }
{
    field_defect(10, facts)?;
    equal_defect(10, 9, facts)
}

// What fails a step in the bundle; nothing for a step that looks at the ACL.
pub fn step_defect(s: Step, facts: Facts) -> Result<(), Flaw>
    ensures { flaw_as result ≡ step_flaw (step_as s) (records facts.entry.bundle.now) }
{
    match s {
        Step::WV1 => warrant_defect(facts),
        Step::MSCV1 => signature_defect(2, facts),
        Step::MSCV2 => state_defect(facts),
        Step::MSCV3 => equal_defect(2, 1, facts),
        Step::MSCV4 => officer_defect(facts),
        Step::MSCV5 => listed_defect(facts),
        Step::WBCV1 => certificate_defect(3, 5, 6, 12, facts),
        Step::WBCV2 => fips_defect(facts),
        Step::WBCV3 => certificate_defect(5, 5, 7, 11, facts),
        Step::KGCV1 => signature_defect(6, facts),
        Step::KGCV2 => key_defect(facts),
        Step::CSRL1 => csr_defect(facts),
        Step::ACLV3
        | Step::WB1
        | Step::WB2
        | Step::WB3
        | Step::WB6
        | Step::RB1
        | Step::RB2
        | Step::RB3
        | Step::KV3 => Ok(()),
    }
}
