// The attestation steps that look at a bundle alone. A run of steps fails with the first that does.
#![tactic(auto)]

ghost use Rattle.std.specs.Prelude.{◌≡◌};
ghost use Rattle.rules.specs.Basics.{or_next, records};
ghost use Rattle.rules.specs.Desk.{before_acl, basic_failure};
ghost use Rattle.desk_steps.specs.Steps.{step_as, step_number, failure_as, warrant_failure, state_failure, world_failure, key_failure, csr_failure};

use bundle_facts::Facts;

// The steps that can fail, by their names in document 01.
#[derive(Clone, Copy, Debug, PartialEq, Eq)]
pub enum Step {
    WV1 = 1,
    MSCV1,
    MSCV2,
    MSCV3,
    MSCV4,
    MSCV5,
    WBCV1,
    WBCV2,
    WBCV3,
    KGCV1,
    KGCV2,
    ACLV3,
    WB1,
    WB2,
    WB3,
    WB6,
    RB1,
    RB2,
    RB3,
    KV3,
    CSRL1,
}

// The number of a step, from 1 in document 01's order.
impl From<Step> for u8 {
    ghost from_gives = { λ s n. n ≡ step_number (step_as s) };

    fn from(s: Step) -> u8 {
        s as u8
    }
}

// The warrant and the module's state, as both approaches ask for them.
#[tactic(auto, using(crate::proofs::Laws::tests), unfolding(crate::specs::Steps::warrant_failure))]
fn warrant_steps(facts: Facts) -> Result<(), Step>
    ensures { failure_as result ≡ warrant_failure (records facts.entry.bundle.now) }
{
    if !(desk_evidence::is_good(1, facts) & desk_evidence::has_field(1, facts)) {
        return Err(Step::WV1);
    }
    if !desk_evidence::is_good(2, facts) {
        return Err(Step::MSCV1);
    }
    if !(desk_evidence::has_field(2, facts) & desk_evidence::has_field(3, facts)) {
        return Err(Step::MSCV2);
    }
    Ok(())
}

// The rest of the module's state: its ESN, the officer's key, the module key.
#[tactic(auto, using(crate::proofs::Laws::tests), unfolding(crate::specs::Steps::state_failure))]
fn state_steps(facts: Facts) -> Result<(), Step>
    ensures { failure_as result ≡ state_failure (records facts.entry.bundle.now) }
{
    if !desk_evidence::same_fields(1, 2, facts) {
        return Err(Step::MSCV3);
    }
    if !(!desk_evidence::has_field(5, facts) | desk_evidence::same_fields(5, 4, facts)) {
        return Err(Step::MSCV4);
    }
    if !desk_evidence::module_key_listed(facts) {
        return Err(Step::MSCV5);
    }
    Ok(())
}

// The world certificates: one that is reported has to vouch.
#[tactic(auto, using(crate::proofs::Laws::tests), unfolding(crate::specs::Steps::world_failure))]
fn world_steps(facts: Facts) -> Result<(), Step>
    ensures { failure_as result ≡ world_failure (records facts.entry.bundle.now) }
{
    if !(!desk_evidence::is_signed(3, facts) | desk_evidence::km_vouched(facts)) {
        return Err(Step::WBCV1);
    }
    if !(!desk_evidence::is_signed(4, facts) | desk_evidence::km_fips_vouched(facts)) {
        return Err(Step::WBCV2);
    }
    if !(!desk_evidence::is_signed(5, facts) | desk_evidence::kre_vouched(facts)) {
        return Err(Step::WBCV3);
    }
    Ok(())
}

// The key's generation.
#[tactic(auto, using(crate::proofs::Laws::tests), unfolding(crate::specs::Steps::key_failure))]
fn key_steps(facts: Facts) -> Result<(), Step>
    ensures { failure_as result ≡ key_failure (records facts.entry.bundle.now) }
{
    if !desk_evidence::is_good(6, facts) {
        return Err(Step::KGCV1);
    }
    if !desk_evidence::same_fields(8, 9, facts) {
        return Err(Step::KGCV2);
    }
    Ok(())
}

// The link between CSR and key.
#[tactic(auto, using(crate::proofs::Laws::tests), unfolding(crate::specs::Steps::csr_failure))]
pub fn csr_step(facts: Facts) -> Result<(), Step>
    ensures { failure_as result ≡ csr_failure (records facts.entry.bundle.now) }
{
    if !desk_evidence::csr_linked(facts) {
        return Err(Step::CSRL1);
    }
    Ok(())
}

// The module: its warrant and its state.
fn module_steps(facts: Facts) -> Result<(), Step>
    ensures { failure_as result ≡ or_next (warrant_failure (records facts.entry.bundle.now)) (state_failure (records facts.entry.bundle.now)) }
{
    warrant_steps(facts)?;
    state_steps(facts)
}

// Approach 2, up to the ACL.
pub fn bundle_steps(facts: Facts) -> Result<(), Step>
    ensures { failure_as result ≡ before_acl (records facts.entry.bundle.now) }
{
    module_steps(facts)?;
    world_steps(facts)?;
    key_steps(facts)
}

// Approach 1, whole.
pub fn basic_steps(facts: Facts) -> Result<(), Step>
    ensures { failure_as result ≡ basic_failure (records facts.entry.bundle.now) }
{
    warrant_steps(facts)?;
    key_steps(facts)?;
    csr_step(facts)
}
