// Nothing is declared here: the crate holds the definitions of an ACL's text form (specs/) and the laws and theorems about it (proofs/).
#![tactic(auto)]
