// The sizes of document 01 that the code uses, each named once. The definitions have the same names in crates/rules/specs/Sizes.antt.
#![tactic(auto)]

// Bytes of a record.
pub const RECORD: usize = 64;

// A record: its bytes.
pub type Record = [u8; RECORD];

// Bytes of a hash.
pub const HASH: usize = 20;

// Groups of an ACL, limits and actions of a group.
pub const GROUPS: usize = 64;

pub const LIMITS: usize = 4;

pub const ACTIONS: usize = 8;

// Named counters.
pub const COUNTERS: usize = 256;

// Slots of a cabinet.
pub const SLOTS: usize = 8;

// Certificates of a request, and listed module keys of a bundle.
pub const CERTIFICATES: usize = 32;

pub const LISTED: usize = 32;

// Delegations of a request, and those of a chain.
pub const DELEGATIONS: usize = 16;

pub const LINKS: usize = 4;

// Permissions.
pub const PERMISSIONS: usize = 16;

// Bytes of an answer in a run.
pub const ANSWER: usize = 8;

// The greatest lengths of files, in records.
pub const ACL_RECORDS: usize = GROUPS * (1 + LIMITS + 2 * ACTIONS);

pub const DAY_ACL_RECORDS: usize = GROUPS * (1 + LIMITS + ACTIONS);

pub const REQUEST_RECORDS: usize = 2 + CERTIFICATES + DELEGATIONS;

pub const BUNDLE_RECORDS: usize = 13 + LISTED + 6 + 1;

pub const HINT_RECORDS: usize = GROUPS;

pub const RUN_RECORDS: usize = 100;

pub const PREPARED_RECORDS: usize = 1000;
