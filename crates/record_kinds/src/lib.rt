// The kinds of record and their flags, each named once, by the names of docs/RECORDS.md. A kind is byte 0 of a record, a flag a bit of bytes 2 and 3.
// They are numbers and no enum: any byte may be there, each reader takes a few kinds and refuses or passes over all others, and the definitions compare the
// number; a match on these constants says that with one arm for the rest, where an enum would add a conversion that fails, and an arm for it.
#![tactic(auto)]

// The records of an ACL: a group, its limits, its actions.
pub const GROUP: u8 = 1;

pub const LIMIT: u8 = 2;

pub const OP_PERMISSIONS: u8 = 3;

pub const MAKE_BLOB: u8 = 4;

pub const MAKE_ARCHIVE_BLOB: u8 = 5;

// The records that ask: for a use of the key, for a working blob, for a recovery blob.
pub const USE: u8 = 6;

pub const BLOB: u8 = 7;

pub const RECOVERY_BLOB: u8 = 8;

// What is presented with a request, and the hints of a narrowing.
pub const CERTIFICATE: u8 = 9;

pub const HINT: u8 = 13;

pub const DELEGATION: u8 = 14;

// The records of a bundle.
pub const FACT: u8 = 10;

pub const SIGNATURE: u8 = 11;

pub const POLICY: u8 = 12;

// The blobfile of an action or of a request.
pub const BLOBFILE: u8 = 15;

// Flags of a group.
pub const CERTIFIER: u16 = 0;

pub const MECHANISM: u16 = 1;

// Flags of a MakeBlob action.
pub const ALLOW_KM_ONLY: u16 = 0;

pub const ALLOW_NON_KM0: u16 = 1;

pub const KMHASH: u16 = 2;

pub const KTHASH: u16 = 3;

pub const KTPARAMS: u16 = 4;

pub const ALLOW_NULL_KM_TOKEN: u16 = 5;

// A flag of a MakeArchiveBlob action.
pub const KAHASH: u16 = 0;

// A flag of an action, and of a request for a blob: its blobfile record follows.
pub const HAS_BLOBFILE: u16 = 6;

// A flag of a request for a working blob: a token is used.
pub const TOKEN: u16 = 0;

// Flags of a blobfile.
pub const DEVICES: u16 = 0;

pub const TEMPLATE: u16 = 1;
