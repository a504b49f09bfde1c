// The record that a line of a request, a bundle or hints tells, put into a buffer from a place on. Reading goes from word to word without a look
// back, and takes any line.
#![tactic(auto)]

ghost use Rattle.std.specs.Prelude.{◌≡◌, ◌++◌, ◌+◌, ◌*◌, ◌≤◌, length, drop};
ghost use Rattle.text_rules.specs.Decoding.{has_word, after_word, bytes_of};
ghost use Rattle.text_rules.specs.OtherDecoding.{time_after, use_from, blob_request_from, recovery_from, certificate_from, fact_from, signature_from, policy_record_from, hint_from, delegation_from, record_of};
ghost use Rattle.text_bytes.specs.Putting.{Put};
ghost use Rattle.text_lexer.specs.Taking.{one, Advanced, Field};
ghost use Rattle.text_parser.specs.Parts.{token_place, token_bytes, outcome_bytes, bits_place, bits_set, policy_end, action_bytes, bits_bytes};

use text_lexer::Cursor;

// The names of the permissions in a row.
const PERMISSIONS: &[u8] =
    b" DuplicateHandle GetAppData ReduceACL GetACL Sign Verify SignModuleCert UseAsCertificate Encrypt Decrypt ExportAsPlain SetAppData ExpandACL UseAsBlobKey UseAsKM UseAsLoaderKey";

// The record of a use's line: the permission, the time.
fn use_from(line: &[u8], from: usize, at: usize, rec: &mut [u8]) -> usize
    requires { (from ≤ 20) × (at + 64 ≤ length rec.old) }
    ensures { Put (use_from (drop from line.now)) at rec.old rec.new result }
{
    let headed = text_acl_parser::put_header(record_kinds::USE, 0, at, rec);
    let start = Cursor {
        at: from,
        end: headed,
        flags: 0,
    };
    let named = text_lexer::take_name(PERMISSIONS, 0, line, start, rec);
    let gap = text_bytes::append(&[0u8; 51], named.end, rec);
    let last = Cursor {
        at: named.at,
        end: gap,
        flags: 0,
    };
    text_lexer::take_time(line, last, rec)
}

// A blob request's token and its parameters.
fn blob_token(line: &[u8], c: Cursor, rec: &mut [u8]) -> Cursor
    requires { (c.at ≤ 100) × (c.flags ≡ 0) × (c.end + 28 ≤ length rec.old) }
    ensures { Advanced line.now (token_place (drop c.at line.now)) (1 * one (has_word "token" (drop c.at line.now))) 1 130 c result
        × Field 28 (token_bytes (drop c.at line.now)) c.end rec.old rec.new result.end }
{
    let token = text_lexer::take_hash(b" token", 1, line, c, rec);
    let own = Cursor {
        at: token.at,
        end: token.end,
        flags: 0,
    };
    let soft = text_lexer::take_word(b" AllowSoftSlots", 1, line, own);
    let bits = soft.flags as u64;
    let end = text_lexer::put_number(bits, 2, soft.end, rec);
    let next = Cursor {
        at: soft.at,
        end,
        flags: token.flags,
    };
    text_acl_parser::blob_shares(line, next, rec)
}

// The end of a request's record: the word blobfile, zeros, the time.
fn end_from(zeros: &[u8], line: &[u8], c: Cursor, rec: &mut [u8]) -> Cursor
    requires { (length zeros.now ≤ 30) × (c.at ≤ 300) × (c.flags ≤ 1) × (c.end + (length zeros.now + 8) ≤ length rec.old) }
    ensures { (result.flags ≡ c.flags + 64 * one (has_word "blobfile" (drop c.at line.now))) × (result.flags ≤ c.flags + 64)
        × Put (zeros.now ++ bytes_of 8 (time_after (after_word "blobfile" (drop c.at line.now)))) c.end rec.old rec.new result.end }
{
    let filed = text_lexer::take_word(b" blobfile", 64, line, c);
    let flags = filed.flags;
    let gap = text_bytes::append(zeros, filed.end, rec);
    let last = Cursor {
        at: filed.at,
        end: gap,
        flags: 0,
    };
    let done = text_lexer::take_time(line, last, rec);
    Cursor {
        at: 0,
        end: done,
        flags,
    }
}

// The record of a blob request's line: the key's hash, the token and its parameters, the time.
fn blob_from(line: &[u8], from: usize, at: usize, rec: &mut [u8]) -> usize
    requires { (from ≤ 20) × (at + 64 ≤ length rec.old) }
    ensures { Put (blob_request_from (drop from line.now)) at rec.old rec.new result }
{
    let start = Cursor {
        at: from,
        end: at + 4,
        flags: 0,
    };
    let key = text_lexer::take_hash(b" kmhash", 0, line, start, rec);
    let token = blob_token(line, key, rec);
    let last = end_from(&[0u8; 4], line, token, rec);
    text_acl_parser::put_header(record_kinds::BLOB, last.flags, at, rec);
    last.end
}

// The record of a recovery blob request's line: the key's hash, the mechanism, the time.
fn recovery_from(line: &[u8], from: usize, at: usize, rec: &mut [u8]) -> usize
    requires { (from ≤ 20) × (at + 64 ≤ length rec.old) }
    ensures { Put (recovery_from (drop from line.now)) at rec.old rec.new result }
{
    let start = Cursor {
        at: from,
        end: at + 4,
        flags: 0,
    };
    let key = text_lexer::take_hash(b" kahash", 0, line, start, rec);
    let named = text_lexer::take_number(b" mechanism", 0, 2, line, key, rec);
    let last = end_from(&[0u8; 30], line, named, rec);
    text_acl_parser::put_header(record_kinds::RECOVERY_BLOB, last.flags, at, rec);
    last.end
}

// The record of a certificate's line: the key's hash and the mechanism.
fn certificate_from(line: &[u8], from: usize, at: usize, rec: &mut [u8]) -> usize
    requires { (from ≤ 20) × (at + 64 ≤ length rec.old) }
    ensures { Put (certificate_from (drop from line.now)) at rec.old rec.new result }
{
    let headed = text_acl_parser::put_header(record_kinds::CERTIFICATE, 0, at, rec);
    let start = Cursor {
        at: from,
        end: headed,
        flags: 0,
    };
    let key = text_lexer::hash_here(line, start, rec);
    let named = text_lexer::take_number(b" mechanism", 0, 2, line, key, rec);
    text_bytes::append(&[0u8; 38], named.end, rec)
}

// The record of a fact's line: the field, its content.
fn fact_from(line: &[u8], from: usize, at: usize, rec: &mut [u8]) -> usize
    requires { (from ≤ 20) × (at + 64 ≤ length rec.old) }
    ensures { Put (fact_from (drop from line.now)) at rec.old rec.new result }
{
    let headed = text_acl_parser::put_header(record_kinds::FACT, 0, at, rec);
    let start = Cursor {
        at: from,
        end: headed,
        flags: 0,
    };
    let named = text_lexer::take_name(
        b" warrantESN stateESN KML HKNSO knsopub hkm hkre kcmsg pubkeydata csr hkra hkmc hkfips modulekey",
        1,
        line,
        start,
        rec,
    );
    let gap = text_bytes::append(&[0u8; 3], named.end, rec);
    let next = Cursor {
        at: named.at,
        end: gap,
        flags: 0,
    };
    let content = text_lexer::hash_here(line, next, rec);
    text_bytes::append(&[0u8; 36], content.end, rec)
}

// A signature's outcome, and zeros to the end of the record.
fn outcome_from(line: &[u8], c: Cursor, rec: &mut [u8]) -> usize
    requires { (c.at ≤ 300) × (c.end + 59 ≤ length rec.old) }
    ensures { Put (outcome_bytes (drop c.at line.now)) c.end rec.old rec.new result }
{
    let own = Cursor {
        at: c.at,
        end: c.end,
        flags: 0,
    };
    let good = text_lexer::take_word(b" good", 1, line, own);
    let flags = good.flags as u64;
    let last = text_lexer::put_number(flags, 1, good.end, rec);
    text_bytes::append(&[0u8; 58], last, rec)
}

// The record of a signature's line: its number, one if it is good.
fn signature_from(line: &[u8], from: usize, at: usize, rec: &mut [u8]) -> usize
    requires { (from ≤ 20) × (at + 64 ≤ length rec.old) }
    ensures { Put (signature_from (drop from line.now)) at rec.old rec.new result }
{
    let headed = text_acl_parser::put_header(record_kinds::SIGNATURE, 0, at, rec);
    let start = Cursor {
        at: from,
        end: headed,
        flags: 0,
    };
    let named = text_lexer::take_name(
        b" warrant modulestate CertKMaKMCbKNSO CertKMaKMCaKFIPSbKNSO CertKREaKRAbKNSO keygeneration",
        1,
        line,
        start,
        rec,
    );
    outcome_from(line, named, rec)
}

// A policy's three bits, as one byte.
fn policy_bits(line: &[u8], c: Cursor, rec: &mut [u8]) -> Cursor
    requires { (c.at ≤ 100) × (c.flags ≡ 0) × (c.end + 1 ≤ length rec.old) }
    ensures { Advanced line.now (bits_place (drop c.at line.now)) 0 0 30 c result × Field 1 (bytes_of 1 (bits_set (drop c.at line.now))) c.end rec.old rec.new result.end }
{
    let signing = text_lexer::take_word(b" signing", 1, line, c);
    let encryption = text_lexer::take_word(b" encryption", 2, line, signing);
    let csr = text_lexer::take_word(b" csr", 4, line, encryption);
    let bits = csr.flags as u64;
    let end = text_lexer::put_number(bits, 1, csr.end, rec);
    Cursor {
        at: csr.at,
        end,
        flags: 0,
    }
}

// A policy's bits and lowest protection, and zeros to the end of the record.
fn policy_end(line: &[u8], c: Cursor, rec: &mut [u8]) -> usize
    requires { (c.at ≤ 100) × (c.flags ≡ 0) × (c.end + 58 ≤ length rec.old) }
    ensures { Put (policy_end (drop c.at line.now)) c.end rec.old rec.new result }
{
    let bits = policy_bits(line, c, rec);
    let protection = text_lexer::take_number(b" protection", 0, 1, line, bits, rec);
    text_bytes::append(&[0u8; 56], protection.end, rec)
}

// The record of a policy's line: suite, approach, three bits, the lowest protection.
fn policy_from(line: &[u8], from: usize, at: usize, rec: &mut [u8]) -> usize
    requires { (from ≤ 20) × (at + 64 ≤ length rec.old) }
    ensures { Put (policy_record_from (drop from line.now)) at rec.old rec.new result }
{
    let headed = text_acl_parser::put_header(record_kinds::POLICY, 0, at, rec);
    let start = Cursor {
        at: from,
        end: headed,
        flags: 0,
    };
    let suite = text_lexer::take_number(b" suite", 0, 1, line, start, rec);
    let approach = text_lexer::take_number(b" approach", 0, 1, line, suite, rec);
    policy_end(line, approach, rec)
}

// Eight source actions between zeros, to the end of the record.
fn actions_from(line: &[u8], c: Cursor, rec: &mut [u8]) -> usize
    requires { (c.at ≤ 100) × (c.flags ≡ 0) × (c.end + 59 ≤ length rec.old) }
    ensures { Put (action_bytes (drop c.at line.now)) c.end rec.old rec.new result }
{
    let gap = text_bytes::append(&[0u8; 3], c.end, rec);
    let next = Cursor {
        at: c.at,
        end: gap,
        flags: 0,
    };
    let actions = text_lexer::take_word(b" actions", 0, line, next);
    let last = text_lexer::bytes_here(8, line, actions, rec);
    text_bytes::append(&[0u8; 48], last, rec)
}

// The record of a hint's line: the source group, eight source actions.
fn hint_from(line: &[u8], from: usize, at: usize, rec: &mut [u8]) -> usize
    requires { (from ≤ 20) × (at + 64 ≤ length rec.old) }
    ensures { Put (hint_from (drop from line.now)) at rec.old rec.new result }
{
    let headed = text_acl_parser::put_header(record_kinds::HINT, 0, at, rec);
    let start = Cursor {
        at: from,
        end: headed,
        flags: 0,
    };
    let group = text_lexer::take_number(b" group", 0, 1, line, start, rec);
    actions_from(line, group, rec)
}

// A delegation's sixteen bits, and zeros to the end of the record.
fn bits_from(line: &[u8], c: Cursor, rec: &mut [u8]) -> usize
    requires { (c.at ≤ 200) × (c.end + 20 ≤ length rec.old) }
    ensures { Put (bits_bytes (drop c.at line.now)) c.end rec.old rec.new result }
{
    let from = c.at;
    let bits = text_acl_parser::names_from(PERMISSIONS, line, from);
    let last = text_lexer::put_number(bits as u64, 2, c.end, rec);
    text_bytes::append(&[0u8; 18], last, rec)
}

// The record of a delegation's line: from-hash, to-hash, the sixteen bits.
fn delegation_from(line: &[u8], from: usize, at: usize, rec: &mut [u8]) -> usize
    requires { (from ≤ 20) × (at + 64 ≤ length rec.old) }
    ensures { Put (delegation_from (drop from line.now)) at rec.old rec.new result }
{
    let headed = text_acl_parser::put_header(record_kinds::DELEGATION, 0, at, rec);
    let start = Cursor {
        at: from,
        end: headed,
        flags: 0,
    };
    let source = text_lexer::take_hash(b" from", 0, line, start, rec);
    let target = text_lexer::take_hash(b" to", 0, line, source, rec);
    bits_from(line, target, rec)
}

// The record that a line tells, 64 bytes from a place on; answers where it ends. All else stays. A line with another first word is taken for one of
// an ACL's.
pub fn decode_record(line: &[u8], at: usize, rec: &mut [u8]) -> usize
    requires { at + 64 ≤ length rec.old }
    ensures { Put (record_of line.now) at rec.old rec.new result }
{
    if text_lexer::word_stands(b"use", line) {
        return use_from(line, 3, at, rec);
    }
    if text_lexer::word_stands(b"blob", line) {
        return blob_from(line, 4, at, rec);
    }
    if text_lexer::word_stands(b"recovery", line) {
        return recovery_from(line, 8, at, rec);
    }
    if text_lexer::word_stands(b"certificate", line) {
        return certificate_from(line, 11, at, rec);
    }
    if text_lexer::word_stands(b"fact", line) {
        return fact_from(line, 4, at, rec);
    }
    if text_lexer::word_stands(b"signature", line) {
        return signature_from(line, 9, at, rec);
    }
    if text_lexer::word_stands(b"policy", line) {
        return policy_from(line, 6, at, rec);
    }
    if text_lexer::word_stands(b"hint", line) {
        return hint_from(line, 4, at, rec);
    }
    if text_lexer::word_stands(b"delegation", line) {
        return delegation_from(line, 10, at, rec);
    }
    text_acl_parser::decode(line, at, rec)
}
