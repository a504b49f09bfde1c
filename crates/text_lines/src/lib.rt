// The line of a record of a request, a bundle or hints, at the front of a lent buffer.
#![tactic(auto)]

ghost use Rattle.std.specs.Prelude.{◌≡◌, [], ◌∷◌, ◌++◌, ◌+◌, ◌*◌, ◌≤◌, length};
ghost use Rattle.rules.specs.Basics.{ascii};
ghost use Rattle.text_rules.specs.Words.{words_text};
ghost use Rattle.text_rules.specs.OtherWords.{time_word, use_words, blob_request_words, recovery_words, certificate_words, fact_words, signature_words, policy_words, numbers_text, hint_words, delegation_words, record_line};
ghost use Rattle.text_bytes.specs.Putting.{Held};
ghost use Rattle.text_bytes.specs.Names.{words_of};
ghost use Rattle.text_lines.specs.Parts.{name_of, shares_text, token_text, bits_text, protection_text};

use record_sizes::Record;

// No record's line is longer, whether the record is well formed or not.
pub const ROOM: usize = 320;

// The names of the permissions in a row.
const PERMISSIONS: &[u8] =
    b" DuplicateHandle GetAppData ReduceACL GetACL Sign Verify SignModuleCert UseAsCertificate Encrypt Decrypt ExportAsPlain SetAppData ExpandACL UseAsBlobKey UseAsKM UseAsLoaderKey";

// A request's last word, its time, and the newline.
fn end_time(rec: &Record, at: usize, line: &mut [u8]) -> usize
    requires { at + 27 ≤ length line.old }
    ensures { Held 27 (words_text (time_word rec.now ∷ [])) at line.old line.new result }
{
    let time = record_fields::be64(rec, 56);
    let told = text_bytes::append(b" time ", at, line);
    let end = text_bytes::append_decimal(time, told, line);
    text_bytes::append(b"\n", end, line)
}

// The line of a certificate: its key's hash and its mechanism.
fn certificate_line(rec: &Record, line: &mut [u8]) -> usize
    requires { 320 ≤ length line.old }
    ensures { Held 320 (ascii "certificate" ++ words_text (certificate_words rec.now)) 0 line.old line.new result }
{
    let mechanism = record_fields::be16(rec, 24) as u32;
    let keyed = text_bytes::word_and_hash(b"certificate ", &rec[4..24], 0, line);
    let told = text_bytes::word_and_number(b" mechanism ", mechanism, keyed, line);
    text_bytes::append(b"\n", told, line)
}

// The line of a recovery blob's request.
fn recovery_line(rec: &Record, line: &mut [u8]) -> usize
    requires { 320 ≤ length line.old }
    ensures { Held 320 (ascii "recovery" ++ words_text (recovery_words rec.now)) 0 line.old line.new result }
{
    let mechanism = record_fields::be16(rec, 24) as u32;
    let keyed = text_bytes::word_and_hash(b"recovery kahash ", &rec[4..24], 0, line);
    let told = text_bytes::word_and_number(b" mechanism ", mechanism, keyed, line);
    let filed = text_bytes::word_if(record_fields::flag_of(6, rec), b" blobfile", told, line);
    end_time(rec, filed, line)
}

// A token's shares and its time limit, where a token is used.
fn blob_shares(rec: &Record, at: usize, line: &mut [u8]) -> usize
    requires { at + 54 ≤ length line.old }
    ensures { Held 54 (shares_text rec.now) at line.old line.new result }
{
    let given = record_fields::flag_of(0, rec);
    let shares = rec[46] as u32;
    let of = rec[47] as u32;
    let seconds = record_fields::be32(rec, 48);
    let needed = text_bytes::number_if(given, b" needed ", shares, at, line);
    let total = text_bytes::number_if(given, b" total ", of, needed, line);
    text_bytes::number_if(given, b" seconds ", seconds, total, line)
}

// A blob request's token and its parameters, where a token is used.
fn blob_token(rec: &Record, at: usize, line: &mut [u8]) -> usize
    requires { at + 116 ≤ length line.old }
    ensures { Held 116 (token_text rec.now) at line.old line.new result }
{
    let flags = record_fields::be16(rec, 44);
    let token = text_bytes::hash_if(
        record_fields::flag_of(0, rec),
        b" token ",
        &rec[24..44],
        at,
        line,
    );
    let soft = text_bytes::word_if(
        record_fields::bit_of(0, flags),
        b" AllowSoftSlots",
        token,
        line,
    );
    blob_shares(rec, soft, line)
}

// The line of a blob's request.
fn blob_line(rec: &Record, line: &mut [u8]) -> usize
    requires { 320 ≤ length line.old }
    ensures { Held 320 (ascii "blob" ++ words_text (blob_request_words rec.now)) 0 line.old line.new result }
{
    let keyed = text_bytes::word_and_hash(b"blob kmhash ", &rec[4..24], 0, line);
    let token = blob_token(rec, keyed, line);
    let filed = text_bytes::word_if(record_fields::flag_of(6, rec), b" blobfile", token, line);
    end_time(rec, filed, line)
}

// The line of a delegation: from whom, to whom, and the names of the permissions.
fn delegation_line(rec: &Record, line: &mut [u8]) -> usize
    requires { 320 ≤ length line.old }
    ensures { Held 320 (ascii "delegation" ++ words_text (delegation_words rec.now)) 0 line.old line.new result }
{
    let mask = record_fields::be16(rec, 44);
    let from = text_bytes::word_and_hash(b"delegation from ", &rec[4..24], 0, line);
    let to = text_bytes::word_and_hash(b" to ", &rec[24..44], from, line);
    let named = text_bytes::append_names(PERMISSIONS, mask, to, line);
    text_bytes::append(b"\n", named, line)
}

// What a policy admits, and whether a CSR is in use.
fn policy_bits(rec: &Record, at: usize, line: &mut [u8]) -> usize
    requires { at + 23 ≤ length line.old }
    ensures { Held 23 (bits_text rec.now) at line.old line.new result }
{
    let bits = rec[6] as u16;
    let signing = text_bytes::word_if(record_fields::bit_of(0, bits), b" signing", at, line);
    let encryption = text_bytes::word_if(
        record_fields::bit_of(1, bits),
        b" encryption",
        signing,
        line,
    );
    text_bytes::word_if(record_fields::bit_of(2, bits), b" csr", encryption, line)
}

// Appends a policy's lowest protection, and the newline.
fn end_policy(rec: &Record, at: usize, line: &mut [u8]) -> usize
    requires { at + 23 ≤ length line.old }
    ensures { Held 23 (protection_text rec.now) at line.old line.new result }
{
    let lowest = rec[7] as u32;
    let protection = text_bytes::word_and_number(b" protection ", lowest, at, line);
    text_bytes::append(b"\n", protection, line)
}

// The line of a policy.
fn policy_line(rec: &Record, line: &mut [u8]) -> usize
    requires { 320 ≤ length line.old }
    ensures { Held 320 (ascii "policy" ++ words_text (policy_words rec.now)) 0 line.old line.new result }
{
    let number = rec[4] as u32;
    let way = rec[5] as u32;
    let suite = text_bytes::word_and_number(b"policy suite ", number, 0, line);
    let approach = text_bytes::word_and_number(b" approach ", way, suite, line);
    let told = policy_bits(rec, approach, line);
    end_policy(rec, told, line)
}

// Bytes as numbers, each after a space.
fn numbers(bytes: &[u8], at: usize, line: &mut [u8]) -> usize
    requires { at + 11 * length bytes.now ≤ length line.old }
    ensures { Held (11 * length bytes.now) (numbers_text bytes.now) at line.old line.new result }
{
    let mut end = at;
    for b in bytes {
        end = text_bytes::word_and_number(b" ", *b as u32, end, line);
    }
    end
}

// The line of a hint: the source group, and eight source actions.
fn hint_line(rec: &Record, line: &mut [u8]) -> usize
    requires { 320 ≤ length line.old }
    ensures { Held 320 (ascii "hint" ++ words_text (hint_words rec.now)) 0 line.old line.new result }
{
    let source = rec[4] as u32;
    let group = text_bytes::word_and_number(b"hint group ", source, 0, line);
    let begun = text_bytes::append(b" actions", group, line);
    let actions = numbers(&rec[8..16], begun, line);
    text_bytes::append(b"\n", actions, line)
}

// The name at a place of a row, with its space; past the row's end, the space alone.
fn put_name(names: &[u8], count: usize, i: usize, at: usize, line: &mut [u8]) -> usize
    requires { (count ≡ length (words_of names.now)) × (at + (length names.now + 1) ≤ length line.old) }
    ensures { Held (length names.now + 1) (name_of names.now i) at line.old line.new result }
{
    if i < count {
        return text_bytes::append_name(names, i, at, line);
    }
    text_bytes::append(b" ", at, line)
}

// The line of a use: its permission by name, and its time.
fn use_line(rec: &Record, line: &mut [u8]) -> usize
    requires { 320 ≤ length line.old }
    ensures { Held 320 (ascii "use" ++ words_text (use_words rec.now)) 0 line.old line.new result }
{
    let which = rec[4] as usize;
    let begun = text_bytes::append(b"use", 0, line);
    let named = put_name(PERMISSIONS, 16, which, begun, line);
    end_time(rec, named, line)
}

// The line of a fact: its field by name, and its content.
fn fact_line(rec: &Record, line: &mut [u8]) -> usize
    requires { 320 ≤ length line.old }
    ensures { Held 320 (ascii "fact" ++ words_text (fact_words rec.now)) 0 line.old line.new result }
{
    let field = rec[4].saturating_sub(1) as usize;
    let begun = text_bytes::append(b"fact", 0, line);
    let named = put_name(
        b" warrantESN stateESN KML HKNSO knsopub hkm hkre kcmsg pubkeydata csr hkra hkmc hkfips modulekey",
        14,
        field,
        begun,
        line,
    );
    let told = text_bytes::word_and_hash(b" ", &rec[8..28], named, line);
    text_bytes::append(b"\n", told, line)
}

// The line of a signature's outcome: its name, and whether it is good.
fn signature_line(rec: &Record, line: &mut [u8]) -> usize
    requires { 320 ≤ length line.old }
    ensures { Held 320 (ascii "signature" ++ words_text (signature_words rec.now)) 0 line.old line.new result }
{
    let outcome = rec[5];
    let which = rec[4].saturating_sub(1) as usize;
    let begun = text_bytes::append(b"signature", 0, line);
    let named = put_name(
        b" warrant modulestate CertKMaKMCbKNSO CertKMaKMCaKFIPSbKNSO CertKREaKRAbKNSO keygeneration",
        6,
        which,
        begun,
        line,
    );
    let good = text_bytes::word_if(outcome == 1, b" good", named, line);
    let told = text_bytes::word_if(outcome == 0, b" bad", good, line);
    text_bytes::append(b"\n", told, line)
}

// The line of a record, and its length.
pub fn record_line(rec: &Record, line: &mut [u8]) -> usize
    requires { 320 ≤ length line.old }
    ensures { Held 320 (record_line rec.now) 0 line.old line.new result }
{
    match rec[0] {
        record_kinds::USE => use_line(rec, line),
        record_kinds::BLOB => blob_line(rec, line),
        record_kinds::RECOVERY_BLOB => recovery_line(rec, line),
        record_kinds::CERTIFICATE => certificate_line(rec, line),
        record_kinds::FACT => fact_line(rec, line),
        record_kinds::SIGNATURE => signature_line(rec, line),
        record_kinds::POLICY => policy_line(rec, line),
        record_kinds::HINT => hint_line(rec, line),
        record_kinds::DELEGATION => delegation_line(rec, line),
        _ => text_acl_lines::line_of(rec, line),
    }
}
