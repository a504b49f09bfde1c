// The subjects of world certificates, the bytes that the certificates sign: a header text by certificate and suite, then key hashes.
#![tactic(auto)]

ghost use Rattle.std.specs.Prelude.{Ok, ◌≡◌, true, ◌≤◌, ◌+◌, ◌%◌, length};
ghost use Rattle.rules.specs.Sizes.{hash_bytes};
ghost use Rattle.rules.specs.Basics.{ascii};
ghost use Rattle.rules.specs.Layout.{between};
ghost use Rattle.rules.specs.Subject.{hashes_bytes, subject_reply, subject_buffer};
ghost use Rattle.suites.specs.Calls.{keys_text, setup_text, lookup_as, Measured};
ghost use Rattle.subject.specs.Writing.{subject_reply_as, overwritten, header_of, headed_reply, headed_buffer};

use refusals::Refusal;
use suites::{Header, Suite};

// Sixteen bytes over sixteen, and eight over eight. All are read before the first is written, so that they are one load and one store; a copy of a length that
// is known only when it runs would call the C library's `memmove`.
fn copy_sixteen(bytes: &[u8], buffer: &mut [u8])
    requires { (length bytes.now ≡ 16) × (length buffer.old ≡ 16) }
    ensures { buffer.new ≡ overwritten bytes.now buffer.old }
{
    let read: [u8; 16] = *bytes.first_chunk().unwrap();
    buffer.copy_from_slice(&read);
}

fn copy_eight(bytes: &[u8], buffer: &mut [u8])
    requires { (length bytes.now ≡ 8) × (length buffer.old ≡ 8) }
    ensures { buffer.new ≡ overwritten bytes.now buffer.old }
{
    let read: [u8; 8] = *bytes.first_chunk().unwrap();
    buffer.copy_from_slice(&read);
}

// Sixteen bytes or more over the front of the buffer, sixteen at a time; the last sixteen may overlap those before them.
fn copy_long(bytes: &[u8], buffer: &mut [u8])
    requires { (16 ≤ length bytes.now) × (length bytes.now ≤ length buffer.old) }
    ensures { buffer.new ≡ overwritten bytes.now buffer.old }
{
    let end = bytes.len();
    let mut i = 0;
    // stays: the last piece may overlap the one before it, which no iterator over pieces gives
    while 16 < end - i {
        copy_sixteen(&bytes[i..i + 16], &mut buffer[i..i + 16]);
        i += 16;
    }
    let last = end - 16;
    copy_sixteen(&bytes[last..end], &mut buffer[last..end]);
}

// Fewer than sixteen: two pieces of eight, which may overlap, or byte by byte.
fn copy_short(bytes: &[u8], buffer: &mut [u8])
    requires { (length bytes.now ≤ 16) × (length bytes.now ≤ length buffer.old) }
    ensures { buffer.new ≡ overwritten bytes.now buffer.old }
{
    let end = bytes.len();
    if 8 <= end {
        copy_eight(&bytes[0..8], &mut buffer[0..8]);
        let last = end - 8;
        copy_eight(&bytes[last..end], &mut buffer[last..end]);
        return;
    }
    for i in 0..end {
        buffer[i] = bytes[i];
    }
}

// Bytes over the front of the buffer. What is past them is unchanged.
pub fn copy(bytes: &[u8], buffer: &mut [u8])
    requires { length bytes.now ≤ length buffer.old }
    ensures { buffer.new ≡ overwritten bytes.now buffer.old }
{
    if 16 <= bytes.len() {
        copy_long(bytes, buffer);
    } else {
        copy_short(bytes, buffer);
    }
}

// Hashes over the front of the buffer, one after the other. Each goes straight into its place: the next twenty bytes of the buffer are lent to `copy`, so
// that their number is known where the code is compiled.
fn write_hashes(hashes: &[u8], buffer: &mut [u8])
    requires { (length hashes.now % hash_bytes ≡ 0) × (length hashes.now ≤ length buffer.old) }
    ensures { buffer.new ≡ overwritten hashes.now buffer.old }
{
    let mut at = 0;
    // stays: each turn lends the part of the buffer that is its hash's
    while at < hashes.len() {
        copy(
            &hashes[at..at + record_sizes::HASH],
            &mut buffer[at..at + record_sizes::HASH],
        );
        at += record_sizes::HASH;
    }
}

// The header text of certificate 3.
fn keys_text(header: Header) -> &'static [u8]
    ensures { result.now ≡ ascii (keys_text header) }
{
    match header {
        Header::Plain => b"Module keys\0",
        Header::TypeRijndael => b"Module keys: KM type Rijndael\0",
        Header::Dlf3072Rijndael => b"Module keys: suite = DLf3072s256mRijndael\0",
        Header::Dlf3072Aes => b"Module keys: suite = DLf3072s256mAEScSP800131Ar1\0",
        Header::Ecp521Aes => b"Module keys: suite = ECp521mAES\0",
    }
}

// The header text of certificate 4.
fn setup_text(header: Header) -> &'static [u8]
    ensures { result.now ≡ ascii (setup_text header) }
{
    match header {
        Header::Plain => b"Module setup, FIPS3\0",
        Header::TypeRijndael => b"Module setup, FIPS3; KM type Rijndael\0",
        Header::Dlf3072Rijndael => b"Module setup, FIPS3; suite = DLf3072s256mRijndael\0",
        Header::Dlf3072Aes => b"Module setup, FIPS3; suite = DLf3072s256mAEScSP800131Ar1\0",
        Header::Ecp521Aes => b"Module setup, FIPS3; suite = ECp521mAES\0",
    }
}

// The header of certificate 3, 4 or 5. That of certificate 5 is one under every suite.
fn header_text(certificate: u64, suite: Suite) -> &'static [u8]
    requires { between 3 5 certificate ≡ true }
    ensures { result.now ≡ header_of certificate suite }
{
    match certificate {
        3 => keys_text(suite.header),
        4 => setup_text(suite.header),
        _ => b"Card Recovery\0",
    }
}

// The length of the hashes: of KNSO, KM and KMC (certificate 3), of KFIPS too (certificate 4), of KNSO, KRE and KRA (certificate 5).
fn hashes_length(certificate: u64) -> usize
    ensures { result ≡ hashes_bytes certificate }
{
    if certificate == 4 {
        return 4 * record_sizes::HASH;
    }
    3 * record_sizes::HASH
}

// The total length of the subject of certificate 3, 4 or 5 under a suite, whose lengths are those of its header texts with the hashes.
fn total_length(certificate: u64, suite: Suite) -> usize
    requires { (between 3 5 certificate ≡ true) × Measured (lookup_as (Ok suite)) }
    ensures { result ≡ length (header_of certificate suite) + hashes_bytes certificate }
{
    match certificate {
        3 => suite.keys,
        4 => suite.setup,
        _ => 74,
    }
}

// The subject of certificate 3, 4 or 5 under a suite: the header at the front of the buffer, then the hashes in the part from the header's end on. The
// length of the hashes and the total length are tested before the first byte is written, so that a refusal leaves the buffer.
fn write_under(
    certificate: u64,
    suite: Suite,
    hashes: &[u8],
    buffer: &mut [u8],
) -> Result<usize, Refusal>
    requires { (between 3 5 certificate ≡ true) × Measured (lookup_as (Ok suite)) }
    ensures reply { subject_reply_as result ≡ headed_reply (header_of certificate suite) (hashes_bytes certificate) hashes.now buffer.old }
    ensures bytes { buffer.new ≡ headed_buffer (header_of certificate suite) (hashes_bytes certificate) hashes.now buffer.old }
{
    let size = hashes_length(certificate);
    if hashes.len() != size {
        return Err(Refusal::BadLength);
    }
    let total = total_length(certificate, suite);
    if buffer.len() < total {
        return Err(Refusal::ShortBuffer);
    }
    copy(header_text(certificate, suite), buffer);
    let end = total - size;
    write_hashes(hashes, &mut buffer[end..]);
    Ok(total)
}

// The subject of a world certificate, at the front of the buffer, for hashes in document 001's order. Every byte past it is unchanged. Refusals 10,
// 11, 1 and 9 come in this order, the certificate being asked before the suite, and leave the whole buffer.
pub fn write_subject(
    certificate: u64,
    suite: u64,
    hashes: &[u8],
    buffer: &mut [u8],
) -> Result<usize, Refusal>
    ensures reply { subject_reply_as result ≡ subject_reply certificate suite hashes.now buffer.old }
    ensures bytes { buffer.new ≡ subject_buffer certificate suite hashes.now buffer.old }
{
    if !((3 <= certificate) & (certificate <= 5)) {
        return Err(Refusal::OutOfRange);
    }
    let found = suites::suite_of(suite)?;
    write_under(certificate, found, hashes, buffer)
}
