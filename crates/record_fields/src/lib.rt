// The bytes of a record: tests of zero and of equality, big-endian numbers, flags, token parameters. Nothing here knows a kind of record;
// each contract is a definition of the crate rules over an offset and a length.
#![tactic(auto)]

ghost use Rattle.std.specs.Prelude.{◌≡◌, ◌+◌, ◌≤◌, ◌<◌, length, eqb};
ghost use Rattle.rules.specs.Basics.{records, all_zero, same, bit, bit_count, within, part, number, blank, flag};
ghost use Rattle.rules.specs.Sizes.{record_bytes};
ghost use Rattle.rules.specs.Layout.{token_parameters_at};
ghost use Rattle.record_fields.specs.Words.{LittleEndian};

use record_sizes::Record;

// The records of a file, one after the other; the bytes past the last whole record are none.
pub fn records(file: &[u8]) -> &[Record]
    ensures { result.now ≡ records file.now }
{
    file.as_chunks().0
}

// The record at a byte of a file.
pub fn record_at(file: &[u8], at: usize) -> &Record
    requires { at + record_bytes ≤ length file.now }
    ensures { result.now ≡ part at record_bytes file.now }
{
    file[at..].first_chunk().unwrap()
}

// Whether two runs of bytes of one length are the same, byte by byte: for runs of fewer than eight. No test here stops at the first difference, for
// joining the answers costs less than a jump after each.
fn same_few(a: &[u8], b: &[u8]) -> bool
    requires { length a.now ≡ length b.now }
    ensures { result ≡ same a.now b.now }
{
    let mut so_far = true;
    for i in 0..a.len() {
        so_far = so_far & (a[i] == b[i]);
    }
    so_far
}

// The same of eight bytes or more, eight at a time; the last eight may overlap those before them.
fn same_words(a: &[u8], b: &[u8]) -> bool
    requires { (length a.now ≡ length b.now) × (8 ≤ length a.now) }
    ensures { result ≡ same a.now b.now }
{
    let mut so_far = same_word(a, b, a.len() - 8);
    for k in 0..a.len() / 8 {
        so_far = so_far & same_word(a, b, 8 * k);
    }
    so_far
}

// Whether two runs of bytes are the same, their lengths too.
pub fn same_bytes(a: &[u8], b: &[u8]) -> bool
    ensures { result ≡ same a.now b.now }
{
    if a.len() != b.len() {
        return false;
    }
    if a.len() < 8 {
        return same_few(a, b);
    }
    same_words(a, b)
}

// Whether every byte is zero, byte by byte: for runs of fewer than eight.
fn zero_few(s: &[u8]) -> bool
    ensures { result ≡ all_zero s.now }
{
    let mut so_far = true;
    for byte in s {
        so_far = so_far & (*byte == 0);
    }
    so_far
}

// The same of eight bytes or more, eight at a time; the last eight may overlap those before them.
fn zero_words(s: &[u8]) -> bool
    requires { 8 ≤ length s.now }
    ensures { result ≡ all_zero s.now }
{
    let mut so_far = zero_word(s, s.len() - 8);
    for k in 0..s.len() / 8 {
        so_far = so_far & zero_word(s, 8 * k);
    }
    so_far
}

// Whether every byte is zero.
pub fn all_zero(s: &[u8]) -> bool
    ensures { result ≡ all_zero s.now }
{
    if s.len() < 8 {
        return zero_few(s);
    }
    zero_words(s)
}

// Whether the len bytes from off on are zero.
pub fn zero_part(s: &[u8], off: usize, len: usize) -> bool
    requires { off + len ≤ length s.now }
    ensures { result ≡ blank off len s.now }
{
    all_zero(&s[off..off + len])
}

// The little-endian number of eight bytes: the order of the processor, so that it is one load.
fn little64(s: &[u8], at: usize) -> u64
    requires { at + 8 ≤ length s.now }
    ensures { LittleEndian (part at 8 s.now) result }
{
    u64::from_le_bytes(*s[at..].first_chunk().unwrap())
}

// Whether eight bytes are zero, and whether those of two runs are the same: one comparison each.
fn zero_word(s: &[u8], at: usize) -> bool
    requires { at + 8 ≤ length s.now }
    ensures { result ≡ blank at 8 s.now }
{
    little64(s, at) == 0
}

fn same_word(a: &[u8], b: &[u8], at: usize) -> bool
    requires { (at + 8 ≤ length a.now) × (at + 8 ≤ length b.now) }
    ensures { result ≡ same (part at 8 a.now) (part at 8 b.now) }
{
    little64(a, at) == little64(b, at)
}

// The big-endian number of 2, 4 and 8 bytes from an offset on. That of two is joined by hand: with `from_be_bytes` the reader of an ACL took 63 instructions
// for a record, and so it takes 54.
pub fn be16(s: &[u8], at: usize) -> u16
    requires { at + 2 ≤ length s.now }
    ensures { result ≡ number at 2 s.now }
{
    u16::from(s[at]) * 256 + u16::from(s[at + 1])
}

pub fn be32(s: &[u8], at: usize) -> u32
    requires { at + 4 ≤ length s.now }
    ensures { result ≡ number at 4 s.now }
{
    u32::from_be_bytes([s[at], s[at + 1], s[at + 2], s[at + 3]])
}

pub fn be64(s: &[u8], at: usize) -> u64
    requires { at + 8 ≤ length s.now }
    ensures { result ≡ number at 8 s.now }
{
    u64::from_be_bytes(*s[at..].first_chunk().unwrap())
}

// Bit b of a number.
pub fn bit_of(b: u16, n: u16) -> bool
    requires { b < 16 }
    ensures { result ≡ bit b n }
{
    (n >> b) % 2 == 1
}

// Flag f of a record's flags, which are bytes 2 and 3.
pub fn flag_of(f: u16, s: &[u8]) -> bool
    requires { (f < 16) × (4 ≤ length s.now) }
    ensures { result ≡ flag f s.now }
{
    bit_of(f, be16(s, 2))
}

// Whether every bit of a is set in b. Two functions, one for each width: a generic one would need bounds for `&` and `==` and the width of its type, and is
// longer than both.
pub fn subset16(a: u16, b: u16) -> bool
    ensures { result ≡ within 16 a b }
{
    a & b == a
}

// The same for numbers of 32 bits.
pub fn subset32(few: u32, many: u32) -> bool
    ensures { result ≡ within 32 few many }
{
    few & many == few
}

// Whether exactly one bit of a number is set.
pub fn one_bit(n: u32) -> bool
    ensures { result ≡ eqb (bit_count 32 n) 1 }
{
    u32::count_ones(n) == 1
}

// Whether the eight bytes from off on are well-formed token parameters.
pub fn token_parameters(s: &[u8], off: usize) -> bool
    requires { off + 8 ≤ length s.now }
    ensures { result ≡ token_parameters_at off s.now }
{
    let needed = s[off + 2];
    let total = s[off + 3];
    subset16(be16(s, off), 1) & ((1 <= needed) & (needed <= total)) & (total <= 64)
}
