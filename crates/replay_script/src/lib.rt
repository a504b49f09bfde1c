// Reads the calls of a replay script (docs/REPLAY.md) from standard input: a letter, then the numbers and the runs of bytes that its call takes. In every
// call the numbers come first, two at most, then a form, if the call takes one, so that one walk reads them all. No contract can say what is read.
#![tactic(auto)]

ghost use Rattle.std.specs.Prelude.{◌≡◌, ◌||◌, ◌≤◌, length, take, eqb};

// The greatest length of a run of bytes.
pub const MOST: usize = 262144;

// The length of a form: eighteen numbers.
pub const FORM: usize = 144;

// A call: its letter, its numbers, and the lengths of its runs of bytes; zero for those that it does not take.
#[derive(Clone, Copy)]
pub struct Call {
    pub letter: u8,
    pub first: u64,
    pub second: u64,
    pub a: u64,
    pub b: u64,
    pub c: u64,
    pub d: u64,
    pub e: u64,
}

// Room for the runs of bytes of a call, and for its form.
#[derive(Drop)]
pub struct Room {
    pub a: [u8; MOST],
    pub b: [u8; MOST],
    pub c: [u8; MOST],
    pub d: [u8; MOST],
    pub e: [u8; MOST],
    pub form: [u8; FORM],
}

impl Room {
    pub fn new() -> Room {
        Room {
            a: [0; MOST],
            b: [0; MOST],
            c: [0; MOST],
            d: [0; MOST],
            e: [0; MOST],
            form: [0; FORM],
        }
    }
}

// The script cannot be read any further: it ends within a call, a length is greater than its buffer, a row is no whole number of certificates, a form does
// not fill its buffer, or no call has the letter.
#[derive(Clone, Copy, Debug, PartialEq, Eq)]
pub struct Stop;

// A length, or the buffer's where that is less.
pub fn within(s: &[u8], n: u64) -> usize
    ensures { (result ≡ length (take n s.now)) × (result ≤ length s.now) }
{
    s.len().min(n as usize)
}

// The first n bytes, or all where there are fewer.
pub fn prefix(s: &[u8], n: u64) -> &[u8]
    ensures { result.now ≡ take n s.now }
{
    &s[..within(s, n)]
}

// How many numbers a call takes.
fn numbers_of(letter: u8) -> u64 {
    match letter {
        b'L' | b'C' | b'V' | b'U' | b'c' | b'r' | b'n' | b'x' | b'b' | b'q' => 1,
        b'S' | b'l' => 2,
        _ => 0,
    }
}

// How many runs of bytes a call takes, without a form.
fn runs_of(letter: u8) -> u64 {
    match letter {
        b'P' => 1,
        b'D' | b'S' | b'W' | b'T' | b'V' | b'U' => 2,
        b'R' | b'r' => 3,
        b'X' | b'x' | b'M' => 4,
        b'N' | b'n' | b'B' | b'Q' | b'b' | b'q' => 5,
        _ => 0,
    }
}

// Whether a call is a run of many requests.
pub fn is_run(letter: u8) -> bool
    ensures { result ≡ (eqb letter 66 || eqb letter 81) }
{
    letter == b'B' || letter == b'Q'
}

// Whether a call is a run in a slot of the cabinet.
pub fn is_slot_run(letter: u8) -> bool
    ensures { result ≡ (eqb letter 98 || eqb letter 113) }
{
    letter == b'b' || letter == b'q'
}

// Whether the third run of bytes of a call can have a length: that of many requests is a row of certificates, 22 bytes each.
fn can_be_third(letter: u8, n: u64) -> bool {
    !(is_run(letter) || is_slot_run(letter)) || n % 22 == 0
}

// Fills the buffer from standard input, unless the script ends before or a read fails.
fn fill(rt: &HostRuntime, buffer: &mut [u8]) -> Result<(), Stop> {
    match cli_arguments::read_full(&mut rt.stdin(), buffer) {
        Ok(n) if n == buffer.len() => Ok(()),
        _ => Err(Stop),
    }
}

// Reads a number, if the call takes one: 8 bytes, big-endian.
fn read_number(rt: &HostRuntime, due: bool) -> Result<u64, Stop> {
    if !due {
        return Ok(0);
    }
    let mut bytes = [0u8; 8];
    fill(rt, &mut bytes)?;
    Ok(record_fields::be64(&bytes, 0))
}

// A length: 4 bytes, big-endian.
fn read_length(rt: &HostRuntime) -> Result<u32, Stop> {
    let mut bytes = [0u8; 4];
    fill(rt, &mut bytes)?;
    Ok(record_fields::be32(&bytes, 0))
}

// Reads bytes, if the call takes them: a length, then that many bytes, into the front of the buffer. Returns the length.
fn read_bytes(rt: &HostRuntime, due: bool, buffer: &mut [u8]) -> Result<u64, Stop> {
    if !due {
        return Ok(0);
    }
    let n = read_length(rt)?;
    fill(rt, buffer.get_mut(..n as usize).ok_or(Stop)?)?;
    Ok(u64::from(n))
}

// Reads a form, if the call takes one. It has the length of its buffer.
fn read_form(rt: &HostRuntime, due: bool, form: &mut [u8]) -> Result<(), Stop> {
    let n = read_bytes(rt, due, form)?;
    if due && n as usize != form.len() {
        return Err(Stop);
    }
    Ok(())
}

// The arguments of a letter's call. A row that no run can have ends the script at once: what follows it is not read.
fn read_arguments(
    rt: &HostRuntime,
    letter: u8,
    a: &mut [u8],
    b: &mut [u8],
    c: &mut [u8],
    d: &mut [u8],
    e: &mut [u8],
    form: &mut [u8],
) -> Result<Call, Stop> {
    let numbers = numbers_of(letter);
    let first = read_number(rt, 0 < numbers)?;
    let second = read_number(rt, 1 < numbers)?;
    read_form(rt, letter == b'Q' || letter == b'q', form)?;
    let runs = runs_of(letter);
    let x = read_bytes(rt, 0 < runs, a)?;
    let y = read_bytes(rt, 1 < runs, b)?;
    let z = read_bytes(rt, 2 < runs, c)?;
    if !can_be_third(letter, z) {
        return Err(Stop);
    }
    Ok(Call {
        letter,
        first,
        second,
        a: x,
        b: y,
        c: z,
        d: read_bytes(rt, 3 < runs, d)?,
        e: read_bytes(rt, 4 < runs, e)?,
    })
}

// The next call, its runs of bytes in the buffers and its form in one of its own; none where the script ends, as it may between two calls.
pub fn read_call(
    rt: &HostRuntime,
    a: &mut [u8],
    b: &mut [u8],
    c: &mut [u8],
    d: &mut [u8],
    e: &mut [u8],
    form: &mut [u8],
) -> Result<Option<Call>, Stop> {
    let mut letter = [0u8; 1];
    if fill(rt, &mut letter).is_err() {
        return Ok(None);
    }
    Ok(Some(read_arguments(rt, letter[0], a, b, c, d, e, form)?))
}
