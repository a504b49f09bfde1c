// Why the product says no: a refusal of what it is given, or a denial of judging. Every reader and every entry point answers with these.
#![tactic(auto)]

ghost use Rattle.std.specs.Prelude.{◌≡◌};
ghost use Rattle.refusals.specs.Refusals.{refusal_number, denial_number};

// A refusal of files, buffers and numbers; refusal_number gives its number in document 01's table, with those that document 02 adds. It never names a
// group.
#[derive(Clone, Copy, Debug, PartialEq, Eq)]
pub enum Refusal {
    BadLength,
    Malformed,
    TooMany,
    NotNarrower,
    ShortBuffer,
    OutOfRange,
    UnknownSuite,
    OpenArchive,
    NoSlot,
    OtherForm,
}

// Why no group grants: the time goes back; none admits; none that admits is certified, with the lowest that admits; none of those is unspent, with the
// lowest that admits and is certified. denial_number gives its number in document 01's table, denial_group the group that came nearest.
#[derive(Clone, Copy, Debug, PartialEq, Eq)]
pub enum Denial {
    ClockBack,
    NotAdmitted,
    NotCertified(usize),
    Spent(usize),
}

// The number of a refusal in document 01's table.
impl From<Refusal> for u8 {
    ghost from_gives = { λ r n. n ≡ refusal_number r };

    fn from(r: Refusal) -> u8 {
        match r {
            Refusal::BadLength => 1,
            Refusal::Malformed => 2,
            Refusal::TooMany => 3,
            Refusal::NotNarrower => 8,
            Refusal::ShortBuffer => 9,
            Refusal::OutOfRange => 10,
            Refusal::UnknownSuite => 11,
            Refusal::OpenArchive => 12,
            Refusal::NoSlot => 13,
            Refusal::OtherForm => 14,
        }
    }
}

// The number of a denial there.
impl From<Denial> for u8 {
    ghost from_gives = { λ d n. n ≡ denial_number d };

    fn from(d: Denial) -> u8 {
        match d {
            Denial::ClockBack => 4,
            Denial::NotAdmitted => 5,
            Denial::NotCertified(_) => 6,
            Denial::Spent(_) => 7,
        }
    }
}
