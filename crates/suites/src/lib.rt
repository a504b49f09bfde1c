// The ciphersuites: one match on a suite's number.
#![tactic(auto)]

ghost use Rattle.std.specs.Prelude.{◌≡◌};
ghost use Rattle.suites.specs.Calls.{lookup_as, called_for};

use refusals::Refusal;

// Which header texts the subjects of certificates 3 and 4 have.
#[derive(Clone, Copy, Debug, PartialEq, Eq)]
pub enum Header {
    Plain,
    TypeRijndael,
    Dlf3072Rijndael,
    Dlf3072Aes,
    Ecp521Aes,
}

// What a suite calls for: its recovery mechanism, the choice of the header texts, and the total lengths of the subjects of certificates 3 and 4.
#[derive(Clone, Copy, Debug, PartialEq, Eq)]
pub struct Suite {
    pub mechanism: u16,
    pub header: Header,
    pub keys: usize,
    pub setup: usize,
}

// The suite of a number, or the refusal of a number that is no suite's.
pub fn suite_of(n: u64) -> Result<Suite, Refusal>
    ensures { lookup_as result ≡ called_for n }
{
    match n {
        1 => Ok(Suite {
            mechanism: 1,
            header: Header::Plain,
            keys: 72,
            setup: 100,
        }),
        2 => Ok(Suite {
            mechanism: 2,
            header: Header::TypeRijndael,
            keys: 90,
            setup: 118,
        }),
        3 => Ok(Suite {
            mechanism: 2,
            header: Header::Dlf3072Rijndael,
            keys: 102,
            setup: 130,
        }),
        4 => Ok(Suite {
            mechanism: 3,
            header: Header::Dlf3072Aes,
            keys: 109,
            setup: 137,
        }),
        5 => Ok(Suite {
            mechanism: 4,
            header: Header::Ecp521Aes,
            keys: 92,
            setup: 120,
        }),
        _ => Err(Refusal::UnknownSuite),
    }
}
