// The test of a file's length. A reader of a file answers with Ok, or with the first fault.
#![tactic(auto)]

ghost use Rattle.std.specs.Prelude.{◌≡◌, ◌≤◌};
ghost use Rattle.rules.specs.Basics.{fits};

// Whether a file is whole records, and not more than `most` of them. No file has over 65,535.
pub fn whole(most: usize, s: &[u8]) -> bool
    requires { most ≤ 65535 }
    ensures { result ≡ fits most s.now }
{
    (s.len() % record_sizes::RECORD == 0) & (s.len() <= most * record_sizes::RECORD)
}
