// The kind of file that a program's first argument names. A program that is given one argument fewer means an ACL.
//
// Only `kind_of` is proved. `read_arguments` reads them and prints on standard error, so that it promises no more than which argument comes next.
#![tactic(auto)]

ghost use Rattle.std.specs.Prelude.{◌≡◌, ◌≤◌, IfSome};
ghost use Rattle.cli_kinds.specs.Names.{kind_named};

use text_files::Kind;

// Bytes of the longest text of any kind: a day's requests (`requests_text_max`, crates/text_rules/specs/OtherWords.antt).
pub const LONGEST: usize = 179000;

// The kind of a name, if it names one.
#[tactic(auto, unfolding(rules::specs::Basics::ascii, crate::specs::Names::kind_named))]
pub fn kind_of(name: &[u8]) -> Option<Kind>
    ensures { result ≡ kind_named name.now }
{
    if record_fields::same_bytes(name, b"acl") {
        return Some(Kind::Acl);
    }
    if record_fields::same_bytes(name, b"request") {
        return Some(Kind::Request);
    }
    if record_fields::same_bytes(name, b"requests") {
        return Some(Kind::Requests);
    }
    if record_fields::same_bytes(name, b"bundle") {
        return Some(Kind::Bundle);
    }
    if record_fields::same_bytes(name, b"hints") {
        return Some(Kind::Hints);
    }
    None
}

// The kind that the first argument names, and the number of the first argument behind it, of a program that takes `count` arguments, its own name among
// them, and `more` with a kind. If the arguments are wrong, prints the usage.
pub fn read_arguments(
    rt: &HostRuntime,
    count: usize,
    more: usize,
    usage: &[u8],
) -> Option<(Kind, usize)>
    ensures { IfSome result (λ given. given.1 ≤ 2) }
{
    if cli_arguments::count(rt) != more {
        if cli_arguments::are_given(rt, count, usage) {
            return Some((Kind::Acl, 1));
        }
        return None;
    }
    let mut name = [0u8; 8];
    match kind_of(cli_arguments::argument_or_none(rt, 1, &mut name)) {
        Some(kind) => Some((kind, 2)),
        None => {
            cli_arguments::print_usage(rt, usage);
            None
        }
    }
}
