// list [KIND] FILE: prints the text of a file (docs/TEXT.md). A file that is not valid gives `FILE: refuse N: WORDS` on standard error, and prints
// nothing.
#![tactic(auto)]

use cli_printing::Output;
use text_acl::TextError;
use text_files::Kind;

// The text of the file that argument i names. No text is longer than the buffer, and no line is bad where none is read.
fn print_text(rt: &HostRuntime, kind: Kind, i: usize, file: &[u8]) {
    let mut text = [0u8; cli_kinds::LONGEST];
    match text_files::write(kind, file, &mut text) {
        Ok(n) => Output::new(rt).print_bytes(cli_arguments::prefix(&text, n)),
        Err(TextError::Refused(why)) => cli_messages::refuse(rt, i, u8::from(why)),
        Err(TextError::BadLine(_)) => cli_messages::refuse(rt, i, 15),
    }
}

// Prints the text of the file that argument i names. No file fills the buffer, so that a longer one is cut and still too long. The large buffer is the
// first statement of a function, here and in `unlist`, `attest` and `trim`: after a return the compiler would clear it twice.
fn list(rt: &HostRuntime, kind: Kind, i: usize) {
    let mut file = [0u8; (record_sizes::ACL_RECORDS + 1) * record_sizes::RECORD];
    if let Some(file) = cli_arguments::read(rt, i, b"FILE", &mut file) {
        print_text(rt, kind, i, file);
    }
}

fn main(rt: HostRuntime) {
    if let Some((kind, i)) = cli_kinds::read_arguments(&rt, 2, 3, b"list [KIND] FILE") {
        list(&rt, kind, i);
    }
}
