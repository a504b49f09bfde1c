// unlist [KIND] TEXT FILE: reads a text (docs/TEXT.md) and writes its file. A line that is not the written form of a record that is valid there gives
// `TEXT:LINE: refuse 15: WORDS` on standard error. Unless the whole file is written, one that exists is unchanged.
#![tactic(auto)]

use cli_saving::Unsaved;
use text_acl::TextError;
use text_files::Kind;

// Writes the bytes to the file that argument j names, unless argument i, the text, names it too.
fn save(rt: &HostRuntime, i: usize, j: usize, bytes: &[u8]) -> Result<(), Unsaved> {
    cli_saving::prepare(rt, j, b"FILE", bytes)?;
    cli_saving::tell_apart(rt, j, i)?;
    cli_saving::put(rt, j)
}

// The file of a text. No file is longer than the buffer. What is not saved has been reported.
fn write_file(rt: &HostRuntime, kind: Kind, i: usize, j: usize, text: &[u8]) {
    let mut file = [0u8; record_sizes::ACL_RECORDS * record_sizes::RECORD];
    match text_files::read(kind, text, &mut file) {
        Ok(n) => {
            let _ = save(rt, i, j, cli_arguments::prefix(&file, n));
        }
        Err(TextError::Refused(why)) => cli_messages::refuse(rt, i, u8::from(why)),
        Err(TextError::BadLine(n)) => cli_messages::refuse_line(rt, i, n as u64, 15),
    }
}

// Writes the file of the text that argument i names to the file that argument j names. No text fills the buffer. So one that does, of which only the
// beginning is read, has its first bad line there.
fn unlist(rt: &HostRuntime, kind: Kind, i: usize, j: usize) {
    let mut text = [0u8; cli_kinds::LONGEST + 1];
    if let Some(text) = cli_arguments::read(rt, i, b"TEXT", &mut text) {
        write_file(rt, kind, i, j, text);
    }
}

fn main(rt: HostRuntime) {
    if let Some((kind, i)) = cli_kinds::read_arguments(&rt, 3, 4, b"unlist [KIND] TEXT FILE") {
        unlist(&rt, kind, i, i + 1);
    }
}
