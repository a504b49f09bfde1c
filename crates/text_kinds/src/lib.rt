// Texts of files whose kind is named by a number, as the header and replay scripts name it.
#![tactic(auto)]

ghost use Rattle.std.specs.Prelude.{◌≡◌};
ghost use Rattle.text_acl.specs.Answers.{IsListed};
ghost use Rattle.text_kinds.specs.Kinds.{text_kind, known_kind, written_for, read_for};

use refusals::Refusal;
use text_acl::TextError;
use text_files::Kind;

// The kind of file that a number names. An unknown kind is refused before anything else is checked.
fn kind_of(number: u64) -> Result<Kind, Refusal>
    ensures { result ≡ known_kind (text_kind number) }
{
    match number {
        0 => Ok(Kind::Acl),
        1 => Ok(Kind::Request),
        2 => Ok(Kind::Requests),
        3 => Ok(Kind::Bundle),
        4 => Ok(Kind::Hints),
        _ => Err(Refusal::OutOfRange),
    }
}

// The text of a file of any kind, at the front of the buffer.
pub fn write(number: u64, file: &[u8], buffer: &mut [u8]) -> Result<usize, TextError>
    ensures { IsListed (written_for (text_kind number) file.now buffer.old) result buffer.new }
{
    let kind = kind_of(number)?;
    text_files::write(kind, file, buffer)
}

// The file of a text of any kind, at the front of the buffer.
pub fn read(number: u64, text: &[u8], buffer: &mut [u8]) -> Result<usize, TextError>
    ensures { IsListed (read_for (text_kind number) text.now buffer.old) result buffer.new }
{
    let kind = kind_of(number)?;
    text_files::read(kind, text, buffer)
}
