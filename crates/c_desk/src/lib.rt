// The C surface of what has no ledger: the desk, the trimming tool, the subject writer and texts of files as exported functions. A slice is a pointer
// and a length.
#![tactic(auto)]

ghost use Rattle.std.specs.Prelude.{◌≡◌};
ghost use Rattle.rules.specs.Desk.{desk};
ghost use Rattle.rules.specs.Subject.{subject_reply, subject_buffer};
ghost use Rattle.rules.specs.Trim.{trim_reply, trim_acl_buffer, trim_hint_buffer};
ghost use Rattle.text_rules.specs.Listing.{write_listing, read_listing_into};
ghost use Rattle.desk.specs.Replies as replies;
ghost use Rattle.c_answers.specs.Surface.{host_verdict_as, host_verdict_for, host_subject_as, host_subject_for, host_text_as, host_text_for, host_trim_as, host_trim_for};
ghost use Rattle.text_kinds.specs.Kinds.{text_kind, written_for, read_for};

use c_answers::{HostSubject, HostText, HostTrim, HostVerdict};

// The number of the binary interface, AKUBOLINFE_ABI of the header.
#[unsafe(no_mangle)]
pub extern "C" fn akubolinfe_abi() -> u32
    ensures { result ≡ 1 }
{
    1
}

// The desk's verdict on a bundle and an ACL.
#[unsafe(no_mangle)]
pub extern "C" fn akubolinfe_desk(bundle: &[u8], acl: &[u8]) -> HostVerdict
    ensures { host_verdict_as result ≡ host_verdict_for (replies.verdict_for (desk bundle.now acl.now)) }
{
    HostVerdict::from(desk::assess(bundle, acl))
}

// The trimmed ACL at the front of one buffer, its hints at the front of the other.
#[unsafe(no_mangle)]
pub extern "C" fn akubolinfe_trim(
    bundle: &[u8],
    acl: &[u8],
    new: &mut [u8],
    hints: &mut [u8],
) -> HostTrim
    ensures reply { host_trim_as result ≡ host_trim_for (trim_reply bundle.now acl.now new.old hints.old) }
    ensures trimmed { new.new ≡ trim_acl_buffer bundle.now acl.now new.old hints.old }
    ensures hinted { hints.new ≡ trim_hint_buffer bundle.now acl.now new.old hints.old }
{
    HostTrim::from(trimming::trim(bundle, acl, new, hints))
}

// The subject of a world certificate, at the front of the buffer.
#[unsafe(no_mangle)]
pub extern "C" fn akubolinfe_subject(
    certificate: u64,
    suite: u64,
    hashes: &[u8],
    buffer: &mut [u8],
) -> HostSubject
    ensures reply { host_subject_as result ≡ host_subject_for (subject_reply certificate suite hashes.now buffer.old) }
    ensures bytes { buffer.new ≡ subject_buffer certificate suite hashes.now buffer.old }
{
    HostSubject::from(subject::write_subject(certificate, suite, hashes, buffer))
}

// An ACL's listing, at the front of the buffer.
#[unsafe(no_mangle)]
pub extern "C" fn akubolinfe_write_listing(acl: &[u8], buffer: &mut [u8]) -> HostText
    ensures reply { host_text_as result ≡ host_text_for (write_listing acl.now buffer.old).reply }
    ensures bytes { buffer.new ≡ (write_listing acl.now buffer.old).buffer }
{
    HostText::from(text_acl::write_listing(acl, buffer))
}

// A listing's ACL, at the front of the buffer.
#[unsafe(no_mangle)]
pub extern "C" fn akubolinfe_read_listing(text: &[u8], buffer: &mut [u8]) -> HostText
    ensures reply { host_text_as result ≡ host_text_for (read_listing_into text.now buffer.old).reply }
    ensures bytes { buffer.new ≡ (read_listing_into text.now buffer.old).buffer }
{
    HostText::from(text_acl::read_listing(text, buffer))
}

// The text of a file of any kind, at the front of the buffer.
#[unsafe(no_mangle)]
pub extern "C" fn akubolinfe_write_text(kind: u32, file: &[u8], buffer: &mut [u8]) -> HostText
    ensures reply { host_text_as result ≡ host_text_for (written_for (text_kind kind) file.now buffer.old).reply }
    ensures bytes { buffer.new ≡ (written_for (text_kind kind) file.now buffer.old).buffer }
{
    HostText::from(text_kinds::write(kind as u64, file, buffer))
}

// The file of a text of any kind, at the front of the buffer.
#[unsafe(no_mangle)]
pub extern "C" fn akubolinfe_read_text(kind: u32, text: &[u8], buffer: &mut [u8]) -> HostText
    ensures reply { host_text_as result ≡ host_text_for (read_for (text_kind kind) text.now buffer.old).reply }
    ensures bytes { buffer.new ≡ (read_for (text_kind kind) text.now buffer.old).buffer }
{
    HostText::from(text_kinds::read(kind as u64, text, buffer))
}
