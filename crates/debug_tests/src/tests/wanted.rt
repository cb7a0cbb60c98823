//! What a file says about its debug file, and which file that is.

use crate::tests::want::want_at;
use elf_debug::{DebugHow, DebugMismatch, DebugWanted, debug_crc};
use std::test::Fail;
use worked_files::files::{debug_link_file, strtab_file};
use xmas_elf::ElfFile;
use xmas_elf::bytes::Order;

const ID: &[u8] = b"\xde\xad\xbe\xef";

// What is not that build id.
const OTHERS: [Option<&[u8]>; 3] = [None, Some(b"\xde\xad\xbe\xee"), Some(b"\xde\xad\xbe")];

#[test]
fn file_says_its_build_id_and_its_link(rt: HostRuntime) -> Result<(), Fail> {
    let bytes = debug_link_file();
    let wanted = DebugWanted::of(&ElfFile::new(&bytes)?);
    want_at(&rt, "id", wanted.build_id, Some(ID));
    want_at(&rt, "link", wanted.link, Some(("a.debug", 0x1234_5678)));
    let first = wanted.paths(b"/bin/a", b"/d").next();
    let mut path = Vec::new(rt.alloc());
    if let Some(first) = first {
        for byte in first.path {
            path.push(byte)?;
        }
    }
    let text: &[u8] = b"/d/.build-id/de/adbeef.debug";
    want_at(&rt, "path", path.as_slice(), text);
    let bytes = strtab_file(Order::Little);
    let wanted = DebugWanted::of(&ElfFile::new(&bytes)?);
    want_at(&rt, "no id", wanted.build_id, None);
    want_at(&rt, "no link", wanted.link, None);
    Ok(())
}

#[test]
fn debug_file_has_the_build_id(rt: HostRuntime) -> Result<(), Fail> {
    let bytes = debug_link_file();
    let file = ElfFile::new(&bytes)?;
    let other = strtab_file(Order::Little);
    let none = ElfFile::new(&other)?;
    let wanted = DebugWanted::of(&file);
    let how = DebugHow::BuildId;
    want_at(&rt, "same", wanted.check(how, &file), Ok(()));
    let fault = Err(DebugMismatch::NoBuildId);
    want_at(&rt, "none", wanted.check(how, &none), fault);
    for id in OTHERS {
        let wanted = DebugWanted {
            build_id: id,
            link: None,
        };
        let fault = Err(DebugMismatch::OtherBuildId);
        want_at(&rt, "another", wanted.check(how, &file), fault);
    }
    want_at(
        &rt,
        "text",
        DebugMismatch::OtherBuildId.message(),
        "another build id",
    );
    Ok(())
}

#[test]
fn debug_file_has_the_checksum_of_the_link(rt: HostRuntime) -> Result<(), Fail> {
    let bytes = debug_link_file();
    let file = ElfFile::new(&bytes)?;
    let wanted = DebugWanted::of(&file);
    let right = DebugWanted {
        build_id: None,
        link: Some(("a.debug", debug_crc(&bytes))),
    };
    let fault = Err(DebugMismatch::OtherChecksum);
    for how in [DebugHow::Folder, DebugHow::Subfolder, DebugHow::Directory] {
        want_at(&rt, "another", wanted.check(how, &file), fault);
        want_at(&rt, "right", right.check(how, &file), Ok(()));
    }
    Ok(())
}
