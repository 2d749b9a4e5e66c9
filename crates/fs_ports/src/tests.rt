//! What no contract says of links in memory, and loads of files in memory one after another.

use crate::{Files, Flag, Load, MemFiles, MemLink, Read, Sink, Source, Write};
use fs_text::{Memory, Txt};
use std::test::Fail;

#[test]
fn a_held_link_waits_for_its_flag(rt: HostRuntime) -> Result<(), Fail> {
    let flag = Flag::new(rt.alloc())?;
    let mut link = MemLink::new(rt.alloc(), b"abcd", &[], &[], &[], 0)?.held(2, flag.twin()?, 1);
    let mut dropping = link.copy()?;
    let mut buf = [0; 4];
    assert_eq!(rt; link.read(&mut buf), Read::Got(2));
    assert_eq!(rt; link.read(&mut buf), Read::NotYet);
    assert_eq!(rt; dropping.read(&mut buf), Read::Got(2));
    assert_eq!(rt; dropping.read(&mut buf), Read::NotYet);
    assert_eq!(rt; dropping.read(&mut buf), Read::End);
    flag.raise();
    assert_eq!(rt; link.read(&mut buf), Read::Got(2));
    assert_eq!(rt; link.read(&mut buf), Read::End);
    assert_eq!(rt; dropping.read(&mut buf), Read::End);
    Ok(())
}

#[test]
fn a_link_raises_its_flag(rt: HostRuntime) -> Result<(), Fail> {
    let flag = Flag::new(rt.alloc())?;
    let mut link = MemLink::new(rt.alloc(), b"", &[], &[], &[], 8)?.raises(3, flag.twin()?);
    assert_eq!(rt; link.write(b"ab"), Write::Took(2));
    assert!(rt; !flag.is_up());
    assert_eq!(rt; link.write(b"c"), Write::Took(1));
    assert!(rt; flag.is_up());
    Ok(())
}

#[test]
fn files_of_one_name_come_in_turn(rt: HostRuntime) -> Result<(), Fail> {
    let name = Txt::of(rt.alloc(), b"plan")?;
    let held = [
        (name.copy()?, Txt::of(rt.alloc(), b"old")?),
        (name.copy()?, Txt::of(rt.alloc(), b"new")?),
    ];
    let mut files = MemFiles::new(rt.alloc(), &held, &[], &[])?;
    assert!(rt; gives(&mut files, &name, b"old")?);
    assert!(rt; gives(&mut files, &name, b"new")?);
    assert!(rt; gives(&mut files, &name, b"new")?);
    Ok(())
}

// Whether the next load of this name gives these bytes.
fn gives(files: &mut MemFiles, name: &Txt, bytes: &[u8]) -> Result<bool, Memory> {
    match files.load(name)? {
        Load::Got(got) => Ok(got.as_bytes() == bytes),
        Load::Absent | Load::Failed => Ok(false),
    }
}
