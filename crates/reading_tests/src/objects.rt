//! What no clause says: real files, streams, and that there can be memory enough.
ghost use Rattle.std.specs.Prelude.{◌≡◌, ◌↔◌, None, IfOk, IfSome, IsErrOf};
ghost use Rattle.cq_io.specs.declared.shelf.Size.TheVariants.{Missing};
ghost use Rattle.cq_io.specs.Faults.{Rose};
ghost use Rattle.cq_io.specs.Fetching.{size_of, fetched};
ghost use Rattle.cq_io.specs.Writing.{appended};

use cq_io::{
    Failed, FetchFault, FileShelf, MemShelf, MemSink, NullSink, Shelf, Sink, Size, StdSink,
};
use std::alloc::Global;
use std::fs;
use std::test::Fail;

// Why a copy failed.
#[derive(Clone, Copy, Debug, PartialEq, Eq)]
enum CopyFault {
    Read,
    Write,
    NoMemory,
}

// Writes the file under a name to a sink, where it has at most ten bytes.
fn copy_file<S: Shelf, O: Sink>(
    alloc: Global,
    files: &mut S,
    name: &str,
    out: &mut O,
) -> Result<Size, CopyFault>
    ensures exact { IfOk result (λ size. IfSome (S.holds files.old) (λ held.
        (size ≡ size_of (held name.now) 10)
        × (O.written out.new ≡ appended (O.written out.old) (fetched (held name.now) 10)))) }
    ensures missing { IfOk result (λ size. IfSome (S.holds files.old) (λ held.
        (size ≡ Missing) ↔ (held name.now ≡ None))) }
    ensures read { IsErrOf result CopyFault.Read → Rose (S.faults files.old) (S.faults files.new) }
    ensures write { IsErrOf result CopyFault.Write → Rose (O.faults out.old) (O.faults out.new) }
    ensures same_files { S.holds files.new ≡ S.holds files.old }
{
    let mut bytes = Vec::new(alloc);
    let size = match files.fetch(name, 10, &mut bytes) {
        Ok(size) => size,
        Err(FetchFault::Failed) => return Err(CopyFault::Read),
        Err(FetchFault::NoMemory) => return Err(CopyFault::NoMemory),
    };
    match out.write_all(bytes.as_slice()) {
        Ok(()) => Ok(size),
        Err(Failed) => Err(CopyFault::Write),
    }
}

#[test]
fn files_in_memory_are_copied(rt: HostRuntime) -> Result<(), Fail> {
    let alloc = rt.alloc();
    let mut files = MemShelf::new(alloc);
    files.put("short", b"one")?;
    files.put("long", b"more than ten")?;
    files.put("short", b"two")?;
    files.fail_at(2)?;
    let mut out = MemSink::new(alloc, Some(8));
    out.reserve(12)?;
    for (name, answer) in [
        ("short", Ok(Size::Whole)),
        ("long", Ok(Size::Longer)),
        ("short", Err(CopyFault::Read)),
        ("none", Ok(Size::Missing)),
        ("short", Ok(Size::Whole)),
        ("short", Err(CopyFault::Write)),
        ("none", Err(CopyFault::Write)),
    ] {
        assert_eq!(rt;
            copy_file(alloc, &mut files, name, &mut out),
            answer,
            "of {name}"
        );
    }
    assert_eq!(rt; out.written(), b"twotwotw".as_slice());
    assert_eq!(rt; out.flush(), Err(Failed));
    assert_eq!(rt;
        copy_file(alloc, &mut files, "short", &mut NullSink::new()),
        Ok(Size::Whole)
    );
    Ok(())
}

#[test]
fn real_files_are_copied(rt: HostRuntime) -> Result<(), Fail> {
    let alloc = rt.alloc();
    fs::write(&rt, "short_file", "a\nb")?;
    fs::write(&rt, "long_file", "more than ten")?;
    let mut copied: Vec<u8> = Vec::new(alloc);
    for (name, size) in [
        ("short_file", Size::Whole),
        ("long_file", Size::Longer),
        ("no_file", Size::Missing),
    ] {
        let mut files = FileShelf::new(&rt);
        let mut out = StdSink::new(&mut copied);
        assert_eq!(rt;
            copy_file(alloc, &mut files, name, &mut out),
            Ok(size),
            "of {name}"
        );
        assert_eq!(rt; out.flush(), Ok(()));
    }
    assert_eq!(rt; copied.as_slice(), b"a\nb".as_slice());
    fs::remove_file(&rt, "short_file")?;
    fs::remove_file(&rt, "long_file")?;
    Ok(())
}
