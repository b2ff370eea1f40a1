// Copies of sorts, entries and answers.
use sort_check::{Judged, SortArg, SortEnd, Sorts, read_sorts};
use sort_laws::Entry;
use std::alloc::Global;
use std::process::Abort;
use std::test::Fail;

const LINES: &[u8] = b"#: sort pair(place,num,pair)\n#: use x pair\n";

fn are_args(args: &[SortArg]) -> bool {
    match args {
        [SortArg::Place, SortArg::Num, SortArg::Named(0)] => true,
        _ => false,
    }
}

// Whether they declare what the lines do.
fn declares(sorts: &Sorts) -> bool {
    match sorts.decls.as_slice() {
        [decl] => decl.name.as_slice() == b"pair".as_slice() && are_args(decl.args.as_slice()),
        _ => false,
    }
}

// Whether they use what the lines do.
fn uses(sorts: &Sorts) -> bool {
    match sorts.uses.as_slice() {
        [member] => member.spell.as_slice() == b"x".as_slice() && member.sort == 0,
        _ => false,
    }
}

// Whether a copy of the lines' sorts is what they say.
fn copy_is_as_declared(alloc: Global) -> Result<bool, SortEnd> {
    let sorts = read_sorts(alloc, LINES)?;
    let copy = sorts.copy(alloc)?;
    Ok(declares(&copy) && uses(&copy))
}

#[test]
fn sorts_are_copied(rt: HostRuntime) -> Result<(), Fail> {
    let is_same = copy_is_as_declared(rt.alloc())?;
    assert!(rt; is_same);
    Ok(())
}

const ENTRY: Entry = Entry {
    binder: 2,
    sort: Some(SortArg::Num),
};

const NO: Judged = Judged::No { kind: 8, place: 90 };

const FAULT: SortEnd = SortEnd::Fault { kind: 1, place: 7 };

// Copies are equal.
#[test]
fn copies(rt: HostRuntime) {
    let alloc = rt.alloc();
    assert!(rt; SortArg::Named(3).copy(alloc) == Ok(SortArg::Named(3)));
    assert!(rt; ENTRY.copy(alloc) == Ok(ENTRY));
    assert!(rt; NO.copy(alloc) == Ok(NO));
    assert!(rt; FAULT.copy(alloc) == Ok(FAULT));
}
