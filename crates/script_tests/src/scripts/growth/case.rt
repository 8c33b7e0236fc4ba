//! Each growth of a case refused in turn.

use crate::compare::same;
use crate::scripts::machine::FORK;
use refusing_allocator::RefusingAllocator;
use trace_script::{Case, CaseError, Cause};

/// More than a case below has growths.
const MOST: u64 = 40;

/// A file of two rows, with each kind of line that keeps something.
const CASE: &[u8] = b"tracee 100 100 77 0\npage 0x10000\ndata 0x10000 68690a\n\
                      call read 0 0x10000 3 = 3 fill 0x10000 616263\nfork 101\nexec 0x10000\npage 0x20000\n\
                      exit 3\nend\n# nothing\ntracee 101 101 77 100\nsignal 15 deadly\nend\n";

/// Files of two rows, and the lines of each at which something grows: the rows, an image, the bytes of data, the bytes
/// of a fill and the steps, what is tested late, another image, the scripts, and the steps of the second row. What has
/// grown has room for a few more.
const FILES: [(&[u8], &[u32]); 2] = [
    (FORK, &[1, 2, 3, 4, 5, 7, 9]),
    (CASE, &[1, 2, 3, 4, 5, 7, 9, 12]),
];

#[test]
fn a_refused_growth_is_reported_at_the_line_that_was_read(rt: HostRuntime) {
    for (file, growing) in FILES {
        let mut last = 0u32;
        let mut lines = 0usize;
        for granted in 0..MOST {
            let heap = RefusingAllocator::new(rt.alloc(), granted);
            match Case::read(&heap, file) {
                Err(CaseError { line, cause }) => {
                    same(&rt, &(granted, heap.has_refused()), &(granted, true));
                    same(&rt, &(granted, cause), &(granted, Cause::NoMemory));
                    same(&rt, &(granted, line, last <= line), &(granted, line, true));
                    if last < line {
                        same(&rt, &(granted, growing.get(lines)), &(granted, Some(&line)));
                        lines = lines.wrapping_add(1);
                    }
                    last = line;
                }
                Ok(case) => {
                    same(&rt, &(granted, !heap.has_refused()), &(granted, true));
                    same(&rt, &case.roster().len(), &2);
                    break;
                }
            }
        }
        same(&rt, &lines, &growing.len());
    }
}

#[test]
fn a_case_without_lines_grows_nothing(rt: HostRuntime) {
    let heap = RefusingAllocator::new(rt.alloc(), 0);
    for file in [b"".as_slice(), b"\n", b"# nothing\n\n"] {
        assert!(rt; Case::read(&heap, file).is_ok());
    }
    assert!(rt; !heap.has_refused());
}

#[test]
fn a_fault_is_found_before_a_growth_of_its_line(rt: HostRuntime) {
    for (file, line, cause) in [
        (
            b"tracee 100 100 77 0\ndata 0 61\n".as_slice(),
            2,
            Cause::Unmapped,
        ),
        (
            b"tracee 100 100 77 0\ncall read 0 = 0 fill 0 61\n",
            2,
            Cause::Unmapped,
        ),
        (b"tracee 100 100 77 0\nsignal 9\n", 2, Cause::Signal),
        (b"tracee 100 100 77 0\npage 1\n", 2, Cause::BadNumber),
    ] {
        let heap = RefusingAllocator::new(rt.alloc(), 1);
        same(
            &rt,
            &Case::read(&heap, file).err(),
            &Some(CaseError { line, cause }),
        );
        assert!(rt; !heap.has_refused());
    }
}
