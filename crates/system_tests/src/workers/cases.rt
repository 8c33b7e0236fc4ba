//! The cases that runs are made of, with the texts that they print, and how they are traced.

use trace_options::CallSet;
use tracer_workers::Config;

/// A root that writes, forks and exits, and its child.
pub(crate) const FORK: &str = "tracee 100 100 77 0\npage 0x10000\ndata 0x10000 68690a\n\
                    call write 1 0x10000 3 = 3\nfork 101\nexit 3\nend\n\
                    tracee 101 101 77 100\nexit 0\nend\n";

pub(crate) const FORK_TEXT: &str =
    "100 write(1, \"hi\\n\", 3) = 3\n100 fork() = 101\n100 exit(3) = ?\n\
                         100 +++ exited with 3 +++\n101 exit(0) = ?\n101 +++ exited with 0 +++\n";

/// A leader that exits before its thread.
pub(crate) const THREAD: &str = "tracee 100 100 77 0\nthread 101\nexit 3\nend\n\
                      tracee 101 100 77 100\ncall getpid = 100\nexit 0\nend\n";

pub(crate) const THREAD_TEXT: &str =
    "100 clone(0x10900) = 101\n100 exit(3) = ?\n100 +++ exited with 3 +++\n\
                           101 getpid() = 100\n101 exit(0) = ?\n101 +++ exited with 0 +++\n";

/// Strings and buffers over two pages, and an address that is not mapped.
const MEMORY: &str = "tracee 300 300 300 0\npage 0x10000\npage 0x11000\ndata 0x10ffe 6162\n\
    data 0x10100 0000010000000000020000000000000002000100000000000100000000000000\ndata 0x10000 616263\n\
    call chdir 0x10ffe = -2\ncall writev 1 0x10100 2 = 3\ncall read 0 0x10000 16 = 5 fill 0x10000 6869090aff\n\
    call rename 0x10ffe 0x50000 = 0\nend\n";

const MEMORY_TEXT: &str = "300 chdir(\"ab\") = -1 ENOENT\n\
    300 writev(1, [{iov_base=\"ab\", iov_len=2}, {iov_base=\"c\", iov_len=1}], 2) = 3\n\
    300 read(0, \"hi\\t\\n\\377\", 16) = 5\n300 rename(\"ab\", 0x50000) = 0\n300 +++ exited with 0 +++\n";

pub(crate) const EXEC: &str =
    "tracee 400 400 400 0\npage 0x10000\ndata 0x10000 2f7800\nexec 0x10000\npage 0x20000\n\
                    at 0x20000 0x20ff0\ncall unlink 0x20000 = 0\nexit 0\nend\n";

const EXEC_TEXT: &str =
    "400 execve(\"/x\", NULL, NULL) = 0\n400 unlink(\"\") = 0\n400 exit(0) = ?\n\
                         400 +++ exited with 0 +++\n";

/// A process that a signal kills.
const DEADLY: &str = "tracee 200 200 200 0\nsignal 15 deadly\nexit 0\nend\n";

const DEADLY_TEXT: &str = "200 --- SIGTERM ---\n200 +++ killed by SIGTERM +++\n";

/// A process that handles a signal.
const HANDLED: &str = "tracee 200 200 200 0\nsignal 15\nexit 0\nend\n";

/// A case with its text where every call is shown, and where write(2) alone is. Signals and deaths are shown always.
#[derive(Clone, Copy)]
pub(crate) struct Worked {
    pub(crate) file: &'static str,
    pub(crate) text: &'static str,
    pub(crate) writes: &'static str,
}

/// A case of each kind. Of these only `FORK` calls write(2).
pub(crate) const WORKED: [Worked; 6] = [
    Worked {
        file: FORK,
        text: FORK_TEXT,
        writes: "100 write(1, \"hi\\n\", 3) = 3\n100 +++ exited with 3 +++\n101 +++ exited with 0 +++\n",
    },
    Worked {
        file: THREAD,
        text: THREAD_TEXT,
        writes: "100 +++ exited with 3 +++\n101 +++ exited with 0 +++\n",
    },
    Worked {
        file: DEADLY,
        text: DEADLY_TEXT,
        writes: DEADLY_TEXT,
    },
    Worked {
        file: HANDLED,
        text: "200 --- SIGTERM ---\n200 exit(0) = ?\n200 +++ exited with 0 +++\n",
        writes: "200 --- SIGTERM ---\n200 +++ exited with 0 +++\n",
    },
    Worked {
        file: MEMORY,
        text: MEMORY_TEXT,
        writes: "300 +++ exited with 0 +++\n",
    },
    Worked {
        file: EXEC,
        text: EXEC_TEXT,
        writes: "400 +++ exited with 0 +++\n",
    },
];

/// Without and with a filter, and without and with stops before deaths: `seccomp` and `exits`. The text is the same.
pub(crate) const MODES: [(bool, bool); 4] = [
    (false, false),
    (false, true),
    (true, false),
    (true, true),
];

/// Every call shown, children followed, and strings of at most 32 bytes.
pub(crate) fn all() -> Config {
    Config {
        follow: true,
        seccomp: false,
        exits: false,
        workers: 2,
        limit: 32,
        shown: CallSet::all(),
    }
}

/// The same, but of the calls only write(2) is shown.
pub(crate) fn writes_alone() -> Config {
    let mut shown = CallSet::none();
    // The number of write(2).
    shown.add(1);
    Config { shown, ..all() }
}
