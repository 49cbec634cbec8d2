//! What the program says of itself: how each tool is called, its options and statuses, and the version.

ghost use Rattle.std.specs.Prelude.{◌≡◌, ◌++◌, map};
ghost use Rattle.xfs_options.specs.DebugWords.{debug_options};
ghost use Rattle.xfs_options.specs.MakeWords.{make_options};
ghost use Rattle.xfs_texts.specs.Help.{called_by, help_text, Names, debug_rows, make_rows, option_lines, page_text, tool_help, version_text};
ghost use Rattle.xfs_texts.specs.Lines.{PutsText};
ghost use Rattle.xfs_texts.specs.Private.Labels.{row_now};

use crate::lines::{Number, put_line, put_text};
use xfs_disk::{Failed, Sink};

/// A tool of the program.
#[derive(Clone, Copy)]
pub enum Tool {
    /// `xfs_repair`.
    Repair,
    /// `mkfs.xfs`.
    Make,
    /// `xfs_db`.
    Debug,
}

/// An option of a tool, for the line that says what it does.
#[derive(Clone, Copy)]
struct OptionLine {
    letter: u8,
    /// The name of its value, what it does, and the end of the line.
    says: &'static str,
}

/// How `xfs_repair` is called, and what it does.
const REPAIR_CALLED: &str = "\
xfs xfs_repair [-n] [-L] [-e] [-f] [-v] [-w workers] IMAGE
Checks an XFS volume in an image file, and repairs it.

";

/// The options of `xfs_repair`.
const REPAIR_ROWS: [OptionLine; 6] = [
    OptionLine {
        letter: b'n',
        says: "          check only, and write nothing\n",
    },
    OptionLine {
        letter: b'L',
        says: "          go on where the log is not clean, and drop it\n",
    },
    OptionLine {
        letter: b'e',
        says: "          end with 4 after a repair\n",
    },
    OptionLine {
        letter: b'f',
        says: "          the image is a file; no effect\n",
    },
    OptionLine {
        letter: b'v',
        says: "          say in words what was found\n",
    },
    OptionLine {
        letter: b'w',
        says: " workers  so many pieces of work at once, 1 to 64; 4 by default\n",
    },
];

/// The words that stand alone, and the statuses of `xfs_repair`.
const REPAIR_ENDS: &str = "  --help      alone: print this
  --version   alone: print the version, as -V does

status 0     the volume is consistent, or was repaired
status 1     it is damaged, or something else is told in a line
status 2     its log is not clean, and neither -n nor -L is given
status 4     it was repaired, and -e is given
";

/// How `mkfs.xfs` is called, and what it does.
const MAKE_CALLED: &str = "\
xfs mkfs.xfs [-d list] [-l list] [-m list] [-i list] [-s list] [-b list] [-n list] [-L label] [-p protofile | -G number] [-f] [-q] [-K] IMAGE
Makes an XFS volume in an image file that is there, empty or with files. A list has items with commas between them.

";

/// The options of `mkfs.xfs`.
const MAKE_ROWS: [OptionLine; 13] = [
    OptionLine {
        letter: b'd',
        says: " list       size=SIZE, agcount=N or agsize=SIZE: the volume, and its groups or the size of each\n",
    },
    OptionLine {
        letter: b'l',
        says: " list       size=SIZE: the log\n",
    },
    OptionLine {
        letter: b'm',
        says: " list       uuid=U: the identifier; crc=1, finobt=1, rmapbt=1, reflink=0, bigtime=0, inobtcount=0 are always so\n",
    },
    OptionLine {
        letter: b'i',
        says: " list       size=512, sparse=1, nrext64=0 are always so\n",
    },
    OptionLine {
        letter: b's',
        says: " list       size=512 is always so\n",
    },
    OptionLine {
        letter: b'b',
        says: " list       size=4096 is always so\n",
    },
    OptionLine {
        letter: b'n',
        says: " list       ftype=1 is always so\n",
    },
    OptionLine {
        letter: b'L',
        says: " label      the label, of at most 12 bytes\n",
    },
    OptionLine {
        letter: b'p',
        says: " protofile  a text that says which files the volume has\n",
    },
    OptionLine {
        letter: b'f',
        says: "            write over what is there\n",
    },
    OptionLine {
        letter: b'q',
        says: "            print nothing of the volume that was made\n",
    },
    OptionLine {
        letter: b'K',
        says: "            no effect\n",
    },
    OptionLine {
        letter: b'G',
        says: " number     make so many files, then lose the root of a tree and repair the volume, each with its line\n",
    },
];

/// The words that stand alone, and the statuses of `mkfs.xfs`.
const MAKE_ENDS: &str = "  --help        alone: print this
  --version     alone: print the version, as -V does

A SIZE is in bytes, or has a letter behind it: b for blocks of 4096, s for sectors of 512, k, m, g for powers of 1024.

status 0       the volume was made
status 1       something else is told in a line
";

/// How `xfs_db` is called, and what it does.
const DEBUG_CALLED: &str = "\
xfs xfs_db [-r] [-x] [-f] [-c command]... IMAGE
Looks at the objects of an XFS volume in an image file, and changes their fields.

";

/// The options of `xfs_db`.
const DEBUG_ROWS: [OptionLine; 4] = [
    OptionLine {
        letter: b'r',
        says: "          never write\n",
    },
    OptionLine {
        letter: b'x',
        says: "          allow the command write\n",
    },
    OptionLine {
        letter: b'f',
        says: "          the image is a file; no effect\n",
    },
    OptionLine {
        letter: b'c',
        says: " command  run this command, and read no input; may be repeated\n",
    },
];

/// The words that stand alone, and the statuses of `xfs_db`.
const DEBUG_ENDS: &str = "  --help      alone: print this
  --version   alone: print the version, as -V does

status 0     all commands were run, each or a line in its place
status 1     something else is told in a line
";

/// How the program is called without a tool.
const PROGRAM: &str = "\
xfs TOOL [option]... IMAGE
Checks, mends, makes and inspects XFS version 5 volumes that are image files. A link to the program with a tool's name is that tool.

  xfs_repair  checks a volume, and repairs it
  mkfs.xfs    makes a volume, empty or with files
  xfs_db      looks at the objects of a volume, and changes their fields

  --help      alone: print this; alone behind a tool: its options
  --version   alone: print the version

status 0, 2, 4  as the tool tells
status 1        the words are no call of a tool, or something else is told in a line
";

/// What stands behind a name where the version is told, and the version.
const VERSION: &str = " version 0.5\n";

/// Puts how a tool is called, its options with a line each, and its statuses; `None` is the program without a tool.
pub fn put_help<S: Sink>(sink: &mut S, tool: Option<Tool>) -> Result<(), Failed>
    ensures text { PutsText (S.took sink.old) (S.took sink.new) (S.faults sink.old) (S.faults sink.new) (help_text tool) result }
    // Each option that the words may give has its line, and no other letter has one.
    ensures options { Names make_rows make_options × Names debug_rows debug_options }
{
    match tool {
        None => put_text(sink, PROGRAM),
        Some(tool) => put_tool(sink, tool),
    }
}

/// Puts how a tool is called, its options with a line each, and its statuses.
fn put_tool<S: Sink>(sink: &mut S, tool: Tool) -> Result<(), Failed>
    ensures { PutsText (S.took sink.old) (S.took sink.new) (S.faults sink.old) (S.faults sink.new) (tool_help tool) result }
{
    match tool {
        Tool::Repair => put_page(sink, REPAIR_CALLED, &REPAIR_ROWS, REPAIR_ENDS),
        Tool::Make => put_page(sink, MAKE_CALLED, &MAKE_ROWS, MAKE_ENDS),
        Tool::Debug => put_page(sink, DEBUG_CALLED, &DEBUG_ROWS, DEBUG_ENDS),
    }
}

/// Puts the name by which a tool is called and the version of the program.
pub fn put_version<S: Sink>(sink: &mut S, tool: Option<Tool>) -> Result<(), Failed>
    ensures { PutsText (S.took sink.old) (S.took sink.new) (S.faults sink.old) (S.faults sink.new) (version_text tool) result }
{
    match put_text(sink, called_by(tool)) {
        Ok(()) => {}
        Err(Failed) => return Err(Failed),
    }
    put_text(sink, VERSION)
}

/// The name by which a tool is called; that of the program where there is none.
fn called_by(tool: Option<Tool>) -> &'static str
    ensures { result.now ≡ called_by tool }
{
    match tool {
        None => "xfs",
        Some(Tool::Repair) => "xfs_repair",
        Some(Tool::Make) => "mkfs.xfs",
        Some(Tool::Debug) => "xfs_db",
    }
}

/// Puts how a tool is called, a line for each option, and what stands behind them.
fn put_page<S: Sink>(
    sink: &mut S,
    called: &str,
    rows: &[OptionLine],
    ends: &str,
) -> Result<(), Failed>
    ensures { PutsText (S.took sink.old) (S.took sink.new) (S.faults sink.old) (S.faults sink.new) (page_text called.now (map row_now rows.now) ends.now) result }
{
    match put_text(sink, called) {
        Ok(()) => {}
        Err(Failed) => return Err(Failed),
    }
    put_options(sink, rows, ends)
}

/// Puts a line for each option, and what stands behind them.
fn put_options<S: Sink>(sink: &mut S, rows: &[OptionLine], ends: &str) -> Result<(), Failed>
    ensures { PutsText (S.took sink.old) (S.took sink.new) (S.faults sink.old) (S.faults sink.new) (option_lines (map row_now rows.now) ++ ends.now) result }
{
    for row in rows {
        match put_line(sink, &[("  -", Number::Letter(row.letter))], row.says) {
            Ok(()) => {}
            Err(Failed) => return Err(Failed),
        }
    }
    put_text(sink, ends)
}
