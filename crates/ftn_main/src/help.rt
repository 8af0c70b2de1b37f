//! What the program says of itself.

/// The whole help.
pub const HELP: &str = "\
ftn_tool refactors projects of free-form Fortran 90 files in the current folder.
It never runs the program. It changes files only where every result stays.
That is proved over a store that gives back what was put; a real folder is
trusted to be one.

Usage:
  ftn_tool check
      Tell the first fault of the project, or how many files and program units
      it has.
  ftn_tool apply rename FILE LINE COLUMN NEW
      Give the entity whose name stands at that line and column of the file
      the name NEW, everywhere. Lines and columns count from 1, columns in bytes.
  ftn_tool recover
      Complete a change that was stopped: put the files of ftn.plan, and take
      ftn.plan away.
  ftn_tool -h | --help
  ftn_tool --version
Anywhere after the first word of check or apply may stand, once,
  --edition=2003
      Names have at most 63 letters, in place of 31, and a statement has at most
      255 continuation lines, in place of 39.

The project is every regular file of the folder whose name ends in .f90 and has
only bytes from 33 to 126. What else ends in .f90, links among it, is left out;
standard error tells each. The files are read, then their declarations, names,
constants and shapes are looked at, and the first fault is told. Types and
storage are not looked at yet. This version changes projects of one file with
one main program of integer scalars, assignments and `print *`; for any other
project without a fault `apply` answers `fault NotBuilt -`.

Output, one line, and exit codes:
  0  ok F files, U units       no fault was found
  0  applying 1 files          the rename was made
  0  recovering N files        the change that was stopped is made whole
  0  nothing to recover        no change was stopped
  1  refused CONDITION PLACE   a condition fails; no file changed
  2  bad word K                the K-th word is bad or missing
  3  fault NAME PLACE          the project has this fault first; no file changed
  3  fault NotAPlan PLACE      ftn.plan is no plan; no file changed
  4  limit WHICH               the project or the plan is too large; no file
                               changed
  5  store fault               a file could not be read or written; standard
                               error tells which, and why
  7                            standard output failed; no file changed
  8                            out of memory; no file changed
 11  pending                   a change was stopped: recover completes it
PLACE is FILE:LINE:COLUMN, or - where there is none; of NotAPlan it is
ftn.plan:OFFSET.

A change is written to ftn.plan first, and ftn.plan is taken away last. After
store fault, or a stop, each file has its old or its new text.

Conditions of rename:
  NoName    no name stands at that place
  BadName   NEW is no Fortran name of at most 31 characters
  Keyword   NEW is a word of statements or an intrinsic function
  Captured  NEW already stands at that place
  LongLine  that edit would make a line of more than 132 bytes

Limits:
  files     a project has at most 4096 files
  file      a file has at most 4194304 bytes
  project   the files of a project have at most 16777216 bytes all together
  plan      ftn.plan has at most 20971520 bytes
";

/// The version.
pub const VERSION: &str = "ftn_tool 0.1.0\n";

/// Where to look after words that are no command.
pub const HINT: &str = "ftn_tool: try `ftn_tool --help`";

/// Whether these words ask for the help, and for nothing else.
pub fn asks_for_help(words: &[String]) -> bool {
    match words {
        [word] => word.as_str() == "--help" || word.as_str() == "-h",
        _ => false,
    }
}

/// Whether these words ask for the version, and for nothing else.
pub fn asks_for_version(words: &[String]) -> bool {
    match words {
        [word] => word.as_str() == "--version",
        _ => false,
    }
}
