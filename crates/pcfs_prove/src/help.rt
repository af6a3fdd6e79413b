//! What `--help` and `--version` write.

/// What `--version` writes.
pub const VERSION: &str = "pcfs-prove 0.1\n";

/// What `--help` writes.
pub const HELP: &str = "pcfs-prove STATEMENTS WHO FILE PERMISSION [OPTION]..
Finds a proof that WHO may have PERMISSION on FILE, and writes the line that asks the server for its procap.

STATEMENTS is a file with a statement a line, each after its number: 1 admin says may(alice,#1,write) from 0 to 200
WHO is a principal, FILE a node as #1, PERMISSION read, write, execute, identity or govern.

  --at T         the conditions have to hold at T (a second, or a date as 2026-11-29T06:10:00Z); else now
  --until T      and on to T
  --any          at some moment, whichever
  --facts FILE   what is known of the state, a predicate a line: owner(#1,admin)
  --known        nothing else of the state may be left over as a condition
  --steps N      at most N steps; else 200000
  --help, --version

Status: 0 found, 1 no proof, 2 none within the limits, 3 wrong words, 4 a file cannot be read, 5 a line of a file is wrong,
6 the output failed, 9 out of memory. Remarks go to the standard error: until when, on which conditions, or what is missing.
";
