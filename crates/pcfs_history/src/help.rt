//! What `--help` and `--version` write.

/// What `--version` writes.
pub const VERSION: &str = "pcfs-history 0.1\n";

/// What `--help` writes.
pub const HELP: &str = "pcfs-history AREA.. [OPTION]..
Writes the history in areas of a store: each event with what its procaps rest on. It reads alone, and takes no lock.

AREA is a folder with pcfs.a, pcfs.b and pcfs.secrets, of which the area that counts is read, or one such file alone.
Archives come before what went on from them, the oldest first.

  --file #N       events on that node
  --who NAME      events of that principal
  --from T        events from T on (a second, or a date as 2026-11-29T06:10:00Z)
  --to T          events up to T
  --json          one object of JSON a line
  --who-may #N P  instead: the issues that would admit their principals to P on that node now: read, write, execute, identity or govern
  --at T          for --who-may: at T
  --rests-on N    instead: the issues that cite statement N, and whether their procaps stand, or are denied by a withdrawn statement
  --secrets FILE  the secrets of all areas; else pcfs.secrets beside each
  --help, --version

Status: 0 written, 1 an area does not go on from the one before (its events are written), 2 an area is damaged or not open,
3 wrong words, 4 a file cannot be read, 5 a line of the secrets is wrong, 6 the output failed, 9 out of memory.
";
