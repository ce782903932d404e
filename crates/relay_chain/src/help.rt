//! What the program says of itself.

/// The name of the program, and its version.
pub const VERSION: &str = "Jupwachay relay_chain 0.2.0\n";

/// What it does, the files of the folders, and the statuses.
pub const HELP: &str = "\
usage: relay_chain DIR1 DIR2 HOST
       relay_chain -h | help | --help
       relay_chain version | --version

Takes what the relay of DIR1 serves after the cursor of HOST into the journal of DIR2, as
messages of HOST, and prints a line for each. No table is asked: what DIR1 serves was
checked there. The journal of DIR1 is only read.

Files in both folders:
  log, log.2           the journal, on one of the two
  generation           the generation of the journal that the last cut wrote

Files in DIR2:
  repos/LINK.car       whole repositories, each named by the link over its DID

Exit status (a line on standard error names what failed, and why):
   0  done                                 10  the files of a folder hold no journal
   2  HOST is no host's name               11  the journal of DIR2 has no room
   4  standard output failed               12  the last sequence number was given
   5  a file of a journal failed, or       14  memory ran out
      another run is working on it         17  the clock failed
   7  a repository failed
";
