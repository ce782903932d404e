//! What the program says of itself.

/// The name of the program, and its version.
pub const VERSION: &str = "Jupwachay relay 0.2.0\n";

/// The commands, the files of the folder, and the statuses.
pub const HELP: &str = "\
usage: relay DIR WORDS
       relay -h | help | --help
       relay version | --version

Jupwachay, a relay for the AT Protocol whose answers are proved. DIR is the folder of its
journal. WORDS are one of these commands:

  check                check one message of a host's stream, read from standard input
  ingest               take the messages of a tape, read from standard input, into the journal
  follow HOST N        take at most N messages from the stream of a host on this machine
  replay CURSOR        write the events after a sequence number
  serve N              serve N consumers, one after another, on 127.0.0.1 port 2470
  account DID          print the state of an account
  hosts                print the hosts and their cursors
  takedown DID TIME    take an account down
  restore DID TIME     take that back
  sync DID TIME        read an account's whole repository, and take it over
  cut SEQ              remove the events up to a sequence number from the journal
  trial START N        take N made-up messages into two journals in memory
  mirror               print each account's records, by the output of replay 0 on standard input
  query N              answer N requests over HTTP, one after another, on 127.0.0.1 port 2471
  lines CURSOR COLL    write the operations after a sequence number as lines of JSON, those on
                       one collection or all (-)

Files in DIR:
  log, log.2           the journal, on one of the two
  generation           the generation of the journal that the last cut wrote
  plc.1, plc.2         tables for did:plc: the host of each account, and which signatures are good
  web.1, web.2         tables for did:web
  TABLE.sum            the length and the SHA-256 digest of a table, if there is such a file
  repos/LINK.car       whole repositories, each named by the link over its DID

Exit status (a line on standard error names what failed, and why):
   0  done                                 10  the files hold no journal
   1  the tape has something other than    11  the journal has no room
      records                              12  the last sequence number was given
   2  the words are no command             13  the input is longer than its limit
   3  standard input failed                14  memory ran out
   4  standard output failed               15  refused, as the line printed says
   5  a file of the journal failed, or     17  the clock failed
      another run is working on DIR        18  the stream has something other than
   6  no table of a DID method is left         messages
   7  a repository failed                  19  requests can't be taken
   8  the host can't be followed
   9  consumers can't connect
";
