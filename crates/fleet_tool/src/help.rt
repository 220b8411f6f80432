//! The help texts of the program.

pub(crate) const VERSION: &str = "1.0";

pub(crate) const STATUSES: &str =
    "Exit status: 0 answered, 2 a bad line or a bad command line, 3 a log that is not sound, 4 a device failed, 5 out of memory.
docs/FORMATS.md describes all lines.";

pub(crate) const RUN: &str = "Input, a line each, with single spaces between fields:
  roster R                 the number of readers, 1 to 15; 1 without this line
  rec E N P G B W          a record: epoch, LSN, segment backlink, page, block backlink and its writes, which are -, or init,
                           OFF:HEX and OFF*LEN:HH (LEN times one byte) with commas between them
  cut E LO HI              a truncation
  min E M [R]              an advance of the read point of reader R, or of reader 1
  go                       ends the facts
  nodes K                  the number of nodes, 1 to 64
  take I F                 delivers fact F, counted from 1, to node I
  join I J                 merges everything that node J has into node I
  ask I                    makes a message with the summary of node I
  answer J M               makes a message with what node J has beyond the summary in message M
  absorb I M               merges the answer in message M into node I
  fold I G                 folds page G of node I up to the anchor
  discard I                removes the folded records of node I
  wipe I                   empties node I
  front I                  prints epoch, complete point and minimum read point
  read I G Q OFF LEN       prints LEN bytes from offset OFF of page G at point Q
  same I J, covers I J     prints whether node I means the same as node J, or at least as much

Exit status: 0 answered, 2 a bad line, 3 a log that is not sound, 4 a device failed, 5 out of memory.
docs/FORMATS.md describes all lines and answers.";

/// The help of the option of `run` and `check`.
pub(crate) const EXPLAIN: &str =
    "Also prints on standard error why a line is bad, or how a fact breaks a law";

pub(crate) const CHECK: &str =
    "Input: the lines roster, rec, cut and min of a script (see fleet run --help).
Output: sound and the number of facts, or the first fact that breaks a law, or the first bad line.

Exit status: 0 sound, 2 a bad line, 3 a log that is not sound, 4 a device failed, 5 out of memory.
docs/RULES.md has the laws of a log, docs/FORMATS.md the lines.";

/// The drill's line in the list of tasks.
pub(crate) const DRILL_IN_A_LINE: &str =
    "Runs nodes of one log in threads: --nodes 1 to 6, --workers 1 to 16, --size small or large";

pub(crate) const NODES: &str = "Number of nodes, 1 to 6";

pub(crate) const WORKERS: &str = "Number of threads that fold, and of threads that gossip, 1 to 16";

pub(crate) const SIZE: &str = "The log: small (130 facts) or large (2050 facts)";

pub(crate) const DRILL: &str =
    "Threads deliver the facts of a log to the nodes, fold pages and discard records, and exchange messages.
Then each node is joined with all others. There is no input, and the output does not depend on how the threads ran.

Output, a line each:
  facts F                  the number of facts
  node I front K C M       for each node: epoch, complete point and minimum read point
  page G HEX               for each page: its first 8 bytes at the complete point
  same yes                 whether all nodes mean the same, yes or no

Exit status: 0 done, 2 a bad command line, 4 a device failed, 5 out of memory, or no thread for a worker.
docs/FORMATS.md describes the log and the output.";

pub(crate) const INSPECT: &str =
    "Input, a line each: the bytes of a fact, summary, delta or piece of a snapshot, in hexadecimal digits of either case.
Output, a line each: the fact as a line of a log, or what another value holds, or wire and the number of the fault, or bad hex.

Exit status: 0 answered, 4 a device failed, 5 out of memory.
docs/FORMATS.md describes the bytes.";
