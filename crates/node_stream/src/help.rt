//! The help of the program.

pub const VERSION: &str = "fleet-node 1.0
";

pub const HELP: &str = "One storage segment that answers requests on standard input

Usage: fleet-node [--frames] [--birth N] | --help | --version

Input, a line each, ended by LF, with single spaces between words:
  open R                replaces the segment by an empty one of R readers, 1 to 15; the first segment has 1
  take HEX              delivers a fact
  front                 epoch, complete point and minimum read point
  gap                   what the complete point waits for
  state                 counts of what is stored
  read G Q OFF LEN      LEN bytes from offset OFF of page G at point Q
  next E N              the stored record with the least key above epoch E and LSN N
  ask                   the summary of the segment
  answer HEX [N]        what the segment has beyond a summary; with N, large where that exceeds N bytes
  absorb HEX HEX        merges a delta; the first value is the summary of this segment that it answers
  fold G                folds page G up to the anchor
  discard               removes folded records
  tidy                  folds all pages, and removes what is not needed
  freeze NAME           keeps a snapshot, until the next one
  piece I               piece I of the snapshot, from 0
  stage NAME T          begins a staging for the T pieces of a snapshot
  add HEX               adds a piece to the staging
  finish                replaces the segment by the segment of the staged pieces
  unite                 merges the segment of the staged pieces into the segment

Several engines, of which the node serves one; N of --birth is the birth of the node, 0 without it:
  status                generation, birth, membership, front, and the accepted truncation
  fence G               a member serves the engine of generation G from now on
  as G B REQUEST        REQUEST, only for the engine of generation G and in birth B
  propose G B E LO HI   accepts a truncation from that engine
  admit G B E C [..]    makes a fresh node of birth B a member; after C: G, E, LO and HI of a truncation that it has accepted

Each line gets one line as its answer, before the next one is read. The answer to an invalid line is bad line, bad hex or wire N, and
to a line of more than 67108864 bytes long line. The answer memory says that memory ran out and nothing has changed.

With --frames each request and each answer is a frame: its length in four bytes, most significant byte first, and its bytes, which are
those of the line without LF. Bytes replace HEX; in absorb the length of the summary and a space precede both values, and answer HEX N
is within, a space, N, a space and the summary.
The answer to an invalid frame is bad request or wire N, and to a frame of more than 67108864 bytes long frame. The word many and a
space may precede whole frames of requests; the answer consists of the frames of their answers, at most 67108864 bytes. An answer that
does not fit is long, and its request has changed nothing: send it again in a frame of its own, or with fewer requests in one frame.

Exit status: 0 the input has ended, 2 a bad command line, 4 a device failed, 5 out of memory.
docs/EMBEDDING.md describes requests and answers, docs/FORMATS.md the bytes.
";
