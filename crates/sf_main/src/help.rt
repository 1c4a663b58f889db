//! What the program says of itself.
use sf_app_options::About;

const HELP: &str = "\
sf_main plays a script of a compositor: an actor draws buffers and sends transactions, and each
vsync commits them, each whole or not at all, and shows a frame.

usage: sf_main [--run play|live|gen] [--workers N] [--number N] [--summary] [--intake lock|queue]
               < SCRIPT > RECORDS

It reads the script from standard input, and writes what comes of it to standard output as binary
records: each reply, each commit, each frame as raw RGBA, the history of each queue, what waits and
who is stuck.

  --run V      play, if absent: the script that is read, one step at a time, in its order
               gen: a generated script of four producers; nothing is read
               live: the script that is read, each actor in a thread of its own. Its order is not
               followed, and the replies are written after the last vsync
  --workers N  how many workers may compose a frame, 1 to 16; 1 if absent. The frames are the same
  --number N   which script is generated, 0 to 18446744073709551615; 1 if absent. Only gen uses it
  --summary    writes, in place of the records, the one record SUMM of what they come to: how many
               replies, vsyncs, commits, rejected commits and frames, the sum of all bytes of
               pixels, and how many wait and are stuck. Not with live
  --intake V   lock, if absent: under live transactions arrive in calls under one lock, and the reply
               to an apply is the place of its transaction among the arrivals
               queue: they arrive through a queue that takes them without a lock, and the reply to an
               apply has the value 0. Only with live

N is 1 to 20 decimal digits. An option is given once; its value is the next word, or follows `=`.

  --help, -h   writes this page
  --version    writes the version, and those of scripts and records

Each of these two stands alone.

Records are not written to a terminal: send them to a file, or through a pipe as `| cat`.

status: 0   the script was played, and its records or their summary were written
        1   wrong words, or records for a terminal; nothing is read or written
        2   the script is no scene; one record says at which line and word, and why
        3   reading failed
        4   writing failed
        5   out of memory

docs/SCRIPT.md says how to write a script, docs/RECORDS.md how to read the records, and
tools/records.py shows them as text, as pictures and as a timeline.";

const VERSION: &str = "sf_main 1.0.0 (scripts 1 and 2, records 1)";

/// What is written for a word that asks about the program, which stands alone.
pub fn text_about(words: &[String]) -> Option<&'static str> {
    match About::read(words)? {
        About::Help => Some(HELP),
        About::Version => Some(VERSION),
    }
}
