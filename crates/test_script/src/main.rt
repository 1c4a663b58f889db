//! What is read of scripts and of words. Standard input is a table of parts, each behind a title:
//!
//! | Title | The part, and what is printed of it |
//! |---|---|
//! | `== NAME` | a script: what `parse` says of it |
//! | `=+ LINE` | the last script behind a `==`, with this line and those that follow behind it |
//! | `=< NAME` | a script that is tried cut after each of its bytes, too, with a line for each run of cuts of which the same is said |
//! | `=# NUMBER` | the script that this number generates, which is written behind what is said of it |
//! | `=? NAME` | lines of words, which single spaces separate; `""` is the empty word: for each line what its words ask of the program |
//!
//! Of a script `scene` is said, or the line, the word and the cause of its first fault. A line
//! `*N LINE` stands for N equal lines.
#![tactic(auto)]

mod asked;
mod scripts;

use scripts::told;
use std::io::{self, Read, Write};

fn main(rt: HostRuntime) -> io::Result<()> {
    let mut table = Vec::new(rt.alloc());
    rt.reader().read_to_end(&mut table)?;
    match told(rt.alloc(), &table) {
        Ok(told) => io::writer(&rt).write_all(&told),
        Err(_) => println!(rt; "no memory"),
    }
}
