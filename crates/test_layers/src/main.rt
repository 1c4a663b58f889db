//! Runs of operations on layers, and of calls on regions, rows of pixels, pictures and fences: it
//! reads cases from standard input, does what they say to a layer tree, to two transactions and to
//! stacks of regions and pictures, and prints what comes of it. Empty lines and lines that begin
//! with `#` are skipped; a line that says nothing is reported.
//!
//! | Line | What it says |
//! |---|---|
//! | `case NAME` | a case begins: a tree for 256 layers, two empty transactions, no operations, and nothing else |
//! | `limit N` | the tree is a new one for at most N layers |
//! | `LAYER OPERATION` | an operation, kept with those before it |
//! | `many FROM TO` | `create colour root` of each number from one to another |
//! | `kinds` | each kept operation's kind, and whether it is in its range |
//! | `apply` | the kept operations are applied to the tree |
//! | `set` | the kept operations are set in the transaction |
//! | `order` | the layers, in the order in which they are drawn |
//! | `above LAYER` | a layer and its ancestors, from the layer up |
//! | `view WIDTH HEIGHT` | what a display shows; with layers after it, what it shows of these in order |
//! | `picture WIDTH HEIGHT FILL ..` | a picture of the next number, from 0; a fill is `X Y WIDTH HEIGHT R G B A` |
//! | `frame WIDTH HEIGHT` | the pixels of a display: how often each stands in a row, and its channels |
//! | `part WIDTH HEIGHT RECTANGLE ..` | the same after these were composed into a frame of sevens |
//! | `shows WIDTH HEIGHT` | the points at which each drawn layer shows, from the back; with layers after it, of these in order |
//! | `keep WIDTH HEIGHT` | what a display shows is kept as the view before; with layers after it, what it shows of these |
//! | `dirty WIDTH HEIGHT` | where what a display shows, of all or of these layers, differs from the view before |
//! | `seen WIDTH HEIGHT RECTANGLE ..` | as `part`, of each layer only what shows |
//! | `parallel WORKERS WIDTH HEIGHT RECTANGLE ..` | as `part`, by so many workers |
//! | `turns WORK N WIDTH HEIGHT` | the last of N frames in which this view and the view before take turns; WORK is `whole`, `again` or a number of workers |
//! | `marks N` | how many rectangles come of looking N times at what changed and what shows |
//! | `again WIDTH HEIGHT` | the pixels of a display, composed over those of the view before where the two differ |
//! | `buffer LAYER FRAME` | the transaction shows a frame of queue 1 on a layer |
//! | `barrier LAYER FRAME`, `token N`, `desire TIME` | what else a transaction holds |
//! | `show` | all that the transaction holds |
//! | `other` | the other transaction takes its place |
//! | `merge` | the other transaction is merged into it, and is empty then |
//! | `look N` | one look at each buffer of the transaction, by an eye that knows of N writes that ended; the page of number M is written by the M-th |
//! | `read N` | the transaction is taken apart, and each buffer that is written is read in two turns; it is empty then |
//! | `commit` | the transaction's operations are applied to the tree |
//!
//! `kinds`, `apply` and `set` take the kept operations; none are kept after them.
//!
//! These lines are shown with their answers where they ask something. A colour is a number in base 16
//! behind `#`, red in its highest byte; a RECT is a corner and a size; pixels are printed as those of
//! a frame.
//!
//! | Line | What it does |
//! |---|---|
//! | `region rect RECT`, `region moved RECT DX DY`, `region empty` | puts a region on the stack |
//! | `region union`, `intersect`, `subtract`, `same` | takes two, and puts a region or compares them |
//! | `region point X Y`, `region rects` | asks the uppermost |
//! | `row frame COLOUR ..`, `row source COLOUR ..` | two rows of pixels |
//! | `row row ALPHA`, `row opaque ALPHA`, `row colour COLOUR ALPHA` | paints over a copy of the frame |
//! | `row back`, `row column` | picks the source's pixels from its end back, or every fourth |
//! | `row mul A B`, `row over UNDER SOURCE ALPHA`, `row FORMAT COLOUR` | a channel, a pixel |
//! | `picture FORMAT NUMBER WIDTH HEIGHT`, `picture blank WIDTH HEIGHT`, `picture copy` | puts a picture on the stack |
//! | `picture fill RECT COLOUR`, `picture pixel X Y` | adds a fill to the uppermost, asks it |
//! | `picture same` | takes two and compares them |
//! | `picture paint`, `picture repaint` | takes one and paints it, anew or into the pixels that were painted last |
//! | `picture bytes`, `picture sums` | the pixels that were painted last, or the sums of their channels |
//! | `fence new`, `fence add TIMELINE VALUE`, `fence other TIMELINE VALUE`, `fence merge` | fences |
//! | `fence seen TIMELINE VALUE`, `fence open` | what was observed, and what waits |
//! | `status all` | the numbers of statuses |
#![tactic(auto)]

mod answer;
mod case;
mod compose;
mod fences;
mod fill;
mod frames;
mod line;
mod made;
mod operation;
mod pictures;
mod read;
mod regions;
mod rows;
mod scene;
mod show;

use case::Case;
use std::io;

fn main(rt: HostRuntime) -> io::Result<()> {
    let mut case = Case::new(rt.alloc())?;
    for line in rt.lines(rt.alloc()) {
        let line = line?;
        let line = line.trim();
        if !line.is_empty() && !line.starts_with('#') {
            case.follow(&rt, line)?;
        }
    }
    Ok(())
}
