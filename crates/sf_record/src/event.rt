//! What a turn of a run shows, a reply or a vsync, and the records that it comes to.
ghost use Rattle.std.specs.Prelude.{◌≡◌, ◌++◌, IfOk, OnOk, map};
ghost use Rattle.sf_record.specs.declared.record.Record.TheVariants as rec;
ghost use Rattle.sf_record.specs.Events.{event_records, image_record, output_record, vsync_records};

use crate::record::{
    CommitRecord, Frame, Hit, NumberedFrame, Record, ReplyRecord, TimelineValue, VsyncHeader,
};
use sf_base::{Items, NoMemory};
use sf_output::{Image, ImageId, Output};
use std::alloc::Global;

/// What a vsync committed, and what it shows, each image as its pixels.
#[derive(Drop)]
pub struct VsyncRecords {
    pub number: u32,
    /// When the frame is expected, in nanoseconds from the start of the run.
    pub expected: u64,
    pub timelines: Items<TimelineValue>,
    pub commits: Items<CommitRecord>,
    pub shown: Items<Output<Items<u8>>>,
}

/// What a pick shows, where it shows something.
#[derive(Drop)]
pub enum Event {
    Reply(ReplyRecord),
    Vsync(VsyncRecords),
}

/// The record of an image in the vsync of this number.
fn image_record(number: u32, image: Image<Items<u8>>) -> Record
    ensures { result ≡ image_record image.of number image.shows }
{
    let Image { of, shows: pixels } = image;
    match of {
        ImageId::Frame => Record::Fram(Frame { number, pixels }),
        ImageId::Display(output) => Record::Frad(NumberedFrame {
            output,
            number,
            pixels,
        }),
        ImageId::Capture(output) => Record::Capt(NumberedFrame {
            output,
            number,
            pixels,
        }),
    }
}

/// The record of what a vsync of this number shows.
fn output_record(number: u32, output: Output<Items<u8>>) -> Record
    ensures { result ≡ output_record number output }
{
    match output {
        Output::Image(image) => image_record(number, image),
        Output::Hit(output, layer) => Record::Hits(Hit {
            output,
            number,
            layer,
        }),
    }
}

/// The head of a vsync, its commits, and its outputs, in this order.
fn vsync_record_list(alloc: Global, report: VsyncRecords) -> Result<Vec<Record>, NoMemory>
    ensures { IfOk result (λ v. v.items ≡ vsync_records report) }
{
    let VsyncRecords {
        number,
        expected,
        timelines,
        commits,
        shown,
    } = report;
    let mut records = Vec::new(alloc);
    records.push(Record::Vsyn(VsyncHeader {
        number,
        expected,
        timelines,
    }))?;
    let mut commit_records: Vec<Record> = commits
        .into_vec()
        .into_iter()
        .map(Record::Comm)
        .collect(alloc)?;
    records.append(&mut commit_records)?;
    for output in shown.into_vec() {
        records.push(output_record(number, output))?;
    }
    Ok(records)
}

/// The records of an event, in order.
pub fn records(alloc: Global, event: Event) -> Result<Vec<Record>, NoMemory>
    ensures { IfOk result (λ v. v.items ≡ event_records event) }
{
    match event {
        Event::Reply(reply) => {
            let mut records = Vec::new(alloc);
            records.push(Record::Repl(reply))?;
            Ok(records)
        }
        Event::Vsync(report) => vsync_record_list(alloc, report),
    }
}
