//! The report of a vsync in memory of its own: it is handed up from the player to the writer of its
//! records, inside types that should stay small.
ghost use Rattle.std.specs.Prelude.{◌≡◌, IfOk};

use sf_base::NoMemory;
use sf_play_report::VsyncReport;
use std::alloc::Global;
use std::marker::Model;

/// The report of a vsync in a block of memory of its own, so that what may hold one is small.
#[derive(Drop)]
pub struct KeptReport {
    report: Box<VsyncReport>,
}

impl Model for KeptReport {
    ghost use Rattle.sf_play_report.specs.declared.report.VsyncReport.{VsyncReport};

    ghost Value = { VsyncReport };

    ghost view = { λ kept. kept.report.value };
}

impl KeptReport {
    /// Its only error is out of memory.
    pub fn new(alloc: Global, report: VsyncReport) -> Result<KeptReport, NoMemory>
        ensures { IfOk result (λ kept. kept ≡ report) }
    {
        Ok(KeptReport {
            report: Box::new(alloc, report)?,
        })
    }

    /// The report itself.
    pub fn into_report(self) -> VsyncReport
        ensures { result ≡ self }
    {
        let KeptReport { report } = self;
        Box::into_inner(report)
    }
}
