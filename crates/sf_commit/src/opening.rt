//! Takes the pixels of the buffers that are newly on layers out, once what goes has been handed
//! back.
ghost use Rattle.std.specs.List.{All};
ghost use Rattle.std.specs.Option.{option_to_list};
ghost use Rattle.std.specs.Prelude.{◌≡◌, ◌<◌, ◌++◌, false, [], IfOk, None, OnOk, length, map};
ghost use Rattle.sf_commit.specs.Inside.{here_of, place_of};
ghost use Rattle.sf_commit.specs.Leases.{AllOn, IsKnownOn, ShowsLease, here_if, pictures_here};
ghost use Rattle.sf_commit.specs.OnLayers.{shown_on};
ghost use Rattle.sf_commit_next.specs.sf_txn.Leases.{IsEyeAfter};

use crate::on::{OnLayer, Pixels, TakenPixels};
use sf_base::{LayerId, NoMemory};
use sf_commit_next::Lease;
use sf_view::sf_layer::Shown;
use sf_view::sf_picture::Painted;
use std::alloc::Global;
use std::marker::Model;
use std::vec;

/// A buffer on a layer, whose pixels are out.
#[derive(Drop)]
pub(crate) struct Reading<L: Lease> {
    pub layer: LayerId,
    pub shown: Shown,
    pub reading: L::Reading,
    /// The place of its pixels among those that are lent, if they are.
    pub place: Option<usize>,
}

impl<L: Lease> Model for Reading<L> {
    ghost use Rattle.std.specs.Prelude.{true};
    ghost use Rattle.sf_base.specs.Fences.{no_points};
    ghost use Rattle.sf_commit.specs.OnLayers.{OnLayer};
    ghost use Rattle.sf_commit_next.specs.sf_txn.Buffers.{Shows};

    ghost Value = { OnLayer L };

    ghost view = { λ r. record {
      layer = r.layer;
      shown = r.shown;
      fence = no_points;
      lease = L.opened r.reading;
      is_read = true;
      place = r.place;
    } };

    ghost invariant = { λ r. Shows r.shown (L.picture (L.opened r.reading)) };
}

/// The pixels of a buffer: those that are lent at its place, or the next of these.
pub(crate) fn taken_at(place: Option<usize>, pixels: &mut vec::IntoIter<Painted>) -> TakenPixels
    requires { place ≡ None → 0 < length pixels.old.rest.items }
    ensures place { place_of result ≡ place }
    ensures here { here_of result ++ pixels.new.rest.items ≡ pixels.old.rest.items }
{
    match place {
        Some(place) => TakenPixels::Lent(place),
        None => match pixels.next() {
            Some(painted) => TakenPixels::Here(painted),
            None => unreachable!(),
        },
    }
}

/// Where pixels are lent, and the pixels where they are at hand.
fn apart(taken: TakenPixels) -> (Option<usize>, Option<Painted>)
    ensures place { result.0 ≡ place_of taken }
    ensures here { option_to_list result.1 ≡ here_of taken }
{
    match taken {
        TakenPixels::Here(painted) => (None, Some(painted)),
        TakenPixels::Lent(place) => (Some(place), None),
    }
}

/// Takes the pixels of a buffer out, where they are not out yet, and returns them where they are at
/// hand.
fn open_one<L: Lease + Drop>(eye: &mut L::Eye, one: OnLayer<L>) -> (Reading<L>, Option<Painted>)
    requires fits { L.fits (L.mark eye.old) one.lease }
    requires known { one.is_read ≡ false → L.knows eye.old one.lease }
    ensures reading { result.0 ≡ shown_on one }
    ensures picture { option_to_list result.1 ≡ here_if one.place (L.picture one.lease) }
    ensures crop { ShowsLease L.Lease result.0 }
    ensures eye { IsEyeAfter L.Lease eye.old eye.new [] }
{
    let OnLayer {
        layer,
        shown,
        pixels,
    } = one;
    let (reading, place, painted) = match pixels {
        Pixels::Read(reading, taken) => {
            let (place, painted) = apart(taken);
            (reading, place, painted)
        }
        Pixels::Brought(_fence, lease) => {
            let (reading, painted) = lease.open(eye);
            (reading, None, Some(painted))
        }
    };
    let reading = Reading {
        layer,
        shown,
        reading,
        place,
    };
    (reading, painted)
}

/// Appends pixels to a list, if there are any.
fn add_painted(contents: &mut Vec<Painted>, painted: Option<Painted>) -> Result<(), NoMemory>
    ensures { OnOk result (contents.new.items ≡ contents.old.items ++ option_to_list painted) }
{
    if let Some(painted) = painted {
        contents.push(painted)?;
    }
    Ok(())
}

/// Takes the pixels of all buffers on layers out, in their order, where they are not out yet.
pub(crate) fn open_all<L: Lease + Drop>(
    eye: &mut L::Eye,
    on: Vec<OnLayer<L>>,
    readings: &mut Vec<Reading<L>>,
    contents: &mut Vec<Painted>,
) -> Result<(), NoMemory>
where
    L::Reading: Drop,
    requires fits { AllOn (L.fits (L.mark eye.old)) on.items }
    requires known { All (IsKnownOn L.Lease eye.old) on.items }
    ensures readings { OnOk result (readings.new.items ≡ readings.old.items ++ map shown_on on.items) }
    ensures contents { OnOk result (contents.new.items ≡ contents.old.items ++ pictures_here L.Lease on.items) }
    ensures crops { OnOk result (All (ShowsLease L.Lease) readings.old.items → All (ShowsLease L.Lease) readings.new.items) }
    ensures eye { IsEyeAfter L.Lease eye.old eye.new [] }
{
    for one in on {
        let (reading, painted) = open_one(eye, one);
        readings.push(reading)?;
        add_painted(contents, painted)?;
    }
    Ok(())
}

/// The buffers on layers, each with its pixels, which are out. These are the ones at hand.
pub(crate) fn gather<L: Lease + Drop>(
    alloc: Global,
    readings: Vec<Reading<L>>,
    contents: Vec<Painted>,
) -> Result<Vec<OnLayer<L>>, NoMemory>
where
    L::Reading: Drop,
    requires { contents.items ≡ pictures_here L.Lease readings.items }
    ensures { IfOk result (λ on. on.items ≡ readings.items) }
{
    let mut on = Vec::new(alloc);
    let mut pixels = contents.into_iter();
    for reading in readings {
        let Reading {
            layer,
            shown,
            reading,
            place,
        } = reading;
        let taken = taken_at(place, &mut pixels);
        on.push(OnLayer {
            layer,
            shown,
            pixels: Pixels::Read(reading, taken),
        })?;
    }
    Ok(on)
}
