//! A write that is owed is done on one thread, while another has the right to read what it leaves.
ghost use Rattle.std.specs.Prelude.{◌≡◌, true, IfOk};
ghost use Rattle.sf_picture.specs.Pixels.{HasSize};

use sf_base::{NoMemory, Rect, Rgba};
use sf_picture::{Fill, Painted, Picture, blank, paint};
use sf_turns::{Owed, Stamped, Turn, TurnSeat, open_turns};
use std::alloc::Global;
use std::thread::{Threads, join};

/// A picture of one red pixel.
fn red(alloc: Global) -> Result<Picture, NoMemory>
    ensures { IfOk result (λ p. HasSize p × (p.width ≡ 1) × (p.height ≡ 1)) }
{
    let mut picture = blank(alloc, 1, 1);
    let fill = Fill {
        rect: Rect {
            x: 0,
            y: 0,
            width: 1,
            height: 1,
        },
        colour: Rgba {
            r: 255,
            g: 0,
            b: 0,
            a: 255,
        },
    };
    picture.fills.push(fill)?;
    Ok(picture)
}

/// A write that is owed, with the picture that it promised, and the right to read what it leaves.
#[derive(Drop)]
struct Promised {
    seat: TurnSeat<Painted>,
    owed: Owed<Painted>,
    heir: Turn<Painted>,
    picture: Picture,
    ghost own: { owed.table ≡ seat.table },
    ghost next: { heir.table ≡ seat.table },
    ghost leads: { seat.is_first ≡ true },
    ghost promise: { owed.promises ≡ picture },
    ghost size: { HasSize picture },
    ghost width: { owed.expects.width ≡ picture.width },
    ghost height: { owed.expects.height ≡ picture.height },
}

/// A new buffer of one blank pixel, whose turn 0 is owed with the promise of a red one.
fn promise(alloc: Global) -> Result<Promised, NoMemory> {
    let (seat, mut stock) = open_turns::<Painted>(alloc, 1)?;
    let permit = stock.one()?;
    let Ok(pixels) = paint(alloc, blank(alloc, 1, 1)) else {
        return Err(NoMemory);
    };
    let Ok(turn) = permit.open(pixels) else {
        return Err(NoMemory);
    };
    let picture = red(alloc)?;
    let Ok((owed, heir)) = turn.issue(Painted::copy_stamp(alloc, &picture)?) else {
        return Err(NoMemory);
    };
    Ok(Promised {
        seat,
        owed,
        heir,
        picture,
    })
}

/// Does the write that is owed, where all turns before it have left.
fn write(seat: TurnSeat<Painted>, owed: Owed<Painted>, picture: Picture) -> TurnSeat<Painted>
    requires table { owed.table ≡ seat.table }
    requires size { HasSize picture }
    requires same_width { owed.expects.width ≡ picture.width }
    requires same_height { owed.expects.height ≡ picture.height }
    requires promise { owed.promises ≡ picture }
    ensures { result.table ≡ seat.table }
{
    let mut seat = seat;
    match owed.enter(&mut seat) {
        Ok((busy, pixels)) => busy.leave(&mut seat, pixels.repaint(picture)),
        Err(_owed) => {}
    }
    seat
}

/// How often a reader loads before it gives up.
const ATTEMPTS: u32 = 1_000_000_000;

/// Loads until the turn is ready, and then reads the first byte of the pixels.
fn read(seat: TurnSeat<Painted>, turn: Turn<Painted>) -> (TurnSeat<Painted>, Option<u8>)
    requires table { turn.table ≡ seat.table }
    ensures { result.0.table ≡ seat.table }
{
    let mut seat = seat;
    let mut turn = turn;
    for _ in 0..ATTEMPTS {
        if turn.ready(&mut seat) {
            break;
        }
    }
    match turn.enter(&mut seat) {
        Ok((_inside, pixels)) => (seat, pixels.bytes().first().copied()),
        Err(_turn) => (seat, None),
    }
}

/// The first byte that the reader found.
fn write_and_read<R: Threads>(rt: &R, alloc: Global) -> Result<Option<u8>, NoMemory> {
    let Promised {
        mut seat,
        owed,
        heir,
        picture,
    } = promise(alloc)?;
    let writer = seat.split()?;
    let reader = seat.split()?;
    let (writer, (reader, byte)) = join(
        rt,
        move || -> TurnSeat<Painted>
            requires table { owed.table ≡ writer.table }
            requires size { HasSize picture }
            requires same_width { owed.expects.width ≡ picture.width }
            requires same_height { owed.expects.height ≡ picture.height }
            requires promise { owed.promises ≡ picture }
            ensures { result.table ≡ writer.table }
        { write(writer, owed, picture) },
        move || -> (TurnSeat<Painted>, Option<u8>)
            requires { heir.table ≡ reader.table }
            ensures { result.0.table ≡ reader.table }
        { read(reader, heir) },
    );
    seat.join(writer);
    seat.join(reader);
    Ok(byte)
}

/// The same so often: how many of the readers found what was promised.
pub fn play<R: Threads>(rt: &R, alloc: Global, rounds: u64) -> u64 {
    let mut found = 0u64;
    for _ in 0..rounds {
        if let Ok(Some(255)) = write_and_read(rt, alloc) {
            found = found.saturating_add(1);
        }
    }
    found
}
