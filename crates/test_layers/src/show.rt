//! Views, operations, rectangles and pixels as lines of text.
use sf_base::{LayerId, Rect};
use sf_layer::{Kind, Op, Parent, Shown};
use sf_view::{Content, Drawn, View};
use std::io;

fn rect(rt: &impl Print, rect: &Rect) -> io::Result<()> {
    print!(rt; " {} {} {} {}", rect.x, rect.y, rect.width, rect.height)
}

fn shown(rt: &impl Print, shown: &Shown) -> io::Result<()> {
    print!(rt; " {} {} {}", shown.queue.0, shown.frame, shown.picture)?;
    rect(rt, &shown.crop)
}

fn content(rt: &impl Print, content: &Content) -> io::Result<()> {
    match content {
        Content::Colour(c) => print!(rt; " colour {} {} {} {}", c.r, c.g, c.b, c.a),
        Content::Buffer(buffer) => {
            print!(rt; " buffer")?;
            shown(rt, buffer)
        }
    }
}

fn drawn(rt: &impl Print, drawn: &Drawn) -> io::Result<()> {
    print!(rt; "  {} clip", drawn.layer.0)?;
    rect(rt, &drawn.clip)?;
    let opaque = if drawn.opaque { " opaque" } else { "" };
    print!(rt;
        " at {} {} alpha {} orient {}{opaque}",
        drawn.place.0, drawn.place.1, drawn.alpha, drawn.orient
    )?;
    content(rt, &drawn.content)?;
    println!(rt; "")
}

/// Prints a view, a line for each drawn layer, from the back.
pub fn view(rt: &impl Print, view: &View) -> io::Result<()> {
    println!(rt; "view {} x {}:", view.width, view.height)?;
    for layer in view.drawn.as_slice() {
        drawn(rt, layer)?;
    }
    Ok(())
}

fn parent(rt: &impl Print, parent: Parent) -> io::Result<()> {
    match parent {
        Parent::Root => print!(rt; " root"),
        Parent::Layer(id) => print!(rt; " {}", id.0),
        Parent::Nothing => print!(rt; " none"),
    }
}

fn kind_name(kind: Kind) -> &'static str {
    match kind {
        Kind::Container => "container",
        Kind::Colour => "colour",
        Kind::Buffer => "buffer",
    }
}

/// Prints an operation that moves a layer in the tree.
fn moving(rt: &impl Print, op: &Op) -> io::Result<()> {
    match *op {
        Op::Create(kind, above) => {
            print!(rt; " create {}", kind_name(kind))?;
            parent(rt, above)
        }
        Op::Destroy => print!(rt; " destroy"),
        Op::Reparent(above) => {
            print!(rt; " reparent")?;
            parent(rt, above)
        }
        Op::Z(z) => print!(rt; " z {z}"),
        Op::Relative(other, z) => print!(rt; " relative {} {z}", other.0),
        Op::Position(x, y) => print!(rt; " position {x} {y}"),
        _ => Ok(()),
    }
}

/// The word of a flag.
pub fn flag_name(flag: bool) -> &'static str {
    if flag { "yes" } else { "no" }
}

/// Prints an operation that changes how a layer looks.
fn looking(rt: &impl Print, op: &Op) -> io::Result<()> {
    match op {
        Op::Crop(None) => print!(rt; " uncrop"),
        Op::Crop(Some(crop)) => {
            print!(rt; " crop")?;
            rect(rt, crop)
        }
        Op::Alpha(alpha) => print!(rt; " alpha {alpha}"),
        Op::Hidden(hidden) => print!(rt; " hidden {}", flag_name(*hidden)),
        Op::Opaque(opaque) => print!(rt; " opaque {}", flag_name(*opaque)),
        Op::Colour(c) => print!(rt; " colour {} {} {} {}", c.r, c.g, c.b, c.a),
        Op::Backpressure(on) => print!(rt; " backpressure {}", flag_name(*on)),
        Op::Show(buffer) => {
            print!(rt; " show")?;
            shown(rt, buffer)
        }
        Op::Orient(orient) => print!(rt; " orient {orient}"),
        _ => Ok(()),
    }
}

/// Prints an operation as the input writes it.
pub fn operation(rt: &impl Print, layer: LayerId, op: &Op) -> io::Result<()> {
    print!(rt; "  {}", layer.0)?;
    moving(rt, op)?;
    looking(rt, op)?;
    println!(rt; "")
}

/// Prints rectangles, or that there are none.
pub fn rects(rt: &impl Print, rects: &[Rect]) -> io::Result<()> {
    if rects.is_empty() {
        print!(rt; " nothing")?;
    }
    for rect in rects {
        print!(rt; " [{} {} {} {}]", rect.x, rect.y, rect.width, rect.height)?;
    }
    println!(rt)
}

/// Prints so many pixels of one colour as one line.
fn print_run(rt: &impl Print, count: u32, pixel: Option<[u8; 4]>) -> io::Result<()> {
    let Some(pixel) = pixel else {
        return Ok(());
    };
    let [r, g, b, a] = pixel;
    println!(rt; "  {count} x {r} {g} {b} {a}")
}

/// Prints pixels as runs of equal pixels, row after row.
pub fn pixels(rt: &impl Print, bytes: &[u8]) -> io::Result<()> {
    let mut count = 0u32;
    let mut last = None;
    let mut rest = bytes;
    while let [r, g, b, a, after @ ..] = rest {
        let pixel = Some([*r, *g, *b, *a]);
        if pixel != last {
            print_run(rt, count, last)?;
            count = 0;
            last = pixel;
        }
        count = count.saturating_add(1);
        rest = after;
    }
    print_run(rt, count, last)
}

/// Prints the pixels of what a line asks for, or that there are none.
pub fn frame(rt: &impl Print, name: &str, bytes: Option<Vec<u8>>) -> io::Result<()> {
    match bytes {
        Some(bytes) => {
            println!(rt; "{name}:")?;
            pixels(rt, &bytes)
        }
        None => println!(rt; "{name}: nothing to show"),
    }
}
