//! The reader of an operation on a layer.
use sf_base::{LayerId, QueueId, Rect};
use sf_layer::{Kind, Op, Parent, Shown};
use std::str::SplitWhitespace;
use test_words::{any_layer, colour, coordinate, flag, named, number8, number32, number64, rect};

/// What a layer hangs from: the display, nothing, or the layer of a number.
fn parent(words: &mut SplitWhitespace<'_>) -> Option<Parent> {
    match words.next()? {
        "root" => Some(Parent::Root),
        "none" => Some(Parent::Nothing),
        number => Some(Parent::Layer(LayerId(number.parse().ok()?))),
    }
}

/// The words of the kinds of layers.
const KINDS: &[(&str, Kind)] = &[
    ("container", Kind::Container),
    ("colour", Kind::Colour),
    ("buffer", Kind::Buffer),
];

fn kind(words: &mut SplitWhitespace<'_>) -> Option<Kind> {
    named(KINDS, words.next()?)
}

fn shown(words: &mut SplitWhitespace<'_>) -> Option<Shown> {
    Some(Shown {
        queue: QueueId(number32(words)?),
        frame: number64(words)?,
        picture: number32(words)?,
        crop: rect(words)?,
    })
}

/// What makes, moves or removes a layer.
#[derive(Clone, Copy)]
enum Move {
    Create,
    Destroy,
    Reparent,
    Z,
    Relative,
    Position,
}

/// What changes how a layer looks.
#[derive(Clone, Copy)]
enum Look {
    Crop,
    Uncrop,
    Alpha,
    Hidden,
    Opaque,
    Colour,
    Backpressure,
    Show,
    Orient,
}

/// What a word asks for.
#[derive(Clone, Copy)]
enum Form {
    Move(Move),
    Look(Look),
}

/// The words of operations.
const FORMS: &[(&str, Form)] = &[
    ("create", Form::Move(Move::Create)),
    ("destroy", Form::Move(Move::Destroy)),
    ("reparent", Form::Move(Move::Reparent)),
    ("z", Form::Move(Move::Z)),
    ("relative", Form::Move(Move::Relative)),
    ("position", Form::Move(Move::Position)),
    ("crop", Form::Look(Look::Crop)),
    ("uncrop", Form::Look(Look::Uncrop)),
    ("alpha", Form::Look(Look::Alpha)),
    ("hidden", Form::Look(Look::Hidden)),
    ("opaque", Form::Look(Look::Opaque)),
    ("colour", Form::Look(Look::Colour)),
    ("backpressure", Form::Look(Look::Backpressure)),
    ("show", Form::Look(Look::Show)),
    ("orient", Form::Look(Look::Orient)),
];

/// An operation that makes, moves or removes a layer.
fn moving(what: Move, words: &mut SplitWhitespace<'_>) -> Option<Op> {
    match what {
        Move::Create => Some(Op::Create(kind(words)?, parent(words)?)),
        Move::Destroy => Some(Op::Destroy),
        Move::Reparent => Some(Op::Reparent(parent(words)?)),
        Move::Z => Some(Op::Z(coordinate(words)?)),
        Move::Relative => Some(Op::Relative(any_layer(words)?, coordinate(words)?)),
        Move::Position => Some(Op::Position(coordinate(words)?, coordinate(words)?)),
    }
}

/// An operation on how a layer looks.
fn looking(what: Look, words: &mut SplitWhitespace<'_>) -> Option<Op> {
    match what {
        Look::Crop => Some(Op::Crop(Some(rect(words)?))),
        Look::Uncrop => Some(Op::Crop(None)),
        Look::Alpha => Some(Op::Alpha(number8(words)?)),
        Look::Hidden => Some(Op::Hidden(flag(words)?)),
        Look::Opaque => Some(Op::Opaque(flag(words)?)),
        Look::Colour => Some(Op::Colour(colour(words)?)),
        Look::Backpressure => Some(Op::Backpressure(flag(words)?)),
        Look::Show => Some(Op::Show(shown(words)?)),
        Look::Orient => Some(Op::Orient(number8(words)?)),
    }
}

/// The operation that these words say.
pub fn parse(words: &mut SplitWhitespace<'_>) -> Option<Op> {
    match named(FORMS, words.next()?)? {
        Form::Move(what) => moving(what, words),
        Form::Look(what) => looking(what, words),
    }
}
