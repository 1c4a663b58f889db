//! What the first word of a line asks for.

/// What a line says that prints nothing.
#[derive(Clone, Copy)]
pub enum Keep {
    Limit,
    Many,
    View,
    Other,
    Token,
    Desire,
    Barrier,
}

/// What a line says of kept operations and transactions.
#[derive(Clone, Copy)]
pub enum Use {
    Kinds,
    Apply,
    Set,
    Commit,
    Merge,
    Show,
    Order,
}

/// What a line says of a layer or a count.
#[derive(Clone, Copy)]
pub enum Number {
    Above,
    Look,
    Read,
    Marks,
    Buffer,
}

/// What a line asks of a view.
#[derive(Clone, Copy)]
pub enum Look {
    View,
    Shows,
    Dirty,
}

/// What a line says of a region, a row, a picture, a fence or of statuses.
#[derive(Clone, Copy)]
pub enum Ask {
    Region,
    Row,
    Picture,
    Fence,
    Status,
}

/// What a line says.
#[derive(Clone, Copy)]
pub enum Line {
    Keep(Keep),
    Use(Use),
    Number(Number),
    Look(Look),
    /// It asks for pixels.
    Pixels,
    Ask(Ask),
}

/// The first words of lines. A line that begins with another one says an operation on a layer.
pub const LINES: &[(&str, Line)] = &[
    ("limit", Line::Keep(Keep::Limit)),
    ("many", Line::Keep(Keep::Many)),
    ("keep", Line::Keep(Keep::View)),
    ("other", Line::Keep(Keep::Other)),
    ("token", Line::Keep(Keep::Token)),
    ("desire", Line::Keep(Keep::Desire)),
    ("barrier", Line::Keep(Keep::Barrier)),
    ("kinds", Line::Use(Use::Kinds)),
    ("apply", Line::Use(Use::Apply)),
    ("set", Line::Use(Use::Set)),
    ("commit", Line::Use(Use::Commit)),
    ("merge", Line::Use(Use::Merge)),
    ("show", Line::Use(Use::Show)),
    ("order", Line::Use(Use::Order)),
    ("above", Line::Number(Number::Above)),
    ("look", Line::Number(Number::Look)),
    ("read", Line::Number(Number::Read)),
    ("marks", Line::Number(Number::Marks)),
    ("buffer", Line::Number(Number::Buffer)),
    ("view", Line::Look(Look::View)),
    ("shows", Line::Look(Look::Shows)),
    ("dirty", Line::Look(Look::Dirty)),
    ("frame", Line::Pixels),
    ("again", Line::Pixels),
    ("turns", Line::Pixels),
    ("part", Line::Pixels),
    ("parallel", Line::Pixels),
    ("seen", Line::Pixels),
    ("region", Line::Ask(Ask::Region)),
    ("row", Line::Ask(Ask::Row)),
    ("picture", Line::Ask(Ask::Picture)),
    ("fence", Line::Ask(Ask::Fence)),
    ("status", Line::Ask(Ask::Status)),
];
