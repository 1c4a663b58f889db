//! What the first word of a line asks for.

/// What the next transaction, or the decision of a hold, is given for a layer.
#[derive(Clone, Copy)]
pub enum Change {
    Create,
    Destroy,
    Press,
    Calm,
    Barrier,
    Frame,
    Fresh,
    Pressed,
}

/// What is observed, or given to the next transaction or the decision of a hold, of no layer.
#[derive(Clone, Copy)]
pub enum Observe {
    Desire,
    Writes,
    Seen,
    BeginVsync,
    ClearPressed,
}

/// What is looked for in the queues of tokens.
#[derive(Clone, Copy)]
pub enum Find {
    /// The first transaction of a token.
    Head,
    /// The same, which is taken out.
    Pop,
    /// The transaction of a number.
    Number,
}

/// What answers something, without a call under the lock.
#[derive(Clone, Copy)]
pub enum Tell {
    Ask,
    Arrivals,
    Give,
    Look,
    Tokens,
    Find(Find),
}

/// What a line asks for.
#[derive(Clone, Copy)]
pub enum Form {
    Case,
    Page,
    Behind,
    Send,
    Take,
    Vsync,
    Lend,
    Tell(Tell),
    Observe(Observe),
    Change(Change),
}

/// The first words of lines.
pub const FORMS: &[(&str, Form)] = &[
    ("case", Form::Case),
    ("page", Form::Page),
    ("behind", Form::Behind),
    ("send", Form::Send),
    ("take", Form::Take),
    ("vsync", Form::Vsync),
    ("lend", Form::Lend),
    ("ask", Form::Tell(Tell::Ask)),
    ("arrivals", Form::Tell(Tell::Arrivals)),
    ("give", Form::Tell(Tell::Give)),
    ("look", Form::Tell(Tell::Look)),
    ("tokens", Form::Tell(Tell::Tokens)),
    ("head", Form::Tell(Tell::Find(Find::Head))),
    ("pop", Form::Tell(Tell::Find(Find::Pop))),
    ("number", Form::Tell(Tell::Find(Find::Number))),
    ("desire", Form::Observe(Observe::Desire)),
    ("writes", Form::Observe(Observe::Writes)),
    ("seen", Form::Observe(Observe::Seen)),
    ("begin-vsync", Form::Observe(Observe::BeginVsync)),
    ("clear-pressed", Form::Observe(Observe::ClearPressed)),
    ("create", Form::Change(Change::Create)),
    ("destroy", Form::Change(Change::Destroy)),
    ("press", Form::Change(Change::Press)),
    ("calm", Form::Change(Change::Calm)),
    ("barrier", Form::Change(Change::Barrier)),
    ("frame", Form::Change(Change::Frame)),
    ("fresh", Form::Change(Change::Fresh)),
    ("pressed", Form::Change(Change::Pressed)),
];
