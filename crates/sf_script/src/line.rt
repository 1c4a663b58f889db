//! The lines of a script, by their forms, as they are read.
use sf_base::Items;
use sf_script_scene::sf_picture::{Fill, Picture};
use sf_script_scene::{CaptureDecl, DisplayDecl, HitDecl, Pick, QueueDecl, Step};

/// The two sides of a queue.
#[derive(Clone, Copy)]
pub enum Side {
    Producer,
    Consumer,
}

/// A step that names a queue and nothing else.
#[derive(Clone, Copy)]
pub enum QueueForm {
    Connect,
    Disconnect,
    Abandon,
}

/// A step that names a timeline and a value.
#[derive(Clone, Copy)]
pub enum PointForm {
    Signal,
    Wait,
}

/// The form of a step. Steps of the same words stand together.
#[derive(Clone, Copy)]
pub enum StepForm {
    /// `connect Q`, `disconnect Q`, `abandon Q`
    OnQueue(QueueForm),
    /// `maxdequeued Q COUNT`, `maxacquired Q COUNT`
    Most(Side),
    /// `async Q FLAG`
    Async,
    /// `dequeue Q as S [size DW DH]`, and `dequeuewait` where it waits
    Dequeue(bool),
    /// `request S`
    Request,
    /// `draw S P`
    Draw,
    /// `queue S P [time TIME] [crop FX FY FW FH] [fence T V]*`
    Queue,
    /// `cancel S [fence T V]*`, `release I [fence T V]*`
    Return(Side),
    /// `pdetach S as B`, `cdetach I as B`
    Detach(Side),
    /// `pattach Q B as S`, `cattach Q B as I`
    Attach(Side),
    /// `acquire Q as I [at TIME]`
    Acquire,
    /// `signal T V`, `wait T V`
    OnPoint(PointForm),
    /// `tx N`
    Tx,
    /// `desire N TIME`
    Desire,
    /// `buffer N LAYER I`
    Buffer,
    /// `barrier N LAYER FRAME`
    Barrier,
    /// `merge N M`
    Merge,
    /// `apply N token TOKEN`
    Apply,
    /// `set N LAYER ..`
    Set,
}

/// What follows `set N LAYER`.
#[derive(Clone, Copy)]
pub enum ChangeForm {
    Create,
    Destroy,
    Reparent,
    Z,
    Relative,
    Position,
    Crop,
    Alpha,
    Hidden,
    Opaque,
    Colour,
    Backpressure,
    Orient,
}

/// The form of a line. `Queue` declares one; the step of that word is among the forms of steps.
#[derive(Clone, Copy)]
pub enum Keyword {
    Scene,
    Timeline,
    Display,
    Stack,
    Capture,
    Hit,
    Mirror,
    Queue,
    Picture,
    Fill,
    Actor,
    Step(StepForm),
    Order,
    End,
}

/// What a `scene` line says.
#[derive(Clone, Copy)]
pub struct Header {
    pub version: u32,
    pub width: u32,
    pub height: u32,
    pub period: u64,
}

/// A name that a step binds: its place among the names of the actor, and its text where no
/// earlier line bound it.
#[derive(Drop)]
pub struct BoundName {
    pub place: u32,
    pub new_name: Option<Items<u8>>,
}

/// A step, and the text of the name that it binds where no earlier line of its actor bound that
/// name.
#[derive(Drop)]
pub struct NamedStep {
    pub step: Step,
    pub new_name: Option<Items<u8>>,
}

/// A line that is not skipped.
#[derive(Drop)]
pub enum Line {
    Scene(Header),
    Timeline(u32),
    Display(DisplayDecl),
    /// A layer, and its stack.
    Stack(u32, u32),
    Capture(CaptureDecl),
    Hit(HitDecl),
    /// A layer, and the one that it mirrors.
    Mirror(u32, u32),
    Queue(QueueDecl),
    /// A picture without fills.
    Picture(Picture),
    Fill(Fill),
    Actor(u32),
    Step(NamedStep),
    Order(Items<Pick>),
    End,
}
