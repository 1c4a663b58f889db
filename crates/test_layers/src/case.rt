//! A case of layers, transactions and pixels: does what each of its lines says, and prints what
//! that answers.
use crate::answer::Answer;
use crate::compose::Composer;
use crate::line::{Ask, Keep, LINES, Line, Look, Number, Use};
use crate::made::Made;
use crate::{answer, compose, fill, frames, operation, read, scene, show};
use sf_base::{LayerId, NoMemory, TokenId};
use sf_layer::{Kind, Op, Parent};
use sf_picture::Painted;
use sf_tree::Tree;
use sf_txn::Transaction;
use sf_view::View;
use std::alloc::{AllocError, Global};
use std::str::SplitWhitespace;
use std::thread::Threads;
use std::{io, mem};
use test_leases::Page;
use test_words::{any_layer, named, number32, number64};

/// What a case has come to.
#[derive(Drop)]
pub struct Case {
    alloc: Global,
    tree: Tree,
    ops: Vec<(LayerId, Op)>,
    contents: Vec<Painted>,
    txn: Transaction<Page>,
    other: Transaction<Page>,
    before: Option<View>,
    made: Made,
}

/// A tree for at most as many layers as a line says.
fn limited(alloc: Global, words: &mut SplitWhitespace<'_>) -> Option<Tree> {
    let most = number32(words)?;
    if most > 9216 {
        return None;
    }
    Tree::with_limit(alloc, most).ok()
}

/// Operations that create layers from one number to another.
fn many(alloc: Global, words: &mut SplitWhitespace<'_>) -> Option<Vec<(LayerId, Op)>> {
    let from = number32(words)?;
    let to = number32(words)?;
    let mut ops = Vec::new(alloc);
    for number in from..=to {
        ops.push((LayerId(number), Op::Create(Kind::Colour, Parent::Root)))
            .ok()?;
    }
    Some(ops)
}

/// The kept operations, which are none then.
fn take_ops(alloc: Global, ops: &mut Vec<(LayerId, Op)>) -> Vec<(LayerId, Op)> {
    mem::replace(ops, Vec::new(alloc))
}

/// Keeps the operation on a layer that a line says.
fn keep_operation(
    ops: &mut Vec<(LayerId, Op)>,
    layer: &str,
    words: &mut SplitWhitespace<'_>,
) -> Option<()> {
    let layer = LayerId(layer.parse().ok()?);
    ops.push((layer, operation::parse(words)?)).ok()
}

impl Case {
    pub fn new(alloc: Global) -> Result<Case, AllocError> {
        match Tree::new(alloc) {
            Ok(tree) => Ok(Case {
                alloc,
                tree,
                ops: Vec::new(alloc),
                contents: Vec::new(alloc),
                txn: Transaction::new(alloc),
                other: Transaction::new(alloc),
                before: None,
                made: Made::new(alloc),
            }),
            Err(NoMemory) => Err(AllocError),
        }
    }

    /// Keeps what a line says.
    fn keep(&mut self, what: Keep, words: &mut SplitWhitespace<'_>) -> Option<()> {
        match what {
            Keep::Limit => self.tree = limited(self.alloc, words)?,
            Keep::Many => self.ops = many(self.alloc, words)?,
            Keep::View => self.before = Some(scene::viewed(self.alloc, &self.tree, words)?),
            Keep::Other => mem::swap(&mut self.txn, &mut self.other),
            Keep::Token => self.txn.address(TokenId(number32(words)?)),
            Keep::Desire => self.txn.desire(number64(words)?),
            Keep::Barrier => {
                let layer = any_layer(words)?;
                self.txn.add_barrier(layer, number64(words)?).ok()?;
            }
        }
        Some(())
    }

    /// Does what a line says of kept operations and transactions.
    fn use_kept(&mut self, rt: &impl Print, what: Use) -> io::Result<()> {
        match what {
            Use::Kinds => scene::kinds(rt, &take_ops(self.alloc, &mut self.ops)),
            Use::Apply => {
                let ops = take_ops(self.alloc, &mut self.ops);
                scene::apply(rt, &mut self.tree, &ops)
            }
            Use::Set => {
                let ops = take_ops(self.alloc, &mut self.ops);
                fill::set_all(rt, &mut self.txn, &ops)
            }
            Use::Commit => match self.txn.ops() {
                Ok(ops) => scene::apply(rt, &mut self.tree, ops.as_slice()),
                Err(NoMemory) => println!(rt; "commit: no memory"),
            },
            Use::Merge => fill::merge(rt, self.alloc, &mut self.txn, &mut self.other),
            Use::Show => fill::show_all(rt, &self.txn),
            Use::Order => scene::order(rt, &self.tree),
        }
    }

    /// Does what a line says of a layer or a count.
    fn use_number(
        &mut self,
        rt: &impl Print,
        what: Number,
        words: &mut SplitWhitespace<'_>,
    ) -> Option<io::Result<()>> {
        let number = number32(words)?;
        let alloc = self.alloc;
        let printed = match what {
            Number::Above => scene::above(rt, alloc, &self.tree, LayerId(number)),
            Number::Look => read::look(rt, alloc, &mut self.txn, number),
            Number::Read => {
                let txn = mem::replace(&mut self.txn, Transaction::new(alloc));
                read::read(rt, alloc, txn, number)
            }
            Number::Marks => frames::marked(rt, alloc, &self.tree, &self.before, number),
            Number::Buffer => {
                let frame = number32(words)?;
                fill::set_buffer(rt, alloc, &mut self.txn, LayerId(number), frame)
            }
        };
        Some(printed)
    }

    /// Prints what a line asks of a view.
    fn look_at(
        &self,
        rt: &impl Print,
        what: Look,
        words: &mut SplitWhitespace<'_>,
    ) -> Option<io::Result<()>> {
        let view = scene::viewed(self.alloc, &self.tree, words)?;
        match (what, &self.before) {
            (Look::View, _) => Some(show::view(rt, &view)),
            (Look::Shows, _) => Some(frames::shows(rt, self.alloc, &view)),
            (Look::Dirty, Some(before)) => Some(frames::changed(rt, self.alloc, before, &view)),
            (Look::Dirty, None) => None,
        }
    }

    /// The pixels that a line asks for.
    fn pixels<R: Threads + Sync>(
        &self,
        rt: &R,
        name: &str,
        words: &mut SplitWhitespace<'_>,
    ) -> Option<Vec<u8>> {
        let (alloc, contents) = (self.alloc, self.contents.as_slice());
        match name {
            "frame" => {
                let view = scene::viewed(alloc, &self.tree, words)?;
                compose::whole(alloc, &view, contents)
            }
            "again" | "turns" => {
                let (work, count) = frames::turns_asked(name, words)?;
                let view = scene::viewed(alloc, &self.tree, words)?;
                let before = self.before.as_ref()?;
                let composer = Composer { rt, alloc, work };
                frames::turns(&composer, count, before, &view, contents)
            }
            _ => {
                let work = frames::part_asked(name, words)?;
                let view = scene::sized(alloc, &self.tree, words)?;
                let composer = Composer { rt, alloc, work };
                frames::part(&composer, &view, contents, words)
            }
        }
    }

    /// Does what a line says of regions, rows, pictures, fences and statuses.
    fn answer_to(&mut self, what: Ask, words: &mut SplitWhitespace<'_>) -> Option<Answer> {
        let form = words.next()?;
        match what {
            Ask::Region => self.made.region(form, words),
            Ask::Row => self.made.row(form, words),
            Ask::Fence => self.made.fence(form, words),
            Ask::Picture => match form.parse() {
                Ok(width) => {
                    let number = self.contents.len();
                    let picture = compose::painted(self.alloc, number, width, words)?;
                    self.contents.push(picture).ok()?;
                    Some(Answer::Done)
                }
                Err(_) => self.made.picture(form, words),
            },
            Ask::Status => Some(Answer::Statuses),
        }
    }

    /// Does what a line says. None where it says nothing.
    fn use_line<R: Print + Threads + Sync>(
        &mut self,
        rt: &R,
        line: &str,
    ) -> Option<io::Result<()>> {
        let mut words = line.split_whitespace();
        let name = words.next()?;
        match named(LINES, name) {
            Some(Line::Keep(what)) => {
                self.keep(what, &mut words)?;
                Some(Ok(()))
            }
            Some(Line::Use(what)) => Some(self.use_kept(rt, what)),
            Some(Line::Number(what)) => self.use_number(rt, what, &mut words),
            Some(Line::Look(what)) => self.look_at(rt, what, &mut words),
            Some(Line::Pixels) => {
                let pixels = self.pixels(rt, name, &mut words);
                Some(show::frame(rt, name, pixels))
            }
            Some(Line::Ask(what)) => {
                let answer = self.answer_to(what, &mut words)?;
                Some(answer::print(rt, line, &answer))
            }
            None => {
                keep_operation(&mut self.ops, name, &mut words)?;
                Some(Ok(()))
            }
        }
    }

    /// Does what a line says, or reports that it says nothing.
    pub fn follow<R: Print + Threads + Sync>(&mut self, rt: &R, line: &str) -> io::Result<()> {
        if line.starts_with("case ") {
            println!(rt; "{line}")?;
            *self = Case::new(self.alloc)?;
            return Ok(());
        }
        match self.use_line(rt, line) {
            Some(printed) => printed,
            None => println!(rt; "{line}: says nothing"),
        }
    }
}
