//! Calls on the turns of a few buffers, through a first seat and one that is split off it.
ghost use Rattle.std.specs.Prelude.{◌≡◌, true, length};
ghost use Rattle.std.specs.Option.{ForSome};

use crate::answer::Answer;
use crate::counted::{Counted, Drops};
use crate::seat::Seat;
use crate::token::{Act, After, Held, Token, apply};
use crate::words::{number, words};
use sf_turns::{Stock, TableName, TurnSeat, open_turns};
use std::alloc::Global;
use std::io;
use std::marker::Brand;
use std::sync::Arc;
use std::sync::atomic::{AtomicU64, Ordering};

#[derive(Clone, Copy)]
enum Call {
    /// A new buffer with pixels of this stamp.
    Open(u64),
    Split,
    Join,
    /// How many pixels were dropped.
    Drops,
    /// A call on the token with this number.
    At(Seat, usize, Act),
}

fn act_of(word: &str, stamp: &str) -> Option<Act> {
    match word {
        "ready" => Some(Act::Ready),
        "enter" => Some(Act::Enter),
        "give-up" => Some(Act::GiveUp),
        "issue" => Some(Act::Issue(number(stamp)?)),
        "drop" => Some(Act::Drop),
        _ => None,
    }
}

/// A call by the words of its line.
fn call_of(line: &str) -> Option<Call> {
    let [word, second, third, fourth] = words(line);
    match word {
        "open" => Some(Call::Open(number(second)?)),
        "split" => Some(Call::Split),
        "join" => Some(Call::Join),
        "drops" => Some(Call::Drops),
        _ => {
            let act = act_of(third, fourth)?;
            Some(Call::At(Seat::of(word)?, number(second)? as usize, act))
        }
    }
}

/// The tokens of a run, each at the number that it got.
#[derive(Drop)]
struct Tokens<B: TableName> {
    places: Vec<Option<Held<B>>>,
}

impl<B: TableName> Tokens<B> {
    /// Takes a token out.
    fn take(&mut self, number: usize) -> Option<Held<B>> {
        if number < self.places.len() {
            self.places[number].take()
        } else {
            None
        }
    }

    /// Puts a token back.
    fn put(&mut self, number: usize, token: Option<Held<B>>) {
        if number < self.places.len() {
            self.places[number] = token;
        }
    }

    /// A call on a token, through the seat.
    fn act(&mut self, seat: &mut TurnSeat<Counted>, number: usize, act: Act) -> Answer
        requires { seat.old.table ≡ B.table }
        ensures table { seat.new.table ≡ seat.old.table }
        ensures first { seat.new.is_first ≡ seat.old.is_first }
    {
        let Some(held) = self.take(number) else {
            return Answer::Plain("no token");
        };
        let After {
            kept,
            issued,
            answer,
        } = apply(seat, held, act);
        self.put(number, kept);
        if issued.is_some() && self.places.push(issued).is_err() {
            return Answer::Plain("out of memory");
        }
        answer
    }
}

#[derive(Drop)]
struct Run<B: TableName> {
    drops: Drops,
    first: TurnSeat<Counted>,
    second: Option<TurnSeat<Counted>>,
    stock: Stock<Counted>,
    /// How many buffers the stock has.
    left: u32,
    tokens: Tokens<B>,
    ghost own: { first.table ≡ B.table },
    ghost leads: { first.is_first ≡ true },
    ghost other: { ForSome second (λ s. s.table ≡ B.table) },
    ghost stocked: { stock.table ≡ B.table },
    ghost counted: { length stock.buffers ≡ left },
}

impl<B: TableName> Run<B> {
    /// A new buffer, from the stock.
    fn open(&mut self, stamp: u64) -> Answer {
        if self.left == 0 {
            return Answer::Plain("no buffer is left");
        }
        let Ok(drops) = Arc::try_clone(&self.drops) else {
            return Answer::Plain("out of memory");
        };
        let Ok(permit) = self.stock.one() else {
            return Answer::Plain("out of memory");
        };
        self.left -= 1;
        let buffer = permit.buffer();
        let Ok(turn) = permit.open(Counted { stamp, drops }) else {
            return Answer::Plain("out of memory");
        };
        let token = Some(Held::of(Token::Turn(turn)));
        if self.tokens.places.push(token).is_err() {
            return Answer::Plain("out of memory");
        }
        Answer::Opened(buffer)
    }

    fn split(&mut self) -> Answer {
        match self.first.split() {
            Ok(second) => {
                self.second = Some(second);
                Answer::Plain("split")
            }
            Err(_) => Answer::Plain("out of memory"),
        }
    }

    fn join(&mut self) -> Answer {
        match self.second.take() {
            Some(second) => {
                self.first.join(second);
                Answer::Plain("joined")
            }
            None => Answer::Plain("no seat"),
        }
    }

    fn on_second(&mut self, number: usize, act: Act) -> Answer {
        match self.second.take() {
            Some(mut second) => {
                let answer = self.tokens.act(&mut second, number, act);
                self.second = Some(second);
                answer
            }
            None => Answer::Plain("no seat"),
        }
    }

    fn call(&mut self, call: Call) -> Answer {
        match call {
            Call::Open(stamp) => self.open(stamp),
            Call::Split => self.split(),
            Call::Join => self.join(),
            Call::Drops => Answer::Value(self.drops.load(Ordering::SeqCst)),
            Call::At(Seat::First, number, act) => self.tokens.act(&mut self.first, number, act),
            Call::At(Seat::Second, number, act) => self.on_second(number, act),
        }
    }
}

/// The calls on tokens of the table that B names.
fn play_at<B: TableName>(
    rt: &impl Print,
    alloc: Global,
    first: TurnSeat<Counted>,
    stock: Stock<Counted>,
    calls: &[String],
) -> io::Result<()>
    requires own { (first.table ≡ B.table) × (stock.table ≡ B.table) }
    requires leads { first.is_first ≡ true }
    requires counted { length stock.buffers ≡ BUFFERS }
{
    let Ok(drops) = Arc::new(alloc, AtomicU64::new(0)) else {
        return println!(rt; "out of memory");
    };
    let mut run: Run<B> = Run {
        drops,
        first,
        second: None,
        stock,
        left: BUFFERS,
        tokens: Tokens {
            places: Vec::new(alloc),
        },
    };
    for line in calls {
        let answer = match call_of(line) {
            Some(call) => run.call(call),
            None => Answer::Plain("no call"),
        };
        println!(rt; "{line}: {answer}")?;
    }
    Ok(())
}

/// How many buffers the calls of a run may open.
const BUFFERS: u32 = 2;

pub fn play(rt: &impl Print, alloc: Global, calls: &[String]) -> io::Result<()> {
    let Ok((first, mut stock)) = open_turns::<Counted>(alloc, BUFFERS + 1) else {
        return println!(rt; "out of memory");
    };
    first.exact();
    match stock.cut(BUFFERS) {
        Ok(mine) => play_at::<Brand>(rt, alloc, first, mine, calls),
        Err(_) => println!(rt; "out of memory"),
    }
}
