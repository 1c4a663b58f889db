//! The tokens of buffers' turns, and a call on one of them.
ghost use Rattle.std.specs.Prelude.{◌≡◌};
ghost use Rattle.test_threads.specs.inner.Tokens.{table_of};

use crate::answer::Answer;
use crate::counted::Counted;
use crate::entered::Entered;
use sf_turns::{Owed, TableName, Turn, TurnSeat};
use std::marker::PhantomData;

#[derive(Drop)]
pub enum Token {
    Turn(Turn<Counted>),
    Entered(Entered),
    Owed(Owed<Counted>),
}

/// A call on a token.
#[derive(Clone, Copy)]
pub enum Act {
    Ready,
    Enter,
    GiveUp,
    Issue(u64),
    Drop,
}

/// A token of the table that B names.
#[derive(Drop)]
pub struct Held<B: TableName> {
    pub token: Token,
    pub of: PhantomData<B>,
    ghost own: { table_of token ≡ B.table },
}

/// What is left of a token after a call, the turn that was issued, and what the call answered.
#[derive(Drop)]
pub struct After<B: TableName> {
    pub kept: Option<Held<B>>,
    pub issued: Option<Held<B>>,
    pub answer: Answer,
}

impl<B: TableName> Held<B> {
    pub fn of(token: Token) -> Held<B>
        requires { table_of token ≡ B.table }
    {
        Held {
            token,
            of: PhantomData,
        }
    }
}

impl<B: TableName> After<B> {
    /// What a call came to that leaves the token in hand.
    fn kept(token: Token, answer: Answer) -> After<B>
        requires { table_of token ≡ B.table }
    {
        After {
            kept: Some(Held::of(token)),
            issued: None,
            answer,
        }
    }

    /// What a call came to that used the token up.
    fn gone(answer: Answer) -> After<B> {
        After {
            kept: None,
            issued: None,
            answer,
        }
    }
}

/// Issues the next turn.
fn issue<B: TableName>(turn: Turn<Counted>, stamp: u64) -> After<B>
    requires { turn.table ≡ B.table }
{
    match turn.issue(stamp) {
        Ok((owed, heir)) => {
            let answer = Answer::Issued(
                owed.number(),
                *owed.promised(),
                heir.number(),
                *heir.expects(),
            );
            After {
                kept: Some(Held::of(Token::Owed(owed))),
                issued: Some(Held::of(Token::Turn(heir))),
                answer,
            }
        }
        Err((_, turn, _)) => After::kept(Token::Turn(turn), Answer::Plain("out of memory")),
    }
}

/// A call on a turn that has not entered.
fn on_turn<B: TableName>(seat: &mut TurnSeat<Counted>, turn: Turn<Counted>, act: Act) -> After<B>
    requires own { turn.table ≡ B.table }
    requires seat { seat.old.table ≡ B.table }
    ensures table { seat.new.table ≡ seat.old.table }
    ensures first { seat.new.is_first ≡ seat.old.is_first }
{
    match act {
        Act::Ready => {
            let mut turn = turn;
            let ready = turn.ready(seat);
            After::kept(Token::Turn(turn), Answer::Is(ready))
        }
        Act::Enter => match turn.enter(seat) {
            Ok((inside, pixels)) => {
                let found = pixels.stamp;
                After::kept(
                    Token::Entered(Entered { inside, pixels }),
                    Answer::Found(found),
                )
            }
            Err(turn) => After::kept(Token::Turn(turn), Answer::Plain("too early")),
        },
        Act::Issue(stamp) => issue(turn, stamp),
        Act::GiveUp => After::kept(Token::Turn(turn), Answer::Plain("not entered")),
        Act::Drop => After::gone(Answer::Plain("dropped")),
    }
}

/// Issues the next turn, and leaves at once with the stamp that was promised.
fn issue_and_leave<B: TableName>(
    seat: &mut TurnSeat<Counted>,
    entered: Entered,
    stamp: u64,
) -> After<B>
    requires own { entered.inside.table ≡ B.table }
    requires seat { seat.old.table ≡ B.table }
    ensures table { seat.new.table ≡ seat.old.table }
    ensures first { seat.new.is_first ≡ seat.old.is_first }
{
    let Entered { inside, mut pixels } = entered;
    match inside.issue(stamp) {
        Ok((busy, heir)) => {
            pixels.stamp = stamp;
            let left = *busy.promised();
            busy.leave(seat, pixels);
            let answer = Answer::LeftTo(left, heir.number());
            After {
                kept: None,
                issued: Some(Held::of(Token::Turn(heir))),
                answer,
            }
        }
        Err((_, inside, _)) => {
            After::kept(
                Token::Entered(Entered { inside, pixels }),
                Answer::Plain("out of memory"),
            )
        }
    }
}

/// A call on a turn that has entered.
fn on_entered<B: TableName>(seat: &mut TurnSeat<Counted>, entered: Entered, act: Act) -> After<B>
    requires own { entered.inside.table ≡ B.table }
    requires seat { seat.old.table ≡ B.table }
    ensures table { seat.new.table ≡ seat.old.table }
    ensures first { seat.new.is_first ≡ seat.old.is_first }
{
    match act {
        Act::Issue(stamp) => issue_and_leave(seat, entered, stamp),
        Act::GiveUp => {
            let Entered { inside, pixels } = entered;
            After::kept(
                Token::Turn(inside.give_up(pixels)),
                Answer::Plain("gave up"),
            )
        }
        Act::Drop => After::gone(Answer::Plain("dropped")),
        Act::Ready => After::kept(Token::Entered(entered), Answer::Plain("has entered")),
        Act::Enter => After::kept(Token::Entered(entered), Answer::Plain("has entered")),
    }
}

/// Enters with a turn that is owed, and leaves at once with the stamp that it promised.
fn pay<B: TableName>(seat: &mut TurnSeat<Counted>, owed: Owed<Counted>) -> After<B>
    requires own { owed.table ≡ B.table }
    requires seat { seat.old.table ≡ B.table }
    ensures table { seat.new.table ≡ seat.old.table }
    ensures first { seat.new.is_first ≡ seat.old.is_first }
{
    match owed.enter(seat) {
        Ok((busy, mut pixels)) => {
            let found = pixels.stamp;
            let left = *busy.promised();
            pixels.stamp = left;
            busy.leave(seat, pixels);
            After::gone(Answer::Left(found, left))
        }
        Err(owed) => After::kept(Token::Owed(owed), Answer::Plain("too early")),
    }
}

/// A call on a token, through a seat of its table.
pub fn apply<B: TableName>(seat: &mut TurnSeat<Counted>, held: Held<B>, act: Act) -> After<B>
    requires { seat.old.table ≡ B.table }
    ensures table { seat.new.table ≡ seat.old.table }
    ensures first { seat.new.is_first ≡ seat.old.is_first }
{
    let Held { token, of: _ } = held;
    match token {
        Token::Turn(turn) => on_turn(seat, turn, act),
        Token::Entered(entered) => on_entered(seat, entered, act),
        Token::Owed(owed) => match act {
            Act::Enter => pay(seat, owed),
            Act::Drop => After::gone(Answer::Plain("dropped")),
            _ => After::kept(Token::Owed(owed), Answer::Plain("is owed")),
        },
    }
}
