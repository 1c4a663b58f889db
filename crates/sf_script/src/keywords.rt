//! From the first word of a line to its form, by the version and by where it stands.
ghost use Rattle.std.specs.Prelude.{◌≡◌, Bool, true, IfSome};
ghost use Rattle.sf_script.specs.Draft.{is_of};
ghost use Rattle.sf_script.specs.Keywords.{change_form_of, consumer_form_of, keyword_of, plain_keyword_of, producer_form_of};
ghost use Rattle.sf_script.specs.Keywords.{second_keyword_of, step_form_of, transaction_form_of, versioned_keyword_of};

use crate::line::{ChangeForm, Keyword, PointForm, QueueForm, Side, StepForm};
use sf_script_words::is;

/// The form of a producer's step.
#[tactic(auto, unfolding(crate::specs::Keywords::producer_form_of))]
fn producer_form(word: &[u8]) -> Option<StepForm>
    ensures { result ≡ producer_form_of word.now }
{
    if is(word, b"connect") {
        Some(StepForm::OnQueue(QueueForm::Connect))
    } else if is(word, b"disconnect") {
        Some(StepForm::OnQueue(QueueForm::Disconnect))
    } else if is(word, b"maxdequeued") {
        Some(StepForm::Most(Side::Producer))
    } else if is(word, b"async") {
        Some(StepForm::Async)
    } else if is(word, b"dequeue") {
        Some(StepForm::Dequeue(false))
    } else if is(word, b"dequeuewait") {
        Some(StepForm::Dequeue(true))
    } else if is(word, b"request") {
        Some(StepForm::Request)
    } else if is(word, b"draw") {
        Some(StepForm::Draw)
    } else if is(word, b"queue") {
        Some(StepForm::Queue)
    } else if is(word, b"cancel") {
        Some(StepForm::Return(Side::Producer))
    } else if is(word, b"pdetach") {
        Some(StepForm::Detach(Side::Producer))
    } else if is(word, b"pattach") {
        Some(StepForm::Attach(Side::Producer))
    } else {
        None
    }
}

/// The form of a consumer's step, or of one on a timeline.
#[tactic(auto, unfolding(crate::specs::Keywords::consumer_form_of))]
fn consumer_form(word: &[u8]) -> Option<StepForm>
    ensures { result ≡ consumer_form_of word.now }
{
    if is(word, b"maxacquired") {
        Some(StepForm::Most(Side::Consumer))
    } else if is(word, b"abandon") {
        Some(StepForm::OnQueue(QueueForm::Abandon))
    } else if is(word, b"acquire") {
        Some(StepForm::Acquire)
    } else if is(word, b"release") {
        Some(StepForm::Return(Side::Consumer))
    } else if is(word, b"cdetach") {
        Some(StepForm::Detach(Side::Consumer))
    } else if is(word, b"cattach") {
        Some(StepForm::Attach(Side::Consumer))
    } else if is(word, b"signal") {
        Some(StepForm::OnPoint(PointForm::Signal))
    } else if is(word, b"wait") {
        Some(StepForm::OnPoint(PointForm::Wait))
    } else {
        None
    }
}

/// The form of a step on a transaction.
#[tactic(auto, unfolding(crate::specs::Keywords::transaction_form_of))]
fn transaction_form(word: &[u8]) -> Option<StepForm>
    ensures { result ≡ transaction_form_of word.now }
{
    if is(word, b"tx") {
        Some(StepForm::Tx)
    } else if is(word, b"desire") {
        Some(StepForm::Desire)
    } else if is(word, b"buffer") {
        Some(StepForm::Buffer)
    } else if is(word, b"barrier") {
        Some(StepForm::Barrier)
    } else if is(word, b"merge") {
        Some(StepForm::Merge)
    } else if is(word, b"apply") {
        Some(StepForm::Apply)
    } else if is(word, b"set") {
        Some(StepForm::Set)
    } else {
        None
    }
}

/// The form of a step.
fn step_form(word: &[u8]) -> Option<StepForm>
    ensures { result ≡ step_form_of word.now }
{
    if let Some(form) = producer_form(word) {
        return Some(form);
    }
    if let Some(form) = consumer_form(word) {
        return Some(form);
    }
    transaction_form(word)
}

/// The form of a line that is no step.
#[tactic(auto, unfolding(crate::specs::Keywords::plain_keyword_of))]
fn plain_keyword(has_actor: bool, word: &[u8]) -> Option<Keyword>
    ensures given { result ≡ plain_keyword_of has_actor word.now }
    ensures both { IfSome result (λ k. (is_second : Bool) → is_of is_second k ≡ true) }
{
    if is(word, b"scene") {
        Some(Keyword::Scene)
    } else if is(word, b"timeline") {
        Some(Keyword::Timeline)
    } else if !has_actor && is(word, b"queue") {
        Some(Keyword::Queue)
    } else if is(word, b"picture") {
        Some(Keyword::Picture)
    } else if is(word, b"fill") {
        Some(Keyword::Fill)
    } else if is(word, b"actor") {
        Some(Keyword::Actor)
    } else if is(word, b"order") {
        Some(Keyword::Order)
    } else if is(word, b"end") {
        Some(Keyword::End)
    } else {
        None
    }
}

/// The form of a line that version 2 has, and version 1 has not.
#[tactic(auto, unfolding(crate::specs::Keywords::second_keyword_of))]
fn second_keyword(word: &[u8]) -> Option<Keyword>
    ensures { result ≡ second_keyword_of word.now }
{
    if is(word, b"display") {
        Some(Keyword::Display)
    } else if is(word, b"stack") {
        Some(Keyword::Stack)
    } else if is(word, b"capture") {
        Some(Keyword::Capture)
    } else if is(word, b"hit") {
        Some(Keyword::Hit)
    } else if is(word, b"mirror") {
        Some(Keyword::Mirror)
    } else {
        None
    }
}

/// The same in this version.
#[tactic(auto, using(crate::proofs::DraftLemmas::second_has))]
fn versioned_keyword(is_second: bool, word: &[u8]) -> Option<Keyword>
    ensures given { result ≡ versioned_keyword_of is_second word.now }
    ensures version { IfSome result (λ k. is_of is_second k ≡ true) }
{
    if is_second {
        second_keyword(word)
    } else {
        None
    }
}

/// The form that a first word begins, if it begins one. The word `queue` begins a step where an
/// actor was declared, and a declaration otherwise. Some forms are of version 2 alone.
pub fn first_keyword(is_second: bool, has_actor: bool, word: &[u8]) -> Option<Keyword>
    ensures given { result ≡ keyword_of is_second has_actor word.now }
    ensures version { IfSome result (λ k. is_of is_second k ≡ true) }
{
    if let Some(keyword) = plain_keyword(has_actor, word) {
        return Some(keyword);
    }
    if let Some(keyword) = versioned_keyword(is_second, word) {
        return Some(keyword);
    }
    let form = step_form(word)?;
    Some(Keyword::Step(form))
}

/// What a word behind `set N LAYER` changes.
#[tactic(auto, unfolding(crate::specs::Keywords::change_form_of))]
pub fn change_form(word: &[u8]) -> Option<ChangeForm>
    ensures { result ≡ change_form_of word.now }
{
    if is(word, b"create") {
        Some(ChangeForm::Create)
    } else if is(word, b"destroy") {
        Some(ChangeForm::Destroy)
    } else if is(word, b"reparent") {
        Some(ChangeForm::Reparent)
    } else if is(word, b"z") {
        Some(ChangeForm::Z)
    } else if is(word, b"relative") {
        Some(ChangeForm::Relative)
    } else if is(word, b"position") {
        Some(ChangeForm::Position)
    } else if is(word, b"crop") {
        Some(ChangeForm::Crop)
    } else if is(word, b"alpha") {
        Some(ChangeForm::Alpha)
    } else if is(word, b"hidden") {
        Some(ChangeForm::Hidden)
    } else if is(word, b"opaque") {
        Some(ChangeForm::Opaque)
    } else if is(word, b"colour") {
        Some(ChangeForm::Colour)
    } else if is(word, b"backpressure") {
        Some(ChangeForm::Backpressure)
    } else if is(word, b"orient") {
        Some(ChangeForm::Orient)
    } else {
        None
    }
}
