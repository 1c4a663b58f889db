//! What comes of a call that gives its caller nothing and never waits, such as the release of a frame
//! by a compositor.
ghost use Rattle.std.specs.Prelude.{◌≡◌, IfOk, None, is_ok};
ghost use Rattle.sf_token.specs.sf_calls.Calling.{IfFaultNotYet};

use sf_base::NoMemory;
use sf_surface::{QCall, QReply, TableName};
use sf_token::CallFault;

/// Lets a reply go that ends no drawing, with what it gives.
fn let_go<B: TableName>(reply: QReply<B>)
    requires { reply.ends ≡ None }
{
    let QReply {
        status: _status,
        values: _values,
        gives,
        ends,
        spare: _spare,
    } = reply;
    drop(gives);
    match ends {
        None => {}
        Some(_ending) => unreachable!(),
    }
}

/// Whether a call that gives nothing and never waits was made. Its reply is let go, and so is what
/// comes back where memory runs out.
pub fn settle<B: TableName>(outcome: Result<QReply<B>, CallFault<QCall<B>>>) -> Result<(), NoMemory>
    requires ends { IfOk outcome (λ reply. reply.ends ≡ None) }
    requires never { IfFaultNotYet outcome (λ _. ⊥) }
    ensures { is_ok result ≡ is_ok outcome }
{
    match outcome {
        Ok(reply) => {
            let_go(reply);
            Ok(())
        }
        Err(CallFault::NotYet(_)) => unreachable!(),
        Err(CallFault::NoMemory(call)) => {
            drop(call);
            Err(NoMemory)
        }
    }
}
