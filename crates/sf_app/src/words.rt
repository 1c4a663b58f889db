//! Where the script of a run comes from: it is read from the source to its end, or generated from
//! the number that the words have.
ghost use Rattle.std.specs.Prelude.{◌≡◌, false, true, IfOk, IsErrOf};
ghost use Rattle.sf_io.specs.Causes.{Rose};
ghost use Rattle.sf_io.specs.Streams.{Took};
ghost use Rattle.sf_app.specs.Words.{IsScript, generated, is_gen};

use law_generated::{LONGEST_SCRIPT, generate};
use sf_app_options::{Options, Run};
use sf_io::{ReadFault, Source, read_all};
use std::alloc::Global;

fn is_gen(run: Run) -> bool
    ensures { result ≡ is_gen run }
{
    match run {
        Run::Gen => true,
        _ => false,
    }
}

/// The script that a number generates; its only error is out of memory.
fn generated(alloc: Global, number: u64) -> Result<Vec<u8>, ReadFault>
    ensures text { IfOk result (λ text. text.items ≡ generated number) }
    ensures short { ¬ IsErrOf result ReadFault.TooLong }
    ensures calm { ¬ IsErrOf result ReadFault.Failed }
{
    match generate(alloc, number) {
        Ok(text) => Ok(text),
        Err(_) => Err(ReadFault::NoMemory),
    }
}

/// The script that the options ask for: the generated one of their number, or what the source has.
pub fn script_asked<S: Source>(
    alloc: Global,
    options: Options,
    source: &mut S,
) -> Result<Vec<u8>, ReadFault>
    ensures script { IfOk result (λ text. IsScript options (S.left source.old) (S.left source.new) text.items) }
    ensures too_long { IsErrOf result ReadFault.TooLong → (is_gen options.run ≡ false) × Took (S.left source.old) (S.left source.new) 1048577 }
    ensures failed { IsErrOf result ReadFault.Failed → Rose (S.faults source.old) (S.faults source.new) }
    ensures unread { is_gen options.run ≡ true → source.new ≡ source.old }
{
    if is_gen(options.run) {
        generated(alloc, options.number)
    } else {
        read_all(alloc, source, LONGEST_SCRIPT)
    }
}
