//! A law about options, called for its clauses alone: what no words ask for.
ghost use Rattle.std.specs.Prelude.{◌≡◌, [], Some, false};
ghost use Rattle.sf_app_options.specs.Options.{options_of};
ghost use Rattle.sf_app_options.specs.declared.options.Intake.TheVariants as intake;
ghost use Rattle.sf_app_options.specs.declared.options.Run.TheVariants as run;

/// The law that without words a script is read and played, by one worker, and not summed up;
/// transactions arrive under a lock.
pub fn no_words_play()
    ensures { options_of [] ≡ Some (record { run = run.Play; workers = 1; number = 1; summary = false; intake = intake.Lock }) }
{}
