//! A law of the states.
ghost use Rattle.markdown_run.specs.StepMoves.{StepsPassCodes};

/// A state that may be called passes exactly one code if it answers `Next`, one or none if it answers `Ok`, and none if it answers `Retry` or `Nok`.
pub fn steps_pass_codes()
    ensures { StepsPassCodes }
{}
