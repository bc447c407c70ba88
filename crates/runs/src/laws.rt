ghost use Rattle.runs.specs.Stand.{Staying, Standing};

/// In every run the groups completed stand at their places on the tape, the tracks behind them are as they were, and the
/// open group is not above G. The groups of every recording that was closed without a decline stand at their places too,
/// and walking them finds exactly its list.
pub fn runs_stand()
    ensures staying { Staying }
    ensures standing { Standing }
{}
