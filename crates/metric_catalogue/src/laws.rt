//! What the definitions of a catalogue come to. The functions do nothing.
ghost use Rattle.metric_catalogue.specs.Silences.{SilenceGivesNone};

/// In format 3 no recorder has a budget for an instrument of which no table of recorders says one: its spare is then all
/// that may be recorded.
pub fn silence_gives_no_budget()
    ensures { SilenceGivesNone }
{}
