//! What the definitions of what is found come to. The functions do nothing.
ghost use Rattle.metric_make.specs.Unsaid.{SafeTotalsFindNothing};

/// `make` answers no `CountRange`, `AmountRange`, `SumLow` or `SumHigh` of an instrument whose total is at most
/// `metric_contents::safe_total` of its range: so of none that a catalogue of format 3 gives no budget.
pub fn safe_totals_find_nothing()
    ensures { SafeTotalsFindNothing }
{}
