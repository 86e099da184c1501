//! What the definitions of a meaning come to. The functions do nothing.
ghost use Rattle.metric_meaning.specs.Made.{AnInstrumentMeansItself, AttributesAreKeys};

/// The values of the keys of an instrument of a catalogue, each under the name of its key, are these keys.
pub fn attributes_are_keys()
    ensures { AttributesAreKeys }
{}

/// An instrument of a catalogue means what a program is made for that is made of it.
pub fn an_instrument_means_itself()
    ensures { AnInstrumentMeansItself }
{}
