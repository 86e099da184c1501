//! What the bytes promise, as laws of their definitions.
ghost use Rattle.metric_wire.specs.Reading.{BlocksReadBack, VarintsReadBack};

/// A varint of 64 bits and a block are read as what was written, whatever follows them: so two numbers have two
/// varints, and two blocks that are written alike have one field and the same bytes. Does nothing.
pub fn what_is_written_is_read_back()
    ensures varints { VarintsReadBack }
    ensures blocks { BlocksReadBack }
{}
