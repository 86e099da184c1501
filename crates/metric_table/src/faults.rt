//! The faults that the fields of a table may have.

/// What the reader of a table answers for each fault of its fields, with the table's place in it.
#[derive(Clone, Copy)]
pub struct FieldFaults<F> {
    /// A needed field is missing.
    pub missing: F,
    /// A field's value is of another kind than the format says.
    pub wrong_kind: F,
    /// The table has a field that the format does not name.
    pub unknown: F,
    /// A list or a text is longer than its limit.
    pub too_many: F,
    /// Out of memory.
    pub memory: F,
}
