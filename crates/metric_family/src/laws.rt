//! What families and labels promise, as laws of their definitions.
ghost use Rattle.metric_family.specs.Laws.{FamiliesAreNames, LabelsAreLabels, UnitsArePartsOfFamilies};

/// Each family that has a name is of Prometheus' grammar: `[a-zA-Z_:][a-zA-Z0-9_:]*`. Does nothing.
pub fn families_are_names()
    ensures { FamiliesAreNames }
{}

/// Each label that says something of its key is of Prometheus' grammar, `[a-zA-Z_][a-zA-Z0-9_]*`, and does not begin
/// with `__`, which is reserved. Does nothing.
pub fn labels_are_labels()
    ensures { LabelsAreLabels }
{}

/// A unit that is told of a family is never the family itself: a server refuses a page that says so. Does nothing.
pub fn units_are_parts_of_families()
    ensures { UnitsArePartsOfFamilies }
{}
