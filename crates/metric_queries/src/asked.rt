//! What a selector asks of the labels of a line.
ghost use Rattle.std.specs.Prelude.{◌≡◌, IfOk};
ghost use Rattle.std.specs.List.{AllZip};
ghost use Rattle.metric_queries.specs.Remarks.{IsAsked};

use crate::test::{Test, test_of};
use metric_base::{Copied, Items, Text};
use metric_promql::{LabelTest, NAME_LABEL};
use std::alloc::{AllocError, Global};

/// What is asked of a label.
#[derive(Drop)]
pub struct Asked {
    /// The label, `__name__` for the name of the series.
    pub label: Text,
    /// How its text is tested.
    pub test: Test,
}

/// What each matcher of a selector asks for.
pub(crate) fn asked_of(alloc: Global, tests: &[LabelTest]) -> Result<Items<Asked>, AllocError>
    ensures { IfOk result (AllZip IsAsked tests.now) }
{
    let mut asked = Items::new(alloc);
    for test in tests {
        asked.push(asked_by(alloc, test)?)?;
    }
    Ok(asked)
}

fn asked_by(alloc: Global, matcher: &LabelTest) -> Result<Asked, AllocError>
    ensures { IfOk result (IsAsked matcher.now) }
{
    let label = matcher.label.copy(alloc)?;
    let test = test_of(alloc, matcher)?;
    Ok(Asked { label, test })
}

/// What the matchers of the name ask for, and those of some numbers.
pub(crate) fn part_of(
    alloc: Global,
    tests: &[LabelTest],
    numbers: &[usize],
) -> Result<Items<Asked>, AllocError> {
    let mut part = Items::new(alloc);
    for (number, test) in tests.iter().enumerate() {
        if is_of_name(test) || numbers.contains(&number) {
            part.push(asked_by(alloc, test)?)?;
        }
    }
    Ok(part)
}

/// Whether a matcher is of the name.
pub(crate) fn is_of_name(test: &LabelTest) -> bool {
    test.label.as_str() == NAME_LABEL
}
