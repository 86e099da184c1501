//! The lines of a page that are of no batch.
ghost use Rattle.std.specs.Prelude.{◌≡◌, ◌⊎◌, [], ◌++◌, IfErr, OnOk, codes};
ghost use Rattle.metric_base.specs.Steps.{Gives};
ghost use Rattle.metric_exposition.specs.Pages.{end_text};
ghost use Rattle.metric_exposition.specs.Samples.{sample};
ghost use Rattle.metric_exposition.specs.TargetFaults.{target_check};
ghost use Rattle.metric_exposition.specs.Targets.{resource_labels, target_header, target_text};

use crate::dialect::Dialect;
use crate::header::{Described, push_described};
use crate::label::fill_resource_labels;
use crate::piece::Piece;
use crate::sample::{Series, push_sample};
use crate::target::{TargetFault, check_target};
use metric_contents::OwnedAttr;
use metric_resource::Resource;
use metric_text::push_text;
use std::alloc::{AllocError, Global};

/// Writes what a page begins with: `target_info` with the attributes of the resource as labels (OpenTelemetry,
/// Prometheus compatibility, resource attributes); nothing where it has none.
///
/// # Errors
///
/// What [`check_target`](crate::check_target) answers, with nothing written. After `Memory` a part may be written.
pub fn push_target(
    alloc: Global,
    out: &mut Vec<u8>,
    dialect: Dialect,
    resource: &Resource,
) -> Result<(), TargetFault>
    ensures check { Gives TargetFault.Memory result (target_check resource.now) }
    ensures lines { OnOk result
        (out.new.items ≡ out.old.items ++ target_text dialect resource.now) }
    ensures refused { IfErr result (λ fault.
        (fault ≡ TargetFault.Memory) ⊎ (out.new.items ≡ out.old.items)) }
{
    check_target(alloc, resource)?;
    push_lines(alloc, out, dialect, resource.as_slice())?;
    Ok(())
}

// Writes the lines of attributes, none where there are none.
fn push_lines(
    alloc: Global,
    out: &mut Vec<u8>,
    dialect: Dialect,
    attributes: &[OwnedAttr],
) -> Result<(), AllocError>
    ensures { OnOk result (out.new.items ≡ out.old.items ++ target_text dialect attributes.now) }
{
    if attributes.is_empty() {
        return Ok(());
    }
    push_target_header(out, dialect.is_open_metrics())?;
    push_target_info(alloc, out, attributes)
}

// OpenMetrics has a type for it.
fn push_target_header(out: &mut Vec<u8>, is_open_metrics: bool) -> Result<(), AllocError>
    ensures { OnOk result (out.new.items ≡ out.old.items ++ target_header is_open_metrics) }
{
    let (family, kind) = if is_open_metrics {
        ("target", "info")
    } else {
        ("target_info", "gauge")
    };
    let text = Described {
        family,
        suffix: "",
        help: "Target metadata",
        kind,
    };
    push_described(out, is_open_metrics, &text)
}

fn push_target_info(
    alloc: Global,
    out: &mut Vec<u8>,
    attributes: &[OwnedAttr],
) -> Result<(), AllocError>
    ensures { OnOk result (out.new.items ≡ out.old.items
        ++ sample (codes "target_info") [] (resource_labels attributes.now) (codes "1")) }
{
    let mut labels = Vec::new(alloc);
    fill_resource_labels(&mut labels, attributes)?;
    let series = Series {
        family: "target_info",
        labels: labels.as_slice(),
        created: None,
    };
    push_sample(out, &series, "", Piece::Text("1"))
}

/// Writes what a page ends with: in OpenMetrics `# EOF`, else nothing. Fails only when out of memory.
pub fn push_end(out: &mut Vec<u8>, dialect: Dialect) -> Result<(), AllocError>
    ensures { OnOk result (out.new.items ≡ out.old.items ++ end_text dialect) }
{
    if dialect.is_open_metrics() {
        push_text(out, "# EOF\n")
    } else {
        Ok(())
    }
}
