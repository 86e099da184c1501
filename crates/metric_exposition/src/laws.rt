//! What holds of the attributes of a resource that pass, as laws of the definitions.
ghost use Rattle.metric_exposition.specs.Laws.{TargetLabelsAreSound, TargetLabelsDiffer};

use metric_family::labels_are_labels;

/// Where [`check_target`](crate::check_target) passes the attributes of a resource, their labels differ from each
/// other, and each is of Prometheus' grammar. Does nothing.
pub fn target_labels_are_sound()
    ensures apart { TargetLabelsDiffer }
    ensures sound { TargetLabelsAreSound }
{
    labels_are_labels();
}
