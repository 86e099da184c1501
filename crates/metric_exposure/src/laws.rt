//! What holds of streams that pass the check, as laws of the definitions.
ghost use Rattle.metric_exposure.specs.Laws.{GatheredAreApart, GatheredStayApart};
ghost use Rattle.metric_exposure.specs.Laws.{FamiliesAreApart, LabelsAreSound, NamesAreSound, NoneClaimsTheTarget, PointsAreApart, PointsStayApart};
ghost use Rattle.metric_exposure.specs.Laws.{ReportedBucketsRise, SeriesAreApart};

use metric_family::{families_are_names, labels_are_labels};
use metric_history::laws::recordings_are_counted_once;

/// Where a reader's streams pass for pages, each family has a name, each name that it claims and the label of each kept
/// key are of Prometheus' grammar. Does nothing.
pub fn names_and_labels_are_sound()
    ensures names { NamesAreSound }
    ensures labels { LabelsAreSound }
{
    families_are_names();
    labels_are_labels();
}

/// Where a reader's streams pass for pages, two of them claim one name only where they have one family, type, unit and
/// boundaries, and none claims one of the target's. Does nothing.
pub fn families_are_apart()
    ensures streams { FamiliesAreApart }
    ensures target { NoneClaimsTheTarget }
{}

/// Where a reader's streams pass for pages, the series of a stream are told apart by the labels that are shown of
/// them: set keys of recordings whose labels are the same have the same entries of kept keys. Does nothing.
pub fn series_are_apart()
    ensures { SeriesAreApart }
{}

/// Where a reader's streams pass for pages, no two points of a window of recordings are shown with the same labels, nor
/// is the overflow point shown as a series. Does nothing.
pub fn points_are_apart()
    ensures { PointsAreApart }
{
    recordings_are_counted_once();
    series_are_apart();
}

/// Where a reader's streams pass for pages, no two points of a window of recordings are one series at a server, which
/// writes `job` and `instance` itself and moves what a point has under these to `exported_job` and the like: the first of
/// these that the point does not have. Does nothing.
pub fn points_stay_apart()
    ensures { PointsStayApart }
{
    recordings_are_counted_once();
}

/// Where a reader's streams pass for pages, no points of two that claim one name are shown with the same labels, nor
/// are they one series at a server: their scopes tell them apart. Does nothing.
pub fn gathered_points_are_apart()
    ensures shown { GatheredAreApart }
    ensures held { GatheredStayApart }
{}

/// The buckets of each point that is reported of recordings rise up to the point's count. Does nothing.
pub fn buckets_rise_to_the_count()
    ensures { ReportedBucketsRise }
{}
