//! The series of recordings.
ghost use Rattle.std.specs.Prelude.{◌≡◌, bytes_eq, ◌++◌, ◌∷◌, [], take};
ghost use Rattle.std.specs.List.{list_any};
ghost use Rattle.metric_history.specs.Series.{series, all_series, has, distinct};

use metric_combinations::restrict;
use metric_contents::SetKey;
use metric_history::Entry;

/// The series of a recording in a stream that keeps these keys.
pub fn series_of(kept: &[bool], entry: &Entry) -> SetKey
    ensures { result ≡ series kept.now entry.now }
{
    restrict(kept, &entry.set)
}

/// Whether some recording is of the series.
#[tactic(auto, using(metric_history::specs::SeriesLaws::has_all_series))]
pub fn is_among(kept: &[bool], entries: &[Entry], key: &SetKey) -> bool
    ensures { result ≡ list_any (λ entry. bytes_eq (series kept.now entry) key.now) entries.now }
{
    entries.iter().any(|entry| series_of(kept, entry) == *key)
}

/// Whether a series is, or would be as the next one, among the first distinct ones of the recordings, of which there
/// are as many as the limit says. Allocates no memory.
pub fn has_place(kept: &[bool], limit: usize, entries: &[Entry], key: &SetKey) -> bool
    ensures { let keys = all_series kept.now entries.now ++ key.now ∷ [] in
        result ≡ has (take limit (distinct keys)) key.now }
{
    if entries.len() < limit {
        return true;
    }
    let mut places = 0;
    for (i, entry) in entries.iter().enumerate() {
        let series = series_of(kept, entry);
        if series == *key {
            return places < limit;
        }
        if places >= limit {
            return false;
        }
        if !is_among(kept, &entries[..i], &series) {
            places += 1;
        }
    }
    places < limit
}
