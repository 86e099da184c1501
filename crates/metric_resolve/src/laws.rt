//! What the streams and the warnings are, as laws of their definitions.
ghost use Rattle.std.specs.Prelude.{◌≡◌, ◌↔◌, ℕ, List, AllPairs, Contains, true};
ghost use Rattle.std.specs.Cmp.{IsTotalOrder};
ghost use Rattle.metric_contents.specs.declared.contents.Contents.{Contents};
ghost use Rattle.metric_views.specs.declared.config.Config.{Config};
ghost use Rattle.metric_views.specs.declared.stream.Stream.{Stream};
ghost use Rattle.metric_resolve.specs.declared.warning.Warning.TheVariants.{Collision, Unfit};
ghost use Rattle.metric_resolve.specs.Collisions.{Identity, collisions_of, is_same};
ghost use Rattle.metric_resolve.specs.Identities.{identity_order};
ghost use Rattle.metric_resolve.specs.Laws.{Collide, IsOwn, Precedes, SumsGauge, WarnsBefore};
ghost use Rattle.metric_resolve.specs.Resolved.{streams_of};
ghost use Rattle.metric_resolve.specs.Unfit.{unfit_of};

/// The streams are exactly what the views that apply give, or the default where none does, and each
/// stands before all that follow by reader, instrument and view, so that none stands twice. Does nothing.
pub fn streams_are_what_views_give()
    ensures exact { (contents : Contents) (config : Config) (stream : Stream)
        → Contains (streams_of contents config) stream ↔ IsOwn contents config stream }
    ensures order { (contents : Contents) (config : Config)
        → AllPairs Precedes (streams_of contents config) }
{}

/// A view is warned of at an instrument exactly where it itself names a sum and selects the instrument,
/// which is a gauge; by view, then instrument. Does nothing.
pub fn unfit_views_sum_gauges()
    ensures exact { (contents : Contents) (config : Config) (view instrument : ℕ)
        → Contains (unfit_of contents config) (Unfit view instrument)
        ↔ SumsGauge contents config view instrument }
    ensures order { (contents : Contents) (config : Config)
        → AllPairs WarnsBefore (unfit_of contents config) }
{}

/// A collision is warned of exactly where a stream has the identity of an earlier one, with the first
/// such stream; identities have a total order. Does nothing.
pub fn collisions_are_of_one_identity()
    ensures same { (x y : Identity) → (is_same x y ≡ true) ↔ (x ≡ y) }
    ensures order { IsTotalOrder identity_order }
    ensures exact { (contents : Contents) (streams : List Stream) (a b : ℕ)
        → Contains (collisions_of contents streams) (Collision a b) ↔ Collide contents streams a b }
{}
