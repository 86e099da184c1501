//! Batches as OTLP requests.
ghost use Rattle.std.specs.Prelude.{◌≡◌, ◌∷◌, [], Err, IfOk, MatchResult, Ok, OnOk};
ghost use Rattle.metric_exposure.specs.Exposures.{exposure_faults};
ghost use Rattle.metric_exposure.specs.declared.outlet.Outlet.TheVariants.{Otlp};
ghost use Rattle.metric_otlp.specs.Requests.{request};
ghost use Rattle.metric_outlets.specs.Served.{exposed, is_served, served_of};

use crate::outlet_fault::OutletFault;
use crate::served::{Served, served_by_otlp};
use metric_export::Encoding;
use metric_history::Batch;
use metric_otlp::push_request;
use metric_plan::Plan;
use metric_resource::Resource;
use std::alloc::{AllocError, Global};
use std::marker::Model;
use std::slice::from_ref;

/// Each batch as a message `ExportMetricsServiceRequest`: the body of a post to `/v1/metrics` of an OpenTelemetry
/// receiver. Messages one after the other are one message. A batch without points is nothing, one
/// of another reader is refused.
#[derive(Drop)]
pub struct OtlpBytes {
    served: Served,
    resource: Resource,
}

impl Model for OtlpBytes {
    ghost use Rattle.metric_outlets.specs.Served.{OtlpValue};

    ghost Value = { OtlpValue };

    ghost view = { λ e. record { served = e.served; resource = e.resource } };
}

impl OtlpBytes {
    /// Messages for the batches of a reader of a plan, with the attributes of this resource, as `service.name` is.
    ///
    /// # Errors
    ///
    /// [`OutletFault::UnknownReader`], or [`OutletFault::Exposed`] where a boundary would leave as another number
    /// ([`expose_to_otlp`](metric_exposure::expose_to_otlp)). The resource is dropped then.
    pub fn new(plan: &Plan, reader: u32, resource: Resource) -> Result<OtlpBytes, OutletFault>
        ensures made { IfOk result (λ made. made ≡ record {
          served = served_of plan.now reader;
          resource = resource;
        }) }
        ensures check { MatchResult result (λ _. exposed Otlp plan.now reader ≡ Ok tt)
            (λ fault. exposed Otlp plan.now reader ≡ Err fault) }
        ensures passes { OnOk result
            (exposure_faults Otlp plan.now.facts.contents plan.now.streams reader ≡ []) }
    {
        let served = served_by_otlp(plan, reader)?;
        Ok(OtlpBytes { served, resource })
    }
}

impl Encoding for OtlpBytes {
    ghost text = { λ e plan batch.
        request e.resource plan.facts.contents plan.streams (batch ∷ []) };

    ghost takes = { λ e. is_served e.served };

    fn takes(&self, plan: u64, reader: u32) -> bool {
        self.served.is(plan, reader)
    }

    fn push(
        &self,
        alloc: Global,
        out: &mut Vec<u8>,
        plan: &Plan,
        batch: &Batch,
    ) -> Result<(), AllocError> {
        push_request(
            alloc,
            out,
            &self.resource,
            plan.catalogue(),
            plan.streams(),
            from_ref(batch),
        )
    }
}
