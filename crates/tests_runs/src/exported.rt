//! What is exported where no program shows it: attributes of a resource that are no texts, the batches of two readers in
//! one page, and faults.
use crate::asserted::{OrFail, assert_equal};
use crate::runs::ran;
use metric_contents::Attr;
use metric_exposition::{Dialect, TargetFault, push_end, push_exposition, push_target};
use metric_history::{Batch, Reply};
use metric_marked::Marked;
use metric_names::ValueRef;
use metric_otlp::{push_line, push_request};
use metric_plan::Plan;
use metric_resource::{Resource, ResourceFault};
use std::alloc::Global;
use std::process::Abort;
use std::slice::from_ref;

const SHOP: Attr<'static> = Attr {
    key: "service.name",
    value: ValueRef::Text("shop"),
};

const PORT: Attr<'static> = Attr {
    key: "port",
    value: ValueRef::Whole(8080),
};

const DIGIT: Attr<'static> = Attr {
    key: "1st port",
    value: ValueRef::Whole(-8080),
};

const DEBUG: Attr<'static> = Attr {
    key: "debug",
    value: ValueRef::Flag(true),
};

const EMPTY: Attr<'static> = Attr {
    key: "empty",
    value: ValueRef::Text(""),
};

const NAMELESS: Attr<'static> = Attr {
    key: "",
    value: ValueRef::Whole(-1),
};

// A cumulative reader and a delta reader collect a counter, also after it was closed, and at a time that goes back.
const INPUT: &str = "%% catalogue
format = 1
[[meter]]
name = \"m\"
instrument = [{ name = \"hits\", kind = \"counter\", range = [0, 100] }]
[[recorder]]
name = \"r\"
budget = [{ instrument = 0, amount = 2 }]
%% config
format = 1
[[reader]]
name = \"C\"
[[reader]]
name = \"D\"
temporality = { counter = \"delta\" }
%% script
start 0
record 0 0 5
collect 1 0 10
record 0 0 7
record 0 0 1
close 0
record 0 0 1
collect 0 0 20
collect 1 0 30
collect 1 0 25
close 0
";

// What a run is exported as.
#[derive(Clone, Copy)]
enum Form {
    Request,
    Line,
    Page(Dialect),
}

// Google's protobuf writes the same bytes of the messages, and the OpenTelemetry Collector the same lines.
const REQUESTS: &[u8] =
    b"\n]\n2\n\x16\n\x0cservice.name\x12\x06\n\x04shop\n\x0b\n\x04port\x12\x03\x18\x90\
?\n\x0b\n\x05debug\x12\x02\x10\x01\x12'\n\x03\n\x01m\x12 \n\x04hits:\x18\n\x12\x19\n\0\0\0\0\0\0\01\x05\0\0\0\
\0\0\0\0\x10\x01\x18\x01\n]\n2\n\x16\n\x0cservice.name\x12\x06\n\x04shop\n\x0b\n\x04port\x12\x03\x18\x90?\n\
\x0b\n\x05debug\x12\x02\x10\x01\x12'\n\x03\n\x01m\x12 \n\x04hits:\x18\n\x12\x19\x14\0\0\0\0\0\0\01\x0c\0\0\0\0\
\0\0\0\x10\x02\x18\x01\nf\n2\n\x16\n\x0cservice.name\x12\x06\n\x04shop\n\x0b\n\x04port\x12\x03\x18\x90?\n\x0b\
\n\x05debug\x12\x02\x10\x01\x120\n\x03\n\x01m\x12)\n\x04hits:!\n\x1b\x11\n\0\0\0\0\0\0\0\x19\x1e\0\0\0\0\0\0\0\
1\x07\0\0\0\0\0\0\0\x10\x01\x18\x01";

const LINES: &[u8] =
    b"{\"resourceMetrics\":[{\"resource\":{\"attributes\":[{\"key\":\"service.name\",\
\"value\":{\"stringValue\":\"shop\"}},{\"key\":\"port\",\"value\":{\"intValue\":\"8080\"}},\
{\"key\":\"debug\",\"value\":{\"boolValue\":true}}]},\"scopeMetrics\":[{\"scope\":{\"name\":\"m\"},\
\"metrics\":[{\"name\":\"hits\",\"sum\":{\"dataPoints\":[{\"timeUnixNano\":\"10\",\
\"asInt\":\"5\"}],\"aggregationTemporality\":1,\"isMonotonic\":true}}]}]}]}\n{\"resourceMetrics\":[{\"resource\
\":{\"attributes\":[{\"key\":\"service.name\",\"value\":{\"stringValue\":\"shop\"}},\
{\"key\":\"port\",\"value\":{\"intValue\":\"8080\"}},{\"key\":\"debug\",\"value\":{\"boolValue\":true}}]},\
\"scopeMetrics\":[{\"scope\":{\"name\":\"m\"},\"metrics\":[{\"name\":\"hits\",\
\"sum\":{\"dataPoints\":[{\"timeUnixNano\":\"20\",\"asInt\":\"12\"}],\"aggregationTemporality\":2,\
\"isMonotonic\":true}}]}]}]}\n{\"resourceMetrics\":[{\"resource\":{\"attributes\":[{\"key\":\"service.name\",\
\"value\":{\"stringValue\":\"shop\"}},{\"key\":\"port\",\"value\":{\"intValue\":\"8080\"}},\
{\"key\":\"debug\",\"value\":{\"boolValue\":true}}]},\"scopeMetrics\":[{\"scope\":{\"name\":\"m\"},\
\"metrics\":[{\"name\":\"hits\",\"sum\":{\"dataPoints\":[{\"startTimeUnixNano\":\"10\",\
\"timeUnixNano\":\"30\",\"asInt\":\"7\"}],\"aggregationTemporality\":1,\"isMonotonic\":true}}]}]}]}\n";

const TEXT: &[u8] = b"# HELP target_info Target metadata
# TYPE target_info gauge
target_info{key_1st_port=\"-8080\",debug=\"true\"} 1
# HELP hits_total 
# TYPE hits_total counter
hits_total{otel_scope_name=\"m\"} 5
# HELP hits_total 
# TYPE hits_total counter
hits_total{otel_scope_name=\"m\"} 12
# HELP hits_total 
# TYPE hits_total counter
hits_total{otel_scope_name=\"m\"} 7
";

const CREATED: &[u8] = b"# HELP target Target metadata
# TYPE target info
target_info{service_name=\"shop\"} 1
# HELP hits 
# TYPE hits counter
hits_total{otel_scope_name=\"m\"} 5
hits_created{otel_scope_name=\"m\"} 0.000000000
# HELP hits 
# TYPE hits counter
hits_total{otel_scope_name=\"m\"} 12
hits_created{otel_scope_name=\"m\"} 0.000000000
# HELP hits 
# TYPE hits counter
hits_total{otel_scope_name=\"m\"} 7
hits_created{otel_scope_name=\"m\"} 0.000000010
# EOF
";

// Attributes of a resource, and what the run is with them in a form.
const EXPORTED: &[(&[Attr<'static>], Form, &[u8])] = &[
    (&[SHOP, PORT, DEBUG], Form::Request, REQUESTS),
    (&[SHOP, PORT, DEBUG], Form::Line, LINES),
    (&[DIGIT, EMPTY, DEBUG], Form::Page(Dialect::Text), TEXT),
    (&[SHOP], Form::Page(Dialect::OpenMetricsCreated), CREATED),
];

fn push_batch<R: Abort>(
    out: &mut Vec<u8>,
    rt: &R,
    alloc: Global,
    form: Form,
    resource: &Resource,
    plan: &Plan,
    batch: &Batch,
) {
    let (catalogue, streams) = (plan.catalogue(), plan.streams());
    match form {
        Form::Request => push_request(
            alloc,
            out,
            resource,
            catalogue,
            streams,
            from_ref(batch),
        ).or_fail(rt),
        Form::Line => push_line(alloc, out, resource, catalogue, streams, from_ref(batch)).or_fail(
            rt,
        ),
        Form::Page(dialect) => {
            push_exposition(alloc, out, dialect, catalogue, streams, batch).or_fail(rt)
        }
    }
}

// All batches of the run, one after the other.
fn push_run<R: Abort>(out: &mut Vec<u8>, rt: &R, alloc: Global, form: Form, resource: &Resource) {
    let (core, replies) = ran::<R, Marked>(rt, alloc, INPUT);
    for reply in &replies {
        if let Reply::Collected(batch) = reply {
            push_batch(out, rt, alloc, form, resource, core.plan(), batch);
        }
    }
}

fn exported<R: Abort>(rt: &R, alloc: Global, attributes: &[Attr<'_>], form: Form) -> Vec<u8> {
    let resource = Resource::new(alloc, attributes).or_fail(rt);
    let mut out = Vec::new(alloc);
    if let Form::Page(dialect) = form {
        push_target(alloc, &mut out, dialect, &resource).or_fail(rt);
        push_run(&mut out, rt, alloc, form, &resource);
        push_end(&mut out, dialect).or_fail(rt);
    } else {
        push_run(&mut out, rt, alloc, form, &resource);
    }
    out
}

#[test]
fn two_readers_are_exported_in_each_form(rt: HostRuntime) {
    for (attributes, form, wanted) in EXPORTED {
        let told = exported(&rt, rt.alloc(), attributes, *form);
        assert_equal(&rt, told.as_slice(), *wanted);
    }
}

// Attributes, and why they are no resource.
const RESOURCES: &[(&[Attr<'static>], Option<ResourceFault>)] = &[
    (&[], None),
    (&[SHOP, EMPTY, PORT, DEBUG], None),
    (&[SHOP; 65], Some(ResourceFault::TooMany)),
    (&[SHOP; 64], Some(ResourceFault::RepeatedKey)),
    (&[PORT, SHOP, DEBUG, SHOP], Some(ResourceFault::RepeatedKey)),
    (&[SHOP, SHOP, NAMELESS], Some(ResourceFault::EmptyKey)),
];

#[test]
fn resources_are_checked(rt: HostRuntime) {
    for (attributes, wanted) in RESOURCES {
        let made = Resource::new(rt.alloc(), attributes);
        assert_equal(&rt, made.err(), *wanted);
    }
}

const TARGETS: &[(TargetFault, &str)] = &[
    (
        TargetFault::BadLabel { attribute: 1 },
        "1 BadLabel of attribute 1",
    ),
    (
        TargetFault::LabelCollision {
            attribute: 0,
            other: 2,
        },
        "2 LabelCollision of attribute 0 and attribute 2",
    ),
];

#[test]
fn faults_of_labels_are_printed(rt: HostRuntime) {
    for (fault, wanted) in TARGETS {
        let told = fault.to_string(rt.alloc()).or_fail(&rt);
        assert_equal(&rt, told.as_str(), *wanted);
    }
}
