// Made by `wormweekly bind --for rattle`, not to be edited: `wormweekly bind --check` compares it.
//! What the service may record. The formatter is to leave it as it is.
#[rattlefmt::skip]
use metric_sdk::{
    At as At_, Attr as Attr_, Book as Book_, Expected as Expected_, Gate as Gate_, Kind as Kind_,
    NoHandle as NoHandle_, Plan as Plan_, Refusal as Refusal_, Seat as Seat_, ValueRef as ValueRef_,
    expected as expected_,
};
#[rattlefmt::skip]
use std::sync::Wait as Wait_;

/// The values of the key `route`.
#[derive(Clone, Copy, Debug, PartialEq, Eq)]
#[rattlefmt::skip]
pub enum Route {
    /// `/`
    Slash = 1,
    /// `/cart`
    Cart = 2,
    /// `/pay`
    Pay = 3,
}

#[rattlefmt::skip]
impl Route {
    /// All of them, in the order of the catalogue.
    pub const ALL: [Route; 3] = [
        Route::Slash,
        Route::Cart,
        Route::Pay,
    ];

    fn rank(self) -> u16 {
        self as u16
    }

    /// The value of this text, where it is declared.
    pub fn of(text: &str) -> Option<Route> {
        match text {
            "/" => Some(Route::Slash),
            "/cart" => Some(Route::Cart),
            "/pay" => Some(Route::Pay),
            _ => None,
        }
    }
}

/// The values of the key `status`.
#[derive(Clone, Copy, Debug, PartialEq, Eq)]
#[rattlefmt::skip]
pub enum Status {
    /// `200`
    N200 = 1,
    /// `404`
    N404 = 2,
    /// `500`
    N500 = 3,
}

#[rattlefmt::skip]
impl Status {
    /// All of them, in the order of the catalogue.
    pub const ALL: [Status; 3] = [
        Status::N200,
        Status::N404,
        Status::N500,
    ];

    fn rank(self) -> u16 {
        self as u16
    }
}

/// The values of the key `worker`.
#[derive(Clone, Copy, Debug, PartialEq, Eq)]
#[rattlefmt::skip]
pub enum Worker {
    /// `0`
    N0 = 1,
    /// `1`
    N1 = 2,
    /// `2`
    N2 = 3,
    /// `3`
    N3 = 4,
}

#[rattlefmt::skip]
impl Worker {
    /// All of them, in the order of the catalogue.
    pub const ALL: [Worker; 4] = [
        Worker::N0,
        Worker::N1,
        Worker::N2,
        Worker::N3,
    ];

    fn rank(self) -> u16 {
        self as u16
    }
}

/// `shop` `http.requests`: a counter, 1 to 1. Not all values combine: the catalogue lists which do.
#[derive(Clone, Copy)]
#[rattlefmt::skip]
pub struct On_Shop__http_requests {
    on: metric_sdk::Counter,
}

#[rattlefmt::skip]
impl On_Shop__http_requests {
    fn of(plan: &Plan_) -> Result<On_Shop__http_requests, NoHandle_> {
        let own = Expected_ {
            meter: "shop",
            name: "http.requests",
            kind: Kind_::Counter,
            unit: "",
            keys: &[
                Attr_ { key: "route", value: ValueRef_::Text("/") },
                Attr_ { key: "route", value: ValueRef_::Text("/cart") },
                Attr_ { key: "route", value: ValueRef_::Text("/pay") },
                Attr_ { key: "status", value: ValueRef_::Whole(200) },
                Attr_ { key: "status", value: ValueRef_::Whole(404) },
                Attr_ { key: "status", value: ValueRef_::Whole(500) },
            ],
            optional: 0,
        };
        let on = expected_(plan, &own)?;
        Ok(On_Shop__http_requests { on })
    }

    /// The handle of the instrument.
    pub fn on(&self) -> metric_sdk::Counter {
        self.on
    }

    /// These attributes, bound to the instrument.
    pub fn bind(&self, route: Route, status: Status) -> metric_sdk::BoundCounter {
        self.on.bind_set([route.rank(), status.rank(), 0, 0, 0, 0, 0, 0])
    }

    /// Adds a value. Where it is refused, nothing is counted.
    pub fn add<R_: Wait_, S_: Seat_, B_: Book_, G_: Gate_>(
        &self,
        at: &mut At_<'_, R_, S_, B_, G_>,
        route: Route,
        status: Status,
        value: i64,
    ) -> Result<(), Refusal_> {
        at.add_bound(&self.bind(route, status), value)
    }
}

/// `shop` `http.errors`: a counter, 0 to 1.
#[derive(Clone, Copy)]
#[rattlefmt::skip]
pub struct On_Shop__http_errors {
    on: metric_sdk::Counter,
}

#[rattlefmt::skip]
impl On_Shop__http_errors {
    fn of(plan: &Plan_) -> Result<On_Shop__http_errors, NoHandle_> {
        let own = Expected_ {
            meter: "shop",
            name: "http.errors",
            kind: Kind_::Counter,
            unit: "",
            keys: &[
            ],
            optional: 0,
        };
        let on = expected_(plan, &own)?;
        Ok(On_Shop__http_errors { on })
    }

    /// The handle of the instrument.
    pub fn on(&self) -> metric_sdk::Counter {
        self.on
    }

    /// These attributes, bound to the instrument.
    pub fn bind(&self) -> metric_sdk::BoundCounter {
        self.on.bind_set([0, 0, 0, 0, 0, 0, 0, 0])
    }

    /// Adds a value. Where it is refused, nothing is counted.
    pub fn add<R_: Wait_, S_: Seat_, B_: Book_, G_: Gate_>(
        &self,
        at: &mut At_<'_, R_, S_, B_, G_>,
        value: i64,
    ) -> Result<(), Refusal_> {
        at.add_bound(&self.bind(), value)
    }
}

/// `shop` `http.request.duration`: a histogram in `ms`, 0 to 60000.
#[derive(Clone, Copy)]
#[rattlefmt::skip]
pub struct On_Shop__http_request_duration {
    on: metric_sdk::Histogram,
}

#[rattlefmt::skip]
impl On_Shop__http_request_duration {
    fn of(plan: &Plan_) -> Result<On_Shop__http_request_duration, NoHandle_> {
        let own = Expected_ {
            meter: "shop",
            name: "http.request.duration",
            kind: Kind_::Histogram,
            unit: "ms",
            keys: &[
                Attr_ { key: "route", value: ValueRef_::Text("/") },
                Attr_ { key: "route", value: ValueRef_::Text("/cart") },
                Attr_ { key: "route", value: ValueRef_::Text("/pay") },
            ],
            optional: 0,
        };
        let on = expected_(plan, &own)?;
        Ok(On_Shop__http_request_duration { on })
    }

    /// The handle of the instrument.
    pub fn on(&self) -> metric_sdk::Histogram {
        self.on
    }

    /// These attributes, bound to the instrument.
    pub fn bind(&self, route: Route) -> metric_sdk::BoundHistogram {
        self.on.bind_set([route.rank(), 0, 0, 0, 0, 0, 0, 0])
    }

    /// Records a value. Where it is refused, nothing is counted.
    pub fn record<R_: Wait_, S_: Seat_, B_: Book_, G_: Gate_>(
        &self,
        at: &mut At_<'_, R_, S_, B_, G_>,
        route: Route,
        value: i64,
    ) -> Result<(), Refusal_> {
        at.record_bound(&self.bind(route), value)
    }
}

/// `shop` `http.response.size`: a histogram in `By`, 0 to 1000000.
#[derive(Clone, Copy)]
#[rattlefmt::skip]
pub struct On_Shop__http_response_size {
    on: metric_sdk::Histogram,
}

#[rattlefmt::skip]
impl On_Shop__http_response_size {
    fn of(plan: &Plan_) -> Result<On_Shop__http_response_size, NoHandle_> {
        let own = Expected_ {
            meter: "shop",
            name: "http.response.size",
            kind: Kind_::Histogram,
            unit: "By",
            keys: &[
                Attr_ { key: "route", value: ValueRef_::Text("/") },
                Attr_ { key: "route", value: ValueRef_::Text("/cart") },
                Attr_ { key: "route", value: ValueRef_::Text("/pay") },
                Attr_ { key: "status", value: ValueRef_::Whole(200) },
                Attr_ { key: "status", value: ValueRef_::Whole(404) },
                Attr_ { key: "status", value: ValueRef_::Whole(500) },
            ],
            optional: 0,
        };
        let on = expected_(plan, &own)?;
        Ok(On_Shop__http_response_size { on })
    }

    /// The handle of the instrument.
    pub fn on(&self) -> metric_sdk::Histogram {
        self.on
    }

    /// These attributes, bound to the instrument.
    pub fn bind(&self, route: Route, status: Status) -> metric_sdk::BoundHistogram {
        self.on.bind_set([route.rank(), status.rank(), 0, 0, 0, 0, 0, 0])
    }

    /// Records a value. Where it is refused, nothing is counted.
    pub fn record<R_: Wait_, S_: Seat_, B_: Book_, G_: Gate_>(
        &self,
        at: &mut At_<'_, R_, S_, B_, G_>,
        route: Route,
        status: Status,
        value: i64,
    ) -> Result<(), Refusal_> {
        at.record_bound(&self.bind(route, status), value)
    }
}

/// `shop` `worker.latest.duration`: a gauge in `ms`, 0 to 60000.
#[derive(Clone, Copy)]
#[rattlefmt::skip]
pub struct On_Shop__worker_latest_duration {
    on: metric_sdk::Gauge,
}

#[rattlefmt::skip]
impl On_Shop__worker_latest_duration {
    fn of(plan: &Plan_) -> Result<On_Shop__worker_latest_duration, NoHandle_> {
        let own = Expected_ {
            meter: "shop",
            name: "worker.latest.duration",
            kind: Kind_::Gauge,
            unit: "ms",
            keys: &[
                Attr_ { key: "worker", value: ValueRef_::Whole(0) },
                Attr_ { key: "worker", value: ValueRef_::Whole(1) },
                Attr_ { key: "worker", value: ValueRef_::Whole(2) },
                Attr_ { key: "worker", value: ValueRef_::Whole(3) },
            ],
            optional: 0,
        };
        let on = expected_(plan, &own)?;
        Ok(On_Shop__worker_latest_duration { on })
    }

    /// The handle of the instrument.
    pub fn on(&self) -> metric_sdk::Gauge {
        self.on
    }

    /// These attributes, bound to the instrument.
    pub fn bind(&self, worker: Worker) -> metric_sdk::BoundGauge {
        self.on.bind_set([worker.rank(), 0, 0, 0, 0, 0, 0, 0])
    }

    /// Records a value. Where it is refused, nothing is counted.
    pub fn record<R_: Wait_, S_: Seat_, B_: Book_, G_: Gate_>(
        &self,
        at: &mut At_<'_, R_, S_, B_, G_>,
        worker: Worker,
        value: i64,
    ) -> Result<(), Refusal_> {
        at.record_bound(&self.bind(worker), value)
    }
}

/// `shop` `items.sold`: a counter, 0 to 1.
#[derive(Clone, Copy)]
#[rattlefmt::skip]
pub struct On_Shop__items_sold {
    on: metric_sdk::Counter,
}

#[rattlefmt::skip]
impl On_Shop__items_sold {
    fn of(plan: &Plan_) -> Result<On_Shop__items_sold, NoHandle_> {
        let own = Expected_ {
            meter: "shop",
            name: "items.sold",
            kind: Kind_::Counter,
            unit: "",
            keys: &[
                Attr_ { key: "route", value: ValueRef_::Text("/") },
                Attr_ { key: "route", value: ValueRef_::Text("/cart") },
                Attr_ { key: "route", value: ValueRef_::Text("/pay") },
            ],
            optional: 0,
        };
        let on = expected_(plan, &own)?;
        Ok(On_Shop__items_sold { on })
    }

    /// The handle of the instrument.
    pub fn on(&self) -> metric_sdk::Counter {
        self.on
    }

    /// These attributes, bound to the instrument.
    pub fn bind(&self, route: Route) -> metric_sdk::BoundCounter {
        self.on.bind_set([route.rank(), 0, 0, 0, 0, 0, 0, 0])
    }

    /// Adds a value. Where it is refused, nothing is counted.
    pub fn add<R_: Wait_, S_: Seat_, B_: Book_, G_: Gate_>(
        &self,
        at: &mut At_<'_, R_, S_, B_, G_>,
        route: Route,
        value: i64,
    ) -> Result<(), Refusal_> {
        at.add_bound(&self.bind(route), value)
    }
}

/// `shop` `items.in_stock`: an up-down counter, -1 to 1.
#[derive(Clone, Copy)]
#[rattlefmt::skip]
pub struct On_Shop__items_in_stock {
    on: metric_sdk::UpDownCounter,
}

#[rattlefmt::skip]
impl On_Shop__items_in_stock {
    fn of(plan: &Plan_) -> Result<On_Shop__items_in_stock, NoHandle_> {
        let own = Expected_ {
            meter: "shop",
            name: "items.in_stock",
            kind: Kind_::UpDownCounter,
            unit: "",
            keys: &[
            ],
            optional: 0,
        };
        let on = expected_(plan, &own)?;
        Ok(On_Shop__items_in_stock { on })
    }

    /// The handle of the instrument.
    pub fn on(&self) -> metric_sdk::UpDownCounter {
        self.on
    }

    /// These attributes, bound to the instrument.
    pub fn bind(&self) -> metric_sdk::BoundUpDownCounter {
        self.on.bind_set([0, 0, 0, 0, 0, 0, 0, 0])
    }

    /// Adds a value. Where it is refused, nothing is counted.
    pub fn add<R_: Wait_, S_: Seat_, B_: Book_, G_: Gate_>(
        &self,
        at: &mut At_<'_, R_, S_, B_, G_>,
        value: i64,
    ) -> Result<(), Refusal_> {
        at.add_bound(&self.bind(), value)
    }
}

/// The instruments of the meter `shop`.
#[derive(Clone, Copy)]
#[rattlefmt::skip]
pub struct Shop {
    /// `http.requests`
    pub http_requests: On_Shop__http_requests,
    /// `http.errors`
    pub http_errors: On_Shop__http_errors,
    /// `http.request.duration`
    pub http_request_duration: On_Shop__http_request_duration,
    /// `http.response.size`
    pub http_response_size: On_Shop__http_response_size,
    /// `worker.latest.duration`
    pub worker_latest_duration: On_Shop__worker_latest_duration,
    /// `items.sold`
    pub items_sold: On_Shop__items_sold,
    /// `items.in_stock`
    pub items_in_stock: On_Shop__items_in_stock,
}

#[rattlefmt::skip]
impl Shop {
    /// The instruments of a plan, each compared with what this file was made of.
    pub fn of(plan: &Plan_) -> Result<Shop, NoHandle_> {
        Ok(Shop {
            http_requests: On_Shop__http_requests::of(plan)?,
            http_errors: On_Shop__http_errors::of(plan)?,
            http_request_duration: On_Shop__http_request_duration::of(plan)?,
            http_response_size: On_Shop__http_response_size::of(plan)?,
            worker_latest_duration: On_Shop__worker_latest_duration::of(plan)?,
            items_sold: On_Shop__items_sold::of(plan)?,
            items_in_stock: On_Shop__items_in_stock::of(plan)?,
        })
    }
}
