//! What a file declares and does.
ghost use Rattle.std.specs.Prelude.{IsTrue};

use crate::asserted::{OrFail, Stop};
use metric_base::Text;
use metric_contents::{Attr, OwnedAttr};
use metric_history::Event;
use metric_parts::{InputFault, Needs, parts_of};
use metric_plan::Plan;
use metric_script::events_of;
use metric_setup::certified_plan;
use metric_text::lines;
use std::alloc::Global;
use std::fmt::Debug;
use std::fs;
use std::rt::Files;

const NEEDS: Needs = Needs {
    certificate: false,
    script: true,
};

/// A catalogue, a config and a script.
pub(crate) struct Input {
    pub text: String,
    pub catalogue: Text,
    pub config: Text,
    pub events: Vec<Event>,
}

impl Drop for Input {
    // A call of its own, so that what owns an input does not carry the steps of dropping each part.
    fn drop(self) {
        let Input {
            text: _text,
            catalogue: _catalogue,
            config: _config,
            events: _events,
        } = self;
    }
}

impl Input {
    /// The parts of the file of this name, as `metric_kit` reads them, without a certificate. Where it can not be read,
    /// it says why.
    pub(crate) fn read<R: Files + AllocGlobal + Eprint>(
        rt: &R,
        alloc: Global,
        name: &str,
    ) -> Option<Input> {
        match fs::read_to_string(rt, name) {
            Ok(text) => told(rt, name, Input::of(alloc, text)),
            Err(error) => told(rt, name, Err(error)),
        }
    }

    fn of(alloc: Global, text: String) -> Result<Input, InputFault> {
        let lines = lines(alloc, text.as_bytes())?;
        let parts = parts_of(alloc, &lines, NEEDS)?;
        let events = match &parts.script {
            Some(script) => events_of(alloc, script)?.events.all(alloc)?.into_vec(),
            None => Vec::new(alloc),
        };
        let catalogue = Text::new(alloc, parts.catalogue.as_str())?;
        let config = Text::new(alloc, parts.config.as_str())?;
        Ok(Input {
            text: text.clone()?,
            catalogue,
            config,
            events,
        })
    }

    /// The certified plan of the catalogue and the config.
    pub(crate) fn plan<R: Stop>(&self, rt: &R, alloc: Global) -> Plan
        ensures { IsTrue result.is_certified }
    {
        certified_plan(alloc, self.catalogue.as_str(), self.config.as_str()).or_fail(rt)
    }
}

fn told<R: Eprint, E: Debug + Drop>(rt: &R, name: &str, answer: Result<Input, E>) -> Option<Input> {
    match answer {
        Ok(input) => Some(input),
        Err(error) => {
            let _ = eprintln!(rt; "{name}: {error:?}");
            None
        }
    }
}

/// Attributes, borrowed.
pub(crate) fn attributes<'a, R: Stop>(
    rt: &R,
    alloc: Global,
    owned: &'a [OwnedAttr],
) -> Vec<Attr<'a>> {
    let mut attributes = Vec::new(alloc);
    for attribute in owned {
        let key = attribute.key.as_str();
        let value = attribute.value.as_ref();
        attributes.push(Attr { key, value }).or_fail(rt);
    }
    attributes
}
