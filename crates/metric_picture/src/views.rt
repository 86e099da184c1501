//! The boxes of views.
use crate::diagram::{Node, Tone};
use crate::instruments::kind_word;
use crate::letters::isolated;
use metric_base::{Few, Text};
use metric_views::{Aggregation, Config, Criteria, Settings, View};
use std::alloc::{AllocError, Global};

/// A box for each view, with what it selects and what it changes.
pub(crate) fn view_nodes(alloc: Global, config: &Config) -> Result<Vec<Node>, AllocError> {
    let mut nodes = Vec::new(alloc);
    for (number, view) in config.views().iter().enumerate() {
        nodes.push(view_node(alloc, number, view)?)?;
    }
    Ok(nodes)
}

fn view_node(alloc: Global, number: usize, view: &View) -> Result<Node, AllocError> {
    let View { criteria, settings } = view;
    let title = view_title(alloc, number, criteria)?;
    let mut node = Node::new(alloc, title, tone_of(settings));
    add_criteria(alloc, &mut node, criteria)?;
    add_settings(alloc, &mut node, settings)?;
    Ok(node)
}

fn view_title(alloc: Global, number: usize, criteria: &Criteria) -> Result<String, AllocError> {
    match &criteria.instrument_name {
        Some(pattern) => {
            let pattern = pattern.as_str();
            format!(in alloc; "view {number}: {pattern}")
        }
        None => format!(in alloc; "view {number}"),
    }
}

/// How what a view makes looks.
pub(crate) fn tone_of(settings: &Settings) -> Tone {
    if settings.aggregation == Some(Aggregation::Drop) {
        Tone::Dropped
    } else if settings.stream_name.is_some()
        || settings.keep.is_some()
        || settings.exclude.is_some()
    {
        Tone::Changed
    } else {
        Tone::Plain
    }
}

// What the view asks of an instrument beside its name, which is in the title. Each criterion is named, so that a new
// one is not left out unnoticed.
fn add_criteria(alloc: Global, node: &mut Node, criteria: &Criteria) -> Result<(), AllocError> {
    let Criteria {
        instrument_name: _,
        instrument_type,
        instrument_unit,
        meter_name,
        meter_version,
        meter_schema_url,
    } = criteria;
    if let Some(kind) = *instrument_type {
        let kind = kind_word(kind);
        node.add_line(format!(in alloc; "of kind {kind}"))?;
    }
    add_text(alloc, node, "of unit", instrument_unit)?;
    add_text(alloc, node, "of meter", meter_name)?;
    add_text(alloc, node, "of version", meter_version)?;
    add_text(alloc, node, "of schema", meter_schema_url)
}

fn add_text(
    alloc: Global,
    node: &mut Node,
    label: &str,
    text: &Option<Text>,
) -> Result<(), AllocError> {
    if let Some(text) = text {
        let text = isolated(alloc, text.as_str())?;
        node.add_line(format!(in alloc; "{label} {text}"))?;
    }
    Ok(())
}

// What the view changes but for the description, which is too long for a box. Each setting is named, so that a new one
// is not left out unnoticed.
fn add_settings(alloc: Global, node: &mut Node, settings: &Settings) -> Result<(), AllocError> {
    let Settings {
        stream_name,
        description: _,
        aggregation,
        boundaries,
        keep,
        exclude,
        limit,
    } = settings;
    if let Some(aggregation) = *aggregation {
        node.add_line(String::from_str(alloc, aggregation_line(aggregation)))?;
    }
    if let Some(name) = stream_name {
        let name = name.get().as_str();
        node.add_line(format!(in alloc; "renames to {name}"))?;
    }
    if let Some(boundaries) = boundaries {
        let count = boundaries.get().as_slice().len();
        node.add_line(format!(in alloc; "{count} boundaries"))?;
    }
    if let Some(limit) = *limit {
        node.add_line(format!(in alloc; "limit {limit}"))?;
    }
    add_keys(alloc, node, "keeps", keep)?;
    add_keys(alloc, node, "leaves out", exclude)
}

fn aggregation_line(aggregation: Aggregation) -> &'static str {
    match aggregation {
        Aggregation::Default => "default aggregation",
        Aggregation::Drop => "drops",
        Aggregation::Sum => "sums",
        Aggregation::LastValue => "keeps the last value",
        Aggregation::ExplicitBucketHistogram => "makes a histogram",
    }
}

// A list of keys of the view.
fn add_keys(
    alloc: Global,
    node: &mut Node,
    label: &str,
    keys: &Option<Few<Text, 64>>,
) -> Result<(), AllocError> {
    if let Some(keys) = keys {
        node.add_line(keys_line(alloc, label, keys.as_slice()))?;
    }
    Ok(())
}

fn keys_line(alloc: Global, label: &str, keys: &[Text]) -> Result<String, AllocError> {
    let mut line = String::from_str(alloc, label)?;
    if keys.is_empty() {
        line.push_str(" no key")?;
        return Ok(line);
    }
    line.push(':')?;
    for key in keys {
        line.push(' ')?;
        line.push_str(key.as_str())?;
    }
    Ok(line)
}
