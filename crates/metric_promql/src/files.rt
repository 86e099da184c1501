//! The expressions of a file in the form that it has.
ghost use Rattle.std.specs.Prelude.{◌≡◌, IfSome, IfOk, IfErr};
ghost use Rattle.metric_promql.specs.Files.{form_named, IsFoundIn, IsFaultIn};

use crate::bytes::{after, closing_of};
use crate::dashboard::expressions_of_dashboard;
use crate::expression::{Expression, Expressions, Writer};
use crate::fault::{PromqlFault, Unread};
use crate::rules::expressions_of_rules;
use serde_json::Value;
use std::alloc::{AllocError, Global};

/// What a file is.
#[derive(Clone, Copy, Debug, PartialEq, Eq, Drop)]
pub enum FileForm {
    /// Rules of Prometheus, in YAML.
    Rules,
    /// A dashboard of Grafana, in JSON.
    Dashboard,
    /// Expressions, one a line.
    Lines,
}

impl FileForm {
    /// What a file is, by the end of its name; where that says nothing, by its text.
    pub fn of(name: &str, text: &str) -> FileForm
        ensures { IfSome (form_named name.now) (λ form. result ≡ form) }
    {
        let name = name.as_bytes();
        if name.ends_with(b".yaml") || name.ends_with(b".yml") {
            FileForm::Rules
        } else if name.ends_with(b".json") {
            FileForm::Dashboard
        } else if name.ends_with(b".promql") {
            FileForm::Lines
        } else {
            FileForm::of_text(text.as_bytes())
        }
    }

    // Rules begin with their groups, but for comments; a dashboard is an object with a text as the first name, which a
    // selector has too, but with a colon behind it.
    fn of_text(text: &[u8]) -> FileForm {
        if begins_object(text) {
            return FileForm::Dashboard;
        }
        for line in text.split(|byte| *byte == b'\n') {
            if line.starts_with(b"groups:") || line.starts_with(b"spec:") {
                return FileForm::Rules;
            }
        }
        FileForm::Lines
    }
}

// Whether a text begins with `{`, a text in quotes and a colon.
fn begins_object(text: &[u8]) -> bool {
    let [b'{', inner @ ..] = text.trim_ascii_start() else {
        return false;
    };
    let [b'"', name @ ..] = inner.trim_ascii_start() else {
        return false;
    };
    let end = closing_of(name, b'"').unwrap_or(name.len());
    after(name, end.saturating_add(1))
        .trim_ascii_start()
        .starts_with(b":")
}

/// The expressions of a file of this form, in the order in which they stand, with the names that its rules record.
pub fn expressions_of(alloc: Global, text: &str, form: FileForm) -> Result<Expressions, PromqlFault>
    ensures found { IfOk result (IsFoundIn form) }
    ensures fault { IfErr result (IsFaultIn form) }
{
    match form {
        FileForm::Rules => expressions_of_rules(alloc, text.as_bytes()),
        FileForm::Dashboard => match Value::from_str(alloc, text.trim_ascii_end()) {
            Ok(_) => Ok(Expressions {
                list: expressions_of_dashboard(alloc, text.as_bytes())?,
                recorded: Vec::new(alloc),
                is_template: true,
            }),
            Err(error) if error.is_memory() => Err(PromqlFault::Memory),
            Err(error) => {
                let start = line_start(text.as_bytes(), error.line());
                let at = start.saturating_add(error.column().saturating_sub(1));
                Err(PromqlFault::new(Unread::Json, at))
            }
        },
        FileForm::Lines => Ok(Expressions {
            list: expressions_of_lines(alloc, text.as_bytes())?,
            recorded: Vec::new(alloc),
            is_template: false,
        }),
    }
}

// The byte at which a line begins, counted from 1.
fn line_start(text: &[u8], line: usize) -> usize {
    let mut start = 0usize;
    for (number, before) in text.split(|byte| *byte == b'\n').enumerate() {
        if number.saturating_add(1) >= line {
            break;
        }
        start = start.saturating_add(before.len()).saturating_add(1);
    }
    start
}

// Each line is an expression, but for empty ones and those that begin with `#`.
fn expressions_of_lines(alloc: Global, text: &[u8]) -> Result<Vec<Expression>, AllocError> {
    let mut found = Vec::new(alloc);
    let mut at = 0usize;
    for line in text.split(|byte| *byte == b'\n') {
        let first = line.trim_ascii_start();
        if !(first.is_empty() || first.starts_with(b"#")) {
            let mut writer = Writer::new(alloc);
            writer.put(line, at)?;
            writer.put_into(&mut found)?;
        }
        at = at.saturating_add(line.len()).saturating_add(1);
    }
    Ok(found)
}
