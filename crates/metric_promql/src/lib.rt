//! What queries of Prometheus ask for: the selectors of a text in PromQL, and the expressions of a file of rules, of a
//! dashboard or of lines, each with its place in the file.
//!
//! A text is read into tokens and these into selectors, in one pass without recursion. It is not checked whether a
//! function exists and what it takes: that is a server's business, and newer servers have more of them.
//!
//! No contract says what the scanner finds: the cases of tests/queries do.
#![tactic(auto)]

mod bytes;
mod dashboard;
mod escapes;
mod expression;
mod fault;
mod files;
mod kind;
mod labels;
mod lexer;
mod rules;
mod scanner;
mod selector;
mod token;
mod variable;

pub use expression::{Expression, Expressions};
pub use fault::{PromqlFault, Unread};
pub use files::{FileForm, expressions_of};
pub use kind::{QueryKind, is_query_kind};
pub use scanner::scan;
pub use selector::{LabelTest, NAME_LABEL, Scan, Selector, Sign};
