//! How a matcher tests the text of a label.
ghost use Rattle.std.specs.Prelude.{◌≡◌, ◌++◌, codes, IfOk, IfSome, is_some, string_bytes};
ghost use Rattle.regex.specs.Patterns.{find_str};
ghost use Rattle.regex.specs.Strings.{regex_pattern};
ghost use Rattle.metric_queries.specs.Tests.{IsReadFrom, IsTestOf, anchored, takes};

use metric_base::Text;
use metric_promql::{LabelTest, Sign};
use regex::{Error, Regex};
use std::alloc::{AllocError, Global};

/// The test of a matcher.
#[derive(Drop)]
pub enum Test {
    /// The text is this one.
    Is(Text),
    /// It is another one.
    IsNot(Text),
    /// The expression matches it.
    Like(Regex),
    /// The expression does not match it.
    Unlike(Regex),
    /// The expression cannot be read, or is too large: any text is taken.
    Any,
}

/// The test of a matcher. Fails only when out of memory.
pub fn test_of(alloc: Global, test: &LabelTest) -> Result<Test, AllocError>
    ensures { IfOk result (IsTestOf test.now.sign test.now.text) }
{
    let text = test.text.as_str();
    match test.sign {
        Sign::Equal => Ok(Test::Is(Text::new(alloc, text)?)),
        Sign::NotEqual => Ok(Test::IsNot(Text::new(alloc, text)?)),
        Sign::Like => match expression_of(alloc, text)? {
            Some(regex) => Ok(Test::Like(regex)),
            None => Ok(Test::Any),
        },
        Sign::Unlike => match expression_of(alloc, text)? {
            Some(regex) => Ok(Test::Unlike(regex)),
            None => Ok(Test::Any),
        },
    }
}

// The expression of a text, which has to match all of what it is asked of.
fn expression_of(alloc: Global, text: &str) -> Result<Option<Regex>, AllocError>
    ensures { IfOk result (λ found. IfSome found (IsReadFrom text.now)) }
{
    let source = anchored(alloc, text)?;
    match Regex::new(alloc, source.as_str()) {
        Ok(regex) => Ok(Some(regex)),
        Err(Error::OutOfMemory) => Err(AllocError),
        Err(_) => Ok(None),
    }
}

fn anchored(alloc: Global, text: &str) -> Result<String, AllocError>
    ensures { IfOk result (λ source. string_bytes source ≡ anchored text.now) }
{
    let mut source = String::from_str(alloc, "^(?s:")?;
    source.push_str(text)?;
    source.push_str(")$")?;
    Ok(source)
}

/// Whether a test takes a text. Fails only when out of memory.
pub fn takes(alloc: Global, test: &Test, text: &str) -> Result<bool, AllocError>
    ensures { IfOk result (λ answer. answer ≡ takes test.now text.now) }
{
    match test {
        Test::Is(wanted) => Ok(wanted.as_str() == text),
        Test::IsNot(wanted) => Ok(wanted.as_str() != text),
        Test::Like(regex) => is_like(alloc, regex, text),
        Test::Unlike(regex) => Ok(!is_like(alloc, regex, text)?),
        Test::Any => Ok(true),
    }
}

fn is_like(alloc: Global, regex: &Regex, text: &str) -> Result<bool, AllocError>
    ensures { IfOk result (λ answer.
        answer ≡ is_some (find_str (regex_pattern regex.now) text.now 0)) }
{
    let mut matcher = regex.matcher(alloc)?;
    Ok(matcher.is_match(text))
}
