//! Readers, one by one.
use crate::drafting::{Draft, names_of_texts, number_text, put_text, text_at};
use crate::tree::Row;
use std::alloc::{AllocError, Global};

/// Adds the readers by their names.
pub(crate) fn add_readers(
    alloc: Global,
    draft: &mut Draft,
    readers: &[&str],
) -> Result<(), AllocError> {
    let language = draft.language;
    let names = names_of_texts(alloc, readers, language.readers.names.style)?;
    for (number, reader) in readers.iter().enumerate() {
        let name = text_at(names.as_slice(), number);
        add_reader(alloc, draft, number, *reader, name)?;
    }
    Ok(())
}

fn add_reader(
    alloc: Global,
    draft: &mut Draft,
    number: usize,
    text: &str,
    name: &str,
) -> Result<(), AllocError> {
    let mut row = Row::new(alloc, "reader", 0);
    row.put("reader", String::from_str(alloc, name));
    row.put("place", number_text(alloc, number));
    let texts = ["quoted_reader", "said_reader"];
    put_text(alloc, draft, &mut row, texts, text);
    let whose = format!(in alloc; "the reader {text:?}")?;
    let language = draft.language;
    draft.add_named(alloc, row, language.readers.names.whole, whose.as_str())?;
    Ok(())
}
