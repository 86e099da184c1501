//! The wire format of protocol buffers: varints, words of eight bytes, doubles and blocks, written as fields.
//!
//! A field is its mark and its value. The mark has the field's number, and how the value is written.
#![tactic(auto)]

mod fields;
mod laws;
mod varint;

pub use fields::{
    begin_block, end_block, push_block, push_block_head, push_block_of_two, push_double_field,
    push_doubles_block, push_signed_field, push_varint_field, push_word_field, push_words_block,
};
pub use laws::what_is_written_is_read_back;
pub use varint::push_varint;
