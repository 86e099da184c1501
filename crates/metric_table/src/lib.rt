//! Reading the fields of a TOML table one after the other, up to the first fault; and making tables.
//!
//! Each reader answers exactly what the definition of its name says, with the fault that the caller
//! gives for the table's place.
#![tactic(auto)]

mod faults;
mod fields;
mod lists;
mod making;

pub use faults::FieldFaults;
pub use fields::{
    flag_or, format_up_to, integer_of, member, only, optional_text, required, short_text,
    text_field, text_of, whole_in,
};
pub use lists::{all_integers_of, integers_of, list_of, table_of, tables_field, texts_of};
pub use making::{empty_table, insert, tabled};
