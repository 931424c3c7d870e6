//! The tables of records: a row of `record` for each record, and a row of `object` for each of its objects.
//! Why a call is refused is told where a statement's steps have no limit. Tables stand where their rows are those of records, with rowids of 64 bits.
#![tactic(auto)]

mod about;
mod creating;
mod entries;
mod entry;
mod finding;
mod inserting;
mod listing;
mod migrating;
mod rows;
mod text;
mod updating;

pub use about::{read_about, write_about};
pub use creating::create_tables;
pub use entries::{put_record, remove_record, set_object};
pub use entry::{FoundRecord, ObjectRow, RecordRows};
pub use finding::find;
pub use listing::{find_all_ids, find_ids};
pub use migrating::{OldRow, find_old, replace_tables};
pub use text::ObjectText;
