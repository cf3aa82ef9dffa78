//! Reading items in place, from a tree or from bytes that were checked as a whole. Also reads lists
//! and maps of items.

mod alone;
mod decoder;
mod elements;
mod field;
mod forward;
mod in_place;
mod list;
mod map;
mod source;

pub use alone::{each_from_slice, read_alone};
pub use decoder::{ArrayElements, Decoder, MapEntries, wrong_length};
pub use elements::{DecodeElements, decode_array};
pub use field::{Decode, set_field, set_nonempty};
pub use in_place::{InPlace, copy_bstr_to, drop_refused, make_room, next_place, push_empty};
pub use list::{read_list, read_nonempty_list};
pub use map::{MapVisitor, read_map};
pub use source::ItemSource;
