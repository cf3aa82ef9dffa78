//! Writing: appends encodings to bytes, directly from the values in memory.

mod encode;
mod map;

pub use encode::{
    Array, Encode, encode_five, encode_four, encode_three, encode_to_tagged_vec, encode_to_value,
    encode_to_vec, encode_two, rolled_back,
};
pub use map::{write_field, write_nonempty, write_optional, write_pairs_head, write_rest};
