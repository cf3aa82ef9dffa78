//! Laws of the library. Each law is the contract of a function without effects. A proof uses a law
//! by calling its function.

pub use coset_cbor::laws::{
    borrowed_chunks, borrowed_elements, borrowed_item, least_encoding_is_shortest,
    least_heads_are_shortest, nested_arrays_cost, no_item_at_a_fault, one_cost, one_item,
    one_shortest, only_end_in_prefix, shortest_is_encoding, shortest_is_in_range,
};
pub use coset_claims::laws::{one_known, received_in_supp_pub_info};
pub use coset_codec::laws::{
    encoding_is_injective, encodings_agree, equal_as_viewed, image_is_described, one_value,
    plain_or_tagged, read_as_item, reads_again, refused_as_bytes, refused_describes_nothing,
    stays_as_written,
};
pub use coset_core::laws::{
    headers_hold_signatures, kept_as_received, kept_as_written, one_empty_header,
    signatures_kept_as_received, signatures_kept_as_written,
};
pub use coset_iana::laws::{numbers_are_inverse, orders_are_by_number};
pub use coset_key::laws::{
    canonical_keys_injective, canonical_keys_read_again, keys_of_a_set, labels_ascend,
    ml_dsa_round_trip, points_round_trip,
};
pub use coset_label::laws::{
    one_order, orders_are_of_encodings, orders_are_total, orders_match_equality,
};
pub use coset_msg::laws::{
    kept_in_messages, received_in_messages, structure_as_written, structure_when_read,
};
pub use coset_recipient::laws::{
    all_countersigned_as_written, all_countersigned_when_read, kept_with_recipients,
    no_tag_is_a_message, one_of_all_structures, received_with_recipients,
    recipients_hold_recipients, structures_as_written, structures_when_read,
};
pub use coset_sign::laws::{
    attached_as_written, countersigned_as_written, countersigned_by_bytes, countersigned_when_read,
    each_signed_as_written, each_signed_when_read, kept_in_signed, one_signature_structure,
    one_structure, received_in_signed, signed_as_written, signed_when_read,
};
pub use coset_value::laws::{floats_compare_by_bits, integers_compare_as_numbers};
