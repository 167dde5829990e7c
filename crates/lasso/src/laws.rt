//! The laws of the definitions that contracts speak of: of keys, capacities and limits, of the account that an
//! interner for one thread keeps, of the histories of one that threads share, with what its callers can rely on, and of the
//! lists that interfaces speak of. Each is the contract of a function that does nothing.
pub use super::interface::meanings::{
    boxed_means_the_same, lent_means_the_same, lent_mut_means_the_same, reader_means_its_texts,
    reader_object_has_its_texts, resolver_means_its_texts, resolver_object_has_its_texts,
    rodeo_means_its_texts, rodeo_object_has_its_texts, threaded_means_no_list,
};
pub use lasso_parts::laws::{
    capacities_compare_by_both, capacities_compare_texts_first, large_spur_number,
    large_spurs_compare_by_position, limits_compare_by_bytes, micro_spur_number,
    micro_spurs_compare_by_position, mini_spur_number, mini_spurs_compare_by_position, spur_number,
    spurs_compare_by_position, store_never_grows_past_limit, store_refuses_exactly_past_limit,
    store_serves_as_worked,
};
pub use lasso_shared::laws::{
    answered_keys_resolve, calls_tell_keys, charge_refuses_exactly_past_limit,
    keys_are_equal_where_texts_are, legal_histories_hold, passes_share_keys, resolved_texts_stay,
    seen_texts_keep_keys, worked_calls_are_calls, wrong_calls_are_none, wrong_plain_calls_are_none,
};
