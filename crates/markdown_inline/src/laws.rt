//! Laws of the definitions: each function stands for the law that its contract states.

pub use markdown_innermost::laws::{events_give_content, leaves_are_stretches};
pub use markdown_model::laws::{
    counts_suffice, ends_take_the_nearest, events_nest, labels_match, leaves_cover,
    links_are_not_mailed, links_do_not_nest, merged_data_is_apart, no_run_is_left,
    one_element_list, one_end, one_pair_list, one_tree, pairs_are_local, pairs_are_sound,
};
pub use markdown_model_laws::{
    blanks_are_set_apart, chains_are_unbroken, data_is_tight, destinations_are_found,
    each_marker_is_held, each_pair_is_a_group, emails_stand_in_data, escapes, events_never_go_back,
    labels_are_found, leaves_are_contents, leaves_are_texts, lines_are_cut, links_hold_no_email,
    pairs_are_even, pairs_take_their_markers, probes_are_few, resources_are_found,
    runs_in_order_may_pair, schemes_are_taken, titles_are_found, trees_are_filled,
    values_are_decodable, what_follows_is_found,
};
pub use markdown_run::laws::steps_pass_codes;
pub use markdown_util::laws::{identifier, tables, unchanged};
