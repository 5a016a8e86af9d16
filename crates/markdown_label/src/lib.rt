//! Links, images and footnote calls: the starts of labels, and their ends.
#![tactic(auto)]

pub mod gfm_label_start_footnote;
pub mod label_end;
pub mod label_start_image;
pub mod label_start_link;
mod parts;
pub mod resource;
pub mod starts;
