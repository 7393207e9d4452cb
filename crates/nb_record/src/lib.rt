//! Pages of bodies and of cells: views over borrowed bytes that copy nothing and take no memory, the writers
//! of a page, and the search for a key on a page.
//!
//! `body_page`, `cell_page` and `cell` have the views, `writers` fills pages, `lender` is what shows pages,
//! and `search_page` finds a key on one. The forms stand in `specs/`: `Fields`, `Pages`, `Records` and
//! `Writing`, and what a search answers in `Looking`. `Order`, `Cells`, `Table` and `Tree` say what the files
//! of a tree hold, for the crates above. `laws` has what is proved of pages and files, `order_laws` of the
//! order of bodies, `tree_laws` of the cells of a tree, and `force_laws` of what they give.
#![tactic(auto)]

mod answer;
mod body_page;
mod cell;
mod cell_page;
mod fields;
mod force_laws;
mod header;
mod laws;
mod lender;
mod order_laws;
mod search_page;
mod sizes;
mod tree;
mod tree_laws;
mod writers;

pub use answer::Look;
pub use body_page::BodyPage;
pub use cell::{Cell, CellView};
pub use cell_page::CellPage;
pub use force_laws::{law_cell_force, law_same_force, law_same_step, law_vector_sums};
pub use header::PageError;
pub use laws::{
    law_bodies, law_body_files, law_cells, law_chains, law_checks, law_kids, law_lookups,
    law_morton_order, law_page_bodies, law_page_cells, law_sizes, law_sorted_by, law_zero_padded,
};
pub use lender::Lender;
pub use order_laws::{law_in_cell, law_octant_sums, law_order};
pub use search_page::look;
pub use sizes::{BODIES_PER_PAGE, BODY_SIZE, CELL_SIZE, CELLS_PER_PAGE, HEADER_SIZE, KICK_AT};
pub use tree::Tree;
pub use tree_laws::{
    law_cell_bodies, law_kicked_tree, law_kid_bits, law_same_table, law_same_tree, law_tree_cells,
    law_tree_counts, law_tree_forms, law_tree_kids,
};
pub use writers::{add_body, add_cell, begin_body_page, begin_cell_page, set_next};

#[cfg(test)]
mod tests;
