//! What a drawing says of a molecule: rays and how they turn, wedges and centres, sides of double bonds.
#![tactic(auto)]

mod centres;
mod ct_read;
mod drawn;
mod drawn_centres;
mod drawn_rays;
mod drawn_sides;
mod marks;
mod neighbours;
mod orders;
mod rays;
mod stereo;
mod table_atoms;
mod table_faults;
mod table_graph;
mod table_sides;
#[cfg(test)]
mod tests;
mod turns;
mod wedge;
mod wedge_lists;
mod wedge_read;
mod wedges;

pub use centres::centre_of_wedges;
pub use ct_read::{CtRead, read_ct};
pub use drawn::is_drawn;
pub use orders::{met_order_law, ray_order, side};
pub use wedge::Wedge;
pub use wedge_lists::{is_middle_one, wedge_list};
pub use wedge_read::WedgeRead;
pub use wedges::Wedges;
