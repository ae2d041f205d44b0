//! The parts of a report that show a state, for other texts that have them.
pub use crate::charges::charges;
pub use crate::exits::exits;
pub use crate::graph::graph;
pub use crate::heading::heading;
pub use crate::roots::roots;
pub use crate::shares::shares;
pub use crate::words::segment_name;
