//! What the seats of the journal's table know.
use k_types::Event;
use std::collections::LinkedList;

/// What is known of a cell: a prefix of the journal, and how many events of the whole journal touch the cell. No value of
/// it is made.
pub struct CellView {
    pub cell: u32,
    pub list: LinkedList<Event>,
    pub share: u32,
}

/// What a seat knows. The journal's has the whole list, the number of a cell for each touch of it, and the cells that no
/// note has. No value of it is made.
pub enum View {
    Journal {
        list: LinkedList<Event>,
        touches: LinkedList<u32>,
        in_hand: LinkedList<CellView>,
    },
    Note(CellView),
    Spent,
}
