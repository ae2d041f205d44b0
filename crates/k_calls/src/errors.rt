//! Why a host does not do what it is called for.

/// Why a call of a host changes nothing.
#[derive(Clone, Copy, Debug, PartialEq, Eq)]
pub enum HostError {
    /// No such process or shared heap, or the operation names what the setup does not declare.
    Unknown,
    /// The operation has a call of its own.
    OwnCall,
    /// The process has ended.
    Ended,
    /// A collection of a heap that is touched is open, or not as far as the call asks.
    Phase,
    /// There may be no room for the event, in the journal or among what the process has unpublished, or the process has done as many
    /// operations as can be counted.
    Full,
    /// The heap has no room for one object more.
    Objects,
    /// No exit item is left to the heap, or no entry item to the book.
    Items,
    /// The allocation finds no memory for its object, and the supply has no body of its type.
    NoMemory,
    /// A shared heap is an orphan, or the one to be absorbed is none.
    Orphan,
    /// No more events are left than those that are kept for collections.
    Reserved,
}
