//! What is asked and what is answered, in numbers.

/// What is asked of a host. Which numbers count depends on the call.
#[repr(C)]
#[derive(Clone, Copy, Debug)]
pub struct Request {
    /// The number of the call.
    pub call: u32,
    /// The process.
    pub pid: u32,
    /// A field, a type, a limit, a shared heap, or the process that is killed.
    pub at: u32,
    /// The type, where `at` is a shared heap.
    pub to: u32,
    /// The register that is written or stored.
    pub reg: u8,
    /// The register of the object, or the one that is read.
    pub base: u8,
    pub unused0: u8,
    pub unused1: u8,
    pub unused2: u32,
    /// What a field or a limit's maximum becomes, or the number of an event.
    pub number: u64,
}

/// What came of it.
#[repr(C)]
#[derive(Clone, Copy, Debug)]
pub struct Answer {
    /// 0 where the call was done, else what is lacking for it, and nothing has changed.
    pub status: u32,
    /// 0 where the operation was not refused, else by which fault.
    pub fault: u32,
    /// The limit, process or shared heap that the fault names; of what an event was asked for, the process.
    pub at: u32,
    /// What the other numbers are.
    pub what: u32,
    pub seg: u32,
    pub serial: u32,
    pub number: u64,
}

/// For how much a host has room, each in numbers of the thing: `Rooms` of the host, as it crosses to C.
#[repr(C)]
#[derive(Clone, Copy, Debug)]
pub struct Rooms {
    /// Events in the host's whole life.
    pub events: u64,
    /// The last of them, which can be read and taken out.
    pub kept: u32,
    /// Events of one process that are not published, at least 1.
    pub tail: u32,
    /// Objects that can live at once in the segment of one heap, at least 1.
    pub objects: u32,
    /// Exit items of the heap of one process, or of one shared heap.
    pub exits: u32,
    /// Exit items of the kernel's heap, those that are kept back for the ends of processes with them.
    pub kernel_exits: u32,
    /// Objects into which exit items lead.
    pub entries: u32,
}
