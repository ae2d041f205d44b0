//! Lines and reports that are read by the definitions, computed.
ghost use Rattle.k_history.specs.Worked.{NamesAreRead, FaultsAreRead, OtherEventsAreRead, OtherLinesAreNone, HistoriesAreRead};

/// In sample lines, a name is an object made after an operation that makes one, and one that was loaded after any other.
pub fn names_are_read()
    ensures { NamesAreRead }
{}

/// A line for each fault is read, and what it names.
pub fn faults_are_read()
    ensures { FaultsAreRead }
{}

/// Sample lines of the ends of collections, of absorptions and of the opening of the last collection are read.
pub fn other_events_are_read()
    ensures { OtherEventsAreRead }
{}

/// Sample lines that are no event's are read as none.
pub fn other_lines_are_none()
    ensures { OtherLinesAreNone }
{}

/// Sample reports are read up to the line `graph`, or the number of the first bad line is given.
pub fn histories_are_read()
    ensures { HistoriesAreRead }
{}
