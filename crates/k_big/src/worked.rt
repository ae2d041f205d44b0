//! The smallest trace and its summary, and words that are read, computed by the definitions.
ghost use Rattle.std.specs.Prelude.{◌≡◌};
ghost use Rattle.k_trace.specs.Spelling.{text};
ghost use Rattle.k_big.specs.Workload.{big_trace};
ghost use Rattle.k_big.specs.Worked.{WordsAreRead, file_order_summary, smallest_summary, smallest_text};

/// The text of the trace where each process makes one object.
pub fn smallest_trace_row()
    ensures { text (big_trace 1) ≡ smallest_text }
{}

/// The summary of that trace, run in the order of the file.
pub fn smallest_summary_row()
    ensures { file_order_summary 1 ≡ smallest_summary }
{}

/// Of ten words, those from `1` to `5000` are read, and the others are not.
pub fn words_are_read()
    ensures { WordsAreRead }
{}
