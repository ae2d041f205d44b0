//! The bounds of a trace. `specs/Bounds.antt` has each under its name in small letters.
ghost use Rattle.std.specs.Prelude.{◌≡◌};
ghost use Rattle.k_types.specs.Bounds.{
  maximum_below,
  most_check_bytes,
  most_fields,
  most_limits,
  most_line_bytes,
  most_name_bytes,
  most_operations,
  most_processes,
  most_shared_heaps,
  most_trace_bytes,
  most_types,
  most_words,
  register_count,
};

/// The number of a process's registers.
pub const REGISTERS: u8 = 16;

/// The most operations of a trace, of all processes together.
pub const MOST_OPERATIONS: usize = 200_000;

/// The most processes of a trace.
pub const MOST_PROCESSES: usize = 64;

/// The most shared heaps of a trace.
pub const MOST_SHARED_HEAPS: usize = 64;

/// The most limits of a trace.
pub const MOST_LIMITS: usize = 128;

/// The most types of a trace.
pub const MOST_TYPES: usize = 256;

/// The most fields of an object.
pub const MOST_FIELDS: usize = 16;

/// Each maximum of a limit is below this, in bytes, and so is the kernel's ceiling.
pub const MAXIMUM_BELOW: u64 = 1 << 40;

/// The most bytes of the text of a trace.
pub const MOST_TRACE_BYTES: usize = 16_777_216;

/// The most bytes of what a check reads, a trace and a report.
pub const MOST_CHECK_BYTES: usize = 67_108_864;

/// The most bytes of a line, without its end.
pub const MOST_LINE_BYTES: usize = 4096;

/// The most words of a line.
pub const MOST_WORDS: usize = 18;

/// The most bytes of a declared name.
pub const MOST_NAME_BYTES: usize = 32;

/// The law that each constant is the bound of its name.
pub fn bounds_are_named()
    ensures machine { (REGISTERS ≡ register_count) × (MOST_FIELDS ≡ most_fields) × (MAXIMUM_BELOW ≡ maximum_below) }
    ensures declared { (MOST_PROCESSES ≡ most_processes) × (MOST_SHARED_HEAPS ≡ most_shared_heaps) × (MOST_LIMITS ≡ most_limits)
        × (MOST_TYPES ≡ most_types) × (MOST_OPERATIONS ≡ most_operations) }
    ensures text { (MOST_TRACE_BYTES ≡ most_trace_bytes) × (MOST_CHECK_BYTES ≡ most_check_bytes)
        × (MOST_LINE_BYTES ≡ most_line_bytes) × (MOST_WORDS ≡ most_words) × (MOST_NAME_BYTES ≡ most_name_bytes) }
{}
