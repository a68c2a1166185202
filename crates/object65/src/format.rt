//! The constants of the object format: heads, limits, and the kinds of records.

/// The bytes at the start of every object.
pub const MAGIC: [u8; 4] = [0x52, 0x36, 0x35, 0x6f];

/// The version without FILE records.
pub const VERSION_ONE: u8 = 1;

pub const VERSION_TWO: u8 = 2;

/// The largest size of an object or library file, in bytes.
pub const FILE_LIMIT: u64 = 1_073_741_824;

/// The largest body of a record, in bytes.
pub const LARGEST_BODY: usize = 4096;

/// The longest name of a source file in an object, in bytes.
pub const FILE_NAME_LIMIT: usize = 4096;

/// The largest size of a section, in bytes.
pub const SECTION_LIMIT: u32 = 16_777_216;

// The kinds of records.
pub const IMPORT: u8 = 1;

pub const SECTION: u8 = 2;

pub const LITERAL: u8 = 3;

pub const FILL: u8 = 4;

pub const VALUE: u8 = 5;

pub const EXPORT: u8 = 6;

pub const ASSERT: u8 = 7;

pub const END: u8 = 8;

pub const FILE: u8 = 9;
