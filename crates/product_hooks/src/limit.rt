// The longest pattern, as an array's length.
use values::limit::MAX_TRANSFER;

pub const MAX_PATTERN: usize = MAX_TRANSFER as usize;
