// The limits by name, 01's and 02's, each number once on this side; the rules have the same (specs/Limit.antt of `rules`).
// kept: `as` between the types of constants, where no `From` can be called

// "Volumes are 0 to 3."
pub const MAX_VOLUME: u32 = 3;

// "a serial, 0 to 65,535"
pub const MAX_SERIAL: u32 = 65535;

// "At most 64 objects live."
pub const MAX_OBJECTS: usize = 64;

// "a size of 0 to 8,192 bytes"
pub const MAX_SIZE: u32 = 8192;

// "held in blocks of 64 bytes, 512 in all"
pub const BLOCK_SIZE: usize = 64;

pub const MAX_BLOCKS: usize = 512;

// "At most 512 live in the store.", of capabilities
pub const MAX_CAPS: usize = 512;

// "a box of at most 4 messages"
pub const MAX_MESSAGES: u8 = 4;

pub const BOX_SLOTS: usize = MAX_MESSAGES as usize;

// "A message is 0 to 16 bytes"
pub const MAX_MESSAGE: usize = 16;

// "Rights add up, 0 to 8191"
pub const MAX_RIGHTS: u32 = 8191;

// "a read or write of at most 256 bytes"
pub const MAX_TRANSFER: u32 = 256;

// "answer buffer of at least 256 bytes"
pub const MIN_BUFFER: usize = 256;

// 02, CR 6: "a scratch of 16 16-bit numbers, where 512 were needed"
pub const MIN_SCRATCH: usize = 16;

// "a lock's first word below 2,147,483,648"; "If the presented p1 is 2,147,483,648 or more"
pub const TOP: u32 = 2147483648;

// the largest 32-bit number: "the money total is at most 4,294,967,295"
pub const MAX_WORD: u32 = 4294967295;

// the limit of a derive line that has none; 02, CR 11: "A derive_cap line without a limit now gives moneyword 0."
pub const DEFAULT_LIMIT: u32 = 0;

// 02, CR 9: "The store holds a day, 0 to 65,535"; "A day or a last day above 65,535 is 2."; of last days, "A master's is 65,535."
pub const MAX_DAY: u32 = 65535;

// the last day of a derive line that has none: "a line without it takes the parent's", which is never above this
pub const DEFAULT_LAST_DAY: u32 = MAX_DAY;

// 02, CR 10: "gives up to 32 capabilities"
pub const MAX_ENTRIES: usize = 32;

// a capability in such a list is four numbers: volume, serial, p1, p2
pub const ENTRY_NUMBERS: usize = 4;

// a byte, of write and of send, as a number of a line
pub const MAX_BYTE: u32 = 255;
