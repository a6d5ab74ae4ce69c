// 02's limits of a repeat by name, each number once on this side; specs/Drive.antt has the same.

// "N picks, 1 to 65,535"
pub const MAX_PICKS: u32 = 65535;

// "C motor counts, 0 to 16,777,215"
pub const MAX_COUNTS: u32 = 16777215;

// "W bytes a row, 1 to 64"
pub const MAX_ROW: u32 = 64;
