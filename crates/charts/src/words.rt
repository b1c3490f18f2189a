// The first words of the reports, by number (specs/Words.antt).
pub const SILENT: u8 = 0;

pub const WON: u8 = 1;

pub const LOST: u8 = 2;

pub const SENT: u8 = 3;

pub const ACK: u8 = 4;

pub const MISS: u8 = 5;

pub const DROP: u8 = 6;

pub const GOOD: u8 = 7;

pub const DCRC: u8 = 8;

pub const BROAD: u8 = 9;
