// The types of event that the driver heeds.

pub const SET_SSID: u32 = 0;

pub const AUTH: u32 = 3;

pub const DEAUTH: u32 = 5;

pub const DEAUTH_IND: u32 = 6;

pub const ASSOC: u32 = 7;

pub const DISASSOC: u32 = 11;

pub const DISASSOC_IND: u32 = 12;

pub const LINK: u32 = 16;

pub const PRUNE: u32 = 23;

pub const PSK_SUP: u32 = 46;

pub const ESCAN_RESULT: u32 = 69;
