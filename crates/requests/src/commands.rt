// The commands of `WlcCmd`.

pub const UP: u32 = 2;

pub const SET_INFRA: u32 = 20;

pub const SET_AUTH: u32 = 22;

pub const GET_BSSID: u32 = 23;

pub const GET_SSID: u32 = 25;

pub const SET_SSID: u32 = 26;

pub const SET_CHANNEL: u32 = 30;

pub const DISASSOC: u32 = 52;

pub const GET_ANT_DIV: u32 = 63;

pub const SET_ANT_DIV: u32 = 64;

pub const SET_DTIM_PRD: u32 = 78;

pub const GET_PM: u32 = 85;

pub const SET_PM: u32 = 86;

pub const SET_G_MODE: u32 = 110;

pub const SET_WSEC: u32 = 134;

pub const SET_BAND: u32 = 142;

pub const GET_ASSOC_LIST: u32 = 159;

pub const SET_WPA_AUTH: u32 = 165;

pub const GET_VAR: u32 = 262;

pub const SET_VAR: u32 = 263;

pub const SET_WSEC_PMK: u32 = 268;

// All of them.
pub const ALL: [u32; 21] = [
    UP,
    SET_INFRA,
    SET_AUTH,
    GET_BSSID,
    GET_SSID,
    SET_SSID,
    SET_CHANNEL,
    DISASSOC,
    GET_ANT_DIV,
    SET_ANT_DIV,
    SET_DTIM_PRD,
    GET_PM,
    SET_PM,
    SET_G_MODE,
    SET_WSEC,
    SET_BAND,
    GET_ASSOC_LIST,
    SET_WPA_AUTH,
    GET_VAR,
    SET_VAR,
    SET_WSEC_PMK,
];
