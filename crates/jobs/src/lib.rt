// What a call is beside its byte arguments. How each call begins is in specs/Jobs.antt.
#![tactic(auto)]

pub mod jobs;

// A call that is exchanges, with its numbers. Its byte arguments are lent beside it: SSID and passphrase, a variable's name and data.
#[derive(Clone, Copy)]
pub enum ExchangeCall {
    Init(u32),
    Scan,
    // Auth.
    Connect(u32),
    Disconnect,
    AbortConnect,
    // Pin, level.
    GpioSet(u32, u32),
    GetMacAddr,
    // Command, interface.
    GetIoctl(u32, u32),
    // Command, value, interface.
    SetIoctl(u32, u32, u32),
    // Interface.
    WriteIovar(u32),
    Up,
}
