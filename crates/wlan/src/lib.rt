// The driver's types by value. Names are the Rust's.
// They stand at the root, since a proof writes a type's path out wherever it meets the type.
#![tactic(auto)]

pub mod setters;

// What a caller lends: what packets, requests and replies lie in; the state and the scan list; what a call may have to put back.
pub const WORK_BUFFER_LEN: usize = 2048;

pub const SESSION_LEN: usize = 1393;

pub const UNDO_LEN: usize = 3444;

pub type WorkBuffer = [u8; WORK_BUFFER_LEN];

pub type SessionBytes = [u8; SESSION_LEN];

pub type UndoBytes = [u8; UNDO_LEN];

// What the driver asks of the bus, and what it is answered.
#[derive(Clone, Copy)]
pub enum BusOp {
    ReadInterrupt,
    ReadStatus,
    ReadPacket(u16),
    ReadClock,
    ReadTick,
    // This many bytes from the front of the work buffer.
    WritePacket(u16),
    WriteInterrupt(u16),
    FrameControl,
    // In nanoseconds.
    Wait(u32),
}

#[derive(Clone, Copy)]
pub struct BusFault {
    pub place: u8,
}

// An answer whose kind was tested.
pub type BusAnswer = Result<u64, BusFault>;

// The connection to the access point.
#[derive(Clone, Copy)]
pub enum WifiState {
    Down,
    Connecting,
    Connected,
    Disconnecting,
}

#[derive(Clone, Copy)]
pub enum WifiAuth {
    Open,
    WpaTkipPsk,
    Wpa2AesPsk,
    Wpa2MixedPsk,
    Wpa3SaeAesPsk,
    Wpa3Wpa2AesPsk,
}

#[derive(Clone, Copy)]
pub enum WifiConnectFailure {
    AuthFailed { status: u32, reason: u32 },
    AssocFailed { status: u32, reason: u32 },
    SetSsidFailed { status: u32, reason: u32 },
    PskFailed { status: u32, reason: u32 },
    Pruned { status: u32, reason: u32 },
    Deauthenticated { reason: u32 },
    Timeout,
}

// disconnect_started_tick: the tick at which a disconnect began.
#[derive(Clone, Copy)]
pub struct Link {
    pub state: WifiState,
    pub connect_failure: Option<WifiConnectFailure>,
    pub current_auth: WifiAuth,
    pub disconnect_started_tick: Option<u64>,
}

// What waits in the work buffer.
#[derive(Clone, Copy)]
pub struct PendingBuf {
    pub offset: u16,
    pub len: u16,
}

#[derive(Clone, Copy)]
pub struct PendingIoctlResp {
    pub buf: PendingBuf,
    pub status: i32,
}

// ioctl_resp: a reply for the next `do_ioctl`; rx: a frame for `take`.
#[derive(Clone, Copy)]
pub struct Pending {
    pub ioctl_resp: Option<PendingIoctlResp>,
    pub rx: Option<PendingBuf>,
}

// The SSID's bytes are zero past its length.
#[derive(Clone, Copy)]
pub struct ScanRecord {
    pub ssid: [u8; 32],
    pub bssid: [u8; 6],
    pub ssid_len: u8,
    pub channel: u8,
    pub rssi: i16,
}

// `Vec<ScanResult, 32>`: the first `count` records are heard networks.
#[derive(Clone, Copy)]
pub struct ScanList {
    pub records: [ScanRecord; 32],
    pub count: usize,
}

#[derive(Clone, Copy)]
pub struct ScanMarks {
    pub scan_done: bool,
    pub scan_in_progress: bool,
}

#[derive(Clone, Copy)]
pub struct Sdpcm {
    pub packet_tx_seq: u8,
    pub last_bus_data_credit: u8,
    pub wlan_flow_control: u8,
    pub requested_ioctl_id: u8,
    pub had_successful_packet: bool,
}

#[derive(Clone, Copy)]
pub enum Interface {
    Sta,
    Ap,
    P2p,
}

// Offsets are into the work buffer.
#[derive(Clone, Copy)]
pub enum SdpcmPacket {
    None,
    Control {
        offset: u16,
        len: u16,
        status: i32,
    },
    AsyncEvent {
        offset: u16,
        len: u16,
    },
    Data {
        offset: u16,
        len: u16,
        interface: Interface,
    },
}

// `HeaderBeyond`: an event whose header length is above its size.
#[derive(Clone, Copy)]
pub enum RxError {
    HeaderBeyond,
}

// What a received packet is read as.
pub type Received = Result<SdpcmPacket, RxError>;

#[derive(Clone, Copy)]
pub struct RxPacket {
    pub sdpcm: Sdpcm,
    pub received: Received,
}

// `Cyw43AsyncEvent`, with the scan result as the list keeps it.
#[derive(Clone, Copy)]
pub struct AsyncEvent {
    pub flags: u16,
    pub event_type: u32,
    pub status: u32,
    pub reason: u32,
    pub scan_result: ScanRecord,
}

// What the driver keeps between calls: `Cyw43Inner` without its bus, pins, work buffer and scan list.
#[derive(Clone, Copy)]
pub struct State {
    pub sdpcm: Sdpcm,
    pub pending: Pending,
    pub scan: ScanMarks,
    pub link: Link,
}

// What the driver itself ends a call with: the Rust's `DevError`s, and where the Rust panics.
#[derive(Clone, Copy)]
pub enum DriverError {
    InvalidArg,
    Timeout,
    Io,
    Busy,
    WouldBlock,
    NoMem,
    // A bus fault, with its place.
    Fault(u8),
    // An event's header length is above its size.
    EventHeader,
    // A copied part ends past the work buffer.
    PastBuffer,
}

// After any but the driver's own error all is as it was before the call.
#[derive(Clone, Copy)]
pub enum Refusal {
    Driver(DriverError),
    // The next answer is not wholly recorded.
    Unrecorded,
    // The next answer is not one to the operation.
    WrongAnswer,
    // The operation does not fit the log.
    LogFull,
    // The work buffer has another length.
    BufferLength,
}

#[derive(Clone, Copy)]
pub enum WlanPollResult {
    None,
    Rx,
    ConnectFailed(WifiConnectFailure),
}

// What a call gives that was not refused.
#[derive(Clone, Copy)]
pub enum Success {
    Done,
    Polled(WlanPollResult),
    // A frame of this length was given out.
    Taken(u16),
    // Six bytes, the first one highest.
    Mac(u64),
    Word(u32),
}

pub type Outcome = Result<Success, Refusal>;
