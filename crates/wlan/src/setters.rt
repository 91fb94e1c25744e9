// Every function that writes a state, or a group of its fields, stands here.
ghost use Rattle.std.specs.Prelude.{◌≡◌};
ghost use Rattle.wlan.specs.State as to;

use crate::{
    Link, Pending, PendingBuf, ScanMarks, Sdpcm, State, WifiAuth, WifiConnectFailure, WifiState,
};

pub fn fresh() -> State
    ensures { result ≡ to.fresh }
{
    State {
        sdpcm: Sdpcm {
            packet_tx_seq: 0,
            last_bus_data_credit: 1,
            wlan_flow_control: 0,
            requested_ioctl_id: 0,
            had_successful_packet: false,
        },
        pending: Pending {
            ioctl_resp: None,
            rx: None,
        },
        scan: ScanMarks {
            scan_done: false,
            scan_in_progress: false,
        },
        link: Link {
            state: WifiState::Down,
            connect_failure: None,
            current_auth: WifiAuth::Open,
            disconnect_started_tick: None,
        },
    }
}

pub fn with_pending(s: State, x: Pending) -> State
    ensures { result ≡ to.with_pending s x }
{
    State { pending: x, ..s }
}

pub fn set_seq(s: Sdpcm, n: u8) -> Sdpcm
    ensures { result ≡ to.set_seq s n }
{
    Sdpcm {
        packet_tx_seq: n,
        ..s
    }
}

// Flow and credit at once.
pub fn set_flow_credit(s: Sdpcm, flow: u8, credit: u8) -> Sdpcm
    ensures { result ≡ to.set_credit (to.set_flow s flow) credit }
{
    Sdpcm {
        last_bus_data_credit: credit,
        wlan_flow_control: flow,
        ..s
    }
}

pub fn set_id(s: Sdpcm, n: u8) -> Sdpcm
    ensures { result ≡ to.set_id s n }
{
    Sdpcm {
        requested_ioctl_id: n,
        ..s
    }
}

pub fn set_mark(s: Sdpcm, b: bool) -> Sdpcm
    ensures { result ≡ to.set_mark s b }
{
    Sdpcm {
        had_successful_packet: b,
        ..s
    }
}

pub fn set_frame(p: Pending, x: Option<PendingBuf>) -> Pending
    ensures { result ≡ to.set_frame p x }
{
    Pending { rx: x, ..p }
}

pub fn set_link_state(l: Link, s: WifiState) -> Link
    ensures { result ≡ to.set_link_state l s }
{
    Link { state: s, ..l }
}

pub fn set_failure(l: Link, f: Option<WifiConnectFailure>) -> Link
    ensures { result ≡ to.set_failure l f }
{
    Link {
        connect_failure: f,
        ..l
    }
}

pub fn set_tick(l: Link, t: Option<u64>) -> Link
    ensures { result ≡ to.set_tick l t }
{
    Link {
        disconnect_started_tick: t,
        ..l
    }
}
