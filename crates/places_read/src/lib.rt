// What the parts of a session hold, read where they lie.
#![tactic(auto, using(session_bytes::proofs::Sized::sized))]

ghost use Rattle.std.specs.Prelude.{◌≡◌, true};
ghost use Rattle.session_bytes.specs.Session.{is_session, session_in};

use connect_failure::{FailureParts, failure_of};
use requests::security::auth_of;
use state_bytes::numbers::wifi_of;
use state_bytes::parts::{FrameParts, ReplyParts, TickParts, frame_of, reply_of, tick_of};
use wlan::{
    Link, PendingBuf, PendingIoctlResp, ScanMarks, Sdpcm, SessionBytes, WifiAuth,
    WifiConnectFailure, WifiState,
};

pub fn sdpcm_at(s: &SessionBytes) -> Sdpcm
    requires { is_session s.now ≡ true }
    ensures { result ≡ (session_in s.now).st.sdpcm }
{
    Sdpcm {
        packet_tx_seq: s[0],
        last_bus_data_credit: s[1],
        wlan_flow_control: s[2],
        requested_ioctl_id: s[3],
        had_successful_packet: s[4] == 1,
    }
}

pub fn marks_at(s: &SessionBytes) -> ScanMarks
    requires { is_session s.now ≡ true }
    ensures { result ≡ (session_in s.now).st.scan }
{
    ScanMarks {
        scan_done: s[5] == 1,
        scan_in_progress: s[6] == 1,
    }
}

pub fn reply_at(s: &SessionBytes) -> Option<PendingIoctlResp>
    requires { is_session s.now ≡ true }
    ensures { result ≡ (session_in s.now).st.pending.ioctl_resp }
{
    reply_of(ReplyParts {
        tag: s[7],
        offset: u16::from_le_bytes([s[8], s[9]]),
        len: u16::from_le_bytes([s[10], s[11]]),
        status: u32::from_le_bytes([s[12], s[13], s[14], s[15]]),
    })
}

pub fn frame_at(s: &SessionBytes) -> Option<PendingBuf>
    requires { is_session s.now ≡ true }
    ensures { result ≡ (session_in s.now).st.pending.rx }
{
    frame_of(FrameParts {
        tag: s[16],
        offset: u16::from_le_bytes([s[17], s[18]]),
        len: u16::from_le_bytes([s[19], s[20]]),
    })
}

pub fn wifi_at(s: &SessionBytes) -> WifiState
    requires { is_session s.now ≡ true }
    ensures { result ≡ (session_in s.now).st.link.state }
{
    wifi_of(s[21])
}

pub fn auth_at(s: &SessionBytes) -> WifiAuth
    requires { is_session s.now ≡ true }
    ensures { result ≡ (session_in s.now).st.link.current_auth }
{
    auth_of(u32::from(s[22]))
}

pub fn failure_at(s: &SessionBytes) -> Option<WifiConnectFailure>
    requires { is_session s.now ≡ true }
    ensures { result ≡ (session_in s.now).st.link.connect_failure }
{
    failure_of(FailureParts {
        tag: s[23],
        status: u32::from_le_bytes([s[24], s[25], s[26], s[27]]),
        reason: u32::from_le_bytes([s[28], s[29], s[30], s[31]]),
    })
}

pub fn tick_at(s: &SessionBytes) -> Option<u64>
    requires { is_session s.now ≡ true }
    ensures { result ≡ (session_in s.now).st.link.disconnect_started_tick }
{
    tick_of(TickParts {
        tag: s[32],
        tick: u64::from_le_bytes([s[33], s[34], s[35], s[36], s[37], s[38], s[39], s[40]]),
    })
}

pub fn link_at(s: &SessionBytes) -> Link
    requires { is_session s.now ≡ true }
    ensures { result ≡ (session_in s.now).st.link }
{
    Link {
        state: wifi_at(s),
        connect_failure: failure_at(s),
        current_auth: auth_at(s),
        disconnect_started_tick: tick_at(s),
    }
}
