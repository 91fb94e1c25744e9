// A part laid over its bytes; all others stay.
ghost use Rattle.std.specs.Prelude.{◌≡◌, true};
ghost use Rattle.session_bytes.specs.Session.{is_session};
ghost use Rattle.places.specs.Places as to;

use connect_failure::failure_parts;
use session_bytes::list::put_whole;
use state_bytes::numbers::{auth_number, state_number};
use state_bytes::parts::{frame_parts, reply_parts, tick_parts};
use wlan::{
    Link, PendingBuf, PendingIoctlResp, ScanMarks, Sdpcm, SessionBytes, WifiAuth,
    WifiConnectFailure, WifiState,
};

pub fn put_sdpcm(s: &mut SessionBytes, x: Sdpcm)
    requires { is_session s.old ≡ true }
    ensures { to.Holds s.new (to.sdpcm_put s.old x) }
{
    let bytes = [
        x.packet_tx_seq,
        x.last_bus_data_credit,
        x.wlan_flow_control,
        x.requested_ioctl_id,
        u8::from(x.had_successful_packet),
    ];
    put_whole(s, 0, &bytes);
}

pub fn put_marks(s: &mut SessionBytes, x: ScanMarks)
    requires { is_session s.old ≡ true }
    ensures { to.Holds s.new (to.marks_put s.old x) }
{
    put_whole(s, 5, &[u8::from(x.scan_done), u8::from(x.scan_in_progress)]);
}

pub fn put_reply(s: &mut SessionBytes, x: Option<PendingIoctlResp>)
    requires { is_session s.old ≡ true }
    ensures { to.Holds s.new (to.reply_put s.old x) }
{
    let p = reply_parts(x);
    put_whole(s, 7, &[p.tag]);
    put_whole(s, 8, &p.offset.to_le_bytes());
    put_whole(s, 10, &p.len.to_le_bytes());
    put_whole(s, 12, &p.status.to_le_bytes());
}

pub fn put_frame(s: &mut SessionBytes, x: Option<PendingBuf>)
    requires { is_session s.old ≡ true }
    ensures { to.Holds s.new (to.frame_put s.old x) }
{
    let p = frame_parts(x);
    put_whole(s, 16, &[p.tag]);
    put_whole(s, 17, &p.offset.to_le_bytes());
    put_whole(s, 19, &p.len.to_le_bytes());
}

pub fn put_wifi(s: &mut SessionBytes, x: WifiState)
    requires { is_session s.old ≡ true }
    ensures { to.Holds s.new (to.wifi_put s.old x) }
{
    put_whole(s, 21, &[state_number(x)]);
}

pub fn put_auth(s: &mut SessionBytes, x: WifiAuth)
    requires { is_session s.old ≡ true }
    ensures { to.Holds s.new (to.auth_put s.old x) }
{
    put_whole(s, 22, &[auth_number(x)]);
}

pub fn put_failure(s: &mut SessionBytes, x: Option<WifiConnectFailure>)
    requires { is_session s.old ≡ true }
    ensures { to.Holds s.new (to.failure_put s.old x) }
{
    let p = failure_parts(x);
    put_whole(s, 23, &[p.tag]);
    put_whole(s, 24, &p.status.to_le_bytes());
    put_whole(s, 28, &p.reason.to_le_bytes());
}

pub fn put_tick(s: &mut SessionBytes, x: Option<u64>)
    requires { is_session s.old ≡ true }
    ensures { to.Holds s.new (to.tick_put s.old x) }
{
    let p = tick_parts(x);
    put_whole(s, 32, &[p.tag]);
    put_whole(s, 33, &p.tick.to_le_bytes());
}

pub fn put_link(s: &mut SessionBytes, x: Link)
    requires { is_session s.old ≡ true }
    ensures { to.Holds s.new (to.link_put s.old x) }
{
    put_wifi(s, x.state);
    put_auth(s, x.current_auth);
    put_failure(s, x.connect_failure);
    put_tick(s, x.disconnect_started_tick);
}
