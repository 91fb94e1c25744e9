// Each call that is exchanges.
ghost use Rattle.std.specs.Prelude.{◌≡◌, true};
ghost use Rattle.session_bytes.specs.Session.{is_session, session_in, with_state};
ghost use Rattle.places.specs.Places.{Holds};
ghost use Rattle.starting.specs.Starting as to;

use crate::Start;
use crate::bytes::{join_start, variable_start};
use crate::plain::{
    get_start, gpio_start, init_start, leave_start, mac_start, scan_start, set_start, up_start,
};
use jobs::ExchangeCall;
use wlan::SessionBytes;

// a and b: its byte arguments.
#[tactic(auto, using(crate::proofs::Laws::unbytes), unfolding(jobs::specs::Jobs::call_of, jobs::specs::Jobs::longest))]
pub fn start(c: ExchangeCall, a: &[u8], b: &[u8], s: &mut SessionBytes) -> Start
    requires { is_session s.old ≡ true }
    ensures starts { to.CallStarts c a.now b.now (session_in s.old).st (session_in s.new).st result }
    ensures holds { Holds s.new (with_state s.old (session_in s.new).st) }
{
    match c {
        ExchangeCall::Init(country) => init_start(country),
        ExchangeCall::Scan => scan_start(s),
        ExchangeCall::Connect(auth) => join_start(auth, a, b, s),
        ExchangeCall::Disconnect => leave_start(),
        ExchangeCall::AbortConnect => leave_start(),
        ExchangeCall::GpioSet(pin, level) => gpio_start(pin, level),
        ExchangeCall::GetMacAddr => mac_start(),
        ExchangeCall::GetIoctl(cmd, interface) => get_start(cmd, interface),
        ExchangeCall::SetIoctl(cmd, value, interface) => set_start(cmd, value, interface),
        ExchangeCall::WriteIovar(interface) => variable_start(interface, a, b),
        ExchangeCall::Up => up_start(),
    }
}
