// The calls without byte arguments.
ghost use Rattle.std.specs.Prelude.{◌≡◌, true, [], ◌<◌, ◌^◌, eqb};
ghost use Rattle.slices.specs.Pick.{pick};
ghost use Rattle.wlan.specs.declared.State as state;
ghost use Rattle.definition.specs.Calls.{Call};
ghost use Rattle.session_bytes.specs.Session.{is_session, session_in};
ghost use Rattle.starting.specs.Starting as to;

use crate::Start;
use crate::kinds::{invalid_arg, single};
use control::{Ending, Stage};
use jobs::jobs::{init_job, no_job};
use places_read::marks_at;
use requests::numbers::{is_command, is_interface};
use requests::{IovarName, Request};
use wlan::SessionBytes;

#[tactic(auto, using(crate::proofs::Laws::init))]
pub fn init_start(country: u32) -> Start
    ensures { (st : state.State) → to.Starts (Call.wifi_init country) [] [] st st result }
{
    Start::Exchange(init_job(country), Stage::Country)
}

// Scan while one is in progress succeeds at once.
#[tactic(auto, using(crate::proofs::Laws::scanning, crate::proofs::Laws::scan))]
pub fn scan_start(s: &SessionBytes) -> Start
    requires { is_session s.now ≡ true }
    ensures { to.Starts Call.wifi_scan [] [] (session_in s.now).st (session_in s.now).st result }
{
    if marks_at(s).scan_in_progress {
        return Start::Done;
    }
    Start::Exchange(no_job(), Stage::Escan)
}

// leave and abort.
#[tactic(auto, using(crate::proofs::Laws::leave, crate::proofs::Laws::abort))]
pub fn leave_start() -> Start
    ensures leave { (st : state.State) → to.Starts Call.wifi_disconnect [] [] st st result }
    ensures abort { (st : state.State) → to.Starts Call.wifi_abort_connect [] [] st st result }
{
    Start::Exchange(no_job(), Stage::Disassoc)
}

#[tactic(auto, using(crate::proofs::Laws::up))]
pub fn up_start() -> Start
    ensures { (st : state.State) → to.Starts Call.up [] [] st st result }
{
    single(Request::Up, Ending::Done)
}

#[tactic(auto, using(crate::proofs::Laws::mac))]
pub fn mac_start() -> Start
    ensures { (st : state.State) → to.Starts Call.get_mac_addr [] [] st st result }
{
    single(Request::CurrentAddress, Ending::Mac)
}

#[tactic(auto, using(crate::proofs::Laws::get, crate::proofs::Laws::get_bad))]
pub fn get_start(cmd: u32, interface: u32) -> Start
    ensures { (st : state.State) → to.Starts (Call.get_ioctl cmd interface) [] [] st st result }
{
    if is_command(cmd) && is_interface(interface) {
        return single(Request::GetWord { cmd, interface }, Ending::Word);
    }
    invalid_arg()
}

#[tactic(auto, using(crate::proofs::Laws::set, crate::proofs::Laws::set_bad))]
pub fn set_start(cmd: u32, value: u32, interface: u32) -> Start
    ensures { (st : state.State) → to.Starts (Call.set_ioctl cmd value interface) [] [] st st result }
{
    if is_command(cmd) && is_interface(interface) {
        return single(
            Request::SetWord {
                cmd,
                value,
                interface,
            },
            Ending::Done,
        );
    }
    invalid_arg()
}

fn pin_mask(pin: u32) -> u32
    requires { pin < 3 }
    ensures { result ≡ 2 ^ pin }
{
    1 << pin
}

// High unless 0.
fn pin_value(mask: u32, level: u32) -> u32
    ensures { result ≡ pick (eqb level 0) 0 mask }
{
    if level == 0 { 0 } else { mask }
}

#[tactic(auto, using(crate::proofs::Laws::gpio, crate::proofs::Laws::gpio_bad))]
pub fn gpio_start(pin: u32, level: u32) -> Start
    ensures { (st : state.State) → to.Starts (Call.gpio_set pin level) [] [] st st result }
{
    if pin < 3 {
        let mask = pin_mask(pin);
        let q = Request::IovarPair(IovarName::Gpioout, mask, pin_value(mask, level));
        return single(q, Ending::Done);
    }
    invalid_arg()
}
