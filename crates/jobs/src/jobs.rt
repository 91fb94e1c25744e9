// What a call hands to the run beside its byte arguments.
ghost use Rattle.std.specs.Prelude.{◌≡◌, ◌≤◌};
ghost use Rattle.jobs.specs.Jobs as to;

use crate::ExchangeCall;
use control::{Ending, Job, Lens};
use requests::Request;
use wlan::WifiAuth;

pub fn no_job() -> Job
    ensures { result ≡ to.no_job }
{
    request_job(Request::Up, Ending::Done)
}

pub fn request_job(r: Request, e: Ending) -> Job
    ensures { result ≡ to.request_job r e }
{
    Job {
        country: 0,
        auth: WifiAuth::Open,
        long_passphrase: false,
        long_ssid: false,
        size: 0,
        request: r,
        ending: e,
    }
}

pub fn init_job(country: u32) -> Job
    ensures { result ≡ to.init_job country }
{
    Job {
        country: country,
        auth: WifiAuth::Open,
        long_passphrase: false,
        long_ssid: false,
        size: 0,
        request: Request::Up,
        ending: Ending::Done,
    }
}

pub fn join_job(auth: WifiAuth, long_passphrase: bool, long_ssid: bool) -> Job
    ensures { result ≡ to.join_job auth long_passphrase long_ssid }
{
    Job {
        country: 0,
        auth: auth,
        long_passphrase: long_passphrase,
        long_ssid: long_ssid,
        size: 0,
        request: Request::Up,
        ending: Ending::Done,
    }
}

// n where it is at most max, else 0: a longer argument is refused without being used.
pub fn at_most(max: usize, n: usize) -> usize
    ensures cut { result ≡ to.cut max n }
    ensures most { (n ≤ max → result ≡ n) × (result ≤ max) × (result ≤ n) }
{
    if n <= max { n } else { 0 }
}

// How long the byte arguments may be that the run is handed: SSID and passphrase, a variable's name and data.
pub fn longest(c: ExchangeCall) -> Lens
    ensures is { result ≡ to.longest c }
    ensures most { (result.first ≤ 2020) × (result.second ≤ 2020) }
{
    match c {
        ExchangeCall::Connect(_) => Lens {
            first: 32,
            second: 128,
        },
        ExchangeCall::WriteIovar(_) => Lens {
            first: 2020,
            second: 2020,
        },
        _ => Lens {
            first: 0,
            second: 0,
        },
    }
}
