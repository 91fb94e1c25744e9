// A failed join as numbers: a tag, 0 for none, and fields, 0 where there are none.
#![tactic(auto)]

ghost use Rattle.std.specs.Prelude.{◌≡◌};
ghost use Rattle.connect_failure.specs.Parts as to;

use wlan::WifiConnectFailure;

// The tag is 1 to 7, in the order of the variants.
#[derive(Clone, Copy)]
pub struct FailureParts {
    pub tag: u8,
    pub status: u32,
    pub reason: u32,
}

fn failed(tag: u8, status: u32, reason: u32) -> FailureParts
    ensures { result ≡ to.failed tag status reason }
{
    FailureParts {
        tag: tag,
        status: status,
        reason: reason,
    }
}

fn failure_kind(f: WifiConnectFailure) -> FailureParts
    ensures { result ≡ to.failure_kind f }
{
    match f {
        WifiConnectFailure::AuthFailed { status, reason } => failed(1, status, reason),
        WifiConnectFailure::AssocFailed { status, reason } => failed(2, status, reason),
        WifiConnectFailure::SetSsidFailed { status, reason } => failed(3, status, reason),
        WifiConnectFailure::PskFailed { status, reason } => failed(4, status, reason),
        WifiConnectFailure::Pruned { status, reason } => failed(5, status, reason),
        WifiConnectFailure::Deauthenticated { reason } => failed(6, 0, reason),
        WifiConnectFailure::Timeout => failed(7, 0, 0),
    }
}

pub fn failure_parts(f: Option<WifiConnectFailure>) -> FailureParts
    ensures { result ≡ to.failure_parts f }
{
    match f {
        None => failed(0, 0, 0),
        Some(x) => failure_kind(x),
    }
}

fn kind_of(tag: u8, status: u32, reason: u32) -> WifiConnectFailure
    ensures { result ≡ to.kind_of tag status reason }
{
    match tag {
        1 => WifiConnectFailure::AuthFailed {
            status: status,
            reason: reason,
        },
        2 => WifiConnectFailure::AssocFailed {
            status: status,
            reason: reason,
        },
        3 => WifiConnectFailure::SetSsidFailed {
            status: status,
            reason: reason,
        },
        4 => WifiConnectFailure::PskFailed {
            status: status,
            reason: reason,
        },
        5 => WifiConnectFailure::Pruned {
            status: status,
            reason: reason,
        },
        6 => WifiConnectFailure::Deauthenticated { reason: reason },
        _ => WifiConnectFailure::Timeout,
    }
}

pub fn failure_of(p: FailureParts) -> Option<WifiConnectFailure>
    ensures { result ≡ to.failure_of p }
{
    if p.tag == 0 {
        return None;
    }
    Some(kind_of(p.tag, p.status, p.reason))
}
