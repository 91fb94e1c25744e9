// Each stage's request.
ghost use Rattle.std.specs.Prelude.{◌≡◌};
ghost use Rattle.control.specs.Stages as to;

use control::{Job, Lens, Stage};
use requests::numbers::length_of;
use requests::security::{auth_type, mfp, supplicant, wpa_auth, wsec};
use requests::{IovarName, Request, commands};

fn set_word(cmd: u32, value: u32) -> Request
    ensures { result ≡ to.setting cmd value }
{
    Request::SetWord {
        cmd,
        value,
        interface: 0,
    }
}

#[tactic(auto, unfolding(control::specs::Stages::request_at))]
pub fn request_at(j: Job, s: Stage) -> Request
    ensures { result ≡ to.request_at j s }
{
    let auth = j.auth;
    match s {
        Stage::Country => Request::Country(j.country),
        Stage::AntDiv => set_word(commands::SET_ANT_DIV, 0),
        Stage::Txglom => Request::Iovar(IovarName::BusTxglom, 0),
        Stage::Apsta => Request::Iovar(IovarName::Apsta, 1),
        Stage::BaWsize => Request::Iovar(IovarName::AmpduBaWsize, 8),
        Stage::Mpdu => Request::Iovar(IovarName::AmpduMpdu, 4),
        Stage::RxFactor => Request::Iovar(IovarName::AmpduRxFactor, 0),
        Stage::EventMessages => Request::EventMessages,
        Stage::InitUp => Request::Up,
        Stage::JoinBaWsize => Request::Iovar(IovarName::AmpduBaWsize, 8),
        Stage::Wsec => set_word(commands::SET_WSEC, wsec(auth)),
        Stage::SupWpa => Request::IovarPair(IovarName::SupWpa, 0, supplicant(auth)),
        Stage::Eapver => Request::IovarPair(IovarName::SupWpa2Eapver, 0, u32::MAX),
        Stage::SupWpaTmo => Request::IovarPair(IovarName::SupWpaTmo, 0, 5000),
        Stage::Key => Request::Key,
        Stage::Sae => Request::SaePassword,
        Stage::Infra => set_word(commands::SET_INFRA, 1),
        Stage::Auth => set_word(commands::SET_AUTH, auth_type(auth)),
        Stage::Mfp => Request::Iovar(IovarName::Mfp, mfp(auth)),
        Stage::WpaAuth => set_word(commands::SET_WPA_AUTH, wpa_auth(auth)),
        Stage::Ssid => Request::Ssid,
        Stage::Escan => Request::Escan,
        Stage::Disassoc => set_word(commands::DISASSOC, 0),
        Stage::Single => j.request,
    }
}

// The payload's length, as long as it is below 65,536.
#[tactic(auto, unfolding(control::specs::Stages::request_len))]
pub fn request_len(r: Request, l: Lens) -> u16
    ensures { result ≡ to.request_len r l }
{
    (length_of(r, usize::from(l.first), usize::from(l.second)) % 65536) as u16
}

// Is an error of this request ignored?
#[tactic(auto, unfolding(control::specs::Stages::is_tried))]
pub fn is_tried(s: Stage) -> bool
    ensures { result ≡ to.is_tried s }
{
    matches!(
        s,
        Stage::Txglom
            | Stage::Apsta
            | Stage::BaWsize
            | Stage::Mpdu
            | Stage::RxFactor
            | Stage::SupWpaTmo
    )
}

// Is it join's last request?
#[tactic(auto, unfolding(control::specs::Stages::is_last))]
pub fn is_last(s: Stage) -> bool
    ensures { result ≡ to.is_last s }
{
    matches!(s, Stage::Ssid)
}
