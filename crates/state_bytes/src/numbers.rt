// Numbers for what has a few values, and signed numbers as unsigned ones.
ghost use Rattle.std.specs.Prelude.{◌≡◌};
ghost use Rattle.slices.specs.Le.{signed16, signed32};
ghost use Rattle.definition.specs.Player.{state_number};
ghost use Rattle.state_bytes.specs.Numbers.{wifi_of, auth_number, unsigned16, unsigned32};

use wlan::{WifiAuth, WifiState};

#[tactic(auto, unfolding(definition::specs::Player::state_number))]
pub fn state_number(s: WifiState) -> u8
    ensures { result ≡ state_number s }
{
    s as u8
}

#[tactic(auto, unfolding(crate::specs::Numbers::wifi_of))]
pub fn wifi_of(n: u8) -> WifiState
    ensures { result ≡ wifi_of n }
{
    match n {
        0 => WifiState::Down,
        1 => WifiState::Connecting,
        2 => WifiState::Connected,
        _ => WifiState::Disconnecting,
    }
}

#[tactic(auto, unfolding(crate::specs::Numbers::auth_number))]
pub fn auth_number(a: WifiAuth) -> u8
    ensures { result ≡ auth_number a }
{
    a as u8
}

pub fn unsigned16(x: i16) -> u16
    ensures { (result ≡ unsigned16 x) × (signed16 result ≡ x) }
{
    x.cast_unsigned()
}

pub fn unsigned32(x: i32) -> u32
    ensures { (result ≡ unsigned32 x) × (signed32 result ≡ x) }
{
    x.cast_unsigned()
}
