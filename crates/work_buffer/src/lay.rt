// What each request lays into the part of the work buffer from byte 28 on: the payload of the definition's request, and of it what fits.
ghost use Rattle.std.specs.Prelude.{◌≡◌, [], ◌∷◌};
ghost use Rattle.slices.specs.Over.{over};
ghost use Rattle.definition.specs.Request as to;
ghost use Rattle.requests.specs.Request.{name_of, request_of};

use payload::{put_key, put_name, put_sae_password, put_ssid, put_variable, put_word, put_zeros};
use requests::numbers::{name, name_len};
use requests::{IovarName, Request};
use variables::{put_address, put_country, put_escan, put_event_messages};

pub fn put_iovar(part: &mut [u8], v: IovarName, x: u32)
    ensures { part.new ≡ over part.old 0 (to.iovar (name_of v) (x ∷ [])).payload }
{
    put_name(part, name(v));
    put_words::put_le32(part, name_len(v) + 1, x);
}

pub fn put_iovar_pair(part: &mut [u8], v: IovarName, x: u32, y: u32)
    ensures { part.new ≡ over part.old 0 (to.iovar (name_of v) (x ∷ y ∷ [])).payload }
{
    put_iovar(part, v, x);
    put_words::put_le32(part, name_len(v) + 5, y);
}

pub fn lay_payload(part: &mut [u8], r: Request, first: &[u8], second: &[u8])
    ensures { part.new ≡ over part.old 0 (request_of r first.now second.now).payload }
{
    match r {
        Request::Country(c) => put_country(part, c),
        Request::SetWord { value, .. } => put_word(part, value),
        Request::GetWord { .. } => put_zeros(part, 4),
        Request::Iovar(v, x) => put_iovar(part, v, x),
        Request::IovarPair(v, x, y) => put_iovar_pair(part, v, x, y),
        Request::EventMessages => put_event_messages(part),
        Request::Escan => put_escan(part),
        Request::CurrentAddress => put_address(part),
        Request::Up => {}
        Request::Ssid => put_ssid(part, first),
        Request::Key => put_key(part, second),
        Request::SaePassword => put_sae_password(part, second),
        Request::Variable(_) => put_variable(part, first, second),
    }
}
