// What a step does to the scan list, and what a call gives at its end.
ghost use Rattle.std.specs.Prelude.{◌≡◌};
ghost use Rattle.control.specs.Meaning as to;

use control::Ending;
use wlan::Success;
use work_buffer::mac_in;

pub fn success_of(e: Ending, buf: &[u8]) -> Success
    ensures { result ≡ to.success_of e buf.now }
{
    match e {
        Ending::Done => Success::Done,
        Ending::Mac => Success::Mac(mac_in(buf)),
        Ending::Word => Success::Word(words::get_le32(buf, 28)),
        Ending::Polled(p) => Success::Polled(p),
    }
}
