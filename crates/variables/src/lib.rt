// The longer variables: country, event messages, scan, address. Each is laid from the front of what is lent, and of it what fits.
#![tactic(auto)]

ghost use Rattle.std.specs.Prelude.{◌≡◌, ◌/◌, eqb};
ghost use Rattle.slices.specs.Pick.{pick};
ghost use Rattle.slices.specs.Over.{over};
ghost use Rattle.definition.specs.Request as to;

use payload::put_name;

// 0 goes out as 0xffffffff.
fn revision(c: u32) -> u32
    ensures { result ≡ pick (eqb (c / 65536) 0) 0xffffffff (c / 65536) }
{
    match c / 65536 {
        0 => u32::MAX,
        r => r,
    }
}

pub fn put_country(part: &mut [u8], c: u32)
    ensures { part.new ≡ over part.old 0 (to.country c).payload }
{
    put_name(part, b"country");
    put_words::put_le32(part, 8, c % 65536);
    put_words::put_le32(part, 12, revision(c));
    put_words::put_le32(part, 16, c % 65536);
}

// All events but 19, 20, 40, 44, 54 and 71.
pub fn event_mask() -> [u8; 19]
    ensures { result ≡ to.event_mask }
{
    let mut mask = [255u8; 19];
    mask[2] = 231;
    mask[5] = 238;
    mask[6] = 191;
    mask[8] = 127;
    mask
}

pub fn put_event_messages(part: &mut [u8])
    ensures { part.new ≡ over part.old 0 (to.event_messages).payload }
{
    put_name(part, b"bsscfg:event_msgs");
    put_words::put_le32(part, 18, 0);
    slices::copy_over(part, 22, &event_mask());
}

pub fn put_escan(part: &mut [u8])
    ensures { part.new ≡ over part.old 0 (to.escan).payload }
{
    put_name(part, b"escan");
    // Version; action, and a reserved half word.
    put_words::put_le32(part, 6, 1);
    put_words::put_le32(part, 10, 1);
    // SSID length and SSID.
    slices::fill_zero(part, 14, 36);
    // BSSID; BSS type, scan type.
    slices::copy_over(part, 50, &[255; 6]);
    slices::copy_over(part, 56, b"\x02\x00");
    // Probes; active, passive and home time.
    slices::copy_over(part, 58, &[255; 16]);
    // The number of channels, a channel, and two bytes up to the last whole word.
    slices::fill_zero(part, 74, 8);
}

pub fn put_address(part: &mut [u8])
    ensures { part.new ≡ over part.old 0 (to.current_address).payload }
{
    put_name(part, b"cur_etheraddr");
    slices::fill_zero(part, 14, 6);
}
