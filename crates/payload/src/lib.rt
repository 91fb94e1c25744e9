// The bytes of each payload, laid from the front of what is lent, and of them what fits.
#![tactic(auto)]

ghost use Rattle.std.specs.Prelude.{◌≡◌, [], replicate};
ghost use Rattle.slices.specs.Over.{over};
ghost use Rattle.slices.specs.Le.{le16, le32};
ghost use Rattle.definition.specs.Request as to;

// The low 16 bits of n, from index at on.
fn put_low16(part: &mut [u8], at: usize, n: usize)
    ensures { part.new ≡ over part.old at (le16 n) }
{
    put_words::put_le16(part, at, (n % 65536) as u16);
}

// The low 32 bits of n, from index at on.
pub fn put_low32(part: &mut [u8], at: usize, n: usize)
    ensures { part.new ≡ over part.old at (le32 n) }
{
    put_words::put_le32(part, at, (n % 4294967296) as u32);
}

// A variable's name and a zero.
pub fn put_name(part: &mut [u8], name: &[u8])
    ensures { part.new ≡ over part.old 0 (to.named name.now []) }
{
    slices::copy_over(part, 0, name);
    slices::fill_zero(part, name.len(), 1);
}

pub fn put_variable(part: &mut [u8], name: &[u8], bytes: &[u8])
    ensures { part.new ≡ over part.old 0 (to.named name.now bytes.now) }
{
    put_name(part, name);
    slices::copy_over(part, name.len() + 1, bytes);
}

pub fn put_word(part: &mut [u8], x: u32)
    ensures { part.new ≡ over part.old 0 (le32 x) }
{
    put_words::put_le32(part, 0, x);
}

pub fn put_zeros(part: &mut [u8], n: usize)
    ensures { part.new ≡ over part.old 0 (replicate n 0) }
{
    slices::fill_zero(part, 0, n);
}

// s, and zeros up to n bytes.
fn put_filled(part: &mut [u8], at: usize, s: &[u8], n: usize)
    ensures { part.new ≡ over part.old at (to.filled n s.now) }
{
    slices::fill_zero(part, at, n);
    slices::copy_over(part, at, s);
}

pub fn put_ssid(part: &mut [u8], ssid: &[u8])
    ensures { part.new ≡ over part.old 0 (to.join_ssid ssid.now).payload }
{
    put_low32(part, 0, ssid.len());
    put_filled(part, 4, ssid, 32);
}

pub fn put_key(part: &mut [u8], passphrase: &[u8])
    ensures { part.new ≡ over part.old 0 (to.set_key passphrase.now).payload }
{
    put_low16(part, 0, passphrase.len());
    put_words::put_le16(part, 2, 1);
    put_filled(part, 4, passphrase, 64);
}

pub fn put_sae_password(part: &mut [u8], passphrase: &[u8])
    ensures { part.new ≡ over part.old 0 (to.sae_password passphrase.now).payload }
{
    put_name(part, b"sae_password");
    put_low16(part, 13, passphrase.len());
    put_filled(part, 15, passphrase, 128);
}
