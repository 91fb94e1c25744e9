// A read's transfer laid in two passes, as the driver did it before `bus::read::read_bytes`. It is kept to be compared and timed.
#![tactic(auto)]

ghost use Rattle.std.specs.Prelude.{◌≡◌, ◌*◌, ◌≤◌, length, take, drop};
ghost use Rattle.slices.specs.Over.{over};
ghost use Rattle.slices.specs.Le.{bytes_of};
ghost use Rattle.two_pass_read.specs.TwoPass.{laid_twice};

// Puts the bytes of all the words into dst from index 0 on.
fn unpack(dst: &mut [u8], words: &[u32])
    ensures { dst.new ≡ over dst.old 0 (bytes_of words.now) }
{
    let n = words.len().min(dst.len() / 4);
    unpack_whole(dst, words, n);
    if n < words.len() {
        put_words::put_le32(dst, 4 * n, words[n]);
    }
}

// The same for n words, all of which fit.
fn unpack_whole(dst: &mut [u8], words: &[u32], n: usize)
    requires n_in_bounds { n ≤ length words.now }
    requires n_in_bounds_2 { 4 * n ≤ length dst.old }
    ensures { dst.new ≡ over dst.old 0 (bytes_of (take n words.now)) }
{
    for i in 0..n {
        put_words::put_whole(dst, 4 * i, words[i]);
    }
}

// Puts the words' bytes from byte n on into buf from index at on.
fn put_bytes(buf: &mut [u8], at: usize, words: &[u32], n: usize)
    ensures { buf.new ≡ over buf.old at (drop n (bytes_of words.now)) }
{
    let all = 4 * words.len();
    let count = slices::fitting(buf.len(), at, all.saturating_sub(n));
    for i in 0..count {
        let j = n + i;
        buf[at + i] = put_words::byte_of(words[j / 4], j % 4);
    }
}

// The same; where the last word alone is left, at once.
fn put_tail(buf: &mut [u8], at: usize, words: &[u32], n: usize)
    requires { 1 ≤ length words.now }
    ensures { buf.new ≡ over buf.old at (drop n (bytes_of words.now)) }
{
    let last = words.len() - 1;
    if n == 4 * last {
        put_words::put_le32(buf, at, words[last]);
        return;
    }
    put_bytes(buf, at, words, n);
}

// Lays the transfer of a read of n bytes, given as its words: from its byte 4 on, then its own bytes past n.
pub fn read_bytes(buf: &mut [u8], words: &[u32], n: usize)
    ensures { buf.new ≡ laid_twice n words.now buf.old }
{
    if words.len() == 0 {
        return;
    }
    let packet = &words[1..];
    unpack(buf, packet);
    let at = n.min(4 * packet.len());
    put_tail(buf, at, words, n);
}
