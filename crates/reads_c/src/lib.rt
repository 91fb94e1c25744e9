// The read routine and the one before it, for C: to be compared on one memory, and timed. 1: the words are not as many as a read of n
// bytes transfers, or the copy is not as long as the buffer; all is then as it was.
#![tactic(auto)]

ghost use Rattle.std.specs.Prelude.{◌≡◌, ◌&&◌, ℕ, ◌<◌, eqb, length, get_or};
ghost use Rattle.slices.specs.Pick.{pick};
ghost use Rattle.slices.specs.Le.{bytes_of};
ghost use Rattle.definition.specs.Device as def;
ghost use Rattle.bus.specs.Read.{byte_after};
ghost use Rattle.two_pass_read.specs.TwoPass.{laid_twice};
ghost use Rattle.reads_c.specs.Reads.{is_transfer};

fn is_transfer(n: u32, words: &[u32]) -> bool
    ensures { result ≡ is_transfer n words.now }
{
    words.len() == 1 + (n as usize + 3) / 4
}

// The routine that runs.
#[unsafe(no_mangle)]
pub extern "C" fn read_one_pass(n: u32, words: &[u32], buf: &mut [u8]) -> u32
    ensures answer { result ≡ pick (is_transfer n words.now) 0 1 }
    ensures laid { buf.new ≡ pick (is_transfer n words.now) (def.landed n (bytes_of words.now) buf.old) buf.old }
    ensures bytes { result ≡ 0 → (i : ℕ) → i < length buf.old → get_or buf.new i 0 ≡ byte_after n (bytes_of words.now) buf.old i }
{
    if is_transfer(n, words) {
        bus::read::read_bytes(buf, words, n as usize);
        return 0;
    }
    1
}

// The one before it.
#[unsafe(no_mangle)]
pub extern "C" fn read_two_passes(n: u32, words: &[u32], buf: &mut [u8]) -> u32
    ensures answer { result ≡ pick (is_transfer n words.now) 0 1 }
    ensures laid { buf.new ≡ pick (is_transfer n words.now) (laid_twice n words.now buf.old) buf.old }
{
    if is_transfer(n, words) {
        two_pass_read::read_bytes(buf, words, n as usize);
        return 0;
    }
    1
}

// Both on the same bytes: the one before on a copy of buf, the one that runs on buf. They leave the same.
#[unsafe(no_mangle)]
pub extern "C" fn read_both(n: u32, words: &[u32], buf: &mut [u8], copy: &mut [u8]) -> u32
    ensures answer { result ≡ pick (eqb (length copy.old) (length buf.old) && is_transfer n words.now) 0 1 }
    ensures one { buf.new ≡ pick (eqb result 0) (def.landed n (bytes_of words.now) buf.old) buf.old }
    ensures two { copy.new ≡ pick (eqb result 0) (laid_twice n words.now buf.old) copy.old }
    ensures same { result ≡ 0 → copy.new ≡ buf.new }
{
    if copy.len() != buf.len() {
        return 1;
    }
    if is_transfer(n, words) {
        slices::copy_over(copy, 0, buf);
        two_pass_read::read_bytes(copy, words, n as usize);
        bus::read::read_bytes(buf, words, n as usize);
        return 0;
    }
    1
}
