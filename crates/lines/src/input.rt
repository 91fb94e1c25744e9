// The player's input: words of four le bytes.
ghost use Rattle.std.specs.Prelude.{◌≡◌, ◌≤◌, length, IfOk, IfSome};
ghost use Rattle.lines.specs.Input.{is_call, output_length, Within, Fits};

use crate::room::{ArgumentBytes, RecordingWords};

// Why what was read is no call.
#[derive(Clone, Copy, Debug, PartialEq, Eq)]
pub enum InputError {
    // The input ends before all that it announced.
    Cut,
    // A count or an output is above its limit.
    TooLong,
    // A call's first word is none of those of the fourteen.
    NoCall,
}

// A call that was read.
#[derive(Clone, Copy)]
pub struct CallInput<'a> {
    // From 1 to 14.
    pub call: u32,
    pub args: &'a [u8],
    pub rec: &'a [u32],
}

// The first word of a call from 1 to 14.
fn is_call(h: u32) -> bool
    ensures { result ≡ is_call h }
{
    0xF0000000 < h && h <= 0xF000000E
}

// Take's output is as long as its argument says; no other call has one.
pub fn output_length(call: u32, args: &[u8]) -> usize
    ensures { result ≡ output_length call args.now }
{
    if call == 8 && args.len() == 4 {
        words::get_le32(args, 0) as usize
    } else {
        0
    }
}

// The next word, if the input has not ended before it.
pub fn read_word() -> Result<Option<u32>, InputError> {
    let mut bytes = [0u8; 4];
    match io::read_full(0, &mut bytes) {
        0 => Ok(None),
        4 => Ok(Some(u32::from_le_bytes(bytes))),
        _ => Err(InputError::Cut),
    }
}

fn read_count(limit: u32) -> Result<usize, InputError>
    ensures { Within limit result }
{
    let n = read_word()?.ok_or(InputError::Cut)?;
    if n <= limit {
        Ok(n as usize)
    } else {
        Err(InputError::TooLong)
    }
}

// Fills b.
fn read_bytes(b: &mut [u8]) -> Result<(), InputError> {
    if io::read_full(0, b) == b.len() {
        Ok(())
    } else {
        Err(InputError::Cut)
    }
}

// The same for words; bytes: room for theirs.
fn read_packed(words: &mut [u32], bytes: &mut [u8]) -> Result<(), InputError> {
    let whole = read_bytes(bytes);
    packing::pack(words, 0, bytes);
    whole
}

// Room for a recording's bytes.
fn recording_bytes() -> [u8; 16384]
    ensures { 16384 ≡ length result }
{
    [0; 16384]
}

pub fn read_words(words: &mut [u32]) -> Result<(), InputError>
    requires { length words.old ≤ 4096 }
{
    let mut bytes = recording_bytes();
    let n = words.len();
    read_packed(words, &mut bytes[..4 * n])
}

// A call's argument bytes, which the input pads to words.
fn read_arguments(args: &mut ArgumentBytes) -> Result<usize, InputError>
    ensures { Within 2048 result }
{
    let n = read_count(2048)?;
    read_bytes(&mut args[..n.div_ceil(4) * 4])?;
    Ok(n)
}

// A recording's words.
fn read_recording(rec: &mut RecordingWords) -> Result<usize, InputError>
    ensures { Within 4096 result }
{
    let n = read_count(4096)?;
    read_words(&mut rec[..n])?;
    Ok(n)
}

// What follows a call's first word.
fn read_rest<'a>(
    call: u32,
    args: &'a mut ArgumentBytes,
    rec: &'a mut RecordingWords,
) -> Result<CallInput<'a>, InputError>
    ensures { IfOk result Fits }
{
    let count = read_arguments(args)?;
    let words = read_recording(rec)?;
    let args = &args[..count];
    let rec = &rec[..words];
    if output_length(call, args) <= 2048 {
        Ok(CallInput { call, args, rec })
    } else {
        Err(InputError::TooLong)
    }
}

pub fn read_call<'a>(
    args: &'a mut ArgumentBytes,
    rec: &'a mut RecordingWords,
) -> Result<Option<CallInput<'a>>, InputError>
    ensures { IfOk result (λ c. IfSome c Fits) }
{
    let Some(h) = read_word()? else {
        return Ok(None);
    };
    if is_call(h) {
        Ok(Some(read_rest(h - 0xF0000000, args, rec)?))
    } else {
        Err(InputError::NoCall)
    }
}
