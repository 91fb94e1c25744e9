// A call from its number and its arguments as bytes. Numbers are le words.
#![tactic(auto)]

ghost use Rattle.std.specs.Prelude.{◌≡◌, ◌==◌};
ghost use Rattle.std.specs.List.{position};
ghost use Rattle.lines.specs.Input.{Plain};
ghost use Rattle.arguments.specs.Arguments as to;

use jobs::ExchangeCall;
use words::get_le32;

// Byte arguments are lent from where they stand.
#[derive(Clone, Copy)]
pub enum CallArgs<'a> {
    // A call that is exchanges, and its two byte arguments; those of a call that has none are not read.
    Exchanges(ExchangeCall, &'a [u8], &'a [u8]),
    Poll,
    // Interface, frame.
    Send(u32, &'a [u8]),
    Take,
}

// How many bytes stand before the first zero.
fn first_zero(s: &[u8]) -> Option<usize>
    ensures { result ≡ position (λ b. b == 0) s.now }
{
    s.iter().position(|b| *b == 0)
}

fn init(args: &[u8]) -> Option<CallArgs<'_>>
    ensures reads { to.Reads 1 args.now result }
    ensures lent { to.LentFrom args.now result }
{
    if args.len() != 4 {
        return None;
    }
    let call = ExchangeCall::Init(get_le32(args, 0));
    Some(CallArgs::Exchanges(call, &[], &[]))
}

// Auth, SSID length, SSID, passphrase.
fn join(args: &[u8]) -> Option<CallArgs<'_>>
    ensures reads { to.Reads 3 args.now result }
    ensures lent { to.LentFrom args.now result }
{
    let (_, rest) = args.split_at_checked(8)?;
    let (ssid, passphrase) = rest.split_at_checked(get_le32(args, 4) as usize)?;
    let call = ExchangeCall::Connect(get_le32(args, 0));
    Some(CallArgs::Exchanges(call, ssid, passphrase))
}

fn send(args: &[u8]) -> Option<CallArgs<'_>>
    ensures reads { to.Reads 7 args.now result }
    ensures lent { to.LentFrom args.now result }
{
    let (_, frame) = args.split_at_checked(4)?;
    Some(CallArgs::Send(get_le32(args, 0), frame))
}

// The output is as long as the argument says.
fn take(args: &[u8]) -> Option<CallArgs<'_>>
    ensures reads { to.Reads 8 args.now result }
    ensures lent { to.LentFrom args.now result }
{
    if args.len() != 4 {
        return None;
    }
    Some(CallArgs::Take)
}

fn gpio(args: &[u8]) -> Option<CallArgs<'_>>
    ensures reads { to.Reads 9 args.now result }
    ensures lent { to.LentFrom args.now result }
{
    if args.len() != 8 {
        return None;
    }
    let call = ExchangeCall::GpioSet(get_le32(args, 0), get_le32(args, 4));
    Some(CallArgs::Exchanges(call, &[], &[]))
}

fn get(args: &[u8]) -> Option<CallArgs<'_>>
    ensures reads { to.Reads 11 args.now result }
    ensures lent { to.LentFrom args.now result }
{
    if args.len() != 8 {
        return None;
    }
    let call = ExchangeCall::GetIoctl(get_le32(args, 0), get_le32(args, 4));
    Some(CallArgs::Exchanges(call, &[], &[]))
}

fn set(args: &[u8]) -> Option<CallArgs<'_>>
    ensures reads { to.Reads 12 args.now result }
    ensures lent { to.LentFrom args.now result }
{
    if args.len() != 12 {
        return None;
    }
    let call = ExchangeCall::SetIoctl(get_le32(args, 0), get_le32(args, 4), get_le32(args, 8));
    Some(CallArgs::Exchanges(call, &[], &[]))
}

// Interface, name, zero, data.
fn variable(args: &[u8]) -> Option<CallArgs<'_>>
    ensures reads { to.Reads 13 args.now result }
    ensures lent { to.LentFrom args.now result }
{
    let (_, rest) = args.split_at_checked(4)?;
    let n = first_zero(rest)?;
    let call = ExchangeCall::WriteIovar(get_le32(args, 0));
    Some(CallArgs::Exchanges(call, &rest[..n], &rest[n + 1..]))
}

// The calls that have no arguments.
fn bare(call: u32, args: &[u8]) -> Option<CallArgs<'_>>
    requires { Plain call }
    ensures reads { to.Reads call args.now result }
    ensures lent { to.LentFrom args.now result }
{
    if !args.is_empty() {
        return None;
    }
    match call {
        2 => Some(CallArgs::Exchanges(ExchangeCall::Scan, args, args)),
        4 => Some(CallArgs::Exchanges(ExchangeCall::Disconnect, args, args)),
        5 => Some(CallArgs::Exchanges(ExchangeCall::AbortConnect, args, args)),
        6 => Some(CallArgs::Poll),
        10 => Some(CallArgs::Exchanges(ExchangeCall::GetMacAddr, args, args)),
        _ => Some(CallArgs::Exchanges(ExchangeCall::Up, args, args)),
    }
}

// The call of that number, unless arguments are missing or left over.
#[tactic(auto, using(crate::proofs::Numbered::renumbered))]
pub fn read_args(call: u32, args: &[u8]) -> Option<CallArgs<'_>>
    ensures reads { to.Reads call args.now result }
    ensures lent { to.LentFrom args.now result }
{
    match call {
        1 => init(args),
        3 => join(args),
        7 => send(args),
        8 => take(args),
        9 => gpio(args),
        11 => get(args),
        12 => set(args),
        13 => variable(args),
        _ => bare(call, args),
    }
}
