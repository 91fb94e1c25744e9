// GPIO, MAC, get, set, variable and up.
ghost use Rattle.std.specs.Prelude.{◌≡◌, [], length};
ghost use Rattle.definition.specs.Calls.{Call};
ghost use Rattle.entry.specs.Entry.{shown};
ghost use Rattle.entering.specs.Entering as placed;

#[unsafe(no_mangle)]
pub extern "C" fn cyw43_gpio(
    pin: u32,
    level: u32,
    session: &mut [u8],
    undo: &mut [u8],
    rec: &[u32],
    log: &mut [u32],
    buf: &mut [u8],
    res: &mut [u64],
) -> u32
    ensures { shown result session.new log.new buf.new [] res.new ≡ placed.entered (Call.gpio_set pin level) session.old (length undo.old) rec.now log.old buf.old [] res.old }
{
    cyw43_c::settings::cyw43_gpio(pin, level, session, undo, rec, log, buf, res)
}

#[unsafe(no_mangle)]
pub extern "C" fn cyw43_mac(
    session: &mut [u8],
    undo: &mut [u8],
    rec: &[u32],
    log: &mut [u32],
    buf: &mut [u8],
    res: &mut [u64],
) -> u32
    ensures { shown result session.new log.new buf.new [] res.new ≡ placed.entered Call.get_mac_addr session.old (length undo.old) rec.now log.old buf.old [] res.old }
{
    cyw43_c::settings::cyw43_mac(session, undo, rec, log, buf, res)
}

#[unsafe(no_mangle)]
pub extern "C" fn cyw43_get(
    cmd: u32,
    interface: u32,
    session: &mut [u8],
    undo: &mut [u8],
    rec: &[u32],
    log: &mut [u32],
    buf: &mut [u8],
    res: &mut [u64],
) -> u32
    ensures { shown result session.new log.new buf.new [] res.new ≡ placed.entered (Call.get_ioctl cmd interface) session.old (length undo.old) rec.now log.old buf.old [] res.old }
{
    cyw43_c::settings::cyw43_get(cmd, interface, session, undo, rec, log, buf, res)
}

#[unsafe(no_mangle)]
pub extern "C" fn cyw43_set(
    cmd: u32,
    value: u32,
    interface: u32,
    session: &mut [u8],
    undo: &mut [u8],
    rec: &[u32],
    log: &mut [u32],
    buf: &mut [u8],
    res: &mut [u64],
) -> u32
    ensures { shown result session.new log.new buf.new [] res.new ≡ placed.entered (Call.set_ioctl cmd value interface) session.old (length undo.old) rec.now log.old buf.old [] res.old }
{
    cyw43_c::settings::cyw43_set(cmd, value, interface, session, undo, rec, log, buf, res)
}

#[unsafe(no_mangle)]
pub extern "C" fn cyw43_variable(
    interface: u32,
    name: &[u8],
    bytes: &[u8],
    session: &mut [u8],
    undo: &mut [u8],
    rec: &[u32],
    log: &mut [u32],
    buf: &mut [u8],
    res: &mut [u64],
) -> u32
    ensures { shown result session.new log.new buf.new [] res.new ≡ placed.entered (Call.write_iovar interface name.now bytes.now) session.old (length undo.old) rec.now log.old buf.old [] res.old }
{
    cyw43_c::settings::cyw43_variable(interface, name, bytes, session, undo, rec, log, buf, res)
}

#[unsafe(no_mangle)]
pub extern "C" fn cyw43_up(
    session: &mut [u8],
    undo: &mut [u8],
    rec: &[u32],
    log: &mut [u32],
    buf: &mut [u8],
    res: &mut [u64],
) -> u32
    ensures { shown result session.new log.new buf.new [] res.new ≡ placed.entered Call.up session.old (length undo.old) rec.now log.old buf.old [] res.old }
{
    cyw43_c::settings::cyw43_up(session, undo, rec, log, buf, res)
}
