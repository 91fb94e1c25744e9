// init, scan, join, leave and abort.
ghost use Rattle.std.specs.Prelude.{◌≡◌, [], length};
ghost use Rattle.definition.specs.Calls.{Call};
ghost use Rattle.entry.specs.Entry.{shown};
ghost use Rattle.entering.specs.Entering as placed;

#[unsafe(no_mangle)]
pub extern "C" fn cyw43_init(
    country: u32,
    session: &mut [u8],
    undo: &mut [u8],
    rec: &[u32],
    log: &mut [u32],
    buf: &mut [u8],
    res: &mut [u64],
) -> u32
    ensures { shown result session.new log.new buf.new [] res.new ≡ placed.entered (Call.wifi_init country) session.old (length undo.old) rec.now log.old buf.old [] res.old }
{
    cyw43_c::joins::cyw43_init(country, session, undo, rec, log, buf, res)
}

#[unsafe(no_mangle)]
pub extern "C" fn cyw43_scan(
    session: &mut [u8],
    undo: &mut [u8],
    rec: &[u32],
    log: &mut [u32],
    buf: &mut [u8],
    res: &mut [u64],
) -> u32
    ensures { shown result session.new log.new buf.new [] res.new ≡ placed.entered Call.wifi_scan session.old (length undo.old) rec.now log.old buf.old [] res.old }
{
    cyw43_c::joins::cyw43_scan(session, undo, rec, log, buf, res)
}

#[unsafe(no_mangle)]
pub extern "C" fn cyw43_join(
    auth: u32,
    ssid: &[u8],
    passphrase: &[u8],
    session: &mut [u8],
    undo: &mut [u8],
    rec: &[u32],
    log: &mut [u32],
    buf: &mut [u8],
    res: &mut [u64],
) -> u32
    ensures { shown result session.new log.new buf.new [] res.new ≡ placed.entered (Call.wifi_connect auth ssid.now passphrase.now) session.old (length undo.old) rec.now log.old buf.old [] res.old }
{
    cyw43_c::joins::cyw43_join(auth, ssid, passphrase, session, undo, rec, log, buf, res)
}

#[unsafe(no_mangle)]
pub extern "C" fn cyw43_leave(
    session: &mut [u8],
    undo: &mut [u8],
    rec: &[u32],
    log: &mut [u32],
    buf: &mut [u8],
    res: &mut [u64],
) -> u32
    ensures { shown result session.new log.new buf.new [] res.new ≡ placed.entered Call.wifi_disconnect session.old (length undo.old) rec.now log.old buf.old [] res.old }
{
    cyw43_c::joins::cyw43_leave(session, undo, rec, log, buf, res)
}

#[unsafe(no_mangle)]
pub extern "C" fn cyw43_abort(
    session: &mut [u8],
    undo: &mut [u8],
    rec: &[u32],
    log: &mut [u32],
    buf: &mut [u8],
    res: &mut [u64],
) -> u32
    ensures { shown result session.new log.new buf.new [] res.new ≡ placed.entered Call.wifi_abort_connect session.old (length undo.old) rec.now log.old buf.old [] res.old }
{
    cyw43_c::joins::cyw43_abort(session, undo, rec, log, buf, res)
}
