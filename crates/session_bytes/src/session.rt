// What a session is.
use wlan::{ScanList, State};

#[derive(Clone, Copy)]
pub struct Session {
    pub st: State,
    pub list: ScanList,
}
