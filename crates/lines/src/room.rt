// Room for what a call is played with.
ghost use Rattle.std.specs.Prelude.{◌≡◌, length, replicate};

pub type ArgumentBytes = [u8; 2048];

pub type RecordingWords = [u32; 4096];

// An empty log.
pub fn log_words() -> [u32; 8192]
    ensures value { result ≡ replicate 8192 0 }
    ensures value_2 { 8192 ≡ length result }
{
    [0; 8192]
}

// Zeros: the work buffer at first, an output's room, and that of the arguments.
pub fn zero_bytes() -> [u8; 2048]
    ensures value { result ≡ replicate 2048 0 }
    ensures value_2 { 2048 ≡ length result }
{
    [0; 2048]
}

// Room for a recording.
pub fn recording_words() -> RecordingWords
    ensures { 4096 ≡ length result }
{
    [0; 4096]
}

// Room for the lines of a call: nine numbers of at most 20 digits, and 8,192 words.
pub fn line_bytes() -> [u8; 73917]
    ensures { 73917 ≡ length result }
{
    [0; 73917]
}
