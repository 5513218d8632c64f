//! Where a frame ends, found byte by byte. A scan keeps its place, so that no byte is read twice.
ghost use Rattle.std.specs.Prelude.{◌≡◌, ◌+◌, ◌<◌, ◌^◌, ℕ, List, length, drop, min, not, IsTrue, IsFalse, MatchBool};
ghost use Rattle.pq_base.specs.Gaps.{is_space};
ghost use Rattle.session_proto.specs.Frames.{is_code, ends, opens, after, shows, is_blank, Skips};
ghost use Rattle.session_proto.specs.Scans.{IsRead, IsScan, IsAt, StandsAtEnd, scan_behind, is_blank_scan};

/// A frame has at most so many bytes with its `;`.
pub const MAX_FRAME: usize = 1_048_576;

/// The place of a byte in a frame.
#[derive(Clone, Copy, Debug, PartialEq, Eq)]
pub(crate) enum Place {
    /// Outside a text and a comment.
    Plain,
    /// After a `-` that may begin a comment.
    Dash,
    /// In a text.
    Text,
    /// In a comment.
    Comment,
}

/// How far a frame is read, from its first byte on.
#[derive(Clone, Copy, Debug)]
pub(crate) struct Scan {
    pub place: Place,
    /// Whether a token was seen.
    pub token: bool,
    /// How many bytes were read.
    pub passed: usize,
}

/// Where a frame begins among the bytes held, and how far it is read.
#[derive(Clone, Copy, Debug)]
pub(crate) struct Cursor {
    pub start: usize,
    pub scan: Scan,
}

fn is_space(byte: u8) -> bool
    ensures { result ≡ is_space byte }
{
    byte == b'\t' || byte == b'\n' || byte == b'\r' || byte == b' '
}

fn is_code(place: Place) -> bool
    ensures { result ≡ is_code place }
{
    match place {
        Place::Plain | Place::Dash => true,
        Place::Text | Place::Comment => false,
    }
}

fn ends(place: Place, byte: u8) -> bool
    ensures { result ≡ ends place byte }
{
    is_code(place) && byte == b';'
}

// The place after a byte outside a text and a comment: a `-` leads to a place of its own.
fn opens(byte: u8, dash: Place) -> Place
    ensures { result ≡ opens byte dash }
{
    if byte == b'\'' {
        Place::Text
    } else if byte == b'-' {
        dash
    } else {
        Place::Plain
    }
}

fn after(place: Place, byte: u8) -> Place
    ensures { result ≡ after place byte }
{
    match place {
        Place::Plain => opens(byte, Place::Dash),
        Place::Dash => opens(byte, Place::Comment),
        Place::Text if byte == b'\'' => Place::Plain,
        Place::Text => Place::Text,
        Place::Comment if byte == b'\n' => Place::Plain,
        Place::Comment => Place::Comment,
    }
}

fn shows(place: Place, byte: u8) -> bool
    ensures { result ≡ shows place byte }
{
    match place {
        Place::Plain => !is_space(byte) && byte != b'-',
        Place::Dash => byte != b'-',
        Place::Text => true,
        Place::Comment => false,
    }
}

impl Scan {
    /// Nothing is read yet.
    pub fn new() -> Scan
        ensures { (left : List ℕ) → IsScan result left }
    {
        Scan {
            place: Place::Plain,
            token: false,
            passed: 0,
        }
    }

    /// One more byte is read.
    fn behind(self, byte: u8) -> Scan
        requires { self.passed + 1 < 2 ^ 64 }
        ensures { result ≡ scan_behind self byte }
    {
        Scan {
            place: after(self.place, byte),
            token: self.token || shows(self.place, byte),
            passed: self.passed + 1,
        }
    }

    /// Whether what is read is only space and comments.
    fn is_blank(self) -> bool
        ensures { result ≡ is_blank_scan self }
    {
        !self.token && self.place != Place::Dash
    }
}

impl Cursor {
    /// A frame that begins there, of which nothing is read yet.
    pub fn new(start: usize) -> Cursor
        ensures start { result.start ≡ start }
        ensures scan { (left : List ℕ) → IsScan result.scan left }
    {
        Cursor {
            start,
            scan: Scan::new(),
        }
    }
}

/// Whether only space and comments are left, of which the first bytes are read.
pub(crate) fn is_blank(scan: Scan, left: &[u8]) -> bool
    requires { IsScan scan left.now }
    ensures { result ≡ is_blank left.now }
{
    let mut scan = scan;
    while scan.passed < left.len() {
        scan = scan.behind(left[scan.passed]);
    }
    scan.is_blank()
}

/// Reads on to the frame's end, or to the last byte that may be its end. It says whether the end was
/// found.
fn read_on(scan: Scan, left: &[u8]) -> (Scan, bool)
    requires { IsScan scan left.now }
    ensures scan { IsScan result.0 left.now }
    ensures ends { MatchBool result.1 (StandsAtEnd result.0 left.now)
        (result.0.passed ≡ min (length left.now) MAX_FRAME) }
{
    let mut scan = scan;
    let most = left.len().min(MAX_FRAME);
    while scan.passed < most {
        if ends(scan.place, left[scan.passed]) {
            return (scan, true);
        }
        scan = scan.behind(left[scan.passed]);
    }
    (scan, false)
}

/// Goes past the frames without a token. It says whether a whole frame is at the cursor then.
pub(crate) fn seek(cursor: Cursor, held: &[u8]) -> (Cursor, bool)
    requires { IsAt cursor held.now }
    ensures at { IsAt result.0 held.now }
    ensures skips { Skips (drop cursor.start held.now) (drop result.0.start held.now) }
    ensures ends { MatchBool result.1
        (StandsAtEnd result.0.scan (drop result.0.start held.now)
        × IsFalse (is_blank_scan result.0.scan))
        (result.0.scan.passed ≡ min (length (drop result.0.start held.now)) MAX_FRAME) }
{
    let mut cursor = cursor;
    loop {
        let (scan, whole) = read_on(cursor.scan, &held[cursor.start..]);
        cursor.scan = scan;
        if !whole {
            return (cursor, false);
        }
        if !scan.is_blank() {
            return (cursor, true);
        }
        cursor = Cursor::new(cursor.start + scan.passed + 1);
    }
}
