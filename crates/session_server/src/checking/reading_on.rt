//! Reading on to the end of the input, no more than a session takes.
ghost use Rattle.std.specs.Prelude.{◌≡◌, length};
ghost use Rattle.pq_base.specs.Shown.{shown};
ghost use Rattle.session_server.specs.Checking.{Collects, ReadsPiece, ThrowsAway};

use crate::checking::CheckEnd;
use paql_engine::{MAX_BYTES, MAX_READ};
use pq_base::{Pull, Source};

/// Reads once, after so many bytes were taken. It lends no more of the buffer than may still be
/// taken. None come only at the end of the input.
pub(crate) fn read_piece<S: Source>(
    source: &mut S,
    taken: usize,
    buf: &mut [u8],
) -> Result<usize, CheckEnd>
    requires { length buf.old ≡ MAX_READ }
    ensures reads { ReadsPiece (shown S.left S.faults source.old)
        (shown S.left S.faults source.new) taken buf.new result }
    ensures buffer { length buf.new ≡ length buf.old }
{
    let room = MAX_BYTES.saturating_sub(taken).min(MAX_READ);
    if room == 0 {
        return Err(CheckEnd::SessionLimit);
    }
    match source.read(&mut buf[..room]) {
        Pull::Failed => Err(CheckEnd::ReadFault),
        Pull::Got(count) => Ok(count),
    }
}

/// All that comes, after these bytes.
pub(crate) fn collect<S: Source>(
    source: &mut S,
    taken: usize,
    before: Vec<u8>,
) -> Result<Vec<u8>, CheckEnd>
    ensures { Collects (shown S.left S.faults source.old) (shown S.left S.faults source.new)
        taken before.items result }
{
    let mut all = before;
    let mut taken = taken;
    let mut buf = [0u8; MAX_READ];
    loop {
        let count = read_piece(source, taken, &mut buf)?;
        if count == 0 {
            return Ok(all);
        }
        taken += count;
        all.extend_from_slice(&buf[..count])?;
    }
}

/// Nothing is kept of what comes.
pub(crate) fn throw_away<S: Source>(source: &mut S, taken: usize) -> Result<(), CheckEnd>
    ensures { ThrowsAway (shown S.left S.faults source.old) (shown S.left S.faults source.new)
        taken result }
{
    let mut taken = taken;
    let mut buf = [0u8; MAX_READ];
    loop {
        let count = read_piece(source, taken, &mut buf)?;
        if count == 0 {
            return Ok(());
        }
        taken += count;
    }
}
