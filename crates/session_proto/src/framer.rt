//! A session's bytes, in pieces of any sizes, cut into statements and the bodies after them.
ghost use Rattle.std.specs.Prelude.{◌≡◌, ◌↔◌, ◌≤◌, [], ℕ, drop, min, length, vec_len, IsTrue, IfOk, OnOk, OnErr, IsErr, None};
ghost use Rattle.session_proto.specs.Frames.{is_blank, Skips};
ghost use Rattle.session_proto.specs.Input.{owed, paid, asked, fed, awaiting, given_of, IsNext};

use crate::scan::{Cursor, MAX_FRAME, Scan, is_blank, seek};
use std::alloc::{AllocError, Global};
use std::marker::Model;

/// A larger body is thrown away as it comes, and is never held.
pub const MAX_BODY: u64 = 16_777_216;

/// A body that is to come after a statement.
#[derive(Clone, Copy, Debug, PartialEq, Eq)]
pub struct Awaited {
    /// How many bytes it has.
    pub bytes: u64,
    /// How many of its bytes still come only to be thrown away.
    pub owed: u64,
}

/// What comes after a statement.
#[derive(Debug, Drop)]
pub enum Body {
    /// No body was asked for.
    None,
    /// The body.
    Bytes(Vec<u8>),
    /// A body of so many bytes, which were thrown away.
    Skipped(u64),
}

/// What the bytes give next.
#[derive(Debug, Drop)]
pub enum Framed {
    /// The text of a frame, without its `;`.
    Statement(Vec<u8>),
    /// The body that was asked for.
    Body(Body),
    /// Nothing before more bytes come.
    Need,
    /// The frame is longer than any may be.
    TooLong,
}

/// Takes the bytes of a session as they come, and gives its statements and bodies.
#[derive(Debug, Drop)]
pub struct Framer {
    held: Vec<u8>,
    cursor: Cursor,
    awaited: Option<Awaited>,
}

impl Model for Framer {
    ghost use Rattle.std.specs.Prelude.{drop, ◌<◌, ◌≤◌, length};
    ghost use Rattle.session_proto.specs.Input.{Input, owed, HoldsNothingOwed};
    ghost use Rattle.session_proto.specs.Scans.{IsAt};

    ghost Value = { Input };

    ghost view = { λ f. record { left = drop f.cursor.start f.held.items; awaited = f.awaited } };

    ghost invariant = { λ f. IsAt f.cursor f.held.items
        × HoldsNothingOwed f.awaited (drop f.cursor.start f.held.items) };
}

impl Framer {
    /// Nothing was fed yet. It takes no memory.
    pub fn new(alloc: Global) -> Framer
        ensures { result ≡ record { left = []; awaited = None } }
    {
        Framer {
            held: Vec::new(alloc),
            cursor: Cursor::new(0),
            awaited: None,
        }
    }

    /// Takes the next bytes. It costs time in their number, however many are held.
    pub fn feed(&mut self, piece: &[u8]) -> Result<(), AllocError>
        ensures ok { OnOk result (self.new ≡ fed self.old piece.now) }
        ensures err { OnErr result (self.new ≡ self.old) }
    {
        let count = at_most(owed(self.awaited), piece.len());
        self.cursor.start = let_go(&mut self.held, self.cursor.start);
        self.held.extend_from_slice(&piece[count..])?;
        self.awaited = paid(self.awaited, count);
        Ok(())
    }

    /// A body of so many bytes comes after the statement that was given last.
    pub fn want_body(&mut self, bytes: u64)
        ensures { self.new ≡ awaiting self.old bytes }
    {
        let body = asked(bytes);
        let count = at_most(body.owed, self.held.len() - self.cursor.start);
        if count > 0 {
            self.cursor = Cursor::new(self.cursor.start + count);
        }
        self.awaited = paid(Some(body), count);
    }

    /// The next statement or body. Frames without a token are passed over. It reads no byte of a
    /// frame twice, however often it is called, unless memory was out.
    pub fn next(&mut self, alloc: Global) -> Result<Framed, AllocError>
        ensures ok { IfOk result (λ framed. IsNext self.old (given_of framed) self.new) }
        ensures err { OnErr result (self.new ≡ self.old) }
    {
        match self.awaited {
            Some(body) => self.next_body(alloc, body),
            None => self.next_statement(alloc),
        }
    }

    fn next_body(&mut self, alloc: Global, body: Awaited) -> Result<Framed, AllocError>
        requires { self.old.awaited ≡ Some body }
        ensures ok { IfOk result (λ framed. IsNext self.old (given_of framed) self.new) }
        ensures err { OnErr result (self.new ≡ self.old) }
    {
        if body.bytes > MAX_BODY {
            if body.owed > 0 {
                return Ok(Framed::Need);
            }
            self.awaited = None;
            return Ok(Framed::Body(Body::Skipped(body.bytes)));
        }
        let size = body.bytes as usize;
        let left = &self.held[self.cursor.start..];
        if left.len() < size {
            return Ok(Framed::Need);
        }
        let bytes = Vec::from_slice(alloc, &left[..size])?;
        self.cursor = Cursor::new(self.cursor.start + size);
        self.awaited = None;
        Ok(Framed::Body(Body::Bytes(bytes)))
    }

    fn next_statement(&mut self, alloc: Global) -> Result<Framed, AllocError>
        requires { self.old.awaited ≡ None }
        ensures ok { IfOk result (λ framed. IsNext self.old (given_of framed) self.new) }
        ensures err { OnErr result (self.new ≡ self.old) }
    {
        let (cursor, whole) = seek(self.cursor, &self.held);
        if !whole {
            self.cursor = cursor;
            if cursor.scan.passed == MAX_FRAME {
                return Ok(Framed::TooLong);
            }
            return Ok(Framed::Need);
        }
        let end = cursor.start + cursor.scan.passed;
        let text = Vec::from_slice(alloc, &self.held[cursor.start..end])?;
        self.cursor = Cursor::new(end + 1);
        Ok(Framed::Statement(text))
    }

    /// The bytes that were fed and neither given nor thrown away.
    pub fn left(&self) -> &[u8]
        ensures { result.now ≡ self.now.left }
    {
        &self.held[self.cursor.start..]
    }

    /// Whether only space and comments are left, and no body is awaited.
    pub fn is_clean(&self) -> bool
        ensures { IsTrue result ↔ ((self.now.awaited ≡ None) × IsTrue (is_blank self.now.left)) }
    {
        match self.awaited {
            Some(_) => false,
            None => is_blank(self.cursor.scan, &self.held[self.cursor.start..]),
        }
    }
}

// How many bytes that come are thrown away.
fn owed(awaited: Option<Awaited>) -> u64
    ensures { result ≡ owed awaited }
{
    match awaited {
        Some(body) => body.owed,
        None => 0,
    }
}

// So many bytes less are owed.
fn paid(awaited: Option<Awaited>, count: usize) -> Option<Awaited>
    ensures { result ≡ paid awaited count }
{
    let body = awaited?;
    Some(Awaited {
        bytes: body.bytes,
        owed: body.owed.saturating_sub(count as u64),
    })
}

fn asked(bytes: u64) -> Awaited
    ensures { result ≡ asked bytes }
{
    let owed = if bytes <= MAX_BODY { 0 } else { bytes };
    Awaited { bytes, owed }
}

fn at_most(count: u64, most: usize) -> usize
    ensures { result ≡ min count most }
{
    if count < most as u64 {
        count as usize
    } else {
        most
    }
}

// Lets go of the bytes before a place, if they are at least as many as those after it, and says
// where the place is then. So each byte is moved as often as one is let go, or less.
fn let_go(held: &mut Vec<u8>, start: usize) -> usize
    requires { start ≤ vec_len held.old }
    ensures left { drop result held.new.items ≡ drop start held.old.items }
    ensures within { result ≤ vec_len held.new }
{
    let left = held.len() - start;
    if start == 0 || start < left {
        return start;
    }
    held.rotate_left(start);
    held.truncate(left);
    0
}
